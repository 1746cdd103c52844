//! Programs: the whole text.

ghost use Rattle.std.specs.Prelude.{◌≡◌, [], ◌+◌, suc, Some, IfOk};
ghost use Rattle.c_grammar.specs.Programs.{IsTreeOf, HasNoTree, HaveOneTree, nesting_limit as nesting_limit_of};
ghost use Rattle.c_words.specs.Parsing.{Reads, IsSyntax};
ghost use Rattle.c_parser.specs.ItemReading as spec;
ghost use Rattle.c_parser.specs.ItemReading.{IsWhole};

use crate::item::ItemReader;
use c_grammar::program::{Item, ProgramTree};
use c_lexer::Token;
use c_type_names::chain::run;
use c_type_names::held::unless_refused;
use c_words::cursor::Cursor;
use c_words::fault::ParseFault;
use c_words::leaf::leaves_of;
use c_words::word::{Leaf, Mode};
use sqlite_items::Items;
use std::alloc::Global;

/// How deep a text may nest.
fn nesting_limit(mode: Mode) -> usize
    ensures { result ≡ nesting_limit_of mode }
{
    match mode {
        Mode::Source => 64,
        Mode::Woven => 1024,
    }
}

#[tactic(auto, unfolding(crate::specs::ItemReading::items_at))]
fn items(alloc: Global, tokens: &mut Cursor<'_>, mode: Mode) -> Result<Items<Item>, ParseFault>
    ensures { Reads (spec.items_at (nesting_limit_of mode) tokens.old) result tokens.new }
{
    let inside = nesting_limit(mode);
    let reader = ItemReader {
        alloc,
        depth: inside + 1,
        inside,
    };
    run(alloc, tokens, &reader)
}

fn whole(
    alloc: Global,
    text: &[u8],
    tokens: &[Token],
    mode: Mode,
) -> Result<ProgramTree, ParseFault>
    ensures found { IfOk result (λ p. IsWhole mode text.now tokens.now p) }
    ensures refused { IsSyntax result → (p : ProgramTree) → IsWhole mode text.now tokens.now p → ⊥ }
{
    let leaves = leaves_of(alloc, text, tokens, mode)?;
    let mut cursor = Cursor::new(&leaves);
    let items = items(alloc, &mut cursor, mode)?;
    let refused = cursor.left() != 0;
    let items = unless_refused(items, &cursor, refused)?;
    Ok(ProgramTree { items })
}

/// The tree of the program that the tokens of the text spell (C11 6.9), in the mode's grammar and nesting limit.
///
/// No contract says these: a fault of syntax names the first token that no program of the mode can have after those before
/// it, or `0:0` at the end; the steps are as many as the tokens, times at most the nesting; stack is taken for the nesting
/// alone.
pub fn parse_program(
    alloc: Global,
    text: &[u8],
    tokens: &[Token],
    mode: Mode,
) -> Result<ProgramTree, ParseFault>
    ensures found { IfOk result (λ p. IsTreeOf mode text.now tokens.now p) }
    // A fault of syntax comes only where no tree stands for the tokens.
    ensures refused { IsSyntax result → HasNoTree mode text.now tokens.now }
{
    whole(alloc, text, tokens, mode)
}

/// Tokens have at most one levelled tree, however deep it nests.
pub fn one_tree()
    ensures { HaveOneTree }
{}
