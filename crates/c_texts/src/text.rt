//! From the bytes of a text to its core: tokens, then the tree, then elaboration, with their refusals in this order.

ghost use Rattle.std.specs.Prelude.{◌≡◌, ◌≤◌, length, None, IfOk, IfErr};
ghost use Rattle.c_grammar.specs.Programs.{IsTreeOf};
ghost use Rattle.c_lexer.specs.Lexing.{Tokens};
ghost use Rattle.c_texts.specs.Texts.{IsRefused, StandsFor};
ghost use Rattle.step_meaning.specs.Sources.{IsSource};
ghost use Rattle.step_meaning.specs.WellFormed.{IsWellFormed};

use crate::fault::TextFault;
use c_lexer::Token;
use c_lexer::lexing::{MAX_TEXT, lex};
use c_parser::{Mode, ProgramTree, parse_program};
use c_types::elaborate;
use std::alloc::Global;
use step_meaning::Core;

/// The core of the tree that these tokens of the text have.
fn core_of_tree(
    alloc: Global,
    text: &[u8],
    tokens: &[Token],
    tree: &ProgramTree,
    mode: Mode,
) -> Result<Core, TextFault>
    requires lexed { Tokens text.now tokens.now None }
    requires parsed { IsTreeOf mode text.now tokens.now tree.now }
    ensures stands { IfOk result (λ q. StandsFor mode text.now q) }
    ensures refused { IfErr result (λ f. IsRefused mode text.now f) }
    ensures formed { IfOk result (λ q. IsWellFormed q) }
    ensures source { IfOk result (λ q. mode ≡ Mode.Source → IsSource q) }
{
    match elaborate(alloc, text, tree, mode) {
        Ok(core) => Ok(core),
        Err(fault) => Err(TextFault::Type(fault)),
    }
}

/// The core of the text that has these tokens.
fn core_of_tokens(
    alloc: Global,
    text: &[u8],
    tokens: &[Token],
    mode: Mode,
) -> Result<Core, TextFault>
    requires lexed { Tokens text.now tokens.now None }
    ensures stands { IfOk result (λ q. StandsFor mode text.now q) }
    ensures refused { IfErr result (λ f. IsRefused mode text.now f) }
    ensures formed { IfOk result (λ q. IsWellFormed q) }
    ensures source { IfOk result (λ q. mode ≡ Mode.Source → IsSource q) }
{
    match parse_program(alloc, text, tokens, mode) {
        Ok(tree) => core_of_tree(alloc, text, tokens, &tree, mode),
        Err(fault) => Err(TextFault::Syntax(fault)),
    }
}

/// The core that a text stands for, or why it stands for none: no tokens, else no tree, else the first broken rule. The core is well
/// formed; that of a source is one.
pub fn core_of_text(alloc: Global, text: &[u8], mode: Mode) -> Result<Core, TextFault>
    requires { length text.now ≤ MAX_TEXT }
    ensures stands { IfOk result (λ q. StandsFor mode text.now q) }
    ensures refused { IfErr result (λ f. IsRefused mode text.now f) }
    ensures formed { IfOk result (λ q. IsWellFormed q) }
    ensures source { IfOk result (λ q. mode ≡ Mode.Source → IsSource q) }
{
    match lex(alloc, text) {
        Ok(tokens) => core_of_tokens(alloc, text, &tokens, mode),
        Err(fault) => Err(TextFault::Lex(fault)),
    }
}
