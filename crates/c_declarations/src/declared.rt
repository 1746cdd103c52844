//! What a declaration declares.

ghost use Rattle.std.specs.Prelude.{◌≡◌, [], false};
ghost use Rattle.c_grammar.specs.Declarations as grammar;
ghost use Rattle.c_words.specs.Parsing.{Reads};
ghost use Rattle.c_declarations.specs.DeclaratorReading.{declarator_from};
ghost use Rattle.c_declarations.specs.DeclaredReading as spec;
ghost use Rattle.c_type_names.specs.Held.{ReadsAfter};

use crate::declarator::declarator;
use crate::init::then_init;
use c_grammar::declaration::{Declarator, Declared, Direct};
use c_type_names::chain::{Operand, chain};
use c_type_names::held::{then_expect, unless_refused};
use c_words::chain::Chain;
use c_words::cursor::{Cursor, same};
use c_words::fault::ParseFault;
use c_words::operators::Operators;
use c_words::word::Word;
use sqlite_items::Items;
use std::alloc::Global;

#[cycle(emptiness)]
#[tactic(auto, using(crate::proofs::UnsizedLaws::unsized_name, crate::proofs::UnsizedLaws::unsized_empty, crate::proofs::UnsizedLaws::unsized_paren, crate::proofs::UnsizedLaws::unsized_array))]
fn direct_is_unsized(tree: &Direct) -> bool
    ensures { result ≡ (grammar.direct_shape tree.now).unsized }
{
    match tree {
        Direct::Name(_) => false,
        Direct::Unsized(_, _, _) => true,
        Direct::Paren(_, inside, _) => is_unsized(inside.get()),
        Direct::Array(before, _, _, _) => direct_is_unsized(before.get()),
    }
}

/// Whether the `[ ]` right after the name is empty.
#[cycle(emptiness)]
#[tactic(auto, using(crate::proofs::UnsizedLaws::unsized_declarator))]
fn is_unsized(tree: &Declarator) -> bool
    ensures { result ≡ grammar.is_unsized tree.now }
{
    direct_is_unsized(&tree.direct)
}

#[tactic(auto, unfolding(crate::specs::DeclaredReading::initialised))]
fn initialised(
    alloc: Global,
    tokens: &mut Cursor<'_>,
    depth: usize,
    declarator: Declarator,
) -> Result<Declared, ParseFault>
    ensures { Reads (spec.initialised depth declarator tokens.old) result tokens.new }
{
    let (declarator, equals) = then_expect(declarator, tokens, Word::Assign)?;
    let (held, value) = then_init((declarator, equals), alloc, tokens, depth)?;
    let (declarator, equals) = held;
    Ok(Declared::Initialised(declarator, equals, value))
}

/// A declarator without initialiser, whose `[ ]` are not empty.
fn plain(tokens: &Cursor<'_>, declarator: Declarator) -> Result<Declared, ParseFault>
    ensures { Reads (spec.plain declarator tokens.now) result tokens.now }
{
    let refused = is_unsized(&declarator);
    let declarator = unless_refused(declarator, tokens, refused)?;
    Ok(Declared::Plain(declarator))
}

#[tactic(auto, unfolding(crate::specs::DeclaredReading::after_declarator))]
fn after_declarator(
    alloc: Global,
    tokens: &mut Cursor<'_>,
    depth: usize,
    declarator: Declarator,
) -> Result<Declared, ParseFault>
    ensures { Reads (spec.after_declarator depth declarator tokens.old) result tokens.new }
{
    if same(Word::Assign, tokens.peek()) {
        initialised(alloc, tokens, depth, declarator)
    } else {
        plain(tokens, declarator)
    }
}

/// What is declared, and nests below `depth`.
#[tactic(auto, unfolding(crate::specs::DeclaredReading::declared))]
fn declared(alloc: Global, tokens: &mut Cursor<'_>, depth: usize) -> Result<Declared, ParseFault>
    ensures { Reads (spec.declared depth tokens.old) result tokens.new }
{
    let found = declarator(alloc, tokens, true, depth, Items::new(alloc))?;
    after_declarator(alloc, tokens, depth, found)
}

/// Reads what is declared, and nests below `depth`.
#[derive(Clone, Copy)]
struct DeclaredReader {
    alloc: Global,
    depth: usize,
}

impl Operand<Declared> for DeclaredReader {
    ghost can_read = { λ _. Unit {0} };

    ghost parser = { λ r. spec.declared r.depth };

    fn operand(&self, tokens: &mut Cursor<'_>) -> Result<Declared, ParseFault> {
        declared(self.alloc, tokens, self.depth)
    }
}

impl Operand<Declarator> for DeclaredReader {
    ghost can_read = { λ _. Unit {0} };

    ghost parser = { λ r. declarator_from false r.depth [] };

    fn operand(&self, tokens: &mut Cursor<'_>) -> Result<Declarator, ParseFault> {
        declarator(
            self.alloc,
            tokens,
            false,
            self.depth,
            Items::new(self.alloc),
        )
    }
}

/// What a declaration declares, one after another, each nesting below `depth`.
#[tactic(auto, unfolding(crate::specs::DeclaredReading::all_declared))]
pub fn all_declared(
    alloc: Global,
    tokens: &mut Cursor<'_>,
    depth: usize,
) -> Result<Chain<Declared>, ParseFault>
    ensures { Reads (spec.all_declared depth tokens.old) result tokens.new }
{
    chain(
        alloc,
        tokens,
        Operators::List,
        &DeclaredReader { alloc, depth },
    )
}

/// Declarators whose `[ ]` are not empty, one after another, each nesting below `depth`.
#[tactic(auto, unfolding(crate::specs::DeclaredReading::declarators))]
pub fn declarators(
    alloc: Global,
    tokens: &mut Cursor<'_>,
    depth: usize,
) -> Result<Chain<Declarator>, ParseFault>
    ensures { Reads (spec.declarators depth tokens.old) result tokens.new }
{
    chain(
        alloc,
        tokens,
        Operators::List,
        &DeclaredReader { alloc, depth },
    )
}

/// What a declaration declares, where `held` was read before.
pub fn then_all_declared<T: Drop>(
    held: T,
    alloc: Global,
    tokens: &mut Cursor<'_>,
    depth: usize,
) -> Result<(T, Chain<Declared>), ParseFault>
    ensures { ReadsAfter held (spec.all_declared depth tokens.old) result tokens.new }
{
    let found = all_declared(alloc, tokens, depth)?;
    Ok((held, found))
}

/// Declarators, where `held` was read before.
pub fn then_declarators<T: Drop>(
    held: T,
    alloc: Global,
    tokens: &mut Cursor<'_>,
    depth: usize,
) -> Result<(T, Chain<Declarator>), ParseFault>
    ensures { ReadsAfter held (spec.declarators depth tokens.old) result tokens.new }
{
    let found = declarators(alloc, tokens, depth)?;
    Ok((held, found))
}
