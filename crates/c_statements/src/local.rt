//! Declarations in a function.

ghost use Rattle.std.specs.Prelude.{◌≡◌};
ghost use Rattle.c_words.specs.Parsing.{Reads};
ghost use Rattle.c_type_names.specs.Held.{ReadsAfter};
ghost use Rattle.c_statements.specs.StatementReading as spec;

use c_declarations::declared::all_declared;
use c_grammar::declaration::Declared;
use c_grammar::statement::Local;
use c_type_names::held::{then_base, then_expect};
use c_type_names::types::{base, consts};
use c_words::chain::Chain;
use c_words::cursor::{Cursor, same};
use c_words::fault::ParseFault;
use c_words::word::{Leaf, Word};
use std::alloc::Global;

/// Whether a declaration begins with the word.
pub fn begins_local(word: Word) -> bool
    ensures { result ≡ spec.begins_local word }
{
    matches!(
        word,
        Word::Register
            | Word::Const
            | Word::Void
            | Word::Struct
            | Word::Char
            | Word::Signed
            | Word::Unsigned
            | Word::Short
            | Word::Int
            | Word::Long
    )
}

/// What is declared, and the `;`.
#[tactic(auto, unfolding(crate::specs::StatementReading::names))]
fn names(
    alloc: Global,
    tokens: &mut Cursor<'_>,
    depth: usize,
) -> Result<(Chain<Declared>, Leaf), ParseFault>
    ensures { Reads (spec.names depth tokens.old) result tokens.new }
{
    let found = all_declared(alloc, tokens, depth)?;
    then_expect(found, tokens, Word::Semicolon)
}

/// The same, where `held` was read before.
fn then_names<T: Drop>(
    held: T,
    alloc: Global,
    tokens: &mut Cursor<'_>,
    depth: usize,
) -> Result<(T, (Chain<Declared>, Leaf)), ParseFault>
    ensures { ReadsAfter held (spec.names depth tokens.old) result tokens.new }
{
    let found = names(alloc, tokens, depth)?;
    Ok((held, found))
}

#[tactic(auto, unfolding(crate::specs::StatementReading::registers))]
fn registers(alloc: Global, tokens: &mut Cursor<'_>, depth: usize) -> Result<Local, ParseFault>
    ensures { Reads (spec.registers depth tokens.old) result tokens.new }
{
    let register = tokens.expect(Word::Register)?;
    let base = base(alloc, tokens)?;
    let (base, names) = then_names(base, alloc, tokens, depth)?;
    let (found, semicolon) = names;
    Ok(Local::Registers(register, base, found, semicolon))
}

#[tactic(auto, unfolding(crate::specs::StatementReading::variables))]
fn variables(alloc: Global, tokens: &mut Cursor<'_>, depth: usize) -> Result<Local, ParseFault>
    ensures { Reads (spec.variables depth tokens.old) result tokens.new }
{
    let consts = consts(alloc, tokens)?;
    let (consts, base) = then_base(consts, alloc, tokens)?;
    let (held, names) = then_names((consts, base), alloc, tokens, depth)?;
    let (consts, base) = held;
    let (found, semicolon) = names;
    Ok(Local::Variables(consts, base, found, semicolon))
}

/// A declaration that nests less than `depth`.
#[tactic(auto, unfolding(crate::specs::StatementReading::local), using(crate::proofs::Deep::deep_none, crate::proofs::Deep::deep_gives))]
pub fn local(alloc: Global, tokens: &mut Cursor<'_>, depth: usize) -> Result<Local, ParseFault>
    ensures { Reads (spec.local depth tokens.old) result tokens.new }
{
    if depth == 0 {
        return Err(tokens.refuse());
    }
    if same(Word::Register, tokens.peek()) {
        registers(alloc, tokens, depth)
    } else {
        variables(alloc, tokens, depth)
    }
}
