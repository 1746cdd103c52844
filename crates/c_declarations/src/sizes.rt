//! The sizes of a parameter without name.

ghost use Rattle.std.specs.Prelude.{◌≡◌, ◌<◌};
ghost use Rattle.c_grammar.specs.Declarations as grammar;
ghost use Rattle.c_words.specs.Parsing.{Reads};
ghost use Rattle.c_type_names.specs.Held.{ReadsAfter};
ghost use Rattle.c_declarations.specs.ParameterReading as spec;

use crate::bracket::{bracketed, then_bracketed};
use crate::deepest::deepest;
use c_grammar::declaration::Sizes;
use c_grammar::measured::MeasuredSizes;
use c_words::cursor::{Cursor, same};
use c_words::fault::ParseFault;
use c_words::word::Word;
use std::alloc::Global;

#[tactic(auto, unfolding(crate::specs::ParameterReading::empty_size))]
fn empty_size(tokens: &mut Cursor<'_>) -> Result<MeasuredSizes, ParseFault>
    ensures { Reads (spec.empty_size tokens.old) result tokens.new }
{
    let open = tokens.expect(Word::LeftBracket)?;
    let close = tokens.expect(Word::RightBracket)?;
    Ok(MeasuredSizes::empty(open, close))
}

#[tactic(auto, unfolding(crate::specs::ParameterReading::some_size), using(crate::proofs::BracketLaws::size_below))]
fn some_size(
    alloc: Global,
    tokens: &mut Cursor<'_>,
    inside: usize,
) -> Result<MeasuredSizes, ParseFault>
    ensures { Reads (spec.some_size inside tokens.old) result tokens.new }
{
    let bracket = bracketed(alloc, tokens, inside)?;
    let inner = deepest(0, bracket.size.get(), inside);
    Ok(MeasuredSizes::first(bracket.left, bracket.size, bracket.right, inner))
}

/// The first size, which may be empty.
#[tactic(auto, unfolding(crate::specs::ParameterReading::first_size))]
fn first_size(
    alloc: Global,
    tokens: &mut Cursor<'_>,
    inside: usize,
) -> Result<MeasuredSizes, ParseFault>
    ensures { Reads (spec.first_size inside tokens.old) result tokens.new }
{
    if same(Word::RightBracket, tokens.second()) {
        empty_size(tokens)
    } else {
        some_size(alloc, tokens, inside)
    }
}

/// A size after those that were found, which may nest one deeper.
#[tactic(auto, unfolding(crate::specs::ParameterReading::next_size), using(crate::proofs::BracketLaws::size_below))]
fn next_size(
    alloc: Global,
    tokens: &mut Cursor<'_>,
    inside: usize,
    found: MeasuredSizes,
) -> Result<MeasuredSizes, ParseFault>
    requires { (grammar.sizes found).nesting < inside }
    ensures { Reads (spec.next_size inside found tokens.old) result tokens.new }
{
    let before = found.nesting();
    let (found, bracket) = then_bracketed(found, alloc, tokens, inside)?;
    let inner = deepest(before, bracket.size.get(), inside);
    Ok(MeasuredSizes::next(
        alloc,
        found,
        bracket.left,
        bracket.size,
        bracket.right,
        inner,
    )?)
}

/// The sizes after those that were found, as long as those may nest one deeper.
fn next_sizes(
    alloc: Global,
    tokens: &mut Cursor<'_>,
    inside: usize,
    found: MeasuredSizes,
) -> Result<MeasuredSizes, ParseFault>
    ensures { Reads (spec.sizes_from inside inside found tokens.old) result tokens.new }
{
    let mut found = found;
    for _turn in 0..inside {
        if !(same(Word::LeftBracket, tokens.peek()) && found.nesting() < inside) {
            return Ok(found);
        }
        found = next_size(alloc, tokens, inside, found)?;
    }
    Ok(found)
}

/// Sizes that nest below `depth`.
#[tactic(auto, unfolding(crate::specs::ParameterReading::sizes_at))]
pub fn sizes(alloc: Global, tokens: &mut Cursor<'_>, depth: usize) -> Result<Sizes, ParseFault>
    ensures { Reads (spec.sizes_at depth tokens.old) result tokens.new }
{
    if depth == 0 {
        return Err(tokens.refuse());
    }
    let found = first_size(alloc, tokens, depth - 1)?;
    let found = next_sizes(alloc, tokens, depth - 1, found)?;
    Ok(found.into_tree())
}

/// The same, where `held` was read before.
pub fn then_sizes<T: Drop>(
    held: T,
    alloc: Global,
    tokens: &mut Cursor<'_>,
    depth: usize,
) -> Result<(T, Sizes), ParseFault>
    ensures { ReadsAfter held (spec.sizes_at depth tokens.old) result tokens.new }
{
    let found = sizes(alloc, tokens, depth)?;
    Ok((held, found))
}
