//! Declarators.

ghost use Rattle.std.specs.Prelude.{◌≡◌, ◌<◌, []};
ghost use Rattle.c_grammar.specs.Declarations as grammar;
ghost use Rattle.c_words.specs.Parsing.{Reads};
ghost use Rattle.c_expressions.specs.ExpressionReading.{inner_at};
ghost use Rattle.c_declarations.specs.DeclaratorReading as spec;
ghost use Rattle.c_type_names.specs.Held.{ReadsAfter};

use crate::bracket::then_bracketed;
use crate::deepest::deepest;
use c_grammar::declaration::Declarator;
use c_grammar::measured::{MeasuredDeclarator, MeasuredDirect};
use c_grammar::types::Star;
use c_type_names::held::then_expect;
use c_type_names::types::star;
use c_words::cursor::{Cursor, same};
use c_words::fault::ParseFault;
use c_words::word::{Leaf, Word};
use sqlite_items::Items;
use std::alloc::Global;

#[tactic(auto, unfolding(crate::specs::DeclaratorReading::empty_bracket))]
fn empty_bracket(tokens: &mut Cursor<'_>, name: Leaf) -> Result<MeasuredDirect, ParseFault>
    ensures { Reads (spec.empty_bracket name tokens.old) result tokens.new }
{
    let open = tokens.expect(Word::LeftBracket)?;
    let close = tokens.expect(Word::RightBracket)?;
    Ok(MeasuredDirect::without_size(name, open, close))
}

/// A name, with its empty `[ ]` where it may have one. What nests here may nest below `inside`.
#[tactic(auto, unfolding(crate::specs::DeclaratorReading::named))]
fn named(
    tokens: &mut Cursor<'_>,
    may_be_empty: bool,
    inside: usize,
) -> Result<MeasuredDirect, ParseFault>
    ensures { Reads (spec.named may_be_empty inside tokens.old) result tokens.new }
{
    let name = tokens.expect(Word::Name)?;
    if may_be_empty
        && inside > 0
        && same(Word::LeftBracket, tokens.peek())
        && same(Word::RightBracket, tokens.second())
    {
        empty_bracket(tokens, name)
    } else {
        Ok(MeasuredDirect::name(name))
    }
}

/// A size in brackets after what was found, which may nest one deeper.
#[tactic(auto, unfolding(crate::specs::DeclaratorReading::array), using(crate::proofs::BracketLaws::size_below))]
fn array(
    alloc: Global,
    tokens: &mut Cursor<'_>,
    inside: usize,
    found: MeasuredDirect,
) -> Result<MeasuredDirect, ParseFault>
    requires { (grammar.direct found).nesting < inside }
    ensures { Reads (spec.array (inner_at inside).choice found tokens.old) result tokens.new }
{
    let before = found.nesting();
    let (found, bracket) = then_bracketed(found, alloc, tokens, inside)?;
    let inner = deepest(before, bracket.size.get(), inside);
    Ok(MeasuredDirect::array(
        alloc,
        found,
        bracket.left,
        bracket.size,
        bracket.right,
        inner,
    )?)
}

/// The `[ ]` after what was found, as long as what they stand after may nest one deeper.
fn arrays(
    alloc: Global,
    tokens: &mut Cursor<'_>,
    inside: usize,
    found: MeasuredDirect,
) -> Result<MeasuredDirect, ParseFault>
    ensures { Reads (spec.arrays_from inside (inner_at inside).choice inside found tokens.old) result tokens.new }
{
    let mut found = found;
    for _turn in 0..inside {
        if !(same(Word::LeftBracket, tokens.peek()) && found.nesting() < inside) {
            return Ok(found);
        }
        found = array(alloc, tokens, inside, found)?;
    }
    Ok(found)
}

#[cycle(declarator)]
#[tactic(auto, unfolding(crate::specs::DeclaratorReading::parenthesized))]
fn parenthesized(
    alloc: Global,
    tokens: &mut Cursor<'_>,
    may_be_empty: bool,
    inside: usize,
) -> Result<MeasuredDirect, ParseFault>
    ensures { Reads (spec.parenthesized (spec.declarator_from may_be_empty inside []) tokens.old) result tokens.new }
{
    let open = tokens.expect(Word::LeftParen)?;
    let found = measured(alloc, tokens, may_be_empty, inside, Items::new(alloc))?;
    let (found, close) = then_expect(found, tokens, Word::RightParen)?;
    Ok(MeasuredDirect::parenthesized(alloc, open, found, close)?)
}

#[cycle(declarator)]
#[tactic(auto, unfolding(crate::specs::DeclaratorReading::core))]
fn core(
    alloc: Global,
    tokens: &mut Cursor<'_>,
    may_be_empty: bool,
    inside: usize,
) -> Result<MeasuredDirect, ParseFault>
    ensures { Reads (spec.core may_be_empty inside (spec.declarator_from may_be_empty inside []) tokens.old) result tokens.new }
{
    match tokens.peek() {
        Word::Name => named(tokens, may_be_empty, inside),
        Word::LeftParen if inside > 0 => parenthesized(alloc, tokens, may_be_empty, inside),
        _ => Err(tokens.refuse()),
    }
}

#[cycle(declarator)]
#[tactic(auto, unfolding(crate::specs::DeclaratorReading::direct))]
fn direct(
    alloc: Global,
    tokens: &mut Cursor<'_>,
    may_be_empty: bool,
    inside: usize,
) -> Result<MeasuredDirect, ParseFault>
    ensures { Reads (spec.direct may_be_empty inside (inner_at inside).choice (spec.declarator_from may_be_empty inside []) tokens.old) result tokens.new }
{
    let found = core(alloc, tokens, may_be_empty, inside)?;
    arrays(alloc, tokens, inside, found)
}

/// A declarator that nests below `depth`, after the stars that were found, with how deep it nests.
#[cycle(declarator)]
#[tactic(auto, unfolding(crate::specs::DeclaratorReading::declarator_from))]
fn measured(
    alloc: Global,
    tokens: &mut Cursor<'_>,
    may_be_empty: bool,
    depth: usize,
    stars: Items<Star>,
) -> Result<MeasuredDeclarator, ParseFault>
    ensures { Reads (spec.declarator_from may_be_empty depth stars tokens.old) result tokens.new }
{
    if depth == 0 {
        return Err(tokens.refuse());
    }
    if !same(Word::Star, tokens.peek()) {
        let direct = direct(alloc, tokens, may_be_empty, depth - 1)?;
        return Ok(MeasuredDeclarator::new(stars, direct));
    }
    if depth == 1 {
        return Err(tokens.refuse());
    }
    let mut stars = stars;
    let next = star(alloc, tokens)?;
    stars.push(next)?;
    measured(alloc, tokens, may_be_empty, depth - 1, stars)
}

/// A declarator that nests below `depth`, after the stars that were found. The `[ ]` right after its name may be empty where
/// `may_be_empty` says so.
pub fn declarator(
    alloc: Global,
    tokens: &mut Cursor<'_>,
    may_be_empty: bool,
    depth: usize,
    stars: Items<Star>,
) -> Result<Declarator, ParseFault>
    ensures { Reads (spec.declarator_from may_be_empty depth stars tokens.old) result tokens.new }
{
    let found = measured(alloc, tokens, may_be_empty, depth, stars)?;
    Ok(found.into_tree())
}

/// The same, where `held` was read before.
pub fn then_declarator<T: Drop>(
    held: T,
    alloc: Global,
    tokens: &mut Cursor<'_>,
    may_be_empty: bool,
    depth: usize,
    stars: Items<Star>,
) -> Result<(T, Declarator), ParseFault>
    ensures { ReadsAfter held (spec.declarator_from may_be_empty depth stars tokens.old) result tokens.new }
{
    let found = declarator(alloc, tokens, may_be_empty, depth, stars)?;
    Ok((held, found))
}
