//! Sizes in brackets.

ghost use Rattle.c_words.specs.Parsing.{Reads};
ghost use Rattle.c_expressions.specs.ExpressionReading.{inner_at};
ghost use Rattle.c_declarations.specs.Brackets as spec;
ghost use Rattle.c_type_names.specs.Held.{ReadsAfter};

use c_expressions::expression::whole_conditional;
use c_grammar::whole::Conditional;
use c_type_names::held::then_expect;
use c_words::cursor::Cursor;
use c_words::fault::ParseFault;
use c_words::word::{Leaf, Word};
use std::alloc::Global;

/// `[`, a size, `]`.
#[derive(Drop)]
pub struct Bracket {
    pub left: Leaf,
    pub size: Conditional,
    pub right: Leaf,
}

/// A size in brackets, which nests below `inside`.
#[tactic(auto, unfolding(crate::specs::Brackets::bracketed))]
pub fn bracketed(
    alloc: Global,
    tokens: &mut Cursor<'_>,
    inside: usize,
) -> Result<Bracket, ParseFault>
    ensures { Reads (spec.bracketed (inner_at inside).choice tokens.old) result tokens.new }
{
    let left = tokens.expect(Word::LeftBracket)?;
    let size = whole_conditional(alloc, tokens, inside)?;
    let (size, right) = then_expect(size, tokens, Word::RightBracket)?;
    Ok(Bracket { left, size, right })
}

/// The same, where `held` was read before.
pub fn then_bracketed<T: Drop>(
    held: T,
    alloc: Global,
    tokens: &mut Cursor<'_>,
    inside: usize,
) -> Result<(T, Bracket), ParseFault>
    ensures { ReadsAfter held (spec.bracketed (inner_at inside).choice tokens.old) result tokens.new }
{
    let found = bracketed(alloc, tokens, inside)?;
    Ok((held, found))
}
