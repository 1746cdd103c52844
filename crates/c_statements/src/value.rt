//! Values that may be left out.

ghost use Rattle.c_words.specs.Parsing.{Reads};
ghost use Rattle.c_expressions.specs.ExpressionReading.{inner_at};
ghost use Rattle.c_type_names.specs.Held.{ReadsAfter};
ghost use Rattle.c_statements.specs.StatementReading as spec;

use c_expressions::expression::whole_expression;
use c_grammar::whole::Expression;
use c_type_names::held::then_expect;
use c_words::cursor::{Cursor, same};
use c_words::fault::ParseFault;
use c_words::word::{Leaf, Word};
use std::alloc::Global;

/// A value before `stop`.
#[tactic(auto, unfolding(crate::specs::StatementReading::unless))]
fn unless(
    alloc: Global,
    tokens: &mut Cursor<'_>,
    stop: Word,
    depth: usize,
) -> Result<Option<Expression>, ParseFault>
    ensures { Reads (spec.unless stop (inner_at depth).assign tokens.old) result tokens.new }
{
    if same(stop, tokens.peek()) {
        return Ok(None);
    }
    let value = whole_expression(alloc, tokens, depth)?;
    Ok(Some(value))
}

/// The same, and `stop`.
#[tactic(auto, unfolding(crate::specs::StatementReading::up_to))]
pub fn up_to(
    alloc: Global,
    tokens: &mut Cursor<'_>,
    stop: Word,
    depth: usize,
) -> Result<(Option<Expression>, Leaf), ParseFault>
    ensures { Reads (spec.up_to stop (inner_at depth).assign tokens.old) result tokens.new }
{
    let value = unless(alloc, tokens, stop, depth)?;
    then_expect(value, tokens, stop)
}

/// The same, where `held` was read before.
pub fn then_up_to<T: Drop>(
    held: T,
    alloc: Global,
    tokens: &mut Cursor<'_>,
    stop: Word,
    depth: usize,
) -> Result<(T, (Option<Expression>, Leaf)), ParseFault>
    ensures { ReadsAfter held (spec.up_to stop (inner_at depth).assign tokens.old) result tokens.new }
{
    let found = up_to(alloc, tokens, stop, depth)?;
    Ok((held, found))
}
