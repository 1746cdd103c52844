ghost use Rattle.std.specs.Prelude.{◌≡◌, ◌*ℤ◌, ◌+ℤ◌, ◌-ℤ◌, ℤ, neg_ℤ, int_div, int_rem, Some, option_map};
ghost use Rattle.step_meaning.specs.Bounded.{IsWithin, WhereDefined, IsProductWithin};
ghost use Rattle.step_meaning.specs.Terms as meaning;
ghost use Rattle.step_meaning.specs.Terms.{unless_zero, term_operation, term_moved};
ghost use Rattle.acsl_values.specs.Seen.{meant, meant_if_any, negation, operation_on, move, to_member};

use crate::values::TermValue;
use step_meaning::{IntOp, Name};

/// An integer as a term's value, if there is one.
fn number(value: Option<i128>) -> Option<TermValue>
    ensures { meant_if_any result ≡ option_map meaning.Number value }
{
    match value {
        None => None,
        Some(value) => Some(TermValue::Number(value)),
    }
}

/// `-a`, where it keeps the limit.
fn negative(a: i128) -> Option<TermValue>
    ensures { IsWithin (neg_ℤ a) → meant_if_any result ≡ Some (meaning.Number (neg_ℤ a)) }
{
    number(a.checked_neg())
}

/// `a + b`, where it keeps the limit.
fn added(a: i128, b: i128) -> Option<i128>
    ensures { IsWithin (a +ℤ b) → result ≡ Some (a +ℤ b) }
{
    a.checked_add(b)
}

/// `a - b`, where it keeps the limit.
fn subtracted(a: i128, b: i128) -> Option<i128>
    ensures { IsWithin (a -ℤ b) → result ≡ Some (a -ℤ b) }
{
    a.checked_sub(b)
}

/// `a * b`, where it keeps the limit.
fn multiplied(a: i128, b: i128) -> Option<i128>
    ensures { IsWithin (a *ℤ b) → result ≡ Some (a *ℤ b) }
{
    a.checked_mul(b)
}

/// `a / b`, and no value where `b` is 0.
fn divided(a: i128, b: i128) -> Option<TermValue>
    ensures { IsWithin a → meant_if_any result ≡ unless_zero b (int_div a b) }
{
    if b == 0 {
        None
    } else {
        number(a.checked_div(b))
    }
}

/// `a % b`, and no value where `b` is 0.
fn left_over(a: i128, b: i128) -> Option<TermValue>
    ensures { IsWithin a → meant_if_any result ≡ unless_zero b (int_rem a b) }
{
    if b == 0 {
        None
    } else {
        number(a.checked_rem(b))
    }
}

/// An operator of terms on two integers.
fn operation(op: IntOp, a: i128, b: i128) -> Option<TermValue>
    ensures { IsWithin a → WhereDefined (term_operation op a b) → meant_if_any result ≡ term_operation op a b }
{
    match op {
        IntOp::Add => number(added(a, b)),
        IntOp::Sub => number(subtracted(a, b)),
        IntOp::Mul => number(multiplied(a, b)),
        IntOp::Div => divided(a, b),
        IntOp::Rem => left_over(a, b),
        IntOp::Shl | IntOp::Shr | IntOp::And | IntOp::Or | IntOp::Xor => None,
    }
}

/// A pointer into a variable, or none where its offset isn't known.
fn at_offset(name: Name, offset: Option<i128>) -> Option<TermValue>
    ensures { meant_if_any result ≡ option_map (meaning.PointerInto name) offset }
{
    match offset {
        None => None,
        Some(offset) => Some(TermValue::Pointer(name, offset)),
    }
}

/// A pointer moved by a number of cells.
fn moved_by(pointer: TermValue, by: i128) -> Option<TermValue>
    ensures { WhereDefined (term_moved by (meant pointer)) → meant_if_any result ≡ term_moved by (meant pointer) }
{
    match pointer {
        TermValue::Number(_) => None,
        TermValue::Null => { if by == 0 { Some(TermValue::Null) } else { None } }
        TermValue::Pointer(name, offset) => at_offset(name, added(offset, by)),
    }
}

/// A pointer moved by a number of cells, if that is known.
fn moved_if_any(pointer: TermValue, by: Option<i128>) -> Option<TermValue>
    ensures { (z : ℤ) → by ≡ Some z → WhereDefined (term_moved z (meant pointer)) → meant_if_any result ≡ term_moved z (meant pointer) }
{
    match by {
        None => None,
        Some(by) => moved_by(pointer, by),
    }
}

/// Unary minus of a term's value.
pub(crate) fn negated(a: Option<TermValue>) -> Option<TermValue>
    ensures { WhereDefined (negation (meant_if_any a)) → meant_if_any result ≡ negation (meant_if_any a) }
{
    match a {
        Some(TermValue::Number(a)) => negative(a),
        _ => None,
    }
}

/// An operator on the values of two terms.
pub(crate) fn operated(op: IntOp, a: Option<TermValue>, b: Option<TermValue>) -> Option<TermValue>
    ensures { WhereDefined (meant_if_any a) → WhereDefined (operation_on op (meant_if_any a) (meant_if_any b))
        → meant_if_any result ≡ operation_on op (meant_if_any a) (meant_if_any b) }
{
    match a {
        Some(TermValue::Number(a)) => match b {
            Some(TermValue::Number(b)) => operation(op, a, b),
            _ => None,
        },
        _ => None,
    }
}

/// A pointer moved by a number of objects of so many cells.
pub(crate) fn moved(a: Option<TermValue>, b: Option<TermValue>, size: u32) -> Option<TermValue>
    ensures { IsProductWithin (meant_if_any b) size → WhereDefined (move (meant_if_any a) (meant_if_any b) size)
        → meant_if_any result ≡ move (meant_if_any a) (meant_if_any b) size }
{
    match a {
        None => None,
        Some(a) => match b {
            Some(TermValue::Number(b)) => moved_if_any(a, multiplied(b, i128::from(size))),
            _ => None,
        },
    }
}

/// A pointer to a struct moved to a member.
pub(crate) fn member(a: Option<TermValue>, offset: u32) -> Option<TermValue>
    ensures { WhereDefined (to_member (meant_if_any a) offset) → meant_if_any result ≡ to_member (meant_if_any a) offset }
{
    match a {
        None => None,
        Some(a) => moved_by(a, i128::from(offset)),
    }
}
