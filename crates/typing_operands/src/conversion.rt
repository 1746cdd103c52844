//! Conversions, as an assignment makes them (C11 6.3.1.3, 6.5.16.1).

ghost use Rattle.std.specs.Prelude.{◌≡◌, Ok};
ghost use Rattle.typing_rules.specs.Checked.{Gives};
ghost use Rattle.typing_rules.specs.Operands as spec;

use crate::part::expression;
use c_lexer::Place;
use core_types::same_type;
use std::alloc::Global;
use step_meaning::{CType, Expr, ExprPart, IntKind};
use typing_rules::fault::TypeFault;
use typing_rules::judgement::{Conversion, assignment_conversion, is_null, shape_of};
use typing_rules::operand::Value;

/// The value of an integer type, brought to the kind; to its own it stays as it is (C11 6.3.1.3).
#[tactic(auto, unfolding(typing_rules::specs::Operands::brought))]
pub fn brought(alloc: Global, to: IntKind, v: Value) -> Result<ExprPart, TypeFault>
    ensures { Gives (Ok (spec.brought to v)) result }
{
    match v.ctype.get() {
        CType::Int(from) => {
            if to == *from {
                Ok(v.expr)
            } else {
                expression(alloc, Expr::Convert(to, v.expr.into_boxed()))
            }
        }
        CType::Void | CType::Pointer(_) | CType::Array(_, _) | CType::Struct(_) => Ok(v.expr),
    }
}

/// The value, converted so.
fn converted_by(alloc: Global, how: Conversion, v: Value) -> Result<ExprPart, TypeFault>
    ensures { Gives (Ok (spec.converted_by how v)) result }
{
    match how {
        Conversion::ToKind(kind) => brought(alloc, kind, v),
        Conversion::ToNull => expression(alloc, Expr::Null),
        Conversion::Unchanged => Ok(v.expr),
    }
}

/// The value brought to the type, as if by assignment. The fault stands at this place (C11 6.5.16.1, 1).
#[tactic(auto, unfolding(typing_rules::specs::Operands::fitted, typing_rules::specs::Checked::kept))]
pub fn fitted(alloc: Global, at: Place, t: &CType, v: Value) -> Result<ExprPart, TypeFault>
    ensures { Gives (spec.fitted at t.now v) result }
{
    match assignment_conversion(
        shape_of(t),
        shape_of(v.ctype.get()),
        is_null(v.origin),
        same_type(t, v.ctype.get()),
    ) {
        Some(how) => converted_by(alloc, how, v),
        None => Err(TypeFault::Mismatch(at)),
    }
}
