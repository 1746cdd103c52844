//! Binary operators on values, and `? :` (C11 6.5.5 to 6.5.15).

ghost use Rattle.std.specs.Prelude.{◌≡◌, ◌<◌, ◌^◌, Ok};
ghost use Rattle.typing_rules.specs.Checked.{Gives};
ghost use Rattle.typing_rules.specs.Operands as spec;
ghost use Rattle.typing_rules.specs.Operators as rules;

use crate::conversion::brought;
use crate::part::{expression, integer, made};
use crate::size::unit;
use c_lexer::Place;
use core_types::same_type;
use std::alloc::Global;
use step_meaning::{CType, CompareOp, Expr, ExprPart, IntKind, IntOp, Layout, Side};
use typing_rules::fault::TypeFault;
use typing_rules::judgement::{
    Operation, Operator, Selection, binary_operation, is_null, selection_of, shape_of,
};
use typing_rules::operand::{Operand, TypePart, Value};

fn null(alloc: Global) -> Result<ExprPart, TypeFault>
    ensures { Gives (Ok Expr.Null) result }
{
    expression(alloc, Expr::Null)
}

/// An operator in the first kind, with each operand brought to a kind of its own.
fn arithmetic(
    alloc: Global,
    first: Place,
    op: IntOp,
    k: IntKind,
    l: IntKind,
    a: Value,
    b: Value,
) -> Result<Operand, TypeFault>
    ensures { Gives (Ok (spec.made first (Expr.Binary op k (spec.brought k a) (spec.brought l b)) (CType.Int k))) result }
{
    let x = brought(alloc, k, a)?;
    let y = brought(alloc, l, b)?;
    integer(
        alloc,
        first,
        Expr::Binary(op, k, x.into_boxed(), y.into_boxed()),
        k,
    )
}

fn compared(
    alloc: Global,
    first: Place,
    op: CompareOp,
    x: ExprPart,
    y: ExprPart,
) -> Result<Operand, TypeFault>
    ensures { Gives (Ok (spec.made first (Expr.Compare op x y) spec.int)) result }
{
    integer(
        alloc,
        first,
        Expr::Compare(op, x.into_boxed(), y.into_boxed()),
        IntKind::Int,
    )
}

fn compared_integers(
    alloc: Global,
    first: Place,
    op: CompareOp,
    k: IntKind,
    a: Value,
    b: Value,
) -> Result<Operand, TypeFault>
    ensures { Gives (Ok (spec.made first (Expr.Compare op (spec.brought k a) (spec.brought k b)) spec.int)) result }
{
    let x = brought(alloc, k, a)?;
    let y = brought(alloc, k, b)?;
    compared(alloc, first, op, x, y)
}

fn compared_with_null(
    alloc: Global,
    first: Place,
    op: CompareOp,
    a: Value,
) -> Result<Operand, TypeFault>
    ensures { Gives (Ok (spec.made first (Expr.Compare op a.expr Expr.Null) spec.int)) result }
{
    let y = null(alloc)?;
    compared(alloc, first, op, a.expr, y)
}

fn compared_null_with(
    alloc: Global,
    first: Place,
    op: CompareOp,
    b: Value,
) -> Result<Operand, TypeFault>
    ensures { Gives (Ok (spec.made first (Expr.Compare op Expr.Null b.expr) spec.int)) result }
{
    let x = null(alloc)?;
    compared(alloc, first, op, x, b.expr)
}

/// A pointer moved by an integer, with the operands as they stand.
#[tactic(auto, unfolding(typing_rules::specs::Operators::computed))]
fn moved(
    alloc: Global,
    layouts: &[Layout],
    first: Place,
    side: Side,
    a: Value,
    b: Value,
) -> Result<Operand, TypeFault>
    requires first_moves { rules.unit layouts.now a.ctype < 2 ^ 32 }
    requires second_moves { rules.unit layouts.now b.ctype < 2 ^ 32 }
    ensures { Gives (Ok (rules.computed layouts.now first (Operation.MovePointer side) a b)) result }
{
    match side {
        Side::PointerLast => {
            let cells = unit(layouts, b.ctype.get());
            made(
                alloc,
                first,
                Expr::Move(
                    a.expr.into_boxed(),
                    b.expr.into_boxed(),
                    cells,
                    Side::PointerLast,
                ),
                b.ctype,
            )
        }
        Side::PointerFirst => {
            let cells = unit(layouts, a.ctype.get());
            made(
                alloc,
                first,
                Expr::Move(
                    a.expr.into_boxed(),
                    b.expr.into_boxed(),
                    cells,
                    Side::PointerFirst,
                ),
                a.ctype,
            )
        }
        Side::Minus => {
            let cells = unit(layouts, a.ctype.get());
            made(
                alloc,
                first,
                Expr::Move(a.expr.into_boxed(), b.expr.into_boxed(), cells, Side::Minus),
                a.ctype,
            )
        }
    }
}

/// The difference of two pointers.
fn subtracted(
    alloc: Global,
    layouts: &[Layout],
    first: Place,
    a: Value,
    b: Value,
) -> Result<Operand, TypeFault>
    requires first_moves { rules.unit layouts.now a.ctype < 2 ^ 32 }
    ensures { Gives (Ok (spec.made first (Expr.Difference a.expr b.expr (rules.unit layouts.now a.ctype)) (CType.Int IntKind.Long))) result }
{
    let cells = unit(layouts, a.ctype.get());
    integer(
        alloc,
        first,
        Expr::Difference(a.expr.into_boxed(), b.expr.into_boxed(), cells),
        IntKind::Long,
    )
}

#[tactic(auto, unfolding(typing_rules::specs::Operators::computed))]
fn computed(
    alloc: Global,
    layouts: &[Layout],
    first: Place,
    how: Operation,
    a: Value,
    b: Value,
) -> Result<Operand, TypeFault>
    requires first_moves { rules.unit layouts.now a.ctype < 2 ^ 32 }
    requires second_moves { rules.unit layouts.now b.ctype < 2 ^ 32 }
    ensures { Gives (Ok (rules.computed layouts.now first how a b)) result }
{
    match how {
        Operation::Arithmetic(op, k) => arithmetic(alloc, first, op, k, k, a, b),
        Operation::Shift(op, k, l) => arithmetic(alloc, first, op, k, l, a, b),
        Operation::MovePointer(side) => moved(alloc, layouts, first, side, a, b),
        Operation::PointerDifference => subtracted(alloc, layouts, first, a, b),
        Operation::CompareIntegers(op, k) => compared_integers(alloc, first, op, k, a, b),
        Operation::ComparePointers(op) => compared(alloc, first, op, a.expr, b.expr),
        Operation::CompareWithNull(op) => compared_with_null(alloc, first, op, a),
        Operation::CompareNullWith(op) => compared_null_with(alloc, first, op, b),
        Operation::LogicalAnd => integer(
            alloc,
            first,
            Expr::Both(a.expr.into_boxed(), b.expr.into_boxed()),
            IntKind::Int,
        ),
        Operation::LogicalOr => integer(
            alloc,
            first,
            Expr::Either(a.expr.into_boxed(), b.expr.into_boxed()),
            IntKind::Int,
        ),
    }
}

/// What the operator, which stands at this place, makes of both values (C11 6.5.5 to 6.5.14). What a pointer points to has fewer than 2^32 cells.
#[tactic(auto, unfolding(typing_rules::specs::Operators::combined, typing_rules::specs::Checked::kept))]
pub fn combined(
    alloc: Global,
    layouts: &[Layout],
    at: Place,
    op: Operator,
    a: Value,
    b: Value,
) -> Result<Operand, TypeFault>
    requires first_moves { rules.unit layouts.now a.ctype < 2 ^ 32 }
    requires second_moves { rules.unit layouts.now b.ctype < 2 ^ 32 }
    ensures { Gives (rules.combined layouts.now at op a b) result }
{
    match binary_operation(
        op,
        shape_of(a.ctype.get()),
        is_null(a.origin),
        shape_of(b.ctype.get()),
        is_null(b.origin),
        same_type(a.ctype.get(), b.ctype.get()),
    ) {
        Some(how) => computed(alloc, layouts, a.first, how, a, b),
        None => Err(TypeFault::Mismatch(at)),
    }
}

fn selected_integers(
    alloc: Global,
    first: Place,
    k: IntKind,
    test: ExprPart,
    a: Value,
    b: Value,
) -> Result<Operand, TypeFault>
    ensures { Gives (Ok (spec.made first (Expr.Choose test (spec.brought k a) (spec.brought k b)) (CType.Int k))) result }
{
    let x = brought(alloc, k, a)?;
    let y = brought(alloc, k, b)?;
    integer(
        alloc,
        first,
        Expr::Choose(test.into_boxed(), x.into_boxed(), y.into_boxed()),
        k,
    )
}

fn selected_parts(
    alloc: Global,
    first: Place,
    test: ExprPart,
    x: ExprPart,
    y: ExprPart,
    ctype: TypePart,
) -> Result<Operand, TypeFault>
    ensures { Gives (Ok (spec.made first (Expr.Choose test x y) ctype)) result }
{
    made(
        alloc,
        first,
        Expr::Choose(test.into_boxed(), x.into_boxed(), y.into_boxed()),
        ctype,
    )
}

#[tactic(auto, unfolding(typing_rules::specs::Operators::selected))]
fn selected(
    alloc: Global,
    first: Place,
    how: Selection,
    test: ExprPart,
    a: Value,
    b: Value,
) -> Result<Operand, TypeFault>
    ensures { Gives (Ok (rules.selected first how test a b)) result }
{
    match how {
        Selection::OfIntegers(k) => selected_integers(alloc, first, k, test, a, b),
        Selection::OfOneType => selected_parts(alloc, first, test, a.expr, b.expr, a.ctype),
        Selection::NullLast => {
            let y = null(alloc)?;
            selected_parts(alloc, first, test, a.expr, y, a.ctype)
        }
        Selection::NullFirst => {
            let x = null(alloc)?;
            selected_parts(alloc, first, test, x, b.expr, b.ctype)
        }
    }
}

/// `? :`, with the `?` at this place and the first token of the condition at `first` (C11 6.5.15).
#[tactic(auto, unfolding(typing_rules::specs::Operators::choice_of, typing_rules::specs::Checked::kept))]
pub fn choice_of(
    alloc: Global,
    at: Place,
    first: Place,
    test: ExprPart,
    a: Value,
    b: Value,
) -> Result<Operand, TypeFault>
    ensures { Gives (rules.choice_of at first test a b) result }
{
    match selection_of(
        shape_of(a.ctype.get()),
        is_null(a.origin),
        shape_of(b.ctype.get()),
        is_null(b.origin),
        same_type(a.ctype.get(), b.ctype.get()),
    ) {
        Some(how) => selected(alloc, first, how, test, a, b),
        None => Err(TypeFault::Mismatch(at)),
    }
}
