//! Statements of normal forms, at the end of code. An error is want of memory.

ghost use Rattle.std.specs.Prelude.{◌≡◌, ◌++◌, IfOk, OnOk, Some, None};
ghost use Rattle.normal_laws.specs.NormalForm as form;
ghost use Rattle.normal_trees.specs.Operands.{register_type, operand_of, target_of};

use crate::expressions::{expression, place};
use crate::nodes::{assign, branch, register, repeat};
use crate::operands::{Operand, RegisterType, Target};
use crate::types::written;
use std::alloc::{AllocError, Global};
use step_meaning::{ExprPart, PlacePart, Stmt, StmtPart, StmtsPart};

/// One more statement.
fn push(alloc: Global, statement: Stmt, code: &mut StmtsPart) -> Result<(), AllocError>
    ensures { OnOk result (code.new ≡ code.old ++ form.one statement) }
{
    let statement = StmtPart::new(alloc, statement)?;
    code.push(statement)
}

/// A register takes an expression.
pub fn set_to(
    alloc: Global,
    index: u32,
    ctype: RegisterType<'_>,
    value: ExprPart,
    code: &mut StmtsPart,
) -> Result<(), AllocError>
    ensures { OnOk result (code.new ≡ code.old ++ form.one (form.set_to index (register_type ctype.entry) value)) }
{
    let place = PlacePart::new(alloc, register(index))?;
    let ctype = written(alloc, ctype)?;
    push(alloc, assign(place, ctype, value), code)
}

/// A target takes an operand, at this type.
pub fn store(
    alloc: Global,
    target: Target<'_>,
    ctype: RegisterType<'_>,
    a: Operand<'_>,
    code: &mut StmtsPart,
) -> Result<(), AllocError>
    ensures { OnOk result (code.new ≡ code.old ++ form.one (form.assign (form.place_of (target_of target.entry)) (register_type ctype.entry) (form.expression_of (operand_of a.entry)))) }
{
    let place = place(alloc, target)?;
    let value = expression(alloc, a)?;
    let ctype = written(alloc, ctype)?;
    push(alloc, assign(place, ctype, value), code)
}

/// An expression as a statement.
pub fn evaluate(alloc: Global, value: ExprPart, code: &mut StmtsPart) -> Result<(), AllocError>
    ensures { OnOk result (code.new ≡ code.old ++ form.one (Stmt.Eval value)) }
{
    push(alloc, Stmt::Eval(value.into_boxed().into_inner()), code)
}

/// A block.
fn block(alloc: Global, code: StmtsPart) -> Result<StmtPart, AllocError>
    ensures { IfOk result (λ s. s ≡ form.block_of code) }
{
    StmtPart::new(alloc, Stmt::Block(code.into_items()))
}

/// A block of statements.
pub fn put_block(alloc: Global, inner: StmtsPart, code: &mut StmtsPart) -> Result<(), AllocError>
    ensures { OnOk result (code.new ≡ code.old ++ form.one (form.block_of inner)) }
{
    push(alloc, Stmt::Block(inner.into_items()), code)
}

/// A choice between two blocks.
pub fn choose(
    alloc: Global,
    test: Operand<'_>,
    yes: StmtsPart,
    no: StmtsPart,
    code: &mut StmtsPart,
) -> Result<(), AllocError>
    ensures { OnOk result (code.new ≡ code.old ++ form.one (form.choice (form.expression_of (operand_of test.entry)) yes no)) }
{
    let yes = block(alloc, yes)?;
    let no = block(alloc, no)?;
    let test = expression(alloc, test)?;
    push(alloc, branch(test, yes, no), code)
}

/// A loop without end.
pub fn forever(alloc: Global, body: StmtsPart, code: &mut StmtsPart) -> Result<(), AllocError>
    ensures { OnOk result (code.new ≡ code.old ++ form.one (form.forever body)) }
{
    let body = block(alloc, body)?;
    push(alloc, repeat(body), code)
}

/// A `break`.
pub fn break_from(alloc: Global, code: &mut StmtsPart) -> Result<(), AllocError>
    ensures { OnOk result (code.new ≡ code.old ++ form.one Stmt.Break) }
{
    push(alloc, Stmt::Break, code)
}

/// A `continue`.
pub fn continue_from(alloc: Global, code: &mut StmtsPart) -> Result<(), AllocError>
    ensures { OnOk result (code.new ≡ code.old ++ form.one Stmt.Continue) }
{
    push(alloc, Stmt::Continue, code)
}

/// The null statement.
pub fn put_empty(alloc: Global, code: &mut StmtsPart) -> Result<(), AllocError>
    ensures { OnOk result (code.new ≡ code.old ++ form.one Stmt.Empty) }
{
    push(alloc, Stmt::Empty, code)
}

/// A `return` without a value.
pub fn leave(alloc: Global, code: &mut StmtsPart) -> Result<(), AllocError>
    ensures { OnOk result (code.new ≡ code.old ++ form.one (Stmt.Return None)) }
{
    push(alloc, Stmt::Return(None), code)
}

/// A `return` with an operand.
pub fn return_value(alloc: Global, a: Operand<'_>, code: &mut StmtsPart) -> Result<(), AllocError>
    ensures { OnOk result (code.new ≡ code.old ++ form.one (Stmt.Return (Some (form.expression_of (operand_of a.entry))))) }
{
    let value = expression(alloc, a)?;
    push(
        alloc,
        Stmt::Return(Some(value.into_boxed().into_inner())),
        code,
    )
}
