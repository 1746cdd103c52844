//! Expressions, lvalues and arguments. What is evaluated first has its statements first. An error is want of memory, or of
//! registers.

ghost use Rattle.std.specs.Prelude.{[], IfOk};
ghost use Rattle.normal_trees.specs.Operands.{operand_of};
ghost use Rattle.normal_expressions.specs.Code.{address_in, arguments_code_in, assign_in, binary_in, both_in, choose_in, compare_in, convert_in, deref_in, difference_in, discard_in, either_in, expression_code_in, free_in, index_in, invoke_in, load_in, malloc_in, member_in, move_in, not_in, place_code_in, put_char_in, unary_in, update_in};
ghost use Rattle.normal_expressions.specs.Additions.{Adds, AddsArguments, AddsPlace};

use crate::objects::{member_of, object, result_of};
use crate::registers::{Registers, set};
use crate::scope::{Place, Scope};
use crate::steps::{
    Branch, answered, assigned, both, chosen, either, element_part, get_char_code, invoked,
    member_part, updated,
};
use normal_trees::{
    Operand, RegisterType, Target, address, allocated, compared, computed, converted, difference,
    element_of, evaluate, expression, integer_operator, loaded, moved, moved_type, negated_value,
    output, pointed, released, store,
};
use std::alloc::{AllocError, Global};
use step_meaning::{
    Answer, CType, CompareOp, Expr, ExprsPart, IntKind, IntOp, Place_, Side, StmtsPart, UnaryOp,
    UpdateOp,
};

/// The statements that make an expression's value, at the end of the code, and the operand that holds it.
#[cycle(expressions)]
#[tactic(auto, using(crate::proofs::Forms::expressions))]
pub fn expression_code<'a>(
    alloc: Global,
    e: &'a Expr,
    scope: Scope<'a>,
    code: &mut StmtsPart,
    registers: &mut Registers<'a>,
) -> Result<Operand<'a>, AllocError>
    ensures { IfOk result (λ r. Adds code.old registers.old (expression_code_in scope.entry e.now registers.old.next) code.new registers.new (operand_of r)) }
{
    match e {
        Expr::Literal(kind, value) => Ok(Operand::Number(*kind, *value)),
        Expr::Null => Ok(Operand::Null),
        Expr::Load(p, ctype) => load_code(alloc, p, ctype, scope, code, registers),
        Expr::Address(p, ctype) => address_code(alloc, p, ctype, scope, code, registers),
        Expr::Convert(kind, e) => convert_code(alloc, *kind, e.get(), scope, code, registers),
        Expr::Unary(op, kind, e) => {
            unary_code(alloc, *op, *kind, e.get(), scope, code, registers)
        }
        Expr::Binary(op, kind, e, f) => {
            binary_code(alloc, *op, *kind, e.get(), f.get(), scope, code, registers)
        }
        Expr::Compare(op, e, f) => {
            compare_code(alloc, *op, e.get(), f.get(), scope, code, registers)
        }
        Expr::Move(e, f, size, side) => {
            move_code(
                alloc,
                e.get(),
                f.get(),
                *size,
                *side,
                scope,
                code,
                registers,
            )
        }
        Expr::Difference(e, f, unit) => {
            difference_code(alloc, e.get(), f.get(), *unit, scope, code, registers)
        }
        Expr::Not(e) => not_code(alloc, e.get(), scope, code, registers),
        Expr::Both(e, f) => both_code(alloc, e.get(), f.get(), scope, code, registers),
        Expr::Either(e, f) => either_code(alloc, e.get(), f.get(), scope, code, registers),
        Expr::Choose(e, f, h) => {
            choose_code(alloc, e.get(), f.get(), h.get(), scope, code, registers)
        }
        Expr::Assign(p, ctype, e) => {
            assign_code(alloc, p, ctype, e.get(), scope, code, registers)
        }
        Expr::Update(p, ctype, op, e, answer) => {
            update_code(
                alloc,
                p,
                ctype,
                *op,
                e.get(),
                *answer,
                scope,
                code,
                registers,
            )
        }
        Expr::Invoke(function, es) => {
            invoke_code(alloc, *function, es.as_slice(), scope, code, registers)
        }
        Expr::GetChar => get_char_code(alloc, code, registers),
        Expr::PutChar(e) => put_char_code(alloc, e.get(), scope, code, registers),
        Expr::Malloc(e, ctype) => malloc_code(alloc, e.get(), ctype, scope, code, registers),
        Expr::Free(e) => free_code(alloc, e.get(), scope, code, registers),
        Expr::Discard(e) => discard_code(alloc, e.get(), scope, code, registers),
    }
}

/// The value of an object (C11 6.3.2.1).
#[cycle(expressions)]
#[tactic(auto, using(crate::proofs::Lists::lists), unfolding(crate::specs::Code::load_in))]
fn load_code<'a>(
    alloc: Global,
    p: &'a Place_,
    ctype: &'a CType,
    scope: Scope<'a>,
    code: &mut StmtsPart,
    registers: &mut Registers<'a>,
) -> Result<Operand<'a>, AllocError>
    ensures { IfOk result (λ r. Adds code.old registers.old (load_in scope.entry p.now ctype.now registers.old.next) code.new registers.new (operand_of r)) }
{
    let place = place_code(alloc, p, scope, code, registers)?;
    let value = loaded(alloc, place.target, ctype)?;
    Ok(set(alloc, RegisterType::Of(ctype), value, code, registers)?)
}

/// The address of an object (C11 6.5.3.2).
#[cycle(expressions)]
#[tactic(auto, using(crate::proofs::Lists::lists), unfolding(crate::specs::Code::address_in))]
fn address_code<'a>(
    alloc: Global,
    p: &'a Place_,
    ctype: &'a CType,
    scope: Scope<'a>,
    code: &mut StmtsPart,
    registers: &mut Registers<'a>,
) -> Result<Operand<'a>, AllocError>
    ensures { IfOk result (λ r. Adds code.old registers.old (address_in scope.entry p.now ctype.now registers.old.next) code.new registers.new (operand_of r)) }
{
    let place = place_code(alloc, p, scope, code, registers)?;
    let value = address(alloc, place.target, ctype)?;
    Ok(set(alloc, RegisterType::To(Some(ctype)), value, code, registers)?)
}

/// A conversion (C11 6.3.1.3).
#[cycle(expressions)]
#[tactic(auto, using(crate::proofs::Lists::lists), unfolding(crate::specs::Code::convert_in))]
fn convert_code<'a>(
    alloc: Global,
    kind: IntKind,
    e: &'a Expr,
    scope: Scope<'a>,
    code: &mut StmtsPart,
    registers: &mut Registers<'a>,
) -> Result<Operand<'a>, AllocError>
    ensures { IfOk result (λ r. Adds code.old registers.old (convert_in scope.entry kind e.now registers.old.next) code.new registers.new (operand_of r)) }
{
    let a = expression_code(alloc, e, scope, code, registers)?;
    let value = converted(alloc, kind, a)?;
    Ok(set(alloc, RegisterType::Int(kind), value, code, registers)?)
}

/// A unary operator (C11 6.5.3.3).
#[cycle(expressions)]
#[tactic(auto, using(crate::proofs::Lists::lists), unfolding(crate::specs::Code::unary_in))]
fn unary_code<'a>(
    alloc: Global,
    op: UnaryOp,
    kind: IntKind,
    e: &'a Expr,
    scope: Scope<'a>,
    code: &mut StmtsPart,
    registers: &mut Registers<'a>,
) -> Result<Operand<'a>, AllocError>
    ensures { IfOk result (λ r. Adds code.old registers.old (unary_in scope.entry op kind e.now registers.old.next) code.new registers.new (operand_of r)) }
{
    let a = expression_code(alloc, e, scope, code, registers)?;
    let value = integer_operator(alloc, op, kind, a)?;
    Ok(set(alloc, RegisterType::Int(kind), value, code, registers)?)
}

/// `!` (C11 6.5.3.3).
#[cycle(expressions)]
#[tactic(auto, using(crate::proofs::Lists::lists), unfolding(crate::specs::Code::not_in))]
fn not_code<'a>(
    alloc: Global,
    e: &'a Expr,
    scope: Scope<'a>,
    code: &mut StmtsPart,
    registers: &mut Registers<'a>,
) -> Result<Operand<'a>, AllocError>
    ensures { IfOk result (λ r. Adds code.old registers.old (not_in scope.entry e.now registers.old.next) code.new registers.new (operand_of r)) }
{
    let a = expression_code(alloc, e, scope, code, registers)?;
    let value = negated_value(alloc, a)?;
    Ok(set(
        alloc,
        RegisterType::Int(IntKind::Int),
        value,
        code,
        registers,
    )?)
}

/// A call of `putchar` (C11 7.21.7.8).
#[cycle(expressions)]
#[tactic(auto, using(crate::proofs::Lists::lists), unfolding(crate::specs::Code::put_char_in))]
fn put_char_code<'a>(
    alloc: Global,
    e: &'a Expr,
    scope: Scope<'a>,
    code: &mut StmtsPart,
    registers: &mut Registers<'a>,
) -> Result<Operand<'a>, AllocError>
    ensures { IfOk result (λ r. Adds code.old registers.old (put_char_in scope.entry e.now registers.old.next) code.new registers.new (operand_of r)) }
{
    let a = expression_code(alloc, e, scope, code, registers)?;
    let value = output(alloc, a)?;
    Ok(set(
        alloc,
        RegisterType::Int(IntKind::Int),
        value,
        code,
        registers,
    )?)
}

/// A call of `malloc` (C11 7.22.3.4).
#[cycle(expressions)]
#[tactic(auto, using(crate::proofs::Lists::lists), unfolding(crate::specs::Code::malloc_in))]
fn malloc_code<'a>(
    alloc: Global,
    e: &'a Expr,
    ctype: &'a CType,
    scope: Scope<'a>,
    code: &mut StmtsPart,
    registers: &mut Registers<'a>,
) -> Result<Operand<'a>, AllocError>
    ensures { IfOk result (λ r. Adds code.old registers.old (malloc_in scope.entry e.now ctype.now registers.old.next) code.new registers.new (operand_of r)) }
{
    let a = expression_code(alloc, e, scope, code, registers)?;
    let value = allocated(alloc, ctype, a)?;
    Ok(set(alloc, RegisterType::To(Some(ctype)), value, code, registers)?)
}

/// A call of `free` (C11 7.22.3.3).
#[cycle(expressions)]
#[tactic(auto, using(crate::proofs::Lists::lists), unfolding(crate::specs::Code::free_in))]
fn free_code<'a>(
    alloc: Global,
    e: &'a Expr,
    scope: Scope<'a>,
    code: &mut StmtsPart,
    registers: &mut Registers<'a>,
) -> Result<Operand<'a>, AllocError>
    ensures { IfOk result (λ r. Adds code.old registers.old (free_in scope.entry e.now registers.old.next) code.new registers.new (operand_of r)) }
{
    let a = expression_code(alloc, e, scope, code, registers)?;
    let value = released(alloc, a)?;
    evaluate(alloc, value, code)?;
    Ok(Operand::Absent)
}

/// A cast to `void` (C11 6.5.4).
#[cycle(expressions)]
#[tactic(auto, using(crate::proofs::Lists::lists), unfolding(crate::specs::Code::discard_in))]
fn discard_code<'a>(
    alloc: Global,
    e: &'a Expr,
    scope: Scope<'a>,
    code: &mut StmtsPart,
    registers: &mut Registers<'a>,
) -> Result<Operand<'a>, AllocError>
    ensures { IfOk result (λ r. Adds code.old registers.old (discard_in scope.entry e.now registers.old.next) code.new registers.new (operand_of r)) }
{
    let _value = expression_code(alloc, e, scope, code, registers)?;
    Ok(Operand::Absent)
}

/// A binary operator (C11 6.5.5 to 6.5.7, 6.5.10 to 6.5.12).
#[cycle(expressions)]
#[tactic(auto, using(crate::proofs::Lists::lists), unfolding(crate::specs::Code::binary_in))]
fn binary_code<'a>(
    alloc: Global,
    op: IntOp,
    kind: IntKind,
    left: &'a Expr,
    right: &'a Expr,
    scope: Scope<'a>,
    code: &mut StmtsPart,
    registers: &mut Registers<'a>,
) -> Result<Operand<'a>, AllocError>
    ensures { IfOk result (λ r. Adds code.old registers.old (binary_in scope.entry op kind left.now right.now registers.old.next) code.new registers.new (operand_of r)) }
{
    let a = expression_code(alloc, left, scope, code, registers)?;
    let b = expression_code(alloc, right, scope, code, registers)?;
    let value = computed(alloc, op, kind, a, b)?;
    Ok(set(alloc, RegisterType::Int(kind), value, code, registers)?)
}

/// A comparison (C11 6.5.8, 6.5.9).
#[cycle(expressions)]
#[tactic(auto, using(crate::proofs::Lists::lists), unfolding(crate::specs::Code::compare_in))]
fn compare_code<'a>(
    alloc: Global,
    op: CompareOp,
    e: &'a Expr,
    f: &'a Expr,
    scope: Scope<'a>,
    code: &mut StmtsPart,
    registers: &mut Registers<'a>,
) -> Result<Operand<'a>, AllocError>
    ensures { IfOk result (λ r. Adds code.old registers.old (compare_in scope.entry op e.now f.now registers.old.next) code.new registers.new (operand_of r)) }
{
    let a = expression_code(alloc, e, scope, code, registers)?;
    let b = expression_code(alloc, f, scope, code, registers)?;
    let value = compared(alloc, op, a, b)?;
    Ok(set(
        alloc,
        RegisterType::Int(IntKind::Int),
        value,
        code,
        registers,
    )?)
}

/// A pointer and an integer added or subtracted (C11 6.5.6).
#[cycle(expressions)]
#[tactic(auto, using(crate::proofs::Lists::lists), unfolding(crate::specs::Code::move_in))]
fn move_code<'a>(
    alloc: Global,
    e: &'a Expr,
    f: &'a Expr,
    size: u32,
    side: Side,
    scope: Scope<'a>,
    code: &mut StmtsPart,
    registers: &mut Registers<'a>,
) -> Result<Operand<'a>, AllocError>
    ensures { IfOk result (λ r. Adds code.old registers.old (move_in scope.entry e.now f.now size side registers.old.next) code.new registers.new (operand_of r)) }
{
    let a = expression_code(alloc, e, scope, code, registers)?;
    let b = expression_code(alloc, f, scope, code, registers)?;
    let value = moved(alloc, a, b, size, side)?;
    let ctype = moved_type(side, a, b);
    Ok(set(alloc, ctype, value, code, registers)?)
}

/// The difference of two pointers (C11 6.5.6).
#[cycle(expressions)]
#[tactic(auto, using(crate::proofs::Lists::lists), unfolding(crate::specs::Code::difference_in))]
fn difference_code<'a>(
    alloc: Global,
    e: &'a Expr,
    f: &'a Expr,
    unit: u32,
    scope: Scope<'a>,
    code: &mut StmtsPart,
    registers: &mut Registers<'a>,
) -> Result<Operand<'a>, AllocError>
    ensures { IfOk result (λ r. Adds code.old registers.old (difference_in scope.entry e.now f.now unit registers.old.next) code.new registers.new (operand_of r)) }
{
    let a = expression_code(alloc, e, scope, code, registers)?;
    let b = expression_code(alloc, f, scope, code, registers)?;
    let value = difference(alloc, a, b, unit)?;
    Ok(set(
        alloc,
        RegisterType::Int(IntKind::Long),
        value,
        code,
        registers,
    )?)
}

/// `&&` (C11 6.5.13).
#[cycle(expressions)]
#[tactic(auto, using(crate::proofs::Splits::splits))]
fn both_code<'a>(
    alloc: Global,
    e: &'a Expr,
    f: &'a Expr,
    scope: Scope<'a>,
    code: &mut StmtsPart,
    registers: &mut Registers<'a>,
) -> Result<Operand<'a>, AllocError>
    ensures { IfOk result (λ r. Adds code.old registers.old (both_in scope.entry e.now f.now registers.old.next) code.new registers.new (operand_of r)) }
{
    let a = expression_code(alloc, e, scope, code, registers)?;
    let mut second = StmtsPart::empty(alloc);
    let b = expression_code(alloc, f, scope, &mut second, registers)?;
    Ok(both(alloc, a, second, b, code, registers)?)
}

/// `||` (C11 6.5.14).
#[cycle(expressions)]
#[tactic(auto, using(crate::proofs::Splits::splits))]
fn either_code<'a>(
    alloc: Global,
    e: &'a Expr,
    f: &'a Expr,
    scope: Scope<'a>,
    code: &mut StmtsPart,
    registers: &mut Registers<'a>,
) -> Result<Operand<'a>, AllocError>
    ensures { IfOk result (λ r. Adds code.old registers.old (either_in scope.entry e.now f.now registers.old.next) code.new registers.new (operand_of r)) }
{
    let a = expression_code(alloc, e, scope, code, registers)?;
    let mut second = StmtsPart::empty(alloc);
    let b = expression_code(alloc, f, scope, &mut second, registers)?;
    Ok(either(alloc, a, second, b, code, registers)?)
}

/// `? :` (C11 6.5.15).
#[cycle(expressions)]
#[tactic(auto, using(crate::proofs::Splits::splits))]
fn choose_code<'a>(
    alloc: Global,
    e: &'a Expr,
    f: &'a Expr,
    h: &'a Expr,
    scope: Scope<'a>,
    code: &mut StmtsPart,
    registers: &mut Registers<'a>,
) -> Result<Operand<'a>, AllocError>
    ensures { IfOk result (λ r. Adds code.old registers.old (choose_in scope.entry e.now f.now h.now registers.old.next) code.new registers.new (operand_of r)) }
{
    let test = expression_code(alloc, e, scope, code, registers)?;
    let first = branch(alloc, f, scope, registers)?;
    let second = branch(alloc, h, scope, registers)?;
    Ok(chosen(alloc, test, first, second, code, registers)?)
}

/// A branch of `? :`.
#[cycle(expressions)]
fn branch<'a>(
    alloc: Global,
    e: &'a Expr,
    scope: Scope<'a>,
    registers: &mut Registers<'a>,
) -> Result<Branch<'a>, AllocError>
    ensures { IfOk result (λ b. Adds [] registers.old (expression_code_in scope.entry e.now registers.old.next) b.code registers.new (operand_of b.value)) }
{
    let mut code = StmtsPart::empty(alloc);
    let value = expression_code(alloc, e, scope, &mut code, registers)?;
    Ok(Branch { code, value })
}

/// An assignment (C11 6.5.16.1).
#[cycle(expressions)]
#[tactic(auto, using(crate::proofs::Splits::splits))]
fn assign_code<'a>(
    alloc: Global,
    p: &'a Place_,
    ctype: &'a CType,
    e: &'a Expr,
    scope: Scope<'a>,
    code: &mut StmtsPart,
    registers: &mut Registers<'a>,
) -> Result<Operand<'a>, AllocError>
    ensures { IfOk result (λ r. Adds code.old registers.old (assign_in scope.entry p.now ctype.now e.now registers.old.next) code.new registers.new (operand_of r)) }
{
    let place = place_code(alloc, p, scope, code, registers)?;
    let a = expression_code(alloc, e, scope, code, registers)?;
    Ok(assigned(alloc, place.target, ctype, a, code, registers)?)
}

/// A compound assignment, `++` or `--` (C11 6.5.16.2, 6.5.2.4, 6.5.3.1).
#[cycle(expressions)]
#[tactic(auto, using(crate::proofs::Lists::lists), unfolding(crate::specs::Code::update_in))]
fn update_code<'a>(
    alloc: Global,
    p: &'a Place_,
    ctype: &'a CType,
    op: UpdateOp,
    e: &'a Expr,
    answer: Answer,
    scope: Scope<'a>,
    code: &mut StmtsPart,
    registers: &mut Registers<'a>,
) -> Result<Operand<'a>, AllocError>
    ensures { IfOk result (λ r. Adds code.old registers.old (update_in scope.entry p.now ctype.now op e.now answer registers.old.next) code.new registers.new (operand_of r)) }
{
    let place = place_code(alloc, p, scope, code, registers)?;
    let value = loaded(alloc, place.target, ctype)?;
    let old = set(alloc, RegisterType::Of(ctype), value, code, registers)?;
    let b = expression_code(alloc, e, scope, code, registers)?;
    let value = updated(alloc, ctype, op, old, b)?;
    let new = set(alloc, RegisterType::Of(ctype), value, code, registers)?;
    store(alloc, place.target, RegisterType::Of(ctype), new, code)?;
    Ok(answered(answer, old, new))
}

/// A call (C11 6.5.2.2).
#[cycle(expressions)]
#[tactic(auto, using(crate::proofs::Splits::splits))]
fn invoke_code<'a>(
    alloc: Global,
    function: u32,
    es: &'a [Expr],
    scope: Scope<'a>,
    code: &mut StmtsPart,
    registers: &mut Registers<'a>,
) -> Result<Operand<'a>, AllocError>
    ensures { IfOk result (λ r. Adds code.old registers.old (invoke_in scope.entry function es.now registers.old.next) code.new registers.new (operand_of r)) }
{
    let arguments = arguments_code(alloc, es, scope, code, registers)?;
    let ctype = result_of(scope, function);
    Ok(invoked(alloc, function, ctype, arguments, code, registers)?)
}

/// The statements that make the values of arguments, at the end of the code, and the operands that hold them, as expressions.
#[cycle(expressions)]
fn arguments_code<'a>(
    alloc: Global,
    es: &'a [Expr],
    scope: Scope<'a>,
    code: &mut StmtsPart,
    registers: &mut Registers<'a>,
) -> Result<ExprsPart, AllocError>
    ensures { IfOk result (λ values. AddsArguments code.old registers.old (arguments_code_in scope.entry es.now registers.old.next) code.new registers.new values) }
{
    let mut values = ExprsPart::new(alloc);
    for e in es {
        let a = expression_code(alloc, e, scope, code, registers)?;
        let value = expression(alloc, a)?;
        values.push(value)?;
    }
    Ok(values)
}

/// The statements that make an lvalue's address, at the end of the code, and what stands for the lvalue.
#[cycle(expressions)]
#[tactic(auto, using(crate::proofs::Forms::places))]
pub fn place_code<'a>(
    alloc: Global,
    p: &'a Place_,
    scope: Scope<'a>,
    code: &mut StmtsPart,
    registers: &mut Registers<'a>,
) -> Result<Place<'a>, AllocError>
    ensures { IfOk result (λ r. AddsPlace code.old registers.old (place_code_in scope.entry p.now registers.old.next) code.new registers.new r) }
{
    match p {
        Place_::Own(variable) => Ok(Place {
            target: Target::Named(*variable),
            object: object(scope, *variable),
        }),
        Place_::Deref(e) => deref_code(alloc, e.get(), scope, code, registers),
        Place_::Member(p, offset) => member_code(alloc, p.get(), *offset, scope, code, registers),
        Place_::Index(p, e, size) => {
            index_code(alloc, p.get(), e.get(), *size, scope, code, registers)
        }
    }
}

/// What a pointer points to (C11 6.5.3.2).
#[cycle(expressions)]
#[tactic(auto, using(crate::proofs::Lists::lists), unfolding(crate::specs::Code::deref_in))]
fn deref_code<'a>(
    alloc: Global,
    e: &'a Expr,
    scope: Scope<'a>,
    code: &mut StmtsPart,
    registers: &mut Registers<'a>,
) -> Result<Place<'a>, AllocError>
    ensures { IfOk result (λ r. AddsPlace code.old registers.old (deref_in scope.entry e.now registers.old.next) code.new registers.new r) }
{
    let a = expression_code(alloc, e, scope, code, registers)?;
    Ok(Place {
        target: Target::Pointed(a),
        object: pointed(a),
    })
}

/// A member of a struct (C11 6.5.2.3).
#[cycle(expressions)]
#[tactic(auto, using(crate::proofs::Lists::lists), unfolding(crate::specs::Code::member_in))]
fn member_code<'a>(
    alloc: Global,
    p: &'a Place_,
    offset: u32,
    scope: Scope<'a>,
    code: &mut StmtsPart,
    registers: &mut Registers<'a>,
) -> Result<Place<'a>, AllocError>
    ensures { IfOk result (λ r. AddsPlace code.old registers.old (member_in scope.entry p.now offset registers.old.next) code.new registers.new r) }
{
    let whole = place_code(alloc, p, scope, code, registers)?;
    let ctype = member_of(scope, whole.object, offset);
    Ok(member_part(alloc, whole.target, offset, ctype, code, registers)?)
}

/// An element of an array (C11 6.5.2.1).
#[cycle(expressions)]
#[tactic(auto, using(crate::proofs::Lists::lists), unfolding(crate::specs::Code::index_in))]
fn index_code<'a>(
    alloc: Global,
    p: &'a Place_,
    e: &'a Expr,
    size: u32,
    scope: Scope<'a>,
    code: &mut StmtsPart,
    registers: &mut Registers<'a>,
) -> Result<Place<'a>, AllocError>
    ensures { IfOk result (λ r. AddsPlace code.old registers.old (index_in scope.entry p.now e.now size registers.old.next) code.new registers.new r) }
{
    let array = place_code(alloc, p, scope, code, registers)?;
    let index = expression_code(alloc, e, scope, code, registers)?;
    let ctype = element_of(array.object);
    Ok(element_part(alloc, array.target, index, size, ctype, code, registers)?)
}
