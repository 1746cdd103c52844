//! What comes after the code of operands: the statements over them. An error is want of memory, or of registers.

ghost use Rattle.std.specs.Prelude.{◌≡◌, ◌++◌, IfOk, OnOk, option_map};
ghost use Rattle.step_meaning.specs.declared.expr.UpdateOp.TheVariants.{Integer};
ghost use Rattle.normal_laws.specs.NormalForm as form;
ghost use Rattle.normal_trees.specs.Operands.{object_of, operand_of, register_type, target_of};
ghost use Rattle.normal_expressions.specs.Code.{assigned_from, both_from, chosen_from, either_from, invoked_from, standing, value_type};
ghost use Rattle.normal_expressions.specs.Additions.{Adds, AddsPlace, taking};

use crate::registers::{Registers, set};
use crate::scope::Place;
use normal_trees::{
    Operand, RegisterType, Target, choose, chosen_type, common_operand, computed_from,
    converted_part, element_address, evaluate, expression, member_address, moved, set_to, store,
    truth_value,
};
use std::alloc::{AllocError, Global};
use step_meaning::{
    Answer, CType, Expr, ExprPart, ExprsPart, IntKind, IntOp, Side, StmtsPart, UpdateOp,
};

// ---- short circuits and choices

/// `&&`, where the second operand has this code (C11 6.5.13).
#[tactic(auto, unfolding(crate::specs::Code::both_from))]
pub fn both<'a>(
    alloc: Global,
    a: Operand<'a>,
    second: StmtsPart,
    b: Operand<'a>,
    code: &mut StmtsPart,
    registers: &mut Registers<'a>,
) -> Result<Operand<'a>, AllocError>
    ensures { IfOk result (λ r. Adds code.old registers.old (both_from (operand_of a.entry) second (operand_of b.entry) registers.old.next) code.new registers.new (operand_of r)) }
{
    let mut second = second;
    let mut zero = StmtsPart::empty(alloc);
    let index = registers.next;
    let value = truth_value(alloc, b)?;
    let answer = set(
        alloc,
        RegisterType::Int(IntKind::Int),
        value,
        &mut second,
        registers,
    )?;
    truth(alloc, index, 0, &mut zero)?;
    choose(alloc, a, second, zero, code)?;
    Ok(answer)
}

/// `||`, where the second operand has this code (C11 6.5.14).
#[tactic(auto, unfolding(crate::specs::Code::either_from))]
pub fn either<'a>(
    alloc: Global,
    a: Operand<'a>,
    second: StmtsPart,
    b: Operand<'a>,
    code: &mut StmtsPart,
    registers: &mut Registers<'a>,
) -> Result<Operand<'a>, AllocError>
    ensures { IfOk result (λ r. Adds code.old registers.old (either_from (operand_of a.entry) second (operand_of b.entry) registers.old.next) code.new registers.new (operand_of r)) }
{
    let mut second = second;
    let mut one = StmtsPart::empty(alloc);
    let index = registers.next;
    let value = truth_value(alloc, b)?;
    let answer = set(
        alloc,
        RegisterType::Int(IntKind::Int),
        value,
        &mut second,
        registers,
    )?;
    truth(alloc, index, 1, &mut one)?;
    choose(alloc, a, one, second, code)?;
    Ok(answer)
}

/// A register takes a truth value, 0 or 1.
fn truth(alloc: Global, index: u32, value: u8, code: &mut StmtsPart) -> Result<(), AllocError>
    ensures { OnOk result (code.new ≡ code.old ++ form.one (form.set_to index form.int (form.truth_literal value))) }
{
    let value = ExprPart::new(alloc, Expr::Literal(IntKind::Int, i128::from(value)))?;
    set_to(alloc, index, RegisterType::Int(IntKind::Int), value, code)
}

/// A register takes the value of an operand, at the end of a branch.
fn set_operand(
    alloc: Global,
    index: u32,
    ctype: RegisterType<'_>,
    a: Operand<'_>,
    code: &mut StmtsPart,
) -> Result<(), AllocError>
    ensures { OnOk result (code.new ≡ code.old ++ form.one (form.set_to index (register_type ctype.entry) (form.expression_of (operand_of a.entry)))) }
{
    let value = expression(alloc, a)?;
    set_to(alloc, index, ctype, value, code)
}

/// A branch of `? :` with the operand that holds its value.
#[derive(Drop)]
pub struct Branch<'a> {
    /// Its code.
    pub code: StmtsPart,
    /// The operand.
    pub value: Operand<'a>,
}

/// `? :`, where the branches have this code (C11 6.5.15).
#[tactic(auto, unfolding(crate::specs::Code::chosen_from))]
pub fn chosen<'a>(
    alloc: Global,
    test: Operand<'a>,
    first: Branch<'a>,
    second: Branch<'a>,
    code: &mut StmtsPart,
    registers: &mut Registers<'a>,
) -> Result<Operand<'a>, AllocError>
    ensures { IfOk result (λ r. Adds code.old registers.old (chosen_from (operand_of test.entry) first.entry.code (operand_of first.entry.value) second.entry.code (operand_of second.entry.value) registers.old.next) code.new registers.new (operand_of r)) }
{
    let Branch {
        code: mut yes,
        value: a,
    } = first;
    let Branch {
        code: mut no,
        value: b,
    } = second;
    match common_operand(a, b) {
        Some(common) => {
            choose(alloc, test, yes, no, code)?;
            Ok(common)
        }
        None => {
            let ctype = chosen_type(a, b);
            let index = registers.take(ctype)?;
            set_operand(alloc, index, ctype, a, &mut yes)?;
            set_operand(alloc, index, ctype, b, &mut no)?;
            choose(alloc, test, yes, no, code)?;
            Ok(Operand::Held(index, ctype))
        }
    }
}

// ---- assignments

/// An operand that a place of this type takes: null is brought into a register of the type.
pub fn typed<'a>(
    alloc: Global,
    ctype: &'a CType,
    a: Operand<'a>,
    code: &mut StmtsPart,
    registers: &mut Registers<'a>,
) -> Result<Operand<'a>, AllocError>
    ensures { IfOk result (λ r. Adds code.old registers.old (form.typed_value ctype.now (operand_of a.entry) (form.without_code (operand_of a.entry) registers.old.next)) code.new registers.new (operand_of r)) }
{
    match a {
        Operand::Null => {
            let value = expression(alloc, a)?;
            set(alloc, RegisterType::Of(ctype), value, code, registers)
        }
        Operand::Number(_, _) | Operand::Held(_, _) | Operand::Absent => Ok(a),
    }
}

/// An assignment of an operand at a place of this type (C11 6.5.16.1).
#[tactic(auto, unfolding(crate::specs::Code::assigned_from))]
pub fn assigned<'a>(
    alloc: Global,
    target: Target<'a>,
    ctype: &'a CType,
    a: Operand<'a>,
    code: &mut StmtsPart,
    registers: &mut Registers<'a>,
) -> Result<Operand<'a>, AllocError>
    ensures { IfOk result (λ r. Adds code.old registers.old (assigned_from ctype.now (target_of target.entry) (operand_of a.entry) registers.old.next) code.new registers.new (operand_of r)) }
{
    let value = typed(alloc, ctype, a, code, registers)?;
    store(alloc, target, RegisterType::Of(ctype), value, code)?;
    Ok(value)
}

/// An integer of the one kind brought to another.
fn brought(
    alloc: Global,
    from: IntKind,
    to: IntKind,
    value: ExprPart,
) -> Result<ExprPart, AllocError>
    ensures { IfOk result (λ e. e ≡ form.convert_between from to value) }
{
    if from == to {
        Ok(value)
    } else {
        converted_part(alloc, to, value)
    }
}

/// The value of an object of this type, brought to the kind in which it is computed with.
fn brought_from(
    alloc: Global,
    ctype: &CType,
    kind: IntKind,
    value: ExprPart,
) -> Result<ExprPart, AllocError>
    ensures { IfOk result (λ e. e ≡ form.convert_from ctype.now kind value) }
{
    match ctype {
        CType::Int(own) => brought(alloc, *own, kind, value),
        CType::Void | CType::Pointer(_) | CType::Array(_, _) | CType::Struct(_) => {
            converted_part(alloc, kind, value)
        }
    }
}

/// A value in the kind, brought to the type of the object that takes it.
fn brought_back(
    alloc: Global,
    kind: IntKind,
    ctype: &CType,
    value: ExprPart,
) -> Result<ExprPart, AllocError>
    ensures { IfOk result (λ e. e ≡ form.convert_back kind ctype.now value) }
{
    match ctype {
        CType::Int(own) => brought(alloc, kind, *own, value),
        CType::Void | CType::Pointer(_) | CType::Array(_, _) | CType::Struct(_) => Ok(value),
    }
}

/// The new value of an integer object of this type, from the old one and the operand.
fn computed_anew(
    alloc: Global,
    ctype: &CType,
    op: IntOp,
    kind: IntKind,
    old: Operand<'_>,
    b: Operand<'_>,
) -> Result<ExprPart, AllocError>
    ensures { IfOk result (λ e. e ≡ form.updated_expression ctype.now (Integer op kind) (form.expression_of (operand_of old.entry)) (form.expression_of (operand_of b.entry))) }
{
    let left = expression(alloc, old)?;
    let left = brought_from(alloc, ctype, kind, left)?;
    let value = computed_from(alloc, op, kind, left, b)?;
    brought_back(alloc, kind, ctype, value)
}

/// The new value of an object of this type, from the old one and the operand (C11 6.5.16.2).
pub fn updated(
    alloc: Global,
    ctype: &CType,
    op: UpdateOp,
    old: Operand<'_>,
    b: Operand<'_>,
) -> Result<ExprPart, AllocError>
    ensures { IfOk result (λ e. e ≡ form.updated_expression ctype.now op (form.expression_of (operand_of old.entry)) (form.expression_of (operand_of b.entry))) }
{
    match op {
        UpdateOp::Integer(op, kind) => computed_anew(alloc, ctype, op, kind, old, b),
        UpdateOp::Forward(size) => moved(alloc, old, b, size, Side::PointerFirst),
        UpdateOp::Backward(size) => moved(alloc, old, b, size, Side::Minus),
    }
}

/// The value of an update: the old one or the new one.
pub fn answered<'a>(answer: Answer, old: Operand<'a>, new: Operand<'a>) -> Operand<'a>
    ensures { operand_of result ≡ form.answered answer (operand_of old.entry) (operand_of new.entry) }
{
    match answer {
        Answer::Before => old,
        Answer::After => new,
    }
}

// ---- calls

/// A call of `getchar` (C11 7.21.7.6).
pub fn get_char_code<'a>(
    alloc: Global,
    code: &mut StmtsPart,
    registers: &mut Registers<'a>,
) -> Result<Operand<'a>, AllocError>
    ensures { IfOk result (λ r. Adds code.old registers.old (taking form.int Expr.GetChar registers.old.next) code.new registers.new (operand_of r)) }
{
    let value = ExprPart::new(alloc, Expr::GetChar)?;
    set(
        alloc,
        RegisterType::Int(IntKind::Int),
        value,
        code,
        registers,
    )
}

/// The type, where it isn't `void`.
#[tactic(auto, using(crate::proofs::Calls::values))]
fn value_by(ctype: &CType) -> Option<&CType>
    ensures { option_map (λ t. t.now) result ≡ value_type ctype.now }
{
    match ctype {
        CType::Void => None,
        CType::Int(_) | CType::Pointer(_) | CType::Array(_, _) | CType::Struct(_) => Some(ctype),
    }
}

/// The type of the value of a call; none where it has no value.
fn valued(ctype: Option<&CType>) -> Option<&CType>
    ensures { option_map (λ t. t.now) result ≡ value_type (object_of ctype.entry) }
{
    match ctype {
        None => None,
        Some(ctype) => value_by(ctype),
    }
}

/// A call of the function with these arguments, whose value has this type (C11 6.5.2.2).
#[tactic(auto, unfolding(crate::specs::Code::invoked_from))]
pub fn invoked<'a>(
    alloc: Global,
    function: u32,
    ctype: Option<&'a CType>,
    arguments: ExprsPart,
    code: &mut StmtsPart,
    registers: &mut Registers<'a>,
) -> Result<Operand<'a>, AllocError>
    ensures { IfOk result (λ r. Adds code.old registers.old (invoked_from function (object_of ctype.entry) arguments registers.old.next) code.new registers.new (operand_of r)) }
{
    let call = ExprPart::new(alloc, Expr::Invoke(function, arguments.into_items()))?;
    match valued(ctype) {
        None => {
            evaluate(alloc, call, code)?;
            Ok(Operand::Absent)
        }
        Some(ctype) => set(alloc, RegisterType::Of(ctype), call, code, registers),
    }
}

// ---- parts of objects

/// The address of the member at the offset of a target is brought into a register. The member has this type.
pub fn member_part<'a>(
    alloc: Global,
    target: Target<'a>,
    offset: u32,
    object: Option<&'a CType>,
    code: &mut StmtsPart,
    registers: &mut Registers<'a>,
) -> Result<Place<'a>, AllocError>
    ensures { IfOk result (λ p. AddsPlace code.old registers.old (form.member_code offset (object_of object.entry) (standing (target_of target.entry) (object_of object.entry) registers.old.next)) code.new registers.new p) }
{
    let value = member_address(alloc, target, offset, object)?;
    let pointer = set(alloc, RegisterType::To(object), value, code, registers)?;
    Ok(Place {
        target: Target::Pointed(pointer),
        object,
    })
}

/// The address of an element of a target is brought into a register. The element has this type and so many cells.
pub fn element_part<'a>(
    alloc: Global,
    target: Target<'a>,
    index: Operand<'a>,
    size: u32,
    object: Option<&'a CType>,
    code: &mut StmtsPart,
    registers: &mut Registers<'a>,
) -> Result<Place<'a>, AllocError>
    ensures { IfOk result (λ p. AddsPlace code.old registers.old (form.index_code size (object_of object.entry) (standing (target_of target.entry) (object_of object.entry) registers.old.next) (form.without_code (operand_of index.entry) registers.old.next)) code.new registers.new p) }
{
    let value = element_address(alloc, target, index, size, object)?;
    let pointer = set(alloc, RegisterType::To(object), value, code, registers)?;
    Ok(Place {
        target: Target::Pointed(pointer),
        object,
    })
}
