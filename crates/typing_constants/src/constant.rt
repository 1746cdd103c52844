//! Integer constant expressions (C11 6.6).

ghost use Rattle.std.specs.Prelude.{◌≡◌, ◌<◌, ◌≤◌, ℤ, pos, None, map, option_map, IfOk, IfSome};
ghost use Rattle.std.specs.List.{AllByRecursion};
ghost use Rattle.step_meaning.specs.declared.expr.Expr.{size-Expr};
ghost use Rattle.step_meaning.specs.Numbers.{is_zero as is_zero_of};
ghost use Rattle.typing_rules.specs.ConstantExpressions as rules;
ghost use Rattle.typing_constants.specs.Values as values;
ghost use Rattle.typing_constants.specs.Spines as spines;

use crate::operator::{binary, compared, unary};
use std::alloc::{AllocError, Global};
use step_meaning::{CompareOp, Expr, IntKind, IntOp, UnaryOp, convert};

/// The first operand of an operator of constant expressions. A chain of operators nests there, as deep as it is long.
#[tactic(auto, using(crate::proofs::SpineForms::first_forms))]
fn first_operand(x: &Expr) -> Option<&Expr>
    ensures operand { option_map (λ e. e.now) result ≡ spines.first_operand x.now }
    ensures within { IfSome result (λ e. size-Expr e.now < size-Expr x.now) }
{
    match x {
        Expr::Convert(_, e) => Some(e.get()),
        Expr::Unary(_, _, e) => Some(e.get()),
        Expr::Binary(_, _, e, _) => Some(e.get()),
        Expr::Compare(_, e, _) => Some(e.get()),
        Expr::Not(e) => Some(e.get()),
        Expr::Both(e, _) => Some(e.get()),
        Expr::Either(e, _) => Some(e.get()),
        Expr::Choose(e, _, _) => Some(e.get()),
        Expr::Literal(_, _)
        | Expr::Null
        | Expr::Load(_, _)
        | Expr::Address(_, _)
        | Expr::Move(_, _, _, _)
        | Expr::Difference(_, _, _)
        | Expr::Assign(_, _, _)
        | Expr::Update(_, _, _, _, _)
        | Expr::Invoke(_, _)
        | Expr::GetChar
        | Expr::PutChar(_)
        | Expr::Malloc(_, _)
        | Expr::Free(_)
        | Expr::Discard(_) => None,
    }
}

/// Whether the expression consists of literals, operators on integers, `? :` and integer casts, whatever it evaluates.
#[cycle(constant)]
pub fn is_constant(x: &Expr) -> bool
    ensures { result ≡ rules.is_constant x.now }
{
    let mut node = x;
    loop {
        if !are_others_constant(node) {
            return false;
        }
        match first_operand(node) {
            Some(first) => node = first,
            None => return true,
        }
    }
}

/// Whether it is a literal or an operator of constant expressions, with such operands after the first one.
#[cycle(constant)]
#[tactic(auto, using(crate::proofs::SpineForms::others_forms))]
fn are_others_constant(x: &Expr) -> bool
    ensures { result ≡ spines.others_constant x.now }
{
    match x {
        Expr::Literal(_, _) | Expr::Convert(_, _) | Expr::Unary(_, _, _) | Expr::Not(_) => true,
        Expr::Binary(_, _, _, f) => is_constant(f.get()),
        Expr::Compare(_, _, f) => is_constant(f.get()),
        Expr::Both(_, f) => is_constant(f.get()),
        Expr::Either(_, f) => is_constant(f.get()),
        Expr::Choose(_, f, g) => is_constant(f.get()) && is_constant(g.get()),
        Expr::Null
        | Expr::Load(_, _)
        | Expr::Address(_, _)
        | Expr::Move(_, _, _, _)
        | Expr::Difference(_, _, _)
        | Expr::Assign(_, _, _)
        | Expr::Update(_, _, _, _, _)
        | Expr::Invoke(_, _)
        | Expr::GetChar
        | Expr::PutChar(_)
        | Expr::Malloc(_, _)
        | Expr::Free(_)
        | Expr::Discard(_) => false,
    }
}

fn is_zero(value: i128) -> bool
    ensures { result ≡ is_zero_of value }
{
    value == 0
}

/// 1 where the test holds, and else 0.
fn truth(test: bool) -> i128
    ensures { result ≡ rules.truth test }
{
    if test { 1 } else { 0 }
}

#[tactic(auto, unfolding(crate::specs::Values::converted_value))]
fn converted(kind: IntKind, a: Option<i128>) -> Option<i128>
    ensures { result ≡ values.converted_value kind a }
{
    match a {
        None => None,
        Some(a) => Some(convert(kind, a)),
    }
}

#[tactic(auto, unfolding(crate::specs::Values::unary_value))]
fn unary_value(op: UnaryOp, kind: IntKind, a: Option<i128>) -> Option<i128>
    ensures { result ≡ values.unary_value op kind a }
{
    match a {
        None => None,
        Some(a) => unary(op, kind, a),
    }
}

#[tactic(auto, unfolding(crate::specs::Values::binary_value))]
fn binary_value(op: IntOp, kind: IntKind, a: Option<i128>, b: Option<i128>) -> Option<i128>
    ensures { result ≡ values.binary_value op kind a b }
{
    match (a, b) {
        (Some(a), Some(b)) => binary(op, kind, a, b),
        _ => None,
    }
}

#[tactic(auto, unfolding(crate::specs::Values::compared_value))]
fn compared_value(op: CompareOp, a: Option<i128>, b: Option<i128>) -> Option<i128>
    ensures { result ≡ values.compared_value op a b }
{
    match (a, b) {
        (Some(a), Some(b)) => Some(truth(compared(op, a, b))),
        _ => None,
    }
}

#[tactic(auto, unfolding(crate::specs::Values::negated_value))]
fn negated(a: Option<i128>) -> Option<i128>
    ensures { result ≡ values.negated_value a }
{
    match a {
        None => None,
        Some(a) => Some(truth(is_zero(a))),
    }
}

/// 1 of each value but 0.
#[tactic(auto, unfolding(crate::specs::Values::logical_value))]
fn logical(a: Option<i128>) -> Option<i128>
    ensures { result ≡ values.logical_value a }
{
    match a {
        None => None,
        Some(a) => { if is_zero(a) { Some(0) } else { Some(1) } }
    }
}

/// `&&`, whose second operand may have no value where the first one is 0 (C11 6.5.13, 4).
#[tactic(auto, unfolding(crate::specs::Values::both_value))]
fn both(a: Option<i128>, b: Option<i128>) -> Option<i128>
    ensures { result ≡ values.both_value a b }
{
    match a {
        None => None,
        Some(a) => { if is_zero(a) { Some(0) } else { logical(b) } }
    }
}

/// `||`, whose second operand may have no value where the first one isn't 0 (C11 6.5.14, 4).
#[tactic(auto, unfolding(crate::specs::Values::either_value))]
fn either(a: Option<i128>, b: Option<i128>) -> Option<i128>
    ensures { result ≡ values.either_value a b }
{
    match a {
        None => None,
        Some(a) => { if is_zero(a) { logical(b) } else { Some(1) } }
    }
}

/// `? :`, of which the part that isn't selected may have no value (C11 6.5.15, 4).
#[tactic(auto, unfolding(crate::specs::Values::chosen_value))]
fn chosen(a: Option<i128>, b: Option<i128>, c: Option<i128>) -> Option<i128>
    ensures { result ≡ values.chosen_value a b c }
{
    match a {
        None => None,
        Some(a) => { if is_zero(a) { c } else { b } }
    }
}

/// The nodes from the expression on, each the first operand of that before it, to the last one. An error is want of memory.
fn spine_of(alloc: Global, x: &Expr) -> Result<Vec<&Expr>, AllocError>
    ensures value { IfOk result (λ nodes. rules.value_of x.now ≡ spines.climbed (map (λ n. n.now) nodes.items) None) }
    ensures within { IfOk result (λ nodes. AllByRecursion (λ n. size-Expr n.now ≤ size-Expr x.now) nodes.items) }
{
    let mut nodes = Vec::new(alloc);
    let mut node = x;
    loop {
        nodes.push(node)?;
        match first_operand(node) {
            Some(first) => node = first,
            None => return Ok(nodes),
        }
    }
}

/// The value of the expression; none where it makes a fault, or isn't made of what a constant expression is. An error is
/// want of memory.
#[cycle(value)]
fn value_of(alloc: Global, x: &Expr) -> Result<Option<i128>, AllocError>
    ensures { IfOk result (λ value. value ≡ rules.value_of x.now) }
{
    let mut nodes = spine_of(alloc, x)?;
    let mut value = None;
    loop {
        match nodes.pop() {
            Some(node) => value = value_after(alloc, node, value)?,
            None => return Ok(value),
        }
    }
}

/// The value, from that of the first operand.
#[cycle(value)]
#[tactic(auto, using(crate::proofs::SpineForms::after_forms))]
fn value_after(alloc: Global, x: &Expr, a: Option<i128>) -> Result<Option<i128>, AllocError>
    ensures { IfOk result (λ value. value ≡ spines.value_after x.now a) }
{
    match x {
        Expr::Literal(_, value) => Ok(Some(*value)),
        Expr::Convert(kind, _) => Ok(converted(*kind, a)),
        Expr::Unary(op, kind, _) => Ok(unary_value(*op, *kind, a)),
        Expr::Not(_) => Ok(negated(a)),
        Expr::Binary(op, kind, _, f) => {
            let b = value_of(alloc, f.get())?;
            Ok(binary_value(*op, *kind, a, b))
        }
        Expr::Compare(op, _, f) => {
            let b = value_of(alloc, f.get())?;
            Ok(compared_value(*op, a, b))
        }
        Expr::Both(_, f) => {
            let b = value_of(alloc, f.get())?;
            Ok(both(a, b))
        }
        Expr::Either(_, f) => {
            let b = value_of(alloc, f.get())?;
            Ok(either(a, b))
        }
        Expr::Choose(_, f, g) => {
            let b = value_of(alloc, f.get())?;
            let c = value_of(alloc, g.get())?;
            Ok(chosen(a, b, c))
        }
        Expr::Null
        | Expr::Load(_, _)
        | Expr::Address(_, _)
        | Expr::Move(_, _, _, _)
        | Expr::Difference(_, _, _)
        | Expr::Assign(_, _, _)
        | Expr::Update(_, _, _, _, _)
        | Expr::Invoke(_, _)
        | Expr::GetChar
        | Expr::PutChar(_)
        | Expr::Malloc(_, _)
        | Expr::Free(_)
        | Expr::Discard(_) => Ok(None),
    }
}

/// The value of an integer constant expression; none where it is no such expression, or makes a fault (C11 6.6, 3, 4 and 6).
/// An error is want of memory.
#[tactic(auto, unfolding(typing_rules::specs::ConstantExpressions::constant))]
pub fn constant(alloc: Global, x: &Expr) -> Result<Option<i128>, AllocError>
    ensures { IfOk result (λ value. value ≡ rules.constant x.now) }
{
    if is_constant(x) {
        value_of(alloc, x)
    } else {
        Ok(None)
    }
}

fn positive(value: Option<i128>) -> Option<u128>
    ensures { result ≡ rules.positive value }
{
    match value {
        None => None,
        Some(value) => { if value > 0 { Some(value as u128) } else { None } }
    }
}

/// The size of an array that the expression gives: a constant of 1 or more (C11 6.7.6.2, 1). An error is want of memory.
#[tactic(auto, unfolding(typing_rules::specs::ConstantExpressions::size_of_array))]
pub fn size_of_array(alloc: Global, x: &Expr) -> Result<Option<u128>, AllocError>
    ensures { IfOk result (λ size. size ≡ rules.size_of_array x.now) }
{
    let value = constant(alloc, x)?;
    Ok(positive(value))
}
