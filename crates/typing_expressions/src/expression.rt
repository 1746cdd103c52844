//! Expressions: the parts of a construct from left to right, then its rule (C11 6.5).

ghost use Rattle.std.specs.Prelude.{◌≡◌, ◌<◌, ◌≤◌, length, map, Ok, IfOk};
ghost use Rattle.c_grammar.specs.declared.expression.Assign.{size-Assign};
ghost use Rattle.c_grammar.specs.declared.expression.Product.{out-Product, size-Product};
ghost use Rattle.typing_expressions.specs.Parts.{arguments_of, measure, product_part};
ghost use Rattle.typing_laws.specs.SmallTypes.{IsSmall, IsSmallOperand};
ghost use Rattle.typing_rules.specs.Checked.{Gives};
ghost use Rattle.typing_rules.specs.Expressions as spec;
ghost use Rattle.typing_rules.specs.Syntax as syntax;
ghost use Rattle.typing_rules.specs.TreesOfExpressions as trees;
ghost use Rattle.typing_scopes.specs.Known.{known as environment};
ghost use Rattle.typing_shapes.specs.Bare.{EndsInStar, measured_size};
ghost use Rattle.typing_steps.specs.Steps.{asked, asked_result, free_of, malloc_of};

use crate::step::{argument, parenthesised, type_of};
use c_grammar::expression::{
    And, Assign, BitAnd, BitOr, BitXor, Choice, Equal, Or, Postfix, Primary, Product, Relation,
    Shift, Suffix, Sum, Unary,
};
use c_words::chain::Chain;
use c_words::word::Leaf;
use std::alloc::Global;
use step_meaning::{Answer, Declared, ExprsPart, IntOp};
use typing_objects::allocation::{Request, freed, objects, one_object};
use typing_operands::value::condition;
use typing_rules::fault::TypeFault;
use typing_rules::operand::{Operand, TypePart};
use typing_scopes::found::Found;
use typing_scopes::known::Known;
use typing_shapes::request::{Bare, Factors, Measured, bare_form, factors_of};
use typing_steps::called::{after_first, allocated_in, called, called_without};
use typing_steps::leaf::{character, named, number};
use typing_steps::rule::{assigned_by, cast_to, chosen, joined, prefixed, stepped_by, valued};
use typing_steps::suffix::{based, element, member, member_behind};

/// An expression.
#[cycle(expression)]
#[tactic(auto, using(crate::proofs::Alternatives::assigns), unfolding(typing_rules::specs::Expressions::operand))]
pub fn assign(alloc: Global, known: &Known, e: &Assign) -> Result<Operand, TypeFault>
    requires { IsSmall (environment known.now) }
    ensures gives { Gives (spec.operand (environment known.now) (trees.assign e.now)) result }
    ensures small { IfOk result (λ a. IsSmallOperand known.now.layouts a) }
{
    match e {
        Assign::Choice(x) => choice(alloc, known, x),
        Assign::Assign(left, operator, right) => {
            let a = unary(alloc, known, left)?;
            let b = assign(alloc, known, right.get())?;
            let v = valued(alloc, known, b)?;
            assigned_by(alloc, known, operator, a, v)
        }
    }
}

/// A conditional expression.
#[cycle(expression)]
#[tactic(auto, using(crate::proofs::Alternatives::choices), unfolding(typing_rules::specs::Expressions::operand))]
pub fn choice(alloc: Global, known: &Known, e: &Choice) -> Result<Operand, TypeFault>
    requires { IsSmall (environment known.now) }
    ensures gives { Gives (spec.operand (environment known.now) (trees.choice e.now)) result }
    ensures small { IfOk result (λ a. IsSmallOperand known.now.layouts a) }
{
    match e {
        Choice::Or(x) => or(alloc, known, x.get()),
        Choice::Choose(test, question, second, _, third) => {
            let a = or(alloc, known, test.get())?;
            let first = a.first;
            let v = valued(alloc, known, a)?;
            let test = condition(v)?;
            let b = assign(alloc, known, second.get())?;
            let w = valued(alloc, known, b)?;
            let c = choice(alloc, known, third.get())?;
            let u = valued(alloc, known, c)?;
            chosen(alloc, known, question, first, test, w, u)
        }
    }
}
/// A chain of `||`.
#[cycle(expression)]
#[tactic(auto, using(typing_rules::proofs::Levels::level_or), unfolding(typing_rules::specs::Chains::linked))]
fn or(alloc: Global, known: &Known, e: &Or) -> Result<Operand, TypeFault>
    requires { IsSmall (environment known.now) }
    ensures gives { Gives (spec.operand (environment known.now) (trees.or e.now)) result }
    ensures small { IfOk result (λ a. IsSmallOperand known.now.layouts a) }
{
    let mut found = and(alloc, known, &e.0.first)?;
    for link in e.0.rest.as_slice() {
        let left = valued(alloc, known, found)?;
        let right = and(alloc, known, &link.operand)?;
        found = joined(alloc, known, &link.operator, left, right)?;
    }
    Ok(found)
}

/// A chain of `&&`.
#[cycle(expression)]
#[tactic(auto, using(typing_rules::proofs::Levels::level_and), unfolding(typing_rules::specs::Chains::linked))]
fn and(alloc: Global, known: &Known, e: &And) -> Result<Operand, TypeFault>
    requires { IsSmall (environment known.now) }
    ensures gives { Gives (spec.operand (environment known.now) (trees.and e.now)) result }
    ensures small { IfOk result (λ a. IsSmallOperand known.now.layouts a) }
{
    let mut found = bit_or(alloc, known, &e.0.first)?;
    for link in e.0.rest.as_slice() {
        let left = valued(alloc, known, found)?;
        let right = bit_or(alloc, known, &link.operand)?;
        found = joined(alloc, known, &link.operator, left, right)?;
    }
    Ok(found)
}

/// A chain of `|`.
#[cycle(expression)]
#[tactic(auto, using(typing_rules::proofs::Levels::level_bit_or), unfolding(typing_rules::specs::Chains::linked))]
fn bit_or(alloc: Global, known: &Known, e: &BitOr) -> Result<Operand, TypeFault>
    requires { IsSmall (environment known.now) }
    ensures gives { Gives (spec.operand (environment known.now) (trees.bit_or e.now)) result }
    ensures small { IfOk result (λ a. IsSmallOperand known.now.layouts a) }
{
    let mut found = bit_xor(alloc, known, &e.0.first)?;
    for link in e.0.rest.as_slice() {
        let left = valued(alloc, known, found)?;
        let right = bit_xor(alloc, known, &link.operand)?;
        found = joined(alloc, known, &link.operator, left, right)?;
    }
    Ok(found)
}

/// A chain of `^`.
#[cycle(expression)]
#[tactic(auto, using(typing_rules::proofs::Levels::level_bit_xor), unfolding(typing_rules::specs::Chains::linked))]
fn bit_xor(alloc: Global, known: &Known, e: &BitXor) -> Result<Operand, TypeFault>
    requires { IsSmall (environment known.now) }
    ensures gives { Gives (spec.operand (environment known.now) (trees.bit_xor e.now)) result }
    ensures small { IfOk result (λ a. IsSmallOperand known.now.layouts a) }
{
    let mut found = bit_and(alloc, known, &e.0.first)?;
    for link in e.0.rest.as_slice() {
        let left = valued(alloc, known, found)?;
        let right = bit_and(alloc, known, &link.operand)?;
        found = joined(alloc, known, &link.operator, left, right)?;
    }
    Ok(found)
}

/// A chain of `&`.
#[cycle(expression)]
#[tactic(auto, using(typing_rules::proofs::Levels::level_bit_and), unfolding(typing_rules::specs::Chains::linked))]
fn bit_and(alloc: Global, known: &Known, e: &BitAnd) -> Result<Operand, TypeFault>
    requires { IsSmall (environment known.now) }
    ensures gives { Gives (spec.operand (environment known.now) (trees.bit_and e.now)) result }
    ensures small { IfOk result (λ a. IsSmallOperand known.now.layouts a) }
{
    let mut found = equal(alloc, known, &e.0.first)?;
    for link in e.0.rest.as_slice() {
        let left = valued(alloc, known, found)?;
        let right = equal(alloc, known, &link.operand)?;
        found = joined(alloc, known, &link.operator, left, right)?;
    }
    Ok(found)
}

/// A chain of `==` and `!=`.
#[cycle(expression)]
#[tactic(auto, using(typing_rules::proofs::Levels::level_equal), unfolding(typing_rules::specs::Chains::linked))]
fn equal(alloc: Global, known: &Known, e: &Equal) -> Result<Operand, TypeFault>
    requires { IsSmall (environment known.now) }
    ensures gives { Gives (spec.operand (environment known.now) (trees.equal e.now)) result }
    ensures small { IfOk result (λ a. IsSmallOperand known.now.layouts a) }
{
    let mut found = relation(alloc, known, &e.0.first)?;
    for link in e.0.rest.as_slice() {
        let left = valued(alloc, known, found)?;
        let right = relation(alloc, known, &link.operand)?;
        found = joined(alloc, known, &link.operator, left, right)?;
    }
    Ok(found)
}

/// A chain of relational operators.
#[cycle(expression)]
#[tactic(auto, using(typing_rules::proofs::Levels::level_relation), unfolding(typing_rules::specs::Chains::linked))]
fn relation(alloc: Global, known: &Known, e: &Relation) -> Result<Operand, TypeFault>
    requires { IsSmall (environment known.now) }
    ensures gives { Gives (spec.operand (environment known.now) (trees.relation e.now)) result }
    ensures small { IfOk result (λ a. IsSmallOperand known.now.layouts a) }
{
    let mut found = shift(alloc, known, &e.0.first)?;
    for link in e.0.rest.as_slice() {
        let left = valued(alloc, known, found)?;
        let right = shift(alloc, known, &link.operand)?;
        found = joined(alloc, known, &link.operator, left, right)?;
    }
    Ok(found)
}

/// A chain of shifts.
#[cycle(expression)]
#[tactic(auto, using(typing_rules::proofs::Levels::level_shift), unfolding(typing_rules::specs::Chains::linked))]
fn shift(alloc: Global, known: &Known, e: &Shift) -> Result<Operand, TypeFault>
    requires { IsSmall (environment known.now) }
    ensures gives { Gives (spec.operand (environment known.now) (trees.shift e.now)) result }
    ensures small { IfOk result (λ a. IsSmallOperand known.now.layouts a) }
{
    let mut found = sum(alloc, known, &e.0.first)?;
    for link in e.0.rest.as_slice() {
        let left = valued(alloc, known, found)?;
        let right = sum(alloc, known, &link.operand)?;
        found = joined(alloc, known, &link.operator, left, right)?;
    }
    Ok(found)
}

/// A chain of `+` and `-`.
#[cycle(expression)]
#[tactic(auto, using(typing_rules::proofs::Levels::level_sum), unfolding(typing_rules::specs::Chains::linked))]
fn sum(alloc: Global, known: &Known, e: &Sum) -> Result<Operand, TypeFault>
    requires { IsSmall (environment known.now) }
    ensures gives { Gives (spec.operand (environment known.now) (trees.sum e.now)) result }
    ensures small { IfOk result (λ a. IsSmallOperand known.now.layouts a) }
{
    let mut found = product(alloc, known, &e.0.first)?;
    for link in e.0.rest.as_slice() {
        let left = valued(alloc, known, found)?;
        let right = product(alloc, known, &link.operand)?;
        found = joined(alloc, known, &link.operator, left, right)?;
    }
    Ok(found)
}

/// A chain of `*`, `/` and `%`.
#[cycle(expression)]
fn product(alloc: Global, known: &Known, e: &Product) -> Result<Operand, TypeFault>
    requires { IsSmall (environment known.now) }
    ensures gives { Gives (spec.operand (environment known.now) (trees.product e.now)) result }
    ensures small { IfOk result (λ a. IsSmallOperand known.now.layouts a) }
{
    operands(alloc, known, e, e.0.rest.len())
}

/// The first operand of a product with so many links behind it.
#[cycle(expression)]
#[tactic(auto, using(crate::proofs::Products::part_linked), unfolding(typing_rules::specs::Chains::linked))]
fn operands(alloc: Global, known: &Known, e: &Product, count: usize) -> Result<Operand, TypeFault>
    requires known { IsSmall (environment known.now) }
    requires within { count ≤ length (out-Product e.now).0.rest }
    ensures gives { Gives (spec.operand (environment known.now) (product_part e.now count)) result }
    ensures small { IfOk result (λ a. IsSmallOperand known.now.layouts a) }
{
    let mut found = unary(alloc, known, &e.0.first)?;
    for link in &e.0.rest.as_slice()[..count] {
        let left = valued(alloc, known, found)?;
        let right = unary(alloc, known, &link.operand)?;
        found = joined(alloc, known, &link.operator, left, right)?;
    }
    Ok(found)
}

/// A cast, or an operator before its operand.
#[cycle(expression)]
#[tactic(auto, using(crate::proofs::Alternatives::unaries), unfolding(typing_rules::specs::Expressions::operand))]
fn unary(alloc: Global, known: &Known, e: &Unary) -> Result<Operand, TypeFault>
    requires { IsSmall (environment known.now) }
    ensures gives { Gives (spec.operand (environment known.now) (trees.unary e.now)) result }
    ensures small { IfOk result (λ a. IsSmallOperand known.now.layouts a) }
{
    match e {
        Unary::Postfix(x) => postfix(alloc, known, x),
        Unary::Prefix(operator, x) => {
            let a = unary(alloc, known, x.get())?;
            prefixed(alloc, known, operator, a)
        }
        Unary::Cast(opening, name, _, x) => {
            let ctype = known.spelled_type(alloc, name.get())?;
            let a = unary(alloc, known, x.get())?;
            let v = valued(alloc, known, a)?;
            cast_to(alloc, known, opening, ctype, v)
        }
        Unary::SizeOf(word, x) => {
            let _operand = unary(alloc, known, x.get())?;
            Err(TypeFault::Mismatch(word.token.place))
        }
        Unary::SizeOfType(word, _, name, _) => {
            let _ctype = known.spelled_type(alloc, name.get())?;
            Err(TypeFault::Mismatch(word.token.place))
        }
    }
}

/// An operand with suffixes.
#[cycle(expression)]
fn postfix(alloc: Global, known: &Known, e: &Postfix) -> Result<Operand, TypeFault>
    requires { IsSmall (environment known.now) }
    ensures gives { Gives (spec.operand (environment known.now) (trees.postfix e.now)) result }
    ensures small { IfOk result (λ a. IsSmallOperand known.now.layouts a) }
{
    let mut found = primary(alloc, known, &e.primary)?;
    for next in e.suffixes.as_slice() {
        found = suffix(alloc, known, found, next)?;
    }
    Ok(found)
}

/// A suffix behind an operand (C11 6.5.2).
#[cycle(expression)]
#[tactic(auto, using(crate::proofs::Alternatives::suffixes), unfolding(typing_rules::specs::Expressions::operand))]
fn suffix(alloc: Global, known: &Known, a: Operand, e: &Suffix) -> Result<Operand, TypeFault>
    requires known { IsSmall (environment known.now) }
    requires small { IsSmallOperand known.now.layouts a }
    ensures gives { (x : syntax.Expression) → spec.operand (environment known.now) x ≡ Ok a → Gives (spec.operand (environment known.now) (trees.suffix e.now x)) result }
    ensures small { IfOk result (λ a. IsSmallOperand known.now.layouts a) }
{
    match e {
        Suffix::Index(opening, index, _) => {
            let first = a.first;
            let base = based(alloc, known, a)?;
            let b = assign(alloc, known, index.get())?;
            let v = valued(alloc, known, b)?;
            element(alloc, known, opening, first, base, v)
        }
        Suffix::Member(operator, name) => member(alloc, known, operator, name, a),
        Suffix::Arrow(operator, name) => {
            let v = valued(alloc, known, a)?;
            member_behind(alloc, known, operator, name, v)
        }
        Suffix::Increment(operator) => {
            let first = a.first;
            let at = operator.token.place;
            stepped_by(alloc, known, at, first, IntOp::Add, a, Answer::Before)
        }
        Suffix::Decrement(operator) => {
            let first = a.first;
            let at = operator.token.place;
            stepped_by(alloc, known, at, first, IntOp::Sub, a, Answer::Before)
        }
    }
}

/// A name, a constant, a call, or an expression in parentheses.
#[cycle(expression)]
#[tactic(auto, using(crate::proofs::Alternatives::primaries), unfolding(typing_rules::specs::Expressions::operand))]
fn primary(alloc: Global, known: &Known, e: &Primary) -> Result<Operand, TypeFault>
    requires { IsSmall (environment known.now) }
    ensures gives { Gives (spec.operand (environment known.now) (trees.primary e.now)) result }
    ensures small { IfOk result (λ a. IsSmallOperand known.now.layouts a) }
{
    match e {
        Primary::Name(name) => named(alloc, known, name),
        Primary::Call(name, _, list, _) => match list {
            None => called_without(alloc, known, name),
            Some(list) => call(alloc, known, name, list.get()),
        },
        Primary::Number(token) => number(alloc, known, token),
        Primary::Character(token) => character(alloc, known, token),
        Primary::Paren(opening, inside, _) => {
            let a = assign(alloc, known, inside.get())?;
            Ok(parenthesised(opening.token.place, a))
        }
    }
}

/// A call with arguments (C11 6.5.2.2).
#[cycle(expression)]
#[tactic(auto, unfolding(typing_rules::specs::Expressions::operand))]
fn call(
    alloc: Global,
    known: &Known,
    name: &Leaf,
    list: &Chain<Assign>,
) -> Result<Operand, TypeFault>
    requires { IsSmall (environment known.now) }
    ensures { Gives (spec.operand (environment known.now) (syntax.Call name.now (arguments_of list.now))) result }
{
    match known.entry(name)? {
        Found::Variable(_, _) => {
            let _arguments = arguments(alloc, known, list, &[])?;
            Err(TypeFault::Mismatch(name.token.place))
        }
        Found::Function(number, ctype, parameters) => match number {
            2 => malloc_call(alloc, known, name, list),
            3 => free_call(alloc, known, name, list),
            _ => {
                let made = arguments(alloc, known, list, parameters)?;
                called(alloc, known, name, number, ctype, parameters, made)
            }
        },
    }
}

/// The values of the arguments, brought to the types of these parameters.
#[cycle(expression)]
fn arguments(
    alloc: Global,
    known: &Known,
    list: &Chain<Assign>,
    parameters: &[Declared],
) -> Result<ExprsPart, TypeFault>
    requires { IsSmall (environment known.now) }
    ensures { Gives (spec.arguments (environment known.now) (arguments_of list.now) (map (λ d. d.ctype) parameters.now)) result }
{
    let a = assign(alloc, known, &list.first)?;
    let x = argument(alloc, known, parameters, a)?;
    let mut made = ExprsPart::new(alloc);
    made.push(x)?;
    let mut left = after_first(known, parameters);
    for link in list.rest.as_slice() {
        let a = assign(alloc, known, &link.operand)?;
        let x = argument(alloc, known, left, a)?;
        made.push(x)?;
        left = after_first(known, left);
    }
    Ok(made)
}

/// A call of `malloc` with arguments (C11 7.22.3.4).
#[cycle(expression)]
fn malloc_call(
    alloc: Global,
    known: &Known,
    name: &Leaf,
    list: &Chain<Assign>,
) -> Result<Operand, TypeFault>
    requires { IsSmall (environment known.now) }
    ensures { Gives (malloc_of (environment known.now) name.now (arguments_of list.now)) result }
{
    if !list.rest.is_empty() {
        let _arguments = arguments(alloc, known, list, &[])?;
        return Err(TypeFault::ArgumentCount(name.token.place));
    }
    match requested(alloc, known, &list.first)? {
        Some(q) => allocated_in(alloc, known, name, q),
        None => {
            let a = assign(alloc, known, &list.first)?;
            let _v = valued(alloc, known, a)?;
            Err(TypeFault::Mismatch(name.token.place))
        }
    }
}

/// A call of `free` with arguments (C11 7.22.3.3).
#[cycle(expression)]
fn free_call(
    alloc: Global,
    known: &Known,
    name: &Leaf,
    list: &Chain<Assign>,
) -> Result<Operand, TypeFault>
    requires { IsSmall (environment known.now) }
    ensures { Gives (free_of (environment known.now) name.now (arguments_of list.now)) result }
{
    if !list.rest.is_empty() {
        let _arguments = arguments(alloc, known, list, &[])?;
        return Err(TypeFault::ArgumentCount(name.token.place));
    }
    let a = assign(alloc, known, &list.first)?;
    let v = valued(alloc, known, a)?;
    freed(alloc, name.token.place, v)
}

/// What `malloc` is asked for, where the argument has that form: what stands in it is made here alone.
#[cycle(expression)]
fn requested(alloc: Global, known: &Known, e: &Assign) -> Result<Option<Request>, TypeFault>
    requires { IsSmall (environment known.now) }
    ensures { Gives (asked (spec.requested (environment known.now) (trees.assign e.now))) (asked_result result) }
{
    match bare_form(e) {
        Bare::Sized(m) => {
            let ctype = measured(alloc, known, e, m)?;
            let q = one_object(alloc, ctype)?;
            Ok(Some(q))
        }
        Bare::Product(p) => product_requested(alloc, known, e, p),
        Bare::Other => Ok(None),
        // No text makes such a tree.
        Bare::Unlevelled => Err(TypeFault::Memory),
    }
}

/// What `malloc` is asked for by a product in its argument whose last operator is `*`.
#[cycle(expression)]
fn product_requested(
    alloc: Global,
    known: &Known,
    argument: &Assign,
    e: &Product,
) -> Result<Option<Request>, TypeFault>
    requires known { IsSmall (environment known.now) }
    requires star { EndsInStar e.now }
    requires within { size-Product e.now < size-Assign argument.now }
    ensures { Gives (asked (spec.requested (environment known.now) (trees.product e.now))) (asked_result result) }
{
    match factors_of(e) {
        Factors::Last(star, m) => {
            let links = e.0.rest.as_slice();
            let a = operands(alloc, known, e, links.len().saturating_sub(1))?;
            let v = valued(alloc, known, a)?;
            let ctype = measured(alloc, known, argument, m)?;
            let q = objects(alloc, star.token.place, v, ctype)?;
            Ok(Some(q))
        }
        Factors::First(m, star, x) => {
            let ctype = measured(alloc, known, argument, m)?;
            let a = unary(alloc, known, x)?;
            let v = valued(alloc, known, a)?;
            let q = objects(alloc, star.token.place, v, ctype)?;
            Ok(Some(q))
        }
        Factors::Neither => Ok(None),
    }
}

/// The type that a `sizeof` in the argument of `malloc` names (C11 6.5.3.4).
#[cycle(expression)]
fn measured(
    alloc: Global,
    known: &Known,
    _argument: &Assign,
    m: Measured<'_>,
) -> Result<TypePart, TypeFault>
    requires known { IsSmall (environment known.now) }
    requires within { measured_size m < size-Assign _argument.now }
    ensures { Gives (measure (environment known.now) m.entry) result }
{
    match m {
        Measured::Operand(x) => {
            let a = unary(alloc, known, x)?;
            Ok(type_of(a))
        }
        Measured::Named(name) => known.spelled_type(alloc, name),
    }
}
