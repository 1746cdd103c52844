//! The rules on operands and values, where what is known is small. None of them looks at a tree.

ghost use Rattle.std.specs.Prelude.{◌≡◌, IfOk};
ghost use Rattle.typing_laws.specs.SmallTypes.{IsSmall, IsSmallOperand, IsSmallValue};
ghost use Rattle.typing_steps.specs.Steps.{prefixed_by};
ghost use Rattle.typing_rules.specs.Assignments as assignments;
ghost use Rattle.typing_rules.specs.Chains as chains;
ghost use Rattle.typing_rules.specs.Checked.{Gives};
ghost use Rattle.typing_rules.specs.Environment.{place_of};
ghost use Rattle.typing_rules.specs.Expressions as rules;
ghost use Rattle.typing_rules.specs.Judgements.{compound_of as compound_operator};
ghost use Rattle.typing_rules.specs.Operands as operands;
ghost use Rattle.typing_rules.specs.Operators as operators;
ghost use Rattle.typing_scopes.specs.Known.{known as environment};

use c_lexer::Place;
use c_words::word::{Leaf, Word};
use std::alloc::Global;
use step_meaning::{Answer, ExprPart, IntOp, UnaryOp};
use typing_objects::assignment::{assigned, compound, stepped};
use typing_operands::binary::{choice_of, combined};
use typing_operands::unary::{address, cast, dereferenced, negation, plus, promoting};
use typing_operands::value::value;
use typing_rules::fault::TypeFault;
use typing_rules::operand::{Operand, TypePart, Value};
use typing_rules::spelling::{compound_of, operator_of};
use typing_scopes::known::Known;

/// The operand as a value (C11 6.3.2.1).
pub fn valued(alloc: Global, known: &Known, a: Operand) -> Result<Value, TypeFault>
    requires { IsSmallOperand known.now.layouts a }
    ensures gives { Gives (operands.value a) result }
    ensures small { IfOk result (λ v. IsSmallValue known.now.layouts v) }
{
    value(alloc, a)
}

/// The value of a link's operand, by the link's operator with the value before it.
#[tactic(auto, unfolding(typing_rules::specs::Chains::joined))]
pub fn joined(
    alloc: Global,
    known: &Known,
    operator: &Leaf,
    left: Value,
    right: Operand,
) -> Result<Operand, TypeFault>
    requires known { IsSmall (environment known.now) }
    requires left { IsSmallValue known.now.layouts left }
    requires right { IsSmallOperand known.now.layouts right }
    ensures gives { Gives (chains.joined (environment known.now) operator.now left right) result }
    ensures small { IfOk result (λ a. IsSmallOperand known.now.layouts a) }
{
    let right = valued(alloc, known, right)?;
    let layouts = known.layouts.as_slice();
    combined(
        alloc,
        layouts,
        operator.token.place,
        operator_of(operator.word),
        left,
        right,
    )
}

/// `? :`, whose condition begins at `first` (C11 6.5.15).
pub fn chosen(
    alloc: Global,
    known: &Known,
    question: &Leaf,
    first: Place,
    test: ExprPart,
    second: Value,
    third: Value,
) -> Result<Operand, TypeFault>
    requires second { IsSmallValue known.now.layouts second }
    requires third { IsSmallValue known.now.layouts third }
    ensures gives { Gives (operators.choice_of (place_of question.now) first test second third) result }
    ensures small { IfOk result (λ a. IsSmallOperand known.now.layouts a) }
{
    choice_of(alloc, question.token.place, first, test, second, third)
}

/// A cast to the type, with its `(` (C11 6.5.4).
pub fn cast_to(
    alloc: Global,
    known: &Known,
    opening: &Leaf,
    ctype: TypePart,
    v: Value,
) -> Result<Operand, TypeFault>
    requires { IsSmallValue known.now.layouts v }
    ensures gives { Gives (operators.cast (place_of opening.now) ctype v) result }
    ensures small { IfOk result (λ a. IsSmallOperand known.now.layouts a) }
{
    cast(alloc, opening.token.place, ctype.get(), v)
}

/// `++` and `--`, at `at`, whose expression begins at `first` (C11 6.5.2.4, 6.5.3.1).
pub fn stepped_by(
    alloc: Global,
    known: &Known,
    at: Place,
    first: Place,
    op: IntOp,
    a: Operand,
    answer: Answer,
) -> Result<Operand, TypeFault>
    requires known { IsSmall (environment known.now) }
    requires small { IsSmallOperand known.now.layouts a }
    ensures gives { Gives (assignments.stepped known.now.layouts at first op a answer) result }
    ensures small { IfOk result (λ a. IsSmallOperand known.now.layouts a) }
{
    let layouts = known.layouts.as_slice();
    stepped(alloc, layouts, at, first, op, a, answer)
}

/// `*`, `+`, `-`, `~` or `!` before a value, at this place (C11 6.5.3.2, 6.5.3.3).
fn prefixed_value(
    alloc: Global,
    _known: &Known,
    operator: &Leaf,
    v: Value,
) -> Result<Operand, TypeFault>
    requires { IsSmallValue _known.now.layouts v }
    ensures gives { Gives (prefixed_by operator.now operator.now.word v) result }
    ensures small { IfOk result (λ a. IsSmallOperand _known.now.layouts a) }
{
    let at = operator.token.place;
    match operator.word {
        Word::Star => dereferenced(alloc, at, v),
        Word::Plus => plus(alloc, at, v),
        Word::Minus => promoting(alloc, at, UnaryOp::Neg, v),
        Word::Tilde => promoting(alloc, at, UnaryOp::Invert, v),
        _ => negation(alloc, at, v),
    }
}

/// A prefix operator, and its operand (C11 6.5.3).
pub fn prefixed(
    alloc: Global,
    known: &Known,
    operator: &Leaf,
    a: Operand,
) -> Result<Operand, TypeFault>
    requires known { IsSmall (environment known.now) }
    requires small { IsSmallOperand known.now.layouts a }
    ensures gives { Gives (rules.prefixed (environment known.now) operator.now operator.now.word a) result }
    ensures small { IfOk result (λ a. IsSmallOperand known.now.layouts a) }
{
    let at = operator.token.place;
    match operator.word {
        Word::Increment => stepped_by(alloc, known, at, at, IntOp::Add, a, Answer::After),
        Word::Decrement => stepped_by(alloc, known, at, at, IntOp::Sub, a, Answer::After),
        Word::Ampersand => address(alloc, at, a),
        _ => {
            let v = valued(alloc, known, a)?;
            prefixed_value(alloc, known, operator, v)
        }
    }
}

/// `=`, or a compound assignment (C11 6.5.16).
pub fn assigned_by(
    alloc: Global,
    known: &Known,
    operator: &Leaf,
    a: Operand,
    v: Value,
) -> Result<Operand, TypeFault>
    requires known { IsSmall (environment known.now) }
    requires small { IsSmallOperand known.now.layouts a }
    ensures gives { Gives (rules.assigned_by (environment known.now) operator.now (compound_operator operator.now.word) a v) result }
    ensures small { IfOk result (λ a. IsSmallOperand known.now.layouts a) }
{
    let at = operator.token.place;
    match compound_of(operator.word) {
        None => assigned(alloc, at, a, v),
        Some(op) => {
            let layouts = known.layouts.as_slice();
            compound(alloc, layouts, at, op, a, v)
        }
    }
}
