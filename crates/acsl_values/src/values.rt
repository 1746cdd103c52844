ghost use Rattle.std.specs.Prelude.{◌≡◌, option_and_then};
ghost use Rattle.step_meaning.specs.Terms.{scalar_value, term_value};
ghost use Rattle.acsl_values.specs.Seen.{meant, meant_if_any, value_in};

use step_meaning::{Cell, Name, Value};

/// The value of a term (ACSL, terms).
#[derive(Clone, Copy)]
pub enum TermValue {
    /// An integer.
    Number(i128),
    /// The null pointer.
    Null,
    /// A pointer into a variable or heap block, at an offset in cells that may leave it.
    Pointer(Name, i128),
}

/// The memory that a term reads.
#[derive(Clone, Copy)]
pub enum Moment {
    /// That of the step.
    Now,
    /// That of the Enter step of the step's activation, as in `\at(.., Pre)`.
    Enter,
}

/// A value of a cell as one of a term.
pub(crate) fn held(value: Value) -> TermValue
    ensures { meant result ≡ term_value value }
{
    match value {
        Value::Int(z) => TermValue::Number(z),
        Value::Null => TermValue::Null,
        Value::Pointer(name, offset) => TermValue::Pointer(name, i128::from(offset)),
    }
}

/// The value in a cell, if it holds one.
pub(crate) fn held_in(cell: Cell) -> Option<TermValue>
    ensures { meant_if_any result ≡ value_in cell }
{
    match cell {
        Cell::Nothing => None,
        Cell::Holds(value) => Some(held(value)),
    }
}

/// A term's value as one of a cell, whose offset has 32 bits.
#[tactic(auto, using(crate::proofs::CellLaws::scalar_inside, crate::proofs::CellLaws::scalar_below, crate::proofs::CellLaws::scalar_beyond))]
fn scalar(value: TermValue) -> Option<Value>
    ensures { result ≡ scalar_value (meant value) }
{
    match value {
        TermValue::Number(z) => Some(Value::Int(z)),
        TermValue::Null => Some(Value::Null),
        TermValue::Pointer(name, offset) => {
            if 0 <= offset && offset < 1 << 32 {
                Some(Value::Pointer(name, offset as u32))
            } else {
                None
            }
        }
    }
}

/// A term's value as one of a cell, where there is one.
pub(crate) fn scalar_if_any(value: Option<TermValue>) -> Option<Value>
    ensures { result ≡ option_and_then scalar_value (meant_if_any value) }
{
    match value {
        None => None,
        Some(value) => scalar(value),
    }
}
