//! Values as conditions and as integers.

ghost use Rattle.std.specs.Prelude.{◌≡◌};
ghost use Rattle.step_meaning.specs.Names.{integer as integer_value, of_truth, truth as is_true};

use step_meaning::Value;

/// Whether a condition holds of a value (C11 6.8.4.1).
pub fn truth(v: Value) -> bool
    ensures { result ≡ is_true v }
{
    match v {
        Value::Int(n) => n != 0,
        Value::Null => false,
        Value::Pointer(_, _) => true,
    }
}

/// A truth value as an `int` (C11 6.5.3.3, 6.5.8).
pub fn truth_value(holds: bool) -> Value
    ensures { result ≡ of_truth holds }
{
    if holds { Value::Int(1) } else { Value::Int(0) }
}

/// The integer of a value that is one, and else 0.
pub fn integer(v: Value) -> i128
    ensures { result ≡ integer_value v }
{
    match v {
        Value::Int(n) => n,
        Value::Null | Value::Pointer(_, _) => 0,
    }
}
