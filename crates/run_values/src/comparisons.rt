//! Comparisons (C11 6.5.8, 6.5.9).

ghost use Rattle.std.specs.Prelude.{◌≡◌};
ghost use Rattle.step_meaning.specs.Numbers.{compared_integers};
ghost use Rattle.step_meaning.specs.Names.{compared, same_kind as are_same_kind, same_name as are_same_name, unrelated as unrelated_values};

use step_meaning::{CompareOp, Name, NameKind, RunFault, Value};

/// Whether two names are of one kind.
fn same_kind(a: NameKind, b: NameKind) -> bool
    ensures { result ≡ are_same_kind a b }
{
    match a {
        NameKind::Global => matches!(b, NameKind::Global),
        NameKind::Local => matches!(b, NameKind::Local),
        NameKind::Heap => matches!(b, NameKind::Heap),
        NameKind::Register => matches!(b, NameKind::Register),
        NameKind::GhostGlobal => matches!(b, NameKind::GhostGlobal),
        NameKind::GhostLocal => matches!(b, NameKind::GhostLocal),
    }
}

/// Whether two names are one.
fn same_name(a: Name, b: Name) -> bool
    ensures { result ≡ are_same_name a b }
{
    same_kind(a.kind, b.kind) && a.activation == b.activation && a.index == b.index
}

/// A comparison of integers.
fn compare_integers(operator: CompareOp, a: i128, b: i128) -> bool
    ensures { result ≡ compared_integers operator a b }
{
    match operator {
        CompareOp::Equal => a <= b && b <= a,
        CompareOp::Unequal => !(a <= b && b <= a),
        CompareOp::Less => a < b,
        CompareOp::LessEqual => a <= b,
        CompareOp::Greater => b < a,
        CompareOp::GreaterEqual => b <= a,
    }
}

/// A comparison of two values that have no order.
fn unrelated(operator: CompareOp) -> Result<bool, RunFault>
    ensures { result ≡ unrelated_values operator }
{
    match operator {
        CompareOp::Equal => Ok(false),
        CompareOp::Unequal => Ok(true),
        CompareOp::Less | CompareOp::LessEqual | CompareOp::Greater | CompareOp::GreaterEqual =>
            Err(RunFault::Pointer),
    }
}

/// A comparison of two pointers.
fn compare_pointers(
    operator: CompareOp,
    a: Name,
    offset: u32,
    b: Name,
    other: u32,
) -> Result<bool, RunFault>
    ensures { result ≡ compared operator (Value.Pointer a offset) (Value.Pointer b other) }
{
    if same_name(a, b) {
        Ok(compare_integers(operator, i128::from(offset), i128::from(other)))
    } else {
        unrelated(operator)
    }
}

/// A comparison of two values.
pub fn compare(operator: CompareOp, v: Value, w: Value) -> Result<bool, RunFault>
    ensures { result ≡ compared operator v w }
{
    match v {
        Value::Int(a) => match w {
            Value::Int(b) => Ok(compare_integers(operator, a, b)),
            Value::Null => unrelated(operator),
            Value::Pointer(_, _) => unrelated(operator),
        },
        Value::Null => match w {
            Value::Null => Ok(compare_integers(operator, 0, 0)),
            Value::Int(_) => unrelated(operator),
            Value::Pointer(_, _) => unrelated(operator),
        },
        Value::Pointer(a, offset) => match w {
            Value::Pointer(b, other) => compare_pointers(operator, a, offset, b, other),
            Value::Int(_) => unrelated(operator),
            Value::Null => unrelated(operator),
        },
    }
}
