ghost use Rattle.std.specs.Prelude.{◌≡◌};
ghost use Rattle.step_meaning.specs.Numbers.{compared_integers};
ghost use Rattle.step_meaning.specs.Names.{same_kind as are_same_kind, same_name as are_same_name};
ghost use Rattle.step_meaning.specs.Predicates.{is_unequal as is_inequality, related_values, related as are_related};
ghost use Rattle.acsl_values.specs.Seen.{meant, meant_if_any};

use acsl_values::TermValue;
use step_meaning::{CompareOp, Name, NameKind};

/// Whether the operator is `!=`.
fn is_unequal(op: CompareOp) -> bool
    ensures { result ≡ is_inequality op }
{
    matches!(op, CompareOp::Unequal)
}

/// A relation between two integers.
fn compared(op: CompareOp, a: i128, b: i128) -> bool
    ensures { result ≡ compared_integers op a b }
{
    match op {
        CompareOp::Equal => a <= b && b <= a,
        CompareOp::Unequal => !(a <= b && b <= a),
        CompareOp::Less => a < b,
        CompareOp::LessEqual => a <= b,
        CompareOp::Greater => b < a,
        CompareOp::GreaterEqual => b <= a,
    }
}

/// Whether both are of one kind.
fn same_kind(a: NameKind, b: NameKind) -> bool
    ensures { result ≡ are_same_kind a b }
{
    match a {
        NameKind::Global => matches!(b, NameKind::Global),
        NameKind::Local => matches!(b, NameKind::Local),
        NameKind::Heap => matches!(b, NameKind::Heap),
        NameKind::Register => matches!(b, NameKind::Register),
        NameKind::GhostGlobal => matches!(b, NameKind::GhostGlobal),
        NameKind::GhostLocal => matches!(b, NameKind::GhostLocal),
    }
}

/// Whether two names are one.
pub(crate) fn same_name(a: Name, b: Name) -> bool
    ensures { result ≡ are_same_name a b }
{
    same_kind(a.kind, b.kind) && a.activation == b.activation && a.index == b.index
}

/// A relation between two pointers, neither of which is null.
fn related_pointers(op: CompareOp, n: Name, a: i128, m: Name, b: i128) -> bool
    ensures { result ≡ related_values op (meant (TermValue.Pointer n a)) (meant (TermValue.Pointer m b)) }
{
    if same_name(n, m) {
        compared(op, a, b)
    } else {
        is_unequal(op)
    }
}

/// A relation between two values.
fn related_two(op: CompareOp, a: TermValue, b: TermValue) -> bool
    ensures { result ≡ related_values op (meant a) (meant b) }
{
    match (a, b) {
        (TermValue::Number(a), TermValue::Number(b)) => compared(op, a, b),
        (TermValue::Null, TermValue::Null) => compared(op, 0, 0),
        (TermValue::Pointer(n, a), TermValue::Pointer(m, b)) => related_pointers(op, n, a, m, b),
        _ => is_unequal(op),
    }
}

/// A relation between the values of two terms; false where one is undefined.
pub(crate) fn related(op: CompareOp, a: Option<TermValue>, b: Option<TermValue>) -> bool
    ensures { result ≡ are_related op (meant_if_any a) (meant_if_any b) }
{
    match (a, b) {
        (Some(a), Some(b)) => related_two(op, a, b),
        _ => false,
    }
}
