ghost use Rattle.std.specs.Prelude.{◌≡◌, ◌<◌, ◌≤ℤ◌, ◌^◌, pos, neg_ℤ};
ghost use Rattle.step_meaning.specs.Names.{moved, distance, in_units, same_kind as are_same_kind, same_name as are_same_name, IsNoInteger};

use crate::value::{Name, NameKind, RunFault, Value};

/// A pointer moved by a number of cells. `room` is the number of cells of the variable that it names, and `None` where it isn't live (C11 6.5.6).
pub fn pointer_add(p: Value, room: Option<u32>, by: i128) -> Result<Value, RunFault>
    requires pointer { IsNoInteger p }
    requires low { neg_ℤ (pos (2 ^ 100)) ≤ℤ by }
    requires high { by ≤ℤ pos (2 ^ 100) }
    ensures { result ≡ moved p room by }
{
    match p {
        Value::Int(_) => Err(RunFault::Pointer),
        Value::Null => {
            if by == 0 {
                Ok(Value::Null)
            } else {
                Err(RunFault::Pointer)
            }
        }
        Value::Pointer(name, offset) => match room {
            None => Err(RunFault::Invalid),
            Some(cells) => {
                let to = i128::from(offset) + by;
                if to < 0 || to > i128::from(cells) {
                    Err(RunFault::Pointer)
                } else {
                    Ok(Value::Pointer(name, to as u32))
                }
            }
        },
    }
}

/// Whether two variables are of one kind.
fn same_kind(a: NameKind, b: NameKind) -> bool
    ensures { result ≡ are_same_kind a b }
{
    match a {
        NameKind::Global => matches!(b, NameKind::Global),
        NameKind::Local => matches!(b, NameKind::Local),
        NameKind::Heap => matches!(b, NameKind::Heap),
        NameKind::Register => matches!(b, NameKind::Register),
        NameKind::GhostGlobal => matches!(b, NameKind::GhostGlobal),
        NameKind::GhostLocal => matches!(b, NameKind::GhostLocal),
    }
}

/// Whether two names are one.
fn same_name(a: Name, b: Name) -> bool
    ensures { result ≡ are_same_name a b }
{
    same_kind(a.kind, b.kind) && a.activation == b.activation && a.index == b.index
}

/// A difference in cells as a number of elements.
fn elements(cells: i128, unit: u32) -> Result<i128, RunFault>
    requires low { neg_ℤ (pos (2 ^ 32)) ≤ℤ cells }
    requires high { cells ≤ℤ pos (2 ^ 32) }
    requires unit { 0 < unit }
    ensures { result ≡ in_units cells unit }
{
    let size = i128::from(unit);
    if cells % size == 0 {
        Ok(cells / size)
    } else {
        Err(RunFault::Pointer)
    }
}

/// The difference of two pointers in elements of `unit` cells (C11 6.5.6).
pub fn pointer_diff(p: Value, q: Value, unit: u32) -> Result<i128, RunFault>
    requires first { IsNoInteger p }
    requires second { IsNoInteger q }
    requires unit { 0 < unit }
    ensures { result ≡ distance p q unit }
{
    match p {
        Value::Int(_) => Err(RunFault::Pointer),
        Value::Null => match q {
            Value::Null => Ok(0),
            Value::Int(_) | Value::Pointer(_, _) => Err(RunFault::Pointer),
        },
        Value::Pointer(name, offset) => match q {
            Value::Pointer(other, start) => {
                if same_name(name, other) {
                    elements(i128::from(offset) - i128::from(start), unit)
                } else {
                    Err(RunFault::Pointer)
                }
            }
            Value::Int(_) | Value::Null => Err(RunFault::Pointer),
        },
    }
}
