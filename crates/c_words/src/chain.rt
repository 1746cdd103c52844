//! Operands with operators between them.

ghost use Rattle.std.specs.Prelude.{◌≡◌, [], ◌∷◌, ◌++◌, OnOk};

use crate::word::Leaf;
use sqlite_items::Items;
use std::alloc::AllocError;

/// An operator, or the comma of a list, and the operand after it.
#[derive(Drop)]
pub struct Link<T> {
    pub operator: Leaf,
    pub operand: T,
}

/// A first operand, and more of them after operators, read from the left.
#[derive(Drop)]
pub struct Chain<T> {
    pub first: T,
    pub rest: Items<Link<T>>,
}

/// Puts the item after those of the list.
pub fn push<T: Drop>(list: &mut Vec<T>, item: T) -> Result<(), AllocError>
    ensures { OnOk result (list.new.items ≡ list.old.items ++ item ∷ []) }
{
    list.push(item)?;
    Ok(())
}
