//! Cells of several objects, counted down from what there is room for.

ghost use Rattle.std.specs.Prelude.{◌≡◌, ◌-◌, sum_by};
ghost use Rattle.step_meaning.specs.TypeRules.{cells as cells_of};

use core_types::cells;
use step_meaning::{CType, Declared, Layout};

/// The room that is left beside an object of the type, in cells.
fn beside(layouts: &[Layout], t: &CType, room: u64) -> u64
    ensures { result ≡ room - cells_of layouts.now t.now }
{
    match cells(layouts, t) {
        Some(count) if count < u128::from(room) => room - count as u64,
        Some(_) => 0,
        None => 0,
    }
}

/// The room that is left beside objects of these types, in cells.
#[tactic(auto, using(crate::proofs::CellSums::declared_first), unfolding(crate::specs::CellSums::declared_cells))]
pub fn room_beside(layouts: &[Layout], all: &[Declared], room: u64) -> u64
    ensures { result ≡ room - sum_by (λ d. cells_of layouts.now d.ctype) all.now }
{
    let mut left = room;
    for next in all {
        left = beside(layouts, &next.ctype, left);
    }
    left
}
