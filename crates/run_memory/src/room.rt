//! Whether variables have room.

ghost use Rattle.std.specs.Prelude.{◌≡◌, ◌+◌, ◌<◌, ◌≤◌, ℕ, MatchOption, length, nat_le};
ghost use Rattle.std.specs.List.{AllByRecursion};
ghost use Rattle.step_meaning.specs.Limits.{chunks, chunks_for};
ghost use Rattle.step_meaning.specs.Types.{object_cells};
ghost use Rattle.run_memory.specs.Storage.{IsBlockSized, variables_chunks};

use crate::fill::cells_of;
use crate::store::Store;
use step_meaning::{CType, Declared, Layout};

/// The chunks of a variable of the type.
#[tactic(auto, using(crate::proofs::RoomLaws::chunks_once))]
fn chunks_of(layouts: &[Layout], ctype: &CType) -> u32
    requires some { 1 ≤ length (object_cells layouts.now ctype.now) }
    requires few { length (object_cells layouts.now ctype.now) ≤ 65536 }
    ensures { result ≡ chunks_for (length (object_cells layouts.now ctype.now)) }
{
    cells_of(layouts, ctype, 1).div_ceil(16)
}

/// The chunks that are left of so many when these variables have theirs, and none where they need more.
pub fn room_left(layouts: &[Layout], variables: &[Declared], room: u32) -> Option<u32>
    requires { AllByRecursion (λ d. IsBlockSized layouts.now d.ctype) variables.now }
    ensures { MatchOption result (room < variables_chunks layouts.now variables.now) (λ left. left + variables_chunks layouts.now variables.now ≡ room) }
{
    let mut left = room;
    for variable in variables {
        let wanted = chunks_of(layouts, &variable.ctype);
        if wanted > left {
            return None;
        }
        left -= wanted;
    }
    Some(left)
}

impl Store<'_> {
    /// Whether an activation with these variables has room.
    pub fn has_room(&self, layouts: &[Layout], variables: &[Declared]) -> bool
        requires { AllByRecursion (λ d. IsBlockSized layouts.now d.ctype) variables.now }
        ensures { result ≡ nat_le (chunks self.now.memory + variables_chunks layouts.now variables.now) self.now.chunk_limit }
    {
        let used = self.chunks();
        match self.chunk_limit().checked_sub(used) {
            None => false,
            Some(room) => room_left(layouts, variables, room).is_some(),
        }
    }

    /// How many chunks there are.
    pub fn chunk_limit(&self) -> u32
        ensures { result ≡ self.now.chunk_limit }
    {
        self.pool.chunks()
    }
}
