//! Cells that are filled up (C11 6.7.9, 19 and 21).

ghost use Rattle.std.specs.Prelude.{◌≡◌, [], ◌∷◌, ◌<◌, map, flat_map, take, length, Ok};
ghost use Rattle.step_meaning.specs.Types.{object_cells, times};
ghost use Rattle.step_meaning.specs.declared.value.CType.TheVariants.{Struct};
ghost use Rattle.typing_declarators.specs.Adding.{Adds};

use crate::filling::Filling;
use c_words::chain::push;
use std::alloc::Global;
use step_meaning::{CType, Declared, Layout};
use typing_rules::fault::TypeFault;

/// One cell more.
pub fn push_cell<T: Drop>(cells: &mut Vec<T>, cell: T) -> Result<(), TypeFault>
    ensures { Adds (Ok (cell ∷ [])) cells.old.items cells.new.items result }
{
    push(cells, cell)?;
    Ok(())
}

/// One cell more, of this type, that is filled up.
fn push_filled<T: Drop, K: Filling<T>>(
    alloc: Global,
    kind: &K,
    cells: &mut Vec<T>,
    t: &CType,
) -> Result<(), TypeFault>
    ensures { Adds (Ok (K.filled kind.now t.now ∷ [])) cells.old.items cells.new.items result }
{
    let cell = kind.fill(alloc, t)?;
    push_cell(cells, cell)
}

/// The cells of an object of the type, all filled up.
#[cycle(zeros)]
#[tactic(auto, using(core_types::proofs::SizeLaws::array_depth))]
pub fn push_zeros<T: Drop, K: Filling<T>>(
    alloc: Global,
    layouts: &[Layout],
    kind: &K,
    cells: &mut Vec<T>,
    t: &CType,
) -> Result<(), TypeFault>
    ensures { Adds (Ok (map (K.filled kind.now) (object_cells layouts.now t.now))) cells.old.items cells.new.items result }
{
    match t {
        CType::Void => Ok(()),
        CType::Int(_) | CType::Pointer(_) => push_filled(alloc, kind, cells, t),
        CType::Array(of, count) => {
            push_elements(alloc, layouts, kind, cells, of.get(), *count as usize)
        }
        CType::Struct(number) => push_struct(alloc, layouts, kind, cells, *number as usize),
    }
}

/// The cells of so many elements of the type, all filled up.
#[cycle(zeros)]
pub fn push_elements<T: Drop, K: Filling<T>>(
    alloc: Global,
    layouts: &[Layout],
    kind: &K,
    cells: &mut Vec<T>,
    of: &CType,
    count: usize,
) -> Result<(), TypeFault>
    ensures { Adds (Ok (map (K.filled kind.now) (times count (object_cells layouts.now of.now)))) cells.old.items cells.new.items result }
{
    for _ in 0..count {
        push_zeros(alloc, layouts, kind, cells, of)?;
    }
    Ok(())
}

/// The cells of the struct with this number, all filled up. Its members have the structs before it.
#[cycle(zeros)]
#[tactic(auto, using(core_types::proofs::SizeLaws::part_of_bulk))]
fn push_struct<T: Drop, K: Filling<T>>(
    alloc: Global,
    layouts: &[Layout],
    kind: &K,
    cells: &mut Vec<T>,
    number: usize,
) -> Result<(), TypeFault>
    ensures { Adds (Ok (map (K.filled kind.now) (object_cells layouts.now (Struct number)))) cells.old.items cells.new.items result }
{
    if number < layouts.len() {
        push_members(
            alloc,
            &layouts[..number],
            kind,
            cells,
            layouts[number].members.as_slice(),
        )
    } else {
        Ok(())
    }
}

/// The cells of members, all filled up, with the structs before theirs.
#[cycle(zeros)]
#[tactic(auto, using(crate::proofs::Filled::member_depth))]
pub fn push_members<T: Drop, K: Filling<T>>(
    alloc: Global,
    before: &[Layout],
    kind: &K,
    cells: &mut Vec<T>,
    members: &[Declared],
) -> Result<(), TypeFault>
    ensures { Adds (Ok (map (K.filled kind.now) (flat_map (λ d. object_cells before.now d.ctype) members.now))) cells.old.items cells.new.items result }
{
    for index in 0..members.len() {
        push_zeros(alloc, before, kind, cells, &members[index].ctype)?;
    }
    Ok(())
}
