//! The ghost variables of a program before its first step (ACSL, ghost variables).

ghost use Rattle.std.specs.Prelude.{◌≡◌, ◌≤◌, ◌++◌, [], ◌∷◌, IfOk, OnOk, map};
ghost use Rattle.std.specs.List.{AllByRecursion};
ghost use Rattle.step_meaning.specs.Runs.{ghost_start as ghost_starts, start_ghosts};
ghost use Rattle.run_memory.specs.Storage.{IsBlockSized, variables_chunks};

use crate::store::Store;
use sqlite_items::Items;
use std::alloc::{AllocError, Global};
use step_meaning::{CType, Core, Declared, Value};

/// What a ghost variable of the type starts with: 0 or null.
fn ghost_start(ctype: &CType) -> Value
    ensures { result ≡ ghost_starts ctype.now }
{
    match ctype {
        CType::Int(_) => Value::Int(0),
        CType::Void | CType::Pointer(_) | CType::Array(_, _) | CType::Struct(_) => Value::Null,
    }
}

/// The first value of a ghost variable.
fn first_values(alloc: Global, ctype: &CType) -> Result<Items<Value>, AllocError>
    ensures { IfOk result (λ vs. vs ≡ ghost_starts ctype.now ∷ []) }
{
    let mut values = Items::new(alloc);
    values.push(ghost_start(ctype))?;
    Ok(values)
}

fn push_values(all: &mut Items<Items<Value>>, next: Items<Value>) -> Result<(), AllocError>
    ensures { OnOk result (all.new ≡ all.old ++ next ∷ []) }
{
    all.push(next)?;
    Ok(())
}

/// Those of all ghost variables.
fn all_first_values(
    alloc: Global,
    variables: &[Declared],
) -> Result<Items<Items<Value>>, AllocError>
    ensures { IfOk result (λ vss. vss ≡ map (λ d. ghost_starts d.ctype ∷ []) variables.now) }
{
    let mut all = Items::new(alloc);
    for variable in variables {
        let next = first_values(alloc, &variable.ctype)?;
        push_values(&mut all, next)?;
    }
    Ok(all)
}

impl<'a> Store<'a> {
    /// The ghost variables of a program before its first step, with so many chunks and room for so many open activations. No other call takes memory.
    pub fn make_ghosts(
        alloc: Global,
        core: &'a Core,
        chunks: u32,
        calls: u32,
    ) -> Result<Store<'a>, AllocError>
        requires chunks { (1 ≤ chunks) × (chunks ≤ 1048576) }
        requires sized { AllByRecursion (λ d. IsBlockSized core.now.layouts d.ctype) core.now.ghosts }
        requires room { variables_chunks core.now.layouts core.now.ghosts ≤ chunks }
        ensures { IfOk result (λ s. s ≡ record { memory = start_ghosts core.now; chunk_limit = chunks; call_limit = calls }) }
    {
        let variables = core.ghosts.as_slice();
        let values = all_first_values(alloc, variables)?;
        Store::build(
            alloc,
            core.layouts.as_slice(),
            variables,
            values.as_slice(),
            chunks,
            calls,
        )
    }
}
