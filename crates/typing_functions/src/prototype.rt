//! Functions of the core, with and without bodies.

ghost use Rattle.std.specs.Prelude.{◌≡◌, [], ◌∷◌, ◌++◌, map, Ok};
ghost use Rattle.typing_rules.specs.Checked.{Gives};
ghost use Rattle.typing_rules.specs.Functions as rules;
ghost use Rattle.typing_files.specs.Points.{Becomes};
ghost use Rattle.typing_functions.specs.Functions as functions;

use sqlite_items::Items;
use std::alloc::Global;
use step_meaning::{CType, Declared, Function, StmtsPart};
use typing_operands::part::copied;
use typing_rules::fault::TypeFault;
use typing_scopes::declaring::{declared, text_of};

/// A parameter of a function without body, which has no name.
fn without_name(alloc: Global, parameter: &Declared) -> Result<Declared, TypeFault>
    ensures { Gives (Ok (rules.without_name parameter.now)) result }
{
    let t = copied(alloc, &parameter.ctype)?;
    declared(alloc, &[], t)
}

fn push_declared(all: &mut Items<Declared>, next: Declared) -> Result<(), TypeFault>
    ensures { Becomes (Ok (all.old ++ next ∷ [])) result all.new }
{
    all.push(next)?;
    Ok(())
}

/// The parameters of a function without body.
fn without_names(alloc: Global, parameters: &[Declared]) -> Result<Items<Declared>, TypeFault>
    ensures { Gives (Ok (map rules.without_name parameters.now)) result }
{
    let mut all = Items::new(alloc);
    for parameter in parameters {
        let next = without_name(alloc, parameter)?;
        push_declared(&mut all, next)?;
    }
    Ok(all)
}

/// A number that a core holds. For more than 32 bits there is no memory.
pub fn counted(count: usize) -> Result<u32, TypeFault>
    ensures { Gives (Ok count) result }
{
    match u32::try_from(count) {
        Ok(count) => Ok(count),
        Err(_) => Err(TypeFault::Memory),
    }
}

/// A function without body.
pub fn prototype(
    alloc: Global,
    name: &[u8],
    returns: &CType,
    parameters: &[Declared],
) -> Result<Function, TypeFault>
    ensures { Gives (Ok (rules.prototype name.now returns.now parameters.now)) result }
{
    let params = counted(parameters.len())?;
    let locals = without_names(alloc, parameters)?;
    let name = text_of(alloc, name)?;
    let returns = copied(alloc, returns)?;
    Ok(Function {
        name,
        result: returns.into_boxed().into_inner(),
        params,
        locals,
        registers: Items::new(alloc),
        ghosts: Items::new(alloc),
        body: None,
    })
}

/// A function with these statements, of whose locals so many are parameters.
pub fn defined_function(
    alloc: Global,
    name: &[u8],
    returns: &CType,
    params: usize,
    locals: Items<Declared>,
    statements: StmtsPart,
) -> Result<Function, TypeFault>
    ensures { Gives (Ok (functions.with_statements name.now returns.now params locals statements)) result }
{
    let params = counted(params)?;
    let name = text_of(alloc, name)?;
    let returns = copied(alloc, returns)?;
    Ok(Function {
        name,
        result: returns.into_boxed().into_inner(),
        params,
        locals,
        registers: Items::new(alloc),
        ghosts: Items::new(alloc),
        body: Some(statements.into_items()),
    })
}
