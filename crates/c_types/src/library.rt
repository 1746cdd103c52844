//! The functions of the library, which each text knows (C11 7.21.7.6, 7.21.7.8, 7.22.3.3, 7.22.3.4).

ghost use Rattle.std.specs.Prelude.{◌≡◌, [], ◌∷◌, Ok, None, OnOk, codes};
ghost use Rattle.step_meaning.specs.Library as core;
ghost use Rattle.typing_rules.specs.Checked.{Gives};
ghost use Rattle.typing_rules.specs.Functions.{function_number};
ghost use Rattle.typing_rules.specs.Programs.{library, nameless};
ghost use Rattle.typing_scopes.specs.Known.{state, program};
ghost use Rattle.c_types.specs.Starts as starts;

use sqlite_items::Items;
use std::alloc::Global;
use step_meaning::{CType, Declared, Function, IntKind};
use typing_operands::part::{pointer, type_part};
use typing_rules::fault::TypeFault;
use typing_rules::operand::TypePart;
use typing_scopes::declaring::{declared, text_of};
use typing_scopes::known::Known;

/// One parameter of the type.
fn one(alloc: Global, t: TypePart) -> Result<Items<Declared>, TypeFault>
    ensures { Gives (Ok (nameless t ∷ [])) result }
{
    let parameter = declared(alloc, &[], t)?;
    let mut all = Items::new(alloc);
    all.push(parameter)?;
    Ok(all)
}

/// A function without parameters.
fn without_parameters(alloc: Global, name: &[u8], returns: TypePart) -> Result<Function, TypeFault>
    ensures { Gives (Ok (starts.library_function name.now returns [])) result }
{
    let name = text_of(alloc, name)?;
    Ok(Function {
        name,
        result: returns.into_boxed().into_inner(),
        params: 0,
        locals: Items::new(alloc),
        registers: Items::new(alloc),
        ghosts: Items::new(alloc),
        body: None,
    })
}

/// A function with one parameter.
fn with_parameter(
    alloc: Global,
    name: &[u8],
    returns: TypePart,
    parameter: TypePart,
) -> Result<Function, TypeFault>
    ensures { Gives (Ok (starts.library_function name.now returns (parameter ∷ []))) result }
{
    let locals = one(alloc, parameter)?;
    let name = text_of(alloc, name)?;
    Ok(Function {
        name,
        result: returns.into_boxed().into_inner(),
        params: 1,
        locals,
        registers: Items::new(alloc),
        ghosts: Items::new(alloc),
        body: None,
    })
}

fn int(alloc: Global) -> Result<TypePart, TypeFault>
    ensures { Gives (Ok core.int) result }
{
    type_part(alloc, CType::Int(IntKind::Int))
}

fn unsigned_long(alloc: Global) -> Result<TypePart, TypeFault>
    ensures { Gives (Ok core.unsigned_long) result }
{
    type_part(alloc, CType::Int(IntKind::ULong))
}

fn void_pointer(alloc: Global) -> Result<TypePart, TypeFault>
    ensures { Gives (Ok core.void_pointer) result }
{
    pointer(alloc, &CType::Void)
}

fn getchar(alloc: Global) -> Result<Function, TypeFault>
    ensures { Gives (Ok (starts.library_function (codes "getchar") core.int [])) result }
{
    let returns = int(alloc)?;
    without_parameters(alloc, "getchar".as_bytes(), returns)
}

fn putchar(alloc: Global) -> Result<Function, TypeFault>
    ensures { Gives (Ok (starts.library_function (codes "putchar") core.int (core.int ∷ []))) result }
{
    let returns = int(alloc)?;
    let parameter = int(alloc)?;
    with_parameter(alloc, "putchar".as_bytes(), returns, parameter)
}

fn malloc(alloc: Global) -> Result<Function, TypeFault>
    ensures { Gives (Ok (starts.library_function (codes "malloc") core.void_pointer (core.unsigned_long ∷ []))) result }
{
    let returns = void_pointer(alloc)?;
    let parameter = unsigned_long(alloc)?;
    with_parameter(alloc, "malloc".as_bytes(), returns, parameter)
}

fn free(alloc: Global) -> Result<Function, TypeFault>
    ensures { Gives (Ok (starts.library_function (codes "free") CType.Void (core.void_pointer ∷ []))) result }
{
    let returns = type_part(alloc, CType::Void)?;
    let parameter = void_pointer(alloc)?;
    with_parameter(alloc, "free".as_bytes(), returns, parameter)
}

/// The functions of the library are known, and no others.
pub fn add_library(alloc: Global, known: &mut Known<'_>) -> Result<(), TypeFault>
    requires { (program known.old).functions ≡ [] }
    ensures added { OnOk result (state known.new ≡ record (state known.old) { program = record (program known.old) { functions = library } }) }
    ensures memory { Gives (Ok tt) result }
{
    let function = getchar(alloc)?;
    known.add_function("getchar".as_bytes(), function)?;
    let function = putchar(alloc)?;
    known.add_function("putchar".as_bytes(), function)?;
    let function = malloc(alloc)?;
    known.add_function("malloc".as_bytes(), function)?;
    let function = free(alloc)?;
    known.add_function("free".as_bytes(), function)
}
