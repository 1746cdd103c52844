//! The types of objects in the scope of a function.

ghost use Rattle.std.specs.Prelude.{◌≡◌};
ghost use Rattle.step_meaning.specs.Settings.{variable_type, variables as variables_of};
ghost use Rattle.step_meaning.specs.TypeRules.{member_type as type_at};
ghost use Rattle.normal_laws.specs.NormalForm.{or_void};
ghost use Rattle.normal_trees.specs.Operands.{object_of};
ghost use Rattle.normal_expressions.specs.Code.{setting_in, result_in};

use crate::scope::Scope;
use core_types::member_type;
use sqlite_items::at;
use step_meaning::{CType, Declared, NameKind, Variable};

/// The variables of a kind that the code of the function may name.
fn variables<'a>(scope: Scope<'a>, kind: NameKind) -> &'a [Declared]
    ensures { result.now ≡ variables_of (setting_in scope.entry) kind }
{
    match kind {
        NameKind::Global => scope.core.globals.as_slice(),
        NameKind::Local => scope.function.locals.as_slice(),
        NameKind::Register => scope.function.registers.as_slice(),
        NameKind::Heap | NameKind::GhostGlobal | NameKind::GhostLocal => &[],
    }
}

/// The type of a variable's object; none where there is no such variable.
pub fn object<'a>(scope: Scope<'a>, variable: Variable) -> Option<&'a CType>
    ensures { object_of result ≡ or_void (variable_type (setting_in scope.entry) variable) }
{
    match at(variables(scope, variable.kind), variable.index as usize) {
        None => None,
        Some(declared) => Some(&declared.ctype),
    }
}

/// The type of the member at the offset of an object of the struct with this number.
#[tactic(auto, using(crate::proofs::TypesOfObjects::object_from))]
fn member_by<'a>(scope: Scope<'a>, number: u32, offset: u32) -> Option<&'a CType>
    ensures { object_of result ≡ or_void (type_at (setting_in scope.entry).layouts (CType.Struct number) offset) }
{
    member_type(scope.core.layouts.as_slice(), number, offset)
}

/// The type of the member at the offset of an object of this type.
#[tactic(auto, using(crate::proofs::TypesOfObjects::no_members))]
fn member_in<'a>(scope: Scope<'a>, ctype: &CType, offset: u32) -> Option<&'a CType>
    ensures { object_of result ≡ or_void (type_at (setting_in scope.entry).layouts ctype.now offset) }
{
    match ctype {
        CType::Struct(number) => member_by(scope, *number, offset),
        CType::Void | CType::Int(_) | CType::Pointer(_) | CType::Array(_, _) => None,
    }
}

/// The type of the member at the offset of an object; none where no member begins there.
pub fn member_of<'a>(scope: Scope<'a>, object: Option<&CType>, offset: u32) -> Option<&'a CType>
    ensures { object_of result ≡ or_void (type_at (setting_in scope.entry).layouts (object_of object.entry) offset) }
{
    match object {
        None => None,
        Some(ctype) => member_in(scope, ctype, offset),
    }
}

/// The type of the value of the function with this number.
#[tactic(auto, unfolding(crate::specs::Code::result_in))]
pub fn result_of<'a>(scope: Scope<'a>, function: u32) -> Option<&'a CType>
    ensures { object_of result ≡ result_in scope.entry function }
{
    match at(scope.core.functions.as_slice(), function as usize) {
        None => None,
        Some(called) => Some(&called.result),
    }
}
