//! The rules on a declared name, and the type of a variable or member (C11 6.7, 6.7.2.1).

ghost use Rattle.std.specs.Prelude.{◌≡◌, ◌≤◌, ◌||◌, true, not, List, map};
ghost use Rattle.std.specs.List.{AllByRecursion};
ghost use Rattle.typing_laws.specs.SmallTypes.{IsSmall};
ghost use Rattle.typing_rules.specs.Checked.{Gives};
ghost use Rattle.typing_rules.specs.Declarations as rules;
ghost use Rattle.typing_rules.specs.TreesOfDeclarations.{declarator as tree_of_declarator};
ghost use Rattle.typing_scopes.specs.Known.{known as seen};
ghost use Rattle.typing_declarators.specs.Layers.{layer, counted};
ghost use Rattle.typing_declarators.specs.Names as names;
ghost use Rattle.typing_declarators.specs.Types.{is_specified, HasElements, StructsHaveCells};

use crate::layer::Layer;
use crate::modifiers::declarator_layers;
use crate::object_type::{is_complete, is_within_limit, layered};
use c_grammar::declaration::Declarator;
use c_lexer::Place;
use std::alloc::Global;
use step_meaning::CType;
use typing_rules::fault::TypeFault;
use typing_rules::operand::TypePart;
use typing_scopes::known::Known;

/// What the rules see of a declared name, besides its type.
#[derive(Clone, Copy)]
pub struct DeclaredName {
    /// Where it stands.
    pub place: Place,
    /// Whether its scope has the name already.
    pub again: bool,
    /// Whether a rule of its own on its type is broken.
    pub wrong: bool,
    /// Whether it is a value, as a parameter is.
    pub is_value: bool,
    /// Whether the name is reserved.
    pub reserved: bool,
}

fn is_struct(t: &CType) -> bool
    ensures { result ≡ rules.is_struct t.now }
{
    matches!(t, CType::Struct(_))
}

/// The rules on a declared name of this type, in the order of their numbers.
#[tactic(auto, unfolding(typing_rules::specs::Checked::none_of))]
pub fn declarable(known: &Known<'_>, name: DeclaredName, t: &CType) -> Result<(), TypeFault>
    ensures { Gives (rules.declarable (seen known.now) name.place name.again name.wrong name.is_value name.reserved t.now) result }
{
    if name.again {
        Err(TypeFault::Redeclared(name.place))
    } else if name.wrong {
        Err(TypeFault::Mismatch(name.place))
    } else if name.is_value && is_struct(t) {
        Err(TypeFault::StructValue(name.place))
    } else if name.reserved {
        Err(TypeFault::Reserved(name.place))
    } else if !is_within_limit(known.layouts.as_slice(), t) {
        Err(TypeFault::TooLarge(name.place))
    } else {
        Ok(())
    }
}

/// Whether the type is complete where it stands.
pub fn is_complete_in(known: &Known<'_>, t: &CType) -> bool
    ensures { result ≡ rules.is_complete_in (seen known.now) t.now }
{
    is_complete(known.layouts.len(), known.tags.len(), t)
}

/// Whether a rule on its type is broken, by itself or since the type isn't complete.
fn is_wrong(known: &Known<'_>, name: DeclaredName, t: &CType) -> bool
    ensures { result ≡ (name.wrong || not (rules.is_complete_in (seen known.now) t.now)) }
{
    name.wrong || !is_complete_in(known, t)
}

/// The rules on the declared name of an object of this type.
fn declarable_object(known: &Known<'_>, name: DeclaredName, t: &CType) -> Result<(), TypeFault>
    ensures { Gives (rules.declarable (seen known.now) name.place name.again (name.wrong || not (rules.is_complete_in (seen known.now) t.now)) name.is_value name.reserved t.now) result }
{
    let wrong = is_wrong(known, name, t);
    declarable(known, DeclaredName { wrong, ..name }, t)
}

/// The type that these layers give a declared name, whose rules it keeps.
pub fn object_type(
    alloc: Global,
    known: &Known<'_>,
    name: DeclaredName,
    layers: &[Layer],
    base: &CType,
) -> Result<TypePart, TypeFault>
    requires base { is_specified base.now ≡ true }
    requires structs { StructsHaveCells (seen known.now).layouts }
    ensures { (ls : List rules.Layer) → map counted ls ≡ map layer layers.now → AllByRecursion HasElements ls → Gives (names.object_type (seen known.now) name ls base.now) result }
{
    let t = layered(alloc, layers, base)?;
    declarable_object(known, name, t.get())?;
    Ok(t)
}

/// The type that a declarator gives its name, where `[ ]` has so many elements. The name keeps its rules (C11 6.7.6).
pub fn declared_type(
    alloc: Global,
    known: &Known<'_>,
    name: DeclaredName,
    count: usize,
    declarator: &Declarator,
    base: &CType,
) -> Result<TypePart, TypeFault>
    requires small { IsSmall (seen known.now) }
    requires structs { StructsHaveCells (seen known.now).layouts }
    requires count { 1 ≤ count }
    requires base { is_specified base.now ≡ true }
    ensures { Gives (names.declared_type (seen known.now) name count (tree_of_declarator declarator.now).modifiers base.now) result }
{
    let mut layers = Vec::new(alloc);
    declarator_layers(alloc, known, count, &mut layers, declarator)?;
    object_type(alloc, known, name, layers.as_slice(), base)
}
