//! Parameters, each seeing those before it (C11 6.7.6.3).

ghost use Rattle.std.specs.Prelude.{◌≡◌, List, map, true, Ok, OnOk, IfOk};
ghost use Rattle.std.specs.List.{AllByRecursion};
ghost use Rattle.step_meaning.specs.ExpressionTypes.{pointer_to};
ghost use Rattle.typing_rules.specs.Checked.{Gives};
ghost use Rattle.typing_rules.specs.Declarations as layers_seen;
ghost use Rattle.typing_rules.specs.Functions as rules;
ghost use Rattle.typing_rules.specs.TreesOfDeclarations as trees;
ghost use Rattle.typing_declarators.specs.Layers.{layer, counted};
ghost use Rattle.typing_declarators.specs.Types.{is_specified, HasElements, StructsHaveCells};
ghost use Rattle.typing_scopes.specs.Known.{known as seen, program};
ghost use Rattle.typing_files.specs.Points.{Becomes};
ghost use Rattle.typing_functions.specs.Parameters as parameters_seen;
ghost use Rattle.typing_functions.specs.Parameters.{IsInFunction};

use crate::first::parameter_place;
use crate::layers::{decay, is_allocation, parameter_layers};
use c_grammar::declaration::{Parameter, Params};
use c_grammar::types::Specifier;
use c_words::chain::Chain;
use std::alloc::Global;
use step_meaning::CType;
use typing_declarators::declared_name::declared_name;
use typing_declarators::layer::Layer;
use typing_declarators::name::{DeclaredName, declarable, object_type};
use typing_operands::part::pointer;
use typing_rules::fault::TypeFault;
use typing_rules::operand::TypePart;
use typing_scopes::known::Known;

/// The bytes of the name of a parameter: none where it has no name.
#[tactic(auto, unfolding(typing_rules::specs::TreesOfDeclarations::parameter))]
fn name_of<'t>(known: &Known<'t>, tree: &Parameter) -> &'t [u8]
    ensures { result.now ≡ rules.name_of (program known.now) (trees.parameter tree.now).name }
{
    match tree {
        Parameter::Named(_, _, declarator) => known.bytes(&declared_name(declarator)),
        Parameter::Nameless(_, _, _, _) => &[],
    }
}

#[tactic(auto, unfolding(typing_rules::specs::TreesOfDeclarations::parameter))]
fn specifier_of(tree: &Parameter) -> Specifier
    ensures { result ≡ (trees.parameter tree.now).specifier }
{
    match tree {
        Parameter::Named(_, base, _) => base.specifier,
        Parameter::Nameless(_, base, _, _) => base.specifier,
    }
}

/// What the rules see of the name of a parameter.
fn parameter_name(known: &Known<'_>, tree: &Parameter) -> DeclaredName
    requires { IsInFunction known.now }
    ensures { result ≡ parameters_seen.parameter_name (program known.now) known.now.locals (trees.parameter tree.now) }
{
    let bytes = name_of(known, tree);
    DeclaredName {
        place: parameter_place(tree),
        again: known.is_in_block(bytes),
        wrong: false,
        is_value: true,
        reserved: known.is_reserved(bytes),
    }
}

/// A pointer to `void`, where one may be declared.
fn void_pointer(alloc: Global, known: &Known<'_>, name: DeclaredName) -> Result<TypePart, TypeFault>
    ensures { Gives (parameters_seen.void_pointer_type (seen known.now) name) result }
{
    let t = pointer(alloc, &CType::Void)?;
    declarable(
        known,
        DeclaredName {
            wrong: false,
            is_value: true,
            ..name
        },
        t.get(),
    )?;
    Ok(t)
}

/// The type that these layers give a parameter, whose name keeps the rules. A pointer to `void` stands in a prototype of `malloc` or
/// `free` alone.
fn adjusted_type(
    alloc: Global,
    known: &Known<'_>,
    allocation: bool,
    name: DeclaredName,
    layers: &mut Vec<Layer>,
    base: &CType,
) -> Result<TypePart, TypeFault>
    requires name { parameters_seen.IsPlain name }
    requires base { is_specified base.now ≡ true }
    requires structs { StructsHaveCells (seen known.now).layouts }
    ensures { (ls : List layers_seen.Layer) → map counted ls ≡ map layer layers.old.items → AllByRecursion HasElements ls → Gives (parameters_seen.adjusted_type (seen known.now) allocation name ls base.now) result }
{
    if is_allocation(allocation, layers.as_slice(), base) {
        return void_pointer(alloc, known, name);
    }
    decay(layers);
    object_type(alloc, known, name, layers.as_slice(), base)
}

/// The type of a parameter with this base.
fn parameter_type(
    alloc: Global,
    known: &Known<'_>,
    allocation: bool,
    tree: &Parameter,
    base: &CType,
) -> Result<TypePart, TypeFault>
    requires at { IsInFunction known.now }
    requires base { is_specified base.now ≡ true }
    ensures { Gives (parameters_seen.parameter_type (program known.now) allocation known.now.locals (trees.parameter tree.now) base.now) result }
{
    let name = parameter_name(known, tree);
    let mut layers = Vec::new(alloc);
    parameter_layers(alloc, known, &mut layers, tree)?;
    adjusted_type(alloc, known, allocation, name, &mut layers, base)
}

/// The type of a parameter.
fn whole_type(
    alloc: Global,
    known: &Known<'_>,
    allocation: bool,
    tree: &Parameter,
) -> Result<TypePart, TypeFault>
    requires { IsInFunction known.now }
    ensures { Gives (parameters_seen.whole_type (program known.now) allocation known.now.locals (trees.parameter tree.now)) result }
{
    let base = known.specified(alloc, &specifier_of(tree))?;
    parameter_type(alloc, known, allocation, tree, base.get())
}

/// One more parameter, of this type.
fn add_parameter<'t>(
    alloc: Global,
    known: &mut Known<'t>,
    tree: &Parameter,
    t: TypePart,
) -> Result<(), TypeFault>
    requires at { IsInFunction known.old }
    requires may { parameters_seen.MayBeParameter (program known.old) known.old.locals (trees.parameter tree.now) t }
    ensures becomes { Becomes (Ok (parameters_seen.with_parameter (program known.old) (trees.parameter tree.now) t known.old.locals)) result known.new.locals }
    ensures same { OnOk result (program known.new ≡ program known.old) }
    ensures at { OnOk result (IsInFunction known.new) }
{
    let name = name_of(known, tree);
    known.add_parameter(alloc, name, t)
}

/// A parameter, known from here on.
fn parameter<'t>(
    alloc: Global,
    known: &mut Known<'t>,
    allocation: bool,
    tree: &Parameter,
) -> Result<(), TypeFault>
    requires { IsInFunction known.old }
    ensures becomes { Becomes (rules.parameter (program known.old) allocation known.old.locals (trees.parameter tree.now)) result known.new.locals }
    ensures same { OnOk result (program known.new ≡ program known.old) }
    ensures at { OnOk result (IsInFunction known.new) }
{
    let t = whole_type(alloc, known, allocation, tree)?;
    add_parameter(alloc, known, tree, t)
}

/// The parameters of a list, in order.
fn listed<'t>(
    alloc: Global,
    known: &mut Known<'t>,
    allocation: bool,
    trees: &Chain<Parameter>,
) -> Result<(), TypeFault>
    requires { IsInFunction known.old }
    ensures becomes { Becomes (rules.parameters (program known.old) allocation known.old.locals (parameters_seen.parameters_in trees.now)) result known.new.locals }
    ensures same { OnOk result (program known.new ≡ program known.old) }
    ensures at { OnOk result (IsInFunction known.new) }
{
    parameter(alloc, known, allocation, &trees.first)?;
    for link in trees.rest.as_slice() {
        parameter(alloc, known, allocation, &link.operand)?;
    }
    Ok(())
}

/// The parameters of a function. `()` and `(void)` have none.
#[tactic(auto, unfolding(typing_rules::specs::TreesOfDeclarations::params, typing_rules::specs::Functions::parameters))]
pub fn parameters<'t>(
    alloc: Global,
    known: &mut Known<'t>,
    allocation: bool,
    tree: &Params,
) -> Result<(), TypeFault>
    requires { IsInFunction known.old }
    ensures becomes { Becomes (rules.parameters (program known.old) allocation known.old.locals (trees.params tree.now)) result known.new.locals }
    ensures same { OnOk result (program known.new ≡ program known.old) }
    ensures at { OnOk result (IsInFunction known.new) }
{
    match tree {
        Params::Empty => Ok(()),
        Params::Void(_) => Ok(()),
        Params::List(all) => listed(alloc, known, allocation, all),
    }
}
