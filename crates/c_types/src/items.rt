//! Items, in text order (C11 6.9).

ghost use Rattle.std.specs.Prelude.{◌≡◌, map, Ok, OnOk, true};
ghost use Rattle.step_meaning.specs.declared.value.CType.TheVariants.{Struct};
ghost use Rattle.typing_rules.specs.Checked.{Gives};
ghost use Rattle.typing_rules.specs.FileScope.{variables as all_variables};
ghost use Rattle.typing_rules.specs.Programs as rules;
ghost use Rattle.typing_rules.specs.TreesOfDeclarations as trees;
ghost use Rattle.typing_scopes.specs.Known.{program};
ghost use Rattle.typing_declarators.specs.Types.{is_specified};
ghost use Rattle.typing_files.specs.Points.{IsAtFile, Becomes};
ghost use Rattle.typing_files.specs.Variables.{declared_in};
ghost use Rattle.typing_structs.specs.Members.{members_in};
ghost use Rattle.c_types.specs.Items as items;

use c_grammar::declaration::Declared;
use c_grammar::program::{Item, Member};
use c_grammar::types::Specifier;
use c_words::chain::Chain;
use c_words::word::Leaf;
use std::alloc::Global;
use step_meaning::CType;
use typing_files::variable::variables;
use typing_functions::function::function;
use typing_operands::part::type_part;
use typing_rules::fault::TypeFault;
use typing_scopes::known::Known;
use typing_structs::structure::structure;

/// The variables that a definition of a struct declares.
fn variables_there<'t>(
    alloc: Global,
    known: &mut Known<'t>,
    number: usize,
    names: &Option<Chain<Declared>>,
) -> Result<(), TypeFault>
    requires { IsAtFile known.old }
    ensures becomes { Becomes (all_variables (Struct number) (items.declared_there names.now) (program known.old)) result (program known.new) }
    ensures at { OnOk result (IsAtFile known.new) }
{
    match names {
        None => Ok(()),
        Some(names) => {
            let Ok(number) = u32::try_from(number) else {
                return Err(TypeFault::Memory);
            };
            let base = type_part(alloc, CType::Struct(number))?;
            variables(alloc, known, base.get(), names)
        }
    }
}

/// A definition of a struct, and what it declares.
fn struct_item<'t>(
    alloc: Global,
    known: &mut Known<'t>,
    tag: &Leaf,
    members: &[Member],
    names: &Option<Chain<Declared>>,
) -> Result<(), TypeFault>
    requires { IsAtFile known.old }
    ensures becomes { Becomes (rules.item (items.struct_item tag.now (members_in members.now) (items.declared_there names.now)) (program known.old)) result (program known.new) }
    ensures at { OnOk result (IsAtFile known.new) }
{
    let number = known.layouts.len();
    structure(alloc, known, tag, members)?;
    variables_there(alloc, known, number, names)
}

/// A declaration of variables.
fn variables_item<'t>(
    alloc: Global,
    known: &mut Known<'t>,
    specifier: &Specifier,
    names: &Chain<Declared>,
) -> Result<(), TypeFault>
    requires { IsAtFile known.old }
    ensures becomes { Becomes (rules.item (items.variables_item specifier.now (declared_in names.now)) (program known.old)) result (program known.new) }
    ensures at { OnOk result (IsAtFile known.new) }
{
    let base = known.specified(alloc, specifier)?;
    variables(alloc, known, base.get(), names)
}

/// An item. Annotations are no part of the core.
#[tactic(auto, unfolding(typing_rules::specs::TreesOfDeclarations::item, typing_rules::specs::Programs::item))]
fn item<'t>(alloc: Global, known: &mut Known<'t>, tree: &Item) -> Result<(), TypeFault>
    requires { IsAtFile known.old }
    ensures becomes { Becomes (rules.item (trees.item tree.now) (program known.old)) result (program known.new) }
    ensures at { OnOk result (IsAtFile known.new) }
{
    match tree {
        Item::Struct(_, tag, _, members, _, names, _) => {
            struct_item(alloc, known, tag, members.as_slice(), names)
        }
        Item::Variables(_, base, names, _) => {
            variables_item(alloc, known, &base.specifier, names)
        }
        Item::Function(_, base, stars, name, _, params, _, body) => {
            function(alloc, known, base, stars.len(), name, params, body)
        }
        Item::Meta(_) => Ok(()),
        Item::Ghost(_) => Ok(()),
    }
}

/// All items, in order.
pub fn items<'t>(alloc: Global, known: &mut Known<'t>, all: &[Item]) -> Result<(), TypeFault>
    requires { IsAtFile known.old }
    ensures becomes { Becomes (rules.items (map trees.item all.now) (program known.old)) result (program known.new) }
    ensures at { OnOk result (IsAtFile known.new) }
{
    for tree in all {
        item(alloc, known, tree)?;
    }
    Ok(())
}
