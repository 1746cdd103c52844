//! Variables of file scope (C11 6.9.2).

ghost use Rattle.std.specs.Prelude.{◌≡◌, true, Ok, OnOk, IfOk};
ghost use Rattle.typing_rules.specs.Checked.{Gives};
ghost use Rattle.typing_rules.specs.FileScope as rules;
ghost use Rattle.typing_rules.specs.TreesOfDeclarations as trees;
ghost use Rattle.typing_declarators.specs.Types.{is_specified};
ghost use Rattle.typing_scopes.specs.Known.{program};
ghost use Rattle.typing_files.specs.Points.{IsAtFile, Becomes};
ghost use Rattle.typing_files.specs.Variables as variables;
ghost use Rattle.typing_files.specs.Variables.{MayBeVariable, declared_in};

use crate::tree::{declarator_of, name_of};
use c_grammar::declaration::Declared;
use c_words::chain::Chain;
use c_words::word::Leaf;
use sqlite_items::Items;
use std::alloc::Global;
use step_meaning::{CType, Value};
use typing_declarators::element_count::element_count;
use typing_declarators::name::{DeclaredName, declared_type};
use typing_initialisers::file::{initial_values, uninitialised};
use typing_operands::part::copied;
use typing_rules::fault::TypeFault;
use typing_rules::operand::TypePart;
use typing_scopes::known::Known;

/// What the rules see of the name of a variable. The name `main` is a function's.
fn variable_name(known: &Known<'_>, name: &Leaf) -> DeclaredName
    requires { IsAtFile known.now }
    ensures { result ≡ variables.variable_name (program known.now) name.now }
{
    let bytes = known.bytes(name);
    DeclaredName {
        place: name.token.place,
        again: known.is_in_file(bytes),
        wrong: bytes == "main".as_bytes(),
        is_value: false,
        reserved: known.is_reserved(bytes),
    }
}

/// The type of a variable, whose name keeps the rules.
fn variable_type(
    alloc: Global,
    known: &Known<'_>,
    base: &CType,
    tree: &Declared,
) -> Result<TypePart, TypeFault>
    requires at { IsAtFile known.now }
    requires base { is_specified base.now ≡ true }
    ensures gives { Gives (variables.variable_type (program known.now) base.now (trees.declared tree.now)) result }
    ensures may { IfOk result (λ t. MayBeVariable (program known.now) (trees.declared tree.now).declarator.name t) }
{
    let name = variable_name(known, &name_of(tree));
    let count = element_count(tree);
    declared_type(alloc, known, name, count, declarator_of(tree), base)
}

/// The values that the cells of a variable of this type start with (C11 6.7.9, 10).
fn first_values(
    alloc: Global,
    known: &Known<'_>,
    t: &CType,
    tree: &Declared,
) -> Result<Items<Value>, TypeFault>
    requires { IsAtFile known.now }
    ensures { Gives (rules.first_values (program known.now) t.now (trees.declared tree.now).initialiser) result }
{
    match tree {
        Declared::Plain(_) => uninitialised(alloc, known, t),
        Declared::Initialised(_, _, init) => initial_values(alloc, known, t, init),
    }
}

/// The next variable, known from here on, in its own initialiser too (C11 6.2.1, 7).
fn add_variable<'t>(
    alloc: Global,
    known: &mut Known<'t>,
    name: &Leaf,
    t: &CType,
) -> Result<(), TypeFault>
    requires at { IsAtFile known.old }
    requires may { MayBeVariable (program known.old) name.now t.now }
    ensures added { OnOk result (program known.new ≡ rules.with_variable (program known.old) (rules.bytes (program known.old) name.now) t.now) }
    ensures memory { Gives (Ok tt) result }
    ensures at { OnOk result (IsAtFile known.new) }
{
    let bytes = known.bytes(name);
    let t = copied(alloc, t)?;
    known.add_global(alloc, bytes, t)
}

/// What the cells of the next variable start with.
fn add_values(known: &mut Known<'_>, values: Items<Value>) -> Result<(), TypeFault>
    requires { IsAtFile known.old }
    ensures added { OnOk result (program known.new ≡ rules.with_values (program known.old) values) }
    ensures memory { Gives (Ok tt) result }
    ensures at { OnOk result (IsAtFile known.new) }
{
    known.add_values(values)
}

/// A variable of this type and the values that its cells start with.
fn variable_of<'t>(
    alloc: Global,
    known: &mut Known<'t>,
    t: TypePart,
    tree: &Declared,
) -> Result<(), TypeFault>
    requires at { IsAtFile known.old }
    requires may { MayBeVariable (program known.old) (trees.declared tree.now).declarator.name t }
    ensures becomes { Becomes (variables.variable_of (trees.declared tree.now) t (program known.old)) result (program known.new) }
    ensures at { OnOk result (IsAtFile known.new) }
{
    let name = name_of(tree);
    add_variable(alloc, known, &name, t.get())?;
    let values = first_values(alloc, known, t.get(), tree)?;
    add_values(known, values)
}

/// A variable with its initialiser.
fn variable<'t>(
    alloc: Global,
    known: &mut Known<'t>,
    base: &CType,
    tree: &Declared,
) -> Result<(), TypeFault>
    requires at { IsAtFile known.old }
    requires base { is_specified base.now ≡ true }
    ensures becomes { Becomes (rules.variable base.now (trees.declared tree.now) (program known.old)) result (program known.new) }
    ensures at { OnOk result (IsAtFile known.new) }
{
    let t = variable_type(alloc, known, base, tree)?;
    variable_of(alloc, known, t, tree)
}

/// All variables of a declaration, in order.
pub fn variables<'t>(
    alloc: Global,
    known: &mut Known<'t>,
    base: &CType,
    trees: &Chain<Declared>,
) -> Result<(), TypeFault>
    requires at { IsAtFile known.old }
    requires base { is_specified base.now ≡ true }
    ensures becomes { Becomes (rules.variables base.now (declared_in trees.now) (program known.old)) result (program known.new) }
    ensures at { OnOk result (IsAtFile known.new) }
{
    variable(alloc, known, base, &trees.first)?;
    for link in trees.rest.as_slice() {
        variable(alloc, known, base, &link.operand)?;
    }
    Ok(())
}
