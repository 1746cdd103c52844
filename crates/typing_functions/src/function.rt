//! Functions.

ghost use Rattle.std.specs.Prelude.{◌≡◌, [], Ok, None, OnOk, IfOk, is_some};
ghost use Rattle.typing_laws.specs.SmallPrograms.{HasNoArray};
ghost use Rattle.typing_rules.specs.Checked.{Gives};
ghost use Rattle.typing_rules.specs.FileScope.{bytes};
ghost use Rattle.typing_rules.specs.Functions as rules;
ghost use Rattle.typing_rules.specs.TreesOfDeclarations as trees;
ghost use Rattle.typing_scopes.specs.Known.{program};
ghost use Rattle.typing_files.specs.Points.{IsAtFile, Becomes};
ghost use Rattle.typing_functions.specs.Functions as functions;
ghost use Rattle.typing_functions.specs.Functions.{IsDeclared};
ghost use Rattle.typing_functions.specs.Parameters.{IsInFunction};

use crate::parameter::parameters;
use crate::prototype::{counted, defined_function, prototype};
use crate::signature::{Signature, declarable_function, declares_allocation};
use c_grammar::declaration::Params;
use c_grammar::program::Body as Tree;
use c_grammar::statement::Block;
use c_grammar::types::Base;
use c_words::word::Leaf;
use std::alloc::Global;
use step_meaning::CType;
use typing_rules::fault::TypeFault;
use typing_scopes::known::Known;
use typing_statements::body::Body;

/// The parameters of a function begin.
fn begin(alloc: Global, known: &mut Known<'_>) -> Result<(), TypeFault>
    requires { IsAtFile known.old }
    ensures memory { Gives (Ok tt) result }
    ensures none { OnOk result (known.new.locals ≡ []) }
    ensures same { OnOk result (program known.new ≡ program known.old) }
    ensures at { OnOk result (IsInFunction known.new) }
{
    known.start_function(alloc)
}

/// A function without body, known from here on.
fn add_prototype<'t>(
    alloc: Global,
    known: &mut Known<'t>,
    name: &Leaf,
    returns: &CType,
) -> Result<(), TypeFault>
    requires at { IsInFunction known.old }
    requires returns { HasNoArray returns.now }
    requires new { rules.function_number (program known.old).functions (bytes (program known.old) name.now) ≡ None }
    ensures becomes { Becomes (Ok (functions.with_prototype (program known.old) (bytes (program known.old) name.now) returns.now known.old.locals)) result (program known.new) }
    ensures same { OnOk result (known.new.locals ≡ known.old.locals) }
    ensures at { OnOk result (IsInFunction known.new) }
{
    let bytes = known.bytes(name);
    let function = prototype(alloc, bytes, returns, known.locals.as_slice())?;
    known.add_function(bytes, function)
}

/// The number of a function, which is known from here on (C11 6.2.1, 7).
fn declare<'t>(
    alloc: Global,
    known: &mut Known<'t>,
    name: &Leaf,
    returns: &CType,
) -> Result<u32, TypeFault>
    requires at { IsInFunction known.old }
    requires returns { HasNoArray returns.now }
    ensures number { Gives (Ok (functions.number_of (program known.old) name.now)) result }
    ensures program { OnOk result (program known.new ≡ functions.with_declared (program known.old) name.now returns.now known.old.locals) }
    ensures same { OnOk result (known.new.locals ≡ known.old.locals) }
    ensures at { OnOk result (IsInFunction known.new) }
    ensures declared { IfOk result (λ n. IsDeclared (program known.new) n (bytes (program known.new) name.now)) }
{
    match known.function_number(known.bytes(name)) {
        Some(number) => Ok(number),
        None => {
            let number = counted(known.functions.len())?;
            add_prototype(alloc, known, name, returns)?;
            Ok(number)
        }
    }
}

/// The statements of a body, and its locals after its parameters.
fn defined<'t>(
    alloc: Global,
    known: &mut Known<'t>,
    number: u32,
    name: &Leaf,
    returns: &CType,
    body: &Block,
) -> Result<(), TypeFault>
    requires at { IsInFunction known.old }
    requires returns { HasNoArray returns.now }
    requires declared { IsDeclared (program known.old) number (bytes (program known.old) name.now) }
    ensures becomes { Becomes (functions.with_body (program known.old) number (bytes (program known.old) name.now) returns.now known.old.locals (trees.block body.now)) result (program known.new) }
    ensures at { OnOk result (IsAtFile known.new) }
{
    let params = known.locals.len();
    let shared = Body { alloc, returns };
    let statements = shared.statements(known, false, body)?;
    let locals = known.end_function(alloc);
    let function = defined_function(
        alloc,
        known.bytes(name),
        returns,
        params,
        locals,
        statements,
    )?;
    known.set_function(number, function);
    Ok(())
}

/// The body of a function, where it has one.
fn define<'t>(
    alloc: Global,
    known: &mut Known<'t>,
    number: u32,
    name: &Leaf,
    returns: &CType,
    body: &Tree,
) -> Result<(), TypeFault>
    requires at { IsInFunction known.old }
    requires returns { HasNoArray returns.now }
    requires declared { IsDeclared (program known.old) number (bytes (program known.old) name.now) }
    ensures becomes { Becomes (rules.defined_as (program known.old) number (bytes (program known.old) name.now) returns.now known.old.locals (trees.body body.now)) result (program known.new) }
    ensures at { OnOk result (IsAtFile known.new) }
{
    match body {
        Tree::Absent(_) => {
            let _locals = known.end_function(alloc);
            Ok(())
        }
        Tree::Block(body) => defined(alloc, known, number, name, returns, body),
    }
}

/// A function whose parameters are known, and then its body.
fn declared_as<'t>(
    alloc: Global,
    known: &mut Known<'t>,
    name: &Leaf,
    returns: &CType,
    body: &Tree,
) -> Result<(), TypeFault>
    requires at { IsInFunction known.old }
    requires returns { HasNoArray returns.now }
    ensures becomes { Becomes (functions.declared_as name.now returns.now known.old.locals (trees.body body.now) (program known.old)) result (program known.new) }
    ensures at { OnOk result (IsAtFile known.new) }
{
    let number = declare(alloc, known, name, returns)?;
    define(alloc, known, number, name, returns, body)
}

#[tactic(auto, unfolding(typing_rules::specs::TreesOfDeclarations::body))]
fn is_defined(body: &Tree) -> bool
    ensures { result ≡ is_some (trees.body body.now) }
{
    match body {
        Tree::Absent(_) => false,
        Tree::Block(_) => true,
    }
}

/// The rules on the name, and then the body.
fn judged_as<'t>(
    alloc: Global,
    known: &mut Known<'t>,
    name: &Leaf,
    returns: &CType,
    body: &Tree,
) -> Result<(), TypeFault>
    requires at { IsInFunction known.old }
    requires returns { HasNoArray returns.now }
    ensures becomes { Becomes (functions.judged_as name.now returns.now known.old.locals (trees.body body.now) (program known.old)) result (program known.new) }
    ensures at { OnOk result (IsAtFile known.new) }
{
    let signature = Signature {
        returns,
        defined: is_defined(body),
    };
    declarable_function(known, name, signature)?;
    declared_as(alloc, known, name, returns, body)
}

/// The parameters, the name, and then the body.
fn function_of<'t>(
    alloc: Global,
    known: &mut Known<'t>,
    name: &Leaf,
    returns: &CType,
    params: &Params,
    body: &Tree,
) -> Result<(), TypeFault>
    requires at { IsAtFile known.old }
    requires returns { HasNoArray returns.now }
    ensures becomes { Becomes (functions.function_of name.now returns.now (trees.params params.now) (trees.body body.now) (program known.old)) result (program known.new) }
    ensures at { OnOk result (IsAtFile known.new) }
{
    begin(alloc, known)?;
    let allocation = declares_allocation(known.bytes(name), is_defined(body));
    parameters(alloc, known, allocation, params)?;
    judged_as(alloc, known, name, returns, body)
}

/// A declaration or definition of a function: the result, the parameters, the name, and then the body (C11 6.9.1).
pub fn function<'t>(
    alloc: Global,
    known: &mut Known<'t>,
    base: &Base,
    stars: usize,
    name: &Leaf,
    params: &Params,
    body: &Tree,
) -> Result<(), TypeFault>
    requires { IsAtFile known.old }
    ensures becomes { Becomes (rules.function (record { specifier = base.now.specifier; stars = stars }) name.now (trees.params params.now) (trees.body body.now) (program known.old)) result (program known.new) }
    ensures at { OnOk result (IsAtFile known.new) }
{
    let returns = known.starred(alloc, &base.specifier, stars)?;
    function_of(alloc, known, name, returns.get(), params, body)
}
