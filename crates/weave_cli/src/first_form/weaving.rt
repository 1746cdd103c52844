//! Weaving: each assignment gets the assertion of the property before it.

ghost use Rattle.std.specs.Prelude.{◌≡◌, ◌++◌, IfOk, OnOk, map};
ghost use Rattle.c_parser.specs.FirstForm.Program.{program_of, function_of};
ghost use Rattle.weave_cli.specs.FirstForm.Weaving as spec;

use c_parser::{FirstFunction, FirstStmt, FirstTree};
use std::alloc::{AllocError, Global};

/// Adds what weaving makes of a statement, where the property is of the variable `x`.
fn push_statement(
    woven: &mut Vec<FirstStmt>,
    x: u32,
    statement: FirstStmt,
) -> Result<(), AllocError>
    ensures { OnOk result (woven.new.items ≡ woven.old.items ++ spec.woven_statement x statement) }
{
    if let FirstStmt::Assign(y, _) = statement {
        woven.push(FirstStmt::Assert(y, x))?;
    }
    woven.push(statement)?;
    Ok(())
}

/// The woven body of a function.
fn woven_body(alloc: Global, x: u32, body: &[FirstStmt]) -> Result<Vec<FirstStmt>, AllocError>
    ensures { IfOk result (λ woven. woven.items ≡ spec.woven_body x body.now) }
{
    let mut woven = Vec::new(alloc);
    if let Some(FirstStmt::Assign(_, _)) = body.first() {
        woven.push(FirstStmt::Empty)?;
    }
    for statement in body {
        push_statement(&mut woven, x, *statement)?;
    }
    Ok(woven)
}

fn woven_function(
    alloc: Global,
    x: u32,
    function: &FirstFunction,
) -> Result<FirstFunction, AllocError>
    ensures { IfOk result (λ woven. function_of woven ≡ spec.property_function x (function_of function.now)) }
{
    let body = woven_body(alloc, x, &function.body)?;
    let name = function.name.clone()?;
    Ok(FirstFunction { name, body })
}

fn woven_functions(
    alloc: Global,
    x: u32,
    functions: &[FirstFunction],
) -> Result<Vec<FirstFunction>, AllocError>
    ensures { IfOk result (λ woven. map function_of woven.items ≡ map (spec.property_function x) (map function_of functions.now)) }
{
    let mut woven = Vec::new(alloc);
    for function in functions {
        woven.push(woven_function(alloc, x, function)?)?;
    }
    Ok(woven)
}

/// The woven program: without a property it is the same program.
pub fn weave(alloc: Global, tree: FirstTree) -> Result<FirstTree, AllocError>
    ensures { IfOk result (λ woven. program_of woven ≡ spec.woven (program_of tree)) }
{
    let FirstTree {
        globals,
        property,
        functions,
    } = tree;
    let functions = match property {
        None => functions,
        Some(property) => woven_functions(alloc, property.variable, &functions)?,
    };
    Ok(FirstTree {
        globals,
        property: None,
        functions,
    })
}
