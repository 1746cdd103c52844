//! The text of a woven program.

ghost use Rattle.std.specs.Prelude.{◌≡◌, ◌++◌, IfOk, OnOk, map};
ghost use Rattle.std.specs.String.{string_bytes};
ghost use Rattle.c_parser.specs.FirstForm.Program.{program_of, function_of};
ghost use Rattle.c_parser.specs.FirstForm.Spelling.{name_at};
ghost use Rattle.weave_cli.specs.FirstForm.Layout as spec;

use c_parser::{FirstFunction, FirstStmt, FirstTree};
use itoa::Buffer;
use std::alloc::{AllocError, Global};

fn variable_name(globals: &[String], x: u32) -> &[u8]
    ensures { result.now ≡ name_at (map string_bytes globals.now) x }
{
    match globals.get(x as usize) {
        Some(name) => name.as_bytes(),
        None => b"",
    }
}

fn function_name(functions: &[FirstFunction], f: u32) -> &[u8]
    ensures { result.now ≡ name_at (map (λ g. string_bytes g.name) functions.now) f }
{
    match functions.get(f as usize) {
        Some(function) => function.name.as_bytes(),
        None => b"",
    }
}

fn push_declaration(text: &mut Vec<u8>, x: &[u8]) -> Result<(), AllocError>
    ensures { OnOk result (text.new.items ≡ text.old.items ++ spec.declaration_text x.now) }
{
    text.extend_from_slice(b"int ")?;
    text.extend_from_slice(x)?;
    text.extend_from_slice(b";\n")
}

fn push_assignment(text: &mut Vec<u8>, x: &[u8], n: i128) -> Result<(), AllocError>
    ensures { OnOk result (text.new.items ≡ text.old.items ++ spec.assignment_text x.now n) }
{
    let mut buffer = Buffer::new();
    text.extend_from_slice(b"  ")?;
    text.extend_from_slice(x)?;
    text.extend_from_slice(b" = ")?;
    text.extend_from_slice(buffer.format(n).as_bytes())?;
    text.extend_from_slice(b";\n")
}

fn push_call(text: &mut Vec<u8>, f: &[u8]) -> Result<(), AllocError>
    ensures { OnOk result (text.new.items ≡ text.old.items ++ spec.call_text f.now) }
{
    text.extend_from_slice(b"  ")?;
    text.extend_from_slice(f)?;
    text.extend_from_slice(b"();\n")
}

#[tactic(auto, unfolding(crate::specs::FirstForm::Layout::assertion_head))]
fn push_assertion_head(text: &mut Vec<u8>) -> Result<(), AllocError>
    ensures { OnOk result (text.new.items ≡ text.old.items ++ spec.assertion_head) }
{
    text.extend_from_slice(b"  /*@ assert weave_1: \\separated(&")
}

fn push_assertion(text: &mut Vec<u8>, y: &[u8], x: &[u8]) -> Result<(), AllocError>
    ensures { OnOk result (text.new.items ≡ text.old.items ++ spec.assertion_text y.now x.now) }
{
    push_assertion_head(text)?;
    text.extend_from_slice(y)?;
    text.extend_from_slice(b", &")?;
    text.extend_from_slice(x)?;
    text.extend_from_slice(b"); */\n")
}

fn push_statement(
    text: &mut Vec<u8>,
    tree: &FirstTree,
    statement: FirstStmt,
) -> Result<(), AllocError>
    ensures { OnOk result (text.new.items ≡ text.old.items ++ spec.statement_text (program_of tree.now) statement) }
{
    match statement {
        FirstStmt::Assign(x, n) => push_assignment(text, variable_name(&tree.globals, x), n),
        FirstStmt::Call(f) => push_call(text, function_name(&tree.functions, f)),
        FirstStmt::Empty => text.extend_from_slice(b"  ;\n"),
        FirstStmt::Assert(y, x) => push_assertion(
            text,
            variable_name(&tree.globals, y),
            variable_name(&tree.globals, x),
        ),
    }
}

fn push_body(text: &mut Vec<u8>, tree: &FirstTree, body: &[FirstStmt]) -> Result<(), AllocError>
    ensures { OnOk result (text.new.items ≡ text.old.items ++ spec.body_text (program_of tree.now) body.now) }
{
    for statement in body {
        push_statement(text, tree, *statement)?;
    }
    Ok(())
}

fn push_function(
    text: &mut Vec<u8>,
    tree: &FirstTree,
    function: &FirstFunction,
) -> Result<(), AllocError>
    ensures { OnOk result (text.new.items ≡ text.old.items ++ spec.function_text (program_of tree.now) (function_of function.now)) }
{
    text.extend_from_slice(b"\nvoid ")?;
    text.extend_from_slice(function.name.as_bytes())?;
    text.extend_from_slice(b"(void) {\n")?;
    push_body(text, tree, &function.body)?;
    text.extend_from_slice(b"}\n")
}

fn push_main(
    text: &mut Vec<u8>,
    tree: &FirstTree,
    function: &FirstFunction,
) -> Result<(), AllocError>
    ensures { OnOk result (text.new.items ≡ text.old.items ++ spec.main_text (program_of tree.now) (function_of function.now)) }
{
    text.extend_from_slice(b"\nint ")?;
    text.extend_from_slice(function.name.as_bytes())?;
    text.extend_from_slice(b"(void) {\n")?;
    push_body(text, tree, &function.body)?;
    text.extend_from_slice(b"  return 0;\n}\n")
}

fn push_declarations(text: &mut Vec<u8>, globals: &[String]) -> Result<(), AllocError>
    ensures { OnOk result (text.new.items ≡ text.old.items ++ spec.declarations_text (map string_bytes globals.now)) }
{
    for x in globals {
        push_declaration(text, x.as_bytes())?;
    }
    Ok(())
}

fn push_others(
    text: &mut Vec<u8>,
    tree: &FirstTree,
    functions: &[FirstFunction],
) -> Result<(), AllocError>
    ensures { OnOk result (text.new.items ≡ text.old.items ++ spec.others_text (program_of tree.now) (map function_of functions.now)) }
{
    for function in functions {
        push_function(text, tree, function)?;
    }
    Ok(())
}

fn push_functions(text: &mut Vec<u8>, tree: &FirstTree) -> Result<(), AllocError>
    ensures { OnOk result (text.new.items ≡ text.old.items ++ spec.functions_text (program_of tree.now) (map function_of tree.now.functions.items)) }
{
    let Some((main, others)) = tree.functions.as_slice().split_last() else {
        return Ok(());
    };
    push_others(text, tree, others)?;
    push_main(text, tree, main)
}

/// The text of a program of the woven first form.
pub fn program_text(alloc: Global, tree: &FirstTree) -> Result<Vec<u8>, AllocError>
    ensures { IfOk result (λ text. text.items ≡ spec.program_text (program_of tree.now)) }
{
    let mut text = Vec::new(alloc);
    push_declarations(&mut text, &tree.globals)?;
    push_functions(&mut text, tree)?;
    Ok(text)
}
