//! The program over the outside in memory.

use crate::tool::tool;
use c_lexer::first_tokens;
use c_parser::{Mode, first_tree};
use std::alloc::{AllocError, Global};
use std::process::Abort;
use std::test::Fail;
use weave_base::{MemFiles, MemSink, MemSource, Status};

const ROOM: usize = 400_000;

const KEEP: &str =
    "int x; int y; /*@ meta \\prop, \\name(keep), \\targets(\\ALL), \\context(\\writing), \\separated(\\written, &x); */ void f(void) { y = 1; } int main(void) { f(); x = 2; return 0; }";

const KEEP_WOVEN: &str =
    "int x;\nint y;\n\nvoid f(void) {\n  ;\n  /*@ assert weave_1: \\separated(&y, &x); */\n  y = 1;\n}\n\nint main(void) {\n  f();\n  /*@ assert weave_1: \\separated(&x, &x); */\n  x = 2;\n  return 0;\n}\n";

const USAGE: &str = "usage: weave_cli COMMAND [OPTIONS] FILE [YA ..]\n";

fn words_of(alloc: Global, words: &[&str]) -> Result<Vec<String>, AllocError> {
    let mut all = Vec::new(alloc);
    for word in words {
        all.push(String::from_str(alloc, *word)?)?;
    }
    Ok(all)
}

/// What the program left: its status, and the bytes on the output and the report.
#[derive(Drop)]
struct Left {
    status: Status,
    out: MemSink,
    err: MemSink,
}

fn files_of(alloc: Global, program: Option<&str>) -> Result<MemFiles, AllocError> {
    let mut files = MemFiles::new(alloc)?;
    if let Some(text) = program {
        files.add("p.c", text.as_bytes())?;
    }
    Ok(files)
}

/// Runs the program with this text as `p.c`, where there is one.
fn run(
    alloc: Global,
    words: &[&str],
    program: Option<&str>,
    out: MemSink,
    err: MemSink,
) -> Result<Left, AllocError> {
    let words = words_of(alloc, words)?;
    let mut files = files_of(alloc, program)?;
    let mut input = MemSource::new(alloc, b"")?;
    let mut out = out;
    let mut err = err;
    let status = tool(alloc, &words, &mut files, &mut input, &mut out, &mut err);
    Ok(Left { status, out, err })
}

fn expect(rt: &impl Abort, left: &Left, status: Status, out: &str, err: &str, name: &str) {
    assert_eq!(rt; left.status, status, "at {name}");
    assert_eq!(rt; left.out.bytes(), out.as_bytes(), "at {name}");
    assert_eq!(rt; left.err.bytes(), err.as_bytes(), "at {name}");
}

#[test]
fn answers_by_words_and_file(rt: HostRuntime) -> Result<(), Fail> {
    let cases: [(&str, &[&str], Option<&str>, Status, &str, &str); 12] = [
        (
            "woven",
            &["weave", "p.c"],
            Some(KEEP),
            Status::Done,
            KEEP_WOVEN,
            "",
        ),
        (
            "smallest",
            &["weave", "p.c"],
            Some("int main(void){return 0;}"),
            Status::Done,
            "\nint main(void) {\n  return 0;\n}\n",
            "",
        ),
        (
            "reads a variable",
            &["weave", "p.c"],
            Some("int x; int y; int main(void) { y = x; return 0; }"),
            Status::Refused,
            "",
            "refused 190 p.c 0:0\n",
        ),
        (
            "empty file",
            &["weave", "p.c"],
            Some(""),
            Status::Refused,
            "",
            "refused 190 p.c 0:0\n",
        ),
        (
            "no file",
            &["weave", "p.c"],
            None,
            Status::ReadFault,
            "",
            "",
        ),
        (
            "another file",
            &["weave", "q.c"],
            Some(KEEP),
            Status::ReadFault,
            "",
            "",
        ),
        ("no words", &[], Some(KEEP), Status::Words, "", USAGE),
        (
            "no file word",
            &["weave"],
            Some(KEEP),
            Status::Words,
            "",
            USAGE,
        ),
        (
            "unknown command",
            &["frob", "p.c"],
            Some(KEEP),
            Status::Words,
            "",
            USAGE,
        ),
        (
            "an option",
            &["weave", "--steps", "3", "p.c"],
            Some(KEEP),
            Status::Words,
            "",
            USAGE,
        ),
        (
            "a dash",
            &["weave", "-p.c"],
            Some(KEEP),
            Status::Words,
            "",
            USAGE,
        ),
        (
            "two files",
            &["weave", "p.c", "p.c"],
            Some(KEEP),
            Status::Words,
            "",
            USAGE,
        ),
    ];
    for (name, words, program, status, out, err) in cases {
        let left = run(
            rt.alloc(),
            words,
            program,
            MemSink::new(rt.alloc(), ROOM)?,
            MemSink::new(rt.alloc(), ROOM)?,
        )?;
        expect(&rt, &left, status, out, err, name);
    }
    Ok(())
}

#[test]
fn answers_failed_writes(rt: HostRuntime) -> Result<(), Fail> {
    let cases: [(&str, &[&str], Option<&str>, usize, &str, &str); 4] = [
        (
            "output",
            &["weave", "p.c"],
            Some("int main(void) { return 0; }"),
            0,
            "",
            "",
        ),
        (
            "part of the output",
            &["weave", "p.c"],
            Some(KEEP),
            5,
            "int x",
            "",
        ),
        ("refusal", &["weave", "p.c"], Some("int"), 7, "", "refused"),
        ("usage", &["weave"], None, 6, "", "usage:"),
    ];
    for (name, words, program, keep, out, err) in cases {
        let mut failing_out = MemSink::new(rt.alloc(), ROOM)?;
        failing_out.fail_at(1, keep)?;
        let mut failing_err = MemSink::new(rt.alloc(), ROOM)?;
        failing_err.fail_at(1, keep)?;
        let left = run(rt.alloc(), words, program, failing_out, failing_err)?;
        expect(&rt, &left, Status::WriteFault, out, err, name);
    }
    Ok(())
}

/// `before`, so many times `piece`, and `after`.
fn repeated(
    alloc: Global,
    before: &str,
    piece: &str,
    times: usize,
    after: &str,
) -> Result<String, AllocError> {
    let mut text = String::from_str(alloc, before)?;
    for _ in 0..times {
        text.push_str(piece)?;
    }
    text.push_str(after)?;
    Ok(text)
}

#[test]
fn keeps_its_limits(rt: HostRuntime) -> Result<(), Fail> {
    let main = "int main(void) { return 0; }";
    let cases: [(&str, &str, &str, usize, &str, Status, &str); 4] = [
        (
            "greatest length",
            main,
            " ",
            262_144 - 28,
            "",
            Status::Done,
            "",
        ),
        (
            "too long",
            main,
            " ",
            262_145 - 28,
            "",
            Status::Refused,
            "refused 100 p.c 0:0\n",
        ),
        (
            "most statements",
            "int x; int main(void) {",
            "x = 1;",
            9_998,
            "return 0; }",
            Status::Done,
            "",
        ),
        (
            "too many",
            "int x; int main(void) {",
            "x = 1;",
            9_999,
            "return 0; }",
            Status::Refused,
            "refused 190 p.c 0:0\n",
        ),
    ];
    for (name, before, piece, times, after, status, err) in cases {
        let text = repeated(rt.alloc(), before, piece, times, after)?;
        let left = run(
            rt.alloc(),
            &["weave", "p.c"],
            Some(text.as_str()),
            MemSink::new(rt.alloc(), ROOM)?,
            MemSink::new(rt.alloc(), ROOM)?,
        )?;
        assert_eq!(rt; left.status, status, "at {name}");
        assert_eq!(rt; left.err.bytes(), err.as_bytes(), "at {name}");
        assert_eq!(rt;
            left.out.bytes().is_empty(),
            status == Status::Refused,
            "at {name}"
        );
    }
    Ok(())
}

#[test]
fn writes_the_woven_form(rt: HostRuntime) -> Result<(), Fail> {
    let left = run(
        rt.alloc(),
        &["weave", "p.c"],
        Some(KEEP),
        MemSink::new(rt.alloc(), ROOM)?,
        MemSink::new(rt.alloc(), ROOM)?,
    )?;
    let text = left.out.bytes();
    assert!(rt; text.len() < 1000);
    let tokens = first_tokens(rt.alloc(), text)?.ok_or("no tokens")?;
    let tree = first_tree(rt.alloc(), text, &tokens, Mode::Woven)?.ok_or("no tree")?;
    assert_eq!(rt; tree.globals.len(), 2);
    assert_eq!(rt; tree.functions.len(), 2);
    assert!(rt; tree.property.is_none());
    assert!(rt; first_tree(rt.alloc(), text, &tokens, Mode::Source)?.is_none());
    Ok(())
}
