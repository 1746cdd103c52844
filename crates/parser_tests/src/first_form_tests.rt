//! Programs of the first form: what is read, and what is not of the form.

use c_lexer::first_tokens;
use c_parser::{FirstStmt, FirstTree, Mode, first_tree};
use std::alloc::{AllocError, Global};
use std::test::Fail;

fn read(alloc: Global, text: &[u8], mode: Mode) -> Result<Option<FirstTree>, AllocError> {
    if text.len() > 10_000 {
        return Ok(None);
    }
    match first_tokens(alloc, text)? {
        Some(tokens) => first_tree(alloc, text, &tokens, mode),
        None => Ok(None),
    }
}

#[test]
fn reads_a_source(rt: HostRuntime) -> Result<(), Fail> {
    let text = b"int x;\nint _y1;\n\
        /*@ meta \\prop, \\name(keep), \\targets(\\ALL), \\context(\\writing), \\separated(\\written, &_y1); */\n\
        void f(void) { x = 2147483647; _y1 = 0; }\n\
        void g(void) { f(); }\n\
        int main(void) { g(); f(); return 0; }\n";
    let tree = read(rt.alloc(), text, Mode::Source)?.ok_or("refused")?;
    assert_eq!(rt;
        tree.globals
            .iter()
            .map(|x| x.as_str())
            .collect::<Vec<_>>(rt.alloc())?
            .as_slice(),
        ["x", "_y1"].as_slice()
    );
    let property = tree.property.as_ref().ok_or("no property")?;
    assert_eq!(rt; property.name.as_str(), "keep");
    assert_eq!(rt; property.variable, 1);
    let [f, g, main] = tree.functions.as_slice() else {
        return Err(Fail::from("not three functions"));
    };
    assert_eq!(rt; f.name.as_str(), "f");
    assert!(rt;
        matches!(
            f.body.as_slice(),
            [FirstStmt::Assign(0, 2_147_483_647), FirstStmt::Assign(1, 0)]
        )
    );
    assert_eq!(rt; g.name.as_str(), "g");
    assert!(rt; matches!(g.body.as_slice(), [FirstStmt::Call(0)]));
    assert_eq!(rt; main.name.as_str(), "main");
    assert!(rt;
        matches!(
            main.body.as_slice(),
            [FirstStmt::Call(1), FirstStmt::Call(0)]
        )
    );
    Ok(())
}

#[test]
fn reads_a_woven_text(rt: HostRuntime) -> Result<(), Fail> {
    let text =
        b"int a; int b; int main(void) { ; /*@ assert weave_1: \\separated(&a, &b); */ b = 5; return 0; }";
    let tree = read(rt.alloc(), text, Mode::Woven)?.ok_or("refused")?;
    assert!(rt; tree.property.is_none());
    let [main] = tree.functions.as_slice() else {
        return Err(Fail::from("not one function"));
    };
    assert!(rt;
        matches!(
            main.body.as_slice(),
            [
                FirstStmt::Empty,
                FirstStmt::Assert(0, 1),
                FirstStmt::Assign(1, 5)
            ]
        )
    );
    Ok(())
}

/// Texts, and whether they are of the form of sources and of that of woven texts.
const TEXTS: [(&[u8], bool, bool); 26] = [
    (b"", false, false),
    (b"int main(void) { return 0; }", true, true),
    (b"int main(void) { return 1; }", false, false),
    (b"int main(void) { return 0; } int x;", false, false),
    (b"void f(void) { }", false, false),
    (b"int x; int x; int main(void) { return 0; }", false, false),
    (
        b"int f; void f(void) { } int main(void) { return 0; }",
        false,
        false,
    ),
    (
        b"void f(void) { } void f(void) { } int main(void) { return 0; }",
        false,
        false,
    ),
    (
        b"void f(void) { } int main(void) { f(); return 0; }",
        true,
        true,
    ),
    (
        b"void f(void) { f(); } int main(void) { return 0; }",
        false,
        false,
    ),
    (
        b"void f(void) { g(); } void g(void) { } int main(void) { return 0; }",
        false,
        false,
    ),
    (b"int main(void) { main(); return 0; }", false, false),
    (b"int x; int main(void) { x(); return 0; }", false, false),
    (
        b"void f(void) { } int main(void) { f = 1; return 0; }",
        false,
        false,
    ),
    (
        b"int x; int y; int main(void) { y = x; return 0; }",
        false,
        false,
    ),
    (
        b"int x; int main(void) { x = 2147483648; return 0; }",
        false,
        false,
    ),
    (b"int _x; int main(void) { return 0; }", true, true),
    (b"int __x; int main(void) { return 0; }", false, false),
    (b"int main; int main(void) { return 0; }", false, false),
    (
        b"void putchar(void) { } int main(void) { return 0; }",
        false,
        false,
    ),
    (b"int malloc; int main(void) { return 0; }", false, false),
    (
        b"void free(void) { } int main(void) { return 0; }",
        false,
        false,
    ),
    (b"int main(void) { ; return 0; }", false, true),
    (
        b"int x; int main(void) { /*@ assert weave_1: \\separated(&x, &x); */ return 0; }",
        false,
        true,
    ),
    (
        b"int x; /*@ meta \\prop, \\name(p), \\targets(\\ALL), \\context(\\writing), \\separated(\\written, &x); */ int main(void) { return 0; }",
        true,
        false,
    ),
    (
        b"int x; /*@ meta \\prop, \\name(p), \\targets(\\ALL), \\context(\\writing), \\separated(\\written, &y); */ int main(void) { return 0; }",
        false,
        false,
    ),
];

#[test]
fn reads_only_the_form(rt: HostRuntime) -> Result<(), Fail> {
    for (i, (text, source, woven)) in TEXTS.iter().enumerate() {
        let read_source = read(rt.alloc(), text, Mode::Source)?.is_some();
        assert_eq!(rt; read_source, *source, "source {i}");
        let read_woven = read(rt.alloc(), text, Mode::Woven)?.is_some();
        assert_eq!(rt; read_woven, *woven, "woven {i}");
    }
    Ok(())
}
