//! Statements, and which of two broken rules comes first (C11 6.8).

use crate::shown::expect_shown;
use std::test::Fail;

/// `break` and `continue` stand in loops, and `return` has a value where the function has one.
const JUMPS: [(&str, &str); 10] = [
    ("int main(void) { continue; return 0; }", "133 at 1:18"),
    ("int main(void) { if (1) break; return 0; }", "133 at 1:25"),
    (
        "int main(void) { while (1) { if (1) break; else continue; } do { break; } while (1); for (;;) break; return 0; }",
        "ok",
    ),
    (
        "int main(void) { while (1) ; break; return 0; }",
        "133 at 1:30",
    ),
    (
        "int main(void) { for (;;) { while (0) break; continue; } return 0; }",
        "ok",
    ),
    (
        "void f(void) { return 1; } int main(void) { return 0; }",
        "123 at 1:16",
    ),
    (
        "void f(void) { return y; } int main(void) { return 0; }",
        "121 at 1:23",
    ),
    (
        "int f(void) { return; } int main(void) { return 0; }",
        "123 at 1:15",
    ),
    (
        "void f(void) { return; } void g(void) { } int h(void) { } int main(void) { return 0; }",
        "ok",
    ),
    (
        "void f(void) { } void g(void) { return f(); } int main(void) { return 0; }",
        "123 at 1:33",
    ),
];

#[test]
fn jumps(rt: HostRuntime) -> Result<(), Fail> {
    for (text, expected) in JUMPS {
        expect_shown(&rt, text, expected)?;
    }
    Ok(())
}

/// The first rule in text order.
const ORDER: [(&str, &str); 16] = [
    ("int main(void) { if (y) break; return 0; }", "121 at 1:22"),
    (
        "int main(void) { if ((void) 1) break; return 0; }",
        "123 at 1:22",
    ),
    (
        "int main(void) { do break; while (y); return 0; }",
        "121 at 1:35",
    ),
    (
        "int main(void) { do { break; y; } while (z); return 0; }",
        "121 at 1:30",
    ),
    ("int main(void) { for (;; y) z; return 0; }", "121 at 1:26"),
    ("int main(void) { for (y; z;) ; return 0; }", "121 at 1:23"),
    ("int main(void) { int b = y, y; return 0; }", "121 at 1:26"),
    ("int main(void) { y + z; return 0; }", "121 at 1:18"),
    ("int main(void) { 1 = y; return 0; }", "121 at 1:22"),
    (
        "int x; int *p; int main(void) { x = p * y; return 0; }",
        "121 at 1:41",
    ),
    (
        "int main(void) { int a[2] = {y}, a; return 0; }",
        "121 at 1:30",
    ),
    (
        "int main(void) { int a[0], y = z; return 0; }",
        "132 at 1:24",
    ),
    (
        "int main(void) { int x; int x = y; return 0; }",
        "122 at 1:29",
    ),
    (
        "int f(int a) { return y; } int f(int a) { return z; }",
        "121 at 1:23",
    ),
    (
        "int f(void y, int a[0]); int main(void) { return 0; }",
        "123 at 1:12",
    ),
    (
        "struct s { int a; } x = {y}, x; int main(void) { return 0; }",
        "121 at 1:26",
    ),
];

#[test]
fn order(rt: HostRuntime) -> Result<(), Fail> {
    for (text, expected) in ORDER {
        expect_shown(&rt, text, expected)?;
    }
    Ok(())
}
