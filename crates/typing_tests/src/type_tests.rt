//! Types and sizes (C11 6.2.5, 6.6, 6.7.2.1, 6.7.6).

use crate::shown::expect_shown;
use std::test::Fail;

/// Types of objects are complete, and `void` stands in few places.
const COMPLETE: [(&str, &str); 16] = [
    ("void x; int main(void) { return 0; }", "123 at 1:6"),
    ("void *p; int main(void) { return 0; }", "123 at 1:7"),
    ("void **p; int main(void) { return 0; }", "123 at 1:8"),
    ("void a[2]; int main(void) { return 0; }", "123 at 1:6"),
    ("int main(void) { void x; return 0; }", "123 at 1:23"),
    (
        "int f(void a) { return 0; } int main(void) { return 0; }",
        "123 at 1:12",
    ),
    (
        "int f(void, int); int main(void) { return 0; }",
        "123 at 1:7",
    ),
    (
        "struct s { void a; }; int main(void) { return 0; }",
        "123 at 1:17",
    ),
    (
        "struct s { struct s *p; }; int main(void) { return 0; }",
        "ok",
    ),
    (
        "struct s { struct s a; }; int main(void) { return 0; }",
        "123 at 1:21",
    ),
    (
        "struct s { struct s *p[2]; }; int main(void) { return 0; }",
        "ok",
    ),
    (
        "struct s { struct s a[2]; }; int main(void) { return 0; }",
        "123 at 1:21",
    ),
    (
        "struct s { struct s (*p)[2]; }; int main(void) { return 0; }",
        "123 at 1:23",
    ),
    (
        "struct s { int a; } x, *p, a[3]; int main(void) { return 0; }",
        "ok",
    ),
    (
        "struct s { int a; }; int f(struct s *p) { return p->a; } int main(void) { return 0; }",
        "ok",
    ),
    (
        "struct s { int a; }; struct s *f(struct s *p) { return p; } int main(void) { return 0; }",
        "ok",
    ),
];

#[test]
fn complete(rt: HostRuntime) -> Result<(), Fail> {
    for (text, expected) in COMPLETE {
        expect_shown(&rt, text, expected)?;
    }
    Ok(())
}

/// Sizes of arrays are constant expressions of value 1 or more.
const SIZES: [(&str, &str); 19] = [
    ("int a[0]; int main(void) { return 0; }", "132 at 1:7"),
    ("int a[3 - 3]; int main(void) { return 0; }", "132 at 1:7"),
    ("int a[-1]; int main(void) { return 0; }", "132 at 1:7"),
    (
        "int n; int a[n]; int main(void) { return 0; }",
        "132 at 1:14",
    ),
    ("int a[y]; int main(void) { return 0; }", "121 at 1:7"),
    ("int a[1 / 0]; int main(void) { return 0; }", "132 at 1:7"),
    ("int a[1 ? 2 : 1 / 0]; int main(void) { return 0; }", "ok"),
    ("int a[1 || 1 / 0]; int main(void) { return 0; }", "ok"),
    (
        "int a[0 && 1 / 0]; int main(void) { return 0; }",
        "132 at 1:7",
    ),
    (
        "int a[2147483647 + 1]; int main(void) { return 0; }",
        "132 at 1:7",
    ),
    ("char a['a']; int main(void) { return 0; }", "ok"),
    ("int a[(char) 300]; int main(void) { return 0; }", "ok"),
    (
        "int a[(char) 200]; int main(void) { return 0; }",
        "132 at 1:7",
    ),
    ("int a[!0 + (2 < 3)]; int main(void) { return 0; }", "ok"),
    (
        "int a[(void *) 0]; int main(void) { return 0; }",
        "132 at 1:7",
    ),
    (
        "int f(int n, int a[n]); int main(void) { return 0; }",
        "132 at 1:20",
    ),
    (
        "int a[getchar()]; int main(void) { return 0; }",
        "132 at 1:7",
    ),
    ("int a[2][0]; int main(void) { return 0; }", "132 at 1:10"),
    (
        "int a[0x10]; int b[010]; int c[1u]; int d[1L]; int main(void) { return 0; }",
        "ok",
    ),
];

#[test]
fn sizes(rt: HostRuntime) -> Result<(), Fail> {
    for (text, expected) in SIZES {
        expect_shown(&rt, text, expected)?;
    }
    Ok(())
}

/// An array or a struct has at most 65,536 cells.
const LIMITS: [(&str, &str); 12] = [
    ("char a[65536]; int main(void) { return 0; }", "ok"),
    ("char a[65537]; int main(void) { return 0; }", "131 at 1:6"),
    ("int *a[65537]; int main(void) { return 0; }", "131 at 1:6"),
    (
        "int (*p)[65537]; int main(void) { return 0; }",
        "131 at 1:7",
    ),
    (
        "int a[256][257]; int main(void) { return 0; }",
        "131 at 1:5",
    ),
    ("int f(int a[65537]); int main(void) { return 0; }", "ok"),
    (
        "int f(int a[2][65537]); int main(void) { return 0; }",
        "131 at 1:11",
    ),
    (
        "struct s { int a[65535]; int b; }; int main(void) { return 0; }",
        "ok",
    ),
    (
        "struct s { int a[65535]; int b[2]; }; int main(void) { return 0; }",
        "131 at 1:8",
    ),
    (
        "struct s { int a[65537]; }; int main(void) { return 0; }",
        "131 at 1:16",
    ),
    (
        "struct s { int a; int b; }; struct s v[32769]; int main(void) { return 0; }",
        "131 at 1:38",
    ),
    ("int main(void) { int a[65537]; return 0; }", "131 at 1:22"),
];

#[test]
fn limits(rt: HostRuntime) -> Result<(), Fail> {
    for (text, expected) in LIMITS {
        expect_shown(&rt, text, expected)?;
    }
    Ok(())
}
