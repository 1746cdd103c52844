//! Names: scopes, declarations, the library, `main` (C11 6.2.1, 6.5.1, 6.7).

use crate::shown::expect_shown;
use std::test::Fail;

/// A name is declared before it is used, in a scope that is open.
const SCOPES: [(&str, &str); 14] = [
    ("int main(void) { x = 1; int x; return 0; }", "121 at 1:18"),
    (
        "int main(void) { { int x; } x = 1; return 0; }",
        "121 at 1:29",
    ),
    (
        "int main(void) { for (int i = 0; i < 2; i++) ; i = 1; return 0; }",
        "121 at 1:48",
    ),
    (
        "int main(void) { int x; { int x; x = 1; } x = 2; return 0; }",
        "ok",
    ),
    (
        "int main(void) { int x; for (int x = 0; x < 1; x++) { int x; x = 2; } return 0; }",
        "ok",
    ),
    (
        "int f(void) { return g(); } int g(void) { return 0; } int main(void) { return 0; }",
        "121 at 1:22",
    ),
    ("int main(void) { return g(y); return 0; }", "121 at 1:25"),
    ("int main(void) { struct t v; return 0; }", "121 at 1:25"),
    (
        "struct s { int a; }; int main(void) { struct s v; v.b = 1; return 0; }",
        "121 at 1:53",
    ),
    (
        "struct s { int a; }; int main(void) { struct s v; struct s *p; p = &v; p->b = 1; return 0; }",
        "121 at 1:75",
    ),
    ("int x = x; int main(void) { return 0; }", "132 at 1:9"),
    ("int main(void) { int x = x; return 0; }", "ok"),
    (
        "int *p = &y; int y; int main(void) { return 0; }",
        "121 at 1:11",
    ),
    (
        "struct s { struct t *p; }; struct t { int a; }; int main(void) { return 0; }",
        "121 at 1:19",
    ),
];

#[test]
fn scopes(rt: HostRuntime) -> Result<(), Fail> {
    for (text, expected) in SCOPES {
        expect_shown(&rt, text, expected)?;
    }
    Ok(())
}

/// One scope declares a name once, but for several declarations of one function.
const TWICE: [(&str, &str); 16] = [
    ("int main(void) { int x; int x; return 0; }", "122 at 1:29"),
    (
        "int f(int a) { int a; return 0; } int main(void) { return 0; }",
        "122 at 1:20",
    ),
    (
        "int f(int a) { { int a; a = 1; } return a; } int main(void) { return 0; }",
        "ok",
    ),
    (
        "int f(int a, int a) { return 0; } int main(void) { return 0; }",
        "122 at 1:18",
    ),
    (
        "int f; int f(void) { return 0; } int main(void) { return 0; }",
        "122 at 1:12",
    ),
    (
        "int f(void) { return 0; } int f; int main(void) { return 0; }",
        "122 at 1:31",
    ),
    (
        "struct s { int a; }; struct s { int b; }; int main(void) { return 0; }",
        "122 at 1:29",
    ),
    (
        "struct s { int a; int a; }; int main(void) { return 0; }",
        "122 at 1:23",
    ),
    ("struct s { int s; } s; int main(void) { return 0; }", "ok"),
    (
        "int f(void); int f(void); int f(void) { return 0; } int f(); int main(void) { return 0; }",
        "ok",
    ),
    (
        "int f(int); long f(int); int main(void) { return 0; }",
        "122 at 1:18",
    ),
    (
        "int f(int); int f(long); int main(void) { return 0; }",
        "122 at 1:17",
    ),
    (
        "int f(int); int f(int, int); int main(void) { return 0; }",
        "122 at 1:17",
    ),
    (
        "int f(void) { return 0; } int f(void) { return 0; } int main(void) { return 0; }",
        "122 at 1:31",
    ),
    (
        "int f(int a[3]); int f(int *a) { return *a; } int main(void) { return 0; }",
        "ok",
    ),
    (
        "int f(const int a); int f(int a) { return a; } int main(void) { return 0; }",
        "ok",
    ),
];

#[test]
fn twice(rt: HostRuntime) -> Result<(), Fail> {
    for (text, expected) in TWICE {
        expect_shown(&rt, text, expected)?;
    }
    Ok(())
}

/// A source declares no name that begins with two underscores.
const RESERVED: [(&str, &str); 10] = [
    (
        "struct __s { int a; }; int main(void) { return 0; }",
        "130 at 1:8",
    ),
    (
        "struct s { int __a; }; int main(void) { return 0; }",
        "130 at 1:16",
    ),
    ("int __f(void); int main(void) { return 0; }", "130 at 1:5"),
    (
        "int f(int __a); int main(void) { return 0; }",
        "130 at 1:11",
    ),
    ("int main(void) { int __x; return 0; }", "130 at 1:22"),
    ("int main(void) { __x = 1; return 0; }", "121 at 1:18"),
    ("int main(void) { int _x; _x = 1; return 0; }", "ok"),
    ("void __x; int main(void) { return 0; }", "123 at 1:6"),
    ("int __a[0]; int main(void) { return 0; }", "132 at 1:9"),
    (
        "int __x; int __x; int main(void) { return 0; }",
        "130 at 1:5",
    ),
];

#[test]
fn reserved(rt: HostRuntime) -> Result<(), Fail> {
    for (text, expected) in RESERVED {
        expect_shown(&rt, text, expected)?;
    }
    Ok(())
}

/// The functions that are known without a declaration (C11 7.21.7.6, 7.21.7.8, 7.22.3.4, 7.22.3.3).
const LIBRARY: [(&str, &str); 18] = [
    (
        "int getchar(void); int putchar(int c); void *malloc(unsigned long n); void free(void *p); int main(void) { return 0; }",
        "ok",
    ),
    (
        "int getchar(int c); int main(void) { return 0; }",
        "122 at 1:5",
    ),
    (
        "int getchar(void) { return 0; } int main(void) { return 0; }",
        "122 at 1:5",
    ),
    (
        "void *malloc(int n); int main(void) { return 0; }",
        "122 at 1:7",
    ),
    (
        "void *malloc(unsigned long n) { return (void *) 0; } int main(void) { return 0; }",
        "122 at 1:7",
    ),
    (
        "void free(void *p) { } int main(void) { return 0; }",
        "123 at 1:17",
    ),
    (
        "void free(void); int main(void) { return 0; }",
        "122 at 1:6",
    ),
    (
        "void *free(void *p); int main(void) { return 0; }",
        "122 at 1:7",
    ),
    ("void *f(int a); int main(void) { return 0; }", "123 at 1:7"),
    (
        "void f(void *p); int main(void) { return 0; }",
        "123 at 1:14",
    ),
    (
        "void free(void **p); int main(void) { return 0; }",
        "123 at 1:18",
    ),
    ("void free(void *); int main(void) { return 0; }", "ok"),
    (
        "void free(void p[2]); int main(void) { return 0; }",
        "123 at 1:16",
    ),
    (
        "void free(const void *p); int main(void) { return 0; }",
        "ok",
    ),
    ("int malloc; int main(void) { return 0; }", "122 at 1:5"),
    (
        "int main(void) { int free; free = getchar(); return 0; }",
        "ok",
    ),
    ("int main(void) { putchar(getchar()); return 0; }", "ok"),
    ("int main(void) { getchar(1); return 0; }", "125 at 1:18"),
];

#[test]
fn library(rt: HostRuntime) -> Result<(), Fail> {
    for (text, expected) in LIBRARY {
        expect_shown(&rt, text, expected)?;
    }
    Ok(())
}

/// `main` is `int main(void)`, and has a body (C11 5.1.2.2.1).
const MAINS: [(&str, &str); 10] = [
    ("int main(int a) { return 0; }", "123 at 1:5"),
    ("void main(void) { }", "123 at 1:6"),
    ("int main;", "123 at 1:5"),
    ("int main(void);", "127 at 0:0"),
    ("", "127 at 0:0"),
    ("int x = y;", "121 at 1:9"),
    ("int f(void) { return 0; }", "127 at 0:0"),
    ("int main() { return 0; }", "ok"),
    (
        "int f(void) { int main; return main(); } int main(void) { return 0; }",
        "123 at 1:32",
    ),
    (
        "int main(void); int f(void) { return main(); }",
        "126 at 1:38",
    ),
];

#[test]
fn mains(rt: HostRuntime) -> Result<(), Fail> {
    for (text, expected) in MAINS {
        expect_shown(&rt, text, expected)?;
    }
    Ok(())
}
