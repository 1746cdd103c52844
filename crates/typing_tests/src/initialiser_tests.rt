//! Initialisers (C11 6.6, 6.7.9).

use crate::shown::expect_shown;
use std::test::Fail;

/// Braces follow the shape of the variable.
const SHAPES: [(&str, &str); 21] = [
    (
        "int a[3] = {1, 2}; int g[2][2] = {{1}, {2, 3}}; int h[] = {1, 2, 3}; int main(void) { return 0; }",
        "ok",
    ),
    (
        "struct s { int m; int k[2]; }; struct s v = {1, {2, 3}}; struct s w[2] = {{1}, {0}}; int main(void) { return 0; }",
        "ok",
    ),
    ("int x = {1}; int main(void) { return 0; }", "132 at 1:9"),
    ("int x = {y}; int main(void) { return 0; }", "121 at 1:10"),
    ("int a[2] = 1; int main(void) { return 0; }", "132 at 1:12"),
    (
        "int a[2] = {1, 2, 3}; int main(void) { return 0; }",
        "132 at 1:19",
    ),
    (
        "int a[2] = {1, 2, 3, y}; int main(void) { return 0; }",
        "132 at 1:19",
    ),
    (
        "int a[2] = {1, 2, y}; int main(void) { return 0; }",
        "121 at 1:19",
    ),
    (
        "int a[2] = {{1}, 2}; int main(void) { return 0; }",
        "132 at 1:13",
    ),
    (
        "int a[2][2] = {1, 2}; int main(void) { return 0; }",
        "132 at 1:16",
    ),
    (
        "int a[2][2] = {0}; int c[2] = {0}; int d[2][2] = {{0}, {1, 2}}; int main(void) { return 0; }",
        "ok",
    ),
    (
        "int a[2][2] = {(0)}; int main(void) { return 0; }",
        "132 at 1:16",
    ),
    (
        "int a[2][2] = {0L}; int main(void) { return 0; }",
        "132 at 1:16",
    ),
    ("int a[2][2] = {0,}; int main(void) { return 0; }", "ok"),
    (
        "int a[] = {0}; int b[1] = {1}; int main(void) { return 0; }",
        "ok",
    ),
    (
        "struct s { int m; }; struct s v = 0; int main(void) { return 0; }",
        "132 at 1:35",
    ),
    (
        "struct s { int *m; int k; }; struct s v = {0}; struct s w = {0, 1}; int main(void) { return 0; }",
        "ok",
    ),
    (
        "int x; int main(void) { int a[2] = {1}; int c[] = {x, 2}; int e = c[0]; return 0; }",
        "ok",
    ),
    (
        "int main(void) { int a[1] = {1, 2}; return 0; }",
        "132 at 1:33",
    ),
    (
        "static int n; int b[3]; struct s { int m; int k[2]; }; struct s v; int main(void) { struct s u = {1, {getchar()}}; u.m = 1; return 0; }",
        "ok",
    ),
    (
        "int *p; int main(void) { int a[2] = {p}; return 0; }",
        "123 at 1:38",
    ),
];

#[test]
fn shapes(rt: HostRuntime) -> Result<(), Fail> {
    for (text, expected) in SHAPES {
        expect_shown(&rt, text, expected)?;
    }
    Ok(())
}

/// What a variable of file scope starts with.
const CONSTANTS: [(&str, &str); 30] = [
    (
        "int x = 1 + 2 * 3; int y = -1; char c = 300; int z = 1 ? 2 : 3; long l = 1 << 3; int e = !1 && 2 || 3 < 4; int main(void) { return 0; }",
        "ok",
    ),
    ("int x = 1 / 0; int main(void) { return 0; }", "132 at 1:9"),
    (
        "int x = 2147483647 + 1; int main(void) { return 0; }",
        "132 at 1:9",
    ),
    (
        "int x = 4294967295U + 1U; int main(void) { return 0; }",
        "ok",
    ),
    (
        "int y; int x = y; int main(void) { return 0; }",
        "132 at 1:16",
    ),
    (
        "int f(void) { return 0; } int x = f(); int main(void) { return 0; }",
        "132 at 1:35",
    ),
    (
        "int f(void); int x = f(); int main(void) { return 0; }",
        "126 at 1:22",
    ),
    (
        "static int n; int b[3]; struct s { int m; int k[2]; }; struct s v; int *p = &n; int *q = b; int *t = &b[1]; int *u = &v.m; int *w = v.k; int main(void) { return 0; }",
        "132 at 1:133",
    ),
    (
        "static int n; int b[3]; struct s { int m; int k[2]; }; struct s v; int *p = 0; int *q = (void *) 0; int *t = &v.k[1]; int *u = &(b)[2]; struct s *w = &v; int main(void) { return 0; }",
        "ok",
    ),
    (
        "static int n; int b[3]; struct s { int m; int k[2]; }; struct s v; int *p = &b[3]; int main(void) { return 0; }",
        "132 at 1:77",
    ),
    (
        "static int n; int b[3]; struct s { int m; int k[2]; }; struct s v; int *p = b + 1; int main(void) { return 0; }",
        "132 at 1:77",
    ),
    (
        "static int n; int b[3]; struct s { int m; int k[2]; }; struct s v; int *p = &b[n]; int main(void) { return 0; }",
        "132 at 1:77",
    ),
    (
        "static int n; int b[3]; struct s { int m; int k[2]; }; struct s v; int *p = &b[1 - 1]; int main(void) { return 0; }",
        "132 at 1:77",
    ),
    (
        "static int n; int b[3]; struct s { int m; int k[2]; }; struct s v; int *p = 1; int main(void) { return 0; }",
        "123 at 1:77",
    ),
    (
        "static int n; int b[3]; struct s { int m; int k[2]; }; struct s v; char *p = &n; int main(void) { return 0; }",
        "123 at 1:78",
    ),
    (
        "static int n; int b[3]; struct s { int m; int k[2]; }; struct s v; int *p = &b['\\0']; int main(void) { return 0; }",
        "ok",
    ),
    (
        "int *p; int *q = p; int main(void) { return 0; }",
        "132 at 1:18",
    ),
    (
        "int *p; int *q = &*p; int main(void) { return 0; }",
        "132 at 1:18",
    ),
    (
        "int g[2][2]; int *p = g[1]; int main(void) { return 0; }",
        "132 at 1:23",
    ),
    (
        "int g[2][2]; int *p = &g[1][1]; int (*q)[2] = &g[1]; int (*r)[2] = g; int main(void) { return 0; }",
        "ok",
    ),
    (
        "struct s { struct s *next; int m; }; struct s v = {&v, 1}; int main(void) { return 0; }",
        "ok",
    ),
    (
        "int b[3]; int *p = &b[(1)]; int main(void) { return 0; }",
        "ok",
    ),
    (
        "int b[99]; int *p = &b[(('A'))]; int main(void) { return 0; }",
        "ok",
    ),
    (
        "int b[3]; int *p = &b[+1]; int main(void) { return 0; }",
        "132 at 1:20",
    ),
    (
        "int b[3]; int *p = &b[(int) 1]; int main(void) { return 0; }",
        "132 at 1:20",
    ),
    (
        "int b[3]; int *p = &(b[+1]); int main(void) { return 0; }",
        "132 at 1:20",
    ),
    (
        "struct s { int k[2]; } v[2]; int *p = &v[+1].k[1]; int main(void) { return 0; }",
        "132 at 1:39",
    ),
    (
        "int b[2][2]; int *p = &b[1][+0]; int main(void) { return 0; }",
        "132 at 1:23",
    ),
    (
        "int b[3]; int *a[2] = {&b[1], &b[+2]}; int main(void) { return 0; }",
        "132 at 1:31",
    ),
    (
        "int b[3]; int main(void) { int *p = &b[+1]; return 0; }",
        "ok",
    ),
];

#[test]
fn constants(rt: HostRuntime) -> Result<(), Fail> {
    for (text, expected) in CONSTANTS {
        expect_shown(&rt, text, expected)?;
    }
    Ok(())
}
