//! Assignments, structs as values, calls (C11 6.5.2.2, 6.5.16).

use crate::shown::expect_shown;
use std::test::Fail;

/// The left side is an lvalue of integer or pointer type.
const TARGETS: [(&str, &str); 17] = [
    (
        "int x; int *p; int *q; char *c; int a[3]; int main(void) { x = 1; p = &x; a[1] = 2; *p = 3; (x) = 4; ((x))++; --*p; return 0; }",
        "ok",
    ),
    (
        "int x; int *p; int *q; char *c; int a[3]; int main(void) { 1 = x; return 0; }",
        "124 at 1:62",
    ),
    (
        "int x; int *p; int *q; char *c; int a[3]; int main(void) { a = p; return 0; }",
        "124 at 1:62",
    ),
    (
        "int x; int *p; int *q; char *c; int a[3]; int main(void) { x + 1 = 2; return 0; }",
        "111 at 1:66",
    ),
    (
        "int x; int *p; int *q; char *c; int a[3]; int main(void) { -x = 2; return 0; }",
        "124 at 1:63",
    ),
    (
        "int f(void) { return 0; } int x; int *p; int *q; char *c; int a[3]; int main(void) { f() = 1; return 0; }",
        "124 at 1:90",
    ),
    (
        "int x; int *p; int *q; char *c; int a[3]; int main(void) { 3 = p; return 0; }",
        "124 at 1:62",
    ),
    (
        "int x; int *p; int *q; char *c; int a[3]; int main(void) { x++; p--; ++c; --a[0]; return 0; }",
        "ok",
    ),
    (
        "int x; int *p; int *q; char *c; int a[3]; int main(void) { a++; return 0; }",
        "124 at 1:61",
    ),
    (
        "int x; int *p; int *q; char *c; int a[3]; int main(void) { ++1; return 0; }",
        "124 at 1:60",
    ),
    (
        "int x; int *p; int *q; char *c; int a[3]; int main(void) { x++++; return 0; }",
        "124 at 1:63",
    ),
    (
        "struct s { int m; }; struct s s; struct s t; struct s *sp; int main(void) { s = 1; return 0; }",
        "124 at 1:79",
    ),
    (
        "struct s { int m; }; struct s s; struct s t; struct s *sp; int main(void) { s = t; return 0; }",
        "129 at 1:81",
    ),
    (
        "struct s { int m; }; struct s s; struct s t; struct s *sp; int main(void) { s++; return 0; }",
        "124 at 1:78",
    ),
    (
        "int y; int x; int *p; int *q; char *c; int a[3]; int main(void) { x = y = 1; return 0; }",
        "ok",
    ),
    (
        "int x; int *p; int *q; char *c; int a[3]; int main(void) { x = 1 = 2; return 0; }",
        "124 at 1:66",
    ),
    (
        "const int z = 3; int x; int *p; int *q; char *c; int a[3]; int main(void) { z = 1; return 0; }",
        "ok",
    ),
];

#[test]
fn targets(rt: HostRuntime) -> Result<(), Fail> {
    for (text, expected) in TARGETS {
        expect_shown(&rt, text, expected)?;
    }
    Ok(())
}

/// Compound assignment takes the operands of its operator.
const COMPOUNDS: [(&str, &str); 10] = [
    (
        "int x; int *p; int *q; char *c; int a[3]; int main(void) { x += 1; x <<= 2; x %= 3; p += 2; p -= x; x -= *p; return 0; }",
        "ok",
    ),
    (
        "int x; int *p; int *q; char *c; int a[3]; int main(void) { p *= 2; return 0; }",
        "123 at 1:62",
    ),
    (
        "int x; int *p; int *q; char *c; int a[3]; int main(void) { p += q; return 0; }",
        "123 at 1:62",
    ),
    (
        "int x; int *p; int *q; char *c; int a[3]; int main(void) { x += p; return 0; }",
        "123 at 1:62",
    ),
    (
        "int x; int *p; int *q; char *c; int a[3]; int main(void) { p -= q; return 0; }",
        "123 at 1:62",
    ),
    (
        "struct s { int m; }; struct s s; struct s t; struct s *sp; int main(void) { s += 1; return 0; }",
        "123 at 1:79",
    ),
    (
        "int x; int *p; int *q; char *c; int a[3]; int main(void) { 3 *= p; return 0; }",
        "123 at 1:62",
    ),
    (
        "int x; int *p; int *q; char *c; int a[3]; int main(void) { 3 += 1; return 0; }",
        "124 at 1:62",
    ),
    (
        "int x; int *p; int *q; char *c; int a[3]; int main(void) { a += 1; return 0; }",
        "124 at 1:62",
    ),
    (
        "int x; struct s { int m; }; struct s s; struct s t; struct s *sp; int main(void) { x += s; return 0; }",
        "129 at 1:89",
    ),
];

#[test]
fn compounds(rt: HostRuntime) -> Result<(), Fail> {
    for (text, expected) in COMPOUNDS {
        expect_shown(&rt, text, expected)?;
    }
    Ok(())
}

/// Values are converted as if by assignment.
const CONVERSIONS: [(&str, &str); 17] = [
    (
        "int x; int *p; int *q; char *c; int a[3]; int main(void) { x = c[0]; c[0] = x; p = 0; p = (void *) 0; p = (0); p = a; return 0; }",
        "ok",
    ),
    (
        "int x; int *p; int *q; char *c; int a[3]; int main(void) { p = 1; return 0; }",
        "123 at 1:62",
    ),
    (
        "int x; int *p; int *q; char *c; int a[3]; int main(void) { p = 0L; return 0; }",
        "123 at 1:62",
    ),
    (
        "int x; int *p; int *q; char *c; int a[3]; int main(void) { p = 00; return 0; }",
        "123 at 1:62",
    ),
    (
        "int x; int *p; int *q; char *c; int a[3]; int main(void) { p = '\\0'; return 0; }",
        "123 at 1:62",
    ),
    (
        "int x; int *p; int *q; char *c; int a[3]; int main(void) { p = 1 - 1; return 0; }",
        "123 at 1:62",
    ),
    (
        "int x; int *p; int *q; char *c; int a[3]; int main(void) { x = p; return 0; }",
        "123 at 1:62",
    ),
    (
        "int x; int *p; int *q; char *c; int a[3]; int main(void) { p = c; return 0; }",
        "123 at 1:62",
    ),
    (
        "void f(void) { } int x; int *p; int *q; char *c; int a[3]; int main(void) { x = f(); return 0; }",
        "123 at 1:79",
    ),
    (
        "int f(int b) { return b; } int x; int *p; int *q; char *c; int a[3]; int main(void) { f(p); return 0; }",
        "123 at 1:89",
    ),
    (
        "int f(int b, char *d) { return b; } int x; int *p; int *q; char *c; int a[3]; int main(void) { f(1, p); return 0; }",
        "123 at 1:101",
    ),
    (
        "int f(int *b) { return 0; } int x; int *p; int *q; char *c; int a[3]; int main(void) { f(0); f(p); f((void *) 0); f(a); return 0; }",
        "ok",
    ),
    (
        "int x; int *p; int *q; char *c; int a[3]; int main(void) { int y = p; return 0; }",
        "123 at 1:68",
    ),
    (
        "int x; int *p; int *q; char *c; int a[3]; int main(void) { int *r = 0; int *t = &x; return 0; }",
        "ok",
    ),
    (
        "int x; int *p; int *q; char *c; int a[3]; int main(void) { return p; return 0; }",
        "123 at 1:67",
    ),
    (
        "int *f(void) { return 0; } char g(void) { return 300; } int main(void) { return 0; }",
        "ok",
    ),
    (
        "int *f(void) { return 1; } int main(void) { return 0; }",
        "123 at 1:23",
    ),
];

#[test]
fn conversions(rt: HostRuntime) -> Result<(), Fail> {
    for (text, expected) in CONVERSIONS {
        expect_shown(&rt, text, expected)?;
    }
    Ok(())
}

/// A struct is no value.
const STRUCTURES: [(&str, &str); 9] = [
    (
        "struct s { int m; }; struct s s; struct s t; struct s *sp; int main(void) { s; return 0; }",
        "129 at 1:77",
    ),
    (
        "struct s { int m; }; struct s s; struct s t; struct s *sp; int main(void) { s == t; return 0; }",
        "129 at 1:77",
    ),
    (
        "int f(int b) { return b; } struct s { int m; }; struct s s; struct s t; struct s *sp; int main(void) { f(s); return 0; }",
        "129 at 1:106",
    ),
    (
        "struct s { int m; }; struct s s; struct s t; struct s *sp; int main(void) { struct s u = s; return 0; }",
        "129 at 1:90",
    ),
    (
        "struct s { int m; }; struct s s; struct s t; struct s *sp; int main(void) { return s; return 0; }",
        "129 at 1:84",
    ),
    (
        "struct s { int m; }; struct s s; struct s t; struct s *sp; struct s f(void) { return s; } int main(void) { return 0; }",
        "129 at 1:69",
    ),
    (
        "struct s { int m; }; struct s s; struct s t; struct s *sp; int f(struct s v) { return 0; } int main(void) { return 0; }",
        "129 at 1:75",
    ),
    (
        "struct s { int m; }; struct s s; struct s t; struct s *sp; int f(struct s); int main(void) { return 0; }",
        "129 at 1:66",
    ),
    (
        "int x; struct s { int m; }; struct s s; struct s t; struct s *sp; struct o { struct s s; } s1; int main(void) { x = s1.s.m; x = &s1.s == &s; return 0; }",
        "ok",
    ),
];

#[test]
fn structures(rt: HostRuntime) -> Result<(), Fail> {
    for (text, expected) in STRUCTURES {
        expect_shown(&rt, text, expected)?;
    }
    Ok(())
}

/// Calls name a function with a body, and have an argument for each parameter.
const CALLS: [(&str, &str); 15] = [
    (
        "int f(int b, int d) { return 0; } int main(void) { f(1); return 0; }",
        "125 at 1:52",
    ),
    (
        "int f(int b, int d) { return 0; } int main(void) { f(1, 2, 3); return 0; }",
        "125 at 1:52",
    ),
    (
        "int f(int b, int d) { return 0; } int x; int *p; int *q; char *c; int a[3]; int main(void) { f(p, 2, 3); return 0; }",
        "123 at 1:96",
    ),
    (
        "int f(int b, int d) { return 0; } int main(void) { f(1, 2, y); return 0; }",
        "121 at 1:60",
    ),
    (
        "int f(int b); int main(void) { f(1); return 0; }",
        "126 at 1:32",
    ),
    (
        "int f(int b); int main(void) { return f(1); } int f(int b) { return b; }",
        "ok",
    ),
    (
        "int f(int b); int main(void) { f(); return 0; }",
        "125 at 1:32",
    ),
    ("int main(void) { main(); return 0; }", "128 at 1:18"),
    ("int main(void) { main(1); return 0; }", "125 at 1:18"),
    ("int x; int main(void) { x(); return 0; }", "123 at 1:25"),
    ("int x; int main(void) { x(y); return 0; }", "121 at 1:27"),
    (
        "int f(void) { return 0; } int main(void) { f; return 0; }",
        "123 at 1:44",
    ),
    (
        "int f(void) { return 0; } int main(void) { f = 1; return 0; }",
        "123 at 1:44",
    ),
    ("int main(void) { putchar; return 0; }", "123 at 1:18"),
    (
        "int f(int n) { return n ? f(n - 1) : 0; } int main(void) { return f(3); }",
        "ok",
    ),
];

#[test]
fn calls(rt: HostRuntime) -> Result<(), Fail> {
    for (text, expected) in CALLS {
        expect_shown(&rt, text, expected)?;
    }
    Ok(())
}
