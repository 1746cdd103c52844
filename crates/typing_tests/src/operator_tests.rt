//! Operators (C11 6.5.3 to 6.5.15).

use crate::shown::expect_shown;
use std::test::Fail;

/// Operators that take integers alone.
const INTEGERS: [(&str, &str); 12] = [
    (
        "int x; int *p; int *q; char *c; int a[3]; int main(void) { x = x * 2 / 3 % 4 << 1 >> 1 & 7 ^ 1 | 2; return 0; }",
        "ok",
    ),
    (
        "int x; int *p; int *q; char *c; int a[3]; int main(void) { x = p * 2; return 0; }",
        "123 at 1:66",
    ),
    (
        "int x; int *p; int *q; char *c; int a[3]; int main(void) { x = 2 % p; return 0; }",
        "123 at 1:66",
    ),
    (
        "int x; int *p; int *q; char *c; int a[3]; int main(void) { x = x << p; return 0; }",
        "123 at 1:66",
    ),
    (
        "int x; int *p; int *q; char *c; int a[3]; int main(void) { x = x & p; return 0; }",
        "123 at 1:66",
    ),
    (
        "int x; int *p; int *q; char *c; int a[3]; int main(void) { x = x | a; return 0; }",
        "123 at 1:66",
    ),
    (
        "int x; int *p; int *q; char *c; int a[3]; int main(void) { x = +x; x = -x; x = ~x; x = !x; return 0; }",
        "ok",
    ),
    (
        "int x; int *p; int *q; char *c; int a[3]; int main(void) { x = -p; return 0; }",
        "123 at 1:64",
    ),
    (
        "int x; int *p; int *q; char *c; int a[3]; int main(void) { x = +p; return 0; }",
        "123 at 1:64",
    ),
    (
        "int x; int *p; int *q; char *c; int a[3]; int main(void) { x = ~p; return 0; }",
        "123 at 1:64",
    ),
    (
        "int x; int *p; int *q; char *c; int a[3]; int main(void) { x = !p; return 0; }",
        "ok",
    ),
    (
        "void f(void) { } int x; int *p; int *q; char *c; int a[3]; int main(void) { x = !f(); return 0; }",
        "123 at 1:81",
    ),
];

#[test]
fn integers(rt: HostRuntime) -> Result<(), Fail> {
    for (text, expected) in INTEGERS {
        expect_shown(&rt, text, expected)?;
    }
    Ok(())
}

/// `+`, `-`, relations and `! && ||` on pointers.
const POINTERS: [(&str, &str); 15] = [
    (
        "int x; int *p; int *q; char *c; int a[3]; int main(void) { p = p + 1; p = 1 + p; p = a + x; p = p - 1; return 0; }",
        "ok",
    ),
    (
        "int x; int *p; int *q; char *c; int a[3]; int main(void) { p = 1 - p; return 0; }",
        "123 at 1:66",
    ),
    (
        "int x; int *p; int *q; char *c; int a[3]; int main(void) { p = p + q; return 0; }",
        "123 at 1:66",
    ),
    (
        "int x; int *p; int *q; char *c; int a[3]; int main(void) { x = p - q; x = p - a; return 0; }",
        "ok",
    ),
    (
        "int x; int *p; int *q; char *c; int a[3]; int main(void) { x = p - c; return 0; }",
        "123 at 1:66",
    ),
    (
        "int x; int *p; int *q; char *c; int a[3]; int main(void) { x = p < q; x = p == q; x = a <= p; return 0; }",
        "ok",
    ),
    (
        "int x; int *p; int *q; char *c; int a[3]; int main(void) { x = p < c; return 0; }",
        "123 at 1:66",
    ),
    (
        "int x; int *p; int *q; char *c; int a[3]; int main(void) { x = p == c; return 0; }",
        "123 at 1:66",
    ),
    (
        "int x; int *p; int *q; char *c; int a[3]; int main(void) { x = p == 0; x = 0 != p; x = p == (void *) 0; x = (void *) 0 == p; return 0; }",
        "ok",
    ),
    (
        "int x; int *p; int *q; char *c; int a[3]; int main(void) { x = p == 1; return 0; }",
        "123 at 1:66",
    ),
    (
        "int x; int *p; int *q; char *c; int a[3]; int main(void) { x = p < 0; return 0; }",
        "123 at 1:66",
    ),
    (
        "int x; int *p; int *q; char *c; int a[3]; int main(void) { x = (void *) 0 == 0; x = (void *) 0 < (void *) 0; return 0; }",
        "ok",
    ),
    (
        "int x; int *p; int *q; char *c; int a[3]; int main(void) { x = p && x; x = !p || a; return 0; }",
        "ok",
    ),
    (
        "void f(void) { } int x; int *p; int *q; char *c; int a[3]; int main(void) { x = x && f(); return 0; }",
        "123 at 1:83",
    ),
    (
        "int x; int *p; int *q; char *c; int a[3]; int main(void) { x = (void *) 0 + 1; return 0; }",
        "123 at 1:75",
    ),
];

#[test]
fn pointers(rt: HostRuntime) -> Result<(), Fail> {
    for (text, expected) in POINTERS {
        expect_shown(&rt, text, expected)?;
    }
    Ok(())
}

/// `? :`, and conditions.
const SELECTIONS: [(&str, &str); 10] = [
    (
        "int x; int *p; int *q; char *c; int a[3]; int main(void) { x = x ? 1 : 2; p = x ? p : q; p = x ? p : 0; p = x ? (void *) 0 : p; p = p ? 0 : 0; return 0; }",
        "123 at 1:131",
    ),
    (
        "int x; int *p; int *q; char *c; int a[3]; int main(void) { x ? (void) 1 : (void) 2; return 0; }",
        "ok",
    ),
    (
        "int x; int *p; int *q; char *c; int a[3]; int main(void) { p = x ? p : 1; return 0; }",
        "123 at 1:66",
    ),
    (
        "int x; int *p; int *q; char *c; int a[3]; int main(void) { p = x ? p : c; return 0; }",
        "123 at 1:66",
    ),
    (
        "int x; int *p; int *q; char *c; int a[3]; int main(void) { x ? (void) 1 : 2; return 0; }",
        "123 at 1:62",
    ),
    (
        "int x; int *p; int *q; char *c; int a[3]; int main(void) { (void) 1 ? 1 : 2; return 0; }",
        "123 at 1:60",
    ),
    (
        "struct s { int m; }; struct s s; struct s t; struct s *sp; int main(void) { s ? 1 : 2; return 0; }",
        "129 at 1:77",
    ),
    (
        "int x; int *p; int *q; char *c; int a[3]; int main(void) { if (p) ; while (a) break; for (; c; ) break; do ; while (x); return 0; }",
        "ok",
    ),
    (
        "int x; int *p; int *q; char *c; int a[3]; int main(void) { if ((void) 1) ; return 0; }",
        "123 at 1:64",
    ),
    (
        "struct s { int m; }; struct s s; struct s t; struct s *sp; int main(void) { while (s) ; return 0; }",
        "129 at 1:84",
    ),
];

#[test]
fn selections(rt: HostRuntime) -> Result<(), Fail> {
    for (text, expected) in SELECTIONS {
        expect_shown(&rt, text, expected)?;
    }
    Ok(())
}

/// `&`, `*`, `[ ]`, `.` and `->`.
const PLACES: [(&str, &str); 18] = [
    (
        "int x; int *p; int *q; char *c; int a[3]; int main(void) { p = &x; p = &a[1]; p = &*p; p = &(x); return 0; }",
        "ok",
    ),
    (
        "int x; int *p; int *q; char *c; int a[3]; int main(void) { p = &1; return 0; }",
        "124 at 1:64",
    ),
    (
        "int x; int *p; int *q; char *c; int a[3]; int main(void) { p = &(x + 1); return 0; }",
        "124 at 1:64",
    ),
    (
        "int x; int *p; int *q; char *c; int a[3]; int main(void) { p = &main; return 0; }",
        "123 at 1:65",
    ),
    (
        "int x; int *p; int *q; char *c; int a[3]; int main(void) { x = *p + *a; return 0; }",
        "ok",
    ),
    (
        "int x; int *p; int *q; char *c; int a[3]; int main(void) { x = *x; return 0; }",
        "123 at 1:64",
    ),
    (
        "int x; int *p; int *q; char *c; int a[3]; int main(void) { x = *(void *) 0; return 0; }",
        "123 at 1:64",
    ),
    (
        "int x; int *p; int *q; char *c; int a[3]; int main(void) { x = a[1] + p[x] + (a + 1)[0]; return 0; }",
        "ok",
    ),
    (
        "int x; int *p; int *q; char *c; int a[3]; int main(void) { x = 1[a]; return 0; }",
        "123 at 1:65",
    ),
    (
        "int x; int *p; int *q; char *c; int a[3]; int main(void) { x = a[p]; return 0; }",
        "123 at 1:65",
    ),
    (
        "int x; int *p; int *q; char *c; int a[3]; int main(void) { x = x[0]; return 0; }",
        "123 at 1:65",
    ),
    (
        "int x; int *p; int *q; char *c; int a[3]; int main(void) { x = ((void *) 0)[0]; return 0; }",
        "123 at 1:76",
    ),
    (
        "struct s { int m; }; struct s s; struct s t; struct s *sp; int main(void) { s.m = sp->m; sp = &s; (*sp).m = 1; return 0; }",
        "ok",
    ),
    (
        "struct s { int m; }; struct s s; struct s t; struct s *sp; int main(void) { sp.m = 1; return 0; }",
        "123 at 1:79",
    ),
    (
        "struct s { int m; }; struct s s; struct s t; struct s *sp; int main(void) { sp.__m = 1; return 0; }",
        "123 at 1:79",
    ),
    (
        "struct s { int m; }; struct s s; struct s t; struct s *sp; int main(void) { s->m = 1; return 0; }",
        "129 at 1:77",
    ),
    (
        "int x; struct s { int m; }; struct s s; struct s t; struct s *sp; int main(void) { x->m = 1; return 0; }",
        "123 at 1:85",
    ),
    (
        "struct s { int m; }; struct s s; struct s t; struct s *sp; int main(void) { *s; return 0; }",
        "129 at 1:78",
    ),
];

#[test]
fn places(rt: HostRuntime) -> Result<(), Fail> {
    for (text, expected) in PLACES {
        expect_shown(&rt, text, expected)?;
    }
    Ok(())
}

/// Casts go from integers to integers, and from anything to `void`.
const CASTS: [(&str, &str); 12] = [
    (
        "void f(void) { } int x; int *p; int *q; char *c; int a[3]; int main(void) { x = (char) x; x = (int) 1L; (void) x; (void) p; (void) f(); return 0; }",
        "ok",
    ),
    (
        "int x; int *p; int *q; char *c; int a[3]; int main(void) { x = (int) p; return 0; }",
        "123 at 1:64",
    ),
    (
        "int x; int *p; int *q; char *c; int a[3]; int main(void) { p = (int *) q; return 0; }",
        "123 at 1:64",
    ),
    (
        "int x; int *p; int *q; char *c; int a[3]; int main(void) { p = (int *) 0; return 0; }",
        "123 at 1:64",
    ),
    (
        "int x; int *p; int *q; char *c; int a[3]; int main(void) { p = (void *) q; return 0; }",
        "123 at 1:64",
    ),
    (
        "int x; int *p; int *q; char *c; int a[3]; int main(void) { p = (void *) 1; return 0; }",
        "123 at 1:64",
    ),
    (
        "int x; int *p; int *q; char *c; int a[3]; int main(void) { p = (void *) (0); return 0; }",
        "ok",
    ),
    (
        "int x; int *p; int *q; char *c; int a[3]; int main(void) { p = ((void *) ((0))); return 0; }",
        "ok",
    ),
    (
        "int x; int *p; int *q; char *c; int a[3]; int main(void) { p = (void *) (void *) 0; return 0; }",
        "123 at 1:64",
    ),
    (
        "int x; int *p; int *q; char *c; int a[3]; int main(void) { p = (void *) 00; return 0; }",
        "123 at 1:64",
    ),
    (
        "int x; struct s { int m; }; struct s s; struct s t; struct s *sp; int main(void) { x = (struct s) 1; return 0; }",
        "123 at 1:88",
    ),
    (
        "struct s { int m; }; struct s s; struct s t; struct s *sp; int main(void) { (void) s; return 0; }",
        "129 at 1:84",
    ),
];

#[test]
fn casts(rt: HostRuntime) -> Result<(), Fail> {
    for (text, expected) in CASTS {
        expect_shown(&rt, text, expected)?;
    }
    Ok(())
}
