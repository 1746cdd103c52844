//! `malloc`, `free` and `sizeof` (C11 6.5.3.4, 7.22.3).

use crate::shown::expect_shown;
use std::test::Fail;

/// The argument of `malloc` is S, E * S or S * E, where S is a `sizeof`.
const REQUESTS: [(&str, &str); 22] = [
    (
        "int x; int *p; int *q; char *c; int a[3]; int main(void) { p = malloc(sizeof(int)); p = malloc(2 * sizeof(int)); p = malloc(sizeof(int) * 2); p = malloc(x * 2 * sizeof *p); p = malloc((sizeof x)); return 0; }",
        "ok",
    ),
    (
        "int x; int *p; int *q; char *c; int a[3]; int main(void) { p = malloc(((2 * (sizeof(int))))); return 0; }",
        "ok",
    ),
    (
        "int x; int *p; int *q; char *c; int a[3]; int main(void) { p = malloc(sizeof(int) * (x * 2)); return 0; }",
        "ok",
    ),
    (
        "int x; int *p; int *q; char *c; int a[3]; int main(void) { p = malloc(x / 2 * sizeof(int)); return 0; }",
        "ok",
    ),
    (
        "int x; int *p; int *q; char *c; int a[3]; int main(void) { p = malloc(sizeof a[0]); p = malloc(sizeof(x) * 2); return 0; }",
        "ok",
    ),
    (
        "int x; int *p; int *q; char *c; int a[3]; int main(void) { p = malloc(5); return 0; }",
        "123 at 1:64",
    ),
    (
        "int x; int *p; int *q; char *c; int a[3]; int main(void) { p = malloc(y); return 0; }",
        "121 at 1:71",
    ),
    (
        "int x; int *p; int *q; char *c; int a[3]; struct s { int m; }; struct s s; struct s t; struct s *sp; int main(void) { p = malloc(s); return 0; }",
        "129 at 1:130",
    ),
    (
        "int x; int *p; int *q; char *c; int a[3]; int main(void) { p = malloc(x * sizeof(int) * x); return 0; }",
        "123 at 1:75",
    ),
    (
        "int x; int *p; int *q; char *c; int a[3]; int main(void) { p = malloc(sizeof(int) * x * x); return 0; }",
        "123 at 1:71",
    ),
    (
        "int x; int *p; int *q; char *c; int a[3]; int main(void) { p = malloc(sizeof(int) * sizeof(int)); return 0; }",
        "123 at 1:71",
    ),
    (
        "int x; int *p; int *q; char *c; int a[3]; int main(void) { p = malloc(sizeof(int) + 1); return 0; }",
        "123 at 1:71",
    ),
    (
        "int x; int *p; int *q; char *c; int a[3]; int main(void) { p = malloc(sizeof(int) / 2); return 0; }",
        "123 at 1:71",
    ),
    (
        "int x; int *p; int *q; char *c; int a[3]; int main(void) { p = malloc(-sizeof(int)); return 0; }",
        "123 at 1:72",
    ),
    (
        "int x; int *p; int *q; char *c; int a[3]; int main(void) { p = malloc((int) sizeof(int)); return 0; }",
        "123 at 1:77",
    ),
    (
        "int x; int *p; int *q; char *c; int a[3]; int main(void) { p = malloc(p * sizeof(int)); return 0; }",
        "123 at 1:73",
    ),
    (
        "int x; int *p; int *q; char *c; int a[3]; int main(void) { p = malloc(sizeof(int) * p); return 0; }",
        "123 at 1:83",
    ),
    (
        "int x; int *p; int *q; char *c; int a[3]; int main(void) { p = malloc(y * sizeof(int)); return 0; }",
        "121 at 1:71",
    ),
    (
        "int x; int *p; int *q; char *c; int a[3]; int main(void) { p = malloc(y * sizeof(struct t)); return 0; }",
        "121 at 1:71",
    ),
    (
        "int x; int *p; int *q; char *c; int a[3]; int main(void) { p = malloc(p * sizeof(struct t)); return 0; }",
        "121 at 1:89",
    ),
    (
        "int x; int *p; int *q; char *c; int a[3]; int main(void) { p = malloc(p * sizeof a); return 0; }",
        "123 at 1:73",
    ),
    (
        "int x; int *p; int *q; char *c; int a[3]; int main(void) { p = malloc(sizeof(struct t) * y); return 0; }",
        "121 at 1:85",
    ),
];

#[test]
fn requests(rt: HostRuntime) -> Result<(), Fail> {
    for (text, expected) in REQUESTS {
        expect_shown(&rt, text, expected)?;
    }
    Ok(())
}

/// The type is complete, one that a type name spells, and not `void`.
const OBJECTS: [(&str, &str); 13] = [
    (
        "struct s { int m; }; struct s s; struct s t; struct s *sp; int main(void) { sp = malloc(sizeof(struct s)); sp = malloc(3 * sizeof *sp); sp = malloc(sizeof s); return 0; }",
        "ok",
    ),
    (
        "int x; int *p; int *q; char *c; int a[3]; int main(void) { int **pp = malloc(4 * sizeof(int *)); int **pq = malloc(sizeof p); return 0; }",
        "ok",
    ),
    (
        "int x; int *p; int *q; char *c; int a[3]; int main(void) { p = malloc(sizeof a); return 0; }",
        "123 at 1:64",
    ),
    (
        "int x; int *p; int *q; char *c; int a[3]; int main(void) { malloc(sizeof(void)); return 0; }",
        "123 at 1:60",
    ),
    (
        "int x; int *p; int *q; char *c; int a[3]; int main(void) { malloc(sizeof(void *)); return 0; }",
        "123 at 1:60",
    ),
    (
        "int x; int *p; int *q; char *c; int a[3]; int main(void) { malloc(2 * sizeof &a); return 0; }",
        "123 at 1:60",
    ),
    (
        "void f(void) { } int x; int *p; int *q; char *c; int a[3]; int main(void) { malloc(sizeof f()); return 0; }",
        "123 at 1:77",
    ),
    (
        "int x; int *p; int *q; char *c; int a[3]; int main(void) { malloc(sizeof 0); return 0; }",
        "ok",
    ),
    (
        "int f(void) { return 0; } int x; int *p; int *q; char *c; int a[3]; int main(void) { malloc(sizeof f); return 0; }",
        "123 at 1:100",
    ),
    (
        "int x; int *p; int *q; char *c; int a[3]; int main(void) { malloc(sizeof(sizeof(int))); return 0; }",
        "123 at 1:74",
    ),
    (
        "int x; int *p; int *q; char *c; int a[3]; int main(void) { c = malloc(sizeof(int)); return 0; }",
        "123 at 1:62",
    ),
    (
        "int x; int *p; int *q; char *c; int a[3]; int main(void) { x = malloc(sizeof(int)); return 0; }",
        "123 at 1:62",
    ),
    (
        "int x; int *p; int *q; char *c; int a[3]; struct s { int m; }; struct s s; struct s t; struct s *sp; int main(void) { p = malloc(sizeof(int)) + 1; *malloc(sizeof(int)) = 2; malloc(sizeof(struct s))->m = 1; return 0; }",
        "ok",
    ),
];

#[test]
fn objects(rt: HostRuntime) -> Result<(), Fail> {
    for (text, expected) in OBJECTS {
        expect_shown(&rt, text, expected)?;
    }
    Ok(())
}

/// A cast to its own type may stand before a call of `malloc`.
const ALLOCATIONCASTS: [(&str, &str); 7] = [
    (
        "int x; int *p; int *q; char *c; int a[3]; int main(void) { p = (int *) malloc(sizeof(int)); p = (int *) (malloc(sizeof(int))); p = ((int *) ((malloc(sizeof *p)))); return 0; }",
        "ok",
    ),
    (
        "int x; int *p; int *q; char *c; int a[3]; int main(void) { p = (char *) malloc(sizeof(int)); return 0; }",
        "123 at 1:64",
    ),
    (
        "int x; int *p; int *q; char *c; int a[3]; int main(void) { p = (void *) malloc(sizeof(int)); return 0; }",
        "123 at 1:64",
    ),
    (
        "int x; int *p; int *q; char *c; int a[3]; int main(void) { p = (int *) (int *) malloc(sizeof(int)); return 0; }",
        "123 at 1:64",
    ),
    (
        "int x; int *p; int *q; char *c; int a[3]; int main(void) { p = (int *) (malloc(sizeof(int)) + 1); return 0; }",
        "123 at 1:64",
    ),
    (
        "int x; int *p; int *q; char *c; int a[3]; int main(void) { (void) malloc(sizeof(int)); return 0; }",
        "ok",
    ),
    (
        "struct s { int m; }; struct s s; struct s t; struct s *sp; int main(void) { sp = (struct s *) malloc(sizeof(struct s)); return 0; }",
        "ok",
    ),
];

#[test]
fn allocationcasts(rt: HostRuntime) -> Result<(), Fail> {
    for (text, expected) in ALLOCATIONCASTS {
        expect_shown(&rt, text, expected)?;
    }
    Ok(())
}

/// `free` takes a pointer of any type, or a null pointer constant.
const RELEASES: [(&str, &str); 15] = [
    (
        "int x; int *p; int *q; char *c; int a[3]; int main(void) { free(p); free(c); free(a); free(0); free((void *) 0); free(malloc(sizeof(int))); return 0; }",
        "ok",
    ),
    (
        "struct s { int m; }; struct s s; struct s t; struct s *sp; int main(void) { free(sp); free(&s); return 0; }",
        "ok",
    ),
    (
        "int x; int *p; int *q; char *c; int a[3]; int main(void) { free(1); return 0; }",
        "123 at 1:60",
    ),
    (
        "int x; int *p; int *q; char *c; int a[3]; int main(void) { free(x); return 0; }",
        "123 at 1:60",
    ),
    (
        "void f(void) { } int x; int *p; int *q; char *c; int a[3]; int main(void) { free(f()); return 0; }",
        "123 at 1:77",
    ),
    (
        "struct s { int m; }; struct s s; struct s t; struct s *sp; int main(void) { free(s); return 0; }",
        "129 at 1:82",
    ),
    (
        "int x; int *p; int *q; char *c; int a[3]; int main(void) { x = free(p); return 0; }",
        "123 at 1:62",
    ),
    (
        "int x; int *p; int *q; char *c; int a[3]; int main(void) { free(); return 0; }",
        "125 at 1:60",
    ),
    (
        "int x; int *p; int *q; char *c; int a[3]; int main(void) { free(p, q); return 0; }",
        "125 at 1:60",
    ),
    (
        "int x; int *p; int *q; char *c; int a[3]; int main(void) { free(p, y); return 0; }",
        "121 at 1:68",
    ),
    (
        "int x; int *p; int *q; char *c; int a[3]; int main(void) { malloc(); return 0; }",
        "125 at 1:60",
    ),
    (
        "int x; int *p; int *q; char *c; int a[3]; int main(void) { malloc(1, 2); return 0; }",
        "125 at 1:60",
    ),
    (
        "int x; int *p; int *q; char *c; int a[3]; int main(void) { malloc(p, p); return 0; }",
        "125 at 1:60",
    ),
    (
        "int x; int *p; int *q; char *c; int a[3]; int main(void) { malloc(1, sizeof(int)); return 0; }",
        "123 at 1:70",
    ),
    (
        "int x; int *p; int *q; char *c; int a[3]; int main(void) { free(sizeof(int)); return 0; }",
        "123 at 1:65",
    ),
];

#[test]
fn releases(rt: HostRuntime) -> Result<(), Fail> {
    for (text, expected) in RELEASES {
        expect_shown(&rt, text, expected)?;
    }
    Ok(())
}

/// A `sizeof` anywhere else.
const ELSEWHERE: [(&str, &str); 9] = [
    (
        "int x; int *p; int *q; char *c; int a[3]; int main(void) { x = sizeof x; return 0; }",
        "123 at 1:64",
    ),
    (
        "int x; int *p; int *q; char *c; int a[3]; int main(void) { x = sizeof(y); return 0; }",
        "121 at 1:71",
    ),
    (
        "int x; int *p; int *q; char *c; int a[3]; int main(void) { x = sizeof(struct t); return 0; }",
        "121 at 1:78",
    ),
    (
        "int a[sizeof(int)]; int main(void) { return 0; }",
        "123 at 1:7",
    ),
    (
        "int a = sizeof(int); int main(void) { return 0; }",
        "123 at 1:9",
    ),
    (
        "int f(long b) { return 0; } int main(void) { f(sizeof(int)); return 0; }",
        "123 at 1:48",
    ),
    (
        "int x; int *p; int *q; char *c; int a[3]; int main(void) { int malloc = 1; x = malloc(sizeof(int)); return 0; }",
        "123 at 1:87",
    ),
    (
        "struct s { int a[malloc(sizeof(struct s)) == 0]; }; int main(void) { return 0; }",
        "123 at 1:18",
    ),
    (
        "struct s { int a[malloc(sizeof(struct s *)) == 0]; }; int main(void) { return 0; }",
        "132 at 1:18",
    ),
];

#[test]
fn elsewhere(rt: HostRuntime) -> Result<(), Fail> {
    for (text, expected) in ELSEWHERE {
        expect_shown(&rt, text, expected)?;
    }
    Ok(())
}
