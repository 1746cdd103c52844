//! The refusals of texts in their order: tokens, then the tree, then the typing rules.

use crate::shown::expect_shown;
use std::test::Fail;

/// Of tokens and of the tree, the first in the text.
const READING: [(&str, &str); 12] = [
    ("int @;", "101 at 1:5"),
    ("/* open", "102 at 1:1"),
    ("int x = 09;", "103 at 1:9"),
    ("int x = 99999999999999999999;", "104 at 1:9"),
    ("#define X 1", "105 at 1:1"),
    ("int x = 'ab';", "106 at 1:9"),
    ("int main(void) { return 0 }", "111 at 1:27"),
    ("int main(void) { return y }", "111 at 1:27"),
    ("int main(void) { return y; } @", "101 at 1:30"),
    ("int main(void) { return 0; } int", "111 at 0:0"),
    ("int main(void) { return y; } int", "111 at 0:0"),
    (
        "/* a comment */ int main(void) { // another\n  return y; }",
        "121 at 2:10",
    ),
];

#[test]
fn reading(rt: HostRuntime) -> Result<(), Fail> {
    for (text, expected) in READING {
        expect_shown(&rt, text, expected)?;
    }
    Ok(())
}

/// One text for each typing rule that a number names.
const RULES: [(&str, &str); 17] = [
    ("int main(void) { return y; }", "121 at 1:25"),
    ("int x = y;", "121 at 1:9"),
    ("int x; int x;", "122 at 1:12"),
    ("int main(void) { int *p; p = 1; return 0; }", "123 at 1:28"),
    ("int main(void) { return sizeof(int); }", "123 at 1:25"),
    ("int main(void) { 1 = 2; return 0; }", "124 at 1:20"),
    (
        "int f(int a) { return a; } int main(void) { return f(); }",
        "125 at 1:52",
    ),
    ("int f(void); int main(void) { return f(); }", "126 at 1:38"),
    ("", "127 at 0:0"),
    ("int main(void);", "127 at 0:0"),
    ("int main(void) { return main(); }", "128 at 1:25"),
    (
        "struct s { int a; }; struct s v; int main(void) { v; return 0; }",
        "129 at 1:51",
    ),
    ("int __a; int main(void) { return 0; }", "130 at 1:5"),
    ("int a[65537];", "131 at 1:5"),
    (
        "int a[2] = {1, 2, 3}; int main(void) { return 0; }",
        "132 at 1:19",
    ),
    ("int main(void) { break; return 0; }", "133 at 1:18"),
    (
        "int main(void) { int *p = malloc(2 * sizeof(int)); p[0] = 5; free(p); return p[0]; }",
        "ok",
    ),
];

#[test]
fn rules(rt: HostRuntime) -> Result<(), Fail> {
    for (text, expected) in RULES {
        expect_shown(&rt, text, expected)?;
    }
    Ok(())
}
