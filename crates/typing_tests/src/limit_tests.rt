//! Limits (C11 5.2.4.1): texts that are made, just within a limit and just beyond.

use crate::shown::expect_shown;
use std::test::Fail;

/// A text with this part so many times between a beginning and an end.
fn repeated(
    rt: &HostRuntime,
    beginning: &str,
    part: &str,
    count: usize,
    end: &str,
) -> Result<String, Fail> {
    let mut text = String::new(rt.alloc());
    text.push_str(beginning)?;
    for _ in 0..count {
        text.push_str(part)?;
    }
    text.push_str(end)?;
    Ok(text)
}

fn expect_repeated(
    rt: &HostRuntime,
    beginning: &str,
    part: &str,
    count: usize,
    end: &str,
    expected: &str,
) -> Result<(), Fail> {
    let text = repeated(rt, beginning, part, count, end)?;
    expect_shown(rt, &text, expected)
}

/// A full expression has at most 500 nodes.
#[test]
fn nodes_of_a_full_expression(rt: HostRuntime) -> Result<(), Fail> {
    let beginning = "int main(void) { return 0";
    expect_repeated(&rt, beginning, " + 0", 249, "; }", "ok")?;
    expect_repeated(&rt, beginning, " + 0", 250, "; }", "131 at 1:25")
}

/// A chain of operators or suffixes may be as long as the text, wherever an expression stands.
#[test]
fn long_chains(rt: HostRuntime) -> Result<(), Fail> {
    let body = "int main(void) { return 0";
    expect_repeated(&rt, body, "+0", 120_000, "; }", "131 at 1:25")?;
    expect_repeated(&rt, body, "+0*0", 60_000, "; }", "131 at 1:25")?;
    let place = "int a[2]; int main(void) { a[0";
    expect_repeated(
        &rt,
        place,
        "+0",
        120_000,
        "] = 1; return 0; }",
        "131 at 1:28",
    )?;
    let call = "int f(int a) { return a; } int main(void) { return f(0";
    expect_repeated(&rt, call, "+0", 120_000, "); }", "131 at 1:52")?;
    let member = "struct s { struct s *n; } *p; int main(void) { p";
    expect_repeated(&rt, member, "->n", 80_000, "; return 0; }", "131 at 1:48")?;
    let end = "]; int main(void) { return 0; }";
    expect_repeated(&rt, "int a[1", "+0", 24_000, end, "ok")?;
    expect_repeated(&rt, "int a[1", "+0", 120_000, end, "131 at 0:0")
}

/// A source has at most 50,000 weighted nodes.
#[test]
fn weighted_nodes(rt: HostRuntime) -> Result<(), Fail> {
    let end = " return 0; }";
    expect_repeated(&rt, "int main(void) {", ";", 49_990, end, "ok")?;
    expect_repeated(&rt, "int main(void) {", ";", 50_001, end, "131 at 0:0")
}

/// Each star of a declarator nests what it stands before. After 65 of them a function may still follow, and a variable may not.
#[test]
fn nested_pointers(rt: HostRuntime) -> Result<(), Fail> {
    let end = "x; int main(void) { return 0; }";
    expect_repeated(&rt, "int ", "*", 64, end, "ok")?;
    expect_repeated(&rt, "int ", "*", 65, end, "111 at 1:71")
}

/// Many names in one scope are found.
#[test]
fn many_locals(rt: HostRuntime) -> Result<(), Fail> {
    let mut text = String::new(rt.alloc());
    text.push_str("int main(void) {")?;
    for number in 0..500 {
        let local = format!(in rt.alloc(); " int x{number};")?;
        text.push_str(&local)?;
    }
    text.push_str(" x0 = 1; x499 = x0; return x499; }")?;
    expect_shown(&rt, &text, "ok")
}
