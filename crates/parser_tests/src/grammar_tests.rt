//! Whole programs: what is read and what is refused, with the places, and how deep a text may nest.
use c_grammar::expression::{Assign, Choice, Sum};
use c_grammar::program::{Body, Item};
use c_grammar::statement::{BlockPart, Stmt};
use c_lexer::{Place, lex};
use c_parser::{Mode, ParseFault, ProgramTree, parse_program};
use c_words::word::Word;
use std::test::Fail;

fn parse(
    rt: &HostRuntime,
    text: &str,
    mode: Mode,
) -> Result<Result<ProgramTree, ParseFault>, Fail> {
    let bytes = text.as_bytes();
    if bytes.len() > 16_777_216 {
        return Err(Fail::from("too long"));
    }
    match lex(rt.alloc(), bytes) {
        Ok(tokens) => Ok(parse_program(rt.alloc(), bytes, &tokens, mode)),
        Err(_) => Err(Fail::from("no tokens")),
    }
}

/// `ok`, or the place of the fault.
fn shown(rt: &HostRuntime, text: &str, mode: Mode) -> Result<String, Fail> {
    match parse(rt, text, mode)? {
        Ok(_) => Ok(format!(in rt.alloc(); "ok")?),
        Err(ParseFault::Syntax(Place { line, column })) => Ok(format!(in rt.alloc();
            "{line}:{column}"
        )?),
        Err(ParseFault::Memory) => Err(Fail::from("memory")),
    }
}

/// Items, and where they are refused.
const ITEMS: [(&str, &str); 56] = [
    ("", "ok"),
    (";", "1:1"),
    ("int x", "0:0"),
    ("int x;", "ok"),
    ("int x, *y, z[3];", "ok"),
    ("int x, ;", "1:8"),
    ("auto int x;", "1:1"),
    ("typedef int t;", "1:1"),
    ("register int x;", "1:1"),
    ("static static const int x;", "ok"),
    ("static extern int f(void);", "ok"),
    ("extern int x;", "1:13"),
    ("extern int x[3];", "1:13"),
    ("extern int (x);", "1:12"),
    ("extern int x\n= 1;", "2:1"),
    ("char x; signed char y; unsigned char z;", "ok"),
    (
        "short a; short int b; signed short c; signed short int d; unsigned short e;",
        "ok",
    ),
    ("signed a; signed int b; unsigned c; unsigned int d;", "ok"),
    (
        "long a; long int b; signed long c; signed long int d; unsigned long int e;",
        "ok",
    ),
    ("unsigned unsigned x;", "1:10"),
    ("long long x;", "1:6"),
    ("short char x;", "1:7"),
    ("int long x;", "1:5"),
    ("char int x;", "1:6"),
    ("int const const x;", "ok"),
    ("int * const * x;", "ok"),
    ("int x[];", "1:8"),
    ("int x[] = {1};", "ok"),
    ("int (x[]) = {1};", "ok"),
    ("int (x)[] = {1};", "1:9"),
    ("int x[][2] = {1};", "ok"),
    ("int x[2][] = {1};", "1:10"),
    ("int x = {};", "1:10"),
    ("int x = {1,};", "ok"),
    ("int x = {,};", "1:10"),
    ("int x = {1,,};", "1:12"),
    ("int x = {{1, 2}, {3}};", "ok"),
    ("struct s { int a; };", "ok"),
    ("struct s { int a, *b; const int c[2]; } x, y = {1};", "ok"),
    ("struct s { };", "1:12"),
    ("struct s { int a[]; };", "1:18"),
    ("struct s;", "1:9"),
    ("struct s x;", "ok"),
    ("struct { int a; };", "1:8"),
    ("static struct s { int a; };", "1:17"),
    ("int f();", "ok"),
    ("int f(void) { }", "ok"),
    ("int f(void, int);", "ok"),
    ("int f(int a,);", "1:13"),
    ("int f(int) { }", "1:12"),
    ("int f(int a, int *) { }", "1:21"),
    (
        "int f(int, int *, int [], int [][3], const char a[], int (*a)[3]);",
        "ok",
    ),
    ("int f(int (*)[3]);", "1:13"),
    ("int f(int [2][]);", "1:15"),
    ("int (*f)(void);", "1:9"),
    ("/*@ meta x */ int x; /*@ ghost y */ /*@ assert z */", "ok"),
];

/// Bodies of `main`, and where they are refused; a body begins in column 18.
const BODIES: [(&str, &str); 63] = [
    ("return 0", "1:27"),
    ("return 0;", "ok"),
    ("return;", "ok"),
    (";;{}{;}", "ok"),
    ("int x; x = 1; int y = x;", "ok"),
    ("const int x = 1, y;", "ok"),
    ("static int x;", "1:18"),
    ("extern int x;", "1:18"),
    ("register int x;", "1:18"),
    ("int f(void);", "1:23"),
    ("struct s { int a; } x;", "1:27"),
    ("struct s x;", "ok"),
    ("/*@ meta x */", "1:18"),
    ("/*@ ghost x */ /*@ assert x */", "ok"),
    ("goto x;", "1:18"),
    ("switch (x) {}", "1:18"),
    ("x: ;", "1:19"),
    ("1, 2;", "1:19"),
    ("(const int) x;", "1:19"),
    ("(int const) x;", "ok"),
    ("(int * const *) x;", "ok"),
    ("(int [3]) x;", "1:23"),
    ("(struct s *) x;", "ok"),
    ("(f)(x);", "1:21"),
    ("f(x)(y);", "1:22"),
    ("f(x, y = 1, (z));", "ok"),
    ("f(,);", "1:20"),
    ("f(x,);", "1:22"),
    ("a ? b : c = d;", "1:28"),
    ("a ? b = 1 : c;", "ok"),
    ("a ? b : c ? d : e;", "ok"),
    ("a ? b;", "1:23"),
    ("1 = 2;", "ok"),
    ("-x = 1;", "ok"),
    ("(int) x = 1;", "ok"),
    ("f() = 1;", "ok"),
    ("a = b += c <<= d;", "ok"),
    ("a + b = c;", "1:24"),
    ("a.b->c[d]++ --;", "ok"),
    ("a.1;", "1:20"),
    ("a . 1;", "1:22"),
    ("a + ;", "1:22"),
    ("a +++ b;", "ok"),
    ("a b;", "1:20"),
    ("- - 1; --x; & * x; ~!+x;", "ok"),
    (
        "a * b / c % d + e - f << g >> h < i > j <= k >= l == m != n & o ^ p | q && r || s;",
        "ok",
    ),
    ("'a' + 0x1fUL;", "ok"),
    ("if (a) x; else y;", "ok"),
    ("if (a) ; else ; else ;", "1:34"),
    ("if (a) if (b) ; else ; else ;", "ok"),
    ("else ;", "1:18"),
    ("if a ;", "1:21"),
    ("if () ;", "1:22"),
    ("if (a) int x;", "1:25"),
    ("while (a) ;", "ok"),
    ("do x; while (a);", "ok"),
    ("do x; while (a)", "1:34"),
    ("do if (a) ; while (b);", "ok"),
    ("for (;;) ;", "ok"),
    ("for (int i = 0, j; i < 3; i++) break;", "ok"),
    ("for (i = 0; i; ) continue;", "ok"),
    ("for (int i) ;", "1:28"),
    ("for (a, b;;) ;", "1:24"),
];

/// The same with `sizeof`.
const SIZES: [(&str, &str); 28] = [
    ("sizeof x;", "ok"),
    ("sizeof (x)[0];", "ok"),
    ("sizeof (int);", "ok"),
    ("sizeof (int **) + 1;", "ok"),
    ("sizeof sizeof (int);", "ok"),
    ("sizeof -(int) x;", "ok"),
    ("sizeof ((int) x);", "ok"),
    ("sizeof (int) x;", "1:31"),
    ("sizeof (int)[0];", "1:30"),
    ("sizeof;", "1:24"),
    ("sizeof ();", "1:26"),
    ("return sizeof(int);", "ok"),
    ("return sizeof (struct s *);", "ok"),
    ("return sizeof (void);", "ok"),
    ("return sizeof x;", "ok"),
    ("return sizeof (x);", "ok"),
    ("return sizeof (x)[0];", "ok"),
    ("return sizeof -x;", "ok"),
    ("return sizeof sizeof x;", "ok"),
    ("return sizeof (int) * 2;", "ok"),
    ("return 2 * sizeof(int);", "ok"),
    ("return (int) sizeof (int);", "ok"),
    ("return sizeof;", "1:31"),
    ("return sizeof = 1;", "1:32"),
    ("return sizeof (int x);", "1:37"),
    // After a type in parentheses the operand has ended: it is no cast.
    ("return sizeof (int)[0];", "1:37"),
    ("return sizeof (int){0};", "1:37"),
    ("return sizeof (int) x;", "1:38"),
];

/// Fails where the text isn't read or refused as expected.
fn expect_shown(rt: &HostRuntime, text: &str, mode: Mode, expected: &str) -> Result<(), Fail> {
    let found = shown(rt, text, mode)?;
    if found.as_str() != expected {
        return Err(Fail::from(format!(in rt.alloc(); "{text}: {found}, and not {expected}")?));
    }
    Ok(())
}

#[test]
fn refuses_items_at_the_first_token_that_it_cannot_use(rt: HostRuntime) -> Result<(), Fail> {
    for (text, expected) in ITEMS {
        expect_shown(&rt, text, Mode::Source, expected)?;
    }
    Ok(())
}

fn expect_body_shown(rt: &HostRuntime, body: &str, expected: &str) -> Result<(), Fail> {
    let text = format!(in rt.alloc(); "int main(void) {{ {body} }}")?;
    expect_shown(rt, &text, Mode::Source, expected)
}

#[test]
fn refuses_statements_at_the_first_token_that_it_cannot_use(rt: HostRuntime) -> Result<(), Fail> {
    for (body, expected) in BODIES {
        expect_body_shown(&rt, body, expected)?;
    }
    Ok(())
}

#[test]
fn reads_sizes(rt: HostRuntime) -> Result<(), Fail> {
    for (body, expected) in SIZES {
        expect_body_shown(&rt, body, expected)?;
    }
    Ok(())
}

/// Woven texts, and where they are refused.
const WOVEN: [(&str, &str); 12] = [
    (
        "/*@ meta x */ int x; int main(void) { /*@ meta x */ }",
        "ok",
    ),
    ("/*@ ghost int __g = 0; */", "ok"),
    ("/*@ assert weave_1: x; */", "1:1"),
    ("int main(void) { register int x = 1, y; }", "ok"),
    ("int main(void) { for (register int x = 1; ; ) ; }", "ok"),
    ("int main(void) { register const int x; }", "1:27"),
    ("int main(void) { const register int x; }", "1:24"),
    ("register int x;", "1:1"),
    (
        "int main(void) { /*@ ghost x = 1; */ /*@ assert weave_1: x; */ return 0; }",
        "ok",
    ),
    ("int main(void) { if (x) /*@ ghost x = 1; */ else ; }", "ok"),
    ("int main(void) { x = /*@ ghost x = 1; */ 1; }", "1:22"),
    ("struct s { int a; /*@ ghost x = 1; */ };", "1:19"),
];

#[test]
fn reads_woven_texts(rt: HostRuntime) -> Result<(), Fail> {
    for (text, expected) in WOVEN {
        expect_shown(&rt, text, Mode::Woven, expected)?;
    }
    Ok(())
}

/// A text that nests: what stands before, what is repeated, what stands inside, what is repeated after that, and what
/// stands behind; and how many fewer of them than the limit may stand there.
type Nest = (
    &'static str,
    &'static str,
    &'static str,
    &'static str,
    &'static str,
    usize,
);

const NESTS: [Nest; 27] = [
    ("int main(void) { return ", "(", "0", ")", "; }", 1),
    ("int main(void) { return ", "- ", "0", "", "; }", 1),
    ("int main(void) { return ", "(int) ", "0", "", "; }", 1),
    ("int main(void) { return ", "sizeof ", "0", "", "; }", 1),
    (
        "int main(void) { return ",
        "(",
        "sizeof (int)",
        ")",
        "; }",
        2,
    ),
    (
        "int main(void) { return sizeof (int ",
        "*",
        "",
        "",
        "); }",
        1,
    ),
    ("int main(void) { return ", "f(", "0", ")", "; }", 1),
    ("int main(void) { return ", "0 + f(1, ", "0", ")", "; }", 1),
    ("int main(void) { return ", "a[", "0", "]", "; }", 1),
    ("int main(void) { return ", "0 + a[1][", "0", "]", "; }", 1),
    ("int main(void) { return ", "a = ", "0", "", "; }", 1),
    ("int main(void) { return ", "a ? b : ", "0", "", "; }", 1),
    ("int main(void) { return ", "a ? ", "0", " : b", "; }", 1),
    ("int main(void) { ", "{ ", "", "}", " }", 0),
    ("int main(void) { ", "if (a) ", ";", "", " }", 1),
    ("int main(void) { ", "if (a) ; else ", ";", "", " }", 1),
    ("int main(void) { ", "while (a) ", ";", "", " }", 1),
    ("int main(void) { ", "do ", ";", " while (a);", " }", 1),
    ("int main(void) { ", "for (;;) ", ";", "", " }", 1),
    ("int x = ", "{", "1", "}", ";", 0),
    ("int x = ", "{0, ", "1", "}", ";", 0),
    ("int ", "(", "x", ")", ";", 0),
    ("int ", "*", "x", "", ";", 0),
    ("int x", "[1]", "", "", ";", 0),
    ("int f(int ", "*", "x", "", ");", 1),
    ("int f(int ", "*", "", "", ");", 0),
    ("int f(int ", "[1]", "", "", ");", 1),
];

fn repeated(rt: &HostRuntime, row: Nest, times: usize) -> Result<String, Fail> {
    let (before, opening, inside, closing, behind, _) = row;
    let mut text = String::new(rt.alloc());
    text.push_str(before)?;
    for _ in 0..times {
        text.push_str(opening)?;
    }
    text.push_str(inside)?;
    for _ in 0..times {
        text.push_str(closing)?;
    }
    text.push_str(behind)?;
    Ok(text)
}

fn expect_nested(rt: &HostRuntime, row: Nest, mode: Mode, limit: usize) -> Result<(), Fail> {
    let most = limit.saturating_sub(row.5);
    let found = shown(rt, &repeated(rt, row, most)?, mode)?;
    if found.as_str() != "ok" {
        return Err(Fail::from(format!(in rt.alloc(); "{most} times: {found}")?));
    }
    let found = shown(rt, &repeated(rt, row, most.saturating_add(1))?, mode)?;
    if found.as_str() == "ok" {
        return Err(Fail::from(format!(in rt.alloc(); "one more than {most} times")?));
    }
    Ok(())
}

#[test]
fn nests_64_deep_in_a_source(rt: HostRuntime) -> Result<(), Fail> {
    for row in NESTS {
        expect_nested(&rt, row, Mode::Source, 64)?;
    }
    Ok(())
}

#[test]
fn nests_1024_deep_in_a_woven_text(rt: HostRuntime) -> Result<(), Fail> {
    for row in NESTS {
        expect_nested(&rt, row, Mode::Woven, 1024)?;
    }
    Ok(())
}

/// Half of the levels are loops, and the others calls.
#[test]
fn nests_calls_in_loops_in_a_woven_text(rt: HostRuntime) -> Result<(), Fail> {
    let loops = ("int main(void) { ", "for (;;) ", "", "", "", 0);
    let calls = ("", "0 + f(1, ", "0", ")", "; }", 0);
    let mut text = repeated(&rt, loops, 511)?;
    text.push_str(repeated(&rt, calls, 511)?.as_str())?;
    expect_shown(&rt, text.as_str(), Mode::Woven, "ok")
}

/// Where a source that nests too deep is refused: what is repeated how often, and the place.
const TOO_DEEP: [(&str, &str, &str, &str, &str, usize, &str); 16] = [
    // The last parenthesis itself, since its inside can't be empty.
    ("int main(void) { return ", "(", "0", ")", "; }", 64, "1:88"),
    (
        "int main(void) { return ",
        "(",
        "0",
        ")",
        "; }",
        200_000,
        "1:88",
    ),
    ("int main(void) { ", "(", "", "", "", 200_000, "1:81"),
    ("int main(void) { ", "!", "0", "", "; }", 64, "1:81"),
    (
        "int main(void) { return ",
        "sizeof ",
        "0",
        "",
        "; }",
        64,
        "1:466",
    ),
    // The inside of a call and of a block may be empty: the token after.
    ("int main(void) { ", "f(", "0", ")", "; }", 64, "1:146"),
    ("int main(void) { ", "f(", "", ")", "; }", 64, "ok"),
    ("int main(void) { ", "{", ";", "}", " }", 64, "1:82"),
    ("int main(void) { ", "{", "", "}", " }", 200_000, "1:82"),
    // As many stars may stand before a function's name.
    ("int ", "*", "x", "", ";", 65, "1:71"),
    ("int ", "*", "x", "", "(void);", 65, "ok"),
    ("int ", "*", "x", "", "(void);", 66, "1:70"),
    ("int x", "[1]", "", "", ";", 65, "1:198"),
    // The first size of a parameter without name may be empty: after 63 stars it has to be.
    ("int f(int ", "*", "[]", "", ");", 63, "ok"),
    ("int f(int ", "*", "[1]", "", ");", 63, "1:75"),
    ("int f(int ", "*", "[]", "", ");", 64, "1:75"),
];

fn expect_repeated(
    rt: &HostRuntime,
    row: Nest,
    times: usize,
    mode: Mode,
    expected: &str,
) -> Result<(), Fail> {
    let text = repeated(rt, row, times)?;
    expect_shown(rt, &text, mode, expected)
}

#[test]
fn refuses_what_nests_too_deep(rt: HostRuntime) -> Result<(), Fail> {
    for (before, opening, inside, closing, behind, times, expected) in TOO_DEEP {
        let row = (before, opening, inside, closing, behind, 0);
        expect_repeated(&rt, row, times, Mode::Source, expected)?;
    }
    // A woven text bears more, and not that many.
    let row = ("int main(void) { return ", "(", "0", ")", "; }", 0);
    expect_repeated(&rt, row, 200_000, Mode::Woven, "1:1048")
}

/// Whether `a - b * c / d - e` is grouped from the left: three operands, of which the second has three factors.
fn is_grouped_from_the_left(Sum(chain): &Sum) -> bool {
    let [second, third] = chain.rest.as_slice() else {
        return false;
    };
    let [times, over] = second.operand.0.rest.as_slice() else {
        return false;
    };
    chain.first.0.rest.is_empty()
        && second.operator.word == Word::Minus
        && third.operator.word == Word::Minus
        && third.operand.0.rest.is_empty()
        && times.operator.word == Word::Star
        && over.operator.word == Word::Slash
}

fn has_chain(value: &Assign) -> bool {
    match value {
        Assign::Choice(Choice::Or(or)) => is_grouped_from_the_left(
            &or.get()
                .0
                .first
                .0
                .first
                .0
                .first
                .0
                .first
                .0
                .first
                .0
                .first
                .0
                .first
                .0
                .first,
        ),
        _ => false,
    }
}

fn is_chain(parts: &[BlockPart]) -> bool {
    match parts {
        [BlockPart::Stmt(Stmt::Expression(value, _))] => has_chain(value.get()),
        _ => false,
    }
}

/// Whether the first `if` has no `else`, and the one in it has.
fn has_nearest_else(parts: &[BlockPart]) -> bool {
    match parts {
        [BlockPart::Stmt(Stmt::If(_, _, _, _, first))] => {
            matches!(first.get(), Stmt::IfElse(_, _, _, _, _, _, _))
        }
        _ => false,
    }
}

/// The parts of the body of the only function.
fn parts(tree: &ProgramTree) -> &[BlockPart] {
    match tree.items.as_slice() {
        [Item::Function(_, _, _, _, _, _, _, Body::Block(body))] => body.parts.as_slice(),
        _ => &[],
    }
}

#[test]
fn reads_chains_from_the_left(rt: HostRuntime) -> Result<(), Fail> {
    match parse(&rt, "int main(void) { a - b * c / d - e; }", Mode::Source)? {
        Ok(tree) if is_chain(parts(&tree)) => Ok(()),
        _ => Err(Fail::from("refused, or grouped in another way")),
    }
}

#[test]
fn gives_an_else_to_the_nearest_if(rt: HostRuntime) -> Result<(), Fail> {
    match parse(
        &rt,
        "int main(void) { if (a) if (b) x; else y; }",
        Mode::Source,
    )? {
        Ok(tree) if has_nearest_else(parts(&tree)) => Ok(()),
        _ => Err(Fail::from("refused, or given to the outer `if`")),
    }
}

/// A realistic program.
const RING: &str = "# 1 \"ring.c\"
extern int getchar(void);
extern int putchar(int c);
struct ring { int head; int count; unsigned char cell[4]; };
static struct ring box;
static int ready;
/*@ meta \\prop, \\name(\"count in range\"), \\targets(\\ALL), \\context(\\weak_invariant), 0 <= box.count <= 4; */
void ring_init(struct ring *r) { r->head = 0; r->count = 0; ready = 1; }
/* 1 where the byte was kept */
int ring_put(struct ring *r, int c) {
  int done = 0;
  if (r->count < 4) { r->cell[(r->head + r->count) % 4] = (unsigned char) c; r->count++; done = 1; }
  return done;
}
int main(void) {
  int c;
  ring_init(&box);
  while ((c = getchar()) != -1) { if (!ring_put(&box, c)) { putchar(c); } }
  return 0;
}
";

#[test]
fn reads_a_program(rt: HostRuntime) -> Result<(), Fail> {
    let tree = parse(&rt, RING, Mode::Source)?.map_err(|_| Fail::from("refused"))?;
    assert_eq!(rt; tree.items.len(), 9);
    Ok(())
}
