//! The worked refusals, and a table of pitfalls.
use super::*;
use crate::token::{IntSuffix, Place};
use std::test::Fail;

/// The kinds of the tokens by letters, or the number of the fault and its place.
fn shown(rt: &HostRuntime, outcome: Result<Vec<Token>, LexFault>) -> Result<String, Fail> {
    let mut text = String::new(rt.alloc());
    match outcome {
        Ok(tokens) => {
            for token in &tokens {
                text.push_str(letter(token.kind))?;
            }
        }
        Err(fault) => match fault.refusal() {
            Some(refusal) => {
                let Place { line, column } = refusal.place;
                text = format!(in rt.alloc(); "{} {line}:{column}", refusal.code)?;
            }
            None => text.push_str("memory")?,
        },
    }
    Ok(text)
}

fn letter(kind: TokenKind) -> &'static str {
    match kind {
        TokenKind::Name => "n",
        TokenKind::Number(IntSuffix::Plain) => "0",
        TokenKind::Number(IntSuffix::U) => "1",
        TokenKind::Number(IntSuffix::L) => "2",
        TokenKind::Number(IntSuffix::UL) => "3",
        TokenKind::Character => "c",
        TokenKind::Keyword => "k",
        TokenKind::Punctuation => "p",
        TokenKind::Backslash => "b",
        TokenKind::Percent => "%",
        TokenKind::Text => "s",
        TokenKind::Meta => "M",
        TokenKind::Ghost => "G",
        TokenKind::Assert => "A",
    }
}

/// The worked refusals, comments and annotations.
#[test]
fn reads_comments(rt: HostRuntime) -> Result<(), Fail> {
    let cases = [
        ("", ""),
        ("int x;", "knp"),
        ("int @;", "101 1:5"),
        ("/* open", "102 1:1"),
        ("int x = 09;", "103 1:9"),
        ("int x = 99999999999999999999;", "104 1:9"),
        ("#define X 1", "105 1:1"),
        ("int x = 'ab';", "106 1:9"),
        ("/*/", "102 1:1"),
        ("/*/*/ x", "n"),
        ("/**/", ""),
        ("x // y\n/* z\n*/ @", "101 3:4"),
        ("// x", ""),
        ("x /", "np"),
        ("/*@ meta */ /*@@\n@ghost*/ //@ assert\nx", "MGAn"),
        ("/*@ metal */ /*@*/ /*@/**/ /* @meta */ //@", ""),
        ("//@meta", "M"),
        ("/*@meta", "102 1:1"),
    ];
    for (text, want) in cases {
        assert!(rt; text.len() < 100);
        let found = shown(&rt, lex(rt.alloc(), text.as_bytes()))?;
        assert_eq!(rt; found.as_str(), want, "at {text}");
    }
    Ok(())
}

/// Integer constants.
#[test]
fn reads_numbers(rt: HostRuntime) -> Result<(), Fail> {
    let cases = [
        ("0b1", "103 1:1"),
        ("1..2", "103 1:1"),
        ("1e5", "103 1:1"),
        ("08", "103 1:1"),
        ("0x", "103 1:1"),
        ("1ll", "103 1:1"),
        ("1lul", "103 1:1"),
        ("0 00 017 0xfF 0X1", "00000"),
        ("1u 1U 1l 1L 1ul 1LU 1lU", "1122333"),
        ("2147483648", "0"),
        ("9223372036854775807", "0"),
        ("9223372036854775808", "104 1:1"),
        ("9223372036854775808L", "104 1:1"),
        ("9223372036854775808u", "1"),
        ("0x8000000000000000", "0"),
        ("18446744073709551615U", "1"),
        ("18446744073709551616U", "104 1:1"),
        ("01777777777777777777777 0xffffffffffffffff", "00"),
        ("02000000000000000000000", "104 1:1"),
        ("0x00000000000000000000001", "0"),
    ];
    for (text, want) in cases {
        assert!(rt; text.len() < 100);
        let found = shown(&rt, lex(rt.alloc(), text.as_bytes()))?;
        assert_eq!(rt; found.as_str(), want, "at {text}");
    }
    Ok(())
}

/// Characters and punctuators.
#[test]
fn reads_characters(rt: HostRuntime) -> Result<(), Fail> {
    let cases = [
        ("''", "106 1:1"),
        ("'\\x41'", "106 1:1"),
        ("'\\n' '\\\\' '\\'' '\"' '\\\"' '\\0'", "cccccc"),
        ("'''", "106 1:1"),
        ("'\\'", "106 1:1"),
        ("'\u{e9}'", "106 1:1"),
        ("\"x\"", "101 1:1"),
        ("\\x", "101 1:1"),
        ("- - 1", "pp0"),
        ("--1", "p0"),
        ("a+++++b", "npppn"),
        ("a<<=b>>=c->d", "npnpnpn"),
        ("==> <==>", "ppppp"),
        ("...", "ppp"),
    ];
    for (text, want) in cases {
        assert!(rt; text.len() < 100);
        let found = shown(&rt, lex(rt.alloc(), text.as_bytes()))?;
        assert_eq!(rt; found.as_str(), want, "at {text}");
    }
    Ok(())
}

/// Line markers and places.
#[test]
fn reads_line_markers(rt: HostRuntime) -> Result<(), Fail> {
    let cases = [
        ("# 1 \"a.c\" /* 'x\nint", "k"),
        ("  # 12\nx", "n"),
        ("# 12", ""),
        ("#1", "105 1:1"),
        ("#", "105 1:1"),
        ("# 1a", "105 1:1"),
        ("# \n1", "105 1:1"),
        ("x # 1", "101 1:3"),
        ("/* */ # 1", "101 1:7"),
        ("/*\n*/ # 1", "101 2:4"),
        ("/*\n*/\n # 1\nx", "n"),
        ("\t\r@", "101 1:3"),
        ("\r\n\x0b\x0c @", "101 2:4"),
    ];
    for (text, want) in cases {
        assert!(rt; text.len() < 100);
        let found = shown(&rt, lex(rt.alloc(), text.as_bytes()))?;
        assert_eq!(rt; found.as_str(), want, "at {text}");
    }
    Ok(())
}

#[test]
fn reads_annotations(rt: HostRuntime) -> Result<(), Fail> {
    let cases = [
        ("@meta\\prop,@\\name(\"a b\")", "nbpbpsp"),
        ("1..2", "0p0"),
        ("0..9 0...5 x==>y<==>z", "0p00pp0npnpn"),
        ("1.2..3", "103 1:1"),
        ("\"\"", "101 1:1"),
        ("\"", "101 1:1"),
        ("x %accept", "npn"),
        ("# 1", "101 1:1"),
        ("\\1", "101 1:1"),
        ("/*@ meta */ //x", ""),
        ("/* x", "102 1:1"),
    ];
    for (text, want) in cases {
        assert!(rt; text.len() < 100);
        let found = shown(
            &rt,
            lex_annotation(rt.alloc(), text.as_bytes(), 0, text.len() as u32),
        )?;
        assert_eq!(rt; found.as_str(), want, "at {text}");
    }
    let fault = shown(&rt, lex_annotation(rt.alloc(), b"x\n/*@ meta # */", 5, 13))?;
    assert_eq!(rt; fault.as_str(), "101 2:10");
    Ok(())
}

#[test]
fn reads_specifications(rt: HostRuntime) -> Result<(), Fail> {
    let cases = [
        ("%init: A; %accept : A; %deterministic;", "%pnp%pnp%p"),
        ("A : { x %accept } -> A", "nppn%ppn"),
        ("%initial %=", "pnp"),
        ("f(){2,3}..\\result", "nppp0p0ppb"),
        ("\"a\"", "101 1:1"),
        ("@", "101 1:1"),
        ("# 1", "101 1:1"),
        ("/*@ meta */ //@ ghost", ""),
    ];
    for (text, want) in cases {
        assert!(rt; text.len() < 100);
        let found = shown(&rt, lex_spec(rt.alloc(), text.as_bytes()))?;
        assert_eq!(rt; found.as_str(), want, "at {text}");
    }
    Ok(())
}

#[test]
fn gives_spans(rt: HostRuntime) -> Result<(), Fail> {
    let found = lex(rt.alloc(), b"x /*@ meta */\n\t//@ghost y\n12u")?;
    let token = |kind, first, past, line, column| Token {
        kind,
        first,
        past,
        place: Place { line, column },
    };
    let expected = [
        token(TokenKind::Name, 0, 1, 1, 1),
        token(TokenKind::Meta, 5, 11, 1, 3),
        token(TokenKind::Ghost, 18, 25, 2, 2),
        token(TokenKind::Number(IntSuffix::U), 26, 29, 3, 1),
    ];
    assert_eq!(rt; found.as_slice(), expected.as_slice());
    Ok(())
}
