//! The tokens of the first form of texts: names, keywords, decimal numbers, `\` with a name, and the punctuators
//! `; , ( ) { } = & : /*@ */`, with blanks between them and no comments.

ghost use Rattle.std.specs.Prelude.{◌≡◌, ℕ, ◌+◌, ◌^◌, ◌<◌, List, length, IfOk, IfSome, IfNone};
ghost use Rattle.c_lexer.specs.declared.token.Token.{Token};
ghost use Rattle.c_lexer.specs.FirstForm.Tokens.{token_at, AreTokensOf};
ghost use Rattle.c_lexer.specs.FirstForm.Laws.{HasOneTokenList, TokensAreOfText, TokensAreInOrder, TokensCoverText, TokensAreFew, BytesTellKind, TokensAreAscii, NumbersAreDecimal};

use crate::first_form::front::{Front, front_at};
use crate::position::Position;
use crate::token::{Token, TokenKind};
use std::alloc::{AllocError, Global};

fn token_at(position: Position, kind: TokenKind, len: usize) -> Token
    requires past { position.offset + len < 2 ^ 32 }
    requires line { position.line < 2 ^ 32 }
    requires column { position.column < 2 ^ 32 }
    ensures { result ≡ token_at position kind len }
{
    Token {
        kind,
        first: position.offset as u32,
        past: (position.offset + len) as u32,
        place: position.place(),
    }
}

/// The tokens of a text of the first form, in their order: at each place that is no blank the longest token that
/// begins there (C11 6.4, paragraph 4). `None` where a byte begins no token, or where a number is neither `0` nor
/// decimal digits without a leading zero. The only error is want of memory.
pub fn first_tokens(alloc: Global, text: &[u8]) -> Result<Option<Vec<Token>>, AllocError>
    requires { length text.now < 2 ^ 32 }
    ensures found { IfOk result (λ found. IfSome found (λ tokens. AreTokensOf text.now tokens.items)) }
    ensures none { IfOk result (λ found. IfNone found ((tokens : List Token) → AreTokensOf text.now tokens → ⊥)) }
{
    let mut tokens = Vec::new(alloc);
    let mut position = Position::start();
    loop {
        match front_at(text, position.offset) {
            Front::End => return Ok(Some(tokens)),
            Front::Blank(byte) => position = position.after(byte),
            Front::Token(kind, len) => {
                tokens.push(token_at(position, kind, len))?;
                position = position.along(len);
            }
            Front::Other => return Ok(None),
        }
    }
}

/// A text has at most one list of tokens.
pub fn one_token_list()
    ensures { HasOneTokenList }
{}

/// Where the tokens of a text lie: each is one of the text, they are in order, and no byte but blanks is left out.
pub fn tokens_cover_text()
    ensures each { TokensAreOfText }
    ensures ordered { TokensAreInOrder }
    ensures covering { TokensCoverText }
    ensures few { TokensAreFew }
{}

/// What the bytes of a token say of it.
pub fn token_bytes()
    ensures kind { BytesTellKind }
    ensures ascii { TokensAreAscii }
    ensures decimal { NumbersAreDecimal }
{}

#[cfg(test)]
mod tests {
    use super::*;
    use crate::token::{IntSuffix, Place};
    use std::test::Fail;

    const NUMBER: TokenKind = TokenKind::Number(IntSuffix::Plain);

    fn token(kind: TokenKind, span: (u32, u32), line: u32, column: u32) -> Token {
        Token {
            kind,
            first: span.0,
            past: span.1,
            place: Place { line, column },
        }
    }

    #[test]
    fn reads_statements(rt: HostRuntime) -> Result<(), Fail> {
        let found = first_tokens(rt.alloc(), b"int x;\n\tx = 12;\r\n \x0cmain0(&_y)")?.ok_or(
            "no tokens",
        )?;
        let expected = [
            token(TokenKind::Keyword, (0, 3), 1, 1),
            token(TokenKind::Name, (4, 5), 1, 5),
            token(TokenKind::Punctuation, (5, 6), 1, 6),
            token(TokenKind::Name, (8, 9), 2, 2),
            token(TokenKind::Punctuation, (10, 11), 2, 4),
            token(NUMBER, (12, 14), 2, 6),
            token(TokenKind::Punctuation, (14, 15), 2, 8),
            token(TokenKind::Name, (19, 24), 3, 3),
            token(TokenKind::Punctuation, (24, 25), 3, 8),
            token(TokenKind::Punctuation, (25, 26), 3, 9),
            token(TokenKind::Name, (26, 28), 3, 10),
            token(TokenKind::Punctuation, (28, 29), 3, 12),
        ];
        assert_eq!(rt; found.as_slice(), expected.as_slice());
        Ok(())
    }

    #[test]
    fn reads_annotations(rt: HostRuntime) -> Result<(), Fail> {
        let found = first_tokens(rt.alloc(), b"{/*@ meta \\prop,\n\\int : 0*/}")?.ok_or(
            "no tokens",
        )?;
        let expected = [
            token(TokenKind::Punctuation, (0, 1), 1, 1),
            token(TokenKind::Punctuation, (1, 4), 1, 2),
            token(TokenKind::Name, (5, 9), 1, 6),
            token(TokenKind::Backslash, (10, 15), 1, 11),
            token(TokenKind::Punctuation, (15, 16), 1, 16),
            token(TokenKind::Backslash, (17, 21), 2, 1),
            token(TokenKind::Punctuation, (22, 23), 2, 6),
            token(NUMBER, (24, 25), 2, 8),
            token(TokenKind::Punctuation, (25, 27), 2, 9),
            token(TokenKind::Punctuation, (27, 28), 2, 11),
        ];
        assert_eq!(rt; found.as_slice(), expected.as_slice());
        Ok(())
    }

    #[test]
    fn counts_tokens(rt: HostRuntime) -> Result<(), Fail> {
        let cases = [
            ("", Some(0)),
            (" \t\r\n\x0b\x0c", Some(0)),
            ("whilex while", Some(2)),
            ("int/*@int", Some(3)),
            ("\\a\\b", Some(2)),
            ("*/*/", Some(2)),
            ("00", None),
            ("012", None),
            ("12a", None),
            ("1.5", None),
            ("x@", None),
            ("/* a */", None),
            ("/*", None),
            ("*", None),
            ("\\", None),
            ("\\1", None),
            ("x\0", None),
            ("\u{e9}", None),
        ];
        for (text, want) in cases {
            assert!(rt; text.len() < 100);
            let found = first_tokens(rt.alloc(), text.as_bytes())?.map(|tokens| tokens.len());
            assert_eq!(rt; found, want, "at {text}");
        }
        Ok(())
    }
}
