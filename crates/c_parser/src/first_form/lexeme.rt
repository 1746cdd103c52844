//! A token's kind and bytes.
ghost use Rattle.std.specs.Prelude.{◌≡◌, true};
ghost use Rattle.c_parser.specs.FirstForm.Spelling.{word_of};
ghost use Rattle.std.specs.Str.{IsAscii};
ghost use Rattle.c_lexer.specs.FirstForm.Tokens.{is_allowed};
ghost use Rattle.c_parser.specs.FirstForm.Reading.{number_of};
ghost use Rattle.c_lexer.specs.FirstForm.Laws.{IsTokenOf};
ghost use Rattle.c_parser.specs.FirstForm.Lexemes.{lexeme_word};
ghost use Rattle.c_lexer.specs.declared.token.TokenKind.TheVariants as kind;
ghost use Rattle.c_lexer.specs.declared.token.IntSuffix.TheVariants as suffix;

use c_lexer::{Token, TokenKind};
use std::str;

/// What a token is and how it is spelled.
#[derive(Clone, Copy)]
pub struct Lexeme<'a> {
    pub kind: TokenKind,
    pub bytes: &'a [u8],
}

pub fn lexeme_of<'a>(text: &'a [u8], token: &Token) -> Lexeme<'a>
    requires { IsTokenOf text.now token.now }
    ensures { lexeme_word result ≡ word_of text.now token.now }
{
    Lexeme {
        kind: token.kind,
        bytes: &text[token.first as usize..token.past as usize],
    }
}

/// Bytes as text, where they are ASCII.
pub fn ascii_text(bytes: &[u8]) -> &str
    requires { IsAscii bytes.now }
    ensures { result.now ≡ bytes.now }
{
    match str::from_utf8(bytes) {
        Ok(text) => text,
        Err(_) => unreachable!(),
    }
}

/// The number that a decimal constant writes, where C's `int` has it.
pub fn number_in(bytes: &[u8]) -> Option<i128>
    requires { is_allowed (kind.Number suffix.Plain) bytes.now ≡ true }
    ensures { result ≡ number_of bytes.now }
{
    match ascii_text(bytes).parse::<i32>() {
        Ok(value) => Some(i128::from(value)),
        Err(_) => None,
    }
}
