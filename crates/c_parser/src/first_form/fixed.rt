//! The words that the first form fixes.
ghost use Rattle.std.specs.Prelude.{◌≡◌};
ghost use Rattle.c_parser.specs.FirstForm.FixedWords.{fixed_word, is_fixed, same_kind as same_kind_number};

use c_lexer::{IntSuffix, TokenKind};

/// A word that the form fixes: a keyword, a punctuator, the number 0, or a word of an annotation.
#[derive(Clone, Copy)]
pub enum Fixed {
    Int,
    Void,
    Return,
    Zero,
    Main,
    Semicolon,
    Comma,
    LeftParen,
    RightParen,
    LeftBrace,
    RightBrace,
    Equals,
    Ampersand,
    Colon,
    /// `/*@`
    Open,
    /// `*/`
    Close,
    Meta,
    Assert,
    /// `weave_1`
    Label,
    /// `\prop`, and so the words after it
    Prop,
    Name,
    Targets,
    All,
    Context,
    Writing,
    Separated,
    Written,
}

impl Fixed {
    pub fn kind(self) -> TokenKind
        ensures { result ≡ (fixed_word self).kind }
    {
        match self {
            Fixed::Int | Fixed::Void | Fixed::Return => TokenKind::Keyword,
            Fixed::Zero => TokenKind::Number(IntSuffix::Plain),
            Fixed::Main | Fixed::Meta | Fixed::Assert | Fixed::Label => TokenKind::Name,
            Fixed::Semicolon
            | Fixed::Comma
            | Fixed::LeftParen
            | Fixed::RightParen
            | Fixed::LeftBrace
            | Fixed::RightBrace
            | Fixed::Equals
            | Fixed::Ampersand
            | Fixed::Colon
            | Fixed::Open
            | Fixed::Close => TokenKind::Punctuation,
            Fixed::Prop
            | Fixed::Name
            | Fixed::Targets
            | Fixed::All
            | Fixed::Context
            | Fixed::Writing
            | Fixed::Separated
            | Fixed::Written => TokenKind::Backslash,
        }
    }

    pub fn bytes(self) -> &'static [u8]
        ensures { result.now ≡ (fixed_word self).bytes }
    {
        match self {
            Fixed::Int => b"int",
            Fixed::Void => b"void",
            Fixed::Return => b"return",
            Fixed::Zero => b"0",
            Fixed::Main => b"main",
            Fixed::Semicolon => b";",
            Fixed::Comma => b",",
            Fixed::LeftParen => b"(",
            Fixed::RightParen => b")",
            Fixed::LeftBrace => b"{",
            Fixed::RightBrace => b"}",
            Fixed::Equals => b"=",
            Fixed::Ampersand => b"&",
            Fixed::Colon => b":",
            Fixed::Open => b"/*@",
            Fixed::Close => b"*/",
            Fixed::Meta => b"meta",
            Fixed::Assert => b"assert",
            Fixed::Label => b"weave_1",
            Fixed::Prop => b"\\prop",
            Fixed::Name => b"\\name",
            Fixed::Targets => b"\\targets",
            Fixed::All => b"\\ALL",
            Fixed::Context => b"\\context",
            Fixed::Writing => b"\\writing",
            Fixed::Separated => b"\\separated",
            Fixed::Written => b"\\written",
        }
    }

    /// Whether a word of this kind and with these bytes is this one.
    #[tactic(auto, unfolding(crate::specs::FirstForm::FixedWords::is_fixed))]
    pub fn is(self, kind: TokenKind, bytes: &[u8]) -> bool
        ensures { result ≡ is_fixed self (record { kind = kind; bytes = bytes.now }) }
    {
        same_kind(self.kind(), kind) && self.bytes() == bytes
    }
}

fn same_kind(a: TokenKind, b: TokenKind) -> bool
    ensures { result ≡ same_kind_number a b }
{
    a == b
}
