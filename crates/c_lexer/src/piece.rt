//! What stands at a place of a text.

ghost use Rattle.std.specs.Prelude.{◌≡◌, ◌==◌, ◌&&◌, not, slice_index};
ghost use Rattle.c_lexer.specs.Lexemes.{is_specification};
ghost use Rattle.c_lexer.specs.Lexing.{is_blank_in, Stands, Reaches};

use crate::bytes::is_blank;
use crate::comment::{block_comment, line_comment, line_marker};
use crate::fault::Flaw;
use crate::lexeme::lexeme;
use crate::profile::Profile;
use crate::run::byte_at;
use crate::token::TokenKind;

/// The length of a token in bytes, and where among them its text begins and ends.
#[derive(Clone, Copy)]
pub(crate) struct Extent {
    pub first: usize,
    pub past: usize,
    pub len: usize,
}

/// What stands at a place of a text.
#[derive(Clone, Copy)]
pub(crate) enum Piece {
    End,
    Blank(u8),
    /// A comment or a line marker of so many bytes.
    Ignored(usize),
    Token(TokenKind, Extent),
    Fault(Flaw),
}

fn is_blank_in(profile: Profile, byte: u8) -> bool
    ensures { result ≡ is_blank_in profile byte }
{
    is_blank(byte) || (profile.is_annotation() && byte == b'@')
}

fn opens_block_comment(text: &[u8]) -> bool
    ensures { result ≡ (slice_index text.now 0 == 47 && slice_index text.now 1 == 42) }
{
    byte_at(text, 0) == b'/' && byte_at(text, 1) == b'*'
}

fn opens_line_comment(text: &[u8]) -> bool
    ensures { result ≡ (slice_index text.now 0 == 47 && slice_index text.now 1 == 47) }
{
    byte_at(text, 0) == b'/' && byte_at(text, 1) == b'/'
}

fn opens_line_marker(profile: Profile, leads: bool, byte: u8) -> bool
    ensures { result ≡ (byte == 35 && (not (is_specification profile) && leads)) }
{
    byte == b'#' && !profile.is_specification() && leads
}

/// What stands at the front of a text. `leads` says that its line begins outside comments and has nothing but blanks before.
pub(crate) fn piece_of(profile: Profile, leads: bool, text: &[u8]) -> Piece
    ensures stands { Stands profile leads text.now result }
    ensures reaches { Reaches text.now result }
{
    if text.is_empty() {
        return Piece::End;
    }
    let first = byte_at(text, 0);
    if is_blank_in(profile, first) {
        Piece::Blank(first)
    } else if opens_block_comment(text) {
        block_comment(profile, text)
    } else if opens_line_comment(text) {
        line_comment(profile, text)
    } else if opens_line_marker(profile, leads, first) {
        line_marker(text)
    } else {
        lexeme(profile, text)
    }
}
