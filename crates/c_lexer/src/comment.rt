//! Comments, annotations and line markers.

ghost use Rattle.std.specs.Prelude.{◌≡◌, ℕ, ◌+◌, ◌-◌, ◌≤◌, true, false, length, take, drop, slice_index, MatchOption};
ghost use Rattle.c_lexer.specs.Comments.{Closes, ClosesFirst, IsBlockComment, annotation_of, comment_piece, kind_by_word, first_word, is_marker};
ghost use Rattle.c_lexer.specs.Comments as spec;

use crate::bytes::{is_blank, is_digit};
use crate::fault::Flaw;
use crate::piece::{Extent, Piece};
use crate::profile::Profile;
use crate::run::{annotation_blank_len, blank_len, byte_at, digit_len, line_len, skip, word_len};
use crate::token::TokenKind;

/// Where the first `*/` begins.
fn close_at(text: &[u8]) -> Option<usize>
    ensures { MatchOption result ((k : ℕ) → Closes text.now k → ⊥) (λ k. ClosesFirst text.now k) }
{
    for (at, byte) in text.iter().enumerate() {
        if *byte == b'*' && byte_at(text, at + 1) == b'/' {
            return Some(at);
        }
    }
    None
}

fn kind_by_word(word: &[u8]) -> Option<TokenKind>
    ensures { result ≡ kind_by_word word.now }
{
    if word == "meta".as_bytes() {
        Some(TokenKind::Meta)
    } else if word == "ghost".as_bytes() {
        Some(TokenKind::Ghost)
    } else if word == "assert".as_bytes() {
        Some(TokenKind::Assert)
    } else {
        None
    }
}

/// The kind of the annotation that a comment with this content is.
#[tactic(auto, unfolding(crate::specs::Comments::annotation_of))]
fn annotation_of(content: &[u8]) -> Option<TokenKind>
    ensures { result ≡ annotation_of content.now }
{
    match content.split_first() {
        Some((b'@', inside)) => {
            let words = skip(inside, annotation_blank_len(inside));
            kind_by_word(&words[..word_len(words)])
        }
        _ => None,
    }
}

/// A comment of `len` bytes, whose content goes from its third byte to `past`.
#[tactic(auto, unfolding(crate::specs::Comments::comment_piece))]
fn comment(profile: Profile, text: &[u8], past: usize, len: usize) -> Piece
    requires some { 2 ≤ past }
    requires within { past ≤ length text.now }
    ensures { result ≡ comment_piece profile text.now past len }
{
    if profile.is_specification() {
        return Piece::Ignored(len);
    }
    match annotation_of(&text[2..past]) {
        Some(kind) => Piece::Token(
            kind,
            Extent {
                first: 3,
                past,
                len,
            },
        ),
        None => Piece::Ignored(len),
    }
}

/// What stands where `/*` does.
pub(crate) fn block_comment(profile: Profile, text: &[u8]) -> Piece
    requires { 2 ≤ length text.now }
    ensures { IsBlockComment profile text.now result }
{
    match close_at(&text[2..]) {
        Some(at) => comment(profile, text, at + 2, at + 4),
        None => Piece::Fault(Flaw::OpenComment),
    }
}

/// What stands where `//` does.
pub(crate) fn line_comment(profile: Profile, text: &[u8]) -> Piece
    requires first { slice_index text.now 0 ≡ 47 }
    requires second { slice_index text.now 1 ≡ 47 }
    ensures { result ≡ spec.line_comment profile text.now }
{
    let len = line_len(text);
    comment(profile, text, len, len)
}

/// Whether the bytes after the `#` of a line are blanks, digits, and then a blank or nothing.
#[tactic(auto, unfolding(crate::specs::Comments::is_marker))]
fn is_marker(line: &[u8]) -> bool
    ensures { result ≡ is_marker line.now }
{
    let digits = skip(line, blank_len(line));
    let rest = skip(digits, digit_len(digits));
    is_blank(byte_at(line, 0))
        && is_digit(byte_at(digits, 0))
        && (rest.is_empty() || is_blank(byte_at(rest, 0)))
}

/// What stands where a line begins with `#`.
#[tactic(auto, unfolding(crate::specs::Comments::marker_piece))]
pub(crate) fn line_marker(text: &[u8]) -> Piece
    ensures { result ≡ spec.marker_piece text.now }
{
    let len = line_len(text);
    if is_marker(skip(&text[..len], 1)) {
        Piece::Ignored(len)
    } else {
        Piece::Fault(Flaw::HashLine)
    }
}
