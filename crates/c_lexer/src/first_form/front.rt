//! What stands at a place of a text of the first form.

ghost use Rattle.std.specs.Prelude.{◌≡◌, ◌≢◌, ◌==◌, ℕ, ◌<◌, ◌≤◌, true, false, length, drop, slice_index, codes};
ghost use Rattle.std.specs.List.{list_all, list_any};
ghost use Rattle.c_lexer.specs.Bytes.{is_between, is_blank, is_digit, is_letter};
ghost use Rattle.c_lexer.specs.FirstForm.Tokens.{is_decimal};
ghost use Rattle.c_lexer.specs.FirstForm.Fronts.{Stands, Reaches};

use crate::bytes::{is_blank, is_digit, is_keyword, is_letter};
use crate::run::{byte_at, number_run, word_len};
use crate::token::{IntSuffix, TokenKind};

/// What stands at a place of a text.
#[derive(Clone, Copy)]
pub(crate) enum Front {
    End,
    Blank(u8),
    /// The longest token that begins there, with its length in bytes.
    Token(TokenKind, usize),
    /// Nothing that a text of the form may have there.
    Other,
}

fn all_digits(bytes: &[u8]) -> bool
    ensures { result ≡ list_all is_digit bytes.now }
{
    bytes.iter().all(|byte| is_digit(*byte))
}

fn is_leading_digit(byte: u8) -> bool
    ensures { result ≡ is_between 49 57 byte }
{
    matches!(byte, b'1'..=b'9')
}

/// Whether the bytes are `0`, or decimal digits of which the first is not 0.
#[tactic(auto, using(crate::proofs::TokenLemmas::is_decimal_more), unfolding(crate::specs::FirstForm::Tokens::is_decimal))]
fn is_decimal(bytes: &[u8]) -> bool
    ensures { result ≡ is_decimal bytes.now }
{
    match bytes.split_first() {
        None => false,
        Some((first, rest)) if rest.is_empty() => is_digit(*first),
        Some((first, rest)) => is_leading_digit(*first) && all_digits(rest),
    }
}

/// Whether the byte is a punctuator of the form by itself.
fn is_mark(byte: u8) -> bool
    ensures { result ≡ list_any (λ c. byte == c) (codes ";,(){}=&:") }
{
    matches!(
        byte,
        b';' | b',' | b'(' | b')' | b'{' | b'}' | b'=' | b'&' | b':'
    )
}

fn word(text: &[u8]) -> Front
    requires { is_letter (slice_index text.now 0) ≡ true }
    ensures { Stands text.now result }
{
    let len = word_len(text);
    if is_keyword(&text[..len]) {
        Front::Token(TokenKind::Keyword, len)
    } else {
        Front::Token(TokenKind::Name, len)
    }
}

fn number(text: &[u8]) -> Front
    requires { is_digit (slice_index text.now 0) ≡ true }
    ensures { Stands text.now result }
{
    let len = number_run(text);
    if is_decimal(&text[..len]) {
        Front::Token(TokenKind::Number(IntSuffix::Plain), len)
    } else {
        Front::Other
    }
}

fn backslash_word(text: &[u8]) -> Front
    requires { slice_index text.now 0 ≡ 92 }
    ensures { Stands text.now result }
{
    if is_letter(byte_at(text, 1)) {
        Front::Token(TokenKind::Backslash, 1 + word_len(&text[1..]))
    } else {
        Front::Other
    }
}

fn punctuation(text: &[u8]) -> Front
    requires some { 0 < length text.now }
    requires blank { is_blank (slice_index text.now 0) ≡ false }
    requires letter { is_letter (slice_index text.now 0) ≡ false }
    requires digit { is_digit (slice_index text.now 0) ≡ false }
    requires backslash { slice_index text.now 0 ≢ 92 }
    ensures { Stands text.now result }
{
    if is_mark(byte_at(text, 0)) {
        Front::Token(TokenKind::Punctuation, 1)
    } else if text.starts_with(b"/*@") {
        Front::Token(TokenKind::Punctuation, 3)
    } else if text.starts_with(b"*/") {
        Front::Token(TokenKind::Punctuation, 2)
    } else {
        Front::Other
    }
}

fn front_of(text: &[u8]) -> Front
    ensures { Stands text.now result }
{
    match text.first().copied() {
        None => Front::End,
        Some(byte) if is_blank(byte) => Front::Blank(byte),
        Some(byte) if is_letter(byte) => word(text),
        Some(byte) if is_digit(byte) => number(text),
        Some(b'\\') => backslash_word(text),
        Some(_) => punctuation(text),
    }
}

/// What stands at a place, which reaches no further than the text.
pub(crate) fn front_at(text: &[u8], at: usize) -> Front
    requires { at ≤ length text.now }
    ensures stands { Stands (drop at text.now) result }
    ensures reaches { Reaches (drop at text.now) result }
{
    front_of(&text[at..])
}
