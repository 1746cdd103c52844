//! The longest lexeme at a place.

ghost use Rattle.std.specs.Prelude.{◌≡◌, ℕ, ◌-◌, ◌^◌, ◌<◌, ◌≤◌, true, false, ◌&&◌, ◌==◌, length, take, slice_index, codes};
ghost use Rattle.std.specs.List.{list_any};
ghost use Rattle.c_lexer.specs.Bytes.{is_letter, is_digit, is_blank};
ghost use Rattle.c_lexer.specs.Lexemes as spec;
ghost use Rattle.c_lexer.specs.Lexemes.{is_plain, is_escape, is_plain_character, is_escaped_character, is_string_of, is_mark, IsRangeAt, HasNoRange, BeginsOnly, IsLongest};
ghost use Rattle.c_lexer.specs.Lexing.{IsLexeme, whole_token};
ghost use Rattle.c_lexer.specs.declared.profile.Profile.TheVariants as variants;

use crate::bytes::{is_among, is_digit, is_keyword, is_letter};
use crate::fault::Flaw;
use crate::number::number_of;
use crate::piece::{Extent, Piece};
use crate::profile::Profile;
use crate::run::{byte_at, number_run, skip, text_len, word_len};
use crate::token::TokenKind;

static C_MARKS: [&str; 45] = [
    "{", "}", "(", ")", "[", "]", ";", ",", ".", "&", "*", "+", "-", "~", "!", "/", "%", "<", ">",
    "^", "|", "?", ":", "=", "->", "++", "--", "<<", ">>", "<=", ">=", "==", "!=", "&&", "||",
    "*=", "/=", "%=", "+=", "-=", "&=", "^=", "|=", "<<=", ">>=",
];

static FURTHER_MARKS: [&str; 3] = ["==>", "<==>", ".."];

static DIRECTIVES: [&str; 3] = ["init", "accept", "deterministic"];
/// The most bytes that a string may have between its quotes.
const MAX_STRING: usize = 64;
/// The length of `<==>`.
const MAX_MARK: usize = 4;

fn whole_token(kind: TokenKind, len: usize) -> Piece
    ensures { result ≡ whole_token kind len }
{
    Piece::Token(
        kind,
        Extent {
            first: 0,
            past: len,
            len,
        },
    )
}

fn word(profile: Profile, text: &[u8]) -> Piece
    requires { is_letter (slice_index text.now 0) ≡ true }
    ensures { IsLexeme profile text.now result }
{
    let len = word_len(text);
    if is_keyword(&text[..len]) {
        whole_token(TokenKind::Keyword, len)
    } else {
        whole_token(TokenKind::Name, len)
    }
}

/// Where the first `..` before `past` begins, or `past`.
fn range_at(text: &[u8], past: usize) -> usize
    requires { past ≤ length text.now }
    ensures within { result ≤ past }
    ensures before { HasNoRange text.now result }
    ensures here { result < past → IsRangeAt text.now result }
{
    for at in 0..past {
        if byte_at(text, at) == b'.' && byte_at(text, at + 1) == b'.' {
            return at;
        }
    }
    past
}

/// The length of the number that the text begins with.
fn number_len(profile: Profile, text: &[u8]) -> usize
    requires { is_digit (slice_index text.now 0) ≡ true }
    ensures { IsLongest profile text.now spec.number result }
{
    let run = number_run(text);
    if profile.is_specification() {
        range_at(text, run)
    } else {
        run
    }
}

fn number(profile: Profile, text: &[u8]) -> Piece
    requires { is_digit (slice_index text.now 0) ≡ true }
    ensures { IsLexeme profile text.now result }
{
    let len = number_len(profile, text);
    match number_of(&text[..len]) {
        Ok(suffix) => whole_token(TokenKind::Number(suffix), len),
        Err(flaw) => Piece::Fault(flaw),
    }
}

fn is_plain(byte: u8) -> bool
    ensures { result ≡ is_plain byte }
{
    matches!(byte, b' '..=b'~') && !matches!(byte, b'\'' | b'\\')
}

fn is_escape(byte: u8) -> bool
    ensures { result ≡ is_escape byte }
{
    matches!(byte, b'n' | b't' | b'r' | b'0' | b'\\' | b'\'' | b'"')
}

/// Whether a byte that stands for itself, and a quote, follow the first quote.
fn is_plain_character(text: &[u8]) -> bool
    ensures { result ≡ is_plain_character text.now }
{
    is_plain(byte_at(text, 1)) && byte_at(text, 2) == b'\''
}

/// Whether an escape sequence and a quote follow the first quote.
fn is_escaped_character(text: &[u8]) -> bool
    ensures { result ≡ is_escaped_character text.now }
{
    byte_at(text, 1) == b'\\' && is_escape(byte_at(text, 2)) && byte_at(text, 3) == b'\''
}

fn character(profile: Profile, text: &[u8]) -> Piece
    requires { slice_index text.now 0 ≡ 39 }
    ensures { IsLexeme profile text.now result }
{
    if is_plain_character(text) {
        whole_token(TokenKind::Character, 3)
    } else if is_escaped_character(text) {
        whole_token(TokenKind::Character, 4)
    } else {
        Piece::Fault(Flaw::BadCharacter)
    }
}

/// Whether so many bytes and a quote after the first one make a string.
fn is_string_of(text: &[u8], len: usize) -> bool
    requires { len < 2 ^ 64 - 1 }
    ensures { result ≡ is_string_of text.now len }
{
    1 <= len && len <= MAX_STRING && byte_at(text, len + 1) == b'"'
}

fn string(text: &[u8]) -> Piece
    requires { slice_index text.now 0 ≡ 34 }
    ensures { IsLexeme variants.Annotation text.now result }
{
    let len = text_len(skip(text, 1));
    if is_string_of(text, len) {
        whole_token(TokenKind::Text, len + 2)
    } else {
        Piece::Fault(Flaw::BadByte)
    }
}

fn backslash(profile: Profile, text: &[u8]) -> Piece
    requires specification { spec.is_specification profile ≡ true }
    requires first { slice_index text.now 0 ≡ 92 }
    ensures { IsLexeme profile text.now result }
{
    if is_letter(byte_at(text, 1)) {
        whole_token(TokenKind::Backslash, 1 + word_len(skip(text, 1)))
    } else {
        Piece::Fault(Flaw::BadByte)
    }
}

#[tactic(auto, unfolding(crate::specs::Lexemes::is_mark, crate::specs::Lexemes::c_marks, crate::specs::Lexemes::further_marks))]
fn is_mark(profile: Profile, bytes: &[u8]) -> bool
    ensures { result ≡ is_mark profile bytes.now }
{
    is_among(&C_MARKS, bytes) || (profile.is_specification() && is_among(&FURTHER_MARKS, bytes))
}

/// The length of the longest punctuator that the text begins with, or 0, found from the greatest length down.
fn longest_mark(profile: Profile, text: &[u8]) -> usize
    ensures within { result ≤ length text.now }
    ensures mark { 0 < result → is_mark profile (take result text.now) ≡ true }
    ensures longest { (m : ℕ) → m ≤ length text.now → is_mark profile (take m text.now) ≡ true → m ≤ result }
{
    let mut len = text.len().min(MAX_MARK);
    while len > 0 && !is_mark(profile, &text[..len]) {
        len -= 1;
    }
    len
}

/// Whether the byte is a punctuator that begins no longer one.
fn is_lone(byte: u8) -> bool
    ensures { result ≡ list_any (λ c. byte == c) (codes "{}()[];,~?:") }
{
    matches!(
        byte,
        b'{' | b'}' | b'(' | b')' | b'[' | b']' | b';' | b',' | b'~' | b'?' | b':'
    )
}

/// The length of the longest punctuator that the text begins with, or 0.
fn mark_len(profile: Profile, text: &[u8]) -> usize
    ensures within { result ≤ length text.now }
    ensures mark { 0 < result → is_mark profile (take result text.now) ≡ true }
    ensures longest { (m : ℕ) → m ≤ length text.now → is_mark profile (take m text.now) ≡ true → m ≤ result }
{
    if is_lone(byte_at(text, 0)) {
        1
    } else {
        longest_mark(profile, text)
    }
}

/// What stands where no other lexeme than a punctuator can begin.
fn mark(profile: Profile, text: &[u8]) -> Piece
    requires others { BeginsOnly profile text.now spec.mark }
    requires quote { (slice_index text.now 0 == 39) ≡ false }
    ensures { IsLexeme profile text.now result }
{
    let len = mark_len(profile, text);
    if len > 0 {
        whole_token(TokenKind::Punctuation, len)
    } else {
        Piece::Fault(Flaw::BadByte)
    }
}

/// What stands where `%` does in a Ya text.
fn percent(text: &[u8]) -> Piece
    requires { slice_index text.now 0 ≡ 37 }
    ensures { IsLexeme variants.Ya text.now result }
{
    let name = skip(text, 1);
    let len = word_len(name);
    if is_among(&DIRECTIVES, &name[..len]) {
        whole_token(TokenKind::Percent, len + 1)
    } else {
        mark(Profile::Ya, text)
    }
}

fn begins_string(profile: Profile, byte: u8) -> bool
    ensures { result ≡ (spec.is_annotation profile && byte == 34) }
{
    profile.is_annotation() && byte == b'"'
}

fn begins_backslash(profile: Profile, byte: u8) -> bool
    ensures { result ≡ (spec.is_specification profile && byte == 92) }
{
    profile.is_specification() && byte == b'\\'
}

fn begins_directive(profile: Profile, byte: u8) -> bool
    ensures { result ≡ (spec.is_ya profile && byte == 37) }
{
    profile.is_ya() && byte == b'%'
}

/// The longest lexeme that begins the text, as a token, or the fault.
pub(crate) fn lexeme(profile: Profile, text: &[u8]) -> Piece
    ensures { IsLexeme profile text.now result }
{
    let first = byte_at(text, 0);
    if is_letter(first) {
        word(profile, text)
    } else if is_digit(first) {
        number(profile, text)
    } else if first == b'\'' {
        character(profile, text)
    } else if begins_string(profile, first) {
        string(text)
    } else if begins_backslash(profile, first) {
        backslash(profile, text)
    } else if begins_directive(profile, first) {
        percent(text)
    } else {
        mark(profile, text)
    }
}
