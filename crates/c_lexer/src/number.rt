//! Integer constants.

ghost use Rattle.std.specs.Prelude.{◌≡◌, ◌+◌, ◌*◌, ◌<◌, ◌^◌, ◌≤◌, length, Some, MatchOption};
ghost use Rattle.std.specs.List.{take_while};
ghost use Rattle.c_lexer.specs.Numbers.{radix_of, body_of, base_of, is_digit_in, digit_value, value_of, suffix_of, is_held, held_number, number_of};

use crate::bytes::{is_among, is_digit};
use crate::fault::Flaw;
use crate::run::{byte_at, skip};
use crate::token::IntSuffix;

/// How an integer constant is written.
#[derive(Clone, Copy)]
pub(crate) enum Radix {
    Decimal,
    Octal,
    Hexadecimal,
}

#[tactic(auto, unfolding(crate::specs::Numbers::radix_of))]
pub(crate) fn radix_of(word: &[u8]) -> Radix
    ensures { result ≡ radix_of word.now }
{
    if byte_at(word, 0) != b'0' {
        Radix::Decimal
    } else if matches!(byte_at(word, 1), b'x' | b'X') {
        Radix::Hexadecimal
    } else {
        Radix::Octal
    }
}

pub(crate) fn body_of(radix: Radix, word: &[u8]) -> &[u8]
    ensures { result.now ≡ body_of radix word.now }
{
    match radix {
        Radix::Hexadecimal => skip(word, 2),
        Radix::Decimal | Radix::Octal => word,
    }
}

pub(crate) fn base_of(radix: Radix) -> u64
    ensures { result ≡ base_of radix }
{
    match radix {
        Radix::Decimal => 10,
        Radix::Octal => 8,
        Radix::Hexadecimal => 16,
    }
}

fn is_digit_in(radix: Radix, byte: u8) -> bool
    ensures { result ≡ is_digit_in radix byte }
{
    match radix {
        Radix::Decimal => is_digit(byte),
        Radix::Octal => matches!(byte, b'0'..=b'7'),
        Radix::Hexadecimal => is_digit(byte) || matches!(byte, b'a'..=b'f' | b'A'..=b'F'),
    }
}

pub(crate) fn digit_len(radix: Radix, body: &[u8]) -> usize
    ensures { result ≡ length (take_while (is_digit_in radix) body.now) }
{
    body.iter()
        .take_while(|byte| is_digit_in(radix, **byte))
        .count()
}

fn digit_value(byte: u8) -> u8
    ensures { result ≡ digit_value byte }
{
    match byte {
        b'0'..=b'9' => byte - b'0',
        b'A'..=b'F' => byte - b'A' + 10,
        _ => byte.saturating_sub(b'a' - 10),
    }
}

/// The value with one digit more; `None` from 2^64 on.
fn with_digit(value: u64, base: u64, digit: u64) -> Option<u64>
    ensures { MatchOption result (2 ^ 64 ≤ value * base + digit) (λ more. more ≡ value * base + digit) }
{
    value.checked_mul(base)?.checked_add(digit)
}

/// The value of the digits; `None` from 2^64 on.
pub(crate) fn value_of(base: u64, digits: &[u8]) -> Option<u64>
    requires { 0 < base }
    ensures { MatchOption result (2 ^ 64 ≤ value_of base digits.now) (λ value. value ≡ value_of base digits.now) }
{
    let mut value = 0;
    for digit in digits {
        match with_digit(value, base, u64::from(digit_value(*digit))) {
            Some(more) => value = more,
            None => return None,
        }
    }
    Some(value)
}

static UNSIGNED: [&str; 2] = ["u", "U"];

static LONG: [&str; 2] = ["l", "L"];

static UNSIGNED_LONG: [&str; 8] = ["ul", "uL", "Ul", "UL", "lu", "lU", "Lu", "LU"];

static NO_SUFFIX: [&str; 1] = [""];

/// The suffix, if it is one.
#[tactic(auto, unfolding(crate::specs::Numbers::suffix_of))]
fn suffix_of(bytes: &[u8]) -> Option<IntSuffix>
    ensures { result ≡ suffix_of bytes.now }
{
    if is_among(&NO_SUFFIX, bytes) {
        Some(IntSuffix::Plain)
    } else if is_among(&UNSIGNED, bytes) {
        Some(IntSuffix::U)
    } else if is_among(&LONG, bytes) {
        Some(IntSuffix::L)
    } else if is_among(&UNSIGNED_LONG, bytes) {
        Some(IntSuffix::UL)
    } else {
        None
    }
}

/// Whether the value is one of `long`; only for a decimal constant without `u` that is all there is.
#[tactic(auto, unfolding(crate::specs::Numbers::constant_types))]
fn is_held(radix: Radix, suffix: IntSuffix, value: u64) -> bool
    requires { value < 2 ^ 64 }
    ensures { result ≡ is_held radix suffix value }
{
    match (radix, suffix) {
        (Radix::Decimal, IntSuffix::Plain | IntSuffix::L) => value < 1 << 63,
        _ => true,
    }
}

fn held_number(radix: Radix, digits: &[u8], suffix: IntSuffix) -> Result<IntSuffix, Flaw>
    ensures { result ≡ held_number radix digits.now (Some suffix) }
{
    match value_of(base_of(radix), digits) {
        Some(value) => {
            if is_held(radix, suffix, value) {
                Ok(suffix)
            } else {
                Err(Flaw::NumberTooWide)
            }
        }
        None => Err(Flaw::NumberTooWide),
    }
}

/// The suffix of the integer constant that the bytes are.
#[tactic(auto, unfolding(crate::specs::Numbers::number_of))]
pub(crate) fn number_of(word: &[u8]) -> Result<IntSuffix, Flaw>
    ensures { result ≡ number_of word.now }
{
    let radix = radix_of(word);
    let body = body_of(radix, word);
    let len = digit_len(radix, body);
    if len == 0 {
        return Err(Flaw::BadNumber);
    }
    match suffix_of(&body[len..]) {
        Some(suffix) => held_number(radix, &body[..len], suffix),
        None => Err(Flaw::BadNumber),
    }
}
