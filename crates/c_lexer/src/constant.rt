//! The values of constants.

ghost use Rattle.std.specs.Prelude.{◌≡◌, ◌^◌, ◌≤◌, nat_lt, Some, None, if◌then◌else◌, MatchOption};
ghost use Rattle.c_lexer.specs.ConstantLaws.{NumbersHaveTypes};
ghost use Rattle.c_lexer.specs.Lexemes as lexemes;
ghost use Rattle.c_lexer.specs.Numbers as spec;

use crate::number::{Radix, base_of, body_of, digit_len, number_of, radix_of, value_of};
use crate::run::byte_at;
use crate::token::{ConstantType, IntSuffix, IntegerConstant};

/// Whether the type holds the value.
fn holds(kind: ConstantType, value: u64) -> bool
    ensures { result ≡ nat_lt value (spec.limit_of kind) }
{
    match kind {
        ConstantType::Int => value < 1 << 31,
        ConstantType::UnsignedInt => value < 1 << 32,
        ConstantType::Long => value < 1 << 63,
        ConstantType::UnsignedLong => true,
    }
}

/// The type, where it holds the value, or else one of the later types.
fn first_of(kind: ConstantType, value: u64, later: Option<ConstantType>) -> Option<ConstantType>
    ensures { result ≡ (if nat_lt value (spec.limit_of kind) then Some kind else later) }
{
    if holds(kind, value) {
        Some(kind)
    } else {
        later
    }
}

/// The first type that holds the value.
#[tactic(auto, unfolding(crate::specs::Numbers::constant_types, crate::specs::Numbers::first_holding))]
fn constant_type(radix: Radix, suffix: IntSuffix, value: u64) -> Option<ConstantType>
    ensures { result ≡ spec.first_holding (spec.constant_types radix suffix) value }
{
    let unsigned_long = first_of(ConstantType::UnsignedLong, value, None);
    match (radix, suffix) {
        (Radix::Decimal, IntSuffix::Plain) => {
            let long = first_of(ConstantType::Long, value, None);
            first_of(ConstantType::Int, value, long)
        }
        (Radix::Decimal, IntSuffix::L) => first_of(ConstantType::Long, value, None),
        (_, IntSuffix::Plain) => {
            let long = first_of(ConstantType::Long, value, unsigned_long);
            let unsigned = first_of(ConstantType::UnsignedInt, value, long);
            first_of(ConstantType::Int, value, unsigned)
        }
        (_, IntSuffix::L) => first_of(ConstantType::Long, value, unsigned_long),
        (_, IntSuffix::U) => first_of(ConstantType::UnsignedInt, value, unsigned_long),
        (_, IntSuffix::UL) => unsigned_long,
    }
}

/// The value of the digits; `None` from 2^64 on.
#[tactic(auto, unfolding(crate::specs::Numbers::number_value))]
fn number_value(word: &[u8]) -> Option<u64>
    ensures { MatchOption result (2 ^ 64 ≤ spec.number_value word.now) (λ value. value ≡ spec.number_value word.now) }
{
    let radix = radix_of(word);
    let body = body_of(radix, word);
    let len = digit_len(radix, body);
    value_of(base_of(radix), &body[..len])
}

/// The constant with this suffix.
#[tactic(auto, unfolding(crate::specs::Numbers::constant_with), using(crate::proofs::ConstantLemmas::no_constant))]
fn constant_with(suffix: IntSuffix, word: &[u8]) -> Option<IntegerConstant>
    ensures { result ≡ spec.constant_with suffix word.now }
{
    let Some(value) = number_value(word) else {
        return None;
    };
    match constant_type(radix_of(word), suffix, value) {
        Some(kind) => Some(IntegerConstant { value, kind }),
        None => None,
    }
}

/// The value and the type of the integer constant that the bytes are (C11 6.4.4.1);
/// `None` where they are none, or no type holds it.
#[tactic(auto, unfolding(crate::specs::Numbers::constant_of))]
pub fn integer_constant(word: &[u8]) -> Option<IntegerConstant>
    ensures { result ≡ spec.constant_of word.now }
{
    match number_of(word) {
        Ok(suffix) => constant_with(suffix, word),
        Err(_) => None,
    }
}

/// The byte that an escape sequence stands for, by the byte after its backslash.
fn escaped(byte: u8) -> u8
    ensures { result ≡ lexemes.escaped byte }
{
    match byte {
        b'n' => 10,
        b't' => 9,
        b'r' => 13,
        b'0' => 0,
        _ => byte,
    }
}

/// The value of the character constant that the bytes are (C11 6.4.4.4).
#[tactic(auto, unfolding(crate::specs::Lexemes::character_value))]
pub fn character_value(word: &[u8]) -> u8
    ensures { result ≡ lexemes.character_value word.now }
{
    if byte_at(word, 1) == b'\\' {
        escaped(byte_at(word, 2))
    } else {
        byte_at(word, 1)
    }
}

/// Each number that the lexer lets through has a value and a type.
pub fn numbers_have_types()
    ensures { NumbersHaveTypes }
{}
