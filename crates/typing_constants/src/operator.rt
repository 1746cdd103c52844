//! Operators on integers (C11 6.5.3.3, 6.5.5 to 6.5.12), with no value where they make a fault. The operands are any integers
//! of 128 bits, whether they lie in the kind of the operator or not.

ghost use Rattle.std.specs.Prelude.{◌≡◌, ◌<◌, ◌^◌, ◌*◌, ◌&&◌, not, pos, ℤ, ◌+ℤ◌, ◌-ℤ◌, ◌*ℤ◌, int_div, int_rem, int_lt, bit_and, bit_or, bit_xor, FitsSigned, Ok, IsFalse};
ghost use Rattle.std.specs.Int.{w128, int_wrap};
ghost use Rattle.std.specs.Option.{SomeIff};
ghost use Rattle.step_meaning.specs.Numbers.{width as width_of, is_signed as is_signed_kind, least as least_of, greatest as greatest_of, is_in_range, converted, low_bits as low_bits_of, is_zero as is_zero_of, with_divisor, remainder as remainder_of, with_count, shifted_up, shifted_down, binary_of, unary_of, compared_integers, in_kind as result_in_kind};
ghost use Rattle.step_meaning.specs.Types.{where_true};
ghost use Rattle.typing_rules.specs.ConstantExpressions.{without_fault};

use step_meaning::{CompareOp, IntKind, IntOp, UnaryOp, convert};

/// Whether the kind has negative values.
fn is_signed(kind: IntKind) -> bool
    ensures { result ≡ is_signed_kind kind }
{
    match kind {
        IntKind::UChar | IntKind::UShort | IntKind::UInt | IntKind::ULong => false,
        IntKind::Char | IntKind::SChar | IntKind::Short | IntKind::Int | IntKind::Long => true,
    }
}

/// The number of bits of a value of the kind.
fn width(kind: IntKind) -> u32
    ensures { result ≡ width_of kind }
{
    match kind {
        IntKind::Char | IntKind::SChar | IntKind::UChar => 8,
        IntKind::Short | IntKind::UShort => 16,
        IntKind::Int | IntKind::UInt => 32,
        IntKind::Long | IntKind::ULong => 64,
    }
}

/// The number of values of the kind.
fn modulus(kind: IntKind) -> i128
    ensures { result ≡ pos (2 ^ width_of kind) }
{
    match kind {
        IntKind::Char | IntKind::SChar | IntKind::UChar => 1 << 8,
        IntKind::Short | IntKind::UShort => 1 << 16,
        IntKind::Int | IntKind::UInt => 1 << 32,
        IntKind::Long | IntKind::ULong => 1 << 64,
    }
}

/// The least value of the kind.
fn least(kind: IntKind) -> i128
    ensures { result ≡ least_of kind }
{
    match kind {
        IntKind::Char | IntKind::SChar => i128::from(i8::MIN),
        IntKind::Short => i128::from(i16::MIN),
        IntKind::Int => i128::from(i32::MIN),
        IntKind::Long => i128::from(i64::MIN),
        IntKind::UChar | IntKind::UShort | IntKind::UInt | IntKind::ULong => 0,
    }
}

/// The greatest value of the kind.
fn greatest(kind: IntKind) -> i128
    ensures { result ≡ greatest_of kind }
{
    match kind {
        IntKind::Char | IntKind::SChar => i128::from(i8::MAX),
        IntKind::UChar => i128::from(u8::MAX),
        IntKind::Short => i128::from(i16::MAX),
        IntKind::UShort => i128::from(u16::MAX),
        IntKind::Int => i128::from(i32::MAX),
        IntKind::UInt => i128::from(u32::MAX),
        IntKind::Long => i128::from(i64::MAX),
        IntKind::ULong => i128::from(u64::MAX),
    }
}

/// Whether the value is one of the kind.
fn fits(kind: IntKind, value: i128) -> bool
    ensures { result ≡ is_in_range kind value }
{
    least(kind) <= value && value <= greatest(kind)
}

/// A whole number that is one of the kind. None is handed in where it doesn't fit 128 bits, and so no kind either.
#[tactic(auto, using(crate::proofs::Wholes::beyond_kinds))]
fn fitting(kind: IntKind, whole: Option<i128>) -> Option<i128>
    ensures { (z : ℤ) → SomeIff whole (FitsSigned w128 z) z → result ≡ where_true (is_in_range kind z) z }
{
    match whole {
        None => None,
        Some(value) => { if fits(kind, value) { Some(value) } else { None } }
    }
}

/// The result of an operator in its kind, from the whole number where it fits 128 bits, and from its lower 128 bits: a signed one
/// must lie in its type, an unsigned one is taken modulo 2 to the power of its width (C11 6.2.5, 9; 6.5, 5).
fn in_kind(kind: IntKind, whole: Option<i128>, low: i128) -> Option<i128>
    ensures { (z : ℤ) → SomeIff whole (FitsSigned w128 z) z → low ≡ int_wrap w128 z → result ≡ without_fault (result_in_kind kind z) }
{
    if is_signed(kind) {
        fitting(kind, whole)
    } else {
        Some(convert(kind, low))
    }
}

/// The result of an operator in its kind, from a whole number of 128 bits.
fn in_its_kind(kind: IntKind, value: i128) -> Option<i128>
    ensures { result ≡ without_fault (result_in_kind kind value) }
{
    in_kind(kind, Some(value), value)
}

/// `a + b`
fn sum(kind: IntKind, a: i128, b: i128) -> Option<i128>
    ensures { result ≡ without_fault (result_in_kind kind (a +ℤ b)) }
{
    in_kind(kind, a.checked_add(b), a.wrapping_add(b))
}

/// `a - b`
fn difference(kind: IntKind, a: i128, b: i128) -> Option<i128>
    ensures { result ≡ without_fault (result_in_kind kind (a -ℤ b)) }
{
    in_kind(kind, a.checked_sub(b), a.wrapping_sub(b))
}

/// `a * b`
fn product(kind: IntKind, a: i128, b: i128) -> Option<i128>
    ensures { result ≡ without_fault (result_in_kind kind (a *ℤ b)) }
{
    in_kind(kind, a.checked_mul(b), a.wrapping_mul(b))
}

/// Whether it is 0.
fn is_zero(value: i128) -> bool
    ensures value { result ≡ is_zero_of value }
    ensures nonzero { IsFalse result → value ≡ pos 0 → ⊥ }
{
    value == 0
}

/// `a / b` of a divisor other than 0, rounded towards 0.
fn quotient_by_nonzero(kind: IntKind, a: i128, b: i128) -> Option<i128>
    requires { b ≡ pos 0 → ⊥ }
    ensures { result ≡ without_fault (result_in_kind kind (int_div a b)) }
{
    in_kind(kind, a.checked_div(b), a.wrapping_div(b))
}

/// `a / b` (C11 6.5.5, 5).
fn quotient(kind: IntKind, a: i128, b: i128) -> Option<i128>
    ensures { result ≡ without_fault (with_divisor b (result_in_kind kind (int_div a b))) }
{
    if is_zero(b) {
        None
    } else {
        quotient_by_nonzero(kind, a, b)
    }
}

/// Whether `a / b` is a value of the kind.
fn quotient_fits(kind: IntKind, a: i128, b: i128) -> bool
    requires { b ≡ pos 0 → ⊥ }
    ensures { result ≡ is_in_range kind (int_div a b) }
{
    match fitting(kind, a.checked_div(b)) {
        None => false,
        Some(_) => true,
    }
}

/// Whether `a / b` leaves a signed kind, for a divisor other than 0.
fn quotient_leaves(kind: IntKind, a: i128, b: i128) -> bool
    requires { b ≡ pos 0 → ⊥ }
    ensures { result ≡ (is_signed_kind kind && not (is_in_range kind (int_div a b))) }
{
    is_signed(kind) && !quotient_fits(kind, a, b)
}

/// `a % b` of a divisor other than 0: of a signed kind, none where the quotient leaves it (C11 6.5.5, 6).
fn remainder_by_nonzero(kind: IntKind, a: i128, b: i128) -> Option<i128>
    requires { b ≡ pos 0 → ⊥ }
    ensures { result ≡ without_fault (remainder_of kind a b) }
{
    if quotient_leaves(kind, a, b) {
        None
    } else {
        in_its_kind(kind, a.wrapping_rem(b))
    }
}

/// `a % b` (C11 6.5.5, 5).
fn remainder(kind: IntKind, a: i128, b: i128) -> Option<i128>
    ensures { result ≡ without_fault (with_divisor b (remainder_of kind a b)) }
{
    if is_zero(b) {
        None
    } else {
        remainder_by_nonzero(kind, a, b)
    }
}

/// 2 to the power of a shift count.
fn power_of_two(count: u32) -> i128
    requires { count < 64 }
    ensures { result ≡ pos (2 ^ count) }
{
    1 << count
}

/// Whether it is a negative value of a signed kind, which no shift to the left takes (C11 6.5.7, 4).
fn is_negative(kind: IntKind, a: i128) -> bool
    ensures { result ≡ (int_lt a (pos 0) && is_signed_kind kind) }
{
    a < 0 && is_signed(kind)
}

/// `a * 2 ^ count` (C11 6.5.7, 4).
#[tactic(auto, using(crate::proofs::Wholes::shifted_not, crate::proofs::Wholes::shifted_is))]
fn raised(kind: IntKind, a: i128, count: u32) -> Option<i128>
    requires { count < 64 }
    ensures { result ≡ without_fault (shifted_up kind a count) }
{
    if is_negative(kind, a) {
        None
    } else {
        product(kind, a, power_of_two(count))
    }
}

/// `a / 2 ^ count` rounded downwards.
fn lowered(a: i128, count: u32) -> i128
    requires { count < 64 }
    ensures { result ≡ shifted_down a count }
{
    a.div_euclid(power_of_two(count))
}

/// `a << b` (C11 6.5.7, 3 and 4).
fn shift_up(kind: IntKind, a: i128, b: i128) -> Option<i128>
    ensures { result ≡ without_fault (with_count kind b (shifted_up kind a)) }
{
    if b < 0 || b >= i128::from(width(kind)) {
        None
    } else {
        raised(kind, a, b as u32)
    }
}

/// `a >> b` (C11 6.5.7, 3 and 5).
fn shift_down(kind: IntKind, a: i128, b: i128) -> Option<i128>
    ensures { result ≡ without_fault (with_count kind b (λ n. Ok (shifted_down a n))) }
{
    if b < 0 || b >= i128::from(width(kind)) {
        None
    } else {
        Some(lowered(a, b as u32))
    }
}

/// The value modulo 2 to the power of the width.
fn low_bits(kind: IntKind, a: i128) -> u64
    ensures { result ≡ low_bits_of (width_of kind) a }
{
    a.rem_euclid(modulus(kind)) as u64
}

/// `a & b`
fn and_bits(kind: IntKind, a: i128, b: i128) -> i128
    ensures { result ≡ converted kind (pos (bit_and (low_bits_of (width_of kind) a) (low_bits_of (width_of kind) b))) }
{
    convert(kind, i128::from(low_bits(kind, a) & low_bits(kind, b)))
}

/// `a | b`
fn or_bits(kind: IntKind, a: i128, b: i128) -> i128
    ensures { result ≡ converted kind (pos (bit_or (low_bits_of (width_of kind) a) (low_bits_of (width_of kind) b))) }
{
    convert(kind, i128::from(low_bits(kind, a) | low_bits(kind, b)))
}

/// `a ^ b`
fn xor_bits(kind: IntKind, a: i128, b: i128) -> i128
    ensures { result ≡ converted kind (pos (bit_xor (low_bits_of (width_of kind) a) (low_bits_of (width_of kind) b))) }
{
    convert(kind, i128::from(low_bits(kind, a) ^ low_bits(kind, b)))
}

/// A binary operator in the kind (C11 6.5.5 to 6.5.7, 6.5.10 to 6.5.12).
pub fn binary(op: IntOp, kind: IntKind, a: i128, b: i128) -> Option<i128>
    ensures { result ≡ without_fault (binary_of op kind a b) }
{
    match op {
        IntOp::Add => sum(kind, a, b),
        IntOp::Sub => difference(kind, a, b),
        IntOp::Mul => product(kind, a, b),
        IntOp::Div => quotient(kind, a, b),
        IntOp::Rem => remainder(kind, a, b),
        IntOp::Shl => shift_up(kind, a, b),
        IntOp::Shr => shift_down(kind, a, b),
        IntOp::And => Some(and_bits(kind, a, b)),
        IntOp::Or => Some(or_bits(kind, a, b)),
        IntOp::Xor => Some(xor_bits(kind, a, b)),
    }
}

/// The number whose bits are the inverse of those of this one.
fn inverse(a: i128) -> i128
    ensures { result ≡ (pos 0 -ℤ a) -ℤ pos 1 }
{
    -1 - a
}

/// A unary operator in the kind (C11 6.5.3.3).
pub fn unary(op: UnaryOp, kind: IntKind, a: i128) -> Option<i128>
    ensures { result ≡ without_fault (unary_of op kind a) }
{
    match op {
        UnaryOp::Neg => difference(kind, 0, a),
        UnaryOp::Invert => Some(convert(kind, inverse(a))),
    }
}

/// Whether the relation holds (C11 6.5.8, 6.5.9).
pub fn compared(op: CompareOp, a: i128, b: i128) -> bool
    ensures { result ≡ compared_integers op a b }
{
    match op {
        CompareOp::Equal => a == b,
        CompareOp::Unequal => a != b,
        CompareOp::Less => a < b,
        CompareOp::LessEqual => a <= b,
        CompareOp::Greater => b < a,
        CompareOp::GreaterEqual => b <= a,
    }
}
