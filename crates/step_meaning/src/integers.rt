ghost use Rattle.std.specs.Prelude.{◌≡◌, ◌<◌, ◌≤◌, ◌≤ℤ◌, ◌+ℤ◌, ◌-ℤ◌, ◌*ℤ◌, ◌*◌, ◌-◌, ◌^◌, ◌&&◌, not, pos, int_div, int_rem, bit_and, bit_or, bit_xor, unsigned_abs, Ok, IsTrue, IsFalse};
ghost use Rattle.step_meaning.specs.Numbers.{width as width_of, is_signed, is_in_range, IsPromoted, is_right_operand, converted, low_bits as low_bits_of, is_zero as is_zero_of, with_divisor, remainder as remainder_of, with_count, shifted_up, shifted_down, binary_of, unary_of, in_kind as result_in_kind};

use crate::expr::{IntOp, UnaryOp};
use crate::value::{IntKind, RunFault};

/// The number of a kind's values, 2 to the power of its width.
fn modulus(kind: IntKind) -> i128
    ensures { result ≡ pos (2 ^ width_of kind) }
{
    match kind {
        IntKind::Char | IntKind::SChar | IntKind::UChar => 1 << 8,
        IntKind::Short | IntKind::UShort => 1 << 16,
        IntKind::Int | IntKind::UInt => 1 << 32,
        IntKind::Long | IntKind::ULong => 1 << 64,
    }
}

/// The number of bits of a value of the kind.
fn width(kind: IntKind) -> u32
    ensures { result ≡ width_of kind }
{
    match kind {
        IntKind::Char | IntKind::SChar | IntKind::UChar => 8,
        IntKind::Short | IntKind::UShort => 16,
        IntKind::Int | IntKind::UInt => 32,
        IntKind::Long | IntKind::ULong => 64,
    }
}

/// Whether the kind has negative values.
fn has_sign(kind: IntKind) -> bool
    ensures { result ≡ is_signed kind }
{
    match kind {
        IntKind::UChar | IntKind::UShort | IntKind::UInt | IntKind::ULong => false,
        IntKind::Char | IntKind::SChar | IntKind::Short | IntKind::Int | IntKind::Long => true,
    }
}

/// Whether the value is one of the kind.
fn fits(kind: IntKind, value: i128) -> bool
    ensures { result ≡ is_in_range kind value }
{
    let half = modulus(kind) / 2;
    if has_sign(kind) {
        -half <= value && value < half
    } else {
        0 <= value && value < modulus(kind)
    }
}

/// The value of the kind that is equal to `a` modulo 2 to the power of its width (C11 6.3.1.3).
pub fn convert(to: IntKind, a: i128) -> i128
    ensures { result ≡ converted to a }
{
    let modulus = modulus(to);
    let low = a.rem_euclid(modulus);
    if has_sign(to) && low >= modulus / 2 {
        low - modulus
    } else {
        low
    }
}

/// The result of an operator in its kind, or `Overflow` where a signed one leaves it.
fn in_kind(kind: IntKind, value: i128) -> Result<i128, RunFault>
    ensures { result ≡ result_in_kind kind value }
{
    if has_sign(kind) {
        let half = modulus(kind) / 2;
        if -half <= value && value < half {
            Ok(value)
        } else {
            Err(RunFault::Overflow)
        }
    } else {
        Ok(convert(kind, value))
    }
}

/// The negative of a value of a kind.
fn negative(kind: IntKind, a: i128) -> i128
    requires promoted { IsPromoted kind }
    requires operand { IsTrue (is_in_range kind a) }
    ensures { result ≡ pos 0 -ℤ a }
{
    -a
}

/// The value whose bits are the inverse of those of a value of a kind.
fn inverse(kind: IntKind, a: i128) -> i128
    requires promoted { IsPromoted kind }
    requires operand { IsTrue (is_in_range kind a) }
    ensures { result ≡ (pos 0 -ℤ a) -ℤ pos 1 }
{
    -a - 1
}

/// A unary operator on a value of the kind (C11 6.5.3.3).
pub fn int_unary(op: UnaryOp, kind: IntKind, a: i128) -> Result<i128, RunFault>
    requires promoted { IsPromoted kind }
    requires operand { IsTrue (is_in_range kind a) }
    ensures { result ≡ unary_of op kind a }
{
    match op {
        UnaryOp::Neg => in_kind(kind, negative(kind, a)),
        UnaryOp::Invert => Ok(convert(kind, inverse(kind, a))),
    }
}

/// `a + b` as whole numbers.
fn added(kind: IntKind, a: i128, b: i128) -> i128
    requires promoted { IsPromoted kind }
    requires left { IsTrue (is_in_range kind a) }
    requires right { IsTrue (is_in_range kind b) }
    ensures { result ≡ a +ℤ b }
{
    a + b
}

/// `a - b` as whole numbers.
fn subtracted(kind: IntKind, a: i128, b: i128) -> i128
    requires promoted { IsPromoted kind }
    requires left { IsTrue (is_in_range kind a) }
    requires right { IsTrue (is_in_range kind b) }
    ensures { result ≡ a -ℤ b }
{
    a - b
}

/// `a * b` as a whole number.
fn multiplied(a: i128, b: i128) -> i128
    requires left { unsigned_abs a ≤ 2 ^ 64 - 1 }
    requires right { unsigned_abs b ≤ 2 ^ 63 }
    ensures { result ≡ a *ℤ b }
{
    a * b
}

/// `a * b` of a signed kind as a whole number.
fn signed_product(kind: IntKind, a: i128, b: i128) -> i128
    requires signed { IsTrue (is_signed kind) }
    requires left { IsTrue (is_in_range kind a) }
    requires right { IsTrue (is_in_range kind b) }
    ensures { result ≡ a *ℤ b }
{
    multiplied(a, b)
}

/// The value of an unsigned kind as a natural number.
fn natural(kind: IntKind, a: i128) -> u64
    requires unsigned { IsFalse (is_signed kind) }
    requires operand { IsTrue (is_in_range kind a) }
    ensures { pos result ≡ a }
{
    a as u64
}

/// `a * b` modulo 2 to the power of the width of an unsigned kind.
fn unsigned_product(kind: IntKind, a: u64, b: u64) -> i128
    requires unsigned { IsFalse (is_signed kind) }
    ensures { result ≡ converted kind (pos (a * b)) }
{
    let whole = u128::from(a) * u128::from(b);
    let size: u128 = 1 << width(kind);
    (whole % size) as i128
}

/// `a * b`
#[tactic(auto, using(crate::proofs::Products::unsigned_in_kind))]
fn product(kind: IntKind, a: i128, b: i128) -> Result<i128, RunFault>
    requires promoted { IsPromoted kind }
    requires left { IsTrue (is_in_range kind a) }
    requires right { IsTrue (is_in_range kind b) }
    ensures { result ≡ result_in_kind kind (a *ℤ b) }
{
    if has_sign(kind) {
        in_kind(kind, signed_product(kind, a, b))
    } else {
        Ok(unsigned_product(kind, natural(kind, a), natural(kind, b)))
    }
}

/// Whether a divisor is 0.
fn is_zero(divisor: i128) -> bool
    ensures value { result ≡ is_zero_of divisor }
    ensures nonzero { IsFalse result → divisor ≡ pos 0 → ⊥ }
{
    divisor == 0
}

/// `a / b` as whole numbers, rounded towards 0.
fn divided(kind: IntKind, a: i128, b: i128) -> i128
    requires promoted { IsPromoted kind }
    requires left { IsTrue (is_in_range kind a) }
    requires right { IsTrue (is_in_range kind b) }
    requires nonzero { b ≡ pos 0 → ⊥ }
    ensures { result ≡ int_div a b }
{
    a / b
}

/// `a % b` as whole numbers.
fn left_over(kind: IntKind, a: i128, b: i128) -> i128
    requires promoted { IsPromoted kind }
    requires left { IsTrue (is_in_range kind a) }
    requires right { IsTrue (is_in_range kind b) }
    requires nonzero { b ≡ pos 0 → ⊥ }
    ensures { result ≡ int_rem a b }
{
    a % b
}

/// `a / b`
fn quotient(kind: IntKind, a: i128, b: i128) -> Result<i128, RunFault>
    requires promoted { IsPromoted kind }
    requires left { IsTrue (is_in_range kind a) }
    requires right { IsTrue (is_in_range kind b) }
    ensures { result ≡ with_divisor b (result_in_kind kind (int_div a b)) }
{
    if is_zero(b) {
        Err(RunFault::ZeroDivisor)
    } else {
        in_kind(kind, divided(kind, a, b))
    }
}

/// Whether the quotient leaves its type: that of the least value and -1 alone does.
fn quotient_leaves(kind: IntKind, a: i128, b: i128) -> bool
    requires promoted { IsPromoted kind }
    requires left { IsTrue (is_in_range kind a) }
    requires right { IsTrue (is_in_range kind b) }
    requires nonzero { b ≡ pos 0 → ⊥ }
    ensures { result ≡ (is_signed kind && not (is_in_range kind (int_div a b))) }
{
    has_sign(kind) && !fits(kind, divided(kind, a, b))
}

/// `a % b` of a divisor other than 0.
fn remainder_by_nonzero(kind: IntKind, a: i128, b: i128) -> Result<i128, RunFault>
    requires promoted { IsPromoted kind }
    requires left { IsTrue (is_in_range kind a) }
    requires right { IsTrue (is_in_range kind b) }
    requires nonzero { b ≡ pos 0 → ⊥ }
    ensures { result ≡ remainder_of kind a b }
{
    if quotient_leaves(kind, a, b) {
        Err(RunFault::Overflow)
    } else {
        in_kind(kind, left_over(kind, a, b))
    }
}

/// `a % b`
fn remainder(kind: IntKind, a: i128, b: i128) -> Result<i128, RunFault>
    requires promoted { IsPromoted kind }
    requires left { IsTrue (is_in_range kind a) }
    requires right { IsTrue (is_in_range kind b) }
    ensures { result ≡ with_divisor b (remainder_of kind a b) }
{
    if is_zero(b) {
        Err(RunFault::ZeroDivisor)
    } else {
        remainder_by_nonzero(kind, a, b)
    }
}

/// 2 to the power of a shift count.
fn power_of_two(count: u32) -> i128
    requires count { count < 64 }
    ensures value { result ≡ pos (2 ^ count) }
    ensures bound { unsigned_abs result ≤ 2 ^ 63 }
{
    1 << count
}

/// `a * 2 ^ count` as a whole number.
fn raised(kind: IntKind, a: i128, count: u32) -> i128
    requires promoted { IsPromoted kind }
    requires left { IsTrue (is_in_range kind a) }
    requires not_negative { pos 0 ≤ℤ a }
    requires count { count < 64 }
    ensures { result ≡ a *ℤ pos (2 ^ count) }
{
    multiplied(a, power_of_two(count))
}

/// `a << b`
fn shift_up(kind: IntKind, a: i128, b: i128) -> Result<i128, RunFault>
    requires promoted { IsPromoted kind }
    requires left { IsTrue (is_in_range kind a) }
    ensures { result ≡ with_count kind b (shifted_up kind a) }
{
    if b < 0 || b >= i128::from(width(kind)) {
        Err(RunFault::ShiftRange)
    } else if a < 0 {
        Err(RunFault::Overflow)
    } else {
        in_kind(kind, raised(kind, a, b as u32))
    }
}

/// `a / 2 ^ count` rounded downwards.
fn lowered(a: i128, count: u32) -> i128
    requires count { count < 64 }
    ensures { result ≡ shifted_down a count }
{
    a.div_euclid(power_of_two(count))
}

/// `a >> b`
fn shift_down(kind: IntKind, a: i128, b: i128) -> Result<i128, RunFault>
    requires promoted { IsPromoted kind }
    requires left { IsTrue (is_in_range kind a) }
    ensures { result ≡ with_count kind b (λ n. Ok (shifted_down a n)) }
{
    if b < 0 || b >= i128::from(width(kind)) {
        Err(RunFault::ShiftRange)
    } else {
        Ok(lowered(a, b as u32))
    }
}

/// The value modulo 2 to the power of the width.
fn low_bits(kind: IntKind, a: i128) -> u64
    ensures { result ≡ low_bits_of (width_of kind) a }
{
    a.rem_euclid(modulus(kind)) as u64
}

/// `a & b`
fn and_bits(kind: IntKind, a: i128, b: i128) -> i128
    ensures { result ≡ converted kind (pos (bit_and (low_bits_of (width_of kind) a) (low_bits_of (width_of kind) b))) }
{
    convert(kind, i128::from(low_bits(kind, a) & low_bits(kind, b)))
}

/// `a | b`
fn or_bits(kind: IntKind, a: i128, b: i128) -> i128
    ensures { result ≡ converted kind (pos (bit_or (low_bits_of (width_of kind) a) (low_bits_of (width_of kind) b))) }
{
    convert(kind, i128::from(low_bits(kind, a) | low_bits(kind, b)))
}

/// `a ^ b`
fn xor_bits(kind: IntKind, a: i128, b: i128) -> i128
    ensures { result ≡ converted kind (pos (bit_xor (low_bits_of (width_of kind) a) (low_bits_of (width_of kind) b))) }
{
    convert(kind, i128::from(low_bits(kind, a) ^ low_bits(kind, b)))
}

/// A binary operator on values of the kind; a shift count may have any kind (C11 6.5.5 to 6.5.7, 6.5.10 to 6.5.12).
pub fn int_binary(op: IntOp, kind: IntKind, a: i128, b: i128) -> Result<i128, RunFault>
    requires promoted { IsPromoted kind }
    requires left { IsTrue (is_in_range kind a) }
    requires right { IsTrue (is_right_operand op kind b) }
    ensures { result ≡ binary_of op kind a b }
{
    match op {
        IntOp::Add => in_kind(kind, added(kind, a, b)),
        IntOp::Sub => in_kind(kind, subtracted(kind, a, b)),
        IntOp::Mul => product(kind, a, b),
        IntOp::Div => quotient(kind, a, b),
        IntOp::Rem => remainder(kind, a, b),
        IntOp::Shl => shift_up(kind, a, b),
        IntOp::Shr => shift_down(kind, a, b),
        IntOp::And => Ok(and_bits(kind, a, b)),
        IntOp::Or => Ok(or_bits(kind, a, b)),
        IntOp::Xor => Ok(xor_bits(kind, a, b)),
    }
}
