//! What words, spellings of integer types and constants stand for.

ghost use Rattle.std.specs.Prelude.{◌≡◌};
ghost use Rattle.typing_rules.specs.Judgements as judgements;
ghost use Rattle.typing_rules.specs.Environment as environment;
ghost use Rattle.typing_rules.specs.Expressions as expressions;

use crate::judgement::Operator;
use c_grammar::types::Integer;
use c_lexer::ConstantType;
use c_words::word::Word;
use step_meaning::{CompareOp, IntKind, IntOp};

/// The operator of a chain (C11 6.5.5 to 6.5.14); of another word `%`.
pub fn operator_of(word: Word) -> Operator
    ensures { result ≡ judgements.operator_of word }
{
    match word {
        Word::OrOr => Operator::Either,
        Word::AndAnd => Operator::Both,
        Word::Bar => Operator::Compute(IntOp::Or),
        Word::Caret => Operator::Compute(IntOp::Xor),
        Word::Ampersand => Operator::Compute(IntOp::And),
        Word::EqualEqual => Operator::Relate(CompareOp::Equal),
        Word::NotEqual => Operator::Relate(CompareOp::Unequal),
        Word::Less => Operator::Relate(CompareOp::Less),
        Word::LessEqual => Operator::Relate(CompareOp::LessEqual),
        Word::Greater => Operator::Relate(CompareOp::Greater),
        Word::GreaterEqual => Operator::Relate(CompareOp::GreaterEqual),
        Word::ShiftLeft => Operator::Compute(IntOp::Shl),
        Word::ShiftRight => Operator::Compute(IntOp::Shr),
        Word::Plus => Operator::Compute(IntOp::Add),
        Word::Minus => Operator::Compute(IntOp::Sub),
        Word::Star => Operator::Compute(IntOp::Mul),
        Word::Slash => Operator::Compute(IntOp::Div),
        _ => Operator::Compute(IntOp::Rem),
    }
}

/// The operator of a compound assignment (C11 6.5.16.2); none of `=`.
pub fn compound_of(word: Word) -> Option<IntOp>
    ensures { result ≡ judgements.compound_of word }
{
    match word {
        Word::StarAssign => Some(IntOp::Mul),
        Word::SlashAssign => Some(IntOp::Div),
        Word::PercentAssign => Some(IntOp::Rem),
        Word::PlusAssign => Some(IntOp::Add),
        Word::MinusAssign => Some(IntOp::Sub),
        Word::ShiftLeftAssign => Some(IntOp::Shl),
        Word::ShiftRightAssign => Some(IntOp::Shr),
        Word::AndAssign => Some(IntOp::And),
        Word::XorAssign => Some(IntOp::Xor),
        Word::OrAssign => Some(IntOp::Or),
        _ => None,
    }
}

/// The integer type that is spelled so (C11 6.7.2, 2).
pub fn integer_kind(spelling: Integer) -> IntKind
    ensures { result ≡ environment.integer_kind spelling }
{
    match spelling {
        Integer::Char(_) => IntKind::Char,
        Integer::SignedChar(_, _) => IntKind::SChar,
        Integer::UnsignedChar(_, _) => IntKind::UChar,
        Integer::Short(_, _, _) => IntKind::Short,
        Integer::UnsignedShort(_, _, _) => IntKind::UShort,
        Integer::Int(_) => IntKind::Int,
        Integer::Signed(_, _) => IntKind::Int,
        Integer::Unsigned(_, _) => IntKind::UInt,
        Integer::Long(_, _, _) => IntKind::Long,
        Integer::UnsignedLong(_, _, _) => IntKind::ULong,
    }
}

/// The integer type of a constant (C11 6.4.4.1, 5).
pub fn constant_kind(constant: ConstantType) -> IntKind
    ensures { result ≡ expressions.kind_of constant }
{
    match constant {
        ConstantType::Int => IntKind::Int,
        ConstantType::UnsignedInt => IntKind::UInt,
        ConstantType::Long => IntKind::Long,
        ConstantType::UnsignedLong => IntKind::ULong,
    }
}
