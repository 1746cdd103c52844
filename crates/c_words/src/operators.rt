//! Operators of chains.

ghost use Rattle.std.specs.Prelude.{◌≡◌};
ghost use Rattle.c_words.specs.Operators.{has, is_binary_operator};
ghost use Rattle.c_words.specs.OperatorWords.{is_relation_operator, is_assignment_operator, is_prefix_operator};

use crate::word::Word;

/// What stands between the operands of a chain.
#[derive(Clone, Copy)]
pub enum Operators {
    Or,
    And,
    BitOr,
    BitXor,
    BitAnd,
    Equal,
    Relation,
    Shift,
    Sum,
    Product,
    /// Those of all levels.
    Binary,
    /// `=` and `op=`.
    Assignment,
    /// Those before an operand of `unary`.
    Prefix,
    /// The comma of a list.
    List,
    /// The comma of a list that may have one more comma before its `}`.
    Elements,
}

impl Operators {
    /// Whether the word is one of them.
    pub fn has(self, word: Word) -> bool
        ensures { result ≡ has self word }
    {
        match self {
            Operators::Or => matches!(word, Word::OrOr),
            Operators::And => matches!(word, Word::AndAnd),
            Operators::BitOr => matches!(word, Word::Bar),
            Operators::BitXor => matches!(word, Word::Caret),
            Operators::BitAnd => matches!(word, Word::Ampersand),
            Operators::Equal => matches!(word, Word::EqualEqual | Word::NotEqual),
            Operators::Relation => is_relation(word),
            Operators::Shift => matches!(word, Word::ShiftLeft | Word::ShiftRight),
            Operators::Sum => matches!(word, Word::Plus | Word::Minus),
            Operators::Product => matches!(word, Word::Star | Word::Slash | Word::Percent),
            Operators::Binary => is_binary(word),
            Operators::Assignment => is_assignment(word),
            Operators::Prefix => is_prefix(word),
            Operators::List | Operators::Elements => matches!(word, Word::Comma),
        }
    }
}

fn is_relation(word: Word) -> bool
    ensures { result ≡ is_relation_operator word }
{
    matches!(
        word,
        Word::Less | Word::Greater | Word::LessEqual | Word::GreaterEqual
    )
}

fn is_assignment(word: Word) -> bool
    ensures { result ≡ is_assignment_operator word }
{
    matches!(
        word,
        Word::Assign
            | Word::StarAssign
            | Word::SlashAssign
            | Word::PercentAssign
            | Word::PlusAssign
            | Word::MinusAssign
            | Word::ShiftLeftAssign
            | Word::ShiftRightAssign
            | Word::AndAssign
            | Word::XorAssign
            | Word::OrAssign
    )
}

fn is_prefix(word: Word) -> bool
    ensures { result ≡ is_prefix_operator word }
{
    matches!(
        word,
        Word::Increment
            | Word::Decrement
            | Word::Ampersand
            | Word::Star
            | Word::Plus
            | Word::Minus
            | Word::Tilde
            | Word::Exclamation
    )
}

fn is_binary(word: Word) -> bool
    ensures { result ≡ is_binary_operator word }
{
    matches!(
        word,
        Word::OrOr
            | Word::AndAnd
            | Word::Bar
            | Word::Caret
            | Word::Ampersand
            | Word::EqualEqual
            | Word::NotEqual
            | Word::Less
            | Word::Greater
            | Word::LessEqual
            | Word::GreaterEqual
            | Word::ShiftLeft
            | Word::ShiftRight
            | Word::Plus
            | Word::Minus
            | Word::Star
            | Word::Slash
            | Word::Percent
    )
}
