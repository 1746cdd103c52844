//! Which relation may follow in a chain.

ghost use Rattle.std.specs.Prelude.{◌≡◌};
ghost use Rattle.acsl_grammar.specs.TermReading as reading;
ghost use Rattle.acsl_cursor.specs.Ways.{meant};

use crate::words::{ascends, descends};
use c_words::word::Word;

/// The direction of a chain of relations so far.
#[derive(Clone, Copy)]
pub enum Way {
    /// `==` alone so far.
    Undecided,
    Ascending,
    Descending,
    /// After `!=`.
    Ended,
}

/// The direction after a first operator.
pub fn way_of(word: Word) -> Way
    ensures { meant result ≡ reading.way_of word }
{
    match word {
        Word::EqualEqual => Way::Undecided,
        Word::Less | Word::LessEqual => Way::Ascending,
        Word::Greater | Word::GreaterEqual => Way::Descending,
        _ => Way::Ended,
    }
}

/// The direction after one operator more.
pub fn way_after(way: Way, word: Word) -> Way
    ensures { meant result ≡ reading.way_after (meant way) word }
{
    match way {
        Way::Undecided => way_of(word),
        Way::Ascending | Way::Descending | Way::Ended => way,
    }
}

/// Whether the operator may follow.
pub fn leads(way: Way, word: Word) -> bool
    ensures { result ≡ reading.leads (meant way) word }
{
    match way {
        Way::Undecided => ascends(word) || descends(word),
        Way::Ascending => ascends(word),
        Way::Descending => descends(word),
        Way::Ended => false,
    }
}
