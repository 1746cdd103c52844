//! Leaves that are taken by a test of their words.

ghost use Rattle.std.specs.Prelude.{◌≡◌};
ghost use Rattle.acsl_grammar.specs.Vocabulary as spec;
ghost use Rattle.acsl_postfix.specs.Coders.{Codes, take_if};
ghost use Rattle.c_words.specs.OperatorWords as operators;

use crate::reader::{Reader, next_word, taken};
use c_words::fault::ParseFault;
use c_words::operators::Operators;
use c_words::word::{Leaf, Word};

fn is_name(word: Word) -> bool
    ensures { result ≡ spec.is_name word }
{
    matches!(
        word,
        Word::Name
            | Word::CallEvent
            | Word::ReturnEvent
            | Word::EitherEvent
            | Word::PreLabel
            | Word::HereLabel
            | Word::MetaName
            | Word::OtherName
    )
}

fn is_constant(word: Word) -> bool
    ensures { result ≡ spec.is_constant word }
{
    matches!(
        word,
        Word::Number
            | Word::Character
            | Word::SlashNull
            | Word::SlashWritten
            | Word::SlashRead
            | Word::SlashCalled
    )
}

fn is_event_value(word: Word) -> bool
    ensures { result ≡ spec.is_event_value word }
{
    match word {
        Word::SlashResult => true,
        _ => is_name(word),
    }
}

/// Whether the word is an operator between the two sides of a relation.
pub fn is_comparison(word: Word) -> bool
    ensures { result ≡ spec.is_comparison word }
{
    matches!(
        word,
        Word::EqualEqual
            | Word::NotEqual
            | Word::Less
            | Word::LessEqual
            | Word::Greater
            | Word::GreaterEqual
    )
}

pub fn ascends(word: Word) -> bool
    ensures { result ≡ spec.ascends word }
{
    matches!(word, Word::EqualEqual | Word::Less | Word::LessEqual)
}

pub fn descends(word: Word) -> bool
    ensures { result ≡ spec.descends word }
{
    matches!(word, Word::EqualEqual | Word::Greater | Word::GreaterEqual)
}

/// Whether the word is `*`, `/` or `%`.
pub fn is_product(word: Word) -> bool
    ensures { result ≡ operators.is_product_operator word }
{
    Operators::Product.has(word)
}

/// Whether the word is `+` or `-`.
pub fn is_sum(word: Word) -> bool
    ensures { result ≡ operators.is_sum_operator word }
{
    Operators::Sum.has(word)
}

pub fn is_comma(word: Word) -> bool
    ensures { result ≡ operators.is_comma word }
{
    matches!(word, Word::Comma)
}

pub fn take_name(reader: &mut Reader<'_>) -> Result<Leaf, ParseFault>
    ensures { Codes (take_if spec.is_name reader.old) result reader.new }
{
    let passes = is_name(next_word(reader));
    taken(reader, passes)
}

pub fn take_constant(reader: &mut Reader<'_>) -> Result<Leaf, ParseFault>
    ensures { Codes (take_if spec.is_constant reader.old) result reader.new }
{
    let passes = is_constant(next_word(reader));
    taken(reader, passes)
}

/// Takes a label of `\at`.
pub fn take_label(reader: &mut Reader<'_>) -> Result<Leaf, ParseFault>
    ensures { Codes (take_if spec.is_label reader.old) result reader.new }
{
    let passes = matches!(next_word(reader), Word::PreLabel | Word::HereLabel);
    taken(reader, passes)
}

/// Takes what stands after `f().`.
pub fn take_event_value(reader: &mut Reader<'_>) -> Result<Leaf, ParseFault>
    ensures { Codes (take_if spec.is_event_value reader.old) result reader.new }
{
    let passes = is_event_value(next_word(reader));
    taken(reader, passes)
}

/// Takes `-`, `*` or `&`.
pub fn take_unary(reader: &mut Reader<'_>) -> Result<Leaf, ParseFault>
    ensures { Codes (take_if spec.is_unary reader.old) result reader.new }
{
    let passes = matches!(
        next_word(reader),
        Word::Minus | Word::Star | Word::Ampersand
    );
    taken(reader, passes)
}

/// Takes `\true` or `\false`.
pub fn take_truth(reader: &mut Reader<'_>) -> Result<Leaf, ParseFault>
    ensures { Codes (take_if spec.is_truth reader.old) result reader.new }
{
    let passes = matches!(next_word(reader), Word::SlashTrue | Word::SlashFalse);
    taken(reader, passes)
}

/// Takes `\valid` or `\valid_read`.
pub fn take_validity(reader: &mut Reader<'_>) -> Result<Leaf, ParseFault>
    ensures { Codes (take_if spec.is_validity reader.old) result reader.new }
{
    let passes = matches!(next_word(reader), Word::SlashValid | Word::SlashValidRead);
    taken(reader, passes)
}

/// Takes `CALL`, `RETURN` or `COR`.
pub fn take_event(reader: &mut Reader<'_>) -> Result<Leaf, ParseFault>
    ensures { Codes (take_if spec.is_event reader.old) result reader.new }
{
    let passes = matches!(
        next_word(reader),
        Word::CallEvent | Word::ReturnEvent | Word::EitherEvent
    );
    taken(reader, passes)
}

pub fn take_comparison(reader: &mut Reader<'_>) -> Result<Leaf, ParseFault>
    ensures { Codes (take_if spec.is_comparison reader.old) result reader.new }
{
    let passes = is_comparison(next_word(reader));
    taken(reader, passes)
}

pub fn take_product(reader: &mut Reader<'_>) -> Result<Leaf, ParseFault>
    ensures { Codes (take_if operators.is_product_operator reader.old) result reader.new }
{
    let passes = is_product(next_word(reader));
    taken(reader, passes)
}

pub fn take_sum(reader: &mut Reader<'_>) -> Result<Leaf, ParseFault>
    ensures { Codes (take_if operators.is_sum_operator reader.old) result reader.new }
{
    let passes = is_sum(next_word(reader));
    taken(reader, passes)
}
