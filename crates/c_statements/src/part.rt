//! What parts of a block begin with.

ghost use Rattle.std.specs.Prelude.{◌≡◌};
ghost use Rattle.c_statements.specs.StatementReading as spec;

use crate::local::begins_local;
use c_words::word::Word;

/// Whether a statement begins with the word.
fn begins_stmt(word: Word) -> bool
    ensures { result ≡ spec.begins_stmt word }
{
    matches!(
        word,
        Word::Semicolon
            | Word::LeftBrace
            | Word::If
            | Word::While
            | Word::Do
            | Word::For
            | Word::Break
            | Word::Continue
            | Word::Return
            | Word::Ghost
            | Word::Assert
            | Word::Increment
            | Word::Decrement
            | Word::Ampersand
            | Word::Star
            | Word::Plus
            | Word::Minus
            | Word::Tilde
            | Word::Exclamation
            | Word::Name
            | Word::Number
            | Word::Character
            | Word::LeftParen
            | Word::SizeOf
    )
}

/// Whether a part of a block begins with the word.
pub fn begins_part(word: Word) -> bool
    ensures { result ≡ spec.begins_part word }
{
    begins_local(word) || begins_stmt(word)
}
