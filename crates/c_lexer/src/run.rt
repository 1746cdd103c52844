//! Runs of bytes at the front of a text.

ghost use Rattle.std.specs.Prelude.{◌≡◌, ◌==◌, not, length, drop, slice_index};
ghost use Rattle.std.specs.List.{take_while};
ghost use Rattle.c_lexer.specs.Bytes.{is_blank, is_digit, is_word, is_number_part};
ghost use Rattle.c_lexer.specs.Comments.{line_of, is_annotation_blank};
ghost use Rattle.c_lexer.specs.Lexemes.{is_text};

use crate::bytes::{is_blank, is_digit, is_number_part, is_word};

/// The byte, or 0 past the end.
pub(crate) fn byte_at(text: &[u8], at: usize) -> u8
    ensures { result ≡ slice_index text.now at }
{
    text.get(at).copied().unwrap_or(0)
}

/// The text without its first bytes, of which it may have fewer.
pub(crate) fn skip(text: &[u8], count: usize) -> &[u8]
    ensures { result.now ≡ drop count text.now }
{
    if count <= text.len() {
        &text[count..]
    } else {
        &[]
    }
}

pub(crate) fn word_len(text: &[u8]) -> usize
    ensures { result ≡ length (take_while is_word text.now) }
{
    text.iter().take_while(|byte| is_word(**byte)).count()
}

pub(crate) fn number_run(text: &[u8]) -> usize
    ensures { result ≡ length (take_while is_number_part text.now) }
{
    text.iter()
        .take_while(|byte| is_number_part(**byte))
        .count()
}

pub(crate) fn blank_len(text: &[u8]) -> usize
    ensures { result ≡ length (take_while is_blank text.now) }
{
    text.iter().take_while(|byte| is_blank(**byte)).count()
}

pub(crate) fn digit_len(text: &[u8]) -> usize
    ensures { result ≡ length (take_while is_digit text.now) }
{
    text.iter().take_while(|byte| is_digit(**byte)).count()
}

/// How many blanks, `@` among them, the text begins with.
pub(crate) fn annotation_blank_len(text: &[u8]) -> usize
    ensures { result ≡ length (take_while is_annotation_blank text.now) }
{
    text.iter()
        .take_while(|byte| is_blank(**byte) || **byte == b'@')
        .count()
}

/// How many bytes the text has before its first line feed.
pub(crate) fn line_len(text: &[u8]) -> usize
    ensures { result ≡ length (line_of text.now) }
{
    text.iter().take_while(|byte| **byte != b'\n').count()
}

fn is_text(byte: u8) -> bool
    ensures { result ≡ is_text byte }
{
    matches!(byte, b' '..=b'~') && !matches!(byte, b'"' | b'\\')
}

/// How many bytes the text begins with that may stand in a string.
pub(crate) fn text_len(text: &[u8]) -> usize
    ensures { result ≡ length (take_while is_text text.now) }
{
    text.iter().take_while(|byte| is_text(**byte)).count()
}
