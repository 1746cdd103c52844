//! What is looked at before an item is read.

ghost use Rattle.std.specs.Prelude.{◌≡◌, ◌≤◌, if◌then◌else◌, length};
ghost use Rattle.c_words.specs.declared.word.Word.TheVariants as w;
ghost use Rattle.c_words.specs.Words.{same as same_word};
ghost use Rattle.c_grammar.specs.Programs as grammar;
ghost use Rattle.c_type_names.specs.TypeReading as types;
ghost use Rattle.c_parser.specs.ItemReading as spec;

use c_words::cursor::{Cursor, same};
use c_words::word::{Leaf, Word};

fn is_variable_prefix(word: Word) -> bool
    ensures { result ≡ grammar.is_variable_prefix word }
{
    matches!(word, Word::Static | Word::Const)
}

pub(crate) fn is_function_prefix(word: Word) -> bool
    ensures { result ≡ grammar.is_function_prefix word }
{
    matches!(word, Word::Extern | Word::Static | Word::Const)
}

/// Whether a base begins with the word, but for `const`.
pub(crate) fn begins_type(word: Word) -> bool
    ensures { result ≡ types.begins_type word }
{
    matches!(
        word,
        Word::Char
            | Word::Signed
            | Word::Unsigned
            | Word::Short
            | Word::Int
            | Word::Long
            | Word::Void
            | Word::Struct
    )
}

fn is_pointer(word: Word) -> bool
    ensures { result ≡ spec.is_pointer word }
{
    matches!(word, Word::Star | Word::Const)
}

/// The leaves after those that are `*` or `const`.
fn after_pointers<'a>(tokens: &Cursor<'a>) -> Cursor<'a>
    ensures { result ≡ spec.skip spec.is_pointer tokens.now }
{
    let mut ahead = tokens.ahead();
    for _turn in 0..tokens.left() {
        if !is_pointer(ahead.peek()) {
            return ahead;
        }
        ahead = ahead.after();
    }
    ahead
}

/// One where the word is `*`.
fn star_count(word: Word) -> usize
    ensures count { result ≡ if same_word w.Star word then 1 else 0 }
    ensures few { result ≤ 1 }
{
    if same(Word::Star, word) { 1 } else { 0 }
}

/// How many of them are `*`.
fn leading_stars(tokens: &Cursor<'_>) -> usize
    ensures { result ≡ spec.leading_stars tokens.now }
{
    let mut ahead = tokens.ahead();
    let mut stars = 0;
    for _turn in 0..tokens.left() {
        let word = ahead.peek();
        if !is_pointer(word) {
            return stars;
        }
        stars += star_count(word);
        ahead = ahead.after();
    }
    stars
}

fn is_called(tokens: &Cursor<'_>) -> bool
    ensures { result ≡ spec.is_called (spec.skip spec.is_pointer tokens.now) }
{
    let ahead = after_pointers(tokens);
    same(Word::Name, ahead.peek()) && same(Word::LeftParen, ahead.second())
}

fn all_variable_prefixes(prefixes: &[Leaf]) -> bool
    ensures { result ≡ spec.all_variable_prefixes prefixes.now }
{
    prefixes
        .iter()
        .all(|prefix| is_variable_prefix(prefix.word))
}

/// Whether what stands after the prefixes and the base is read as a function.
pub(crate) fn begins_function(depth: usize, prefixes: &[Leaf], tokens: &Cursor<'_>) -> bool
    ensures { result ≡ spec.begins_function depth prefixes.now tokens.now }
{
    is_called(tokens) || !all_variable_prefixes(prefixes) || leading_stars(tokens) >= depth
}

/// Whether a struct is declared here.
pub(crate) fn is_struct(tokens: &Cursor<'_>) -> bool
    ensures { result ≡ spec.is_struct tokens.now }
{
    same(Word::Struct, tokens.peek()) && same(Word::LeftBrace, tokens.after().second())
}
