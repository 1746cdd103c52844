//! The leaves of a text's tokens.

ghost use Rattle.std.specs.Prelude.{◌≡◌, ◌-◌, ℕ, List, [], ◌∷◌, map, take, drop, codes, IfOk};
ghost use Rattle.c_words.specs.Words as spec;

use crate::word::{Leaf, Mode, Word};
use c_lexer::{Token, TokenKind};
use std::alloc::{AllocError, Global};

static KEYWORDS: [(&str, Word); 20] = [
    ("struct", Word::Struct),
    ("static", Word::Static),
    ("const", Word::Const),
    ("extern", Word::Extern),
    ("char", Word::Char),
    ("signed", Word::Signed),
    ("unsigned", Word::Unsigned),
    ("short", Word::Short),
    ("int", Word::Int),
    ("long", Word::Long),
    ("void", Word::Void),
    ("if", Word::If),
    ("else", Word::Else),
    ("while", Word::While),
    ("do", Word::Do),
    ("for", Word::For),
    ("break", Word::Break),
    ("continue", Word::Continue),
    ("return", Word::Return),
    ("sizeof", Word::SizeOf),
];

static PUNCTUATORS: [(&str, Word); 45] = [
    ("{", Word::LeftBrace),
    ("}", Word::RightBrace),
    ("(", Word::LeftParen),
    (")", Word::RightParen),
    ("[", Word::LeftBracket),
    ("]", Word::RightBracket),
    (";", Word::Semicolon),
    (",", Word::Comma),
    ("?", Word::Question),
    (":", Word::Colon),
    (".", Word::Dot),
    ("->", Word::Arrow),
    ("++", Word::Increment),
    ("--", Word::Decrement),
    ("&", Word::Ampersand),
    ("*", Word::Star),
    ("+", Word::Plus),
    ("-", Word::Minus),
    ("~", Word::Tilde),
    ("!", Word::Exclamation),
    ("/", Word::Slash),
    ("%", Word::Percent),
    ("<<", Word::ShiftLeft),
    (">>", Word::ShiftRight),
    ("<", Word::Less),
    (">", Word::Greater),
    ("<=", Word::LessEqual),
    (">=", Word::GreaterEqual),
    ("==", Word::EqualEqual),
    ("!=", Word::NotEqual),
    ("^", Word::Caret),
    ("|", Word::Bar),
    ("&&", Word::AndAnd),
    ("||", Word::OrOr),
    ("=", Word::Assign),
    ("*=", Word::StarAssign),
    ("/=", Word::SlashAssign),
    ("%=", Word::PercentAssign),
    ("+=", Word::PlusAssign),
    ("-=", Word::MinusAssign),
    ("<<=", Word::ShiftLeftAssign),
    (">>=", Word::ShiftRightAssign),
    ("&=", Word::AndAssign),
    ("^=", Word::XorAssign),
    ("|=", Word::OrAssign),
];

/// The word beside these bytes in a table.
fn word_in(table: &[(&str, Word)], bytes: &[u8]) -> Word
    ensures { result ≡ spec.word_in (map (λ p. (p.0.now, p.1)) table.now) bytes.now }
{
    for (spelling, word) in table {
        if bytes == spelling.as_bytes() {
            return *word;
        }
    }
    Word::Unused
}

#[tactic(auto, unfolding(crate::specs::Words::keywords))]
fn used_keyword_word(bytes: &[u8]) -> Word
    ensures { result ≡ spec.word_in spec.keywords bytes.now }
{
    word_in(&KEYWORDS, bytes)
}

fn register_word(mode: Mode) -> Word
    ensures { result ≡ spec.register_word mode }
{
    match mode {
        Mode::Source => Word::Unused,
        Mode::Woven => Word::Register,
    }
}

#[tactic(auto, unfolding(crate::specs::Words::keyword_word))]
fn keyword_word(mode: Mode, bytes: &[u8]) -> Word
    ensures { result ≡ spec.keyword_word mode bytes.now }
{
    if bytes == "register".as_bytes() {
        register_word(mode)
    } else {
        used_keyword_word(bytes)
    }
}

#[tactic(auto, unfolding(crate::specs::Words::punctuators))]
fn punctuator_word(bytes: &[u8]) -> Word
    ensures { result ≡ spec.word_in spec.punctuators bytes.now }
{
    word_in(&PUNCTUATORS, bytes)
}

/// What the grammar sees of a token; a token past the end of the text has no bytes there.
fn word_of(mode: Mode, text: &[u8], token: &Token) -> Word
    ensures { result ≡ spec.word_by mode token.now.kind (spec.bytes_of text.now token.now) }
{
    let bytes = bytes_of(text, token);
    match token.kind {
        TokenKind::Name => Word::Name,
        TokenKind::Number(_) => Word::Number,
        TokenKind::Character => Word::Character,
        TokenKind::Keyword => keyword_word(mode, bytes),
        TokenKind::Punctuation => punctuator_word(bytes),
        TokenKind::Meta => Word::Meta,
        TokenKind::Ghost => Word::Ghost,
        TokenKind::Assert => Word::Assert,
        TokenKind::Backslash | TokenKind::Percent | TokenKind::Text => Word::Unused,
    }
}

fn bytes_of<'a>(text: &'a [u8], token: &Token) -> &'a [u8]
    ensures { result.now ≡ spec.bytes_of text.now token.now }
{
    let first = (token.first as usize).min(text.len());
    let past = (token.past as usize).clamp(first, text.len());
    &text[first..past]
}

#[tactic(auto, unfolding(crate::specs::Words::is_kept))]
fn is_kept(mode: Mode, token: &Token) -> bool
    ensures { result ≡ spec.is_kept mode token.now }
{
    match (mode, token.kind) {
        (Mode::Source, TokenKind::Ghost | TokenKind::Assert) | (Mode::Woven, TokenKind::Meta) =>
            false,
        _ => true,
    }
}

#[tactic(auto, unfolding(crate::specs::Words::leaf_of))]
fn leaf_of(mode: Mode, text: &[u8], token: &Token) -> Leaf
    ensures { result ≡ spec.leaf_of mode text.now token.now }
{
    Leaf {
        word: word_of(mode, text, token),
        token: *token,
    }
}

/// The leaves that a tree of these tokens has.
pub fn leaves_of(
    alloc: Global,
    text: &[u8],
    tokens: &[Token],
    mode: Mode,
) -> Result<Vec<Leaf>, AllocError>
    ensures { IfOk result (λ v. v.items ≡ spec.leaves_of mode text.now tokens.now) }
{
    let mut leaves = Vec::new(alloc);
    for token in tokens {
        if is_kept(mode, token) {
            leaves.push(leaf_of(mode, text, token))?;
        }
    }
    Ok(leaves)
}
