//! The leaves of an annotation's tokens.

ghost use Rattle.std.specs.Prelude.{◌≡◌, map, IfOk};
ghost use Rattle.c_words.specs.Words as c_words_spec;
ghost use Rattle.acsl_words.specs.AnnotationWords as spec;

use c_lexer::{Token, TokenKind};
use c_words::cursor::same;
use c_words::leaf::leaves_of;
use c_words::word::{Leaf, Mode, Word};
use std::alloc::{AllocError, Global};

static CONTEXT_NAMES: [(&str, Word); 7] = [
    ("CALL", Word::CallEvent),
    ("RETURN", Word::ReturnEvent),
    ("COR", Word::EitherEvent),
    ("Pre", Word::PreLabel),
    ("Here", Word::HereLabel),
    ("meta", Word::MetaName),
    ("other", Word::OtherName),
];

static BACKSLASH_WORDS: [(&str, Word); 27] = [
    ("\\true", Word::SlashTrue),
    ("\\false", Word::SlashFalse),
    ("\\valid", Word::SlashValid),
    ("\\valid_read", Word::SlashValidRead),
    ("\\separated", Word::SlashSeparated),
    ("\\null", Word::SlashNull),
    ("\\written", Word::SlashWritten),
    ("\\read", Word::SlashRead),
    ("\\called", Word::SlashCalled),
    ("\\at", Word::SlashAt),
    ("\\result", Word::SlashResult),
    ("\\prop", Word::SlashProp),
    ("\\name", Word::SlashName),
    ("\\targets", Word::SlashTargets),
    ("\\context", Word::SlashContext),
    ("\\ALL", Word::SlashAll),
    ("\\diff", Word::SlashDiff),
    ("\\union", Word::SlashUnion),
    ("\\inter", Word::SlashInter),
    ("\\callees", Word::SlashCallees),
    ("\\writing", Word::SlashWriting),
    ("\\reading", Word::SlashReading),
    ("\\calling", Word::SlashCalling),
    ("\\precond", Word::SlashPrecond),
    ("\\postcond", Word::SlashPostcond),
    ("\\weak_invariant", Word::SlashWeak),
    ("\\strong_invariant", Word::SlashStrong),
];

static DIRECTIVES: [(&str, Word); 3] = [
    ("%init", Word::DirectiveInit),
    ("%accept", Word::DirectiveAccept),
    ("%deterministic", Word::DirectiveDeterministic),
];

static FURTHER_PUNCTUATORS: [(&str, Word); 3] = [
    ("==>", Word::Implies),
    ("<==>", Word::Equivalent),
    ("..", Word::DotDot),
];

/// The word beside these bytes in a table.
fn word_in(table: &[(&str, Word)], bytes: &[u8]) -> Word
    ensures { result ≡ c_words_spec.word_in (map (λ p. (p.0.now, p.1)) table.now) bytes.now }
{
    for (spelling, word) in table {
        if bytes == spelling.as_bytes() {
            return *word;
        }
    }
    Word::Unused
}

fn or_else(first: Word, second: Word) -> Word
    ensures { result ≡ spec.or_else first second }
{
    if same(first, Word::Unused) {
        second
    } else {
        first
    }
}

#[tactic(auto, unfolding(crate::specs::AnnotationWords::context_names))]
fn context_name(bytes: &[u8]) -> Word
    ensures { result ≡ c_words_spec.word_in spec.context_names bytes.now }
{
    word_in(&CONTEXT_NAMES, bytes)
}

#[tactic(auto, unfolding(crate::specs::AnnotationWords::backslash_words))]
fn backslash_word(bytes: &[u8]) -> Word
    ensures { result ≡ c_words_spec.word_in spec.backslash_words bytes.now }
{
    word_in(&BACKSLASH_WORDS, bytes)
}

#[tactic(auto, unfolding(crate::specs::AnnotationWords::directives))]
fn directive(bytes: &[u8]) -> Word
    ensures { result ≡ c_words_spec.word_in spec.directives bytes.now }
{
    word_in(&DIRECTIVES, bytes)
}

#[tactic(auto, unfolding(crate::specs::AnnotationWords::further_punctuators))]
fn further_punctuator(bytes: &[u8]) -> Word
    ensures { result ≡ c_words_spec.word_in spec.further_punctuators bytes.now }
{
    word_in(&FURTHER_PUNCTUATORS, bytes)
}

fn bytes_of<'a>(text: &'a [u8], token: &Token) -> &'a [u8]
    ensures { result.now ≡ c_words_spec.bytes_of text.now token.now }
{
    let first = (token.first as usize).min(text.len());
    let past = (token.past as usize).clamp(first, text.len());
    &text[first..past]
}

/// The word of a token of which C sees this one.
fn word_of(kind: TokenKind, in_c: Word, bytes: &[u8]) -> Word
    ensures { result ≡ spec.word_by kind in_c bytes.now }
{
    match kind {
        TokenKind::Name => or_else(context_name(bytes), Word::Name),
        TokenKind::Punctuation => or_else(in_c, further_punctuator(bytes)),
        TokenKind::Backslash => backslash_word(bytes),
        TokenKind::Percent => directive(bytes),
        TokenKind::Text => Word::String,
        TokenKind::Number(_)
        | TokenKind::Character
        | TokenKind::Keyword
        | TokenKind::Meta
        | TokenKind::Ghost
        | TokenKind::Assert => in_c,
    }
}

#[tactic(auto, unfolding(crate::specs::AnnotationWords::annotation_leaf))]
fn annotation_leaf(text: &[u8], leaf: &Leaf) -> Leaf
    ensures { result ≡ spec.annotation_leaf text.now leaf.now }
{
    Leaf {
        word: word_of(leaf.token.kind, leaf.word, bytes_of(text, &leaf.token)),
        token: leaf.token,
    }
}

/// Leaves as C sees them, with the words that annotations have.
fn with_words(alloc: Global, text: &[u8], in_c: &[Leaf]) -> Result<Vec<Leaf>, AllocError>
    ensures { IfOk result (λ leaves. leaves.items ≡ map (spec.annotation_leaf text.now) in_c.now) }
{
    let mut leaves = Vec::new(alloc);
    for leaf in in_c {
        leaves.push(annotation_leaf(text, leaf))?;
    }
    Ok(leaves)
}

/// The leaves of an annotation, or of a Ya text, with these tokens. An error is want of memory.
#[tactic(auto, unfolding(crate::specs::AnnotationWords::annotation_leaves))]
pub fn annotation_leaves(
    alloc: Global,
    text: &[u8],
    tokens: &[Token],
) -> Result<Vec<Leaf>, AllocError>
    ensures { IfOk result (λ leaves. leaves.items ≡ spec.annotation_leaves text.now tokens.now) }
{
    let in_c = leaves_of(alloc, text, tokens, Mode::Source)?;
    with_words(alloc, text, in_c.as_slice())
}
