//! The leaves that are left, and the form of those that were read.

ghost use Rattle.std.specs.Prelude.{◌≡◌, ◌++◌, ◌∷◌, Bool, [], OnOk};
ghost use Rattle.c_words.specs.declared.word.Word.{Word as WordValue};
ghost use Rattle.acsl_postfix.specs.Coders as spec;
ghost use Rattle.acsl_postfix.specs.Coders.{Codes, word_of};

use acsl_postfix::Operation;
use c_words::cursor::{Cursor, same};
use c_words::fault::ParseFault;
use c_words::word::{Leaf, Word};
use std::alloc::{AllocError, Global};
use std::marker::Model;

#[derive(Drop)]
pub struct Reader<'a> {
    pub tokens: Cursor<'a>,
    pub operations: Vec<Operation>,
}

impl<'a> Model for Reader<'a> {
    ghost use Rattle.acsl_postfix.specs.Coders.{State};

    ghost Value = { State };

    ghost view = { λ r. record { operations = r.operations.items; leaves = r.tokens } };
}

impl<'a> Reader<'a> {
    /// Nothing is read yet.
    pub fn new(alloc: Global, leaves: &'a [Leaf]) -> Reader<'a>
        ensures { result ≡ spec.before leaves.now }
    {
        Reader {
            tokens: Cursor::new(leaves),
            operations: Vec::new(alloc),
        }
    }
}

/// The next word.
pub fn next_word(reader: &Reader<'_>) -> Word
    ensures { result ≡ word_of reader.now }
{
    reader.tokens.peek()
}

/// Whether the next word is this.
pub fn is_next(reader: &Reader<'_>, word: Word) -> bool
    ensures { result ≡ spec.is_next word reader.now }
{
    same(word, reader.tokens.peek())
}

/// How many leaves are left.
pub fn left(reader: &Reader<'_>) -> usize
    ensures { result ≡ spec.left reader.now }
{
    reader.tokens.left()
}

/// The refusal of the next token.
pub fn refused(reader: &Reader<'_>) -> ParseFault
    ensures { (place : _) × (result ≡ ParseFault.Syntax place) }
{
    reader.tokens.refuse()
}

/// One operation more after those in the list.
fn push(operations: &mut Vec<Operation>, operation: Operation) -> Result<(), AllocError>
    ensures { OnOk result (operations.new.items ≡ operations.old.items ++ operation ∷ []) }
{
    operations.push(operation)?;
    Ok(())
}

/// One operation more.
#[tactic(auto, unfolding(acsl_postfix::specs::Coders::emit))]
pub fn emit(reader: &mut Reader<'_>, operation: Operation) -> Result<(), ParseFault>
    ensures { Codes (spec.emit operation reader.old) result reader.new }
{
    push(&mut reader.operations, operation)?;
    Ok(())
}

/// Takes the word, or refuses.
#[tactic(auto, unfolding(acsl_postfix::specs::Coders::lifted))]
pub fn expect(reader: &mut Reader<'_>, word: Word) -> Result<Leaf, ParseFault>
    ensures { Codes (spec.expect word reader.old) result reader.new }
{
    reader.tokens.expect(word)
}

/// Takes the next leaf, where its word passes a test, or refuses.
#[tactic(auto, unfolding(acsl_postfix::specs::Coders::lifted), using(acsl_postfix::proofs::Steps::takes_what_passes, acsl_postfix::proofs::Steps::refuses_what_fails))]
pub fn taken(reader: &mut Reader<'_>, passes: bool) -> Result<Leaf, ParseFault>
    ensures { (test : WordValue → Bool) → test (word_of reader.old) ≡ passes → Codes (spec.take_if test reader.old) result reader.new }
{
    if passes {
        let word = reader.tokens.peek();
        reader.tokens.expect(word)
    } else {
        Err(reader.tokens.refuse())
    }
}

/// Whether anything may stand in a position that nests, where so much nesting is left.
pub fn nests(depth: usize) -> bool
    ensures { result ≡ spec.nests depth }
{
    depth != 0
}
