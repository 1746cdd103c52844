//! The leaves that are left to read.

ghost use Rattle.std.specs.Prelude.{◌≡◌, length};
ghost use Rattle.c_words.specs.Words.{same as same_word};
ghost use Rattle.c_words.specs.Operators.{has, continues};
ghost use Rattle.c_words.specs.Parsing as spec;
ghost use Rattle.c_words.specs.Parsing.{Reads};

use crate::fault::ParseFault;
use crate::operators::Operators;
use crate::word::{Leaf, Word};
use c_lexer::Place;
use std::marker::Model;

#[derive(Drop)]
pub struct Cursor<'a> {
    leaves: &'a [Leaf],
}

impl<'a> Model for Cursor<'a> {
    ghost use Rattle.std.specs.Prelude.{List};
    ghost use Rattle.c_words.specs.declared.word.Leaf.{Leaf};

    ghost Value = { List Leaf };

    ghost view = { λ c. c.leaves.now };
}

/// Whether two words are the same.
pub fn same(a: Word, b: Word) -> bool
    ensures { result ≡ same_word a b }
{
    a as u8 == b as u8
}

impl<'a> Cursor<'a> {
    pub fn new(leaves: &'a [Leaf]) -> Cursor<'a>
        ensures { result ≡ leaves.now }
    {
        Cursor { leaves }
    }

    pub fn left(&self) -> usize
        ensures { result ≡ length self.now }
    {
        self.leaves.len()
    }

    /// Another cursor at the same leaf, to look ahead with.
    pub fn ahead(&self) -> Cursor<'a>
        ensures { result ≡ self.now }
    {
        Cursor {
            leaves: self.leaves,
        }
    }

    /// The next word.
    #[tactic(auto, unfolding(crate::specs::Parsing::word_at))]
    pub fn peek(&self) -> Word
        ensures { result ≡ spec.word_at self.now }
    {
        match self.leaves.split_first() {
            None => Word::End,
            Some((first, _)) => first.word,
        }
    }

    /// The word after the next.
    #[tactic(auto, unfolding(crate::specs::Parsing::word_at, crate::specs::Parsing::after))]
    pub fn second(&self) -> Word
        ensures { result ≡ spec.word_at (spec.after self.now) }
    {
        match self.leaves.split_first() {
            None => Word::End,
            Some((_, leaves)) => Cursor { leaves }.peek(),
        }
    }

    /// The leaves after the next.
    #[tactic(auto, unfolding(crate::specs::Parsing::after))]
    pub fn after(&self) -> Cursor<'a>
        ensures { result ≡ spec.after self.now }
    {
        match self.leaves.split_first() {
            None => Cursor {
                leaves: self.leaves,
            },
            Some((_, leaves)) => Cursor { leaves },
        }
    }

    /// Whether a chain of these operators goes on here.
    pub fn continues(&self, operators: Operators) -> bool
        ensures { result ≡ continues operators self.now }
    {
        match operators {
            Operators::Elements => same(Word::Comma, self.peek())
                && !same(Word::RightBrace, self.second()),
            _ => operators.has(self.peek()),
        }
    }

    /// The fault at the next token.
    pub fn refuse(&self) -> ParseFault
        ensures { (place : _) × (result ≡ ParseFault.Syntax place) }
    {
        match self.leaves.first() {
            None => ParseFault::Syntax(Place { line: 0, column: 0 }),
            Some(first) => ParseFault::Syntax(first.token.place),
        }
    }

    /// Takes the word, or refuses.
    #[tactic(auto, unfolding(crate::specs::Parsing::take_if))]
    pub fn expect(&mut self, word: Word) -> Result<Leaf, ParseFault>
        ensures { Reads (spec.expect word self.old) result self.new }
    {
        match self.leaves.split_first() {
            Some((first, rest)) if same(word, first.word) => {
                self.leaves = rest;
                Ok(*first)
            }
            _ => Err(self.refuse()),
        }
    }

    /// Takes the word, where it is the next.
    #[tactic(auto, unfolding(crate::specs::Parsing::optional_at))]
    pub fn optional(&mut self, word: Word) -> Result<Option<Leaf>, ParseFault>
        ensures { Reads (spec.optional_at word self.old) result self.new }
    {
        if same(word, self.peek()) {
            Ok(Some(self.expect(word)?))
        } else {
            Ok(None)
        }
    }

    /// Takes one of the operators, or refuses.
    #[tactic(auto, unfolding(crate::specs::Parsing::take_if))]
    pub fn operator(&mut self, operators: Operators) -> Result<Leaf, ParseFault>
        ensures { Reads (spec.take_if (has operators) self.old) result self.new }
    {
        match self.leaves.split_first() {
            Some((first, rest)) if operators.has(first.word) => {
                self.leaves = rest;
                Ok(*first)
            }
            _ => Err(self.refuse()),
        }
    }
}
