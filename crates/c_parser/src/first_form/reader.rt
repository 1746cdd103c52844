//! The tokens that are left of a text.
ghost use Rattle.std.specs.Prelude.{◌≡◌, ◌<◌, ◌≤◌, IfOk, true};
ghost use Rattle.c_lexer.specs.FirstForm.Tokens.{AreTokensOf};
ghost use Rattle.c_parser.specs.FirstForm.Spelling.{words_of};
ghost use Rattle.c_parser.specs.FirstForm.Texts.{is_name};
ghost use Rattle.c_parser.specs.FirstForm.Reading as spec;
ghost use Rattle.c_parser.specs.FirstForm.Reading.{Reads};
ghost use Rattle.c_parser.specs.FirstForm.Lexemes.{lexeme_word, IsAllowedWord};

use crate::first_form::fault::Fault;
use crate::first_form::fixed::Fixed;
use crate::first_form::lexeme::{Lexeme, ascii_text, lexeme_of, number_in};
use c_lexer::{IntSuffix, Token, TokenKind};
use std::marker::Model;

/// The tokens that are left, and how many declarations, functions and statements may still come.
#[derive(Drop)]
pub struct Reader<'a> {
    text: &'a [u8],
    tokens: &'a [Token],
    budget: u32,
}

impl<'a> Model for Reader<'a> {
    ghost use Rattle.c_parser.specs.FirstForm.Spelling.{words_of};
    ghost use Rattle.c_parser.specs.FirstForm.Reading.{Left};
    ghost use Rattle.c_parser.specs.FirstForm.Lexemes.{AllTokensOf};

    ghost Value = { Left };

    ghost view = { λ r. record { words = words_of r.text.now r.tokens.now; budget = r.budget } };

    ghost invariant = { λ r. AllTokensOf r.text.now r.tokens.now };
}

impl<'a> Reader<'a> {
    pub fn new(text: &'a [u8], tokens: &'a [Token], budget: u32) -> Reader<'a>
        requires { AreTokensOf text.now tokens.now }
        ensures { result ≡ record { words = words_of text.now tokens.now; budget = budget } }
    {
        Reader {
            text,
            tokens,
            budget,
        }
    }

    /// Whether this word stands at a place among the words that are left, from 0.
    #[tactic(auto, unfolding(crate::specs::FirstForm::Reading::is_at))]
    pub fn is_at(&self, place: usize, word: Fixed) -> bool
        ensures { result ≡ spec.is_at place word self.now.words }
    {
        match self.tokens.get(place) {
            None => false,
            Some(token) => {
                let found = lexeme_of(self.text, token);
                word.is(found.kind, found.bytes)
            }
        }
    }

    #[tactic(auto, unfolding(crate::specs::FirstForm::Reading::take_word))]
    fn take(&mut self) -> Result<Lexeme<'a>, Fault>
        ensures read { Reads lexeme_word (spec.take_word self.old) result self.new }
        ensures allowed { IfOk result (λ found. IsAllowedWord (lexeme_word found)) }
    {
        let Some((token, rest)) = self.tokens.split_first() else {
            return Err(Fault::NotFirstForm);
        };
        let found = lexeme_of(self.text, token);
        self.tokens = rest;
        Ok(found)
    }

    /// Takes this word.
    #[tactic(auto, unfolding(crate::specs::FirstForm::Reading::expect))]
    pub fn expect(&mut self, word: Fixed) -> Result<(), Fault>
        ensures { Reads (λ _. tt) (spec.expect word self.old) result self.new }
    {
        let found = self.take()?;
        if word.is(found.kind, found.bytes) {
            Ok(())
        } else {
            Err(Fault::NotFirstForm)
        }
    }

    /// Takes these words.
    pub fn expect_all(&mut self, words: &[Fixed]) -> Result<(), Fault>
        ensures { Reads (λ _. tt) (spec.expect_all words.now self.old) result self.new }
    {
        for word in words {
            self.expect(*word)?;
        }
        Ok(())
    }

    /// Takes a name.
    #[tactic(auto, unfolding(crate::specs::FirstForm::Reading::name))]
    pub fn name(&mut self) -> Result<&'a str, Fault>
        ensures read { Reads (λ x. x.now) (spec.name self.old) result self.new }
        ensures named { IfOk result (λ x. is_name x.now ≡ true) }
    {
        let found = self.take()?;
        match found.kind {
            TokenKind::Name => Ok(ascii_text(found.bytes)),
            _ => Err(Fault::NotFirstForm),
        }
    }

    /// Takes a number that C's `int` has.
    #[tactic(auto, unfolding(crate::specs::FirstForm::Reading::number))]
    pub fn number(&mut self) -> Result<i128, Fault>
        ensures { Reads (λ n. n) (spec.number self.old) result self.new }
    {
        let found = self.take()?;
        match found.kind {
            TokenKind::Number(IntSuffix::Plain) => number_in(found.bytes).ok_or(
                Fault::NotFirstForm,
            ),
            _ => Err(Fault::NotFirstForm),
        }
    }

    /// Counts one declaration, function or statement more.
    #[tactic(auto, unfolding(crate::specs::FirstForm::Reading::spend))]
    pub fn spend(&mut self) -> Result<(), Fault>
        ensures { Reads (λ _. tt) (spec.spend self.old) result self.new }
    {
        if self.budget == 0 {
            return Err(Fault::NotFirstForm);
        }
        self.budget -= 1;
        Ok(())
    }

    /// Sees that no word is left.
    #[tactic(auto, unfolding(crate::specs::FirstForm::Reading::finish))]
    pub fn finish(&self) -> Result<(), Fault>
        ensures { Reads (λ _. tt) (spec.finish self.now) result self.now }
    {
        if self.tokens.is_empty() {
            Ok(())
        } else {
            Err(Fault::NotFirstForm)
        }
    }
}
