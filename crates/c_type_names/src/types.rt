//! Types.

ghost use Rattle.std.specs.Prelude.{◌≡◌, []};
ghost use Rattle.c_words.specs.declared.word.Word.TheVariants as w;
ghost use Rattle.c_words.specs.Words.{same as same_word};
ghost use Rattle.c_words.specs.Parsing.{Reads, expect};
ghost use Rattle.c_type_names.specs.TypeReading as spec;

use crate::chain::{Part, run};
use c_grammar::types::{Base, Integer, Specifier, Star, TypeName};
use c_words::cursor::{Cursor, same};
use c_words::fault::ParseFault;
use c_words::word::{Leaf, Word};
use sqlite_items::Items;
use std::alloc::Global;

#[tactic(auto, unfolding(crate::specs::TypeReading::signed))]
fn signed(tokens: &mut Cursor<'_>) -> Result<Integer, ParseFault>
    ensures { Reads (spec.signed tokens.old) result tokens.new }
{
    let first = tokens.expect(Word::Signed)?;
    match tokens.peek() {
        Word::Char => Ok(Integer::SignedChar(first, tokens.expect(Word::Char)?)),
        Word::Short => {
            let kind = tokens.expect(Word::Short)?;
            let int = tokens.optional(Word::Int)?;
            Ok(Integer::Short(Some(first), kind, int))
        }
        Word::Long => {
            let kind = tokens.expect(Word::Long)?;
            let int = tokens.optional(Word::Int)?;
            Ok(Integer::Long(Some(first), kind, int))
        }
        _ => Ok(Integer::Signed(first, tokens.optional(Word::Int)?)),
    }
}

#[tactic(auto, unfolding(crate::specs::TypeReading::unsigned))]
fn unsigned(tokens: &mut Cursor<'_>) -> Result<Integer, ParseFault>
    ensures { Reads (spec.unsigned tokens.old) result tokens.new }
{
    let first = tokens.expect(Word::Unsigned)?;
    match tokens.peek() {
        Word::Char => Ok(Integer::UnsignedChar(first, tokens.expect(Word::Char)?)),
        Word::Short => {
            let kind = tokens.expect(Word::Short)?;
            let int = tokens.optional(Word::Int)?;
            Ok(Integer::UnsignedShort(first, kind, int))
        }
        Word::Long => {
            let kind = tokens.expect(Word::Long)?;
            let int = tokens.optional(Word::Int)?;
            Ok(Integer::UnsignedLong(first, kind, int))
        }
        _ => Ok(Integer::Unsigned(first, tokens.optional(Word::Int)?)),
    }
}

#[tactic(auto, unfolding(crate::specs::TypeReading::integer))]
fn integer(tokens: &mut Cursor<'_>) -> Result<Integer, ParseFault>
    ensures { Reads (spec.integer tokens.old) result tokens.new }
{
    match tokens.peek() {
        Word::Char => Ok(Integer::Char(tokens.expect(Word::Char)?)),
        Word::Short => {
            let kind = tokens.expect(Word::Short)?;
            let int = tokens.optional(Word::Int)?;
            Ok(Integer::Short(None, kind, int))
        }
        Word::Int => Ok(Integer::Int(tokens.expect(Word::Int)?)),
        Word::Long => {
            let kind = tokens.expect(Word::Long)?;
            let int = tokens.optional(Word::Int)?;
            Ok(Integer::Long(None, kind, int))
        }
        Word::Signed => signed(tokens),
        Word::Unsigned => unsigned(tokens),
        _ => Err(tokens.refuse()),
    }
}

#[tactic(auto, unfolding(crate::specs::TypeReading::struct_type))]
fn struct_type(tokens: &mut Cursor<'_>) -> Result<Specifier, ParseFault>
    ensures { Reads (spec.struct_type tokens.old) result tokens.new }
{
    let word = tokens.expect(Word::Struct)?;
    let tag = tokens.expect(Word::Name)?;
    Ok(Specifier::Struct(word, tag))
}

#[tactic(auto, unfolding(crate::specs::TypeReading::specifier))]
fn specifier(tokens: &mut Cursor<'_>) -> Result<Specifier, ParseFault>
    ensures { Reads (spec.specifier tokens.old) result tokens.new }
{
    match tokens.peek() {
        Word::Void => Ok(Specifier::Void(tokens.expect(Word::Void)?)),
        Word::Struct => struct_type(tokens),
        _ => Ok(Specifier::Integer(integer(tokens)?)),
    }
}

/// Reads `const`.
struct Const;

impl Part<Leaf> for Const {
    ghost can_read = { λ _. Unit {0} };

    ghost begins = { λ _. same_word w.Const };

    ghost parser = { λ _. expect w.Const };

    fn begins(&self, word: Word) -> bool {
        same(Word::Const, word)
    }

    fn part(&self, tokens: &mut Cursor<'_>) -> Result<Leaf, ParseFault> {
        tokens.expect(Word::Const)
    }
}

/// Each `const` that stands here.
#[tactic(auto, unfolding(crate::specs::TypeReading::consts))]
pub fn consts(alloc: Global, tokens: &mut Cursor<'_>) -> Result<Items<Leaf>, ParseFault>
    ensures { Reads (spec.consts tokens.old) result tokens.new }
{
    run(alloc, tokens, &Const)
}

#[tactic(auto, unfolding(crate::specs::TypeReading::base))]
pub fn base(alloc: Global, tokens: &mut Cursor<'_>) -> Result<Base, ParseFault>
    ensures { Reads (spec.base tokens.old) result tokens.new }
{
    let specifier = specifier(tokens)?;
    let consts = consts(alloc, tokens)?;
    Ok(Base { specifier, consts })
}

#[tactic(auto, unfolding(crate::specs::TypeReading::star))]
pub fn star(alloc: Global, tokens: &mut Cursor<'_>) -> Result<Star, ParseFault>
    ensures { Reads (spec.star tokens.old) result tokens.new }
{
    let star = tokens.expect(Word::Star)?;
    let consts = consts(alloc, tokens)?;
    Ok(Star { star, consts })
}

/// At most `limit` stars.
pub fn stars(
    alloc: Global,
    tokens: &mut Cursor<'_>,
    limit: usize,
) -> Result<Items<Star>, ParseFault>
    ensures { Reads (spec.stars_from limit [] tokens.old) result tokens.new }
{
    let mut found = Items::new(alloc);
    for _turn in 0..limit {
        if !same(Word::Star, tokens.peek()) {
            return Ok(found);
        }
        let next = star(alloc, tokens)?;
        found.push(next)?;
    }
    Ok(found)
}

/// The name of a type that nests below the number.
#[tactic(auto, unfolding(crate::specs::TypeReading::type_name))]
pub fn type_name(
    alloc: Global,
    tokens: &mut Cursor<'_>,
    depth: usize,
) -> Result<TypeName, ParseFault>
    ensures { Reads (spec.type_name depth tokens.old) result tokens.new }
{
    if depth == 0 {
        return Err(tokens.refuse());
    }
    let base = base(alloc, tokens)?;
    let stars = stars(alloc, tokens, depth)?;
    Ok(TypeName { base, stars })
}
