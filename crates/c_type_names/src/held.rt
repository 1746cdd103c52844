//! Steps of a reader that hold what was read before. They are generic, so that no caller lets a tree go.

ghost use Rattle.std.specs.Prelude.{◌≡◌, [], ◌∷◌, ◌++◌};
ghost use Rattle.c_words.specs.Operators.{has};
ghost use Rattle.c_words.specs.Parsing.{Reads, pure, take_if, expect, optional_at};
ghost use Rattle.c_type_names.specs.TypeReading as types;
ghost use Rattle.c_type_names.specs.Held.{ReadsAfter, pure_unless};

use crate::types::{base, stars};
use c_grammar::types::{Base, Star};
use c_words::cursor::Cursor;
use c_words::fault::ParseFault;
use c_words::operators::Operators;
use c_words::word::{Leaf, Word};
use sqlite_items::{Boxed, Items};
use std::alloc::Global;

/// Takes the word after `held`.
pub fn then_expect<T: Drop>(
    held: T,
    tokens: &mut Cursor<'_>,
    word: Word,
) -> Result<(T, Leaf), ParseFault>
    ensures { ReadsAfter held (expect word tokens.old) result tokens.new }
{
    let found = tokens.expect(word)?;
    Ok((held, found))
}

/// Takes the word after `held`, where it is the next.
pub fn then_optional<T: Drop>(
    held: T,
    tokens: &mut Cursor<'_>,
    word: Word,
) -> Result<(T, Option<Leaf>), ParseFault>
    ensures { ReadsAfter held (optional_at word tokens.old) result tokens.new }
{
    let found = tokens.optional(word)?;
    Ok((held, found))
}

/// Takes one of the operators after `held`.
pub fn then_operator<T: Drop>(
    held: T,
    tokens: &mut Cursor<'_>,
    operators: Operators,
) -> Result<(T, Leaf), ParseFault>
    ensures { ReadsAfter held (take_if (has operators) tokens.old) result tokens.new }
{
    let found = tokens.operator(operators)?;
    Ok((held, found))
}

/// A base, where `held` was read before.
pub fn then_base<T: Drop>(
    held: T,
    alloc: Global,
    tokens: &mut Cursor<'_>,
) -> Result<(T, Base), ParseFault>
    ensures { ReadsAfter held (types.base tokens.old) result tokens.new }
{
    let found = base(alloc, tokens)?;
    Ok((held, found))
}

/// At most `limit` stars, where `held` was read before.
pub fn then_stars<T: Drop>(
    held: T,
    alloc: Global,
    tokens: &mut Cursor<'_>,
    limit: usize,
) -> Result<(T, Items<Star>), ParseFault>
    ensures { ReadsAfter held (types.stars_from limit [] tokens.old) result tokens.new }
{
    let found = stars(alloc, tokens, limit)?;
    Ok((held, found))
}

/// `held`, or the fault at the next token where it is refused.
pub fn unless_refused<T: Drop>(held: T, tokens: &Cursor<'_>, refused: bool) -> Result<T, ParseFault>
    ensures { Reads (pure_unless refused held tokens.now) result tokens.now }
{
    if refused {
        return Err(tokens.refuse());
    }
    Ok(held)
}

/// `other`, where `held` is let go.
pub fn instead<T: Drop, U>(_held: T, other: U) -> U
    ensures { result ≡ other }
{
    other
}

/// `held` with one more item.
pub fn pushed<T: Drop>(mut held: Items<T>, item: T) -> Result<Items<T>, ParseFault>
    ensures { (rest : _) → Reads (pure (held ++ item ∷ []) rest) result rest }
{
    held.push(item)?;
    Ok(held)
}

/// A box of `item`.
pub fn boxed<T: Drop>(alloc: Global, item: T) -> Result<Boxed<T>, ParseFault>
    ensures { (rest : _) → Reads (pure item rest) result rest }
{
    Ok(Boxed::new(alloc, item)?)
}
