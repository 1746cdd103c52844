//! Types that a text spells (C11 6.7.2, 6.7.7), and reserved names.

ghost use Rattle.std.specs.Prelude.{◌≡◌, ◌&&◌, ◌==◌, slice_index, Ok};
ghost use Rattle.typing_rules.specs.Checked.{Gives};
ghost use Rattle.typing_rules.specs.Environment as rules;
ghost use Rattle.typing_rules.specs.TreesOfExpressions.{spelled};
ghost use Rattle.typing_scopes.specs.Found.{struct_type};
ghost use Rattle.typing_scopes.specs.Known.{known};

use crate::known::Known;
use c_grammar::types::{Specifier, TypeName};
use c_words::word::{Leaf, Mode};
use std::alloc::Global;
use step_meaning::CType;
use typing_operands::part::type_part;
use typing_rules::fault::TypeFault;
use typing_rules::operand::TypePart;
use typing_rules::spelling::integer_kind;

/// The type behind so many stars.
fn with_stars(alloc: Global, stars: usize, t: TypePart) -> Result<TypePart, TypeFault>
    ensures { Gives (Ok (rules.with_stars stars t)) result }
{
    let mut found = t;
    let mut left = stars;
    while left > 0 {
        found = type_part(alloc, CType::Pointer(found.into_boxed()))?;
        left -= 1;
    }
    Ok(found)
}

/// Whether the name begins with two underscores.
fn begins_reserved(name: &[u8]) -> bool
    ensures { result ≡ (slice_index name.now 0 == 95 && slice_index name.now 1 == 95) }
{
    name.len() >= 2 && name[0] == b'_' && name[1] == b'_'
}

fn is_source(mode: Mode) -> bool
    ensures { result ≡ rules.is_source mode }
{
    match mode {
        Mode::Source => true,
        Mode::Woven => false,
    }
}

impl<'t> Known<'t> {
    /// Whether the text may not declare the name.
    pub fn is_reserved(&self, name: &[u8]) -> bool
        ensures { result ≡ rules.is_reserved (known self.now) name.now }
    {
        is_source(self.mode) && begins_reserved(name)
    }

    #[tactic(auto, unfolding(typing_rules::specs::Checked::kept))]
    fn tagged(&self, alloc: Global, tag: &Leaf) -> Result<TypePart, TypeFault>
        ensures { Gives (struct_type (known self.now) tag.now) result }
    {
        match self.tags.number(self.bytes(tag)) {
            Some(number) => type_part(alloc, CType::Struct(number)),
            None => Err(TypeFault::Unknown(tag.token.place)),
        }
    }

    /// The type before the stars or the declarator (C11 6.7.2).
    #[tactic(auto, unfolding(typing_rules::specs::Environment::specified, typing_rules::specs::Checked::kept))]
    pub fn specified(&self, alloc: Global, specifier: &Specifier) -> Result<TypePart, TypeFault>
        ensures { Gives (rules.specified (known self.now) specifier.now) result }
    {
        match specifier {
            Specifier::Integer(spelling) => type_part(alloc, CType::Int(integer_kind(*spelling))),
            Specifier::Void(_) => type_part(alloc, CType::Void),
            Specifier::Struct(_, tag) => self.tagged(alloc, tag),
        }
    }

    /// The type that a function's result has, with so many stars.
    #[tactic(auto, unfolding(typing_rules::specs::Environment::spelled_type))]
    pub fn starred(
        &self,
        alloc: Global,
        specifier: &Specifier,
        stars: usize,
    ) -> Result<TypePart, TypeFault>
        ensures { Gives (rules.spelled_type (known self.now) (record { specifier = specifier.now; stars = stars })) result }
    {
        let t = self.specified(alloc, specifier)?;
        with_stars(alloc, stars, t)
    }

    /// The type that a cast or a `sizeof` names (C11 6.7.7).
    pub fn spelled_type(&self, alloc: Global, name: &TypeName) -> Result<TypePart, TypeFault>
        ensures { Gives (rules.spelled_type (known self.now) (spelled name.now)) result }
    {
        self.starred(alloc, &name.base.specifier, name.stars.len())
    }
}
