//! The parts of an aggregate, which the elements of an initialiser in braces stand for (C11 6.7.9, 17).

ghost use Rattle.std.specs.Prelude.{◌≡◌, map, replicate, slice_get};
ghost use Rattle.std.specs.Option.{option_map};
ghost use Rattle.typing_initialisers.specs.Initialisers as rules;
ghost use Rattle.typing_initialisers.specs.Parts.{parts};

use step_meaning::{CType, Declared, Layout};

/// The elements of an array, all of one type, or the members of a struct.
#[derive(Clone, Copy)]
pub enum Parts<'t> {
    Elements(&'t CType, u32),
    Members(&'t [Declared]),
}

impl<'t> Parts<'t> {
    /// The type of the part with this number.
    pub fn at(self, index: usize) -> Option<&'t CType>
        ensures { option_map (λ t. t.now) result ≡ slice_get (parts self.entry) index }
    {
        match self {
            Parts::Elements(of, count) => element_type(of, count as usize, index),
            Parts::Members(members) => member_type(members, index),
        }
    }
}

/// The type of the element with this number.
fn element_type(of: &CType, count: usize, index: usize) -> Option<&CType>
    ensures { option_map (λ t. t.now) result ≡ slice_get (replicate count of.now) index }
{
    if index < count { Some(of) } else { None }
}

/// The type of the member with this number.
fn member_type(members: &[Declared], index: usize) -> Option<&CType>
    ensures { option_map (λ t. t.now) result ≡ slice_get (map (λ d. d.ctype) members.now) index }
{
    if index < members.len() {
        Some(&members[index].ctype)
    } else {
        None
    }
}

/// The members of the struct with this number; none where there is no such struct.
fn members_of(layouts: &[Layout], number: usize) -> Parts<'_>
    ensures { parts result ≡ rules.members_there (slice_get layouts.now number) }
{
    if number < layouts.len() {
        Parts::Members(layouts[number].members.as_slice())
    } else {
        Parts::Members(&[])
    }
}

/// The parts of an object of the type; none of a scalar.
#[tactic(auto, using(crate::proofs::PartForms::part_forms))]
pub fn parts_of<'t>(layouts: &'t [Layout], t: &'t CType) -> Parts<'t>
    ensures { parts result ≡ rules.parts_of layouts.now t.now }
{
    match t {
        CType::Array(of, count) => Parts::Elements(of.get(), *count),
        CType::Struct(number) => members_of(layouts, *number as usize),
        CType::Void | CType::Int(_) | CType::Pointer(_) => Parts::Members(&[]),
    }
}
