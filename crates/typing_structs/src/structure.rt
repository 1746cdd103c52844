//! Structs.

ghost use Rattle.std.specs.Prelude.{◌≡◌, ◌≤◌, [], length, Ok, OnOk};
ghost use Rattle.typing_rules.specs.Checked.{Gives};
ghost use Rattle.typing_rules.specs.FileScope.{bytes};
ghost use Rattle.typing_rules.specs.Structs as rules;
ghost use Rattle.typing_scopes.specs.Known.{program};
ghost use Rattle.typing_files.specs.Points.{IsAtFile, IsSteady, Becomes};
ghost use Rattle.typing_structs.specs.Members.{members_in};
ghost use Rattle.typing_structs.specs.Structs.{within, limited, IsInStruct};

use crate::member::all_members;
use c_grammar::program::Member;
use c_words::word::Leaf;
use sqlite_items::Items;
use std::alloc::Global;
use step_meaning::Declared;
use typing_files::sizes::room_beside;
use typing_rules::fault::TypeFault;
use typing_scopes::known::Known;

/// A tag names one struct, and isn't reserved.
#[tactic(auto, unfolding(typing_rules::specs::Checked::none_of))]
fn tag_declarable(known: &Known<'_>, tag: &Leaf) -> Result<(), TypeFault>
    requires { IsAtFile known.now }
    ensures { Gives (rules.tag_declarable (program known.now) tag.now) result }
{
    let bytes = known.bytes(tag);
    if known.tags.has(bytes) {
        Err(TypeFault::Redeclared(tag.token.place))
    } else if known.is_reserved(bytes) {
        Err(TypeFault::Reserved(tag.token.place))
    } else {
        Ok(())
    }
}

/// The definition of a struct begins, whose tag is known in its members (C11 6.2.1, 7).
fn begin<'t>(known: &mut Known<'t>, tag: &Leaf) -> Result<(), TypeFault>
    requires { IsAtFile known.old }
    ensures gives { Gives (rules.tag_declarable (program known.old) tag.now) result }
    ensures same { OnOk result (program known.new ≡ program known.old) }
    ensures within { OnOk result (IsInStruct known.new tag.now) }
{
    tag_declarable(known, tag)?;
    let bytes = known.bytes(tag);
    known.open_struct(bytes)
}

/// The members of a struct whose tag is known.
fn members_within(
    alloc: Global,
    known: &Known<'_>,
    tag: &Leaf,
    trees: &[Member],
) -> Result<Items<Declared>, TypeFault>
    requires { IsInStruct known.now tag.now }
    ensures { Gives (rules.all_members (within (program known.now) tag.now) [] (members_in trees.now)) result }
{
    let _ = tag;
    all_members(alloc, known, trees)
}

/// The limit of a struct, which has a member (C11 6.7.2.1, 8): one without members stands in no text that was parsed, and finds no
/// memory.
#[tactic(auto, unfolding(typing_rules::specs::Checked::unless))]
fn limited(known: &Known<'_>, tag: &Leaf, members: &[Declared]) -> Result<(), TypeFault>
    ensures gives { Gives (limited (program known.now) tag.now members.now) result }
    ensures some { OnOk result (1 ≤ length members.now) }
{
    if members.is_empty() {
        return Err(TypeFault::Memory);
    }
    if room_beside(known.layouts.as_slice(), members, 65_537) == 0 {
        return Err(TypeFault::TooLarge(tag.token.place));
    }
    Ok(())
}

/// The struct is complete, with these members.
fn complete<'t>(
    alloc: Global,
    known: &mut Known<'t>,
    tag: &Leaf,
    members: Items<Declared>,
) -> Result<(), TypeFault>
    requires within { IsInStruct known.old tag.now }
    requires steady { IsSteady (rules.with_layout (program known.old) (bytes (program known.old) tag.now) members) }
    ensures becomes { Becomes (Ok (rules.with_layout (program known.old) (bytes (program known.old) tag.now) members)) result (program known.new) }
    ensures at { OnOk result (IsAtFile known.new) }
{
    let name = known.bytes(tag);
    known.complete_struct(alloc, name, members)
}

/// A struct with these members, complete after them (C11 6.7.2.1, 8).
pub fn structure<'t>(
    alloc: Global,
    known: &mut Known<'t>,
    tag: &Leaf,
    trees: &[Member],
) -> Result<(), TypeFault>
    requires { IsAtFile known.old }
    ensures becomes { Becomes (rules.structure tag.now (members_in trees.now) (program known.old)) result (program known.new) }
    ensures at { OnOk result (IsAtFile known.new) }
{
    begin(known, tag)?;
    let members = members_within(alloc, known, tag, trees)?;
    limited(known, tag, members.as_slice())?;
    complete(alloc, known, tag, members)
}
