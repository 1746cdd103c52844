//! Members of a struct (C11 6.7.2.1).

ghost use Rattle.std.specs.Prelude.{◌≡◌, [], true, false, Ok};
ghost use Rattle.typing_laws.specs.SmallTypes.{IsSmall};
ghost use Rattle.typing_rules.specs.Checked.{Gives};
ghost use Rattle.typing_rules.specs.Environment.{bytes_in};
ghost use Rattle.typing_rules.specs.Structs as rules;
ghost use Rattle.typing_rules.specs.TreesOfDeclarations as trees;
ghost use Rattle.typing_declarators.specs.Types.{is_specified, StructsHaveCells};
ghost use Rattle.typing_scopes.specs.Known.{known as seen};
ghost use Rattle.typing_files.specs.Points.{Becomes};
ghost use Rattle.typing_structs.specs.Members as members_seen;
ghost use Rattle.typing_structs.specs.Members.{declarators_in, members_in};

use c_grammar::declaration::Declarator;
use c_grammar::program::Member;
use c_words::chain::Chain;
use c_words::word::Leaf;
use sqlite_items::Items;
use std::alloc::Global;
use step_meaning::{CType, Declared};
use typing_declarators::declared_name::declared_name;
use typing_declarators::name::{DeclaredName, declared_type};
use typing_rules::fault::TypeFault;
use typing_rules::operand::TypePart;
use typing_scopes::declaring::declared;
use typing_scopes::known::Known;
use typing_scopes::table::Table;

/// What the rules see of the name of a member, after these members.
#[tactic(auto, using(crate::proofs::MemberLaws::member_among))]
fn member_name(known: &Known<'_>, members: &Table<'_, Declared>, name: &Leaf) -> DeclaredName
    ensures { result ≡ members_seen.member_name (seen known.now) members.now name.now }
{
    let bytes = known.bytes(name);
    DeclaredName {
        place: name.token.place,
        again: members.has(bytes),
        wrong: false,
        is_value: false,
        reserved: known.is_reserved(bytes),
    }
}

/// The type of a member, whose name keeps the rules.
fn member_type(
    alloc: Global,
    known: &Known<'_>,
    base: &CType,
    members: &Table<'_, Declared>,
    tree: &Declarator,
) -> Result<TypePart, TypeFault>
    requires small { IsSmall (seen known.now) }
    requires structs { StructsHaveCells (seen known.now).layouts }
    requires base { is_specified base.now ≡ true }
    ensures { Gives (members_seen.member_type (seen known.now) base.now members.now (trees.declarator tree.now)) result }
{
    let name = member_name(known, members, &declared_name(tree));
    declared_type(alloc, known, name, 1, tree, base)
}

/// One more member, of this type.
fn push_member<'t>(
    alloc: Global,
    known: &Known<'t>,
    members: &mut Table<'t, Declared>,
    name: &Leaf,
    t: TypePart,
) -> Result<(), TypeFault>
    requires { rules.has_member (seen known.now) members.old (bytes_in (seen known.now) name.now) ≡ false }
    ensures { Becomes (Ok (members_seen.with_member (seen known.now) name.now t members.old)) result members.new }
{
    let bytes = known.bytes(name);
    let member = declared(alloc, bytes, t)?;
    members.push(bytes, member)
}

/// A member.
fn member<'t>(
    alloc: Global,
    known: &Known<'t>,
    base: &CType,
    members: &mut Table<'t, Declared>,
    tree: &Declarator,
) -> Result<(), TypeFault>
    requires small { IsSmall (seen known.now) }
    requires structs { StructsHaveCells (seen known.now).layouts }
    requires base { is_specified base.now ≡ true }
    ensures { Becomes (rules.member (seen known.now) base.now members.old (trees.declarator tree.now)) result members.new }
{
    let t = member_type(alloc, known, base, members, tree)?;
    push_member(alloc, known, members, &declared_name(tree), t)
}

/// The members after one base.
fn member_list<'t>(
    alloc: Global,
    known: &Known<'t>,
    base: &CType,
    members: &mut Table<'t, Declared>,
    trees: &Chain<Declarator>,
) -> Result<(), TypeFault>
    requires small { IsSmall (seen known.now) }
    requires structs { StructsHaveCells (seen known.now).layouts }
    requires base { is_specified base.now ≡ true }
    ensures { Becomes (rules.member_list (seen known.now) base.now members.old (declarators_in trees.now)) result members.new }
{
    member(alloc, known, base, members, &trees.first)?;
    for link in trees.rest.as_slice() {
        member(alloc, known, base, members, &link.operand)?;
    }
    Ok(())
}

/// The members of one declaration of a struct.
fn declaration<'t>(
    alloc: Global,
    known: &Known<'t>,
    members: &mut Table<'t, Declared>,
    tree: &Member,
) -> Result<(), TypeFault>
    requires small { IsSmall (seen known.now) }
    requires structs { StructsHaveCells (seen known.now).layouts }
    ensures { Becomes (members_seen.declaration (seen known.now) members.old (trees.members tree.now)) result members.new }
{
    let base = known.specified(alloc, &tree.base.specifier)?;
    member_list(alloc, known, base.get(), members, &tree.declarators)
}

/// The members of a struct, in order.
pub fn all_members<'t>(
    alloc: Global,
    known: &Known<'t>,
    trees: &[Member],
) -> Result<Items<Declared>, TypeFault>
    requires small { IsSmall (seen known.now) }
    requires structs { StructsHaveCells (seen known.now).layouts }
    ensures { Gives (rules.all_members (seen known.now) [] (members_in trees.now)) result }
{
    let mut members = Table::new(alloc);
    for tree in trees {
        declaration(alloc, known, &mut members, tree)?;
    }
    Ok(members.into_items())
}
