//! Which functions have a body somewhere in a text.

ghost use Rattle.std.specs.Prelude.{◌≡◌, [], ◌∷◌, Ok, OnOk};
ghost use Rattle.typing_rules.specs.Checked.{Gives};
ghost use Rattle.typing_rules.specs.TreesOfDeclarations as trees;
ghost use Rattle.typing_scopes.specs.Known.{state, program};
ghost use Rattle.c_types.specs.Starts as starts;

use c_grammar::program::{Body, Item};
use c_words::word::Leaf;
use typing_rules::fault::TypeFault;
use typing_scopes::known::Known;

/// The name of a function, where it has a body.
fn add_named<'t>(known: &mut Known<'t>, name: &Leaf, body: &Body) -> Result<(), TypeFault>
    ensures added { OnOk result (state known.new ≡ record (state known.old) { program = starts.with_bodies (starts.body_name known.old.text.now name.now (trees.body body.now)) (program known.old) }) }
    ensures memory { Gives (Ok tt) result }
{
    match body {
        Body::Block(_) => known.add_body(known.bytes(name)),
        Body::Absent(_) => Ok(()),
    }
}

/// The name of the function, where the item gives it a body.
fn add_body<'t>(known: &mut Known<'t>, tree: &Item) -> Result<(), TypeFault>
    ensures added { OnOk result (state known.new ≡ record (state known.old) { program = starts.with_bodies (starts.names_in known.old.text.now (tree.now ∷ [])) (program known.old) }) }
    ensures memory { Gives (Ok tt) result }
{
    match tree {
        Item::Function(_, _, _, name, _, _, _, body) => add_named(known, name, body),
        Item::Struct(_, _, _, _, _, _, _) => Ok(()),
        Item::Variables(_, _, _, _) => Ok(()),
        Item::Meta(_) => Ok(()),
        Item::Ghost(_) => Ok(()),
    }
}

/// The names of all functions with a body, in order.
pub fn add_bodies<'t>(known: &mut Known<'t>, trees: &[Item]) -> Result<(), TypeFault>
    ensures added { OnOk result (state known.new ≡ record (state known.old) { program = starts.with_bodies (starts.names_in known.old.text.now trees.now) (program known.old) }) }
    ensures memory { Gives (Ok tt) result }
{
    for tree in trees {
        add_body(known, tree)?;
    }
    Ok(())
}
