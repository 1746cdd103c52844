//! What is asked of a whole text.

ghost use Rattle.std.specs.Prelude.{◌≡◌, ◌-◌, ◌==◌, sum_by, codes, Ok};
ghost use Rattle.typing_rules.specs.Checked.{Gives, kept, unless};
ghost use Rattle.typing_rules.specs.Programs as rules;
ghost use Rattle.typing_rules.specs.TreesOfDeclarations as trees;
ghost use Rattle.typing_scopes.specs.Known.{program};
ghost use Rattle.c_types.specs.Ends as ends;

use c_grammar::program::ProgramTree;
use c_lexer::Place;
use c_words::word::Mode;
use sqlite_items::Items;
use std::alloc::Global;
use step_meaning::Core;
use typing_files::sizes::room_beside;
use typing_nodes::inits::all_inits;
use typing_nodes::items::program;
use typing_rules::fault::TypeFault;
use typing_scopes::known::Known;

/// No place of a text.
const NOWHERE: Place = Place { line: 0, column: 0 };

/// The number of `main`, which has a body (C11 5.1.2.2.1).
#[tactic(auto, unfolding(typing_rules::specs::Checked::kept))]
fn main_of(known: &Known<'_>) -> Result<u32, TypeFault>
    ensures { Gives (kept (TypeFault.NoMain rules.nowhere) (rules.main_of (program known.now))) result }
{
    if !known.bodies.has("main".as_bytes()) {
        return Err(TypeFault::NoMain(NOWHERE));
    }
    match known.function_number("main".as_bytes()) {
        Some(number) => Ok(number),
        None => Err(TypeFault::NoMain(NOWHERE)),
    }
}

/// Whether the variables of file scope have too many cells.
fn has_many_cells(known: &Known<'_>) -> bool
    ensures { result ≡ ends.has_many_cells (program known.now) }
{
    room_beside(
        known.layouts.as_slice(),
        known.globals.as_slice(),
        16_777_217,
    ) == 0
}

/// Whether there are too many weighted nodes.
fn is_heavy(known: &Known<'_>, tree: &ProgramTree) -> bool
    ensures { result ≡ ends.is_heavy (trees.program tree.now) (program known.now) }
{
    all_inits(known.functions.as_slice(), program(tree, 50_001)) == 0
}

/// Whether a source passes a limit of the whole text.
fn is_too_large(known: &Known<'_>, tree: &ProgramTree) -> bool
    ensures { result ≡ rules.is_too_large (trees.program tree.now) (program known.now) }
{
    match known.mode {
        Mode::Source => has_many_cells(known) || is_heavy(known, tree),
        Mode::Woven => false,
    }
}

/// The number of `main` in a text within the limits.
#[tactic(auto, unfolding(typing_rules::specs::Checked::unless, crate::specs::Ends::start_of))]
fn start_of(known: &Known<'_>, tree: &ProgramTree) -> Result<u32, TypeFault>
    ensures { Gives (ends.start_of (trees.program tree.now) (program known.now)) result }
{
    let start = main_of(known)?;
    if is_too_large(known, tree) {
        return Err(TypeFault::TooLarge(NOWHERE));
    }
    Ok(start)
}

fn core_of(alloc: Global, known: Known<'_>, start: u32) -> Core
    ensures { result ≡ rules.core_of (program known.entry) start }
{
    let Known {
        layouts,
        globals,
        initial,
        functions,
        ..
    } = known;
    Core {
        layouts,
        globals: globals.into_items(),
        initial,
        ghosts: Items::new(alloc),
        functions: functions.into_items(),
        start,
    }
}

/// The core of a whole text whose items are known.
pub fn whole(alloc: Global, known: Known<'_>, tree: &ProgramTree) -> Result<Core, TypeFault>
    ensures { Gives (rules.whole (trees.program tree.now) (program known.entry)) result }
{
    let start = start_of(&known, tree)?;
    Ok(core_of(alloc, known, start))
}
