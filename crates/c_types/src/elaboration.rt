//! Texts.

ghost use Rattle.std.specs.Prelude.{◌≡◌, map, Ok, OnOk, IfOk};
ghost use Rattle.step_meaning.specs.WellFormed.{IsWellFormed};
ghost use Rattle.step_meaning.specs.Sources.{IsSource};
ghost use Rattle.typing_rules.specs.Checked.{Gives};
ghost use Rattle.typing_rules.specs.Programs as rules;
ghost use Rattle.typing_rules.specs.TreesOfDeclarations as trees;
ghost use Rattle.typing_laws.specs.ParsedSyntax.{ItemsParsed};
ghost use Rattle.typing_laws.specs.ShallowSyntax.{ItemsShallow};
ghost use Rattle.typing_scopes.specs.Known.{program};
ghost use Rattle.typing_files.specs.Points.{IsAtFile};
ghost use Rattle.c_types.specs.Starts as starts;

use crate::bodies::add_bodies;
use crate::items::items;
use crate::library::add_library;
use crate::whole::whole;
use c_grammar::program::ProgramTree;
use c_words::word::Mode;
use std::alloc::Global;
use step_meaning::Core;
use typing_rules::fault::TypeFault;
use typing_scopes::known::Known;

/// What each text knows before its first item.
fn start<'t>(
    alloc: Global,
    text: &'t [u8],
    tree: &ProgramTree,
    mode: Mode,
) -> Result<Known<'t>, TypeFault>
    ensures memory { starts.IsMemory result }
    ensures program { IfOk result (λ k. program k ≡ rules.start mode text.now (trees.program tree.now)) }
    ensures at { IfOk result (λ k. IsAtFile k) }
{
    let mut known = Known::new(alloc, mode, text);
    add_bodies(&mut known, tree.items.as_slice())?;
    add_library(alloc, &mut known)?;
    Ok(known)
}

/// The core that a tree over this text stands for, or the first broken rule. The core of a parsed text is well formed, and that of a
/// parsed source is one.
pub fn elaborate(
    alloc: Global,
    text: &[u8],
    tree: &ProgramTree,
    mode: Mode,
) -> Result<Core, TypeFault>
    ensures gives { Gives (rules.elaboration mode text.now tree.now) result }
    ensures formed { IfOk result (λ q. ItemsParsed text.now (trees.program tree.now) → IsWellFormed q) }
    ensures source { IfOk result (λ q. mode ≡ Mode.Source → ItemsParsed text.now (trees.program tree.now) → ItemsShallow (trees.program tree.now) → IsSource q) }
{
    let mut known = start(alloc, text, tree, mode)?;
    items(alloc, &mut known, tree.items.as_slice())?;
    whole(alloc, known, tree)
}
