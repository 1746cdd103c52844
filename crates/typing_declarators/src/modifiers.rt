//! Reading of declarators, with the sizes in text order (C11 6.7.6).

ghost use Rattle.std.specs.Prelude.{◌≡◌, map, min};
ghost use Rattle.typing_laws.specs.SmallTypes.{IsSmall};
ghost use Rattle.typing_rules.specs.Checked.{Gives};
ghost use Rattle.typing_rules.specs.Declarations as rules;
ghost use Rattle.typing_rules.specs.TreesOfDeclarations as trees;
ghost use Rattle.typing_rules.specs.TreesOfExpressions.{choice as tree_of_choice};
ghost use Rattle.typing_scopes.specs.Known.{known as seen};
ghost use Rattle.typing_declarators.specs.Adding.{Adds};
ghost use Rattle.typing_declarators.specs.Layers.{layer, most_elements, counted_layers, counted_size};

use crate::layer::{Layer, push_layer, push_stars};
use c_grammar::declaration::{Declarator, Direct, Sizes};
use c_grammar::expression::Choice;
use std::alloc::Global;
use typing_constants::constant::size_of_array;
use typing_expressions::expression::choice;
use typing_operands::value::value;
use typing_rules::fault::TypeFault;
use typing_scopes::known::Known;

/// A number of elements, counted up to 2^32 - 1.
fn counted(size: u128) -> u32
    ensures { result ≡ min size most_elements }
{
    size.min(u128::from(u32::MAX)) as u32
}

/// The size of an array, counted up to 2^32 - 1. A fault of its own stands at its first token (C11 6.7.6.2, 1).
#[tactic(auto, unfolding(typing_rules::specs::Declarations::size, typing_rules::specs::Checked::kept, crate::specs::Layers::counted_size))]
fn array_size(alloc: Global, known: &Known<'_>, size: &Choice) -> Result<u32, TypeFault>
    requires { IsSmall (seen known.now) }
    ensures { Gives (counted_size (rules.size (seen known.now) (tree_of_choice size.now))) result }
{
    let a = choice(alloc, known, size)?;
    let first = a.first;
    let v = value(alloc, a)?;
    match size_of_array(alloc, v.expr.get())? {
        Some(size) => Ok(counted(size)),
        None => Err(TypeFault::BadInitialiser(first)),
    }
}

/// The layers of a declarator without its stars. `[ ]` has so many elements.
#[cycle(layers)]
fn direct_layers(
    alloc: Global,
    known: &Known<'_>,
    count: usize,
    layers: &mut Vec<Layer>,
    direct: &Direct,
) -> Result<(), TypeFault>
    requires { IsSmall (seen known.now) }
    ensures { Adds (counted_layers (rules.layers (seen known.now) count (trees.direct direct.now).modifiers)) (map layer layers.old.items) (map layer layers.new.items) result }
{
    match direct {
        Direct::Name(_) => Ok(()),
        Direct::Unsized(_, _, _) => push_layer(layers, Layer::Sized(counted(count as u128))),
        Direct::Paren(_, inside, _) => {
            declarator_layers(alloc, known, count, layers, inside.get())
        }
        Direct::Array(before, _, size, _) => {
            direct_layers(alloc, known, count, layers, before.get())?;
            let size = array_size(alloc, known, size.get())?;
            push_layer(layers, Layer::Sized(size))
        }
    }
}

/// The layers of a declarator, from the name outwards. `[ ]` has so many elements.
#[cycle(layers)]
pub fn declarator_layers(
    alloc: Global,
    known: &Known<'_>,
    count: usize,
    layers: &mut Vec<Layer>,
    declarator: &Declarator,
) -> Result<(), TypeFault>
    requires { IsSmall (seen known.now) }
    ensures { Adds (counted_layers (rules.layers (seen known.now) count (trees.declarator declarator.now).modifiers)) (map layer layers.old.items) (map layer layers.new.items) result }
{
    direct_layers(alloc, known, count, layers, &declarator.direct)?;
    push_stars(layers, declarator.stars.len())
}

/// The layers of the sizes of a parameter without name. `[ ]` has so many elements.
pub fn sizes_layers(
    alloc: Global,
    known: &Known<'_>,
    count: usize,
    layers: &mut Vec<Layer>,
    sizes: &Sizes,
) -> Result<(), TypeFault>
    requires { IsSmall (seen known.now) }
    ensures { Adds (counted_layers (rules.layers (seen known.now) count (trees.sizes sizes.now))) (map layer layers.old.items) (map layer layers.new.items) result }
{
    match sizes {
        Sizes::Unsized(_, _) => push_layer(layers, Layer::Sized(counted(count as u128))),
        Sizes::First(_, size, _) => {
            let size = array_size(alloc, known, size.get())?;
            push_layer(layers, Layer::Sized(size))
        }
        Sizes::More(before, _, size, _) => {
            sizes_layers(alloc, known, count, layers, before.get())?;
            let size = array_size(alloc, known, size.get())?;
            push_layer(layers, Layer::Sized(size))
        }
    }
}
