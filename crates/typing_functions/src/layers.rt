//! What the declarators of parameters say.

ghost use Rattle.std.specs.Prelude.{◌≡◌, ◌++◌, ◌&&◌, true, map, replicate};
ghost use Rattle.typing_laws.specs.SmallTypes.{IsSmall};
ghost use Rattle.typing_rules.specs.Declarations as rules;
ghost use Rattle.typing_rules.specs.Functions.{is_void_pointer as void_pointer_type};
ghost use Rattle.typing_rules.specs.Syntax.{PointerTo};
ghost use Rattle.typing_rules.specs.TreesOfDeclarations as trees;
ghost use Rattle.typing_declarators.specs.Adding.{Adds};
ghost use Rattle.typing_declarators.specs.Layers.{layer, counted_layers};
ghost use Rattle.typing_declarators.specs.Types.{is_specified};
ghost use Rattle.typing_scopes.specs.Known.{known as seen};
ghost use Rattle.step_meaning.specs.ExpressionTypes.{is_void as void_type};
ghost use Rattle.typing_functions.specs.Parameters.{decayed, is_lone_pointer};

use c_grammar::declaration::{Parameter, Sizes};
use std::alloc::Global;
use step_meaning::CType;
use typing_declarators::layer::{Layer, push_stars};
use typing_declarators::modifiers::{declarator_layers, sizes_layers};
use typing_rules::fault::TypeFault;
use typing_scopes::known::Known;

/// The layers of the sizes of a parameter without name.
fn sizes_there(
    alloc: Global,
    known: &Known<'_>,
    layers: &mut Vec<Layer>,
    sizes: &Option<Sizes>,
) -> Result<(), TypeFault>
    requires { IsSmall (seen known.now) }
    ensures { Adds (counted_layers (rules.layers (seen known.now) 1 (trees.sizes_there sizes.now))) (map layer layers.old.items) (map layer layers.new.items) result }
{
    match sizes {
        None => Ok(()),
        Some(sizes) => sizes_layers(alloc, known, 1, layers, sizes),
    }
}

/// The layers of a parameter without name.
fn nameless_layers(
    alloc: Global,
    known: &Known<'_>,
    layers: &mut Vec<Layer>,
    sizes: &Option<Sizes>,
    stars: usize,
) -> Result<(), TypeFault>
    requires { IsSmall (seen known.now) }
    ensures { Adds (counted_layers (rules.layers (seen known.now) 1 (trees.sizes_there sizes.now ++ replicate stars PointerTo))) (map layer layers.old.items) (map layer layers.new.items) result }
{
    sizes_there(alloc, known, layers, sizes)?;
    push_stars(layers, stars)
}

/// The layers of a parameter, from its name outwards. `[ ]` has one element.
#[tactic(auto, unfolding(typing_rules::specs::TreesOfDeclarations::parameter))]
pub fn parameter_layers(
    alloc: Global,
    known: &Known<'_>,
    layers: &mut Vec<Layer>,
    tree: &Parameter,
) -> Result<(), TypeFault>
    requires { IsSmall (seen known.now) }
    ensures { Adds (counted_layers (rules.layers (seen known.now) 1 (trees.parameter tree.now).modifiers)) (map layer layers.old.items) (map layer layers.new.items) result }
{
    match tree {
        Parameter::Named(_, _, declarator) => {
            declarator_layers(alloc, known, 1, layers, declarator)
        }
        Parameter::Nameless(_, _, stars, sizes) => {
            nameless_layers(alloc, known, layers, sizes, stars.len())
        }
    }
}

/// An array of a parameter is a pointer to its element (C11 6.7.6.3, 7).
pub fn decay(layers: &mut Vec<Layer>)
    ensures { map layer layers.new.items ≡ decayed (map layer layers.old.items) }
{
    if !layers.is_empty() {
        layers[0] = Layer::Pointing;
    }
}

fn is_pointer(layers: &[Layer]) -> bool
    ensures { result ≡ is_lone_pointer (map layer layers.now) }
{
    matches!(layers, [Layer::Pointing])
}

fn is_void(t: &CType) -> bool
    ensures { result ≡ void_type t.now }
{
    matches!(t, CType::Void)
}

/// Whether the type that these layers give is a pointer to `void`.
fn is_void_pointer(layers: &[Layer], base: &CType) -> bool
    requires { is_specified base.now ≡ true }
    ensures { result ≡ void_pointer_type (rules.layered (map layer layers.now) base.now) }
{
    is_pointer(layers) && is_void(base)
}

/// Whether the type is a pointer to `void` where one may be declared.
pub fn is_allocation(allocation: bool, layers: &[Layer], base: &CType) -> bool
    requires { is_specified base.now ≡ true }
    ensures { result ≡ (allocation && void_pointer_type (rules.layered (map layer layers.now) base.now)) }
{
    allocation && is_void_pointer(layers, base)
}
