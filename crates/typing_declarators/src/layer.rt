//! What a declarator says of its name, from the name outwards, with the sizes of arrays.

ghost use Rattle.std.specs.Prelude.{◌≡◌, [], ◌∷◌, map, min, replicate, Ok};
ghost use Rattle.typing_rules.specs.Declarations as rules;
ghost use Rattle.typing_declarators.specs.Adding.{Adds};
ghost use Rattle.typing_declarators.specs.Layers as layers_seen;

use typing_rules::fault::TypeFault;

/// A pointer, or an array of so many elements, counted up to 2^32 - 1.
#[derive(Clone, Copy)]
pub enum Layer {
    /// `*`
    Pointing,
    /// `[ ]`
    Sized(u32),
}

/// One more layer, further from the name.
pub fn push_layer(layers: &mut Vec<Layer>, layer: Layer) -> Result<(), TypeFault>
    ensures { Adds (Ok (layers_seen.layer layer ∷ [])) (map layers_seen.layer layers.old.items) (map layers_seen.layer layers.new.items) result }
{
    match layers.push(layer) {
        Ok(()) => Ok(()),
        Err(_) => Err(TypeFault::Memory),
    }
}

/// So many stars.
pub fn push_stars(layers: &mut Vec<Layer>, stars: usize) -> Result<(), TypeFault>
    ensures { Adds (Ok (replicate stars rules.Pointing)) (map layers_seen.layer layers.old.items) (map layers_seen.layer layers.new.items) result }
{
    for _ in 0..stars {
        push_layer(layers, Layer::Pointing)?;
    }
    Ok(())
}
