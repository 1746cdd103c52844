//! How far a pointer moves by an integer (C11 6.5.6, 8).

ghost use Rattle.std.specs.Prelude.{◌≡◌, ◌<◌, ◌^◌};
ghost use Rattle.step_meaning.specs.TypeRules.{cells as cells_of};
ghost use Rattle.typing_rules.specs.Operators as rules;

use core_types::cells;
use step_meaning::{CType, Layout};

/// The cells of an object of the type, which are counted in 32 bits.
pub fn object_size(layouts: &[Layout], t: &CType) -> u32
    requires { cells_of layouts.now t.now < 2 ^ 32 }
    ensures { result ≡ cells_of layouts.now t.now }
{
    match cells(layouts, t) {
        Some(count) => count as u32,
        None => 0,
    }
}

/// The cells of what a pointer of the type points to, which are counted in 32 bits; 0 where the type is no pointer.
#[tactic(auto, using(crate::proofs::Pointers::units))]
pub fn unit(layouts: &[Layout], t: &CType) -> u32
    requires { rules.unit layouts.now t.now < 2 ^ 32 }
    ensures { result ≡ rules.unit layouts.now t.now }
{
    match t {
        CType::Pointer(t) => object_size(layouts, t.get()),
        CType::Void | CType::Int(_) | CType::Array(_, _) | CType::Struct(_) => 0,
    }
}
