//! Suffixes of an operand, where what stands in them is made already (C11 6.5.2).

ghost use Rattle.std.specs.Prelude.{◌≡◌, IfOk};
ghost use Rattle.typing_steps.specs.Steps.{IsSmallBase};
ghost use Rattle.typing_laws.specs.SmallTypes.{IsSmall, IsSmallOperand, IsSmallValue};
ghost use Rattle.typing_objects.specs.Parts.{base as base_of_part, base_result};
ghost use Rattle.typing_rules.specs.Checked.{Gives};
ghost use Rattle.typing_rules.specs.Environment.{place_of, bytes_in};
ghost use Rattle.typing_rules.specs.Subobjects as subobjects;
ghost use Rattle.typing_scopes.specs.Known.{known as environment};

use c_lexer::Place;
use c_words::word::Leaf;
use std::alloc::Global;
use typing_objects::member::{arrow, dot};
use typing_objects::subobject::{Base, base_of, indexed};
use typing_rules::fault::TypeFault;
use typing_rules::operand::{Operand, Value};
use typing_scopes::known::Known;

/// The operand, as what stands before `[ ]`.
pub fn based(alloc: Global, known: &Known, a: Operand) -> Result<Base, TypeFault>
    requires { IsSmallOperand known.now.layouts a }
    ensures gives { Gives (subobjects.base_of known.now.layouts a) (base_result result) }
    ensures small { IfOk result (λ b. IsSmallBase known.now.layouts (base_of_part b)) }
{
    base_of(alloc, known.layouts.as_slice(), a)
}

/// An element, after what stands before the `[` and begins at `first` (C11 6.5.2.1).
pub fn element(
    alloc: Global,
    known: &Known,
    opening: &Leaf,
    first: Place,
    base: Base,
    index: Value,
) -> Result<Operand, TypeFault>
    requires known { IsSmall (environment known.now) }
    requires small { IsSmallBase known.now.layouts (base_of_part base) }
    ensures gives { Gives (subobjects.indexed known.now.layouts (place_of opening.now) first (base_of_part base) index) result }
    ensures small { IfOk result (λ a. IsSmallOperand known.now.layouts a) }
{
    let layouts = known.layouts.as_slice();
    indexed(alloc, layouts, opening.token.place, first, base, index)
}

/// A member of a struct, after the operator `.` (C11 6.5.2.3).
pub fn member(
    alloc: Global,
    known: &Known,
    operator: &Leaf,
    name: &Leaf,
    a: Operand,
) -> Result<Operand, TypeFault>
    requires { IsSmall (environment known.now) }
    ensures gives { Gives (subobjects.dot known.now.layouts (place_of operator.now) (place_of name.now) (bytes_in (environment known.now) name.now) a) result }
    ensures small { IfOk result (λ a. IsSmallOperand known.now.layouts a) }
{
    let layouts = known.layouts.as_slice();
    let bytes = known.bytes(name);
    dot(
        alloc,
        layouts,
        operator.token.place,
        name.token.place,
        bytes,
        a,
    )
}

/// A member of a struct behind a pointer, after the operator `->` (C11 6.5.2.3).
pub fn member_behind(
    alloc: Global,
    known: &Known,
    operator: &Leaf,
    name: &Leaf,
    v: Value,
) -> Result<Operand, TypeFault>
    requires { IsSmall (environment known.now) }
    ensures gives { Gives (subobjects.arrow known.now.layouts (place_of operator.now) (place_of name.now) (bytes_in (environment known.now) name.now) v) result }
    ensures small { IfOk result (λ a. IsSmallOperand known.now.layouts a) }
{
    let layouts = known.layouts.as_slice();
    let bytes = known.bytes(name);
    arrow(
        alloc,
        layouts,
        operator.token.place,
        name.token.place,
        bytes,
        v,
    )
}
