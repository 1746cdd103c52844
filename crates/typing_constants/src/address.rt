//! Address constants (C11 6.6, 9), and what a cell of a variable of file scope starts with (C11 6.7.9, 4).

ghost use Rattle.std.specs.Prelude.{◌≡◌, ◌<◌, ◌^◌, ◌*◌, ℕ, List, true, if◌then◌else◌, option_map, slice_get, Some, IfOk};
ghost use Rattle.step_meaning.specs.Types.{same_type as are_same};
ghost use Rattle.step_meaning.specs.declared.program.Layout.{Layout};
ghost use Rattle.step_meaning.specs.declared.program.Declared.{Declared};
ghost use Rattle.step_meaning.specs.declared.value.Name.{Name};
ghost use Rattle.step_meaning.specs.InitialValues.{element_count as count_of_elements};
ghost use Rattle.step_meaning.specs.TypeRules.{member_type as type_of_member, element_type as type_of_element};
ghost use Rattle.step_meaning.specs.declared.value.Value.TheVariants as value;
ghost use Rattle.typing_rules.specs.ConstantExpressions as rules;
ghost use Rattle.typing_constants.specs.Parts as parts;

use crate::constant::constant;
use core_types::{element_type, member_type, same_type};
use std::alloc::{AllocError, Global};
use step_meaning::{CType, Declared, Expr, Layout, Name, NameKind, Place_, Value, Variable};

/// A part of a variable of file scope: the variable's number, the part's offset in cells, and its type.
#[derive(Clone, Copy)]
pub struct Part<'t> {
    index: u32,
    offset: u64,
    ctype: &'t CType,
}

/// A variable of file scope as a whole.
#[tactic(auto, unfolding(crate::specs::Parts::variable_part))]
fn variable_part<'t>(globals: &'t [Declared], variable: Variable) -> Option<Part<'t>>
    ensures { option_map parts.part result ≡ parts.variable_part globals.now variable }
{
    match variable.kind {
        NameKind::Global => declared_part(globals, variable.index),
        NameKind::Local
        | NameKind::Heap
        | NameKind::Register
        | NameKind::GhostGlobal
        | NameKind::GhostLocal => None,
    }
}

/// The variable of file scope with this number as a whole.
fn declared_part<'t>(globals: &'t [Declared], number: u32) -> Option<Part<'t>>
    ensures { option_map parts.part result ≡ option_map (parts.whole number) (slice_get globals.now number) }
{
    let index = number as usize;
    if index < globals.len() {
        Some(Part {
            index: number,
            offset: 0,
            ctype: &globals[index].ctype,
        })
    } else {
        None
    }
}

/// A part of this type, so many cells further on.
fn further<'t>(part: Part<'_>, cells: u64, ctype: &'t CType) -> Part<'t>
    ensures { parts.part result ≡ parts.further (parts.part part.entry) cells ctype.now }
{
    Part {
        index: part.index,
        offset: part.offset.saturating_add(cells),
        ctype,
    }
}

/// The type of the member of a struct at this offset.
fn type_at<'t>(layouts: &'t [Layout], ctype: &CType, offset: u32) -> Option<&'t CType>
    ensures { option_map (λ t. t.now) result ≡ type_of_member layouts.now ctype.now offset }
{
    match ctype {
        CType::Struct(number) => member_type(layouts, *number, offset),
        CType::Void | CType::Int(_) | CType::Pointer(_) | CType::Array(_, _) => None,
    }
}

/// The member at this offset (C11 6.5.2.3).
#[tactic(auto, unfolding(crate::specs::Parts::counted_member))]
fn member_part<'t>(layouts: &'t [Layout], part: Option<Part<'t>>, offset: u32) -> Option<Part<'t>>
    ensures { option_map parts.part result ≡ parts.counted_member layouts.now offset (option_map parts.part part.entry) }
{
    match part {
        None => None,
        Some(part) => match type_at(layouts, part.ctype, offset) {
            None => None,
            Some(ctype) => Some(further(part, u64::from(offset), ctype)),
        },
    }
}

/// The number of an array's elements, and 0 of another type.
fn element_count(ctype: &CType) -> u32
    ensures { result ≡ count_of_elements ctype.now }
{
    match ctype {
        CType::Array(_, count) => *count,
        CType::Void | CType::Int(_) | CType::Pointer(_) | CType::Struct(_) => 0,
    }
}

/// The element with this index, which has to be in range (C11 6.5.2.1).
fn element_at<'t>(layouts: &'t [Layout], part: Part<'t>, index: u128, size: u32) -> Option<Part<'t>>
    ensures { option_map parts.part result ≡ parts.element_at layouts.now index size (parts.part part.entry) }
{
    if index < u128::from(element_count(part.ctype)) {
        match element_type(layouts, part.ctype, size) {
            None => None,
            Some(ctype) => Some(further(part, index as u64 * u64::from(size), ctype)),
        }
    } else {
        None
    }
}

/// The element at an index, of what may be a part of a variable.
#[tactic(auto, unfolding(crate::specs::Parts::counted_element))]
fn element_part<'t>(
    layouts: &'t [Layout],
    part: Option<Part<'t>>,
    index: Option<u128>,
    size: u32,
) -> Option<Part<'t>>
    ensures { option_map parts.part result ≡ parts.counted_element layouts.now size index (option_map parts.part part.entry) }
{
    match (part, index) {
        (Some(part), Some(index)) => element_at(layouts, part, index, size),
        _ => None,
    }
}

/// The number of a literal that isn't negative.
fn literal_index(x: &Expr) -> Option<u128>
    ensures { result ≡ parts.literal_index x.now }
{
    match x {
        Expr::Literal(_, value) => {
            if *value >= 0 {
                Some(*value as u128)
            } else {
                None
            }
        }
        _ => None,
    }
}

/// The part of a variable of file scope that the lvalue designates: members, and elements at a literal index in range.
#[tactic(auto, using(crate::proofs::PlaceForms::places))]
fn part_of<'t>(layouts: &'t [Layout], globals: &'t [Declared], place: &Place_) -> Option<Part<'t>>
    ensures { option_map parts.part result ≡ parts.counted_part layouts.now globals.now place.now }
{
    match place {
        Place_::Own(variable) => variable_part(globals, *variable),
        Place_::Deref(_) => None,
        Place_::Member(p, offset) => {
            member_part(layouts, part_of(layouts, globals, p.get()), *offset)
        }
        Place_::Index(p, index, size) => element_part(
            layouts,
            part_of(layouts, globals, p.get()),
            literal_index(index.get()),
            *size,
        ),
    }
}

fn is_variable(place: &Place_) -> bool
    ensures { (ls : List Layout) (gs : List Declared) → result ≡ rules.is_variable ls gs place.now }
{
    matches!(place, Place_::Own(_))
}

/// Whether the address of the part is one of the type: by `&`, or of an array by its name alone.
fn is_addressed(place: &Place_, to: &CType, part: Part<'_>) -> bool
    ensures { (ls : List Layout) (gs : List Declared) → result ≡ (if are_same to.now part.entry.ctype.now then true else rules.is_variable ls gs place.now) }
{
    same_type(to, part.ctype) || is_variable(place)
}

/// The address of the part, whose offset is below 2^32.
fn pointer_at(part: Part<'_>) -> Value
    requires { part.offset < 2 ^ 32 }
    ensures { (ls : List Layout) (gs : List Declared) → result ≡ rules.pointer_at ls gs (parts.part part.entry) }
{
    Value::Pointer(
        Name {
            kind: NameKind::Global,
            activation: 0,
            index: part.index,
        },
        part.offset as u32,
    )
}

/// The address of a part by `&`, or an array by its name alone. Its offset is below 2^32.
fn address_of(layouts: &[Layout], globals: &[Declared], place: &Place_, to: &CType) -> Option<Value>
    requires { (n : Name) (o : ℕ) → rules.address_of layouts.now globals.now place.now to.now ≡ Some (value.Pointer n o) → o < 2 ^ 32 }
    ensures { result ≡ rules.address_of layouts.now globals.now place.now to.now }
{
    match part_of(layouts, globals, place) {
        None => None,
        Some(part) => {
            if is_addressed(place, to, part) {
                Some(pointer_at(part))
            } else {
                None
            }
        }
    }
}

/// What an expression gives a cell that is no integer: null, or an address whose offset is below 2^32.
#[tactic(auto, unfolding(crate::specs::Parts::initial_pointer))]
fn initial_pointer(layouts: &[Layout], globals: &[Declared], x: &Expr) -> Option<Value>
    requires { (n : Name) (o : ℕ) → parts.initial_pointer layouts.now globals.now x.now ≡ Some (value.Pointer n o) → o < 2 ^ 32 }
    ensures { result ≡ parts.initial_pointer layouts.now globals.now x.now }
{
    match x {
        Expr::Null => Some(Value::Null),
        Expr::Address(place, to) => address_of(layouts, globals, place, to),
        _ => None,
    }
}

/// What an expression of this type gives a cell of a variable of file scope, where the offset of an address is below 2^32
/// (C11 6.6, 6 and 9; 6.7.9, 4). An error is want of memory.
#[tactic(auto, using(crate::proofs::PlaceForms::initials))]
pub fn initial_value(
    alloc: Global,
    layouts: &[Layout],
    globals: &[Declared],
    t: &CType,
    x: &Expr,
) -> Result<Option<Value>, AllocError>
    requires { (n : Name) (o : ℕ) → rules.initial_value layouts.now globals.now t.now x.now ≡ Some (value.Pointer n o) → o < 2 ^ 32 }
    ensures { IfOk result (λ value. value ≡ rules.initial_value layouts.now globals.now t.now x.now) }
{
    match t {
        CType::Int(_) => match constant(alloc, x)? {
            None => Ok(None),
            Some(value) => Ok(Some(Value::Int(value))),
        },
        CType::Void | CType::Pointer(_) | CType::Array(_, _) | CType::Struct(_) => {
            Ok(initial_pointer(layouts, globals, x))
        }
    }
}
