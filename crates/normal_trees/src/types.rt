ghost use Rattle.std.specs.Prelude.{◌≡◌, IfOk};
ghost use Rattle.normal_laws.specs.NormalForm as form;
ghost use Rattle.normal_trees.specs.Operands.{object_of, register_type, operand_of, operand_if_any};

use crate::nodes::pointer_to;
use crate::operands::{Operand, RegisterType};
use sqlite_items::Boxed;
use std::alloc::{AllocError, Global};
use step_meaning::{CType, Side};

/// The type again.
pub fn copied(alloc: Global, ctype: &CType) -> Result<CType, AllocError>
    ensures { IfOk result (λ t. t ≡ ctype.now) }
{
    match ctype {
        CType::Void => Ok(CType::Void),
        CType::Int(kind) => Ok(CType::Int(*kind)),
        CType::Pointer(inner) => {
            let inner = Boxed::new(alloc, copied(alloc, inner.get())?)?;
            Ok(CType::Pointer(inner))
        }
        CType::Array(inner, count) => {
            let inner = Boxed::new(alloc, copied(alloc, inner.get())?)?;
            Ok(CType::Array(inner, *count))
        }
        CType::Struct(number) => Ok(CType::Struct(*number)),
    }
}

/// The type of an object; `void` where there is none.
pub fn object_type(alloc: Global, object: Option<&CType>) -> Result<CType, AllocError>
    ensures { IfOk result (λ t. t ≡ object_of object.entry) }
{
    match object {
        None => Ok(CType::Void),
        Some(ctype) => copied(alloc, ctype),
    }
}

/// The type of a register as a type of the program.
pub fn written(alloc: Global, ctype: RegisterType<'_>) -> Result<CType, AllocError>
    ensures { IfOk result (λ t. t ≡ register_type ctype.entry) }
{
    match ctype {
        RegisterType::Void => Ok(CType::Void),
        RegisterType::Int(kind) => Ok(CType::Int(kind)),
        RegisterType::Of(inner) => copied(alloc, inner),
        RegisterType::To(inner) => {
            let inner = Boxed::new(alloc, object_type(alloc, inner)?)?;
            Ok(pointer_to(inner))
        }
    }
}

// ---- the types of operands

/// The type of an operand.
pub fn operand_type(a: Operand<'_>) -> RegisterType<'_>
    ensures { register_type result ≡ form.operand_type (operand_of a.entry) }
{
    match a {
        Operand::Number(kind, _) => RegisterType::Int(kind),
        Operand::Null => RegisterType::To(None),
        Operand::Held(_, ctype) => ctype,
        Operand::Absent => RegisterType::Void,
    }
}

/// What a type points to.
#[tactic(auto, using(crate::proofs::TypeParts::pointed))]
fn pointed_by(ctype: &CType) -> Option<&CType>
    ensures { object_of result ≡ form.pointed_type ctype.now }
{
    match ctype {
        CType::Pointer(inner) => Some(inner.get()),
        CType::Void | CType::Int(_) | CType::Array(_, _) | CType::Struct(_) => None,
    }
}

/// What an operand points to.
pub fn pointed(a: Operand<'_>) -> Option<&CType>
    ensures { object_of result ≡ form.pointed_type (form.operand_type (operand_of a.entry)) }
{
    match operand_type(a) {
        RegisterType::To(object) => object,
        RegisterType::Of(ctype) => pointed_by(ctype),
        RegisterType::Void | RegisterType::Int(_) => None,
    }
}

/// The type of the elements of an array type.
#[tactic(auto, using(crate::proofs::TypeParts::elements))]
fn element_by(ctype: &CType) -> Option<&CType>
    ensures { object_of result ≡ form.element_of ctype.now }
{
    match ctype {
        CType::Array(inner, _) => Some(inner.get()),
        CType::Void | CType::Int(_) | CType::Pointer(_) | CType::Struct(_) => None,
    }
}

/// The type of the elements of an object.
pub fn element_of(object: Option<&CType>) -> Option<&CType>
    ensures { object_of result ≡ form.element_of (object_of object.entry) }
{
    match object {
        None => None,
        Some(ctype) => element_by(ctype),
    }
}

/// The type of a sum or difference of a pointer and an integer, as the operands stand.
pub fn moved_type<'a>(side: Side, a: Operand<'a>, b: Operand<'a>) -> RegisterType<'a>
    ensures { register_type result ≡ form.operand_type (form.moved_operand side (operand_of a.entry) (operand_of b.entry)) }
{
    match side {
        Side::PointerFirst | Side::Minus => operand_type(a),
        Side::PointerLast => operand_type(b),
    }
}

/// The type of a choice: null beside a pointer has the pointer's type.
pub fn chosen_type<'a>(a: Operand<'a>, b: Operand<'a>) -> RegisterType<'a>
    ensures { register_type result ≡ form.chosen_type (operand_of a.entry) (operand_of b.entry) }
{
    match a {
        Operand::Null => operand_type(b),
        Operand::Number(_, _) | Operand::Held(_, _) | Operand::Absent => operand_type(a),
    }
}

/// What both branches of a choice leave where they leave no register: null, or nothing.
pub fn common_operand<'a>(a: Operand<'a>, b: Operand<'a>) -> Option<Operand<'a>>
    ensures { operand_if_any result ≡ form.common_operand (operand_of a.entry) (operand_of b.entry) }
{
    match a {
        Operand::Null => match b {
            Operand::Null => Some(Operand::Null),
            Operand::Number(_, _) | Operand::Held(_, _) | Operand::Absent => None,
        },
        Operand::Absent => match b {
            Operand::Absent => Some(Operand::Absent),
            Operand::Number(_, _) | Operand::Held(_, _) | Operand::Null => None,
        },
        Operand::Number(_, _) | Operand::Held(_, _) => None,
    }
}
