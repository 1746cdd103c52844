//! Calls of `malloc` and `free`, and of `putchar` (C11 7.22.3.4, 7.22.3.3, 7.21.7.8).

ghost use Rattle.std.specs.Prelude.{◌≡◌, if◌then◌else◌, pos, Ok, Err};
ghost use Rattle.typing_objects.specs.Parts.{allocated_in, request, request_result};
ghost use Rattle.typing_rules.specs.Allocation as rules;
ghost use Rattle.typing_rules.specs.Checked.{Gives};
ghost use Rattle.typing_rules.specs.Operands as spec;
ghost use Rattle.step_meaning.specs.ExpressionTypes as types;

use crate::allocated_type::is_allocated;
use crate::subobject::is_integer_shape;
use c_lexer::Place;
use std::alloc::Global;
use step_meaning::{CType, Expr, ExprPart, IntKind, Layout};
use typing_operands::conversion::brought;
use typing_operands::part::{expression, made, made_from, pointer, type_part};
use typing_rules::fault::TypeFault;
use typing_rules::judgement::{is_null, is_pointer, shape_of};
use typing_rules::operand::{Operand, Origin, TypePart, Value};

/// What `malloc` is asked for: so many objects of the type.
#[derive(Drop)]
pub struct Request {
    /// The count, as an `unsigned long`.
    pub count: ExprPart,
    pub ctype: TypePart,
}

/// `sizeof` by itself asks for one object (C11 6.5.3.4).
pub fn one_object(alloc: Global, ctype: TypePart) -> Result<Request, TypeFault>
    ensures { Gives (Ok (rules.one_object ctype)) (request_result result) }
{
    let count = expression(alloc, Expr::Literal(IntKind::ULong, 1))?;
    Ok(Request { count, ctype })
}

/// An integer times a `sizeof`, with the `*` at this place: the integer is the count, as an `unsigned long` (C11 6.5.5, 2).
#[tactic(auto, unfolding(typing_rules::specs::Allocation::objects))]
pub fn objects(alloc: Global, at: Place, v: Value, ctype: TypePart) -> Result<Request, TypeFault>
    ensures { Gives (rules.objects at v ctype) (request_result result) }
{
    if is_integer_shape(shape_of(v.ctype.get())) {
        let count = brought(alloc, IntKind::ULong, v)?;
        Ok(Request { count, ctype })
    } else {
        Err(TypeFault::Mismatch(at))
    }
}

/// A pointer to the objects that are asked for.
#[tactic(auto, using(typing_operands::proofs::Pointers::pointer))]
fn block(alloc: Global, at: Place, q: Request) -> Result<Operand, TypeFault>
    ensures { Gives (Ok (spec.made_from Origin.Allocation at (Expr.Malloc q.count q.ctype) (types.pointer_to q.ctype))) result }
{
    let to = pointer(alloc, q.ctype.get())?;
    made_from(
        alloc,
        Origin::Allocation,
        at,
        Expr::Malloc(q.count.into_boxed(), q.ctype.into_boxed().into_inner()),
        to,
    )
}

/// A call of `malloc`, with the name at this place, where these structs are complete and so many are declared (C11 7.22.3.4).
pub fn allocated(
    alloc: Global,
    layouts: &[Layout],
    declared: usize,
    at: Place,
    q: Request,
) -> Result<Operand, TypeFault>
    ensures { Gives (allocated_in layouts.now declared at (request q)) result }
{
    if is_allocated(layouts, declared, q.ctype.get()) {
        block(alloc, at, q)
    } else {
        Err(TypeFault::Mismatch(at))
    }
}

fn free_of(alloc: Global, at: Place, x: ExprPart) -> Result<Operand, TypeFault>
    ensures { Gives (Ok (spec.made at (Expr.Free x) CType.Void)) result }
{
    let ctype = type_part(alloc, CType::Void)?;
    made(alloc, at, Expr::Free(x.into_boxed()), ctype)
}

fn free_of_null(alloc: Global, at: Place) -> Result<Operand, TypeFault>
    ensures { Gives (Ok (spec.made at (Expr.Free Expr.Null) CType.Void)) result }
{
    let x = expression(alloc, Expr::Null)?;
    free_of(alloc, at, x)
}

/// A call of `free`, with the name at this place: it takes a pointer of any type, or a null pointer constant (C11 7.22.3.3).
#[tactic(auto, unfolding(typing_rules::specs::Allocation::freed))]
pub fn freed(alloc: Global, at: Place, v: Value) -> Result<Operand, TypeFault>
    ensures { Gives (rules.freed at v) result }
{
    if is_null(v.origin) {
        free_of_null(alloc, at)
    } else if is_pointer(shape_of(v.ctype.get())) {
        free_of(alloc, at, v.expr)
    } else {
        Err(TypeFault::Mismatch(at))
    }
}

/// A call of `getchar`, with the name at this place, whose value has this type (C11 7.21.7.6).
pub fn getchar(alloc: Global, at: Place, ctype: TypePart) -> Result<Operand, TypeFault>
    ensures { Gives (Ok (spec.made at Expr.GetChar ctype)) result }
{
    made(alloc, at, Expr::GetChar, ctype)
}

/// A call of `putchar` of the argument, with the name at this place, whose value has this type (C11 7.21.7.8).
pub fn putchar(alloc: Global, at: Place, x: ExprPart, ctype: TypePart) -> Result<Operand, TypeFault>
    ensures { Gives (Ok (spec.made at (Expr.PutChar x) ctype)) result }
{
    made(alloc, at, Expr::PutChar(x.into_boxed()), ctype)
}
