//! Calls whose arguments are made already (C11 6.5.2.2, 7.21.7.6, 7.21.7.8, 7.22.3.3, 7.22.3.4).

ghost use Rattle.std.specs.Prelude.{◌≡◌, ◌≢◌, [], map, nat_lt, length, codes, Ok};
ghost use Rattle.std.specs.Str.{bytes_eq};
ghost use Rattle.typing_laws.specs.SmallTypes.{IsSmall};
ghost use Rattle.typing_objects.specs.Parts.{request};
ghost use Rattle.typing_rules.specs.Allocation.{allocated as allocated_block};
ghost use Rattle.typing_rules.specs.Checked.{Gives};
ghost use Rattle.typing_rules.specs.Environment.{place_of, bytes_in};
ghost use Rattle.typing_rules.specs.Expressions as rules;
ghost use Rattle.typing_rules.specs.Operands as operands;
ghost use Rattle.typing_rules.specs.Syntax as syntax;
ghost use Rattle.typing_scopes.specs.Known.{known as environment};

use c_words::word::Leaf;
use std::alloc::Global;
use step_meaning::{CType, Declared, Expr, ExprPart, ExprsPart};
use typing_objects::allocation::{Request, allocated, getchar, putchar};
use typing_operands::conversion::fitted;
use typing_operands::part::{copied, made};
use typing_rules::fault::TypeFault;
use typing_rules::operand::{Operand, TypePart, Value};
use typing_scopes::found::Found;
use typing_scopes::known::Known;

/// The argument, brought to the type of the first of these parameters where there is one.
pub fn fitted_argument(
    alloc: Global,
    _known: &Known,
    parameters: &[Declared],
    v: Value,
) -> Result<ExprPart, TypeFault>
    ensures { Gives (rules.fitted_argument (environment _known.now) (map (λ d. d.ctype) parameters.now) v) result }
{
    match parameters.split_first() {
        None => Ok(v.expr),
        Some((parameter, _)) => fitted(alloc, v.first, &parameter.ctype, v),
    }
}

/// The parameters after the first.
pub fn after_first<'k>(_known: &Known, parameters: &'k [Declared]) -> &'k [Declared]
    ensures { map (λ d. d.ctype) result.now ≡ rules.tail (environment _known.now) (map (λ d. d.ctype) parameters.now) }
{
    match parameters.split_first() {
        None => parameters,
        Some((_, rest)) => rest,
    }
}

/// The core of a call of the function with this number, which has a value of this type.
fn call_core(
    alloc: Global,
    _known: &Known,
    name: &Leaf,
    number: u32,
    ctype: TypePart,
    arguments: ExprsPart,
) -> Result<Operand, TypeFault>
    ensures { Gives (Ok (operands.made (place_of name.now) (rules.called_core (environment _known.now) number arguments) ctype)) result }
{
    let at = name.token.place;
    match number {
        0 => getchar(alloc, at, ctype),
        1 => match arguments.into_first(alloc)? {
            None => getchar(alloc, at, ctype),
            Some(x) => putchar(alloc, at, x, ctype),
        },
        _ => made(
            alloc,
            at,
            Expr::Invoke(number, arguments.into_items()),
            ctype,
        ),
    }
}

/// A call of the function with this number, result and parameters.
#[tactic(auto, unfolding(typing_rules::specs::Checked::none_of))]
pub fn called(
    alloc: Global,
    known: &Known,
    name: &Leaf,
    number: u32,
    ctype: &CType,
    parameters: &[Declared],
    arguments: ExprsPart,
) -> Result<Operand, TypeFault>
    ensures { Gives (rules.called (environment known.now) name.now number ctype.now (map (λ d. d.ctype) parameters.now) arguments) result }
{
    let at = name.token.place;
    let bytes = known.bytes(name);
    if arguments.len() != parameters.len() {
        return Err(TypeFault::ArgumentCount(at));
    }
    if number >= 4 && !known.bodies.has(bytes) {
        return Err(TypeFault::NoBody(at));
    }
    if bytes == "main".as_bytes() {
        return Err(TypeFault::MainCalled(at));
    }
    let ctype = copied(alloc, ctype)?;
    call_core(alloc, known, name, number, ctype, arguments)
}

/// `malloc` of what it is asked for.
pub fn allocated_in(
    alloc: Global,
    known: &Known,
    name: &Leaf,
    q: Request,
) -> Result<Operand, TypeFault>
    ensures { Gives (allocated_block (environment known.now) (place_of name.now) (request q)) result }
{
    allocated(
        alloc,
        known.layouts.as_slice(),
        known.tags.len(),
        name.token.place,
        q,
    )
}

/// A call without arguments.
#[tactic(auto, unfolding(typing_rules::specs::Expressions::operand, typing_rules::specs::Expressions::arguments, typing_rules::specs::Expressions::only_value, typing_rules::specs::Expressions::only_request))]
pub fn called_without(alloc: Global, known: &Known, name: &Leaf) -> Result<Operand, TypeFault>
    ensures { Gives (rules.operand (environment known.now) (syntax.Call name.now syntax.NoMore)) result }
{
    let at = name.token.place;
    match known.entry(name)? {
        Found::Variable(_, _) => Err(TypeFault::Mismatch(at)),
        Found::Function(number, ctype, parameters) => {
            if number == 2 || number == 3 {
                return Err(TypeFault::ArgumentCount(at));
            }
            let arguments = ExprsPart::new(alloc);
            called(alloc, known, name, number, ctype, parameters, arguments)
        }
    }
}
