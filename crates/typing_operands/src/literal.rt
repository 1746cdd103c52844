//! Constants (C11 6.4.4).

ghost use Rattle.std.specs.Prelude.{◌≡◌, codes, pos, Ok};
ghost use Rattle.std.specs.Str.{bytes_eq};
ghost use Rattle.c_lexer.specs.Lexemes.{character_value as value_of_character};
ghost use Rattle.typing_rules.specs.Checked.{Gives};
ghost use Rattle.typing_rules.specs.Expressions as rules;
ghost use Rattle.typing_rules.specs.Operands as spec;

use crate::part::{integer, made_from, type_part};
use c_lexer::constant::{character_value, integer_constant};
use c_lexer::{IntegerConstant, Place};
use std::alloc::Global;
use step_meaning::{CType, Expr, IntKind};
use typing_rules::fault::TypeFault;
use typing_rules::operand::{Operand, Origin};
use typing_rules::spelling::constant_kind;

/// The literal `0`, an integer and a null pointer constant (C11 6.3.2.3, 3).
fn zero_literal(alloc: Global, at: Place) -> Result<Operand, TypeFault>
    ensures { Gives (Ok (spec.zero_literal at)) result }
{
    let ctype = type_part(alloc, CType::Int(IntKind::Int))?;
    made_from(
        alloc,
        Origin::ZeroLiteral,
        at,
        Expr::Literal(IntKind::Int, 0),
        ctype,
    )
}

/// The constant, and 0 where there is none.
fn literal(
    alloc: Global,
    at: Place,
    constant: Option<IntegerConstant>,
) -> Result<Operand, TypeFault>
    ensures { Gives (Ok (rules.literal at constant)) result }
{
    match constant {
        None => integer(alloc, at, Expr::Literal(IntKind::Int, 0), IntKind::Int),
        Some(constant) => {
            let kind = constant_kind(constant.kind);
            integer(
                alloc,
                at,
                Expr::Literal(kind, i128::from(constant.value)),
                kind,
            )
        }
    }
}

/// Whether the bytes are the token `0`.
fn is_zero_token(bytes: &[u8]) -> bool
    ensures { result ≡ bytes_eq bytes.now (codes "0") }
{
    bytes == "0".as_bytes()
}

/// An integer constant that is spelled so, at this place (C11 6.4.4.1). Bytes that are none stand for 0: the lexer lets no such number through.
pub fn numbered(alloc: Global, at: Place, bytes: &[u8]) -> Result<Operand, TypeFault>
    ensures { Gives (Ok (rules.numbered at bytes.now)) result }
{
    if is_zero_token(bytes) {
        zero_literal(alloc, at)
    } else {
        literal(alloc, at, integer_constant(bytes))
    }
}

/// A character constant that is spelled so, at this place (C11 6.4.4.4).
pub fn character(alloc: Global, at: Place, bytes: &[u8]) -> Result<Operand, TypeFault>
    ensures { Gives (Ok (spec.made at (Expr.Literal IntKind.Int (pos (value_of_character bytes.now))) spec.int)) result }
{
    integer(
        alloc,
        at,
        Expr::Literal(IntKind::Int, i128::from(character_value(bytes))),
        IntKind::Int,
    )
}
