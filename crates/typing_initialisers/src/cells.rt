//! The cells that an initialiser gives an object, in ascending order (C11 6.7.9).

ghost use Rattle.std.specs.Prelude.{◌≡◌, [], ◌∷◌, flat_map, map, drop, Ok};
ghost use Rattle.step_meaning.specs.TypeRules.{is_scalar as is_scalar_type};
ghost use Rattle.step_meaning.specs.Types.{object_cells};
ghost use Rattle.typing_laws.specs.SmallTypes.{IsSmall};
ghost use Rattle.typing_rules.specs.Checked.{Gives};
ghost use Rattle.typing_rules.specs.Initialisers as rules;
ghost use Rattle.typing_rules.specs.Syntax.{Value as ValueOf};
ghost use Rattle.typing_rules.specs.TreesOfDeclarations as trees;
ghost use Rattle.typing_rules.specs.TreesOfExpressions.{assign as tree_of_assign};
ghost use Rattle.typing_scopes.specs.Known.{known as seen};
ghost use Rattle.typing_declarators.specs.Adding.{Adds};
ghost use Rattle.typing_initialisers.specs.Initialisers as steps;
ghost use Rattle.typing_initialisers.specs.Parts.{parts as parts_seen};

use crate::alone::{alone, superfluous};
use crate::filling::Filling;
use crate::parts::{Parts, parts_of};
use crate::zeros::{push_cell, push_elements, push_members, push_zeros};
use c_grammar::declaration::Init;
use c_grammar::expression::Assign;
use c_words::chain::Chain;
use c_words::word::Leaf;
use std::alloc::Global;
use step_meaning::{CType, Declared, Layout};
use typing_expressions::full::full;
use typing_operands::conversion::fitted;
use typing_rules::fault::TypeFault;
use typing_rules::operand::Value;
use typing_scopes::known::Known;
use typing_shapes::number::{number, stands_alone};

/// Whether the type is an integer or a pointer type (C11 6.2.5, 21).
fn is_scalar(t: &CType) -> bool
    ensures { result ≡ is_scalar_type t.now }
{
    match t {
        CType::Int(_) | CType::Pointer(_) => true,
        CType::Void | CType::Array(_, _) | CType::Struct(_) => false,
    }
}

/// The cell that the value of an expression gives, brought to the type of the cell.
fn given<T: Drop, K: Filling<T>>(
    alloc: Global,
    kind: &K,
    source: &Assign,
    t: &CType,
    v: Value,
) -> Result<T, TypeFault>
    requires { K.can_give kind.now }
    ensures { Gives (steps.given_cell (K.given kind.now (tree_of_assign source.now)) t.now v) result }
{
    let at = v.first;
    let x = fitted(alloc, at, t, v)?;
    kind.give(alloc, source, at, t, x)
}

/// The cell of an initialiser that is an expression (C11 6.7.9, 11).
fn push_value<T: Drop, K: Filling<T>>(
    alloc: Global,
    known: &Known<'_>,
    kind: &K,
    cells: &mut Vec<T>,
    t: &CType,
    x: &Assign,
) -> Result<(), TypeFault>
    requires small { IsSmall (seen known.now) }
    requires kind { K.can_give kind.now }
    ensures { Adds (rules.cells (seen known.now) T (K.given kind.now) (K.filled kind.now) t.now (ValueOf (tree_of_assign x.now))) cells.old.items cells.new.items result }
{
    let v = full(alloc, known, x)?;
    if !is_scalar(t) {
        return Err(TypeFault::BadInitialiser(v.first));
    }
    let cell = given(alloc, kind, x, t, v)?;
    push_cell(cells, cell)
}

/// Braces around the initialiser of a scalar.
fn refused_braces(
    alloc: Global,
    known: &Known<'_>,
    opening: &Leaf,
    init: &Init,
) -> Result<(), TypeFault>
    requires { IsSmall (seen known.now) }
    ensures { Gives (steps.refused (seen known.now) opening.now (trees.init init.now)) result }
{
    alone(alloc, known, init)?;
    Err(TypeFault::BadInitialiser(opening.token.place))
}

/// Whether it is the token `0` alone.
#[tactic(auto, using(crate::proofs::CellLaws::value_token, crate::proofs::CellLaws::braces_token))]
fn is_zero_token(known: &Known<'_>, init: &Init) -> bool
    ensures { result ≡ steps.is_zero_token (seen known.now) (trees.init init.now) }
{
    match init {
        Init::Value(x) => is_zero_leaf(known, number(x.get())),
        Init::Braces(_, _, _, _) => false,
    }
}

fn is_zero_leaf(known: &Known<'_>, leaf: Option<Leaf>) -> bool
    ensures { result ≡ steps.is_zero_leaf (seen known.now) leaf }
{
    match leaf {
        None => false,
        Some(leaf) => known.bytes(&leaf) == "0".as_bytes(),
    }
}

/// Whether the elements are those of `{0}`.
#[tactic(auto, using(crate::proofs::CellLaws::all_zero_is))]
fn is_all_zero(known: &Known<'_>, elements: &Chain<Init>) -> bool
    ensures { result ≡ steps.is_all_zero (seen known.now) (steps.elements_of elements.now) }
{
    stands_alone(elements) && is_zero_token(known, &elements.first)
}

/// The members from this one on.
fn members_from(members: &[Declared], next: usize) -> &[Declared]
    ensures { result.now ≡ drop next members.now }
{
    if next < members.len() {
        &members[next..]
    } else {
        &[]
    }
}

/// The cells of the parts from this one on, all filled up.
fn push_rest<T: Drop, K: Filling<T>>(
    alloc: Global,
    layouts: &[Layout],
    kind: &K,
    cells: &mut Vec<T>,
    parts: Parts<'_>,
    next: usize,
) -> Result<(), TypeFault>
    ensures { Adds (Ok (map (K.filled kind.now) (flat_map (object_cells layouts.now) (drop next (parts_seen parts.entry))))) cells.old.items cells.new.items result }
{
    match parts {
        Parts::Elements(of, count) => push_elements(
            alloc,
            layouts,
            kind,
            cells,
            of,
            (count as usize).saturating_sub(next),
        ),
        Parts::Members(members) => {
            push_members(alloc, layouts, kind, cells, members_from(members, next))
        }
    }
}

/// The cells of an object of the type, in ascending order. Braces follow the shape of the type, and what is left out is filled up
/// (C11 6.7.9, 11, 17, 19 and 21).
pub fn push_cells<T: Drop, K: Filling<T>>(
    alloc: Global,
    known: &Known<'_>,
    kind: &K,
    cells: &mut Vec<T>,
    init: &Init,
    t: &CType,
) -> Result<(), TypeFault>
    requires small { IsSmall (seen known.now) }
    requires kind { K.can_give kind.now }
    ensures { Adds (rules.cells (seen known.now) T (K.given kind.now) (K.filled kind.now) t.now (trees.init init.now)) cells.old.items cells.new.items result }
{
    match init {
        Init::Value(x) => push_value(alloc, known, kind, cells, t, x.get()),
        Init::Braces(opening, elements, _, _) => {
            if is_scalar(t) {
                return refused_braces(alloc, known, opening, init);
            }
            let chain = elements.get();
            let layouts = known.layouts.as_slice();
            if is_all_zero(known, chain) {
                return push_zeros(alloc, layouts, kind, cells, t);
            }
            let parts = parts_of(layouts, t);
            let Some(first) = parts.at(0) else {
                return superfluous(alloc, known, &chain.first);
            };
            push_cells(alloc, known, kind, cells, &chain.first, first)?;
            for (index, link) in chain.rest.as_slice().iter().enumerate() {
                let Some(next) = parts.at(index + 1) else {
                    return superfluous(alloc, known, &link.operand);
                };
                push_cells(alloc, known, kind, cells, &link.operand, next)?;
            }
            push_rest(alloc, layouts, kind, cells, parts, chain.rest.len() + 1)
        }
    }
}
