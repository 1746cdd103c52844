//! What the cells of variables of file scope start with.

ghost use Rattle.std.specs.Prelude.{◌≡◌, Ok};
ghost use Rattle.typing_laws.specs.SmallTypes.{IsSmall};
ghost use Rattle.typing_rules.specs.Checked.{Gives};
ghost use Rattle.typing_rules.specs.Initialisers as rules;
ghost use Rattle.typing_rules.specs.TreesOfDeclarations as trees;
ghost use Rattle.typing_scopes.specs.Known.{known as seen};
ghost use Rattle.typing_initialisers.specs.Initialisers.{AddressesFit};

use crate::cells::push_cells;
use crate::filling::Filling;
use crate::zeros::push_zeros;
use c_grammar::declaration::Init;
use c_grammar::expression::Assign;
use c_lexer::Place;
use sqlite_items::Items;
use std::alloc::Global;
use step_meaning::{CType, Declared, ExprPart, Layout, Value};
use typing_constants::address::initial_value;
use typing_rules::fault::TypeFault;
use typing_scopes::known::Known;
use typing_shapes::indices::has_literal_indices;

/// The cells of variables of file scope, each with the value that it starts with. Expressions name the variables so far.
#[derive(Clone, Copy)]
pub struct FileCells<'t> {
    pub layouts: &'t [Layout],
    pub globals: &'t [Declared],
}

impl<'t> Filling<Value> for FileCells<'t> {
    ghost use Rattle.std.specs.Prelude.{◌≡◌};
    ghost use Rattle.typing_rules.specs.declared.fault.TypeFault.TheVariants.{BadInitialiser};
    ghost use Rattle.typing_rules.specs.Checked.{kept};
    ghost use Rattle.std.specs.Prelude.{if◌then◌else◌, None};
    ghost use Rattle.typing_rules.specs.ConstantExpressions.{has_literal_indices as are_literal, initial_value as value_of};
    ghost use Rattle.typing_rules.specs.Initialisers as rules;
    ghost use Rattle.typing_initialisers.specs.Initialisers.{AddressesFit};

    ghost can_give = { λ s. AddressesFit s.layouts.now s.globals.now };

    ghost given = { λ s x at t y. kept (BadInitialiser at) (if are_literal x then value_of s.layouts.now s.globals.now t y else None) };

    ghost filled = { λ s t. rules.zero_value t };

    #[tactic(auto, unfolding(typing_rules::specs::Checked::kept))]
    fn give(
        &self,
        alloc: Global,
        source: &Assign,
        at: Place,
        t: &CType,
        x: ExprPart,
    ) -> Result<Value, TypeFault> {
        if !has_literal_indices(source) {
            return Err(TypeFault::BadInitialiser(at));
        }
        match initial_value(alloc, self.layouts, self.globals, t, x.get())? {
            Some(value) => Ok(value),
            None => Err(TypeFault::BadInitialiser(at)),
        }
    }

    fn fill(&self, _alloc: Global, t: &CType) -> Result<Value, TypeFault> {
        match t {
            CType::Int(_) => Ok(Value::Int(0)),
            CType::Void | CType::Pointer(_) | CType::Array(_, _) | CType::Struct(_) => {
                Ok(Value::Null)
            }
        }
    }
}

/// What the cells of a variable of file scope of the type start with, in ascending order. The offset of each address that it
/// can name is below 2^32 (C11 6.7.9, 4).
pub fn initial_values(
    alloc: Global,
    known: &Known<'_>,
    t: &CType,
    init: &Init,
) -> Result<Items<Value>, TypeFault>
    requires small { IsSmall (seen known.now) }
    requires addresses { AddressesFit known.now.layouts known.now.globals }
    ensures { Gives (rules.initial_values (seen known.now) known.now.globals t.now (trees.init init.now)) result }
{
    let kind = FileCells {
        layouts: known.layouts.as_slice(),
        globals: known.globals.as_slice(),
    };
    let mut cells = Vec::new(alloc);
    push_cells(alloc, known, &kind, &mut cells, init, t)?;
    Ok(Items::from_vec(cells))
}

/// What the cells of a variable of file scope without initialiser start with (C11 6.7.9, 10).
pub fn uninitialised(alloc: Global, known: &Known<'_>, t: &CType) -> Result<Items<Value>, TypeFault>
    ensures { Gives (Ok (rules.uninitialised (seen known.now) t.now)) result }
{
    let kind = FileCells {
        layouts: known.layouts.as_slice(),
        globals: known.globals.as_slice(),
    };
    let mut cells = Vec::new(alloc);
    push_zeros(alloc, known.layouts.as_slice(), &kind, &mut cells, t)?;
    Ok(Items::from_vec(cells))
}
