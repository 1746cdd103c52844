//! Initialisers of locals: an expression for each cell, and the statements that initialise the cells.

ghost use Rattle.std.specs.Prelude.{◌≡◌, [], ◌∷◌, Ok};
ghost use Rattle.std.specs.Result.{result_map_both};
ghost use Rattle.step_meaning.specs.declared.value.CType.{CType as TypeValue};
ghost use Rattle.step_meaning.specs.declared.stmt.Stmt.TheVariants as core;
ghost use Rattle.typing_laws.specs.SmallTypes.{IsSmall};
ghost use Rattle.typing_rules.specs.Checked.{Gives};
ghost use Rattle.typing_rules.specs.Environment.{Environment};
ghost use Rattle.typing_rules.specs.Initialisers as rules;
ghost use Rattle.typing_rules.specs.Statements.{init_statements};
ghost use Rattle.typing_rules.specs.TreesOfDeclarations as trees;
ghost use Rattle.typing_scopes.specs.Known.{known as seen};
ghost use Rattle.typing_declarators.specs.Adding.{Adds};
ghost use Rattle.typing_initialisers.specs.Locals.{inits};

use crate::cells::push_cells;
use crate::filling::Filling;
use c_grammar::declaration::Init;
use c_grammar::expression::Assign;
use c_lexer::Place;
use std::alloc::Global;
use step_meaning::{CType, Expr, ExprPart, IntKind, NameKind, Stmt, StmtPart, StmtsPart, Variable};
use typing_operands::part::{copied, expression};
use typing_rules::fault::TypeFault;
use typing_rules::operand::TypePart;
use typing_scopes::known::Known;

/// A zero of the type, or null.
fn zero_of(alloc: Global, t: &CType) -> Result<ExprPart, TypeFault>
    ensures { Gives (Ok (rules.zero_of t.now)) result }
{
    match t {
        CType::Int(kind) => {
            let zero = expression(alloc, Expr::Literal(IntKind::Int, 0))?;
            if *kind == IntKind::Int {
                Ok(zero)
            } else {
                expression(alloc, Expr::Convert(*kind, zero.into_boxed()))
            }
        }
        CType::Void | CType::Pointer(_) | CType::Array(_, _) | CType::Struct(_) => {
            expression(alloc, Expr::Null)
        }
    }
}

/// The cells of a local: each has its type, and the expression that it starts with.
#[derive(Clone, Copy)]
pub struct LocalCells;

impl Filling<(TypePart, ExprPart)> for LocalCells {
    ghost use Rattle.std.specs.Prelude.{◌≡◌, Ok};
    ghost use Rattle.typing_rules.specs.Initialisers as rules;

    ghost can_give = { λ s. Unit {0} };

    ghost given = { λ s x at t y. Ok (t, y) };

    ghost filled = { λ s t. (t, rules.zero_of t) };

    fn give(
        &self,
        alloc: Global,
        _source: &Assign,
        _at: Place,
        t: &CType,
        x: ExprPart,
    ) -> Result<(TypePart, ExprPart), TypeFault> {
        let t = copied(alloc, t)?;
        Ok((t, x))
    }

    fn fill(&self, alloc: Global, t: &CType) -> Result<(TypePart, ExprPart), TypeFault> {
        let zero = zero_of(alloc, t)?;
        let t = copied(alloc, t)?;
        Ok((t, zero))
    }
}

/// The cells of a local of the type, in ascending order (C11 6.7.9).
pub fn local_cells(
    alloc: Global,
    known: &Known<'_>,
    t: &CType,
    init: &Init,
) -> Result<Vec<(TypePart, ExprPart)>, TypeFault>
    requires { IsSmall (seen known.now) }
    ensures { Gives (rules.local_cells (seen known.now) t.now (trees.init init.now)) (result_map_both (λ v. v.items) (λ e. e) result) }
{
    let mut cells = Vec::new(alloc);
    push_cells(alloc, known, &LocalCells, &mut cells, init, t)?;
    Ok(cells)
}

/// The statement that initialises the cell at this offset of a variable.
fn initialisation(
    alloc: Global,
    variable: Variable,
    offset: u32,
    cell: (TypePart, ExprPart),
) -> Result<StmtPart, TypeFault>
    ensures { Gives (Ok (core.Init variable offset cell.0 cell.1)) result }
{
    let (t, x) = cell;
    let t = t.into_boxed().into_inner();
    let x = x.into_boxed().into_inner();
    Ok(StmtPart::new(alloc, Stmt::Init(variable, offset, t, x))?)
}

/// One statement more.
fn push_statement(all: &mut StmtsPart, statement: StmtPart) -> Result<(), TypeFault>
    ensures { Adds (Ok (statement ∷ [])) all.old all.new result }
{
    all.push(statement)?;
    Ok(())
}

/// The statements that initialise the cells of the local with this number. For more cells than 32 bits count there is no memory.
fn push_statements(
    alloc: Global,
    index: u32,
    cells: Vec<(TypePart, ExprPart)>,
    all: &mut StmtsPart,
) -> Result<(), TypeFault>
    ensures { (g : Environment) (r : TypeValue) → Adds (Ok (init_statements g r index 0 cells.items)) all.old all.new result }
{
    let variable = Variable {
        kind: NameKind::Local,
        index,
    };
    let mut offset: u32 = 0;
    for cell in cells {
        let statement = initialisation(alloc, variable, offset, cell)?;
        push_statement(all, statement)?;
        offset = offset.checked_add(1).ok_or(TypeFault::Memory)?;
    }
    Ok(())
}

/// The statements that initialise the local with this number and type come after those there are (C11 6.7.9).
pub fn push_inits(
    alloc: Global,
    known: &Known<'_>,
    index: u32,
    t: &CType,
    init: &Init,
    all: &mut StmtsPart,
) -> Result<(), TypeFault>
    requires { IsSmall (seen known.now) }
    ensures { (r : TypeValue) → Adds (inits (seen known.now) r index t.now (trees.init init.now)) all.old all.new result }
{
    let cells = local_cells(alloc, known, t, init)?;
    push_statements(alloc, index, cells, all)
}
