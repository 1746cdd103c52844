//! Statements that are held while others are made.

ghost use Rattle.std.specs.Prelude.{◌≡◌, [], ◌∷◌, ◌++◌, Ok, OnOk};
ghost use Rattle.std.specs.Option.{option_map};
ghost use Rattle.typing_rules.specs.Checked.{Gives};

use std::alloc::Global;
use step_meaning::{Expr, ExprPart, Stmt, StmtPart, StmtsPart};
use typing_rules::fault::TypeFault;

/// The part that holds the statement.
pub fn made(alloc: Global, statement: Stmt) -> Result<StmtPart, TypeFault>
    ensures { Gives (Ok statement) result }
{
    Ok(StmtPart::new(alloc, statement)?)
}

/// One statement more.
pub fn push(all: &mut StmtsPart, statement: StmtPart) -> Result<(), TypeFault>
    ensures added { OnOk result (all.new ≡ all.old ++ statement ∷ []) }
    ensures memory { Gives (Ok tt) result }
{
    all.push(statement)?;
    Ok(())
}

/// The expression, where there is one.
pub fn there(part: Option<ExprPart>) -> Option<Expr>
    ensures { result ≡ part }
{
    match part {
        None => None,
        Some(part) => Some(part.into_boxed().into_inner()),
    }
}
