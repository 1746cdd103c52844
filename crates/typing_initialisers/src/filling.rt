//! What a cell of an initialised object starts with: of a local an expression, of a variable of file scope a value.

ghost use Rattle.std.specs.Prelude.{◌≡◌, Ok};
ghost use Rattle.c_lexer.specs.declared.token.Place.{Place as PlaceValue};
ghost use Rattle.step_meaning.specs.declared.value.CType.{CType as TypeValue};
ghost use Rattle.step_meaning.specs.declared.expr.Expr.{Expr as ExprValue};
ghost use Rattle.typing_rules.specs.Syntax.{Expression};
ghost use Rattle.typing_rules.specs.TreesOfExpressions.{assign as tree_of_assign};
ghost use Rattle.typing_rules.specs.Checked.{Checked, Gives};

use c_grammar::expression::Assign;
use c_lexer::Place;
use std::alloc::Global;
use step_meaning::{CType, ExprPart};
use typing_rules::fault::TypeFault;

/// A kind of cells. It is used only where `can_give` holds of it.
pub trait Filling<T> {
    ghost can_give: { Self → Type 0 };

    ghost given: { Self → Expression → PlaceValue → TypeValue → ExprValue → Checked T };

    ghost filled: { Self → TypeValue → T };

    /// The cell of this type that starts with an expression of the text, whose first token stands at this place, and whose core
    /// was brought to the type.
    fn give(
        &self,
        alloc: Global,
        source: &Assign,
        at: Place,
        t: &CType,
        x: ExprPart,
    ) -> Result<T, TypeFault>
        requires { can_give self.now }
        ensures { Gives (given self.now (tree_of_assign source.now) at t.now x) result };

    /// The cell of this type that starts with zero or null.
    fn fill(&self, alloc: Global, t: &CType) -> Result<T, TypeFault>
        ensures { Gives (Ok (filled self.now t.now)) result };
}
