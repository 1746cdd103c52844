//! Expressions that statements hold.

ghost use Rattle.std.specs.Prelude.{◌≡◌};
ghost use Rattle.std.specs.Option.{option_map};
ghost use Rattle.typing_rules.specs.Statements as rules;
ghost use Rattle.typing_rules.specs.TreesOfExpressions as trees;
ghost use Rattle.typing_statements.specs.Making.{Makes};
ghost use Rattle.typing_statements.specs.Points.{outside, around, frame_at, IsReady};

use crate::body::Body;
use c_grammar::whole::Expression;
use step_meaning::ExprPart;
use typing_expressions::full::full;
use typing_operands::value::condition;
use typing_rules::fault::TypeFault;
use typing_scopes::known::Known;

impl<'b> Body<'b> {
    /// A full expression for its value or its effects.
    #[tactic(auto, unfolding(crate::specs::Points::outside, crate::specs::Points::around, crate::specs::Points::frame_at, crate::specs::Points::IsReady))]
    pub fn value(self, known: &Known<'_>, x: &Expression) -> Result<ExprPart, TypeFault>
        requires { IsReady known.now }
        ensures { Makes (rules.value (around (outside known.now)) self.entry.returns.now (trees.assign x.now) (frame_at known.now)) result (frame_at known.now) }
    {
        let v = full(self.alloc, known, x.get())?;
        Ok(v.expr)
    }

    /// A full expression as a condition (C11 6.8.4.1, 1; 6.8.5, 2).
    #[tactic(auto, unfolding(crate::specs::Points::outside, crate::specs::Points::around, crate::specs::Points::frame_at, crate::specs::Points::IsReady))]
    pub fn test(self, known: &Known<'_>, x: &Expression) -> Result<ExprPart, TypeFault>
        requires { IsReady known.now }
        ensures { Makes (rules.test (around (outside known.now)) self.entry.returns.now (trees.assign x.now) (frame_at known.now)) result (frame_at known.now) }
    {
        let v = full(self.alloc, known, x.get())?;
        condition(v)
    }

    /// A step of a `for`, where it has one.
    pub fn value_there(
        self,
        known: &Known<'_>,
        x: &Option<Expression>,
    ) -> Result<Option<ExprPart>, TypeFault>
        requires { IsReady known.now }
        ensures { Makes (rules.where_present (around (outside known.now)) self.entry.returns.now (rules.value (around (outside known.now)) self.entry.returns.now) (option_map trees.assign x.now) (frame_at known.now)) result (frame_at known.now) }
    {
        match x {
            None => Ok(None),
            Some(x) => {
                let e = self.value(known, x)?;
                Ok(Some(e))
            }
        }
    }

    /// A condition of a `for`, where it has one.
    pub fn test_there(
        self,
        known: &Known<'_>,
        x: &Option<Expression>,
    ) -> Result<Option<ExprPart>, TypeFault>
        requires { IsReady known.now }
        ensures { Makes (rules.where_present (around (outside known.now)) self.entry.returns.now (rules.test (around (outside known.now)) self.entry.returns.now) (option_map trees.assign x.now) (frame_at known.now)) result (frame_at known.now) }
    {
        match x {
            None => Ok(None),
            Some(x) => {
                let e = self.test(known, x)?;
                Ok(Some(e))
            }
        }
    }
}
