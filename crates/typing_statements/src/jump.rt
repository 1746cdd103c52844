//! Jumps (C11 6.8.6).

ghost use Rattle.std.specs.Prelude.{◌≡◌, not, Some, None};
ghost use Rattle.std.specs.Option.{option_map};
ghost use Rattle.step_meaning.specs.ExpressionTypes.{is_void as void_type};
ghost use Rattle.typing_rules.specs.Checked.{Gives, unless};
ghost use Rattle.typing_rules.specs.Environment.{place_of};
ghost use Rattle.typing_rules.specs.Statements as rules;
ghost use Rattle.typing_rules.specs.TreesOfExpressions as trees;
ghost use Rattle.typing_statements.specs.Making.{Makes};
ghost use Rattle.typing_statements.specs.Points.{outside, around, frame_at, IsReady};

use crate::body::Body;
use crate::made::made;
use c_grammar::whole::Expression;
use c_words::word::Leaf;
use step_meaning::{CType, Stmt, StmtPart};
use typing_expressions::full::full;
use typing_operands::conversion::fitted;
use typing_rules::fault::TypeFault;
use typing_scopes::known::Known;

/// `break` and `continue` stand in a loop (C11 6.8.6.2, 6.8.6.3).
#[tactic(auto, unfolding(typing_rules::specs::Checked::unless))]
pub fn within_loop(looping: bool, word: &Leaf) -> Result<(), TypeFault>
    ensures { Gives (unless (not looping) (TypeFault.StrayJump (place_of word.now))) result }
{
    if looping {
        Ok(())
    } else {
        Err(TypeFault::StrayJump(word.token.place))
    }
}

fn is_void(t: &CType) -> bool
    ensures { result ≡ void_type t.now }
{
    matches!(t, CType::Void)
}

impl<'b> Body<'b> {
    #[tactic(auto, unfolding(typing_rules::specs::Checked::unless, crate::specs::Points::outside, crate::specs::Points::around, crate::specs::Points::frame_at, crate::specs::Points::IsReady))]
    fn returned_value(
        self,
        known: &Known<'_>,
        word: &Leaf,
        x: &Expression,
    ) -> Result<StmtPart, TypeFault>
        requires { IsReady known.now }
        ensures { Makes (rules.returned (around (outside known.now)) self.entry.returns.now word.now (Some (trees.assign x.now)) (frame_at known.now)) result (frame_at known.now) }
    {
        let v = full(self.alloc, known, x.get())?;
        if is_void(self.returns) {
            return Err(TypeFault::Mismatch(word.token.place));
        }
        let first = v.first;
        let e = fitted(self.alloc, first, self.returns, v)?;
        made(self.alloc, Stmt::Return(Some(e.into_boxed().into_inner())))
    }

    #[tactic(auto, unfolding(typing_rules::specs::Checked::unless))]
    fn returned_nothing(self, known: &Known<'_>, word: &Leaf) -> Result<StmtPart, TypeFault>
        ensures { Makes (rules.returned (around (outside known.now)) self.entry.returns.now word.now None (frame_at known.now)) result (frame_at known.now) }
    {
        let _ = known;
        if is_void(self.returns) {
            made(self.alloc, Stmt::Return(None))
        } else {
            Err(TypeFault::Mismatch(word.token.place))
        }
    }

    /// `return` (C11 6.8.6.4).
    pub fn returned(
        self,
        known: &Known<'_>,
        word: &Leaf,
        x: &Option<Expression>,
    ) -> Result<StmtPart, TypeFault>
        requires { IsReady known.now }
        ensures { Makes (rules.returned (around (outside known.now)) self.entry.returns.now word.now (option_map trees.assign x.now) (frame_at known.now)) result (frame_at known.now) }
    {
        match x {
            None => self.returned_nothing(known, word),
            Some(x) => self.returned_value(known, word, x),
        }
    }
}
