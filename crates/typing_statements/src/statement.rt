//! Statements (C11 6.8), in a loop or not.

ghost use Rattle.std.specs.Prelude.{◌≡◌, [], ◌∷◌, ◌++◌, Ok, OnOk};
ghost use Rattle.std.specs.Option.{option_map};
ghost use Rattle.typing_rules.specs.Checked.{Gives};
ghost use Rattle.typing_rules.specs.Statements as rules;
ghost use Rattle.typing_rules.specs.TreesOfDeclarations as trees;
ghost use Rattle.typing_rules.specs.TreesOfExpressions as expressions;
ghost use Rattle.typing_statements.specs.Blocks.{part_made, for_rest, for_value, for_made};
ghost use Rattle.typing_statements.specs.Making.{Makes, MakesMore};
ghost use Rattle.typing_statements.specs.Points.{outside, around, frame_at, IsReady};

use crate::body::Body;
use crate::jump::within_loop;
use crate::made::{made, push, there};
use crate::scope::{close, open};
use c_grammar::statement::{Block, BlockPart, ForFirst, Local, Stmt as Tree};
use c_grammar::whole::Expression;
use std::alloc::Global;
use step_meaning::{Stmt, StmtPart, StmtsPart};
use typing_rules::fault::TypeFault;
use typing_scopes::known::Known;

/// The statements with one more, as one.
fn before_last(alloc: Global, before: StmtsPart, last: StmtPart) -> Result<StmtPart, TypeFault>
    ensures { Gives (Ok (Stmt.Block (before ++ last ∷ []))) result }
{
    let mut all = before;
    push(&mut all, last)?;
    made(alloc, Stmt::Block(all.into_items()))
}

impl<'b> Body<'b> {
    /// A statement.
    #[cycle(statements)]
    #[tactic(auto, using(typing_rules::proofs::StatementAlternatives::statements, crate::proofs::Blocks::for_is), unfolding(typing_rules::specs::Statements::statement))]
    pub fn statement<'t>(
        self,
        known: &mut Known<'t>,
        looping: bool,
        tree: &Tree,
    ) -> Result<StmtPart, TypeFault>
        requires { IsReady known.old }
        ensures makes { Makes (rules.statement (around (outside known.old)) self.entry.returns.now looping (trees.stmt tree.now) (frame_at known.old)) result (frame_at known.new) }
        ensures same { OnOk result (outside known.new ≡ outside known.old) }
        ensures ready { OnOk result (IsReady known.new) }
    {
        match tree {
            Tree::Empty(_) => made(self.alloc, Stmt::Empty),
            Tree::Expression(x, _) => {
                let e = self.value(known, x)?;
                made(self.alloc, Stmt::Eval(e.into_boxed().into_inner()))
            }
            Tree::Block(inside) => {
                let all = self.block(known, looping, inside.get())?;
                made(self.alloc, Stmt::Block(all.into_items()))
            }
            Tree::If(_, _, x, _, body) => {
                let e = self.test(known, x)?;
                let a = self.statement(known, looping, body.get())?;
                let b = made(self.alloc, Stmt::Empty)?;
                made(
                    self.alloc,
                    Stmt::If(e.into_boxed().into_inner(), a.into_boxed(), b.into_boxed()),
                )
            }
            Tree::IfElse(_, _, x, _, body, _, other) => {
                let e = self.test(known, x)?;
                let a = self.statement(known, looping, body.get())?;
                let b = self.statement(known, looping, other.get())?;
                made(
                    self.alloc,
                    Stmt::If(e.into_boxed().into_inner(), a.into_boxed(), b.into_boxed()),
                )
            }
            Tree::While(_, _, x, _, body) => {
                let e = self.test(known, x)?;
                let a = self.statement(known, true, body.get())?;
                made(
                    self.alloc,
                    Stmt::While(e.into_boxed().into_inner(), a.into_boxed()),
                )
            }
            Tree::Do(_, body, _, _, x, _, _) => {
                let a = self.statement(known, true, body.get())?;
                let e = self.test(known, x)?;
                made(
                    self.alloc,
                    Stmt::Do(a.into_boxed(), e.into_boxed().into_inner()),
                )
            }
            Tree::For(_, _, first, test, _, step, _, body) => {
                self.for_loop(known, first, test, step, body.get())
            }
            Tree::Break(word, _) => {
                within_loop(looping, word)?;
                made(self.alloc, Stmt::Break)
            }
            Tree::Continue(word, _) => {
                within_loop(looping, word)?;
                made(self.alloc, Stmt::Continue)
            }
            Tree::Return(word, x, _) => self.returned(known, word, x),
            Tree::Ghost(_) => made(self.alloc, Stmt::Empty),
            Tree::Assert(_) => made(self.alloc, Stmt::Empty),
        }
    }

    /// A `for` without its first part.
    #[cycle(statements)]
    #[tactic(auto, unfolding(crate::specs::Blocks::for_rest))]
    fn for_rest<'t>(
        self,
        known: &mut Known<'t>,
        test: &Option<Expression>,
        step: &Option<Expression>,
        body: &Tree,
    ) -> Result<StmtPart, TypeFault>
        requires { IsReady known.old }
        ensures makes { Makes (for_rest (around (outside known.old)) self.entry.returns.now (option_map expressions.assign test.now) (option_map expressions.assign step.now) (trees.stmt body.now) (frame_at known.old)) result (frame_at known.new) }
        ensures same { OnOk result (outside known.new ≡ outside known.old) }
        ensures ready { OnOk result (IsReady known.new) }
    {
        let e = self.test_there(known, test)?;
        let i = self.value_there(known, step)?;
        let a = self.statement(known, true, body)?;
        made(self.alloc, Stmt::For(there(e), there(i), a.into_boxed()))
    }

    /// A `for` that begins with a declaration, which has a scope of its own (C11 6.8.5, 5).
    #[cycle(statements)]
    #[tactic(auto, unfolding(crate::specs::Blocks::for_made))]
    fn for_local<'t>(
        self,
        known: &mut Known<'t>,
        local: &Local,
        test: &Option<Expression>,
        step: &Option<Expression>,
        body: &Tree,
    ) -> Result<StmtPart, TypeFault>
        requires { IsReady known.old }
        ensures makes { Makes (for_made (around (outside known.old)) self.entry.returns.now (ForFirst.Local local.now) (option_map expressions.assign test.now) (option_map expressions.assign step.now) (trees.stmt body.now) (frame_at known.old)) result (frame_at known.new) }
        ensures same { OnOk result (outside known.new ≡ outside known.old) }
        ensures ready { OnOk result (IsReady known.new) }
    {
        open(self.alloc, known)?;
        let before = self.declared(known, local)?;
        let rest = self.for_rest(known, test, step, body)?;
        close(known);
        before_last(self.alloc, before, rest)
    }

    /// A `for` that begins with an expression.
    #[cycle(statements)]
    #[tactic(auto, unfolding(crate::specs::Blocks::for_value))]
    fn for_value<'t>(
        self,
        known: &mut Known<'t>,
        x: &Expression,
        test: &Option<Expression>,
        step: &Option<Expression>,
        body: &Tree,
    ) -> Result<StmtPart, TypeFault>
        requires { IsReady known.old }
        ensures makes { Makes (for_value (around (outside known.old)) self.entry.returns.now (expressions.assign x.now) (option_map expressions.assign test.now) (option_map expressions.assign step.now) (trees.stmt body.now) (frame_at known.old)) result (frame_at known.new) }
        ensures same { OnOk result (outside known.new ≡ outside known.old) }
        ensures ready { OnOk result (IsReady known.new) }
    {
        let e = self.value(known, x)?;
        let first = made(self.alloc, Stmt::Eval(e.into_boxed().into_inner()))?;
        let mut before = StmtsPart::empty(self.alloc);
        push(&mut before, first)?;
        let rest = self.for_rest(known, test, step, body)?;
        before_last(self.alloc, before, rest)
    }

    /// `for` (C11 6.8.5.3): what stands before it is a block with it.
    #[cycle(statements)]
    #[tactic(auto, unfolding(crate::specs::Blocks::for_made))]
    fn for_loop<'t>(
        self,
        known: &mut Known<'t>,
        first: &ForFirst,
        test: &Option<Expression>,
        step: &Option<Expression>,
        body: &Tree,
    ) -> Result<StmtPart, TypeFault>
        requires { IsReady known.old }
        ensures makes { Makes (for_made (around (outside known.old)) self.entry.returns.now first.now (option_map expressions.assign test.now) (option_map expressions.assign step.now) (trees.stmt body.now) (frame_at known.old)) result (frame_at known.new) }
        ensures same { OnOk result (outside known.new ≡ outside known.old) }
        ensures ready { OnOk result (IsReady known.new) }
    {
        match first {
            ForFirst::Local(local) => self.for_local(known, local, test, step, body),
            ForFirst::Expression(Some(x), _) => self.for_value(known, x, test, step, body),
            ForFirst::Expression(None, _) => self.for_rest(known, test, step, body),
        }
    }

    /// A declaration or a statement of a block; its statements come after those there are.
    #[cycle(statements)]
    #[tactic(auto, unfolding(crate::specs::Blocks::part_made, crate::specs::Making::alone, crate::specs::Making::behind))]
    fn part<'t>(
        self,
        known: &mut Known<'t>,
        looping: bool,
        tree: &BlockPart,
        all: &mut StmtsPart,
    ) -> Result<(), TypeFault>
        requires { IsReady known.old }
        ensures makes { MakesMore (part_made (around (outside known.old)) self.entry.returns.now looping tree.now (frame_at known.old)) all.old all.new result (frame_at known.new) }
        ensures same { OnOk result (outside known.new ≡ outside known.old) }
        ensures ready { OnOk result (IsReady known.new) }
    {
        match tree {
            BlockPart::Local(local) => self.declare(known, local, all),
            BlockPart::Stmt(tree) => {
                let s = self.statement(known, looping, tree)?;
                push(all, s)
            }
        }
    }

    /// The statements of a block, in the scope that is open (C11 6.8.2).
    #[cycle(statements)]
    pub fn statements<'t>(
        self,
        known: &mut Known<'t>,
        looping: bool,
        tree: &Block,
    ) -> Result<StmtsPart, TypeFault>
        requires { IsReady known.old }
        ensures makes { Makes (rules.statements (around (outside known.old)) self.entry.returns.now looping (trees.block tree.now) (frame_at known.old)) result (frame_at known.new) }
        ensures same { OnOk result (outside known.new ≡ outside known.old) }
        ensures ready { OnOk result (IsReady known.new) }
    {
        let mut all = StmtsPart::empty(self.alloc);
        for next in tree.parts.as_slice() {
            self.part(known, looping, next, &mut all)?;
        }
        Ok(all)
    }

    /// A block, with a scope of its own.
    #[cycle(statements)]
    #[tactic(auto, unfolding(typing_rules::specs::Statements::in_scope))]
    fn block<'t>(
        self,
        known: &mut Known<'t>,
        looping: bool,
        tree: &Block,
    ) -> Result<StmtsPart, TypeFault>
        requires { IsReady known.old }
        ensures makes { Makes (rules.in_scope (rules.statements (around (outside known.old)) self.entry.returns.now looping (trees.block tree.now)) (frame_at known.old)) result (frame_at known.new) }
        ensures same { OnOk result (outside known.new ≡ outside known.old) }
        ensures ready { OnOk result (IsReady known.new) }
    {
        open(self.alloc, known)?;
        let all = self.statements(known, looping, tree)?;
        close(known);
        Ok(all)
    }
}
