//! Statements. Each kind of statement is a method, which reads what nests by a function value.
//! What is large is boxed as soon as it is made, so that it doesn't stand in each frame of the recursion.

ghost use Rattle.std.specs.Prelude.{[], ◌∷◌, ◌++◌};
ghost use Rattle.c_grammar.specs.declared.statement.BlockPart.TheVariants as b;
ghost use Rattle.c_words.specs.declared.word.Word.TheVariants as w;
ghost use Rattle.c_words.specs.Parsing.{Reads, and_then, pure, run_at};
ghost use Rattle.c_words.specs.Follows.{Nests};
ghost use Rattle.c_expressions.specs.ExpressionReading.{deep, inner_at};
ghost use Rattle.c_type_names.specs.Held.{ReadsAfter};
ghost use Rattle.c_statements.specs.StatementReading as spec;
ghost use Rattle.c_statements.specs.StatementReading.{stmt_at, at_level};

use crate::head::{Control, Head};
use crate::local::{begins_local, local};
use crate::made::{do_of, for_of, if_else_of, if_of, push_local, push_stmt, while_of};
use crate::part::begins_part;
use crate::value::{then_up_to, up_to};
use c_expressions::expression::whole_expression;
use c_grammar::statement::{Block, BlockPart, ForFirst, Local, Stmt};
use c_type_names::held::{boxed, then_expect};
use c_words::cursor::{Cursor, same};
use c_words::fault::ParseFault;
use c_words::word::Word;
use sqlite_items::{Boxed, Items};
use std::alloc::Global;

/// A declaration, where `held` was read before.
fn then_local<T: Drop>(
    held: T,
    alloc: Global,
    tokens: &mut Cursor<'_>,
    depth: usize,
) -> Result<(T, Local), ParseFault>
    ensures { ReadsAfter held (spec.local depth tokens.old) result tokens.new }
{
    let found = local(alloc, tokens, depth)?;
    Ok((held, found))
}

/// One more part of a block, which is a declaration.
#[inline(never)]
fn one_more_local(
    held: Items<BlockPart>,
    alloc: Global,
    tokens: &mut Cursor<'_>,
    depth: usize,
) -> Result<Items<BlockPart>, ParseFault>
    ensures { Reads (and_then (spec.local depth tokens.old) (λ x. pure (held ++ b.Local x ∷ []))) result tokens.new }
{
    let (held, found) = then_local(held, alloc, tokens, depth)?;
    push_local(held, found)
}

/// How deep what stands here may nest, how deep what nests in it may, and the reader of what nests.
#[derive(Clone, Copy)]
pub struct Statements<S> {
    alloc: Global,
    here: usize,
    inside: usize,
    stmt: S,
}

impl<S: Fn(Global, &mut Cursor<'_>, usize) -> Result<Boxed<Stmt>, ParseFault>> Statements<S> {
    /// A statement that nests, where `held` was read before.
    fn then_stmt<T: Drop>(
        &self,
        held: T,
        tokens: &mut Cursor<'_>,
    ) -> Result<(T, Boxed<Stmt>), ParseFault>
        requires { Nests (stmt_at self.now.inside) self.now.inside (S.pre self.now.stmt) (S.post self.now.stmt) }
        ensures { ReadsAfter held (stmt_at self.now.inside tokens.old) result tokens.new }
    {
        let found = (self.stmt)(self.alloc, tokens, self.inside)?;
        Ok((held, found))
    }

    fn empty(&self, tokens: &mut Cursor<'_>) -> Result<Boxed<Stmt>, ParseFault>
        ensures { Reads (at_level spec.empty self.now.here self.now.inside tokens.old) result tokens.new }
    {
        let semicolon = tokens.expect(Word::Semicolon)?;
        boxed(self.alloc, Stmt::Empty(semicolon))
    }

    fn ghost_code(&self, tokens: &mut Cursor<'_>) -> Result<Boxed<Stmt>, ParseFault>
        ensures { Reads (at_level spec.ghost_code self.now.here self.now.inside tokens.old) result tokens.new }
    {
        let annotation = tokens.expect(Word::Ghost)?;
        boxed(self.alloc, Stmt::Ghost(annotation))
    }

    fn assertion(&self, tokens: &mut Cursor<'_>) -> Result<Boxed<Stmt>, ParseFault>
        ensures { Reads (at_level spec.assertion self.now.here self.now.inside tokens.old) result tokens.new }
    {
        let annotation = tokens.expect(Word::Assert)?;
        boxed(self.alloc, Stmt::Assert(annotation))
    }

    #[inline(never)]
    #[tactic(auto, unfolding(crate::specs::StatementReading::expression))]
    fn expression(&self, tokens: &mut Cursor<'_>) -> Result<Boxed<Stmt>, ParseFault>
        ensures { Reads (at_level spec.expression self.now.here self.now.inside tokens.old) result tokens.new }
    {
        let value = whole_expression(self.alloc, tokens, self.here)?;
        let (value, semicolon) = then_expect(value, tokens, Word::Semicolon)?;
        boxed(self.alloc, Stmt::Expression(value, semicolon))
    }

    #[tactic(auto, unfolding(crate::specs::StatementReading::break_stmt))]
    fn break_stmt(&self, tokens: &mut Cursor<'_>) -> Result<Boxed<Stmt>, ParseFault>
        ensures { Reads (at_level spec.break_stmt self.now.here self.now.inside tokens.old) result tokens.new }
    {
        let first = tokens.expect(Word::Break)?;
        let semicolon = tokens.expect(Word::Semicolon)?;
        boxed(self.alloc, Stmt::Break(first, semicolon))
    }

    #[tactic(auto, unfolding(crate::specs::StatementReading::continue_stmt))]
    fn continue_stmt(&self, tokens: &mut Cursor<'_>) -> Result<Boxed<Stmt>, ParseFault>
        ensures { Reads (at_level spec.continue_stmt self.now.here self.now.inside tokens.old) result tokens.new }
    {
        let first = tokens.expect(Word::Continue)?;
        let semicolon = tokens.expect(Word::Semicolon)?;
        boxed(self.alloc, Stmt::Continue(first, semicolon))
    }

    #[inline(never)]
    #[tactic(auto, unfolding(crate::specs::StatementReading::return_stmt))]
    fn return_stmt(&self, tokens: &mut Cursor<'_>) -> Result<Boxed<Stmt>, ParseFault>
        ensures { Reads (at_level spec.return_stmt self.now.here self.now.inside tokens.old) result tokens.new }
    {
        let first = tokens.expect(Word::Return)?;
        let (value, semicolon) = up_to(self.alloc, tokens, Word::Semicolon, self.here)?;
        boxed(self.alloc, Stmt::Return(first, value, semicolon))
    }

    /// A word, and a condition in parentheses.
    #[inline(never)]
    #[tactic(auto, unfolding(crate::specs::StatementReading::head))]
    fn head(&self, tokens: &mut Cursor<'_>, word: Word) -> Result<Boxed<Head>, ParseFault>
        ensures { Reads (at_level spec.head self.now.here self.now.inside word tokens.old) result tokens.new }
    {
        let first = tokens.expect(word)?;
        let opening = tokens.expect(Word::LeftParen)?;
        let test = whole_expression(self.alloc, tokens, self.inside)?;
        let (test, closing) = then_expect(test, tokens, Word::RightParen)?;
        boxed(
            self.alloc,
            Head {
                first,
                opening,
                test,
                closing,
            },
        )
    }

    /// An `else` after the head and the body of an `if`.
    #[tactic(auto, unfolding(crate::specs::StatementReading::otherwise))]
    fn otherwise(
        &self,
        front: Boxed<Head>,
        body: Boxed<Stmt>,
        tokens: &mut Cursor<'_>,
    ) -> Result<Boxed<Stmt>, ParseFault>
        requires { Nests (stmt_at self.now.inside) self.now.inside (S.pre self.now.stmt) (S.post self.now.stmt) }
        ensures { Reads (at_level spec.otherwise self.now.here self.now.inside front body tokens.old) result tokens.new }
    {
        let (held, other) = then_expect((front, body), tokens, Word::Else)?;
        let (held, rest) = self.then_stmt(held, tokens)?;
        let (front, body) = held;
        if_else_of(self.alloc, front, body, other, rest)
    }

    #[tactic(auto, unfolding(crate::specs::StatementReading::conditional), using(crate::proofs::Deep::deep_none, crate::proofs::Deep::deep_gives))]
    fn conditional(&self, tokens: &mut Cursor<'_>) -> Result<Boxed<Stmt>, ParseFault>
        requires { Nests (stmt_at self.now.inside) self.now.inside (S.pre self.now.stmt) (S.post self.now.stmt) }
        ensures { Reads (deep self.now.inside (at_level spec.conditional self.now.here self.now.inside) tokens.old) result tokens.new }
    {
        if self.inside == 0 {
            return Err(tokens.refuse());
        }
        let front = self.head(tokens, Word::If)?;
        let (front, body) = self.then_stmt(front, tokens)?;
        if same(Word::Else, tokens.peek()) {
            self.otherwise(front, body, tokens)
        } else {
            if_of(self.alloc, front, body)
        }
    }

    #[tactic(auto, unfolding(crate::specs::StatementReading::while_loop), using(crate::proofs::Deep::deep_none, crate::proofs::Deep::deep_gives))]
    fn while_loop(&self, tokens: &mut Cursor<'_>) -> Result<Boxed<Stmt>, ParseFault>
        requires { Nests (stmt_at self.now.inside) self.now.inside (S.pre self.now.stmt) (S.post self.now.stmt) }
        ensures { Reads (deep self.now.inside (at_level spec.while_loop self.now.here self.now.inside) tokens.old) result tokens.new }
    {
        if self.inside == 0 {
            return Err(tokens.refuse());
        }
        let front = self.head(tokens, Word::While)?;
        let (front, body) = self.then_stmt(front, tokens)?;
        while_of(self.alloc, front, body)
    }

    /// The `while` of a `do` and its condition, where `held` was read before.
    fn then_head<T: Drop>(
        &self,
        held: T,
        tokens: &mut Cursor<'_>,
    ) -> Result<(T, Boxed<Head>), ParseFault>
        ensures { ReadsAfter held (at_level spec.head self.now.here self.now.inside w.While tokens.old) result tokens.new }
    {
        let found = self.head(tokens, Word::While)?;
        Ok((held, found))
    }

    #[tactic(auto, unfolding(crate::specs::StatementReading::do_loop), using(crate::proofs::Deep::deep_none, crate::proofs::Deep::deep_gives))]
    fn do_loop(&self, tokens: &mut Cursor<'_>) -> Result<Boxed<Stmt>, ParseFault>
        requires { Nests (stmt_at self.now.inside) self.now.inside (S.pre self.now.stmt) (S.post self.now.stmt) }
        ensures { Reads (deep self.now.inside (at_level spec.do_loop self.now.here self.now.inside) tokens.old) result tokens.new }
    {
        if self.inside == 0 {
            return Err(tokens.refuse());
        }
        let first = tokens.expect(Word::Do)?;
        let (first, body) = self.then_stmt(first, tokens)?;
        let (body, test) = self.then_head(body, tokens)?;
        let (held, semicolon) = then_expect((body, test), tokens, Word::Semicolon)?;
        let (body, test) = held;
        do_of(self.alloc, first, body, test, semicolon)
    }

    #[tactic(auto, unfolding(crate::specs::StatementReading::for_expression))]
    fn for_expression(&self, tokens: &mut Cursor<'_>) -> Result<ForFirst, ParseFault>
        ensures { Reads (at_level spec.for_expression self.now.here self.now.inside tokens.old) result tokens.new }
    {
        let (value, semicolon) = up_to(self.alloc, tokens, Word::Semicolon, self.inside)?;
        Ok(ForFirst::Expression(value, semicolon))
    }

    #[tactic(auto, unfolding(crate::specs::StatementReading::for_first))]
    fn for_first(&self, tokens: &mut Cursor<'_>) -> Result<ForFirst, ParseFault>
        ensures { Reads (at_level spec.for_first self.now.here self.now.inside tokens.old) result tokens.new }
    {
        if !begins_local(tokens.peek()) {
            return self.for_expression(tokens);
        }
        let found = local(self.alloc, tokens, self.inside)?;
        Ok(ForFirst::Local(found))
    }

    /// `for`, and what stands in parentheses after it.
    #[inline(never)]
    #[tactic(auto, unfolding(crate::specs::StatementReading::control))]
    fn control(&self, tokens: &mut Cursor<'_>) -> Result<Boxed<Control>, ParseFault>
        ensures { Reads (at_level spec.control self.now.here self.now.inside tokens.old) result tokens.new }
    {
        let first = tokens.expect(Word::For)?;
        let opening = tokens.expect(Word::LeftParen)?;
        let start = self.for_first(tokens)?;
        let (start, middle) = then_up_to(start, self.alloc, tokens, Word::Semicolon, self.inside)?;
        let (held, last) = then_up_to(
            (start, middle),
            self.alloc,
            tokens,
            Word::RightParen,
            self.inside,
        )?;
        let (start, middle) = held;
        let (test, semicolon) = middle;
        let (step, closing) = last;
        boxed(
            self.alloc,
            Control {
                first,
                opening,
                start,
                test,
                semicolon,
                step,
                closing,
            },
        )
    }

    #[tactic(auto, unfolding(crate::specs::StatementReading::for_loop), using(crate::proofs::Deep::deep_none, crate::proofs::Deep::deep_gives))]
    fn for_loop(&self, tokens: &mut Cursor<'_>) -> Result<Boxed<Stmt>, ParseFault>
        requires { Nests (stmt_at self.now.inside) self.now.inside (S.pre self.now.stmt) (S.post self.now.stmt) }
        ensures { Reads (deep self.now.inside (at_level spec.for_loop self.now.here self.now.inside) tokens.old) result tokens.new }
    {
        if self.inside == 0 {
            return Err(tokens.refuse());
        }
        let control = self.control(tokens)?;
        let (control, body) = self.then_stmt(control, tokens)?;
        for_of(self.alloc, control, body)
    }

    /// One more part of a block.
    #[tactic(auto, unfolding(crate::specs::StatementReading::one_more, crate::specs::StatementReading::block_part))]
    fn one_more(
        &self,
        held: Items<BlockPart>,
        tokens: &mut Cursor<'_>,
    ) -> Result<Items<BlockPart>, ParseFault>
        requires { Nests (stmt_at self.now.inside) self.now.inside (S.pre self.now.stmt) (S.post self.now.stmt) }
        ensures { Reads (at_level spec.one_more self.now.here self.now.inside held tokens.old) result tokens.new }
    {
        if begins_local(tokens.peek()) {
            return one_more_local(held, self.alloc, tokens, self.inside);
        }
        let (held, found) = self.then_stmt(held, tokens)?;
        push_stmt(held, found)
    }

    #[tactic(auto, unfolding(crate::specs::StatementReading::one_more))]
    fn parts(&self, tokens: &mut Cursor<'_>) -> Result<Items<BlockPart>, ParseFault>
        requires { Nests (stmt_at self.now.inside) self.now.inside (S.pre self.now.stmt) (S.post self.now.stmt) }
        ensures { Reads (run_at spec.begins_part (at_level spec.block_part self.now.here self.now.inside) tokens.old) result tokens.new }
    {
        let mut found = Items::new(self.alloc);
        for _turn in 0..tokens.left() {
            if !begins_part(tokens.peek()) {
                return Ok(found);
            }
            found = self.one_more(found, tokens)?;
        }
        Ok(found)
    }

    #[tactic(auto, unfolding(crate::specs::StatementReading::block))]
    fn block(&self, tokens: &mut Cursor<'_>) -> Result<Block, ParseFault>
        requires { Nests (stmt_at self.now.inside) self.now.inside (S.pre self.now.stmt) (S.post self.now.stmt) }
        ensures { Reads (at_level spec.block self.now.here self.now.inside tokens.old) result tokens.new }
    {
        let opening = tokens.expect(Word::LeftBrace)?;
        let parts = self.parts(tokens)?;
        let (parts, closing) = then_expect(parts, tokens, Word::RightBrace)?;
        Ok(Block {
            opening,
            parts,
            closing,
        })
    }

    fn block_stmt(&self, tokens: &mut Cursor<'_>) -> Result<Boxed<Stmt>, ParseFault>
        requires { Nests (stmt_at self.now.inside) self.now.inside (S.pre self.now.stmt) (S.post self.now.stmt) }
        ensures { Reads (at_level spec.block_stmt self.now.here self.now.inside tokens.old) result tokens.new }
    {
        let found = self.block(tokens)?;
        let found = Boxed::new(self.alloc, found)?;
        boxed(self.alloc, Stmt::Block(found))
    }

    #[tactic(auto, unfolding(crate::specs::StatementReading::stmt))]
    fn stmt(&self, tokens: &mut Cursor<'_>) -> Result<Boxed<Stmt>, ParseFault>
        requires { Nests (stmt_at self.now.inside) self.now.inside (S.pre self.now.stmt) (S.post self.now.stmt) }
        ensures { Reads (at_level spec.stmt self.now.here self.now.inside tokens.old) result tokens.new }
    {
        match tokens.peek() {
            Word::Semicolon => self.empty(tokens),
            Word::LeftBrace => self.block_stmt(tokens),
            Word::If => self.conditional(tokens),
            Word::While => self.while_loop(tokens),
            Word::Do => self.do_loop(tokens),
            Word::For => self.for_loop(tokens),
            Word::Break => self.break_stmt(tokens),
            Word::Continue => self.continue_stmt(tokens),
            Word::Return => self.return_stmt(tokens),
            Word::Ghost => self.ghost_code(tokens),
            Word::Assert => self.assertion(tokens),
            _ => self.expression(tokens),
        }
    }
}

/// A statement that nests less than `depth`.
#[tactic(auto, unfolding(crate::specs::StatementReading::stmt_at))]
fn stmt(alloc: Global, tokens: &mut Cursor<'_>, depth: usize) -> Result<Boxed<Stmt>, ParseFault>
    ensures { Reads (spec.stmt_at depth tokens.old) result tokens.new }
{
    if depth == 0 {
        return Err(tokens.refuse());
    }
    Statements {
        alloc,
        here: depth,
        inside: depth - 1,
        stmt,
    }
    .stmt(tokens)
}

/// A block that nests less than `depth`.
#[tactic(auto, unfolding(crate::specs::StatementReading::block_at))]
pub fn block(alloc: Global, tokens: &mut Cursor<'_>, depth: usize) -> Result<Block, ParseFault>
    ensures { Reads (spec.block_at depth tokens.old) result tokens.new }
{
    if depth == 0 {
        return Err(tokens.refuse());
    }
    Statements {
        alloc,
        here: depth,
        inside: depth - 1,
        stmt,
    }
    .block(tokens)
}
