//! Parts of trees that other crates hold while they make others. A tree that is let go is proved to be let go in the crate
//! that does so, node by node; a part is let go here, once.

ghost use Rattle.std.specs.Prelude.{◌≡◌, [], ◌∷◌, ◌++◌, length, slice_get, IfOk, OnOk};

use crate::expr::{Expr, Place_};
use crate::letting_go::{Rest, all_go, let_go};
use crate::predicate::{Predicate, Term};
use crate::stmt::Stmt;
use sqlite_items::{Boxed, Items};
use std::alloc::{AllocError, Global};
use std::marker::Model;

/// An expression that another crate holds while it makes others. Contracts see it as the expression; this crate alone lets it go.
pub struct ExprPart {
    inner: Boxed<Expr>,
}

impl Model for ExprPart {
    ghost use Rattle.step_meaning.specs.declared.expr.Expr.{Expr};
    ghost use Rattle.step_meaning.specs.contracts.expr.Expr as tree;
    ghost use Rattle.std.specs.Coded.{codes};

    ghost Value = { Expr };

    ghost coded = { Prim.hlevel (codes, tree.the_row.coded) };

    ghost view = { λ part. part.inner };
}

impl Drop for ExprPart {
    fn drop(self) {
        let ExprPart { inner } = self;
        let_go(Rest::Value(inner.into_inner()));
    }
}

impl ExprPart {
    /// The part that holds this. An error is want of memory.
    pub fn new(alloc: Global, inner: Expr) -> Result<ExprPart, AllocError>
        ensures { IfOk result (λ part. part ≡ inner) }
    {
        let inner = Boxed::new(alloc, inner)?;
        Ok(ExprPart { inner })
    }

    /// What it holds.
    pub fn get(&self) -> &Expr
        ensures { result.now ≡ self.now }
    {
        self.inner.get()
    }

    /// What it holds, as a node of a tree.
    pub fn into_boxed(self) -> Boxed<Expr>
        ensures { result ≡ self }
    {
        let ExprPart { inner } = self;
        inner
    }
}

/// Expressions that another crate holds while it makes others. Contracts see them as their list; this crate alone lets them go.
pub struct ExprsPart {
    inner: Items<Expr>,
}

impl Model for ExprsPart {
    ghost use Rattle.std.specs.Prelude.{List};
    ghost use Rattle.step_meaning.specs.declared.expr.Expr.{Expr};
    ghost use Rattle.step_meaning.specs.contracts.expr.Expr as tree;
    ghost use Rattle.std.specs.Coded.{codes};

    ghost Value = { List Expr };

    ghost coded = { Prim.hlevel (codes, tree.the_row.coded) };

    ghost view = { λ part. part.inner };
}

impl Drop for ExprsPart {
    fn drop(self) {
        let ExprsPart { inner } = self;
        all_go(inner);
    }
}

impl ExprsPart {
    /// No expressions yet.
    pub fn new(alloc: Global) -> ExprsPart
        ensures { result ≡ [] }
    {
        ExprsPart {
            inner: Items::new(alloc),
        }
    }

    /// One more. An error is want of memory.
    pub fn push(&mut self, part: ExprPart) -> Result<(), AllocError>
        ensures { OnOk result (self.new ≡ self.old ++ part ∷ []) }
    {
        self.inner.push(part.into_boxed().into_inner())
    }

    /// How many they are.
    pub fn len(&self) -> usize
        ensures { result ≡ length self.now }
    {
        self.inner.len()
    }

    /// The first of them. An error is want of memory.
    pub fn into_first(self, alloc: Global) -> Result<Option<ExprPart>, AllocError>
        ensures { IfOk result (λ first. first ≡ slice_get self 0) }
    {
        let mut items = self.into_items();
        if items.is_empty() {
            return Ok(None);
        }
        let first = ExprPart::new(alloc, items.remove(0))?;
        Ok(Some(first))
    }

    /// What it holds, as a node's list.
    pub fn into_items(self) -> Items<Expr>
        ensures { result ≡ self }
    {
        let ExprsPart { inner } = self;
        inner
    }
}

/// An lvalue that another crate holds while it makes others. Contracts see it as the lvalue; this crate alone lets it go.
pub struct PlacePart {
    inner: Boxed<Place_>,
}

impl Model for PlacePart {
    ghost use Rattle.step_meaning.specs.declared.expr.Place_.{Place_};
    ghost use Rattle.step_meaning.specs.contracts.expr.Place_ as tree;
    ghost use Rattle.std.specs.Coded.{codes};

    ghost Value = { Place_ };

    ghost coded = { Prim.hlevel (codes, tree.the_row.coded) };

    ghost view = { λ part. part.inner };
}

impl Drop for PlacePart {
    fn drop(self) {
        let PlacePart { inner } = self;
        let_go(Rest::Lvalue(inner.into_inner()));
    }
}

impl PlacePart {
    /// The part that holds this. An error is want of memory.
    pub fn new(alloc: Global, inner: Place_) -> Result<PlacePart, AllocError>
        ensures { IfOk result (λ part. part ≡ inner) }
    {
        let inner = Boxed::new(alloc, inner)?;
        Ok(PlacePart { inner })
    }

    /// What it holds.
    pub fn get(&self) -> &Place_
        ensures { result.now ≡ self.now }
    {
        self.inner.get()
    }

    /// What it holds, as a node of a tree.
    pub fn into_boxed(self) -> Boxed<Place_>
        ensures { result ≡ self }
    {
        let PlacePart { inner } = self;
        inner
    }
}

/// A statement that another crate holds while it makes others. Contracts see it as the statement; this crate alone lets it go.
pub struct StmtPart {
    inner: Boxed<Stmt>,
}

impl Model for StmtPart {
    ghost use Rattle.step_meaning.specs.declared.stmt.Stmt.{Stmt};
    ghost use Rattle.step_meaning.specs.contracts.stmt.Stmt as tree;
    ghost use Rattle.std.specs.Coded.{codes};

    ghost Value = { Stmt };

    ghost coded = { Prim.hlevel (codes, tree.the_row.coded) };

    ghost view = { λ part. part.inner };
}

impl Drop for StmtPart {
    fn drop(self) {
        let StmtPart { inner: _inner } = self;
    }
}

impl StmtPart {
    /// The part that holds this. An error is want of memory.
    pub fn new(alloc: Global, inner: Stmt) -> Result<StmtPart, AllocError>
        ensures { IfOk result (λ part. part ≡ inner) }
    {
        let inner = Boxed::new(alloc, inner)?;
        Ok(StmtPart { inner })
    }

    /// What it holds.
    pub fn get(&self) -> &Stmt
        ensures { result.now ≡ self.now }
    {
        self.inner.get()
    }

    /// What it holds, as a node of a tree.
    pub fn into_boxed(self) -> Boxed<Stmt>
        ensures { result ≡ self }
    {
        let StmtPart { inner } = self;
        inner
    }
}

/// Statements that another crate holds while it makes others. Contracts see them as their list; this crate alone lets them go.
pub struct StmtsPart {
    inner: Items<Stmt>,
}

impl Model for StmtsPart {
    ghost use Rattle.std.specs.Prelude.{List};
    ghost use Rattle.step_meaning.specs.declared.stmt.Stmt.{Stmt};
    ghost use Rattle.step_meaning.specs.contracts.stmt.Stmt as tree;
    ghost use Rattle.std.specs.Coded.{codes};

    ghost Value = { List Stmt };

    ghost coded = { Prim.hlevel (codes, tree.the_row.coded) };

    ghost view = { λ part. part.inner };
}

impl Drop for StmtsPart {
    fn drop(self) {
        let StmtsPart { inner: _inner } = self;
    }
}

impl StmtsPart {
    /// The part that holds these.
    pub fn new(inner: Items<Stmt>) -> StmtsPart
        ensures { result ≡ inner }
    {
        StmtsPart { inner }
    }

    /// No statements yet.
    pub fn empty(alloc: Global) -> StmtsPart
        ensures { result ≡ [] }
    {
        StmtsPart {
            inner: Items::new(alloc),
        }
    }

    /// One more. An error is want of memory.
    pub fn push(&mut self, part: StmtPart) -> Result<(), AllocError>
        ensures { OnOk result (self.new ≡ self.old ++ part ∷ []) }
    {
        self.inner.push(part.into_boxed().into_inner())
    }

    /// More after these. An error is want of memory.
    pub fn append(&mut self, more: StmtsPart) -> Result<(), AllocError>
        ensures { OnOk result (self.new ≡ self.old ++ more) }
    {
        self.inner.append(more.into_items())
    }

    /// What it holds.
    pub fn get(&self) -> &Items<Stmt>
        ensures { result.now ≡ self.now }
    {
        &self.inner
    }

    /// What it holds, as a node's list.
    pub fn into_items(self) -> Items<Stmt>
        ensures { result ≡ self }
    {
        let StmtsPart { inner } = self;
        inner
    }
}

/// A term that another crate holds while it makes others. Contracts see it as the term; this crate alone lets it go.
pub struct TermPart {
    inner: Boxed<Term>,
}

impl Model for TermPart {
    ghost use Rattle.step_meaning.specs.declared.predicate.Term.{Term};
    ghost use Rattle.step_meaning.specs.contracts.predicate.Term as tree;
    ghost use Rattle.std.specs.Coded.{codes};

    ghost Value = { Term };

    ghost coded = { Prim.hlevel (codes, tree.the_row.coded) };

    ghost view = { λ part. part.inner };
}

impl Drop for TermPart {
    fn drop(self) {
        let TermPart { inner: _inner } = self;
    }
}

impl TermPart {
    /// The part that holds this. An error is want of memory.
    pub fn new(alloc: Global, inner: Term) -> Result<TermPart, AllocError>
        ensures { IfOk result (λ part. part ≡ inner) }
    {
        let inner = Boxed::new(alloc, inner)?;
        Ok(TermPart { inner })
    }

    /// What it holds.
    pub fn get(&self) -> &Term
        ensures { result.now ≡ self.now }
    {
        self.inner.get()
    }

    /// What it holds, as a node of a tree.
    pub fn into_boxed(self) -> Boxed<Term>
        ensures { result ≡ self }
    {
        let TermPart { inner } = self;
        inner
    }
}

/// A predicate that another crate holds while it makes others. Contracts see it as the predicate; this crate alone lets it go.
pub struct PredicatePart {
    inner: Boxed<Predicate>,
}

impl Model for PredicatePart {
    ghost use Rattle.step_meaning.specs.declared.predicate.Predicate.{Predicate};
    ghost use Rattle.step_meaning.specs.contracts.predicate.Predicate as tree;
    ghost use Rattle.std.specs.Coded.{codes};

    ghost Value = { Predicate };

    ghost coded = { Prim.hlevel (codes, tree.the_row.coded) };

    ghost view = { λ part. part.inner };
}

impl Drop for PredicatePart {
    fn drop(self) {
        let PredicatePart { inner: _inner } = self;
    }
}

impl PredicatePart {
    /// The part that holds this. An error is want of memory.
    pub fn new(alloc: Global, inner: Predicate) -> Result<PredicatePart, AllocError>
        ensures { IfOk result (λ part. part ≡ inner) }
    {
        let inner = Boxed::new(alloc, inner)?;
        Ok(PredicatePart { inner })
    }

    /// What it holds.
    pub fn get(&self) -> &Predicate
        ensures { result.now ≡ self.now }
    {
        self.inner.get()
    }

    /// What it holds, as a node of a tree.
    pub fn into_boxed(self) -> Boxed<Predicate>
        ensures { result ≡ self }
    {
        let PredicatePart { inner } = self;
        inner
    }
}
