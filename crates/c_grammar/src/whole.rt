//! Expressions as other trees hold them: in a box, and seen as the expressions themselves. Only this crate lets one go, so that
//! the drop of the sixteen types of an expression is proved here alone.

ghost use Rattle.std.specs.Prelude.{◌≡◌, IfOk};

use crate::expression::{Assign, Choice};
use sqlite_items::Boxed;
use std::alloc::{AllocError, Global};
use std::marker::Model;

/// An expression (C11 6.5.17, without the comma operator).
pub struct Expression {
    tree: Boxed<Assign>,
}

impl Model for Expression {
    ghost use Rattle.c_grammar.specs.declared.expression.Assign.{Assign};
    ghost use Rattle.c_grammar.specs.contracts.expression.Assign as assign;
    ghost use Rattle.std.specs.Coded.{codes};

    ghost Value = { Assign };

    ghost coded = { Prim.hlevel (codes, assign.the_row.coded) };

    ghost view = { λ e. e.tree };
}

impl Drop for Expression {
    fn drop(self) {
        let Expression { tree: _tree } = self;
    }
}

impl Expression {
    pub fn new(alloc: Global, tree: Assign) -> Result<Expression, AllocError>
        ensures { IfOk result (λ e. e ≡ tree) }
    {
        let tree = Boxed::new(alloc, tree)?;
        Ok(Expression { tree })
    }

    pub fn get(&self) -> &Assign
        ensures { result.now ≡ self.now }
    {
        self.tree.get()
    }
}

/// A conditional expression (C11 6.5.15), as a constant expression is (6.6).
pub struct Conditional {
    tree: Boxed<Choice>,
}

impl Model for Conditional {
    ghost use Rattle.c_grammar.specs.declared.expression.Choice.{Choice};
    ghost use Rattle.c_grammar.specs.contracts.expression.Choice as choice;
    ghost use Rattle.std.specs.Coded.{codes};

    ghost Value = { Choice };

    ghost coded = { Prim.hlevel (codes, choice.the_row.coded) };

    ghost view = { λ e. e.tree };
}

impl Drop for Conditional {
    fn drop(self) {
        let Conditional { tree: _tree } = self;
    }
}

impl Conditional {
    pub fn new(alloc: Global, tree: Choice) -> Result<Conditional, AllocError>
        ensures { IfOk result (λ e. e ≡ tree) }
    {
        let tree = Boxed::new(alloc, tree)?;
        Ok(Conditional { tree })
    }

    pub fn get(&self) -> &Choice
        ensures { result.now ≡ self.now }
    {
        self.tree.get()
    }
}
