//! Operands: what an expression is, before a rule takes it. They hold trees as parts, which the crates of the trees let go.

ghost use Rattle.std.specs.Prelude.{◌≡◌, IfOk};

use c_lexer::Place;
use sqlite_items::{Boxed, Items};
use std::alloc::{AllocError, Global};
use std::marker::Model;
use step_meaning::{CType, ExprPart, PlacePart, Variable};

/// A type that is held while others are made. Contracts see it as the type.
pub struct TypePart {
    inner: Boxed<CType>,
}

impl Model for TypePart {
    ghost use Rattle.step_meaning.specs.declared.value.CType.{CType};
    ghost use Rattle.step_meaning.specs.contracts.value.CType as tree;
    ghost use Rattle.std.specs.Coded.{codes};

    ghost Value = { CType };

    ghost coded = { Prim.hlevel (codes, tree.the_row.coded) };

    ghost view = { λ part. part.inner };
}

impl Drop for TypePart {
    fn drop(self) {
        let TypePart { inner: _inner } = self;
    }
}

impl TypePart {
    /// The part that holds this. An error is want of memory.
    pub fn new(alloc: Global, inner: CType) -> Result<TypePart, AllocError>
        ensures { IfOk result (λ part. part ≡ inner) }
    {
        let inner = Boxed::new(alloc, inner)?;
        Ok(TypePart { inner })
    }

    /// What it holds.
    pub fn get(&self) -> &CType
        ensures { result.now ≡ self.now }
    {
        self.inner.get()
    }

    /// What it holds, as a node of a type.
    pub fn into_boxed(self) -> Boxed<CType>
        ensures { result ≡ self }
    {
        let TypePart { inner } = self;
        inner
    }
}

/// What the rules on null pointer constants and on casts see of a value. Parentheses change nothing of it.
#[derive(Clone, Copy, PartialEq, Eq)]
pub enum Origin {
    /// The literal `0`: an integer, and a null pointer constant (C11 6.3.2.3, 3).
    ZeroLiteral,
    /// `(void *) 0`, a null pointer constant.
    NullPointer,
    /// A call of `malloc`, which a cast to its own type may stand before.
    Allocation,
    /// Any other value.
    Other,
}

/// What an expression is.
#[derive(Drop)]
pub enum What {
    /// An lvalue, and the type of its object (C11 6.3.2.1, 1).
    At(PlacePart, TypePart),
    /// A value and its type.
    Made(Origin, ExprPart, TypePart),
}

/// What an expression is, and where its first token stands.
#[derive(Drop)]
pub struct Operand {
    pub first: Place,
    pub what: What,
}

/// A value of a scalar type, or none where the type is `void`.
#[derive(Drop)]
pub struct Value {
    /// The place of the expression's first token.
    pub first: Place,
    pub expr: ExprPart,
    pub ctype: TypePart,
    pub origin: Origin,
}

/// What a name stands for (C11 6.2.1).
#[derive(Drop)]
pub enum Entry {
    /// A variable and its type.
    Variable(Variable, TypePart),
    /// A function's number, the type of its value, and the types of its parameters.
    Function(u32, TypePart, Items<TypePart>),
}
