use crate::expr::{CompareOp, IntOp, Variable};
use crate::value::CType;
use sqlite_items::{Boxed, Items};

/// An lvalue in a term (ACSL, memory locations). Offsets and sizes count cells.
#[cycle(term)]
#[derive(Drop)]
pub enum TermPlace {
    /// A variable.
    Own(Variable),
    /// `*t`, and with a `Member` around it `t->m`.
    Deref(Boxed<Term>),
    /// The member at the offset, `p.m`.
    Member(Boxed<TermPlace>, u32),
    /// The element of an array, `a[t]`; the number is the element's size.
    Index(Boxed<TermPlace>, Boxed<Term>, u32),
}

/// A term (ACSL, terms). Its integers are mathematical integers.
#[cycle(term)]
#[derive(Drop)]
pub enum Term {
    /// An integer constant.
    Int(i128),
    /// `\null`, and the literal 0 beside a pointer.
    Null,
    /// The value at the place, of this scalar type.
    Load(TermPlace, CType),
    /// The address of the place, a pointer to this type.
    Address(TermPlace, CType),
    /// Unary minus.
    Neg(Boxed<Term>),
    /// `+`, `-`, `*`, `/` or `%`.
    Arith(IntOp, Boxed<Term>, Boxed<Term>),
    /// A pointer plus an integer, in elements of so many cells.
    Move(Boxed<Term>, Boxed<Term>, u32),
    /// `\at(place, Pre)`: the value at the place in the memory of the activation's Enter step.
    AtPre(TermPlace, CType),
    /// `\written` or `\read`: the pointer of the step's access.
    Accessed,
    /// `f().x`: the parameter with this number of the function with that number, at its call.
    Parameter(u32, u32),
    /// `f().\result`: the value of the function with this number, at its return.
    Result(u32),
}

/// A location (ACSL, memory locations): the objects of the type at a pointer.
#[derive(Drop)]
pub struct Location {
    /// The pointer.
    pub base: Term,
    /// The object's type, where `Void` stands for one cell of no known type.
    pub ctype: CType,
    /// The range `(a .. b)` of objects; none means the object pointed to.
    pub span: Option<(Term, Term)>,
}

/// Which events of a function are meant.
#[derive(Clone, Copy, PartialEq, Eq)]
pub enum EventKind {
    /// `CALL`
    Call,
    /// `RETURN`
    Return,
    /// `COR`: both.
    Either,
}

/// A predicate (ACSL, predicates).
#[derive(Drop)]
pub enum Predicate {
    /// `\true`
    True,
    /// `\false`
    False,
    /// `!`
    Not(Boxed<Predicate>),
    /// `&&`
    And(Boxed<Predicate>, Boxed<Predicate>),
    /// `||`
    Or(Boxed<Predicate>, Boxed<Predicate>),
    /// `==>`
    Implies(Boxed<Predicate>, Boxed<Predicate>),
    /// `<==>`
    Iff(Boxed<Predicate>, Boxed<Predicate>),
    /// A relation between two terms.
    Relation(CompareOp, Term, Term),
    /// `\valid` and `\valid_read`.
    Valid(Location),
    /// `\separated`
    Separated(Items<Location>),
    /// `\called == f`, or `\called != f` where the flag is false.
    Called(u32, bool),
    /// `CALL(f)`, `RETURN(f)` or `COR(f)`.
    Event(EventKind, u32),
}

/// The event that a step is, by the function's number.
#[derive(Clone, Copy, PartialEq, Eq)]
pub enum Event {
    /// No event.
    Nothing,
    /// The function is entered.
    Enter(u32),
    /// The function returns.
    Return(u32),
}
