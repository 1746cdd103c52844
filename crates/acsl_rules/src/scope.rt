//! What the names of a term or predicate may stand for.

use step_meaning::{CType, Core, Text, Variable};

/// The context of a meta-property (MetAcsl, contexts).
#[derive(Clone, Copy, Debug, PartialEq, Eq)]
pub enum Context {
    Writing,
    Reading,
    Calling,
    Precond,
    Postcond,
    Weak,
    Strong,
}

/// Where a term or predicate stands.
#[derive(Clone, Copy, Debug, PartialEq, Eq)]
pub enum ScopeKind {
    /// In a meta-property with this context.
    Meta(Context),
    /// In a condition of a Ya text.
    Ya,
    /// In an annotation of a woven text.
    Woven,
}

/// A variable in scope.
#[derive(Drop)]
pub struct Entry {
    pub name: Text,
    pub variable: Variable,
    pub ctype: CType,
}

/// The variables in scope, which have distinct names, and the functions and structs of a core.
pub struct Scope<'a> {
    pub kind: ScopeKind,
    pub entries: Vec<Entry>,
    pub core: &'a Core,
}
