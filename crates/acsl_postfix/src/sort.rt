//! What was read.

/// What stands where a term, a predicate or a range may stand.
#[derive(Clone, Copy)]
pub enum Sort {
    Term,
    Predicate,
    /// `(a .. b)`
    Range,
}
