//! Laws on expressions.

ghost use Rattle.c_expressions.specs.Exactness.{ReadsExpressions, HaveOneExpression};

/// What `assign` reads is what the grammar says, at every nesting, and leaves spell at most one expression.
pub fn one_expression()
    ensures reads { ReadsExpressions }
    ensures one { HaveOneExpression }
{}
