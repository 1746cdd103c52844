//! Full expressions (C11 6.8, 4).

ghost use Rattle.std.specs.Prelude.{◌≡◌, IfOk};
ghost use Rattle.typing_laws.specs.SmallTypes.{IsSmall, IsSmallValue};
ghost use Rattle.typing_rules.specs.Checked.{Gives};
ghost use Rattle.typing_rules.specs.Expressions as spec;
ghost use Rattle.typing_rules.specs.TreesOfExpressions as trees;
ghost use Rattle.typing_scopes.specs.Known.{known as environment};

use crate::expression::assign;
use c_grammar::expression::Assign;
use c_words::word::Mode;
use std::alloc::Global;
use typing_nodes::nodes;
use typing_rules::fault::TypeFault;
use typing_rules::operand::Value;
use typing_scopes::known::Known;
use typing_steps::rule::valued;

/// The most nodes of a full expression.
fn most_nodes(known: &Known) -> u64
    ensures { result ≡ spec.most_nodes (environment known.now) known.now.mode }
{
    match known.mode {
        Mode::Source => 500,
        Mode::Woven => 4000,
    }
}

/// A full expression as a value: its own rules, then its size.
#[tactic(auto, unfolding(typing_rules::specs::Expressions::full, typing_rules::specs::Checked::unless))]
pub fn full(alloc: Global, known: &Known, e: &Assign) -> Result<Value, TypeFault>
    requires { IsSmall (environment known.now) }
    ensures gives { Gives (spec.full (environment known.now) (trees.assign e.now)) result }
    ensures small { IfOk result (λ v. IsSmallValue known.now.layouts v) }
{
    let a = assign(alloc, known, e)?;
    let first = a.first;
    let v = valued(alloc, known, a)?;
    if nodes::assign(e, most_nodes(known) + 1) == 0 {
        return Err(TypeFault::TooLarge(first));
    }
    Ok(v)
}
