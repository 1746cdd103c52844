//! How deep the deepest of the parts of a declarator nests.

ghost use Rattle.std.specs.Prelude.{◌≡◌, ◌-◌, ◌^◌, ◌<◌, ◌≤◌, max};
ghost use Rattle.c_grammar.specs.Expressions.{choice};

use c_grammar::expression::Choice;
use c_nesting::nesting::choice_fits;

/// How deep the size nests, which is at least `low` and below `high`.
fn nesting_between(size: &Choice, low: usize, high: usize) -> usize
    requires low { low ≤ (choice size.now).nesting }
    requires high { (choice size.now).nesting < high }
    ensures { result ≡ (choice size.now).nesting }
{
    let mut low = low;
    let mut high = high;
    while high - low > 1 {
        let middle = low + (high - low) / 2;
        if choice_fits(size, middle) {
            high = middle;
        } else {
            low = middle;
        }
    }
    low
}

/// The greater of `before` and of how deep the size nests, which is below `limit`. A size that nests no deeper is looked at once.
pub fn deepest(before: usize, size: &Choice, limit: usize) -> usize
    requires before { before < 2 ^ 64 - 1 }
    requires size { (choice size.now).nesting < limit }
    ensures deepest { result ≡ max before (choice size.now).nesting }
    ensures within { before < limit → result < limit }
{
    if choice_fits(size, before + 1) {
        before
    } else {
        nesting_between(size, before + 1, limit)
    }
}
