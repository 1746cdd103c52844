//! Counts that stand still at the end of their type.

ghost use Rattle.std.specs.Prelude.{◌≡◌};
ghost use Rattle.weave_base.specs.Calls.{one_more};

/// The count after one more call or fault.
pub(crate) fn count_up(count: u64) -> u64
    ensures { result ≡ one_more count }
{
    count.saturating_add(1)
}
