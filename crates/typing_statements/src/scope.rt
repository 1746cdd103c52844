//! Scopes of blocks (C11 6.2.1, 4).

ghost use Rattle.std.specs.Prelude.{◌≡◌, Ok, OnOk};
ghost use Rattle.typing_rules.specs.Checked.{Gives};
ghost use Rattle.typing_rules.specs.Statements.{opened, closed};
ghost use Rattle.typing_statements.specs.Points.{outside, frame_at, IsReady};

use std::alloc::Global;
use typing_rules::fault::TypeFault;
use typing_scopes::known::Known;

/// A block begins.
pub fn open(alloc: Global, known: &mut Known<'_>) -> Result<(), TypeFault>
    requires { IsReady known.old }
    ensures memory { Gives (Ok tt) result }
    ensures frame { OnOk result (frame_at known.new ≡ opened (frame_at known.old)) }
    ensures same { OnOk result (outside known.new ≡ outside known.old) }
    ensures ready { OnOk result (IsReady known.new) }
{
    known.open_block(alloc)
}

/// The innermost block ends.
pub fn close(known: &mut Known<'_>)
    requires { IsReady known.old }
    ensures frame { frame_at known.new ≡ closed (frame_at known.old) }
    ensures same { outside known.new ≡ outside known.old }
    ensures ready { IsReady known.new }
{
    known.close_block();
}
