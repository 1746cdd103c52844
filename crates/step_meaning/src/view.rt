ghost use Rattle.std.specs.Prelude.{◌≡◌};
ghost use Rattle.step_meaning.specs.Names.{name_in};
ghost use Rattle.step_meaning.specs.Views.{Sight, cell_now, cell_at_enter, is_allowed_now, nth_cell, cell_of};

use crate::expr::Variable;
use crate::predicate::Event;
use crate::program::Layout;
use crate::value::{CType, Cell, Name, Value};

/// What a predicate sees of a step.
pub trait View {
    /// All that is seen.
    ghost sight: { Self → Sight };

    /// The name of a variable of the text in the step's activation.
    fn name_of(&self, v: &Variable) -> Name
        ensures { result ≡ name_in (sight self.now).activation v.now };

    /// The cell at the offset of the variable, in the step's own memory; `Nothing` where no access at the type is allowed.
    fn cell(&self, n: &Name, offset: u32, ctype: &CType) -> Cell
        ensures { result ≡ cell_now (sight self.now) n.now offset ctype.now };

    /// Whether an access at the type is allowed there, in the step's own memory.
    fn allowed(&self, n: &Name, offset: u32, ctype: &CType) -> bool
        ensures { result ≡ is_allowed_now (sight self.now) n.now offset ctype.now };

    /// The layouts of the core that the step belongs to.
    fn layouts(&self) -> &[Layout]
        ensures { result.now ≡ (sight self.now).layouts };

    /// The cell in the memory of the activation's Enter step; `Nothing` where no access at the type is allowed there.
    fn pre(&self, n: &Name, offset: u32, ctype: &CType) -> Cell
        ensures { result ≡ cell_at_enter (sight self.now) n.now offset ctype.now };

    /// The pointer that a Read or Write step accesses.
    fn accessed(&self) -> Option<Value>
        ensures { result ≡ (sight self.now).accessed };

    /// The number of the function that a Call, Input, Output, Malloc or Free step calls.
    fn called(&self) -> Option<u32>
        ensures { result ≡ (sight self.now).called };

    /// The event that the step is.
    fn event(&self) -> Event
        ensures { result ≡ (sight self.now).event };

    /// The argument with this number of an Enter step; `Nothing` where there is none.
    fn parameter(&self, index: u32) -> Cell
        ensures { result ≡ nth_cell (sight self.now).arguments index };

    /// The value of a Return step; `Nothing` where there is none.
    fn result(&self) -> Cell
        ensures { result ≡ cell_of (sight self.now).result };
}
