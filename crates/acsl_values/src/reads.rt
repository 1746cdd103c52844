ghost use Rattle.std.specs.Prelude.{◌≡◌, ◌<◌, ◌^◌, option_map, pos};
ghost use Rattle.step_meaning.specs.Views.{or_nothing};
ghost use Rattle.step_meaning.specs.Terms.{value_in_cell, with_value, read_at, parameter_at, result_at, term_value};
ghost use Rattle.acsl_values.specs.Seen.{meant, meant_if_any, reads_at};

use crate::values::{Moment, TermValue, held, held_in};
use step_meaning::{CType, Cell, Event, Name, View};

/// What a read at an offset of a variable reaches; nothing where it isn't allowed.
fn cell_at<V: View>(view: &V, moment: Moment, name: &Name, offset: u32, ctype: &CType) -> Cell
    ensures { result ≡ or_nothing (reads_at (V.sight view.now) moment name.now offset ctype.now) }
{
    match moment {
        Moment::Now => view.cell(name, offset, ctype),
        Moment::Enter => view.pre(name, offset, ctype),
    }
}

/// The value at an offset of a variable.
#[tactic(auto, using(crate::proofs::CellLaws::value_of_answer))]
fn read_in<V: View>(
    view: &V,
    moment: Moment,
    name: &Name,
    offset: u32,
    ctype: &CType,
) -> Option<TermValue>
    ensures { meant_if_any result ≡ value_in_cell (reads_at (V.sight view.now) moment name.now offset ctype.now) }
{
    held_in(cell_at(view, moment, name, offset, ctype))
}

/// The value that a pointer designates.
#[tactic(auto, using(crate::proofs::CellLaws::read_inside, crate::proofs::CellLaws::read_below, crate::proofs::CellLaws::read_beyond))]
fn read<V: View>(view: &V, moment: Moment, pointer: TermValue, ctype: &CType) -> Option<TermValue>
    ensures { meant_if_any result ≡ read_at (reads_at (V.sight view.now) moment) ctype.now (meant pointer) }
{
    match pointer {
        TermValue::Number(_) | TermValue::Null => None,
        TermValue::Pointer(name, offset) => {
            if 0 <= offset && offset < 1 << 32 {
                read_in(view, moment, &name, offset as u32, ctype)
            } else {
                None
            }
        }
    }
}

/// The value that a pointer designates, where the pointer is defined.
pub(crate) fn read_if_any<V: View>(
    view: &V,
    moment: Moment,
    pointer: Option<TermValue>,
    ctype: &CType,
) -> Option<TermValue>
    ensures { meant_if_any result ≡ with_value (meant_if_any pointer) (read_at (reads_at (V.sight view.now) moment) ctype.now) }
{
    match pointer {
        None => None,
        Some(pointer) => read(view, moment, pointer, ctype),
    }
}

/// The pointer of the step's access.
pub(crate) fn accessed<V: View>(view: &V) -> Option<TermValue>
    ensures { meant_if_any result ≡ option_map term_value (V.sight view.now).accessed }
{
    match view.accessed() {
        None => None,
        Some(value) => Some(held(value)),
    }
}

/// A parameter of a function, at its call.
#[tactic(auto, using(crate::proofs::CellLaws::argument_of_answer))]
pub(crate) fn parameter<V: View>(view: &V, function: u32, index: u32) -> Option<TermValue>
    ensures { meant_if_any result ≡ parameter_at (V.sight view.now).event function (V.sight view.now).arguments index }
{
    match view.event() {
        Event::Enter(entered) => {
            if function == entered {
                held_in(view.parameter(index))
            } else {
                None
            }
        }
        Event::Nothing | Event::Return(_) => None,
    }
}

/// The value of a function, at its return.
#[tactic(auto, using(crate::proofs::CellLaws::result_of_answer))]
pub(crate) fn result_of<V: View>(view: &V, function: u32) -> Option<TermValue>
    ensures { meant_if_any result ≡ result_at (V.sight view.now).event function (V.sight view.now).result }
{
    match view.event() {
        Event::Return(returned) => {
            if function == returned {
                held_in(view.result())
            } else {
                None
            }
        }
        Event::Nothing | Event::Enter(_) => None,
    }
}
