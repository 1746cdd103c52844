//! Calls: their arguments, and the end of an activation (C11 6.5.2.2, 6.8.6.4, 6.9.1).

ghost use Rattle.std.specs.Prelude.{◌≡◌, ◌∷◌, ◌==◌, ◌+◌, ◌<◌, ◌≤◌, [], MatchOption, is_some, length};
ghost use Rattle.step_meaning.specs.Calls.{value_or_zero};
ghost use Rattle.step_meaning.specs.ExpressionTypes.{is_void as has_no_value};
ghost use Rattle.run_turns.specs.Turns.{argued, arguing, closed, fallen_off, given_back, returned};
ghost use Rattle.run_state.specs.Machine.{completion_of, configuration_of, ended, fixed_of};
ghost use Rattle.run_arms.specs.Calls.{IsOpen, ended_where};

use run_state::{Left, Machine, Told, Work};
use step_meaning::{CType, Expr, RunFault, Value};

/// The first item of a list and those after it, or nothing of an empty list.
fn split<T>(items: &[T]) -> Option<(&T, &[T])>
    ensures { MatchOption result (items.now ≡ []) (λ p. items.now ≡ p.0.now ∷ p.1.now) }
{
    match items {
        [] => None,
        [first, rest @ ..] => Some((first, rest)),
    }
}

/// The next argument of a call begins, or where there is none the call is made, which is a step. Answers whether it made one.
pub fn argue<'a>(machine: &mut Machine<'a>, function: u32, es: &'a [Expr], n: usize) -> bool
    requires free { length machine.old.work.0 + 2 ≤ machine.old.work.1 }
    ensures fixed { fixed_of machine.new ≡ fixed_of machine.old }
    ensures made { result ≡ is_some (arguing function es.now n (configuration_of machine.old)).step }
    ensures turned { configuration_of machine.new ≡ (arguing function es.now n (configuration_of machine.old)).after }
{
    match split(es) {
        None => {
            machine.work.push(Work::Enter(function, n));
            true
        }
        Some((first, rest)) => {
            machine.push_two(Work::Argument(function, rest, n), Work::Evaluate(first));
            false
        }
    }
}

/// Keeps the value of an argument.
pub fn argument<'a>(machine: &mut Machine<'a>, function: u32, es: &'a [Expr], n: usize, v: Value)
    requires free { length machine.old.work.0 < machine.old.work.1 }
    requires room { length machine.old.arguments.0 < machine.old.arguments.1 }
    requires counted { n ≤ length machine.old.arguments.0 }
    ensures fixed { fixed_of machine.new ≡ fixed_of machine.old }
    ensures turned { configuration_of machine.new ≡ argued function es.now n v (configuration_of machine.old) }
{
    machine.arguments.push(v);
    // there are more than n arguments, so the sum fits
    let _count = machine.arguments.len();
    machine.work.push(Work::Arguments(function, es, n + 1));
    machine.told = Told::Left(Left::Next);
}

/// Ends an activation of the function with this number, which gives this back.
#[tactic(auto, using(crate::proofs::SizeLaws::sizes_after))]
fn close(machine: &mut Machine<'_>, function: u32, v: Option<Value>)
    requires open { IsOpen machine.old }
    ensures fixed { fixed_of machine.new ≡ ended (fixed_of machine.old) }
    ensures turned { configuration_of machine.new ≡ (closed function v (configuration_of machine.old)).after }
{
    machine.memory.close();
    machine.ghosts.close();
    machine.registers.close();
    let Some(caller) = machine.callers.pop() else {
        unreachable!()
    };
    machine.function = caller.function;
    machine.activation = caller.activation;
    machine.told = Told::Gave(given_value(v));
}

/// What a call gives that gave this back: 0 where it has no value, which isn't used.
fn given_value(v: Option<Value>) -> Value
    ensures { result ≡ value_or_zero v }
{
    match v {
        None => Value::Int(0),
        Some(v) => v,
    }
}

/// Whether a type is `void`.
fn is_void(ctype: &CType) -> bool
    ensures { result ≡ has_no_value ctype.now }
{
    match ctype {
        CType::Void => true,
        CType::Int(_) => false,
        CType::Pointer(_) => false,
        CType::Array(_, _) => false,
        CType::Struct(_) => false,
    }
}

/// Ends an activation by `return`, and answers whether that made a step.
fn give_back(machine: &mut Machine<'_>, function: u32, ctype: &CType, v: Option<Value>) -> bool
    requires free { length machine.old.work.0 < machine.old.work.1 }
    requires open { IsOpen machine.old }
    ensures fixed { fixed_of machine.new ≡ ended_where result (fixed_of machine.old) }
    ensures made { result ≡ is_some (returned function ctype.now v (configuration_of machine.old)).step }
    ensures turned { configuration_of machine.new ≡ (returned function ctype.now v (configuration_of machine.old)).after }
{
    if is_void(ctype) != v.is_none() {
        machine.spend();
        return false;
    }
    close(machine, function, v);
    true
}

/// Ends an activation whose body came to its `}`, and answers whether that made a step.
fn fall_off(machine: &mut Machine<'_>, function: u32, is_main: bool, ctype: &CType) -> bool
    requires free { length machine.old.work.0 < machine.old.work.1 }
    requires open { IsOpen machine.old }
    ensures fixed { fixed_of machine.new ≡ ended_where result (fixed_of machine.old) }
    ensures made { result ≡ is_some (fallen_off function is_main ctype.now (configuration_of machine.old)).step }
    ensures turned { configuration_of machine.new ≡ (fallen_off function is_main ctype.now (configuration_of machine.old)).after }
{
    if is_main {
        close(machine, function, Some(Value::Int(0)));
        return true;
    }
    if is_void(ctype) {
        close(machine, function, None);
        return true;
    }
    machine.halt(RunFault::NoReturn);
    false
}

/// Ends an activation of the function with this number and result, whose body was left in this way, and answers whether that made a step.
pub fn leave(machine: &mut Machine<'_>, function: u32, ctype: &CType, l: Left) -> bool
    requires free { length machine.old.work.0 < machine.old.work.1 }
    requires open { IsOpen machine.old }
    ensures fixed { fixed_of machine.new ≡ ended_where result (fixed_of machine.old) }
    ensures made { result ≡ is_some (given_back function (function == machine.old.core.now.start) ctype.now (completion_of l) (configuration_of machine.old)).step }
    ensures turned { configuration_of machine.new ≡ (given_back function (function == machine.old.core.now.start) ctype.now (completion_of l) (configuration_of machine.old)).after }
{
    match l {
        Left::Returned(v) => give_back(machine, function, ctype, v),
        Left::Next => fall_off(machine, function, function == machine.core.start, ctype),
        Left::Broken => {
            machine.spend();
            false
        }
        Left::Continued => {
            machine.spend();
            false
        }
    }
}
