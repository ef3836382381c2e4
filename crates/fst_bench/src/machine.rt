// Runs of code.

use fst_base::{Op, OutOfMemory, Seq, Value, one};
use fst_code::Code;
use fst_machine::{Answer, Machine, is_ready};
use fst_program::Effect;
use fst_samples::{
    Function, add, binary, bind, call, call_one, choose, fun, number, ret, state, step, unit, var,
    with, with_effect, without_effects,
};
use std::alloc::Global;

/// A function that calls itself with one less until it is at 0: a turn is two units.
fn count_down(alloc: Global) -> Result<Code, OutOfMemory> {
    let test = binary(alloc, Op::Le, var(0), number(0));
    let again = call_one(alloc, 0, binary(alloc, Op::Sub, var(0), number(1)));
    let body = choose(alloc, test, ret(var(0)), again);
    let main = fun(alloc, 0, 1, Effect::Div, body);
    without_effects(alloc, with(Ok(Seq::new(alloc)), main))
}

/// A function that gets the state, puts one more, and calls itself. `get` is function 0, and `put` function 1.
fn tick_on(alloc: Global) -> Function {
    let more = call_one(alloc, 1, add(alloc, var(0), number(1)));
    let rest = bind(alloc, 0, more, call(alloc, 2));
    let body = bind(alloc, 0, call(alloc, 0), rest);
    fun(alloc, 2, 0, Effect::User(0), body)
}

fn with_state(alloc: Global) -> Result<Code, OutOfMemory> {
    let get = step(alloc, 0, 0, var(0), var(0));
    let put = step(alloc, 1, 1, unit(), var(1));
    let steps = with(with(Ok(Seq::new(alloc)), get), put);
    with_effect(alloc, state(alloc), with(steps, tick_on(alloc)))
}

/// Whether a run of this function is out of fuel, as each run here is.
fn is_out(
    alloc: Global,
    code: &Code,
    main: u32,
    args: &Seq<Value>,
    fuel: u32,
) -> Result<bool, OutOfMemory> {
    if !is_ready(code, main) {
        return Ok(false);
    }
    let input = Value::Int(0);
    let mut machine = Machine::new(alloc, code, main, args, Some(&input))?;
    Ok(matches!(machine.run(alloc, u64::from(fuel)), Answer::OutOfFuel))
}

/// Runs a loop of last calls for so many units.
pub fn counted(alloc: Global, fuel: u32) -> Result<bool, OutOfMemory> {
    let code = count_down(alloc)?;
    let args = one(alloc, Value::Int(i128::from(fuel)))?;
    is_out(alloc, &code, 0, &args, fuel)
}

/// Runs a loop with state for so many units.
pub fn ticked(alloc: Global, fuel: u32) -> Result<bool, OutOfMemory> {
    let code = with_state(alloc)?;
    is_out(alloc, &code, 2, &Seq::new(alloc), fuel)
}
