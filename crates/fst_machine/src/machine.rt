ghost use Rattle.std.specs.Prelude.{◌≡◌, ◌↔◌, map, reverse, IfOk, IsTrue};
ghost use Rattle.std.specs.Option.{option_copied};
ghost use Rattle.fst_base.specs.Values.{plain_value};
ghost use Rattle.fst_code.specs.Plain.{plain_code};
ghost use Rattle.fst_machine.specs.CodeRuns.{IsReady, Told, code_run, input_value};
ghost use Rattle.fst_machine.specs.Memories.{Keeps, IsChain, InputIs};

use crate::memory::{Chain, Memory};
use crate::state::State;
use crate::stop::Stop;
use crate::texts::{body_of, function};
use fst_base::{OutOfMemory, Pos, Seq, Value};
use fst_cells::Cell;
use fst_code::Code;
use std::alloc::Global;

/// How a run ends.
#[derive(Debug, Drop)]
pub enum Answer {
    Done(Value),
    OutOfFuel,
    /// A number leaves 128 bits.
    PastRange,
    /// A divisor is 0, or a match has no arm for its value.
    Stuck(Pos),
    NoMemory,
}

/// A machine for one function of code on some arguments.
#[derive(Drop)]
pub struct Machine<'a> {
    code: &'a Code,
    main: u32,
    args: Seq<Value>,
    input: Option<Value>,
    ghost ready: { ∥ IsReady (plain_code code.now) main ∥₁ },
}

/// Whether a machine can be made for this function: the code is sound, and the function is there.
pub fn is_ready(code: &Code, main: u32) -> bool
    ensures { IsTrue result ↔ IsReady (plain_code code.now) main }
{
    code.sound() && function(code, main).is_some()
}

impl<'a> Machine<'a> {
    ghost use Rattle.fst_machine.specs.Answering.{Answers, outcome};

    /// The machine for function `main` on these arguments and this input.
    pub fn new(
        alloc: Global,
        code: &'a Code,
        main: u32,
        args: &Seq<Value>,
        input: Option<&Value>,
    ) -> Result<Machine<'a>, OutOfMemory>
        requires { IsReady (plain_code code.now) main }
        ensures { IfOk result (λ m. (m.code.now ≡ code.now) × (m.main ≡ main) × (m.args ≡ args.now) × (m.input ≡ option_copied input.entry)) }
    {
        let args = copies(alloc, args.as_slice())?;
        let input = input_copy(alloc, input)?;
        Ok(Machine {
            code,
            main,
            args,
            input,
        })
    }

    /// Runs the function from its start, with this much fuel.
    pub fn run(&mut self, alloc: Global, fuel: u64) -> Answer
        ensures answer { Answers (outcome self.old fuel) result }
        ensures kept { self.new ≡ self.old }
    {
        match self.result(alloc, fuel) {
            Ok(Some(value)) => Answer::Done(value),
            Ok(None) => Answer::OutOfFuel,
            Err(Stop::PastRange) => Answer::PastRange,
            Err(Stop::Stuck(at)) => Answer::Stuck(at),
            Err(Stop::NoMemory) => Answer::NoMemory,
        }
    }

    /// The run's value, where the fuel ends it.
    fn result(&self, alloc: Global, fuel: u64) -> Result<Option<Value>, Stop>
        ensures { Told (outcome self.now fuel) result }
    {
        run_function(
            alloc,
            self.code,
            self.main,
            self.args.as_slice(),
            &self.input,
            fuel,
        )
    }
}

fn copies(alloc: Global, values: &[Value]) -> Result<Seq<Value>, OutOfMemory>
    ensures { IfOk result (λ copies. copies ≡ values.now) }
{
    let mut copies = Seq::new(alloc);
    for value in values {
        copies.push(value.copy(alloc)?)?;
    }
    Ok(copies)
}

fn input_copy(alloc: Global, input: Option<&Value>) -> Result<Option<Value>, OutOfMemory>
    ensures { IfOk result (λ copy. copy ≡ option_copied input.entry) }
{
    match input {
        Some(value) => Ok(Some(value.copy(alloc)?)),
        None => Ok(None),
    }
}

/// Runs a function on these arguments and this input, with this much fuel: the run's value, where the fuel ends it.
pub(crate) fn run_function(
    alloc: Global,
    code: &Code,
    main: u32,
    args: &[Value],
    input: &Option<Value>,
    fuel: u64,
) -> Result<Option<Value>, Stop>
    requires { IsReady (plain_code code.now) main }
    ensures { Told (code_run (plain_code code.now) main fuel (map plain_value args.now) (input_value input.now)) result }
{
    let Some(fun) = function(code, main) else {
        unreachable!();
    };
    let mut memory = Memory::new(alloc);
    let env = put_arguments(&mut memory, args)?;
    let input = put_input(&mut memory, input)?;
    let mut state = State::new(alloc, memory, body_of(fun), env, input);
    let Some(cell) = state.run(code, fuel)? else {
        return Ok(None);
    };
    Ok(Some(state.value(alloc, cell)?))
}

/// The environment of these values, the last one first.
fn put_arguments(memory: &mut Memory, args: &[Value]) -> Result<Chain, OutOfMemory>
    ensures chain { IfOk result (λ c. IsChain memory.new c (reverse (map plain_value args.now))) }
    ensures kept { Keeps memory.old memory.new }
{
    let mut env = Chain::empty();
    for arg in args {
        let cell = memory.put(arg)?;
        env = memory.link(cell, env)?;
    }
    Ok(env)
}

fn put_input(memory: &mut Memory, input: &Option<Value>) -> Result<Option<Cell>, OutOfMemory>
    ensures cell { IfOk result (λ c. InputIs memory.new c (input_value input.now)) }
    ensures kept { Keeps memory.old memory.new }
{
    match input {
        Some(value) => Ok(Some(memory.put(value)?)),
        None => Ok(None),
    }
}
