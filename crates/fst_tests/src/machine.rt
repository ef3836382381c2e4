use fst_base::{Op, OutOfMemory, Pos, Seq, Sort, Value, one, pair, two};
use fst_code::Code;
use fst_erase::erase;
use fst_machine::{Answer, Machine, is_ready};
use fst_program::{Comp, Con, Effect, EffectDef, LiftDef, Program as Source};
use fst_samples::{
    Function, add, arm, binary, bind, call, call_one, call_two, choose, code, dm_let_pair,
    dm_match_two, dm_ret, effect, fun, ghost_let, let_in, lifted, match_two, number, reflect,
    reify, ret, returned, run_f, run_g, source_fun, state, step, tuple, unary, unit, var, with,
    with_effect, without_effects,
};
use fst_terms::Term;
use fst_values::print_value;
use std::alloc::Global;
use std::test::Fail;

// Effects.

/// State whose bind runs its second computation twice.
fn twice(alloc: Global) -> Result<EffectDef, OutOfMemory> {
    let again = dm_let_pair(alloc, run_g(var(1), var(0)), run_g(var(4), var(0)));
    let bind = dm_let_pair(alloc, run_f(var(0)), again);
    effect(alloc, dm_ret(tuple(alloc, var(1), var(0))), bind)
}

/// State with exceptions: `inl` is a failure, which keeps the state.
fn exceptions(alloc: Global) -> Result<EffectDef, OutOfMemory> {
    let failed = dm_ret(tuple(alloc, unary(alloc, Op::Inl, var(0)), var(1)));
    let ways = dm_match_two(
        alloc,
        var(1),
        arm(alloc, Con::Left, 1, failed),
        arm(alloc, Con::Right, 1, run_g(var(0), var(1))),
    );
    let bind = dm_let_pair(alloc, run_f(var(0)), ways);
    let right = unary(alloc, Op::Inr, var(1));
    effect(alloc, dm_ret(tuple(alloc, right, var(0))), bind)
}

/// The lift from state to exceptions.
fn lift(alloc: Global) -> Result<LiftDef, OutOfMemory> {
    let right = unary(alloc, Op::Inr, var(1));
    let text = dm_let_pair(alloc, run_f(var(0)), dm_ret(tuple(alloc, right, var(0))));
    Ok(LiftDef {
        from: 0,
        to: 1,
        names: Seq::new(alloc),
        text: text?,
    })
}

// Functions, by their number.

fn tick(alloc: Global, at: u32) -> Function {
    step(alloc, at, 0, unit(), add(alloc, var(0), number(1)))
}

fn raise(alloc: Global, at: u32, effect: u32) -> Function {
    let failed = tuple(alloc, unary(alloc, Op::Inl, var(1)), var(0));
    fun(
        alloc,
        at,
        1,
        Effect::User(effect),
        reflect(alloc, effect, failed),
    )
}

/// The sum of a list, by a call for its rest.
fn sum(alloc: Global, at: u32) -> Function {
    let rest = let_in(
        alloc,
        call_one(alloc, at, var(0)),
        ret(add(alloc, var(2), var(0))),
    );
    let body = match_two(
        alloc,
        var(0),
        arm(alloc, Con::Nil, 0, ret(number(0))),
        arm(alloc, Con::Cons, 2, rest),
    );
    fun(alloc, at, 1, Effect::Pure, body)
}

fn tick_twice(alloc: Global, effect: u32, tick: u32) -> Result<Comp, OutOfMemory> {
    bind(alloc, effect, call(alloc, tick), call(alloc, tick))
}

// Programs.

/// The sum of a list; main is function 1.
fn sum_code(alloc: Global) -> Result<Code, OutOfMemory> {
    let main = fun(alloc, 1, 1, Effect::Pure, call_one(alloc, 0, var(0)));
    let funs = with(with(Ok(Seq::new(alloc)), sum(alloc, 0)), main);
    without_effects(alloc, funs)
}

/// Gets the state, puts one more, and gives the first; main is function 2.
fn state_code(alloc: Global) -> Result<Code, OutOfMemory> {
    let get = step(alloc, 0, 0, var(0), var(0));
    let put = step(alloc, 1, 1, unit(), var(1));
    let rest = bind(
        alloc,
        0,
        call_one(alloc, 1, add(alloc, var(0), number(1))),
        returned(alloc, 0, var(1)),
    );
    let main = fun(
        alloc,
        2,
        0,
        Effect::User(0),
        bind(alloc, 0, call(alloc, 0), rest),
    );
    let funs = with(with(with(Ok(Seq::new(alloc)), get), put), main);
    with_effect(alloc, state(alloc), funs)
}

/// Fails, and never adds one; main is function 1.
fn failing_code(alloc: Global) -> Result<Code, OutOfMemory> {
    let after = returned(alloc, 0, add(alloc, var(0), number(1)));
    let body = bind(alloc, 0, call_one(alloc, 0, var(0)), after);
    let main = fun(alloc, 1, 1, Effect::User(0), body);
    let funs = with(with(Ok(Seq::new(alloc)), raise(alloc, 0, 0)), main);
    with_effect(alloc, exceptions(alloc), funs)
}

/// Withdraws from an account, or fails; main is function 4.
fn bank_code(alloc: Global) -> Result<Code, OutOfMemory> {
    let get = step(alloc, 1, 0, unary(alloc, Op::Inr, var(0)), var(0));
    let put = step(alloc, 2, 1, unary(alloc, Op::Inr, unit()), var(1));
    let paid = bind(
        alloc,
        0,
        call_one(alloc, 2, binary(alloc, Op::Sub, var(0), var(1))),
        returned(alloc, 0, binary(alloc, Op::Sub, var(1), var(2))),
    );
    let test = binary(alloc, Op::Le, var(1), var(0));
    let ways = choose(alloc, test, paid, call_one(alloc, 0, var(1)));
    let withdraw = bind(alloc, 0, call(alloc, 1), ways);
    let withdraw = fun(alloc, 3, 1, Effect::User(0), withdraw);
    let main = fun(alloc, 4, 1, Effect::User(0), call_one(alloc, 3, var(0)));
    let first = with(with(Ok(Seq::new(alloc)), raise(alloc, 0, 0)), get);
    let funs = with(with(with(first, put), withdraw), main);
    with_effect(alloc, exceptions(alloc), funs)
}

/// A bind that runs its second computation twice; main is function 1.
fn twice_code(alloc: Global) -> Result<Code, OutOfMemory> {
    let main = fun(alloc, 1, 0, Effect::User(0), tick_twice(alloc, 0, 0));
    let funs = with(with(Ok(Seq::new(alloc)), tick(alloc, 0)), main);
    with_effect(alloc, twice(alloc), funs)
}

/// Two ticks on a given state; main is function 1.
fn reified_code(alloc: Global) -> Result<Code, OutOfMemory> {
    let ticks = reify(alloc, 0, tick_twice(alloc, 0, 0), var(0));
    let second = ret(unary(alloc, Op::Snd, var(0)));
    let main = fun(alloc, 1, 1, Effect::Pure, let_in(alloc, ticks, second));
    let funs = with(with(Ok(Seq::new(alloc)), tick(alloc, 0)), main);
    with_effect(alloc, state(alloc), funs)
}

/// A tick of state, lifted to exceptions, and a failure; main is function 2.
fn lifted_code(alloc: Global) -> Result<Code, OutOfMemory> {
    let ticked = lifted(alloc, 0, call(alloc, 0));
    let body = bind(alloc, 1, ticked, call_one(alloc, 1, number(5)));
    let main = fun(alloc, 2, 0, Effect::User(1), body);
    let first = with(Ok(Seq::new(alloc)), tick(alloc, 0));
    let funs = with(with(first, raise(alloc, 1, 1)), main);
    let (lower, upper) = pair(state(alloc), exceptions(alloc))?;
    let made = code(alloc, two(alloc, lower, upper), funs);
    let (lift, mut code) = pair(lift(alloc), made)?;
    code.lifts.push(lift)?;
    Ok(code)
}

/// A function that calls itself for ever.
fn loop_code(alloc: Global) -> Result<Code, OutOfMemory> {
    let main = fun(alloc, 0, 1, Effect::Div, call_one(alloc, 0, var(0)));
    without_effects(alloc, with(Ok(Seq::new(alloc)), main))
}

/// The list of the numbers from 1 on, built and summed in last calls; main is function 2.
fn long_code(alloc: Global) -> Result<Code, OutOfMemory> {
    let less = binary(alloc, Op::Sub, var(1), number(1));
    let more = binary(alloc, Op::Cons, var(1), var(0));
    let build = choose(
        alloc,
        binary(alloc, Op::Le, var(1), number(0)),
        ret(var(0)),
        call_two(alloc, 0, less, more),
    );
    let build = fun(alloc, 0, 2, Effect::Div, build);
    let next = call_two(alloc, 1, var(0), add(alloc, var(2), var(1)));
    let total = match_two(
        alloc,
        var(1),
        arm(alloc, Con::Nil, 0, ret(var(0))),
        arm(alloc, Con::Cons, 2, next),
    );
    let total = fun(alloc, 1, 2, Effect::Div, total);
    let list = call_two(alloc, 0, var(0), empty(alloc));
    let main = let_in(alloc, list, call_two(alloc, 1, var(0), number(0)));
    let main = fun(alloc, 2, 1, Effect::Div, main);
    let funs = with(with(with(Ok(Seq::new(alloc)), build), total), main);
    without_effects(alloc, funs)
}

/// One more; main is function 0.
fn next_code(alloc: Global) -> Result<Code, OutOfMemory> {
    let main = fun(
        alloc,
        0,
        1,
        Effect::Pure,
        ret(add(alloc, var(0), number(1))),
    );
    without_effects(alloc, with(Ok(Seq::new(alloc)), main))
}

/// The first item of a list, with no arm for the empty one; main is function 0.
fn first_code(alloc: Global) -> Result<Code, OutOfMemory> {
    let item = arm(alloc, Con::Cons, 2, ret(var(1)));
    let again = arm(alloc, Con::Cons, 2, ret(var(1)));
    let main = fun(
        alloc,
        0,
        1,
        Effect::Pure,
        match_two(alloc, var(0), item, again),
    );
    without_effects(alloc, with(Ok(Seq::new(alloc)), main))
}

/// A call with a ghost argument, of a function with a ghost let, once these are gone; main is function 1.
fn erased_code(alloc: Global) -> Result<Code, OutOfMemory> {
    let hidden = ret(add(alloc, var(0), number(1)));
    let body = ghost_let(alloc, hidden, ret(add(alloc, var(2), number(1))));
    let callee = source_fun(alloc, 0, true, body);
    let more = add(alloc, var(0), number(2));
    let main = source_fun(alloc, 1, false, call_two(alloc, 0, var(0), more));
    let (callee, main) = pair(callee, main)?;
    let program = Source {
        effects: Seq::new(alloc),
        lifts: Seq::new(alloc),
        funs: two(alloc, callee, main)?,
    };
    erase(alloc, &program)
}

fn empty(alloc: Global) -> Result<Term, OutOfMemory> {
    Ok(Term::Prim(Op::Nil, Sort::Int, Seq::new(alloc), Pos { at: 0 }))
}

// Runs.

#[derive(Clone, Copy, Debug)]
enum Program {
    Sum,
    State,
    Failing,
    Bank,
    Twice,
    Reified,
    Lifted,
    Loop,
    Long,
    Next,
    First,
    Erased,
}

/// The code, and the number of main.
fn made(alloc: Global, program: Program) -> Result<(Code, u32), OutOfMemory> {
    match program {
        Program::Sum => Ok((sum_code(alloc)?, 1)),
        Program::State => Ok((state_code(alloc)?, 2)),
        Program::Failing => Ok((failing_code(alloc)?, 1)),
        Program::Bank => Ok((bank_code(alloc)?, 4)),
        Program::Twice => Ok((twice_code(alloc)?, 1)),
        Program::Reified => Ok((reified_code(alloc)?, 1)),
        Program::Lifted => Ok((lifted_code(alloc)?, 2)),
        Program::Loop => Ok((loop_code(alloc)?, 0)),
        Program::Long => Ok((long_code(alloc)?, 2)),
        Program::Next => Ok((next_code(alloc)?, 0)),
        Program::First => Ok((first_code(alloc)?, 0)),
        Program::Erased => Ok((erased_code(alloc)?, 1)),
    }
}

/// What main is given.
#[derive(Clone, Copy, Debug)]
enum Given {
    Nothing,
    Number(i128),
    List(&'static [i128]),
}

fn list(alloc: Global, numbers: &[i128]) -> Result<Value, OutOfMemory> {
    let mut items = Seq::new(alloc);
    for number in numbers {
        items.push(Value::Int(*number))?;
    }
    Ok(Value::List(items))
}

fn args(alloc: Global, given: Given) -> Result<Seq<Value>, OutOfMemory> {
    match given {
        Given::Nothing => Ok(Seq::new(alloc)),
        Given::Number(number) => one(alloc, Value::Int(number)),
        Given::List(numbers) => one(alloc, list(alloc, numbers)?),
    }
}

/// The text of an answer.
fn text(alloc: Global, answer: &Answer) -> Result<Seq<u8>, OutOfMemory> {
    let mut text = Seq::new(alloc);
    match answer {
        Answer::Done(value) => print_value(value, &mut text)?,
        Answer::OutOfFuel => text.extend_from_slice(b"out of fuel")?,
        Answer::PastRange => text.extend_from_slice(b"past 128 bits")?,
        Answer::Stuck(_) => text.extend_from_slice(b"stuck")?,
        Answer::NoMemory => return Err(OutOfMemory),
    }
    Ok(text)
}

/// The text that a run of the program prints, the second time; none where no machine can be made.
fn run(
    alloc: Global,
    program: Program,
    fuel: u64,
    given: Given,
    input: i128,
) -> Result<Seq<u8>, OutOfMemory> {
    let (code, main) = made(alloc, program)?;
    if !is_ready(&code, main) {
        return Ok(Seq::new(alloc));
    }
    let args = args(alloc, given)?;
    let input = Value::Int(input);
    let mut machine = Machine::new(alloc, &code, main, &args, Some(&input))?;
    let _first = machine.run(alloc, fuel);
    text(alloc, &machine.run(alloc, fuel))
}

fn is_printed(printed: &Result<Seq<u8>, OutOfMemory>, wanted: &str) -> bool {
    match printed {
        Ok(text) => text.as_slice() == wanted.as_bytes(),
        Err(_) => false,
    }
}

// A program, the fuel that its run takes, what main is given, the input, and how the run ends.
static ROWS: [(Program, u64, Given, i128, &str); 16] = [
    (Program::Sum, 15, Given::List(&[1, 2, 3]), 0, "6"),
    (Program::Sum, 3, Given::List(&[]), 0, "0"),
    (Program::State, 18, Given::Nothing, 4, "(4, 5)"),
    (Program::Failing, 9, Given::Number(7), 3, "(inl 7, 3)"),
    (Program::Bank, 22, Given::Number(100), 100, "(inr 0, 0)"),
    (Program::Bank, 14, Given::Number(101), 100, "(inl 101, 100)"),
    (Program::Twice, 17, Given::Nothing, 0, "((), 3)"),
    (Program::Reified, 14, Given::Number(40), 0, "42"),
    (Program::Lifted, 16, Given::Nothing, 3, "(inl 5, 4)"),
    (Program::Long, 47, Given::Number(10), 0, "55"),
    (Program::Long, 7, Given::Number(0), 0, "0"),
    (
        Program::Next,
        1,
        Given::Number(170141183460469231731687303715884105727),
        0,
        "past 128 bits",
    ),
    (Program::Next, 1, Given::Number(-1), 0, "0"),
    (Program::First, 2, Given::List(&[5]), 0, "5"),
    (Program::First, 1, Given::List(&[]), 0, "stuck"),
    // The ghost argument and the ghost let would leave 128 bits.
    (
        Program::Erased,
        2,
        Given::Number(170141183460469231731687303715884105726),
        0,
        "170141183460469231731687303715884105727",
    ),
];

#[test]
fn worked_programs(rt: HostRuntime) -> Result<(), Fail> {
    let alloc = rt.alloc();
    for (program, fuel, given, input, value) in &ROWS {
        let printed = run(alloc, *program, *fuel, *given, *input);
        assert!(rt; is_printed(&printed, value), "{program:?} at {fuel}");
        let printed = run(alloc, *program, *fuel - 1, *given, *input);
        assert!(rt;
            is_printed(&printed, "out of fuel"),
            "{program:?} below {fuel}"
        );
    }
    Ok(())
}

#[test]
fn a_long_list(rt: HostRuntime) -> Result<(), Fail> {
    let alloc = rt.alloc();
    let printed = run(alloc, Program::Long, 400_007, Given::Number(100_000), 0);
    assert!(rt; is_printed(&printed, "5000050000"));
    Ok(())
}

#[test]
fn a_loop_runs_out_of_fuel(rt: HostRuntime) -> Result<(), Fail> {
    let alloc = rt.alloc();
    let printed = run(alloc, Program::Loop, 10_000_000, Given::Number(1), 0);
    assert!(rt; is_printed(&printed, "out of fuel"));
    Ok(())
}
