//! Effects, functions and whole code, put together of their parts.

use crate::builders::{binary, dm_let_pair, dm_ret, fun, number, reflect, run_f, run_g, var};
use fst_base::{Name, Op, OutOfMemory, Seq, Sort, one, pair};
use fst_code::{Code, CodeFun};
use fst_program::{DmTerm, Effect, EffectDef};
use fst_terms::Term;
use std::alloc::Global;

/// A function of code, where memory sufficed to make it.
pub type Function = Result<Option<CodeFun>, OutOfMemory>;

/// The functions of code so far.
pub type Functions = Result<Seq<Option<CodeFun>>, OutOfMemory>;

/// One more function.
pub fn with(funs: Functions, fun: Function) -> Functions {
    let (mut funs, fun) = pair(funs, fun)?;
    funs.push(fun)?;
    Ok(funs)
}

/// Code with these effects and functions, and no lifts.
pub fn code(
    alloc: Global,
    effects: Result<Seq<EffectDef>, OutOfMemory>,
    funs: Functions,
) -> Result<Code, OutOfMemory> {
    let (effects, funs) = pair(effects, funs)?;
    Ok(Code {
        effects,
        lifts: Seq::new(alloc),
        funs,
    })
}

pub fn without_effects(alloc: Global, funs: Functions) -> Result<Code, OutOfMemory> {
    code(alloc, Ok(Seq::new(alloc)), funs)
}

pub fn with_effect(
    alloc: Global,
    effect: Result<EffectDef, OutOfMemory>,
    funs: Functions,
) -> Result<Code, OutOfMemory> {
    code(alloc, one(alloc, effect?), funs)
}

// Effects.

/// An effect over PURE, with an int as its input.
pub fn effect(
    alloc: Global,
    ret: Result<DmTerm, OutOfMemory>,
    bind: Result<DmTerm, OutOfMemory>,
) -> Result<EffectDef, OutOfMemory> {
    let (name, (ret, bind)) = pair(Name::new(alloc, "E"), pair(ret, bind))?;
    Ok(EffectDef {
        name,
        base: Effect::Pure,
        input: Sort::Int,
        result: Sort::VarA,
        ret_names: Seq::new(alloc),
        ret,
        bind_names: Seq::new(alloc),
        bind,
    })
}

pub fn tuple(
    alloc: Global,
    a: Result<Term, OutOfMemory>,
    b: Result<Term, OutOfMemory>,
) -> Result<Term, OutOfMemory> {
    binary(alloc, Op::Pair, a, b)
}

/// State: the value with the input; a bind hands the new input on.
pub fn state(alloc: Global) -> Result<EffectDef, OutOfMemory> {
    let bind = dm_let_pair(alloc, run_f(var(0)), run_g(var(1), var(0)));
    effect(alloc, dm_ret(tuple(alloc, var(1), var(0))), bind)
}

// Functions.

/// A function that puts another state in the place of the old one, and gives the value.
pub fn step(
    alloc: Global,
    at: u32,
    params: usize,
    value: Result<Term, OutOfMemory>,
    next: Result<Term, OutOfMemory>,
) -> Function {
    let body = reflect(alloc, 0, tuple(alloc, value, next));
    fun(alloc, at, params, Effect::User(0), body)
}

pub fn add(
    alloc: Global,
    a: Result<Term, OutOfMemory>,
    b: Result<Term, OutOfMemory>,
) -> Result<Term, OutOfMemory> {
    binary(alloc, Op::Add, a, b)
}
