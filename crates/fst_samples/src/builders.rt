//! Parts of code: names and places are of no account.

use fst_base::{Box, Name, Op, OutOfMemory, Pos, Seq, Sort, boxed, one, pair, two};
use fst_code::CodeFun;
use fst_program::{Arm, Comp, Con, DmTerm, Effect, Fun, Param};
use fst_terms::Term;
use std::alloc::Global;

const AT: Pos = Pos { at: 0 };

pub fn var(index: u32) -> Result<Term, OutOfMemory> {
    Ok(Term::Var(index))
}

pub fn number(number: i128) -> Result<Term, OutOfMemory> {
    Ok(Term::Int(number))
}

pub fn unit() -> Result<Term, OutOfMemory> {
    Ok(Term::Unit)
}

pub fn unary(alloc: Global, op: Op, a: Result<Term, OutOfMemory>) -> Result<Term, OutOfMemory> {
    let args = one(alloc, a?)?;
    Ok(Term::Prim(op, Sort::Int, args, AT))
}

pub fn binary(
    alloc: Global,
    op: Op,
    a: Result<Term, OutOfMemory>,
    b: Result<Term, OutOfMemory>,
) -> Result<Term, OutOfMemory> {
    let (a, b) = pair(a, b)?;
    let args = two(alloc, a, b)?;
    Ok(Term::Prim(op, Sort::Int, args, AT))
}

fn name(alloc: Global) -> Result<Name, OutOfMemory> {
    Name::new(alloc, "x")
}

fn names(alloc: Global, count: usize) -> Result<Seq<Name>, OutOfMemory> {
    let mut names = Seq::new(alloc);
    for _name in 0..count {
        names.push(name(alloc)?)?;
    }
    Ok(names)
}

/// A name and two parts on the heap.
fn named<T: Drop>(
    alloc: Global,
    first: Result<T, OutOfMemory>,
    second: Result<T, OutOfMemory>,
) -> Result<(Name, (Box<T>, Box<T>)), OutOfMemory> {
    pair(name(alloc), pair(boxed(alloc, first), boxed(alloc, second)))
}

/// An arm that binds so many names.
pub fn arm<T: Drop>(
    alloc: Global,
    con: Con,
    bound: usize,
    body: Result<T, OutOfMemory>,
) -> Result<Arm<T>, OutOfMemory> {
    let (names, body) = pair(names(alloc, bound), body)?;
    Ok(Arm { con, names, body })
}

fn both_arms<T: Drop>(
    alloc: Global,
    first: Result<Arm<T>, OutOfMemory>,
    second: Result<Arm<T>, OutOfMemory>,
) -> Result<Seq<Arm<T>>, OutOfMemory> {
    let (first, second) = pair(first, second)?;
    two(alloc, first, second)
}

// Core text.

pub fn ret(term: Result<Term, OutOfMemory>) -> Result<Comp, OutOfMemory> {
    Ok(Comp::Ret(term?))
}

pub fn let_in(
    alloc: Global,
    bound: Result<Comp, OutOfMemory>,
    rest: Result<Comp, OutOfMemory>,
) -> Result<Comp, OutOfMemory> {
    let (name, (bound, rest)) = named(alloc, bound, rest)?;
    Ok(Comp::Let(name, bound, rest))
}

pub fn bind(
    alloc: Global,
    effect: u32,
    bound: Result<Comp, OutOfMemory>,
    rest: Result<Comp, OutOfMemory>,
) -> Result<Comp, OutOfMemory> {
    let (name, (bound, rest)) = named(alloc, bound, rest)?;
    Ok(Comp::Bind(effect, name, bound, rest))
}

pub fn choose(
    alloc: Global,
    test: Result<Term, OutOfMemory>,
    left: Result<Comp, OutOfMemory>,
    right: Result<Comp, OutOfMemory>,
) -> Result<Comp, OutOfMemory> {
    let sides = pair(boxed(alloc, left), boxed(alloc, right));
    let (test, (left, right)) = pair(test, sides)?;
    Ok(Comp::If(test, left, right))
}

pub fn match_two(
    alloc: Global,
    term: Result<Term, OutOfMemory>,
    first: Result<Arm<Comp>, OutOfMemory>,
    second: Result<Arm<Comp>, OutOfMemory>,
) -> Result<Comp, OutOfMemory> {
    let (term, arms) = pair(term, both_arms(alloc, first, second))?;
    Ok(Comp::Match(term, AT, arms))
}

pub fn call(alloc: Global, function: u32) -> Result<Comp, OutOfMemory> {
    Ok(Comp::Call(function, Seq::new(alloc), AT))
}

pub fn call_one(
    alloc: Global,
    function: u32,
    arg: Result<Term, OutOfMemory>,
) -> Result<Comp, OutOfMemory> {
    Ok(Comp::Call(function, one(alloc, arg?)?, AT))
}

pub fn call_two(
    alloc: Global,
    function: u32,
    first: Result<Term, OutOfMemory>,
    second: Result<Term, OutOfMemory>,
) -> Result<Comp, OutOfMemory> {
    let (first, second) = pair(first, second)?;
    Ok(Comp::Call(function, two(alloc, first, second)?, AT))
}

pub fn reify(
    alloc: Global,
    effect: u32,
    part: Result<Comp, OutOfMemory>,
    input: Result<Term, OutOfMemory>,
) -> Result<Comp, OutOfMemory> {
    let (part, input) = pair(boxed(alloc, part), input)?;
    Ok(Comp::Reify(effect, Sort::Unit, part, input))
}

/// The text runs on the input, which is its last variable.
pub fn reflect(
    alloc: Global,
    effect: u32,
    end: Result<Term, OutOfMemory>,
) -> Result<Comp, OutOfMemory> {
    let (name, part) = pair(name(alloc), boxed(alloc, ret(end)))?;
    Ok(Comp::Reflect(effect, Sort::Int, name, part))
}

pub fn returned(
    alloc: Global,
    effect: u32,
    term: Result<Term, OutOfMemory>,
) -> Result<Comp, OutOfMemory> {
    Ok(Comp::Return(effect, boxed(alloc, ret(term))?))
}

pub fn lifted(
    alloc: Global,
    lift: u32,
    part: Result<Comp, OutOfMemory>,
) -> Result<Comp, OutOfMemory> {
    Ok(Comp::Lift(lift, boxed(alloc, part)?))
}

// Text of definitions.

pub fn dm_ret(term: Result<Term, OutOfMemory>) -> Result<DmTerm, OutOfMemory> {
    Ok(DmTerm::Ret(term?))
}

pub fn run_f(input: Result<Term, OutOfMemory>) -> Result<DmTerm, OutOfMemory> {
    Ok(DmTerm::RunF(input?))
}

pub fn run_g(
    value: Result<Term, OutOfMemory>,
    input: Result<Term, OutOfMemory>,
) -> Result<DmTerm, OutOfMemory> {
    let (value, input) = pair(value, input)?;
    Ok(DmTerm::RunG(value, input))
}

/// A let of the first text, whose value the second takes apart as a pair.
pub fn dm_let_pair(
    alloc: Global,
    bound: Result<DmTerm, OutOfMemory>,
    rest: Result<DmTerm, OutOfMemory>,
) -> Result<DmTerm, OutOfMemory> {
    let (name, (bound, rest)) = named(alloc, bound, dm_pair(alloc, rest))?;
    Ok(DmTerm::Let(name, bound, rest))
}

fn dm_pair(alloc: Global, body: Result<DmTerm, OutOfMemory>) -> Result<DmTerm, OutOfMemory> {
    let arms = one(alloc, arm(alloc, Con::Pair, 2, body)?)?;
    Ok(DmTerm::Match(Term::Var(0), arms))
}

pub fn dm_match_two(
    alloc: Global,
    term: Result<Term, OutOfMemory>,
    first: Result<Arm<DmTerm>, OutOfMemory>,
    second: Result<Arm<DmTerm>, OutOfMemory>,
) -> Result<DmTerm, OutOfMemory> {
    let (term, arms) = pair(term, both_arms(alloc, first, second))?;
    Ok(DmTerm::Match(term, arms))
}

// Functions.

fn params(alloc: Global, count: usize) -> Result<Seq<Param>, OutOfMemory> {
    let mut params = Seq::new(alloc);
    for _param in 0..count {
        params.push(Param {
            name: name(alloc)?,
            sort: Sort::Int,
            hidden: false,
            refine: None,
        })?;
    }
    Ok(params)
}

/// A function of so many parameters, in a group of its own.
pub fn fun(
    alloc: Global,
    number: u32,
    count: usize,
    effect: Effect,
    body: Result<Comp, OutOfMemory>,
) -> Result<Option<CodeFun>, OutOfMemory> {
    let (name, (params, body)) = pair(name(alloc), pair(params(alloc, count), body))?;
    Ok(Some(CodeFun {
        name,
        params,
        effect,
        sort: Sort::Int,
        body,
        group: number,
    }))
}

/// A function of a program with one parameter, and a ghost one behind it where `hides` is true.
pub fn source_fun(
    alloc: Global,
    number: u32,
    hides: bool,
    body: Result<Comp, OutOfMemory>,
) -> Result<Fun, OutOfMemory> {
    let params = source_params(alloc, hides);
    let (name, (params, body)) = pair(name(alloc), pair(params, body))?;
    Ok(Fun {
        name,
        at: AT,
        params,
        effect: Effect::Pure,
        sort: Sort::Int,
        needs: None,
        gives: None,
        measures: Seq::new(alloc),
        unfold: 1,
        body,
        group: number,
    })
}

fn source_params(alloc: Global, hides: bool) -> Result<Seq<Param>, OutOfMemory> {
    let mut params = params(alloc, 1)?;
    if hides {
        params.push(Param {
            name: name(alloc)?,
            sort: Sort::Int,
            hidden: true,
            refine: None,
        })?;
    }
    Ok(params)
}

pub fn ghost_let(
    alloc: Global,
    bound: Result<Comp, OutOfMemory>,
    rest: Result<Comp, OutOfMemory>,
) -> Result<Comp, OutOfMemory> {
    let (name, (bound, rest)) = named(alloc, bound, rest)?;
    Ok(Comp::GhostLet(name, bound, rest))
}
