// Flat forms of sequents.

use fst_base::{Box, Name, Op, OutOfMemory, Pos, Seq, Sort, pair, two};
use fst_flats::prepare;
use fst_terms::{Sequent, Term, Var};
use std::alloc::Global;

const PLACE: Pos = Pos { at: 1 };

/// The hypothesis x + n <= 0: its atom, its sum and its number are terms of its own.
fn bounded(alloc: Global, number: u32) -> Result<Term, OutOfMemory> {
    let sum = two(alloc, Term::Var(0), Term::Int(i128::from(number)))?;
    let sum = Term::Prim(Op::Add, Sort::Int, sum, PLACE);
    let sides = two(alloc, sum, Term::Int(0))?;
    Ok(Term::Prim(Op::Le, Sort::Bool, sides, PLACE))
}

/// A sequent over an int x with so many hypotheses x + 1 <= 0, x + 2 <= 0 and so on.
fn bounds(alloc: Global, count: u32) -> Result<Box<Sequent>, OutOfMemory> {
    let mut hyps = Seq::new(alloc);
    for number in 1..=count {
        hyps.push(bounded(alloc, number)?)?;
    }
    let mut vars = Seq::new(alloc);
    let (name, sort) = pair(Name::new(alloc, "x"), Ok(Sort::Int))?;
    vars.push(Var { name, sort })?;
    Box::new(
        alloc,
        Sequent {
            vars,
            hyps,
            goal: Term::Bool(false),
        },
    )
}

/// How many terms the flat form of such a sequent has, made again and again.
pub fn prepared(alloc: Global, count: u32, times: u32) -> Result<usize, OutOfMemory> {
    let sequent = bounds(alloc, count)?;
    let extra = Seq::new(alloc);
    let mut terms = 0;
    for _ in 0..times {
        let flat = Box::new(alloc, prepare(alloc, sequent.get(), &extra)?)?;
        terms = flat.get().terms.len();
    }
    Ok(terms)
}
