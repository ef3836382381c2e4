//! Joined terms with different constructors.

ghost use Rattle.std.specs.Prelude.{◌≡◌, ◌↔◌, ◌<◌, length, IfOk, IsTrue};
ghost use Rattle.fst_congruence.specs.Makers.{FirstsKnown, FoundDifferent, IsMade, Meets};

use crate::begin::zeros;
use crate::closure::Closure;
use fst_base::{OutOfMemory, Seq};
use std::alloc::Global;

/// Two terms, by their numbers.
#[derive(Clone, Copy, Debug)]
pub struct Different {
    pub left: u32,
    pub right: u32,
}

/// Whether this is the number of a term that begins with a constructor: of a truth value, or of another one.
fn is_made(closure: &Closure, truth: bool, term: u32) -> bool
    ensures { IsTrue result ↔ IsMade closure.now truth term }
{
    if term == 0 || !closure.numbers(term) {
        return false;
    }
    let maker = closure.maker(term);
    maker != 0 && (maker < 3) == truth
}

/// Meets the next term: it is the first one with its label, or begins with the constructor of that, or differs.
fn meet(closure: &Closure, truth: bool, firsts: &mut Seq<u32>, term: u32) -> Option<Different>
    requires term { term < length closure.now.labels }
    requires known { FirstsKnown closure.now truth firsts.old term }
    ensures { Meets closure.now truth firsts.new term result }
{
    if !is_made(closure, truth, term) {
        return None;
    }
    let label = closure.label(term);
    let first = firsts.as_slice()[label as usize];
    if first == 0 {
        firsts.set(label as usize, term);
        return None;
    }
    if closure.maker(first) != closure.maker(term) {
        return Some(Different {
            left: first,
            right: term,
        });
    }
    None
}

/// Two terms with one label that begin with different constructors, where there are such: with true and false, or with two others.
pub fn first_different(
    alloc: Global,
    closure: &Closure,
    truth: bool,
) -> Result<Option<Different>, OutOfMemory>
    ensures { IfOk result (λ found. FoundDifferent closure.now truth found) }
{
    let mut firsts = zeros(alloc, closure.count() as usize)?;
    for term in 0..closure.count() {
        let found = meet(closure, truth, &mut firsts, term);
        if found.is_some() {
            return Ok(found);
        }
    }
    Ok(None)
}
