//! The sorts that arguments give, and those that are wanted of them.

ghost use Rattle.std.specs.Prelude.{◌≡◌, map, Ok, IfOk};
ghost use Rattle.fst_effects.specs.TermSorts.{wants_of};
ghost use Rattle.fst_effects.specs.Scopes.{entry_of, known_sort, parts_in, sort_at, want_at, wants_in};

use crate::scope::Entry;
use crate::sorts::{Known, as_given, copied};
use fst_base::{Box, OutOfMemory, Sort, pair};
use std::alloc::Global;

/// The sorts of the first two arguments, where they are known.
#[derive(Drop)]
pub struct Parts {
    pub first: Option<Box<Sort>>,
    pub second: Option<Box<Sort>>,
}

/// A computation of a header: the sorts of its one or two arguments, and that of its results.
#[derive(Drop)]
pub struct Run {
    pub first: Box<Sort>,
    pub second: Option<Box<Sort>>,
    pub sort: Box<Sort>,
}

/// The sorts that are wanted of arguments: of a primitive's, of a function's, or of a computation's.
#[derive(Clone, Copy)]
pub enum Wants<'a> {
    Parts(&'a Parts),
    Params(&'a [Entry]),
    Run(&'a Run),
}

/// The sort of a parameter, where there is one of this number.
#[tactic(auto, using(crate::proofs::WantLemmas::params))]
fn param_sort(params: &[Entry], index: usize) -> Option<&Sort>
    ensures { sort_at result ≡ want_at (wants_of (map entry_of params.now)) index }
{
    if index < params.len() {
        Some(params[index].sort.get())
    } else {
        None
    }
}

/// The sort that is wanted of the argument of this number.
#[tactic(auto, using(crate::proofs::WantLemmas::wants))]
pub fn want_of<'a>(wants: Wants<'a>, index: usize) -> Option<&'a Sort>
    ensures { sort_at result ≡ want_at (wants_in wants.entry) index }
{
    match wants {
        Wants::Parts(parts) => {
            if index == 0 {
                as_given(&parts.first)
            } else if index == 1 {
                as_given(&parts.second)
            } else {
                None
            }
        }
        Wants::Params(params) => param_sort(params, index),
        Wants::Run(run) => {
            if index == 0 {
                Some(run.first.get())
            } else if index == 1 {
                as_given(&run.second)
            } else {
                None
            }
        }
    }
}

/// Two sorts that may be known.
pub fn both_parts(first: Known, second: Known) -> Result<Parts, OutOfMemory>
    ensures { IfOk result (λ p. (first ≡ Ok p.first) × (second ≡ Ok p.second)) }
{
    let (first, second) = pair(first, second)?;
    Ok(Parts { first, second })
}
