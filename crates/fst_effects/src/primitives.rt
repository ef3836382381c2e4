//! The primitives' rows: what they want of their arguments, and what they break by themselves.

ghost use Rattle.std.specs.Prelude.{◌≡◌, ◌∷◌, [], IfOk, option_map};
ghost use Rattle.fst_base.specs.Sorts.{s_list};
ghost use Rattle.fst_names.specs.Broken.{least};
ghost use Rattle.fst_effects.specs.Scopes.{parts_in, sort_at};
ghost use Rattle.fst_effects.specs.TermChecks.{clash_of, fits_by_parts, need_of, prim_need, prim_own, two};
ghost use Rattle.fst_effects.specs.TermSorts.{compared, items, prim_wants};

use crate::faults::{clash, need, other};
use crate::sorts::{
    as_given, copied, inl_of, inr_of, item_of, left_of, list_sort, option_of, or_else, right_of,
};
use crate::wanted::{Parts, both_parts};
use fst_base::{Op, OutOfMemory, Pos, Sort};
use fst_names::{Broken, least};
use std::alloc::Global;

/// Whether what is wanted of the arguments depends on the sorts that they give.
pub fn fits_by_parts(op: Op) -> bool
    ensures { result ≡ fits_by_parts op }
{
    match op {
        Op::Eq | Op::Cons | Op::Fst | Op::Snd | Op::Len => true,
        _ => false,
    }
}

/// The sort of the items of a list term.
fn items(parts: &Parts) -> Option<&Sort>
    ensures { sort_at result ≡ items (parts_in parts.now) }
{
    or_else(as_given(&parts.first), item_of(as_given(&parts.second)))
}

/// The sort of the sides of an equation.
fn compared(parts: &Parts) -> Option<&Sort>
    ensures { sort_at result ≡ compared (parts_in parts.now) }
{
    or_else(as_given(&parts.first), as_given(&parts.second))
}

/// These sorts are wanted of the arguments.
fn wanted(alloc: Global, first: Option<&Sort>, second: Option<&Sort>) -> Result<Parts, OutOfMemory>
    ensures { IfOk result (λ p. parts_in p ≡ sort_at first.entry ∷ sort_at second.entry ∷ []) }
{
    both_parts(copied(alloc, first), copied(alloc, second))
}

/// An item and the rest of a list are wanted.
fn wanted_list(alloc: Global, item: Option<&Sort>) -> Result<Parts, OutOfMemory>
    ensures { IfOk result (λ p. parts_in p ≡ sort_at item.entry ∷ option_map s_list (sort_at item.entry) ∷ []) }
{
    let list = list_sort(alloc, copied(alloc, item)?);
    both_parts(copied(alloc, item), list)
}

/// The sorts that are wanted of the arguments, where these are those that they give, and this one is wanted of the whole.
#[tactic(auto, using(crate::proofs::PrimitiveLemmas::wanted))]
pub fn prim_wants(
    alloc: Global,
    op: Op,
    parts: &Parts,
    want: Option<&Sort>,
) -> Result<Parts, OutOfMemory>
    ensures { IfOk result (λ p. parts_in p ≡ two (prim_wants op (parts_in parts.now) (sort_at want.entry))) }
{
    match op {
        Op::Eq => wanted(alloc, compared(parts), compared(parts)),
        Op::Pair => wanted(alloc, left_of(want), right_of(want)),
        Op::Just => wanted(alloc, option_of(want), None),
        Op::Cons => wanted_list(alloc, or_else(item_of(want), items(parts))),
        Op::Inl => wanted(alloc, inl_of(want), None),
        Op::Inr => wanted(alloc, inr_of(want), None),
        Op::Nothing | Op::Nil | Op::Fst | Op::Snd | Op::Len => wanted(alloc, None, None),
        Op::Neg => wanted(alloc, Some(&Sort::Int), None),
        _ => wanted(alloc, Some(&Sort::Int), Some(&Sort::Int)),
    }
}

/// The argument at this place has to give a sort.
#[tactic(auto, using(crate::proofs::PrimitiveLemmas::needs))]
pub fn prim_need(at: Pos, op: Op, parts: &Parts) -> Option<Broken>
    ensures { result ≡ prim_need at op (parts_in parts.now) }
{
    match op {
        Op::Fst | Op::Snd | Op::Len => need(at, as_given(&parts.first)),
        Op::Eq => need(at, compared(parts)),
        _ => None,
    }
}

/// A selector at this place gives this part of its argument's sort.
fn selected(
    at: Pos,
    part: Option<&Sort>,
    given: Option<&Sort>,
    want: Option<&Sort>,
) -> Option<Broken>
    ensures { result ≡ least (need_of at (sort_at part.entry)) (clash_of at (sort_at given.entry) (sort_at want.entry)) }
{
    least(need(at, part), clash(at, given, want))
}

/// What the primitive at this place breaks by itself.
#[tactic(auto, using(crate::proofs::PrimitiveLemmas::own))]
pub fn prim_own(at: Pos, op: Op, parts: &Parts, want: Option<&Sort>) -> Option<Broken>
    ensures { result ≡ prim_own at op (parts_in parts.now) (sort_at want.entry) }
{
    match op {
        Op::Pair => other(at, want, left_of(want)),
        Op::Nothing | Op::Just => other(at, want, option_of(want)),
        Op::Nil | Op::Cons => other(at, want, item_of(want)),
        Op::Inl => other(at, want, inl_of(want)),
        Op::Inr => other(at, want, inr_of(want)),
        Op::Fst => {
            let part = left_of(as_given(&parts.first));
            selected(at, part, part, want)
        }
        Op::Snd => {
            let part = right_of(as_given(&parts.first));
            selected(at, part, part, want)
        }
        Op::Len => selected(at, item_of(as_given(&parts.first)), Some(&Sort::Int), want),
        Op::Le | Op::Lt | Op::Eq => clash(at, Some(&Sort::Bool), want),
        Op::Hd | Op::Tl | Op::The | Op::Outl | Op::Outr => clash(at, None, want),
        _ => clash(at, Some(&Sort::Int), want),
    }
}
