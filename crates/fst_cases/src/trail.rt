//! The marks that stand in a search, and what is known of the marks before them.

ghost use Rattle.std.specs.Prelude.{◌≡◌, ◌<◌, ◌+◌, length, IfOk};
ghost use Rattle.fst_cases.specs.Sides.{NoLets};
ghost use Rattle.fst_cases.specs.Trails.{Advanced, RefutesAt, Retreats, Standing, Trail, closes, marks_in, next_step};
ghost use Rattle.fst_terms.specs.Flats.{plain_flat};

use crate::arena::{Refutation, core, order, split};
use crate::merging::first_mark;
use crate::sides::is_number;
use fst_base::{OutOfMemory, Seq};
use fst_terms::{Flat, Mark};
use std::alloc::Global;

/// The mark of an atom, and the numbers of the refutations of the marks before it.
#[derive(Clone, Copy, Debug)]
pub struct Step {
    pub mark: Mark,
    pub on_true: usize,
    pub on_less: usize,
}

/// What a refutation of marks gives: a mark in place of the last one, or a refutation of the marks before it.
#[derive(Clone, Copy, Debug)]
pub enum Retreat {
    Next(Step),
    Refuted(usize),
}

/// The marks of a trail.
pub fn marks_of(alloc: Global, trail: &[Step]) -> Result<Seq<Mark>, OutOfMemory>
    ensures { IfOk result (λ marks. marks ≡ marks_in trail.now) }
{
    let mut marks = Seq::new(alloc);
    for step in trail {
        marks.push(step.mark)?;
    }
    Ok(marks)
}

/// The mark that is tried after one that is refuted, where there is one: no order is tried where the falsity alone was used.
fn next_step(last: Step, is_number: bool, used: Mark, node: usize) -> Option<Step>
    ensures { result ≡ next_step last is_number used node }
{
    match last.mark {
        Mark::True => {
            let mark = if is_number { Mark::Less } else { Mark::False };
            Some(Step {
                mark,
                on_true: node,
                on_less: node,
            })
        }
        Mark::Less => {
            if used == Mark::False {
                None
            } else {
                Some(Step {
                    mark: Mark::Greater,
                    on_true: last.on_true,
                    on_less: node,
                })
            }
        }
        Mark::False | Mark::Greater => None,
    }
}

/// The refutation of the marks without the last one, all marks of whose atom are refuted.
fn closed(
    alloc: Global,
    arena: &mut Seq<Refutation>,
    atom: u32,
    last: Step,
    used: Mark,
    node: usize,
) -> Result<usize, OutOfMemory>
    requires on_true { last.on_true < length arena.old }
    requires on_less { last.mark ≡ Mark.Greater → last.on_less < length arena.old }
    requires node { node < length arena.old }
    ensures { IfOk result (λ at. closes arena.old arena.new atom last used node at) }
{
    if last.mark == Mark::Greater && used != Mark::False {
        let ordered = order(alloc, arena, atom, last.on_less, node)?;
        split(alloc, arena, atom, last.on_true, ordered)
    } else {
        split(alloc, arena, atom, last.on_true, node)
    }
}

/// The number of the atom at this place, from 1.
pub fn number(at: usize) -> Result<u32, OutOfMemory>
    ensures { IfOk result (λ number. number ≡ at + 1) }
{
    match u32::try_from(at) {
        Ok(at) if at < u32::MAX => Ok(at + 1),
        _ => Err(OutOfMemory),
    }
}

/// What a refutation of these marks and a last one gives.
fn go_back(
    alloc: Global,
    flat: &Flat,
    arena: &mut Seq<Refutation>,
    trail: &[Step],
    last: Step,
    node: usize,
) -> Result<Retreat, OutOfMemory>
    requires plain { NoLets (plain_flat flat.now).atoms }
    requires standing { Standing (plain_flat flat.now) arena.old trail.now last node }
    ensures { IfOk result (λ r. Retreats (plain_flat flat.now) arena.old arena.new trail.now last r) }
{
    let atom = number(trail.len())?;
    let Some(used) = first_mark(core(arena.as_slice(), node), atom) else {
        return Ok(Retreat::Refuted(node));
    };
    match next_step(last, is_number(flat, trail.len()), used, node) {
        Some(step) => Ok(Retreat::Next(step)),
        None => Ok(Retreat::Refuted(closed(alloc, arena, atom, last, used, node)?)),
    }
}

/// Goes back from marks that are refuted to the next ones, over marks that the refutations don't use; where there are none, all is
/// refuted.
pub fn advance(
    alloc: Global,
    flat: &Flat,
    arena: &mut Seq<Refutation>,
    trail: &mut Seq<Step>,
    node: usize,
) -> Result<Option<usize>, OutOfMemory>
    requires plain { NoLets (plain_flat flat.now).atoms }
    requires trail { Trail (plain_flat flat.now) arena.old trail.old }
    requires node { RefutesAt (plain_flat flat.now) arena.old (marks_in trail.old) node }
    ensures { IfOk result (λ o. Advanced (plain_flat flat.now) arena.old arena.new trail.old trail.new o) }
{
    let mut refuted = node;
    while let Some(last) = trail.pop() {
        match go_back(alloc, flat, arena, trail.as_slice(), last, refuted)? {
            Retreat::Next(step) => {
                trail.push(step)?;
                return Ok(None);
            }
            Retreat::Refuted(at) => {
                refuted = at;
            }
        }
    }
    Ok(Some(refuted))
}
