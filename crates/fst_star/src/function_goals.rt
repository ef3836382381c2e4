//! The goals of a function, from a transformer.
ghost use Rattle.std.specs.Prelude.{◌≡◌, ◌++◌, [], map, IfOk, OnOk};
ghost use Rattle.fst_program.specs.Paths.{goal_site, plain_goal};
ghost use Rattle.fst_program.specs.Plain.{plain_fun, plain_program};
ghost use Rattle.fst_program.specs.Texts.{fun_at, if_there};
ghost use Rattle.fst_star.specs.Laws.{goals_by};
ghost use Rattle.fst_star.specs.Met.{plain_event, plain_trail};
ghost use Rattle.fst_star.specs.Plain.{plain_wp};
ghost use Rattle.fst_scopes.specs.Scopes.{terms_for};
ghost use Rattle.fst_star.specs.Starting.{end_goals, goals_met};
ghost use Rattle.fst_terms.specs.Terms.{plain_term};

use crate::gathering::{Event, after, gather};
use crate::putting::put_box;
use crate::starting::{own_terms, start, vars_from};
use crate::trail::Trail;
use crate::wp::Wp;
use fst_base::{OutOfMemory, Pos, Seq, pair};
use fst_program::{Fun, Goal, Program, Site, SiteKind};
use fst_terms::{Formula, Sequent, Term};
use std::alloc::Global;

/// The goals of the function with this number that the transformer gives, in order, with its ensures at the ends. There are none
/// where the program has no such function.
pub fn goals(alloc: Global, program: &Program, fun: u32, wp: &Wp) -> Result<Seq<Goal>, OutOfMemory>
    ensures { IfOk result (λ made. map plain_goal made ≡ if_there (fun_at (plain_program program.now) fun) (λ f. goals_by (plain_program program.now) fun f (plain_wp wp.now)) []) }
{
    match program.funs.get(fun as usize) {
        Some(found) => goals_by(alloc, program, fun, found, wp),
        None => Ok(Seq::new(alloc)),
    }
}

/// The same for a function that is there.
fn goals_by(
    alloc: Global,
    program: &Program,
    number: u32,
    fun: &Fun,
    wp: &Wp,
) -> Result<Seq<Goal>, OutOfMemory>
    ensures { IfOk result (λ made. map plain_goal made ≡ goals_by (plain_program program.now) number (plain_fun fun.now) (plain_wp wp.now)) }
{
    let trail = start(alloc, program, fun)?;
    let count = trail.count()?;
    let (terms, own) = pair(vars_from(alloc, 0, count), own_terms(alloc, fun))?;
    let mut met = Seq::new(alloc);
    gather(alloc, wp, terms.as_slice(), &trail, &mut met)?;
    goals_met(alloc, number, fun, count, own.as_slice(), met.as_slice())
}

/// The goals of these events, on a way that began with `count` variables; the terms `own` are those of the ensures's variables.
fn goals_met(
    alloc: Global,
    number: u32,
    fun: &Fun,
    count: u32,
    own: &[Term],
    met: &[Event],
) -> Result<Seq<Goal>, OutOfMemory>
    ensures { IfOk result (λ made. map plain_goal made ≡ goals_met number (plain_fun fun.now) count (terms_for own.now) (map plain_event met.now)) }
{
    let mut made = Seq::new(alloc);
    for event in met {
        match event {
            Event::Site(kind, at, formula, trail) => {
                add_goal(alloc, number, *kind, *at, formula, trail, &mut made)?;
            }
            Event::End(trail, term) => {
                add_end(alloc, number, fun, count, own, trail, term, &mut made)?;
            }
        }
    }
    Ok(made)
}

/// Adds the goal of a site.
fn add_goal(
    alloc: Global,
    number: u32,
    kind: SiteKind,
    at: Pos,
    formula: &Formula,
    trail: &Trail,
    made: &mut Seq<Goal>,
) -> Result<(), OutOfMemory>
    ensures { OnOk result (map plain_goal made.new ≡ map plain_goal made.old ++ goal_site number kind at.at (plain_term formula.now) (plain_trail trail.now)) }
{
    let (goal, trail) = pair(formula.copy(alloc), trail.copy(alloc))?;
    let Trail {
        vars,
        hyps,
        choices,
    } = trail;
    let fun = number;
    let site = Site {
        kind,
        fun,
        at,
        choices,
    };
    let sequent = Sequent { vars, hyps, goal };
    made.push(Goal { site, sequent })?;
    Ok(())
}

/// Adds the goal of an end: the ensures with its result.
fn add_end(
    alloc: Global,
    number: u32,
    fun: &Fun,
    count: u32,
    own: &[Term],
    trail: &Trail,
    term: &Term,
    made: &mut Seq<Goal>,
) -> Result<(), OutOfMemory>
    ensures { OnOk result (map plain_goal made.new ≡ map plain_goal made.old ++ end_goals number (plain_fun fun.now) count (terms_for own.now) (plain_trail trail.now) (plain_term term.now)) }
{
    match &fun.gives {
        Some(gives) => {
            let terms = after(alloc, own, count, trail, term)?;
            let formula = put_box(alloc, gives, terms.as_slice())?;
            add_goal(
                alloc,
                number,
                SiteKind::Ensures,
                fun.at,
                formula.get(),
                trail,
                made,
            )
        }
        None => Ok(()),
    }
}
