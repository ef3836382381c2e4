//! The goals of a program, proved one by one up to the first no.

ghost use Rattle.std.specs.Prelude.{◌≡◌, ◌≤◌, ◌<◌, ◌+◌, ◌*◌, ◌^◌, [], map, length, IfOk, Some};
ghost use Rattle.fst_program.specs.Plain.{plain_program};
ghost use Rattle.fst_program.specs.Paths.{plain_goal, fun_goals, goals_of};
ghost use Rattle.fst_terms.specs.Flats.{plain_flat, flat_of};
ghost use Rattle.fst_terms.specs.Propositional.{IsPropositional};
ghost use Rattle.fst_top.specs.Built.{IsBuilt};
ghost use Rattle.fst_top.specs.Answers.{longest};
ghost use Rattle.fst_top.specs.Goals.{GoalsPropositional};
ghost use Rattle.fst_top.specs.Answering.{IsJudged, IsJudgedGoal, AreFewer};
ghost use Rattle.fst_top.specs.Printed.{no_text};

use crate::branches::{Verdict, judge};
use crate::goals::function_goals;
use crate::print;
use fst_base::{OutOfMemory, Seq};
use fst_program::{Goal, Program};
use fst_terms::{Branch, Flat};
use std::alloc::Global;

/// What goals are: all valid, with their number, or the text of a no about the first that isn't.
#[derive(Drop)]
pub enum Judged {
    Valid(u128),
    No(Seq<u8>),
}

/// What the goals of the program are.
pub fn judge_program(alloc: Global, text: &[u8], program: &Program) -> Result<Judged, OutOfMemory>
    requires short { length text.now ≤ longest }
    requires built { IsBuilt (plain_program program.now) }
    requires few { length program.now.funs ≤ 1000 }
    ensures judged { IfOk result (IsJudged text.now (plain_program program.now) (goals_of (plain_program program.now))) }
    ensures fewer { IfOk result (AreFewer (2 ^ 127)) }
{
    let mut goals: u128 = 0;
    for fun in 0..program.funs.len() as u32 {
        match judge_function(alloc, text, program, fun)? {
            Judged::Valid(count) => goals += count,
            Judged::No(printed) => return Ok(Judged::No(printed)),
        }
    }
    Ok(Judged::Valid(goals))
}

fn judge_function(
    alloc: Global,
    text: &[u8],
    program: &Program,
    fun: u32,
) -> Result<Judged, OutOfMemory>
    requires short { length text.now ≤ longest }
    requires built { IsBuilt (plain_program program.now) }
    requires there { fun < length program.now.funs }
    ensures judged { IfOk result (IsJudged text.now (plain_program program.now) (fun_goals (plain_program program.now) fun)) }
    ensures fewer { IfOk result (AreFewer (2 ^ 64)) }
{
    let goals = function_goals(alloc, program, fun)?;
    judge_goals(alloc, text, program, goals.as_slice())
}

fn judge_goals(
    alloc: Global,
    text: &[u8],
    program: &Program,
    goals: &[Goal],
) -> Result<Judged, OutOfMemory>
    requires short { length text.now ≤ longest }
    requires built { GoalsPropositional (map plain_goal goals.now) }
    ensures judged { IfOk result (IsJudged text.now (plain_program program.now) (map plain_goal goals.now)) }
    ensures fewer { IfOk result (AreFewer (2 ^ 64)) }
{
    let mut rest = goals;
    'goals: while let Some((goal, more)) = rest.split_first() {
        if let Some(printed) = judge_goal(alloc, text, program, goal)? {
            return Ok(Judged::No(printed));
        }
        rest = more;
    }
    Ok(Judged::Valid(goals.len() as u128))
}

/// The text of a no, where the goal isn't valid.
fn judge_goal(
    alloc: Global,
    text: &[u8],
    program: &Program,
    goal: &Goal,
) -> Result<Option<Seq<u8>>, OutOfMemory>
    requires short { length text.now ≤ longest }
    requires built { IsPropositional (plain_goal goal.now).sequent }
    ensures { IfOk result (IsJudgedGoal text.now (plain_program program.now) (plain_goal goal.now)) }
{
    match judge(alloc, &goal.sequent)? {
        Verdict::Valid => Ok(None),
        Verdict::Open(flat, branch) => no(alloc, text, program, goal, &flat, &branch),
    }
}

fn no(
    alloc: Global,
    text: &[u8],
    program: &Program,
    goal: &Goal,
    flat: &Flat,
    branch: &Branch,
) -> Result<Option<Seq<u8>>, OutOfMemory>
    requires short { length text.now ≤ longest }
    requires flat { plain_flat flat.now ≡ flat_of (plain_goal goal.now).sequent [] }
    ensures { IfOk result (λ o. o ≡ Some (no_text (plain_program program.now) (plain_goal goal.now) branch.now.marks text.now)) }
{
    let mut printed = Seq::new(alloc);
    print::no(program, goal, flat, branch, text, &mut printed)?;
    Ok(Some(printed))
}
