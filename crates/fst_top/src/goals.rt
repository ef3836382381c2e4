//! The goals of a built function: one at the end of each way through its body, where it has ensures.

mod instantiate;
mod walker;
mod way;

ghost use Rattle.std.specs.Prelude.{◌≡◌, ◌<◌, length, map, IfOk};
ghost use Rattle.fst_program.specs.Paths.{fun_goals, plain_goal};
ghost use Rattle.fst_program.specs.Plain.{plain_program};
ghost use Rattle.fst_top.specs.Built.{IsBuilt};

use crate::goals::walker::Walker;
use fst_base::{OutOfMemory, Seq};
use fst_program::{Goal, Program};
use std::alloc::Global;

/// The goals of the function of this number, in order.
pub fn function_goals(
    alloc: Global,
    program: &Program,
    number: u32,
) -> Result<Seq<Goal>, OutOfMemory>
    requires built { IsBuilt (plain_program program.now) }
    requires within { number < length program.now.funs }
    ensures { IfOk result (λ goals. map plain_goal goals ≡ fun_goals (plain_program program.now) number) }
{
    let walker = Walker {
        alloc,
        fun: &program.funs.as_slice()[number as usize],
        number,
    };
    let goals = walker.goals()?;
    Ok(goals)
}
