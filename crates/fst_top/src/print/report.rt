ghost use Rattle.std.specs.Prelude.{◌≡◌, ◌≤◌, ◌<◌, ◌+◌, ◌^◌, ◌++◌, [], length, OnOk};
ghost use Rattle.fst_terms.specs.Flats.{plain_flat, flat_of};
ghost use Rattle.fst_program.specs.Paths.{plain_goal, goals_of};
ghost use Rattle.fst_program.specs.Plain.{plain_program};
ghost use Rattle.fst_top.specs.Help.{help_text, usage_text, statuses_text, version_text};
ghost use Rattle.fst_base.specs.Values.{plain_value};
ghost use Rattle.fst_top.specs.Printed.{counted, yes_text, no_text, value_text};

use crate::print::branch::print_branch;
use crate::print::goal::{print_path, print_site};
use crate::print::number::print_number;
use fst_base::{OutOfMemory, Seq, Value};
use fst_program::{Goal, Program};
use fst_terms::{Branch, Flat};
use fst_values::print_value;

/// Appends a number and what it counts.
fn print_count(number: u128, what: &[u8], out: &mut Seq<u8>) -> Result<(), OutOfMemory>
    requires { number < 2 ^ 127 }
    ensures { OnOk result (out.new ≡ out.old ++ counted number what.now) }
{
    print_number(number, out)?;
    out.extend_from_slice(what)
}

fn number_of_funs(program: &Program) -> u128
    ensures number { result ≡ length (plain_program program.now).funs }
    ensures bound { result < 2 ^ 127 }
{
    program.funs.len() as u128
}

/// Appends a yes, with the numbers of functions and goals.
pub fn yes(program: &Program, goals: u128, out: &mut Seq<u8>) -> Result<(), OutOfMemory>
    requires goals { goals ≡ length (goals_of (plain_program program.now)) }
    requires bound { goals < 2 ^ 127 }
    ensures { OnOk result (out.new ≡ out.old ++ yes_text (plain_program program.now)) }
{
    out.extend_from_slice(b"checked: ")?;
    print_count(number_of_funs(program), b" functions, ", out)?;
    print_count(goals, b" goals\n", out)
}

/// Appends a no: the goal, the path to it and the open branch.
pub fn no(
    program: &Program,
    goal: &Goal,
    flat: &Flat,
    branch: &Branch,
    text: &[u8],
    out: &mut Seq<u8>,
) -> Result<(), OutOfMemory>
    requires short { length text.now + 1 < 2 ^ 32 }
    requires flat { plain_flat flat.now ≡ flat_of ((plain_goal goal.now).sequent) [] }
    ensures { OnOk result (out.new ≡ out.old ++ no_text (plain_program program.now) (plain_goal goal.now) branch.now.marks text.now) }
{
    out.extend_from_slice(b"not proved: ")?;
    print_site(program, goal, text, out)?;
    print_path(goal, out)?;
    print_branch(flat, branch, out)
}

/// Appends the value of a run.
pub fn value(value: &Value, out: &mut Seq<u8>) -> Result<(), OutOfMemory>
    ensures { OnOk result (out.new ≡ out.old ++ value_text (plain_value value.now)) }
{
    print_value(value, out)?;
    out.extend_from_slice(b"\n")
}

pub fn help(out: &mut Seq<u8>) -> Result<(), OutOfMemory>
    ensures { OnOk result (out.new ≡ out.old ++ help_text) }
{
    print_usage(out)?;
    print_statuses(out)?;
    out.extend_from_slice(b"example: fstar check examples/same.fst\n")
}

fn print_usage(out: &mut Seq<u8>) -> Result<(), OutOfMemory>
    ensures { OnOk result (out.new ≡ out.old ++ usage_text) }
{
    out.extend_from_slice(
        b"fstar: a checker and runner for a first-order core of F* with user-defined effects\n\nfstar check FILE                proves the functions of the file\nfstar run FILE FUEL ARGUMENTS   proves them, then runs main with so many units of fuel\nfstar --help                    prints this text\nfstar --version                 prints the version and the kit\n./fstar --prove                 in a checkout: proves and builds the program\n\n",
    )
}

fn print_statuses(out: &mut Seq<u8>) -> Result<(), OutOfMemory>
    ensures { OnOk result (out.new ≡ out.old ++ statuses_text) }
{
    out.extend_from_slice(
        b"exit statuses: 0 done, 1 not proved, 2 the file is refused, 3 the words are refused,\n4 out of fuel, 7 the file can't be read, 8 the text can't be written, 10 no memory;\n70 the script ./fstar itself failed\n\n",
    )
}

pub fn version(out: &mut Seq<u8>) -> Result<(), OutOfMemory>
    ensures { OnOk result (out.new ≡ out.old ++ version_text) }
{
    out.extend_from_slice(b"fstar 0.1.0, proved with rattle-kit-13f logic dac8208d650f15bf\n")
}
