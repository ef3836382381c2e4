ghost use Rattle.std.specs.Prelude.{◌≡◌, ◌≤◌, ◌<◌, ◌+◌, ◌^◌, ◌++◌, length, OnOk};
ghost use Rattle.fst_program.specs.Paths.{plain_goal};
ghost use Rattle.fst_program.specs.Plain.{plain_program};
ghost use Rattle.fst_top.specs.Printed.{kind_text, con_text, choice_text, choices_text, path_text, name_of_fun, site_text};

use crate::print::number::print_place;
use fst_base::{OutOfMemory, Seq};
use fst_program::{Choice, Con, Goal, Program, SiteKind};

fn kind_text(kind: SiteKind) -> &'static [u8]
    ensures { result.now ≡ kind_text kind }
{
    match kind {
        SiteKind::Divisor => b"divisor",
        SiteKind::Match => b"match",
        SiteKind::Requires => b"requires",
        SiteKind::Decreases => b"decreases",
        SiteKind::Assert => b"assert",
        SiteKind::Ensures => b"ensures",
    }
}

fn con_text(con: Con) -> &'static [u8]
    ensures { result.now ≡ con_text con }
{
    match con {
        Con::True => b"true",
        Con::False => b"false",
        Con::Empty => b"none",
        Con::Full => b"some",
        Con::Nil => b"nil",
        Con::Cons => b"cons",
        Con::Left => b"inl",
        Con::Right => b"inr",
        Con::Pair => b"pair",
    }
}

fn choice_text(choice: Choice) -> &'static [u8]
    ensures { result.now ≡ choice_text choice }
{
    match choice {
        Choice::Then => b"then",
        Choice::Else => b"else",
        Choice::Case(con) => con_text(con),
    }
}

/// Appends the choices of a way, a space before each.
fn print_choices(choices: &[Choice], out: &mut Seq<u8>) -> Result<(), OutOfMemory>
    ensures { OnOk result (out.new ≡ out.old ++ choices_text choices.now) }
{
    for choice in choices {
        out.extend_from_slice(b" ")?;
        out.extend_from_slice(choice_text(*choice))?;
    }
    Ok(())
}

/// Appends the path line of a goal.
pub fn print_path(goal: &Goal, out: &mut Seq<u8>) -> Result<(), OutOfMemory>
    ensures { OnOk result (out.new ≡ out.old ++ path_text goal.now.site.choices) }
{
    out.extend_from_slice(b"path")?;
    print_choices(goal.site.choices.as_slice(), out)?;
    out.extend_from_slice(b"\n")
}

/// The name of a function of the program.
fn name_of_fun(program: &Program, fun: u32) -> &[u8]
    ensures { result.now ≡ name_of_fun (plain_program program.now) fun }
{
    match program.funs.get(fun as usize) {
        Some(fun) => fun.name.text().as_bytes(),
        None => b"",
    }
}

/// Appends what a goal is for, its function and its place in the text.
pub fn print_site(
    program: &Program,
    goal: &Goal,
    text: &[u8],
    out: &mut Seq<u8>,
) -> Result<(), OutOfMemory>
    requires short { length text.now + 1 < 2 ^ 32 }
    ensures { OnOk result (out.new ≡ out.old ++ site_text (plain_program program.now) (plain_goal goal.now) text.now) }
{
    out.extend_from_slice(kind_text(goal.site.kind))?;
    out.extend_from_slice(b" of ")?;
    out.extend_from_slice(name_of_fun(program, goal.site.fun))?;
    out.extend_from_slice(b" at ")?;
    print_place(text, goal.site.at, out)?;
    out.extend_from_slice(b"\n")
}
