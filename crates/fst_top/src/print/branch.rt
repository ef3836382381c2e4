ghost use Rattle.std.specs.Prelude.{◌≡◌, ◌≤◌, ◌++◌, map, length, take, slice_get, OnOk, bytes_eq};
ghost use Rattle.fst_terms.specs.Meaning.{plain_var};
ghost use Rattle.fst_terms.specs.Terms.{plain_term};
ghost use Rattle.fst_terms.specs.Flats.{plain_flat};
ghost use Rattle.fst_top.specs.Elaboration.{is_blank};
ghost use Rattle.fst_top.specs.Printed.{count_of_name, numbered, variable_behind, variable_text, atom_text, mark_text, marked_text, marks_text, branch_text};

use crate::print::number::print_number;
use fst_base::{Name, OutOfMemory, Seq};
use fst_terms::{Branch, Flat, Mark, Term, Var};

fn mark_text(mark: Mark) -> &'static [u8]
    ensures { result.now ≡ mark_text mark }
{
    match mark {
        Mark::True => b"true",
        Mark::False => b"false",
        Mark::Less => b"less",
        Mark::Greater => b"greater",
    }
}

fn same_name(a: &Name, b: &Name) -> bool
    ensures { result ≡ bytes_eq a.now b.now }
{
    a.same(b)
}

/// Whether the name binds nothing.
fn is_blank(name: &Name) -> bool
    ensures { result ≡ is_blank name.now }
{
    name.text() == "_"
}

/// How many of these variables have the name.
fn count_of_name(name: &Name, vars: &[Var]) -> usize
    ensures count { result ≡ count_of_name name.now (map plain_var vars.now) }
    ensures most { result ≤ length vars.now }
{
    let mut count = 0;
    let mut rest = vars;
    'vars: while let Some((var, more)) = rest.split_first() {
        if same_name(&var.name, name) {
            count += 1;
        }
        rest = more;
    }
    count
}

/// Appends the name of a variable after so many variables of that name.
fn print_numbered(name: &Name, before: usize, out: &mut Seq<u8>) -> Result<(), OutOfMemory>
    ensures { OnOk result (out.new ≡ out.old ++ numbered name.now before) }
{
    out.extend_from_slice(name.text().as_bytes())?;
    if before == 0 {
        return Ok(());
    }
    if is_blank(name) {
        return Ok(());
    }
    out.extend_from_slice(b"'")?;
    print_number(before as u128 + 1, out)
}

/// Appends the variable that stands there, numbered by those before it.
fn print_behind(vars: &[Var], at: usize, out: &mut Seq<u8>) -> Result<(), OutOfMemory>
    ensures { OnOk result (out.new ≡ out.old ++ variable_behind (take at (map plain_var vars.now)) (slice_get (map plain_var vars.now) at)) }
{
    let Some(var) = vars.get(at) else {
        return Ok(());
    };
    print_numbered(&var.name, count_of_name(&var.name, &vars[..at]), out)
}

/// Appends the variable of an index: the last variable has index 0.
fn print_variable(vars: &[Var], index: u32, out: &mut Seq<u8>) -> Result<(), OutOfMemory>
    ensures { OnOk result (out.new ≡ out.old ++ variable_text (map plain_var vars.now) index) }
{
    let index = index as usize;
    if index >= vars.len() {
        return Ok(());
    }
    print_behind(vars, vars.len() - 1 - index, out)
}

fn print_atom(vars: &[Var], atom: &Term, out: &mut Seq<u8>) -> Result<(), OutOfMemory>
    ensures { OnOk result (out.new ≡ out.old ++ atom_text (map plain_var vars.now) (plain_term atom.now)) }
{
    match atom {
        Term::Var(index) => print_variable(vars, *index, out),
        _ => Ok(()),
    }
}

fn print_marked(vars: &[Var], atom: &Term, mark: Mark, out: &mut Seq<u8>) -> Result<(), OutOfMemory>
    ensures { OnOk result (out.new ≡ out.old ++ marked_text (map plain_var vars.now) (plain_term atom.now) mark) }
{
    out.extend_from_slice(b"  ")?;
    print_atom(vars, atom, out)?;
    out.extend_from_slice(b" is ")?;
    out.extend_from_slice(mark_text(mark))?;
    out.extend_from_slice(b"\n")
}

fn print_marks(
    vars: &[Var],
    atoms: &[Term],
    marks: &[Mark],
    out: &mut Seq<u8>,
) -> Result<(), OutOfMemory>
    ensures { OnOk result (out.new ≡ out.old ++ marks_text (map plain_var vars.now) (map plain_term atoms.now) marks.now) }
{
    let mut atoms = atoms;
    let mut marks = marks;
    'marks: while let Some((atom, more)) = atoms.split_first() {
        let Some((mark, rest)) = marks.split_first() else {
            return Ok(());
        };
        print_marked(vars, atom, *mark, out)?;
        atoms = more;
        marks = rest;
    }
    Ok(())
}

/// Appends a branch of a flat form, a line for each atom.
pub fn print_branch(flat: &Flat, branch: &Branch, out: &mut Seq<u8>) -> Result<(), OutOfMemory>
    ensures { OnOk result (out.new ≡ out.old ++ branch_text (plain_flat flat.now) branch.now.marks) }
{
    out.extend_from_slice(b"branch\n")?;
    print_marks(
        flat.vars.as_slice(),
        flat.atoms.as_slice(),
        branch.marks.as_slice(),
        out,
    )
}
