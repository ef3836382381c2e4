//! The marks that the lines of a closing read.

ghost use Rattle.std.specs.Prelude.{◌≡◌, ◌<◌, ◌≤◌, ℕ, length, IfOk};
ghost use Rattle.fst_cases.specs.Cited.{AllRead, IsCore, Read, core_list, entry_at, rank_of, want_at, wanted_by};

use crate::known::Known;
use crate::trail::number;
use fst_base::{OutOfMemory, Seq};
use fst_cert::Line;
use fst_terms::Mark;
use std::alloc::Global;

/// What is read of an atom's mark: nothing, its truth alone, or the mark.
#[derive(Clone, Copy, Debug, PartialEq, Eq)]
pub enum Want {
    Nothing,
    Truth,
    Whole,
}

/// Nothing is read of so many atoms.
pub fn nothing(alloc: Global, count: usize) -> Result<Vec<Want>, OutOfMemory>
    ensures { IfOk result (λ wants. length wants.items ≡ count) }
{
    let mut wants = Vec::new(alloc);
    for _at in 0..count {
        wants.push(Want::Nothing)?;
    }
    Ok(wants)
}

/// The mark of the atom is read, or its truth.
pub fn note(wants: &mut [Want], atom: u32, whole: bool)
    ensures kept { (b : ℕ) → rank_of (want_at wants.old b) ≤ rank_of (want_at wants.new b) }
    ensures wanted { rank_of (wanted_by whole) ≤ rank_of (want_at wants.new atom) }
{
    let after = atom as usize;
    if after == 0 || after > wants.len() || wants[after - 1] == Want::Whole {
        return;
    }
    wants[after - 1] = if whole { Want::Whole } else { Want::Truth };
}

/// What this line reads is read.
fn want_line(wants: &mut [Want], line: &Line)
    ensures kept { (b : ℕ) → rank_of (want_at wants.old b) ≤ rank_of (want_at wants.new b) }
    ensures read { Read wants.new line.now }
{
    match line {
        Line::Given(atom) => note(wants, *atom, true),
        Line::Atom(atom, _) => note(wants, *atom, true),
        Line::Unequal(atom, _) => note(wants, *atom, false),
        _ => {}
    }
}

/// What these lines read is read.
fn want_lines(wants: &mut [Want], lines: &[Line])
    ensures kept { (b : ℕ) → rank_of (want_at wants.old b) ≤ rank_of (want_at wants.new b) }
    ensures read { AllRead wants.new lines.now }
{
    for line in lines {
        want_line(wants, line);
    }
}

/// What is read of the mark at this place.
fn entry(wants: &[Want], marks: &[Mark], at: usize) -> Result<Option<Known>, OutOfMemory>
    requires wants { at < length wants.now }
    requires marks { at < length marks.now }
    ensures { IfOk result (λ known. known ≡ entry_at wants.now marks.now at) }
{
    let atom = number(at)?;
    let mark = marks[at];
    Ok(match wants[at] {
        Want::Nothing => None,
        Want::Truth => Some(Known {
            atom,
            mark: if mark == Mark::True {
                Mark::True
            } else {
                Mark::False
            },
        }),
        Want::Whole => Some(Known { atom, mark }),
    })
}

/// The marks that are read, by falling atoms.
pub fn core_of(alloc: Global, wants: &[Want], marks: &[Mark]) -> Result<Seq<Known>, OutOfMemory>
    requires { length wants.now ≡ length marks.now }
    ensures { IfOk result (λ core. core ≡ core_list wants.now marks.now (length marks.now)) }
{
    let mut core = Seq::new(alloc);
    for done in 0..marks.len() {
        if let Some(known) = entry(wants, marks, marks.len() - 1 - done)? {
            core.push(known)?;
        }
    }
    Ok(core)
}

/// The marks that the lines of a closing read, beside notes for each atom.
fn core_noted(
    alloc: Global,
    marks: &[Mark],
    wants: &mut [Want],
    equations: &[Line],
    rows: &[Line],
    verdict: &Line,
) -> Result<Seq<Known>, OutOfMemory>
    requires { length wants.old ≡ length marks.now }
    ensures { IfOk result (λ core. IsCore marks.now core equations.now rows.now verdict.now) }
{
    want_lines(wants, equations);
    want_lines(wants, rows);
    want_line(wants, verdict);
    core_of(alloc, wants, marks)
}

/// The marks that the lines of a closing read.
pub fn core_by(
    alloc: Global,
    marks: &[Mark],
    equations: &[Line],
    rows: &[Line],
    verdict: &Line,
) -> Result<Seq<Known>, OutOfMemory>
    ensures { IfOk result (λ core. IsCore marks.now core equations.now rows.now verdict.now) }
{
    let mut wants = nothing(alloc, marks.len())?;
    core_noted(alloc, marks, wants.as_mut_slice(), equations, rows, verdict)
}
