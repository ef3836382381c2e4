//! The first open branch of a propositional sequent.

ghost use Rattle.std.specs.Prelude.{◌≡◌, [], ◌∷◌, ◌++◌, ◌<◌, ◌≤◌, length, IsTrue, IfOk};
ghost use Rattle.fst_terms.specs.Flats.{AreTruths, is_truth, plain_flat};
ghost use Rattle.fst_terms.specs.Meaning.{plain_sequent};
ghost use Rattle.fst_terms.specs.Propositional.{IsPropositional};
ghost use Rattle.fst_terms.specs.Searching.{IsPropositionalFlat, Searched, is_closed, is_value};
ghost use Rattle.fst_top.specs.Branches.{FirstOpen, Judged};

use fst_base::{OutOfMemory, Seq};
use fst_terms::{Branch, Flat, Mark, Sequent, prepare, read};
use std::alloc::Global;

/// What is known of a sequent.
#[derive(Drop)]
pub enum Verdict {
    Valid,
    /// Its flat form and the first open branch.
    Open(Flat, Branch),
}

/// Whether a propositional sequent is valid, and else its first open branch.
pub fn judge(alloc: Global, sequent: &Sequent) -> Result<Verdict, OutOfMemory>
    requires { IsPropositional (plain_sequent sequent.now) }
    ensures { IfOk result (λ verdict. Judged (plain_sequent sequent.now) verdict) }
{
    let flat = prepare(alloc, sequent, &Seq::new(alloc))?;
    match first_open(alloc, &flat) {
        Ok(None) => Ok(Verdict::Valid),
        Ok(Some(branch)) => Ok(Verdict::Open(flat, branch)),
        Err(fault) => Err(fault),
    }
}

/// The first open branch of a flat form.
pub fn first_open(alloc: Global, flat: &Flat) -> Result<Option<Branch>, OutOfMemory>
    requires { IsPropositionalFlat (plain_flat flat.now) }
    ensures { IfOk result (λ branch. FirstOpen (plain_flat flat.now) branch) }
{
    let mut marks = Seq::new(alloc);
    if search(flat, &mut marks)? {
        Ok(Some(Branch { marks }))
    } else {
        Ok(None)
    }
}

/// Looks for the first open branch that begins with these marks, and leaves it in their place; where there is none the marks
/// stay. No more marks change a value that a formula has, so the search is cut where one is false, or the goal true.
#[cycle(search)]
fn search(flat: &Flat, marks: &mut Seq<Mark>) -> Result<bool, OutOfMemory>
    requires flat { IsPropositionalFlat (plain_flat flat.now) }
    requires short { length marks.old ≤ length flat.now.atoms }
    requires truths { AreTruths marks.old }
    ensures { IfOk result (λ found. Searched (plain_flat flat.now) marks.old marks.old marks.new found) }
{
    if is_closed(flat, marks.as_slice()) {
        return Ok(false);
    }
    if marks.len() == flat.atoms.len() {
        return Ok(true);
    }
    if search_with(flat, marks, Mark::True)? {
        return Ok(true);
    }
    search_with(flat, marks, Mark::False)
}

/// The same with one more mark; where there is no open branch the marks stay without it.
#[cycle(search)]
fn search_with(flat: &Flat, marks: &mut Seq<Mark>, mark: Mark) -> Result<bool, OutOfMemory>
    requires flat { IsPropositionalFlat (plain_flat flat.now) }
    requires short { length marks.old < length flat.now.atoms }
    requires truths { AreTruths marks.old }
    requires mark { IsTrue (is_truth mark) }
    ensures { IfOk result (λ found. Searched (plain_flat flat.now) (marks.old ++ mark ∷ []) marks.old marks.new found) }
{
    marks.push(mark)?;
    let found = search(flat, marks)?;
    if !found {
        marks.pop();
    }
    Ok(found)
}

/// Whether a formula is false already, or the goal true.
fn is_closed(flat: &Flat, marks: &[Mark]) -> bool
    requires { IsPropositionalFlat (plain_flat flat.now) }
    ensures { result ≡ is_closed (plain_flat flat.now) marks.now }
{
    for formula in flat.formulas.as_slice() {
        if is_value(read(flat, marks, formula), false) {
            return true;
        }
    }
    is_value(read(flat, marks, &flat.goal), true)
}

fn is_value(reading: Option<bool>, truth: bool) -> bool
    ensures { result ≡ is_value truth reading }
{
    match reading {
        Some(found) => found == truth,
        None => false,
    }
}
