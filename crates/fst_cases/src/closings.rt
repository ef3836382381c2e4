//! Refutations by closings.

ghost use Rattle.std.specs.Prelude.{◌≡◌, length, IfOk};
ghost use Rattle.fst_cases.specs.Refuting.{Closes, closing};
ghost use Rattle.fst_cases.specs.Verdicts.{IsOf};
ghost use Rattle.fst_terms.specs.Flats.{Flt};
ghost use Rattle.fst_terms.specs.Marks.{marks_of};

use crate::cores::core_by;
use crate::verdict::Leaf;
use fst_base::{OutOfMemory, Seq};
use fst_cert::Line;
use fst_terms::Mark;
use std::alloc::Global;

pub fn count(lines: &[Line]) -> Result<u32, OutOfMemory>
    ensures { IfOk result (λ count. count ≡ length lines.now) }
{
    match u32::try_from(lines.len()) {
        Ok(count) => Ok(count),
        Err(_) => Err(OutOfMemory),
    }
}

/// The lines of a closing.
fn closing(
    alloc: Global,
    equations: Seq<Line>,
    mut rows: Seq<Line>,
    verdict: Line,
) -> Result<Seq<Line>, OutOfMemory>
    ensures { IfOk result (λ lines. lines ≡ closing equations rows verdict) }
{
    let head = Line::Close(count(equations.as_slice())?, count(rows.as_slice())?);
    let mut lines = Seq::new(alloc);
    rows.push(verdict)?;
    lines.push(head)?;
    lines.append(equations)?;
    lines.append(rows)?;
    Ok(lines)
}

/// The refutation by these equation lines, row lines and verdict.
pub fn refuted_by(
    alloc: Global,
    marks: &[Mark],
    equations: Seq<Line>,
    rows: Seq<Line>,
    verdict: Line,
) -> Result<Leaf, OutOfMemory>
    ensures { (f : Flt) → Closes f (marks_of marks.now) equations rows verdict → IfOk result (λ leaf. IsOf f marks.now leaf) }
{
    let core = core_by(
        alloc,
        marks,
        equations.as_slice(),
        rows.as_slice(),
        &verdict,
    )?;
    let lines = closing(alloc, equations, rows, verdict)?;
    Ok(Leaf::Refuted(core, lines))
}
