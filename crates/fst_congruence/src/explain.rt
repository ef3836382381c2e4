ghost use Rattle.std.specs.Prelude.{◌≡◌, ◌<◌, List, [], length, map, IfOk};
ghost use Rattle.fst_congruence.specs.Classes.{label_at, Sound};
ghost use Rattle.fst_congruence.specs.Closures.{GivenLines};
ghost use Rattle.fst_congruence.specs.Extracts.{EarlierLines, ReasonsOf};
ghost use Rattle.fst_congruence.specs.Joined.{node_at};
ghost use Rattle.fst_congruence.specs.Lines.{At, Grown, Valid};
ghost use Rattle.fst_congruence.specs.Steps.{Fits};
ghost use Rattle.fst_congruence.specs.declared.equation.Equation.{Equation};

use crate::begin::zeros;
use crate::classes::Classes;
use crate::equation::Equation;
use crate::extract::{Needed, needed_lines};
use crate::log::{chain, note, straight};
use crate::node::Node;
use crate::why::Why;
use fst_base::{OutOfMemory, Seq};
use fst_cert::Line;
use std::alloc::Global;

/// Lines, and reasons that stand on them.
#[derive(Debug, Drop)]
pub struct Reasons {
    pub log: Seq<Equation>,
    pub first: Why,
    pub second: Why,
}

/// Copies of these equations with their lines.
pub fn copies(alloc: Global, log: &[Equation]) -> Result<Seq<Equation>, OutOfMemory>
    ensures { IfOk result (λ copies. copies ≡ log.now) }
{
    let mut copies = Seq::new(alloc);
    for equation in log {
        copies.push(equation.copy(alloc)?)?;
    }
    Ok(copies)
}

/// The lines of these equations.
pub fn lines(alloc: Global, log: &[Equation]) -> Result<Seq<Line>, OutOfMemory>
    ensures { IfOk result (λ lines. map (λ (e : Equation). e.by) log.now ≡ lines) }
{
    let mut lines = Seq::new(alloc);
    for equation in log {
        lines.push(equation.by.copy(alloc)?)?;
    }
    Ok(lines)
}

/// Appends the line by which the term is the same as itself.
fn itself(
    alloc: Global,
    nodes: &[Node],
    log: &mut Seq<Equation>,
    term: u32,
) -> Result<u32, OutOfMemory>
    requires within { term < length nodes.now }
    requires some { 0 < (node_at nodes.now term).kind }
    ensures { IfOk result (λ number. At log.new number term term × Grown nodes.now [] log.old log.new) }
{
    let reasons = zeros(alloc, nodes[term as usize].args.len())?;
    let by = Line::Same(term, term, reasons);
    note(
        log,
        Equation {
            left: term,
            right: term,
            by,
        },
    )
}

/// The lines of the log by which left and right, which have one label, equal it, and among them the reasons.
fn needed(alloc: Global, classes: &Classes, left: u32, right: u32) -> Result<Reasons, OutOfMemory>
    requires sound { Sound classes.now }
    requires earlier { EarlierLines classes.now.log }
    requires left { left < length classes.now.labels }
    requires right { right < length classes.now.labels }
    ensures { IfOk result (λ r. ReasonsOf classes.now r left right) }
{
    let up = classes.whys.as_slice()[left as usize];
    let down = classes.whys.as_slice()[right as usize];
    let Needed { log, numbers } = needed_lines(alloc, classes.log.as_slice(), up.line, down.line)?;
    let first = Why {
        line: numbers.as_slice()[up.line as usize],
        turned: up.turned,
    };
    let second = Why {
        line: numbers.as_slice()[down.line as usize],
        turned: down.turned,
    };
    Ok(Reasons { log, first, second })
}

/// Lines of which the last one gives left = right, which have one label.
pub fn argue(
    alloc: Global,
    nodes: &[Node],
    classes: &Classes,
    left: u32,
    right: u32,
) -> Result<Seq<Equation>, OutOfMemory>
    requires fits { Fits nodes.now classes.now }
    requires earlier { EarlierLines classes.now.log }
    requires left { left < length classes.now.labels }
    requires right { right < length classes.now.labels }
    requires some { 0 < (node_at nodes.now left).kind }
    requires same { label_at classes.now.labels left ≡ label_at classes.now.labels right }
    ensures { (es : List Equation) → GivenLines es → Valid nodes.now es classes.now.log → IfOk result (λ new. Valid nodes.now es new × At new (length new) left right) }
{
    let label = classes.labels.as_slice()[left as usize];
    let Reasons {
        mut log,
        first,
        second,
    } = needed(alloc, classes, left, right)?;
    let whole = chain(&mut log, first, second.back(), left, label, right)?;
    let line = straight(&mut log, whole, left, right)?;
    let last = if line == 0 {
        itself(alloc, nodes, &mut log, left)?
    } else {
        line
    };
    log.truncate(last as usize);
    Ok(log)
}
