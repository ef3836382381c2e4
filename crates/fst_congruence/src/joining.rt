ghost use Rattle.std.specs.Prelude.{◌≡◌, ◌≢◌, ◌↔◌, ◌<◌, ℕ, List, [], true, false, length, slice_index, IfOk, OnOk, IsTrue, Contains};
ghost use Rattle.fst_congruence.specs.Classes.{label_at, Sound, ArgsClosed, PartsClosed};
ghost use Rattle.fst_congruence.specs.Joined.{arity};
ghost use Rattle.fst_congruence.specs.Lines.{Holds};
ghost use Rattle.fst_congruence.specs.Steps.{Fits, Step, PartClosed, SidesLabelled, SidesWithin};
ghost use Rattle.fst_congruence.specs.declared.equation.Equation.{Equation};
ghost use Rattle.fst_congruence.specs.declared.node.Node.{Node};

use crate::classes::Classes;
use crate::equation::Equation;
use crate::log::{note, place};
use crate::node::Node;
use crate::why::Why;
use fst_base::OutOfMemory;
use fst_cert::Line;
use std::alloc::Global;

/// Whether these terms have the same labels in order.
fn same_labels(labels: &[u32], lefts: &[u32], rights: &[u32]) -> bool
    requires count { length lefts.now ≡ length rights.now }
    requires left { (k : ℕ) → k < length lefts.now → slice_index lefts.now k < length labels.now }
    requires right { (k : ℕ) → k < length lefts.now → slice_index rights.now k < length labels.now }
    ensures { IsTrue result ↔ ((k : ℕ) → k < length lefts.now → label_at labels.now (slice_index lefts.now k) ≡ label_at labels.now (slice_index rights.now k)) }
{
    for at in 0..lefts.len() {
        if labels[lefts[at] as usize] != labels[rights[at] as usize] {
            return false;
        }
    }
    true
}

/// Joins left and right, which are apart, by a line that gives left = right.
fn join_by(
    alloc: Global,
    classes: &mut Classes,
    left: u32,
    right: u32,
    by: Line,
) -> Result<(), OutOfMemory>
    requires sound { Sound classes.old }
    requires left { left < length classes.old.labels }
    requires right { right < length classes.old.labels }
    requires differ { label_at classes.old.labels left ≢ label_at classes.old.labels right }
    ensures { (ns : List Node) (es : List Equation) → Holds ns es classes.old.log (record { left = left; right = right; by = by }) → OnOk result (Step ns es classes.old classes.new true) }
{
    let line = note(&mut classes.log, Equation { left, right, by })?;
    let turned = false;
    classes.join(alloc, left, right, Why { line, turned })
}

/// Joins the two terms where they have one head and one sort, and arguments with the same labels; tells whether it did.
pub fn join_by_args(
    alloc: Global,
    nodes: &[Node],
    classes: &mut Classes,
    left: u32,
    right: u32,
) -> Result<bool, OutOfMemory>
    requires fits { Fits nodes.now classes.old }
    requires left { left < length nodes.now }
    requires right { right < length nodes.now }
    ensures { IfOk result (λ joined. Step nodes.now [] classes.old classes.new joined × (joined ≡ false → ArgsClosed nodes.now classes.new.labels left right)) }
{
    let first = &nodes[left as usize];
    let second = &nodes[right as usize];
    if first.kind == 0 || first.kind != second.kind || first.args.len() != second.args.len() {
        return Ok(false);
    }
    let lefts = first.args.as_slice();
    let rights = second.args.as_slice();
    let labels = classes.labels.as_slice();
    if labels[left as usize] == labels[right as usize] || !same_labels(labels, lefts, rights) {
        return Ok(false);
    }
    let lines = classes.reasons(alloc, lefts, rights)?;
    join_by(alloc, classes, left, right, Line::Same(left, right, lines))?;
    Ok(true)
}

/// Joins the parts of the two terms at this place where the terms have the same label and the same constructor; tells whether
/// it did.
fn join_part(
    alloc: Global,
    nodes: &[Node],
    classes: &mut Classes,
    left: u32,
    right: u32,
    at: usize,
) -> Result<bool, OutOfMemory>
    requires fits { Fits nodes.now classes.old }
    requires left { left < length nodes.now }
    requires right { right < length nodes.now }
    requires first { at < arity nodes.now left }
    requires second { at < arity nodes.now right }
    ensures { IfOk result (λ joined. Step nodes.now [] classes.old classes.new joined × (joined ≡ false → PartClosed nodes.now classes.new.labels left right at)) }
{
    let first = &nodes[left as usize];
    let second = &nodes[right as usize];
    let labels = classes.labels.as_slice();
    if labels[left as usize] != labels[right as usize]
        || first.constructor == 0
        || first.constructor != second.constructor
    {
        return Ok(false);
    }
    let x = first.args.as_slice()[at];
    let y = second.args.as_slice()[at];
    if labels[x as usize] == labels[y as usize] {
        return Ok(false);
    }
    let whole = classes.reason(left, right)?;
    let place = place(at)?;
    join_by(alloc, classes, x, y, Line::Part(whole, place))?;
    Ok(true)
}

/// Joins the parts of the two terms in order where the terms have the same label and the same constructor; tells whether it did.
pub fn join_parts(
    alloc: Global,
    nodes: &[Node],
    classes: &mut Classes,
    left: u32,
    right: u32,
) -> Result<bool, OutOfMemory>
    requires fits { Fits nodes.now classes.old }
    requires left { left < length nodes.now }
    requires right { right < length nodes.now }
    ensures { IfOk result (λ joined. Step nodes.now [] classes.old classes.new joined × (joined ≡ false → PartsClosed nodes.now classes.new.labels left right)) }
{
    let first = nodes[left as usize].args.len();
    let second = nodes[right as usize].args.len();
    let mut joined = false;
    for at in 0..first.min(second) {
        joined |= join_part(alloc, nodes, classes, left, right, at)?;
    }
    Ok(joined)
}

/// Joins an equation's sides; tells whether they were apart.
fn join_sides(
    alloc: Global,
    equation: &Equation,
    classes: &mut Classes,
) -> Result<bool, OutOfMemory>
    requires sound { Sound classes.old }
    requires left { equation.now.left < length classes.old.labels }
    requires right { equation.now.right < length classes.old.labels }
    ensures { (ns : List Node) (es : List Equation) → Contains es equation.now → IfOk result (λ joined. Step ns es classes.old classes.new joined × (joined ≡ false → SidesLabelled classes.new.labels equation.now)) }
{
    let labels = classes.labels.as_slice();
    if labels[equation.left as usize] == labels[equation.right as usize] {
        return Ok(false);
    }
    let by = equation.by.copy(alloc)?;
    join_by(alloc, classes, equation.left, equation.right, by)?;
    Ok(true)
}

/// Joins the sides of each equation; tells whether some were apart.
pub fn join_given(
    alloc: Global,
    equations: &[Equation],
    classes: &mut Classes,
) -> Result<bool, OutOfMemory>
    requires sound { Sound classes.old }
    requires within { SidesWithin equations.now (length classes.old.labels) }
    ensures { (ns : List Node) → IfOk result (λ joined. Step ns equations.now classes.old classes.new joined × (joined ≡ false → (e : Equation) → Contains equations.now e → SidesLabelled classes.new.labels e)) }
{
    let mut joined = false;
    for equation in equations {
        joined |= join_sides(alloc, equation, classes)?;
    }
    Ok(joined)
}
