ghost use Rattle.std.specs.Prelude.{◌≡◌, ◌<◌, ◌∷◌, ℕ, [], false, length, map, slice_index, IfOk};
ghost use Rattle.fst_congruence.specs.Classes.{label_at, ArgsClosed, PartsClosed, IsClosed};
ghost use Rattle.fst_congruence.specs.Steps.{Fits, Step, SidesWithin, AreTerms, MeetsFirst, args_key, parts_key};

use crate::classes::Classes;
use crate::equation::Equation;
use crate::firsts::Firsts;
use crate::joining::{join_by_args, join_given, join_parts};
use crate::node::Node;
use fst_base::OutOfMemory;
use std::alloc::Global;

/// A term's kind and the labels of its arguments.
fn key_of_args(alloc: Global, node: &Node, labels: &[u32]) -> Result<Vec<u32>, OutOfMemory>
    requires { (k : ℕ) → k < length node.now.args → slice_index node.now.args k < length labels.now }
    ensures { IfOk result (λ key. key.items ≡ node.now.kind ∷ map (label_at labels.now) node.now.args) }
{
    let args = node.args.as_slice();
    let mut key = Vec::new(alloc);
    key.push(node.kind)?;
    for arg in args {
        key.push(labels[*arg as usize])?;
    }
    Ok(key)
}

/// A term's label and its constructor.
fn key_of_parts(alloc: Global, node: &Node, label: u32) -> Result<Vec<u32>, OutOfMemory>
    ensures { IfOk result (λ key. key.items ≡ label ∷ node.now.constructor ∷ []) }
{
    let mut key = Vec::new(alloc);
    key.push(label)?;
    key.push(node.constructor)?;
    Ok(key)
}

/// Joins the term and the first one with its kind and labels of arguments; tells whether they were apart.
fn meet_args(
    alloc: Global,
    nodes: &[Node],
    classes: &mut Classes,
    firsts: &mut Firsts,
    term: u32,
) -> Result<bool, OutOfMemory>
    requires fits { Fits nodes.now classes.old }
    requires firsts { AreTerms (length nodes.now) firsts.old }
    requires term { term < length nodes.now }
    ensures { IfOk result (λ joined. Step nodes.now [] classes.old classes.new joined × AreTerms (length nodes.now) firsts.new × (joined ≡ false → MeetsFirst (args_key nodes.now classes.new.labels) (ArgsClosed nodes.now classes.new.labels) firsts.old firsts.new term)) }
{
    let node = &nodes[term as usize];
    let key = key_of_args(alloc, node, classes.labels.as_slice())?;
    let first = firsts.first(key, term)?;
    join_by_args(alloc, nodes, classes, term, first)
}

/// Joins the parts of the term and of the first one with its label and constructor; tells whether some were apart.
fn meet_parts(
    alloc: Global,
    nodes: &[Node],
    classes: &mut Classes,
    firsts: &mut Firsts,
    term: u32,
) -> Result<bool, OutOfMemory>
    requires fits { Fits nodes.now classes.old }
    requires firsts { AreTerms (length nodes.now) firsts.old }
    requires term { term < length nodes.now }
    ensures { IfOk result (λ joined. Step nodes.now [] classes.old classes.new joined × AreTerms (length nodes.now) firsts.new × (joined ≡ false → MeetsFirst (parts_key nodes.now classes.new.labels) (PartsClosed nodes.now classes.new.labels) firsts.old firsts.new term)) }
{
    let node = &nodes[term as usize];
    let key = key_of_parts(alloc, node, classes.labels.as_slice()[term as usize])?;
    let first = firsts.first(key, term)?;
    join_parts(alloc, nodes, classes, term, first)
}

/// Joins the parts of terms with one label and one constructor, the first term first, since parts have greater numbers than the
/// terms that they are parts of; tells whether there was anything.
fn sweep_parts(alloc: Global, nodes: &[Node], classes: &mut Classes) -> Result<bool, OutOfMemory>
    requires { Fits nodes.now classes.old }
    ensures { IfOk result (λ joined. Step nodes.now [] classes.old classes.new joined × (joined ≡ false → (i j : ℕ) → i < length nodes.now → j < length nodes.now → PartsClosed nodes.now classes.new.labels i j)) }
{
    let mut firsts = Firsts::new(alloc);
    let mut joined = false;
    for term in 0..nodes.len() {
        joined |= meet_parts(alloc, nodes, classes, &mut firsts, term as u32)?;
    }
    Ok(joined)
}

/// Joins terms of one kind with the same labels of arguments, the last term first; tells whether there was anything.
fn sweep_args(alloc: Global, nodes: &[Node], classes: &mut Classes) -> Result<bool, OutOfMemory>
    requires { Fits nodes.now classes.old }
    ensures { IfOk result (λ joined. Step nodes.now [] classes.old classes.new joined × (joined ≡ false → (i j : ℕ) → i < length nodes.now → j < length nodes.now → ArgsClosed nodes.now classes.new.labels i j)) }
{
    let mut firsts = Firsts::new(alloc);
    let mut joined = false;
    for done in 0..nodes.len() {
        let term = (nodes.len() - 1 - done) as u32;
        joined |= meet_args(alloc, nodes, classes, &mut firsts, term)?;
    }
    Ok(joined)
}

/// Joins what the equations and the rules join, once everywhere; tells whether there was anything.
pub fn pass(
    alloc: Global,
    nodes: &[Node],
    equations: &[Equation],
    classes: &mut Classes,
) -> Result<bool, OutOfMemory>
    requires fits { Fits nodes.now classes.old }
    requires sides { SidesWithin equations.now (length nodes.now) }
    ensures { IfOk result (λ joined. Step nodes.now equations.now classes.old classes.new joined × (joined ≡ false → IsClosed nodes.now equations.now classes.new.labels)) }
{
    let given = join_given(alloc, equations, classes)?;
    let parts = sweep_parts(alloc, nodes, classes)?;
    let whole = sweep_args(alloc, nodes, classes)?;
    Ok(given | parts | whole)
}
