ghost use Rattle.std.specs.Prelude.{◌≡◌, ◌<◌, ◌^◌, ◌+◌, length, map, IfOk, OnOk};
ghost use Rattle.fst_congruence.specs.Classes.{IsClosed};
ghost use Rattle.fst_congruence.specs.Closures.{GivenLines, IsExact};
ghost use Rattle.fst_congruence.specs.Lines.{Grown};
ghost use Rattle.fst_congruence.specs.Numbered.{nodes_of, IsNumbering};
ghost use Rattle.fst_congruence.specs.Steps.{Fits, IsTable, SidesWithin};
ghost use Rattle.fst_terms.specs.Flats.{plain_flat};

use crate::classes::Classes;
use crate::closure::Closure;
use crate::equation::Equation;
use crate::explain::copies;
use crate::node::Node;
use crate::numbered::nodes_of;
use crate::sweeps::pass;
use fst_base::{OutOfMemory, Seq};
use fst_terms::Flat;
use std::alloc::Global;

/// Joins until a whole pass finds nothing to join.
fn settle(
    alloc: Global,
    nodes: &[Node],
    equations: &[Equation],
    classes: &mut Classes,
) -> Result<(), OutOfMemory>
    requires fits { Fits nodes.now classes.old }
    requires sides { SidesWithin equations.now (length nodes.now) }
    ensures { OnOk result (Fits nodes.now classes.new × Grown nodes.now equations.now classes.old.log classes.new.log × IsClosed nodes.now equations.now classes.new.labels) }
{
    let mut again = true;
    while again {
        again = pass(alloc, nodes, equations, classes)?;
    }
    Ok(())
}

/// The closure of the terms of a table under these equations of them.
pub fn close_table(
    alloc: Global,
    nodes: Seq<Node>,
    equations: &[Equation],
) -> Result<Closure, OutOfMemory>
    requires few { length nodes < 2 ^ 32 }
    requires table { IsTable nodes }
    requires sides { SidesWithin equations.now (length nodes) }
    requires given { GivenLines equations.now }
    ensures { IfOk result (λ closure. (closure.nodes ≡ nodes) × (closure.equations ≡ equations.now) × (length closure.labels ≡ length nodes) × IsExact nodes equations.now closure.labels) }
{
    let mut classes = Classes::new(alloc, nodes.len())?;
    settle(alloc, nodes.as_slice(), equations, &mut classes)?;
    let equations = copies(alloc, equations)?;
    Ok(Closure {
        nodes,
        equations,
        classes,
    })
}

/// The table of the numbered terms of a flat form: a term has the place of its number, and no term place 0.
pub fn table(alloc: Global, flat: &Flat) -> Result<Seq<Node>, OutOfMemory>
    requires { IsNumbering (plain_flat flat.now).terms }
    ensures is { IfOk result (λ nodes. nodes ≡ nodes_of (plain_flat flat.now).terms) }
    ensures few { IfOk result (λ nodes. length nodes < 2 ^ 32) }
    ensures table { IfOk result (λ nodes. IsTable nodes) }
{
    let nodes = nodes_of(alloc, flat.terms.as_slice())?;
    if u32::try_from(nodes.len()).is_err() {
        return Err(OutOfMemory);
    }
    Ok(nodes)
}

/// The closure of the numbered terms of a flat form under these equations of them.
pub fn close(alloc: Global, flat: &Flat, equations: &Seq<Equation>) -> Result<Closure, OutOfMemory>
    requires numbered { IsNumbering (plain_flat flat.now).terms }
    requires sides { SidesWithin equations.now (length (plain_flat flat.now).terms + 1) }
    requires given { GivenLines equations.now }
    ensures { let nodes = nodes_of (plain_flat flat.now).terms in IfOk result (λ closure. (closure.nodes ≡ nodes) × (closure.equations ≡ equations.now) × (length closure.labels ≡ length nodes) × IsExact nodes equations.now closure.labels) }
{
    let nodes = table(alloc, flat)?;
    close_table(alloc, nodes, equations.as_slice())
}
