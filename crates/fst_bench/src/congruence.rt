// Closures of numbered terms.

use fst_base::{OutOfMemory, Seq, pair};
use fst_cert::Line;
use fst_congruence::{Equation, Node, are_equations, close_table, is_table};
use std::alloc::Global;

/// The first so many terms, each of a kind of its own, after place 0, which no term has.
fn unknowns(alloc: Global, count: u32) -> Result<Seq<Node>, OutOfMemory> {
    let mut nodes = Seq::new(alloc);
    for kind in 0..=count {
        nodes.push(Node {
            kind,
            constructor: 0,
            args: Seq::new(alloc),
        })?;
    }
    Ok(nodes)
}

/// The unknowns, and a function applied to each two of them.
fn grid(alloc: Global, side: u32) -> Result<Seq<Node>, OutOfMemory> {
    let mut nodes = unknowns(alloc, side)?;
    for left in 1..=side {
        for right in 1..=side {
            let mut args = Seq::new(alloc);
            args.push(left)?;
            args.push(right)?;
            nodes.push(Node {
                kind: side.saturating_add(1),
                constructor: 0,
                args,
            })?;
        }
    }
    Ok(nodes)
}

/// The equation of each unknown and the next one.
fn in_a_row(alloc: Global, count: u32) -> Result<Seq<Equation>, OutOfMemory> {
    let mut equations = Seq::new(alloc);
    for right in 2..=count {
        equations.push(Equation {
            left: right.wrapping_sub(1),
            right,
            by: Line::Given(1),
        })?;
    }
    Ok(equations)
}

/// How many terms are in the closure of so many unknowns in a row, or of their grid, made again and again.
pub fn closed(alloc: Global, is_grid: bool, count: u32, times: u32) -> Result<usize, OutOfMemory> {
    let mut terms = 0;
    for _ in 0..times {
        let nodes = if is_grid {
            grid(alloc, count)
        } else {
            unknowns(alloc, count)
        };
        let (nodes, equations) = pair(nodes, in_a_row(alloc, count))?;
        terms = size_of_closure(alloc, nodes, equations.as_slice())?;
    }
    Ok(terms)
}

fn size_of_closure(
    alloc: Global,
    nodes: Seq<Node>,
    equations: &[Equation],
) -> Result<usize, OutOfMemory> {
    let count = nodes.len();
    let is_small = u32::try_from(count).is_ok();
    if !is_small || !is_table(nodes.as_slice()) || !are_equations(equations, count) {
        return Err(OutOfMemory);
    }
    let closure = close_table(alloc, nodes, equations)?;
    Ok(closure.into_table().len())
}
