//! The paths of lifts between effects, as a table.

ghost use Rattle.std.specs.Prelude.{◌≡◌, ◌<◌, ◌≤◌, ◌++◌, ◌∷◌, [], length, map, IfOk, IfNone, IfSome};
ghost use Rattle.fst_program.specs.LiftPaths.{path};
ghost use Rattle.fst_program.specs.Plain.{plain_effect, plain_lift};
ghost use Rattle.fst_lattice.specs.Lattices.{AreWithin, IsLattice};
ghost use Rattle.fst_lattice.specs.Tables.{step_in, tabled};
ghost use Rattle.fst_sorting.specs.Routes.{AreRoutes, lifts_on, way};
ghost use Rattle.fst_sorting.specs.Sites.{path_in};

use crate::known::Paths;
use fst_base::{OutOfMemory, Seq};
use fst_lattice::Lattice;
use fst_program::{EffectDef, LiftDef};
use std::alloc::Global;

/// The lifts between so many effects, with the first lifts of their paths.
#[derive(Clone, Copy)]
pub struct Routes<'a> {
    pub count: u32,
    pub lifts: &'a [LiftDef],
    pub lattice: &'a Lattice,
}

/// The next lift on the path from an effect to another, with the effect that it leads to.
#[tactic(auto, using(crate::proofs::RouteLemmas::next_lifts))]
fn next_lift(routes: &Routes<'_>, from: u32, to: u32) -> Option<(u32, u32)>
    requires routes { AreRoutes routes.now }
    requires from { from < routes.now.count }
    requires to { to < routes.now.count }
    ensures none { IfNone result (lifts_on (way routes.now from to) ≡ []) }
    ensures some { IfSome result (λ p. lifts_on (way routes.now from to) ≡ p.0 ∷ lifts_on (way routes.now p.1 to)) }
    ensures within { IfSome result (λ p. p.1 < routes.now.count) }
{
    match routes.lattice.step(from, to) {
        None => None,
        Some(number) => match routes.lifts.get(number as usize) {
            None => None,
            Some(lift) => Some((number, lift.to)),
        },
    }
}

/// These lifts, and behind them those on the path from an effect to another.
fn walk(routes: &Routes<'_>, lifts: Seq<u32>, from: u32, to: u32) -> Result<Seq<u32>, OutOfMemory>
    requires routes { AreRoutes routes.now }
    requires from { from < routes.now.count }
    requires to { to < routes.now.count }
    ensures { IfOk result (λ all. all ≡ lifts ++ lifts_on (way routes.now from to)) }
{
    match next_lift(routes, from, to) {
        None => Ok(lifts),
        Some((lift, next)) => {
            let mut more = lifts;
            more.push(lift)?;
            walk(routes, more, next, to)
        }
    }
}

/// The path from an effect to another, where there is one.
#[tactic(auto, using(crate::proofs::RouteLemmas::entries))]
fn entry(
    alloc: Global,
    routes: &Routes<'_>,
    from: u32,
    to: u32,
) -> Result<Option<Seq<u32>>, OutOfMemory>
    requires routes { AreRoutes routes.now }
    requires from { from < routes.now.count }
    requires to { to < routes.now.count }
    ensures { IfOk result (λ path. path ≡ way routes.now from to) }
{
    if from == to {
        return Ok(Some(Seq::new(alloc)));
    }
    match routes.lattice.step(from, to) {
        None => Ok(None),
        Some(_) => Ok(Some(walk(routes, Seq::new(alloc), from, to)?)),
    }
}

/// The paths from an effect to each other.
fn row(alloc: Global, routes: &Routes<'_>, from: u32) -> Result<Seq<Option<Seq<u32>>>, OutOfMemory>
    requires routes { AreRoutes routes.now }
    requires from { from < routes.now.count }
    ensures { IfOk result (λ row. row ≡ tabled (λ E. way routes.now from E) routes.now.count) }
{
    let mut row = Seq::new(alloc);
    for to in 0..routes.count {
        row.push(entry(alloc, routes, from, to)?)?;
    }
    Ok(row)
}

/// The paths from each effect to each.
fn table(alloc: Global, routes: &Routes<'_>) -> Result<Paths, OutOfMemory>
    requires { AreRoutes routes.now }
    ensures { IfOk result (λ rows. rows ≡ tabled (λ D. tabled (λ E. way routes.now D E) routes.now.count) routes.now.count) }
{
    let mut rows = Seq::new(alloc);
    for from in 0..routes.count {
        rows.push(row(alloc, routes, from)?)?;
    }
    Ok(rows)
}

/// The paths of these lifts between these effects, of which this is the lattice.
pub fn paths_of(
    alloc: Global,
    effects: &[EffectDef],
    lifts: &[LiftDef],
    lattice: &Lattice,
) -> Result<Paths, OutOfMemory>
    requires within { AreWithin (length effects.now) (map plain_lift lifts.now) }
    requires lattice { IsLattice (map plain_effect effects.now) (map plain_lift lifts.now) (step_in lattice.now) }
    ensures { IfOk result (λ paths. path_in paths ≡ path (map plain_lift lifts.now)) }
{
    let Ok(count) = u32::try_from(effects.len()) else {
        return Err(OutOfMemory);
    };
    let routes = Routes {
        count,
        lifts,
        lattice,
    };
    table(alloc, &routes)
}
