//! The events of a transformer: the sites and the ends of its ways, in order.
ghost use Rattle.std.specs.Prelude.{◌≡◌, ◌∷◌, [], ◌++◌, map, IfOk, OnOk};
ghost use Rattle.fst_program.specs.Paths.{all_raised, suppose};
ghost use Rattle.fst_star.specs.Events.{at_end, at_site};
ghost use Rattle.fst_star.specs.Met.{Enters, after_ends, met_events, met_needs, met_on_ways, met_opened, plain_event, plain_trail};
ghost use Rattle.fst_star.specs.Plain.{plain_ways, plain_wp};
ghost use Rattle.fst_scopes.specs.Scopes.{terms_for};
ghost use Rattle.fst_terms.specs.Formulas.{put};
ghost use Rattle.fst_terms.specs.Terms.{plain_term};

use crate::deciding::{decided, guarded};
use crate::putting::{put, put_box, under, with_last};
use crate::raising::raise_terms;
use crate::trail::Trail;
use crate::wp::{Way, Wp};
use fst_base::{OutOfMemory, Pos, Seq, pair};
use fst_program::{Choice, SiteKind};
use fst_terms::{Formula, Term};
use std::alloc::Global;

/// What a walk meets: a site with its formula, or the end of a way with its result.
#[derive(Drop)]
pub enum Event {
    Site(SiteKind, Pos, Formula, Trail),
    End(Trail, Term),
}

/// Adds a site.
fn add_site(
    alloc: Global,
    kind: SiteKind,
    at: Pos,
    formula: &Formula,
    trail: &Trail,
    met: &mut Seq<Event>,
) -> Result<(), OutOfMemory>
    ensures { OnOk result (map plain_event met.new ≡ map plain_event met.old ++ at_site kind at.at (plain_term formula.now) (plain_trail trail.now) ∷ []) }
{
    let (formula, trail) = pair(formula.copy(alloc), trail.copy(alloc))?;
    met.push(Event::Site(kind, at, formula, trail))?;
    Ok(())
}

/// Adds the end of a way, with these terms for the variables of its result.
fn add_end(
    alloc: Global,
    term: &Term,
    terms: &[Term],
    trail: &Trail,
    met: &mut Seq<Event>,
) -> Result<(), OutOfMemory>
    ensures { OnOk result (map plain_event met.new ≡ map plain_event met.old ++ at_end (plain_trail trail.now) (put (terms_for terms.now) (plain_term term.now)) ∷ []) }
{
    let (term, trail) = pair(put(alloc, term, terms), trail.copy(alloc))?;
    met.push(Event::End(trail, term))?;
    Ok(())
}

/// The terms where the trail has variables more than `count`, and one term more, for the last variable.
pub(crate) fn after(
    alloc: Global,
    terms: &[Term],
    count: u32,
    trail: &Trail,
    last: &Term,
) -> Result<Seq<Term>, OutOfMemory>
    ensures { IfOk result (λ made. terms_for made ≡ plain_term last.now ∷ all_raised count (plain_trail trail.now) (terms_for terms.now)) }
{
    let by = trail.count()?.saturating_sub(count);
    let (raised, last) = pair(raise_terms(alloc, terms, 0, by), last.copy(alloc))?;
    with_last(raised, last)
}

/// Adds the sites of a need, with these terms for its variables.
fn put_need(
    alloc: Global,
    kind: SiteKind,
    at: Pos,
    formula: &Formula,
    terms: &[Term],
    trail: &Trail,
    met: &mut Seq<Event>,
) -> Result<(), OutOfMemory>
    ensures { OnOk result (map plain_event met.new ≡ map plain_event met.old ++ met_needs kind at.at (put (terms_for terms.now) (plain_term formula.now)) (plain_trail trail.now)) }
{
    let formula = put_box(alloc, formula, terms)?;
    add_need(alloc, kind, at, formula.get(), trail, met)
}

/// The trail with the formula as a hypothesis, with these terms for its variables.
fn supposing(
    alloc: Global,
    formula: &Formula,
    terms: &[Term],
    trail: &Trail,
) -> Result<Trail, OutOfMemory>
    ensures { IfOk result (λ inner. plain_trail inner ≡ suppose (put (terms_for terms.now) (plain_term formula.now)) (plain_trail trail.now)) }
{
    trail.suppose(alloc, put(alloc, formula, terms)?)
}

/// How a walk goes on at a way.
#[derive(Drop)]
enum Entry {
    /// Its formula is true by its look.
    Same,
    /// Its formula is false by its look.
    None,
    /// With its formula as a hypothesis, and its choice.
    Inner(Trail),
}

/// How the walk enters a way of this choice and this formula.
fn enter(
    alloc: Global,
    choice: Choice,
    formula: &Formula,
    terms: &[Term],
    trail: &Trail,
) -> Result<Entry, OutOfMemory>
    ensures { IfOk result (λ e. Enters e choice (put (terms_for terms.now) (plain_term formula.now)) (plain_trail trail.now)) }
{
    let formula = put_box(alloc, formula, terms)?;
    match decided(choice, formula.get()) {
        Some(true) => Ok(Entry::Same),
        Some(false) => Ok(Entry::None),
        None => {
            let inner = trail.suppose(alloc, formula.into_inner())?;
            Ok(Entry::Inner(inner.choose(choice)?))
        }
    }
}

/// Adds the events of a transformer, with these terms for its variables.
#[cycle(gather)]
pub fn gather(
    alloc: Global,
    wp: &Wp,
    terms: &[Term],
    trail: &Trail,
    met: &mut Seq<Event>,
) -> Result<(), OutOfMemory>
    ensures { OnOk result (map plain_event met.new ≡ map plain_event met.old ++ met_events (plain_wp wp.now) (terms_for terms.now) (plain_trail trail.now)) }
{
    match wp {
        Wp::Post(term) => add_end(alloc, term, terms, trail, met),
        Wp::Need(formula, kind, at, rest) => {
            put_need(alloc, *kind, *at, formula, terms, trail, met)?;
            gather(alloc, rest.get(), terms, trail, met)
        }
        Wp::Given(formula, rest) => {
            let inner = supposing(alloc, formula, terms, trail)?;
            gather(alloc, rest.get(), terms, &inner, met)
        }
        Wp::Fresh(name, sort, rest) => {
            let inner = trail.fresh(alloc, name, sort);
            let (inner, raised) = pair(inner, under(alloc, terms))?;
            gather(alloc, rest.get(), raised.as_slice(), &inner, met)
        }
        Wp::Ways(ways) => gather_ways(alloc, ways.as_slice(), terms, trail, met),
        Wp::Hole(_, _, _, _) => Ok(()),
        Wp::HoleTail(_, _) => Ok(()),
        Wp::Then(first, _, rest) => {
            let count = trail.count()?;
            let mut ends = Seq::new(alloc);
            gather(alloc, first.get(), terms, trail, &mut ends)?;
            gather_after(alloc, ends.as_slice(), rest.get(), terms, count, met)
        }
    }
}

/// Adds the sites of a need.
fn add_need(
    alloc: Global,
    kind: SiteKind,
    at: Pos,
    formula: &Formula,
    trail: &Trail,
    met: &mut Seq<Event>,
) -> Result<(), OutOfMemory>
    ensures { OnOk result (map plain_event met.new ≡ map plain_event met.old ++ met_needs kind at.at (plain_term formula.now) (plain_trail trail.now)) }
{
    match kind {
        SiteKind::Divisor => add_opened(alloc, at, formula, trail, met),
        _ => add_site(alloc, kind, at, formula, trail, met),
    }
}

/// Adds the site of a divisor: each condition is one more hypothesis, as long as what stands under it isn't false.
fn add_opened(
    alloc: Global,
    at: Pos,
    formula: &Formula,
    trail: &Trail,
    met: &mut Seq<Event>,
) -> Result<(), OutOfMemory>
    ensures { OnOk result (map plain_event met.new ≡ map plain_event met.old ++ met_opened at.at (plain_term formula.now) (plain_trail trail.now)) }
{
    if !guarded(formula) {
        return add_site(alloc, SiteKind::Divisor, at, formula, trail, met);
    }
    match formula {
        Term::If(test, left, _) => {
            let inner = trail.suppose(alloc, test.get().copy(alloc)?)?;
            add_opened(alloc, at, left.get(), &inner, met)
        }
        // No other formula is guarded.
        _ => Err(OutOfMemory),
    }
}

/// Adds the events of these ways.
#[cycle(gather)]
fn gather_ways(
    alloc: Global,
    ways: &[Way<Wp>],
    terms: &[Term],
    trail: &Trail,
    met: &mut Seq<Event>,
) -> Result<(), OutOfMemory>
    ensures { OnOk result (map plain_event met.new ≡ map plain_event met.old ++ met_on_ways (plain_ways ways.now) (terms_for terms.now) (plain_trail trail.now)) }
{
    for way in ways {
        match enter(alloc, way.choice, &way.given, terms, trail)? {
            Entry::Same => gather(alloc, &way.rest, terms, trail, met)?,
            Entry::None => {}
            Entry::Inner(inner) => gather(alloc, &way.rest, terms, &inner, met)?,
        }
    }
    Ok(())
}

/// Adds the events of the first part of a sequence, with the events of the rest in place of each end.
#[cycle(gather)]
fn gather_after(
    alloc: Global,
    first: &[Event],
    rest: &Wp,
    terms: &[Term],
    count: u32,
    met: &mut Seq<Event>,
) -> Result<(), OutOfMemory>
    ensures { OnOk result (map plain_event met.new ≡ map plain_event met.old ++ after_ends (plain_wp rest.now) (terms_for terms.now) count (map plain_event first.now)) }
{
    for event in first {
        match event {
            Event::Site(kind, at, formula, trail) => {
                add_site(alloc, *kind, *at, formula, trail, met)?;
            }
            Event::End(trail, term) => {
                let inner = after(alloc, terms, count, trail, term)?;
                gather(alloc, rest, inner.as_slice(), trail, met)?;
            }
        }
    }
    Ok(())
}
