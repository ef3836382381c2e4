//! The equations that hold whatever the marks: of pairs with the pairs of their components, and of units.

ghost use Rattle.std.specs.Prelude.{◌≡◌, ◌++◌, ◌<◌, ◌+◌, length, get_or, map, IfOk, OnOk};
ghost use Rattle.fst_base.specs.Sorts.{plain_sort};
ghost use Rattle.fst_cases.specs.Always.{always_at, always_of, is_pair, is_unit, pair_equation, unit_equation};
ghost use Rattle.fst_congruence.specs.Numbered.{IsOnce, number_of};
ghost use Rattle.fst_shapes.specs.Preparing.{sorts_in};
ghost use Rattle.fst_terms.specs.Flats.{plain_flat};
ghost use Rattle.fst_terms.specs.FlatForms.{components};
ghost use Rattle.fst_terms.specs.Marks.{var_sorts};
ghost use Rattle.fst_terms.specs.Terms.{plain_term, t_unit};

use crate::trail::number;
use fst_base::{OutOfMemory, Seq, Sort, boxed};
use fst_cert::Line;
use fst_congruence::{Equation, Places, number_of};
use fst_shapes::{boxed_sort, components, sorts_of};
use fst_terms::{Flat, Term};
use std::alloc::Global;

/// Puts the equation of a term with the pair of its components there, where that pair has a number.
fn put_pair(
    alloc: Global,
    terms: &[Term],
    places: &Places,
    sorts: &[Sort],
    at: usize,
    equations: &mut Seq<Equation>,
) -> Result<(), OutOfMemory>
    requires once { IsOnce (map plain_term terms.now) }
    requires at { at < length terms.now }
    ensures { OnOk result (equations.new ≡ equations.old ++ pair_equation (at + 1) (number_of (map plain_term terms.now) (components (sorts_in sorts.now) (get_or (map plain_term terms.now) at t_unit)))) }
{
    let pair = boxed(alloc, components(alloc, &terms[at], sorts))?;
    let right = number_of(terms, places, pair.get())?;
    if right == 0 {
        return Ok(());
    }
    let left = number(at)?;
    let by = Line::Eta(left);
    equations.push(Equation { left, right, by })
}

/// Puts the equation of a term with () there.
fn put_unit(
    terms: &[Term],
    places: &Places,
    at: usize,
    equations: &mut Seq<Equation>,
) -> Result<(), OutOfMemory>
    requires { IsOnce (map plain_term terms.now) }
    ensures { OnOk result (equations.new ≡ equations.old ++ unit_equation (at + 1) (number_of (map plain_term terms.now) t_unit)) }
{
    let right = number_of(terms, places, &Term::Unit)?;
    let left = number(at)?;
    let by = Line::Unit(left);
    equations.push(Equation { left, right, by })
}

/// Whether the sort is that of pairs.
#[tactic(auto, using(crate::proofs::PlainForms::plain_variants))]
fn is_pair(sort: &Sort) -> bool
    ensures { result ≡ is_pair (plain_sort sort.now) }
{
    match sort {
        Sort::Pair(_, _) => true,
        Sort::Unit | Sort::Bool | Sort::Int | Sort::VarA | Sort::VarB => false,
        Sort::Opt(_) | Sort::List(_) | Sort::Either(_, _) => false,
    }
}

/// Whether the sort is that of ().
#[tactic(auto, using(crate::proofs::PlainForms::plain_variants))]
fn is_unit(sort: &Sort) -> bool
    ensures { result ≡ is_unit (plain_sort sort.now) }
{
    match sort {
        Sort::Unit => true,
        Sort::Bool | Sort::Int | Sort::VarA | Sort::VarB => false,
        Sort::Pair(_, _) | Sort::Opt(_) | Sort::List(_) | Sort::Either(_, _) => false,
    }
}

/// Puts the equation of a term there that holds by its sort.
fn put_by(
    alloc: Global,
    terms: &[Term],
    places: &Places,
    sorts: &[Sort],
    at: usize,
    equations: &mut Seq<Equation>,
) -> Result<(), OutOfMemory>
    requires once { IsOnce (map plain_term terms.now) }
    requires at { at < length terms.now }
    ensures { OnOk result (equations.new ≡ equations.old ++ always_at (sorts_in sorts.now) (map plain_term terms.now) at) }
{
    let sort = boxed_sort(alloc, &terms[at], sorts)?;
    if is_pair(sort.get()) {
        return put_pair(alloc, terms, places, sorts, at, equations);
    }
    if is_unit(sort.get()) {
        return put_unit(terms, places, at, equations);
    }
    Ok(())
}

/// The equations of these terms that hold by their sorts.
fn equations_by_sorts(
    alloc: Global,
    terms: &[Term],
    places: &Places,
    sorts: &[Sort],
) -> Result<Seq<Equation>, OutOfMemory>
    requires { IsOnce (map plain_term terms.now) }
    ensures { IfOk result (λ equations. equations ≡ always_of (sorts_in sorts.now) (map plain_term terms.now) (length terms.now)) }
{
    let mut equations = Seq::new(alloc);
    for at in 0..terms.len() {
        put_by(alloc, terms, places, sorts, at, &mut equations)?;
    }
    Ok(equations)
}

/// The equations that hold whatever the marks.
pub fn always(alloc: Global, flat: &Flat, places: &Places) -> Result<Seq<Equation>, OutOfMemory>
    requires { IsOnce (plain_flat flat.now).terms }
    ensures { IfOk result (λ equations. equations ≡ always_of (var_sorts (plain_flat flat.now)) (plain_flat flat.now).terms (length (plain_flat flat.now).terms)) }
{
    let sorts = sorts_of(alloc, flat.vars.as_slice())?;
    equations_by_sorts(alloc, flat.terms.as_slice(), places, sorts.as_slice())
}
