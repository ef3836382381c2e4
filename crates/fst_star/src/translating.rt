//! The translation of definition text.
ghost use Rattle.std.specs.Prelude.{◌≡◌, ◌∷◌, ◌++◌, [], suc, map, reverse, List, IfOk};
ghost use Rattle.fst_base.specs.Sorts.{plain_sort};
ghost use Rattle.fst_program.proofs.PlainLemmas.{plain_dm_arms};
ghost use Rattle.fst_program.specs.Paths.{dm_family, input_name};
ghost use Rattle.fst_program.specs.Plain.{plain_dm};
ghost use Rattle.fst_program.specs.Texts.{d_run_f, d_run_g};
ghost use Rattle.fst_scopes.specs.Scopes.{sorts_in, terms_for};
ghost use Rattle.fst_star.specs.Plain.{plain_ways, plain_wp};
ghost use Rattle.fst_star.specs.Transformers.{w_post, w_then, wshift};
ghost use Rattle.fst_star.specs.Translating.{arm_in, family_of, star_in};
ghost use Rattle.fst_star.specs.Translation.{con_ways, dm_arms_sort, dm_sort, star};
ghost use Rattle.fst_terms.specs.Formulas.{put, sort_of};
ghost use Rattle.fst_terms.specs.Terms.{Tm, plain_term, shift, t_var};

use crate::bodies::Bodies;
use crate::branching::{
    Ways, case, chosen, family, joined, missing, returned, scrutinee, sequence, sides,
};
use crate::deciding::same_con;
use crate::dividing::term_needs;
use crate::making::{Node, post, then};
use crate::putting::{put, put_box};
use crate::raising::{raise, raise_wp};
use crate::selecting::{NOWHERE, selectors};
use crate::standing::{Place, place_under, place_with};
use fst_base::{Box, Name, OutOfMemory, Seq, Sort, boxed, pair};
use fst_program::{Arm, Con, DmTerm};
use fst_scopes::{boxed_sort, sorts_of, with_parts, with_sort};
use fst_terms::Term;
use std::alloc::Global;

/// A sort on the heap, or want of memory.
type Sorted = Result<Box<Sort>, OutOfMemory>;

/// The sort of a text's results, by its first tail.
#[cycle(dm_sort)]
#[tactic(auto, using(fst_scopes::proofs::PlainForms::dm_variants))]
fn dm_sort(alloc: Global, text: &DmTerm, bodies: &Bodies, sorts: &[Sort]) -> Sorted
    ensures { IfOk result (λ sort. plain_sort sort ≡ dm_sort (plain_sort bodies.now.first_sort) (plain_sort bodies.now.second_sort) (sorts_in sorts.now) (plain_dm text.now)) }
{
    match text {
        DmTerm::Ret(term) => boxed_sort(alloc, term, sorts),
        DmTerm::Let(_, bound, rest) => {
            let first = dm_sort(alloc, bound.get(), bodies, sorts)?;
            let inner = with_sort(alloc, sorts, first.get())?;
            dm_sort(alloc, rest.get(), bodies, inner.as_slice())
        }
        DmTerm::If(_, left, _) => dm_sort(alloc, left.get(), bodies, sorts),
        DmTerm::Match(term, arms) => {
            let sort = boxed_sort(alloc, term, sorts)?;
            arms_sort(alloc, arms.as_slice(), bodies, sort.get(), sorts)
        }
        DmTerm::RunF(_) => boxed(alloc, bodies.first_sort.copy(alloc)),
        DmTerm::RunG(_, _) => boxed(alloc, bodies.second_sort.copy(alloc)),
    }
}

/// The same of arms: that of the first.
#[cycle(dm_sort)]
fn arms_sort(
    alloc: Global,
    arms: &[Arm<DmTerm>],
    bodies: &Bodies,
    sort: &Sort,
    sorts: &[Sort],
) -> Sorted
    ensures { IfOk result (λ made. plain_sort made ≡ dm_arms_sort (plain_sort bodies.now.first_sort) (plain_sort bodies.now.second_sort) (sorts_in sorts.now) (plain_sort sort.now) (plain_dm_arms arms.now)) }
{
    for arm in arms {
        let inner = with_parts(alloc, sorts, arm.con, sort)?;
        return dm_sort(alloc, &arm.body, bodies, inner.as_slice());
    }
    Box::new(alloc, Sort::Unit)
}

/// The sort of a let's variable.
fn bound_sort(alloc: Global, text: &DmTerm, bodies: &Bodies, place: &Place) -> Sorted
    ensures { IfOk result (λ sort. plain_sort sort ≡ dm_sort (plain_sort bodies.now.first_sort) (plain_sort bodies.now.second_sort) (map (sort_of (sorts_in place.now.sorts)) (terms_for place.now.terms)) (plain_dm text.now)) }
{
    let sorts = sorts_of(alloc, place.terms.as_slice(), place.sorts.as_slice())?;
    dm_sort(alloc, text, bodies, sorts.as_slice())
}

/// The first computation, run with this input.
fn run_first(alloc: Global, input: &Term, bodies: &Bodies, place: &Place) -> Node
    ensures { IfOk result (λ made. plain_wp made ≡ star_in bodies.now (sorts_in place.now.sorts) (terms_for place.now.terms) place.now.depth (d_run_f (plain_term input.now))) }
{
    let terms = place.terms.as_slice();
    let given = post(alloc, put(alloc, input, terms)?);
    let body = raise_wp(alloc, bodies.first.get(), 1, place.depth);
    let ((given, name), body) = pair(pair(given, Name::new(alloc, "input")), body)?;
    term_needs(alloc, input, terms, then(alloc, given, name, body)?)
}

/// The second computation under its value, run with this input.
fn second_run(alloc: Global, input: &Term, bodies: &Bodies, place: &Place) -> Node
    ensures { IfOk result (λ made. plain_wp made ≡ w_then (w_post (shift 0 1 (put (terms_for place.now.terms) (plain_term input.now)))) input_name (wshift 2 place.now.depth (plain_wp bodies.now.second))) }
{
    let given = put_box(alloc, input, place.terms.as_slice())?;
    let given = post(alloc, raise(alloc, given.get(), 0, 1)?);
    let body = raise_wp(alloc, bodies.second.get(), 2, place.depth);
    let ((given, name), body) = pair(pair(given, Name::new(alloc, "input")), body)?;
    then(alloc, given, name, body)
}

/// The second computation, run with this value and this input.
fn run_second(alloc: Global, value: &Term, input: &Term, bodies: &Bodies, place: &Place) -> Node
    ensures { IfOk result (λ made. plain_wp made ≡ star_in bodies.now (sorts_in place.now.sorts) (terms_for place.now.terms) place.now.depth (d_run_g (plain_term value.now) (plain_term input.now))) }
{
    let terms = place.terms.as_slice();
    let given = post(alloc, put(alloc, value, terms)?);
    let given = pair(given, Name::new(alloc, "value"));
    let ((given, name), run) = pair(given, second_run(alloc, input, bodies, place))?;
    let rest = term_needs(alloc, input, terms, then(alloc, given, name, run)?)?;
    term_needs(alloc, value, terms, rest)
}

/// The constructor of the first arm.
fn first_con(arms: &[Arm<DmTerm>]) -> Option<Con>
    ensures { dm_family (plain_dm_arms arms.now) ≡ family_of result }
{
    match arms.split_first() {
        Some((arm, _)) => Some(arm.con),
        None => None,
    }
}

/// The translation of the text at this place.
#[cycle(star)]
#[tactic(auto, using(fst_scopes::proofs::PlainForms::dm_variants))]
fn star_at(alloc: Global, text: &DmTerm, bodies: &Bodies, place: &Place) -> Node
    ensures { IfOk result (λ made. plain_wp made ≡ star_in bodies.now (sorts_in place.now.sorts) (terms_for place.now.terms) place.now.depth (plain_dm text.now)) }
{
    let terms = place.terms.as_slice();
    match text {
        DmTerm::Ret(term) => returned(alloc, term, terms),
        DmTerm::Let(name, bound, rest) => {
            let sort = bound_sort(alloc, bound.get(), bodies, place)?;
            let first = star_at(alloc, bound.get(), bodies, place);
            let rest = star_under(alloc, rest.get(), bodies, place, sort.get());
            sequence(alloc, first, name, rest)
        }
        DmTerm::If(test, left, right) => {
            let left = star_at(alloc, left.get(), bodies, place);
            let right = star_at(alloc, right.get(), bodies, place);
            chosen(alloc, test, terms, sides(alloc, test, terms, left, right))
        }
        DmTerm::Match(term, arms) => {
            let (scrutinee, sort) = scrutinee(alloc, term, terms, place.sorts.as_slice())?;
            let list = star_ways(
                alloc,
                arms.as_slice(),
                bodies,
                place,
                scrutinee.get(),
                sort.get(),
            );
            chosen(alloc, term, terms, list)
        }
        DmTerm::RunF(input) => run_first(alloc, input, bodies, place),
        DmTerm::RunG(value, input) => run_second(alloc, value, input, bodies, place),
    }
}

/// The same under a variable of this sort.
#[cycle(star)]
fn star_under(alloc: Global, text: &DmTerm, bodies: &Bodies, place: &Place, sort: &Sort) -> Node
    ensures { IfOk result (λ made. plain_wp made ≡ star_in bodies.now (plain_sort sort.now ∷ sorts_in place.now.sorts) (t_var 0 ∷ map (shift 0 1) (terms_for place.now.terms)) (suc place.now.depth) (plain_dm text.now)) }
{
    let inner = place_under(alloc, place, sort)?;
    star_at(alloc, text, bodies, &inner)
}

/// The same with these parts for the last variables.
#[cycle(star)]
fn star_with(alloc: Global, text: &DmTerm, bodies: &Bodies, place: &Place, parts: &[Term]) -> Node
    ensures { IfOk result (λ made. plain_wp made ≡ star_in bodies.now (sorts_in place.now.sorts) (reverse (map plain_term parts.now) ++ terms_for place.now.terms) place.now.depth (plain_dm text.now)) }
{
    let inner = place_with(alloc, place, parts)?;
    star_at(alloc, text, bodies, &inner)
}

/// What the first arm of this constructor gives.
#[cycle(star)]
fn star_arm(
    alloc: Global,
    arms: &[Arm<DmTerm>],
    con: Con,
    bodies: &Bodies,
    place: &Place,
    parts: &[Term],
) -> Node
    ensures { IfOk result (λ made. plain_wp made ≡ arm_in bodies.now (sorts_in place.now.sorts) (terms_for place.now.terms) place.now.depth (plain_dm_arms arms.now) con (map plain_term parts.now)) }
{
    for arm in arms {
        if same_con(arm.con, con) {
            return star_with(alloc, &arm.body, bodies, place, parts);
        }
    }
    missing(alloc, NOWHERE)
}

/// The way of this constructor.
#[cycle(star)]
fn star_case(
    alloc: Global,
    arms: &[Arm<DmTerm>],
    con: Con,
    bodies: &Bodies,
    place: &Place,
    term: &Term,
    sort: &Sort,
) -> Ways
    ensures { IfOk result (λ made. plain_ways made ≡ con_ways (con ∷ []) (plain_sort sort.now) (plain_term term.now) (λ c parts. arm_in bodies.now (sorts_in place.now.sorts) (terms_for place.now.terms) place.now.depth (plain_dm_arms arms.now) c parts)) }
{
    let parts = selectors(alloc, con, sort, term)?;
    let rest = star_arm(alloc, arms, con, bodies, place, parts.as_slice());
    case(alloc, con, sort, term, rest)
}

/// The ways of a match on this term of this sort.
#[cycle(star)]
fn star_ways(
    alloc: Global,
    arms: &[Arm<DmTerm>],
    bodies: &Bodies,
    place: &Place,
    term: &Term,
    sort: &Sort,
) -> Ways
    ensures { IfOk result (λ made. plain_ways made ≡ con_ways (dm_family (plain_dm_arms arms.now)) (plain_sort sort.now) (plain_term term.now) (λ c parts. arm_in bodies.now (sorts_in place.now.sorts) (terms_for place.now.terms) place.now.depth (plain_dm_arms arms.now) c parts)) }
{
    let Some(con) = first_con(arms) else {
        return Ok(Seq::new(alloc));
    };
    let (first, second) = family(con);
    let ways = star_case(alloc, arms, first, bodies, place, term, sort);
    match second {
        None => ways,
        Some(second) => {
            let more = star_case(alloc, arms, second, bodies, place, term, sort);
            let (ways, more) = pair(ways, more)?;
            joined(ways, more)
        }
    }
}

/// The translation of a definition's text at a place, with these computations for its header's: what the text asks for, and its
/// results. It wants memory also where an index or a number of variables passes 32 bits.
pub fn star(alloc: Global, text: &DmTerm, bodies: &Bodies, place: &Place) -> Node
    ensures { IfOk result (λ made. (olds : List Tm) → plain_wp made ≡ star (plain_sort bodies.now.first_sort) (plain_sort bodies.now.second_sort) (plain_wp bodies.now.first) (plain_wp bodies.now.second) (record { sorts = sorts_in place.now.sorts; olds = olds }) (terms_for place.now.terms) place.now.depth (plain_dm text.now)) }
{
    star_at(alloc, text, bodies, place)
}
