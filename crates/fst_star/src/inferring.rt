//! The transformer of core text.
ghost use Rattle.std.specs.Prelude.{◌≡◌, ◌∷◌, ◌++◌, [], List, map, reverse, Ok, IfOk};
ghost use Rattle.fst_base.specs.Sorts.{plain_sort, s_unit};
ghost use Rattle.fst_program.proofs.PlainLemmas.{plain_arms};
ghost use Rattle.fst_program.specs.Paths.{cm_family};
ghost use Rattle.fst_program.specs.Plain.{plain_comp, plain_program};
ghost use Rattle.fst_program.specs.Texts.{c_lift, c_reflect, c_reify, c_return};
ghost use Rattle.fst_program.specs.declared.goal.SiteKind.TheVariants as kind;
ghost use Rattle.fst_scopes.specs.Scopes.{sorts_in, terms_for};
ghost use Rattle.fst_star.specs.Inference.{input_of};
ghost use Rattle.fst_star.specs.Inferring.{infer_arm_in, infer_in, scope_at};
ghost use Rattle.fst_star.specs.Plain.{plain_ways, plain_wp};
ghost use Rattle.fst_star.specs.Transformers.{w_given, w_need};
ghost use Rattle.fst_star.specs.Translating.{family_of};
ghost use Rattle.fst_star.specs.Translation.{con_ways, under};
ghost use Rattle.fst_star.specs.declared.wp.Wp.{Wp};
ghost use Rattle.fst_terms.specs.Formulas.{put, sort_of};
ghost use Rattle.fst_terms.specs.Terms.{plain_term, shift, t_unit, t_var};

use crate::branching::{
    Ways, case, chosen, family, joined, missing, returned, scrutinee, sequence, sides,
};
use crate::calling::called;
use crate::deciding::same_con;
use crate::dividing::term_needs;
use crate::making::{Node, given, need, then};
use crate::plugging::{bind_sorts, bind_wp, input_of, lift_from, lift_wp, return_wp, value_sort};
use crate::putting::{put, put_box};
use crate::selecting::selectors;
use crate::spots::{Owner, Spot, spot_before, spot_last, spot_on, spot_under, spot_with};
use fst_base::{Box, Name, OutOfMemory, Pos, Seq, Sort, pair};
use fst_program::{Arm, Comp, Con, SiteKind};
use fst_terms::{Formula, Term};
use std::alloc::Global;

/// The constructor of the first arm.
fn first_con(arms: &[Arm<Comp>]) -> Option<Con>
    ensures { cm_family (plain_arms arms.now) ≡ family_of result }
{
    match arms.split_first() {
        Some((arm, _)) => Some(arm.con),
        None => None,
    }
}

/// An assertion before the rest, which may then take it for true.
fn asserted(alloc: Global, formula: &Formula, at: Pos, terms: &[Term], rest: Node) -> Node
    ensures { IfOk result (λ made. (w : Wp) × ((rest ≡ Ok w) × (plain_wp made ≡ w_need (put (terms_for terms.now) (plain_term formula.now)) kind.Assert at.at (w_given (put (terms_for terms.now) (plain_term formula.now)) (plain_wp w))))) }
{
    let (formula, rest) = pair(put_box(alloc, formula, terms), rest)?;
    let known = formula.get().copy(alloc);
    let (known, rest) = pair(known, Ok(rest))?;
    let (formula, rest) = pair(Ok(formula), given(alloc, known, rest))?;
    need(alloc, formula.into_inner(), SiteKind::Assert, at, rest)
}

/// The transformer of the text at this spot.
#[cycle(infer)]
#[tactic(auto, using(fst_scopes::proofs::PlainForms::comp_variants))]
pub fn infer_at(alloc: Global, text: &Comp, owner: &Owner, spot: &Spot) -> Node
    ensures { IfOk result (λ made. plain_wp made ≡ infer_in owner.now (scope_at spot.now) (terms_for spot.now.terms) (plain_term spot.now.input) (plain_comp text.now)) }
{
    let terms = spot.terms.as_slice();
    match text {
        Comp::Ret(term) => returned(alloc, term, terms),
        Comp::Let(name, part, rest) => {
            let sort = value_sort(alloc, owner.program, part.get(), spot)?;
            let first = infer_part(alloc, part.get(), owner, spot);
            let rest = infer_under(alloc, rest.get(), sort.get(), owner, spot);
            sequence(alloc, first, name, rest)
        }
        Comp::Bind(effect, _, part, rest) => {
            let (a, b) = bind_sorts(alloc, owner.program, part.get(), rest.get(), spot)?;
            let first = infer_run(alloc, part.get(), *effect, owner, spot);
            let second = infer_second(alloc, rest.get(), *effect, a.get(), owner, spot);
            bind_wp(
                alloc,
                owner.program,
                *effect,
                a.get(),
                b.get(),
                first,
                second,
                spot,
            )
        }
        Comp::GhostLet(name, part, rest) => {
            let sort = value_sort(alloc, owner.program, part.get(), spot)?;
            let first = infer_part(alloc, part.get(), owner, spot);
            let rest = infer_under(alloc, rest.get(), sort.get(), owner, spot);
            sequence(alloc, first, name, rest)
        }
        Comp::Assert(formula, at, rest) => {
            let rest = infer_at(alloc, rest.get(), owner, spot);
            asserted(alloc, formula, *at, terms, rest)
        }
        Comp::If(test, left, right) => {
            let left = infer_at(alloc, left.get(), owner, spot);
            let right = infer_at(alloc, right.get(), owner, spot);
            chosen(alloc, test, terms, sides(alloc, test, terms, left, right))
        }
        Comp::Match(term, at, arms) => {
            let (put, sort) = scrutinee(alloc, term, terms, spot.sorts.as_slice())?;
            let arms = arms.as_slice();
            let list = infer_ways(alloc, arms, *at, owner, spot, put.get(), sort.get());
            chosen(alloc, term, terms, list)
        }
        Comp::Call(function, args, at) => {
            called(alloc, *function, args.as_slice(), *at, owner, spot)
        }
        Comp::Reify(_, _, part, input) => infer_reify(alloc, part.get(), input, owner, spot),
        Comp::Reflect(_, _, _, part) => infer_reflect(alloc, part.get(), owner, spot),
        Comp::Return(effect, part) => infer_return(alloc, *effect, part.get(), owner, spot),
        Comp::Lift(lift, part) => infer_lift(alloc, *lift, part.get(), owner, spot),
    }
}

/// The same with the unit value for the input.
#[cycle(infer)]
#[tactic(auto, using(fst_terms::proofs::PlainLemmas::plain_variants))]
fn infer_part(alloc: Global, text: &Comp, owner: &Owner, spot: &Spot) -> Node
    ensures { IfOk result (λ made. plain_wp made ≡ infer_in owner.now (scope_at spot.now) (terms_for spot.now.terms) t_unit (plain_comp text.now)) }
{
    let inner = spot_on(alloc, spot, Box::new(alloc, Term::Unit)?)?;
    infer_at(alloc, text, owner, &inner)
}

/// The same under a variable of this sort, for which the text's last variable stands.
#[cycle(infer)]
#[tactic(auto, using(fst_terms::proofs::PlainLemmas::plain_variants))]
fn infer_under(alloc: Global, text: &Comp, sort: &Sort, owner: &Owner, spot: &Spot) -> Node
    ensures { IfOk result (λ made. plain_wp made ≡ infer_in owner.now (under (plain_sort sort.now) (scope_at spot.now)) (t_var 0 ∷ map (shift 0 1) (terms_for spot.now.terms)) (shift 0 1 (plain_term spot.now.input)) (plain_comp text.now)) }
{
    let inner = spot_before(spot_under(alloc, spot, sort)?, Term::Var(0))?;
    infer_at(alloc, text, owner, &inner)
}

/// The same under an input of this effect.
#[cycle(infer)]
#[tactic(auto, using(fst_terms::proofs::PlainLemmas::plain_variants))]
fn infer_run(alloc: Global, text: &Comp, effect: u32, owner: &Owner, spot: &Spot) -> Node
    ensures { IfOk result (λ made. plain_wp made ≡ infer_in owner.now (under (input_of (plain_program owner.now.program.now) effect) (scope_at spot.now)) (map (shift 0 1) (terms_for spot.now.terms)) (t_var 0) (plain_comp text.now)) }
{
    let sort = input_of(alloc, owner.program, effect)?;
    let inner = spot_under(alloc, spot, sort.get())?;
    let inner = spot_on(alloc, &inner, Box::new(alloc, Term::Var(0))?)?;
    infer_at(alloc, text, owner, &inner)
}

/// The same under a value of this sort, for which the text's last variable stands, and an input of this effect.
#[cycle(infer)]
#[tactic(auto, using(fst_terms::proofs::PlainLemmas::plain_variants))]
fn infer_second(
    alloc: Global,
    text: &Comp,
    effect: u32,
    sort: &Sort,
    owner: &Owner,
    spot: &Spot,
) -> Node
    ensures { IfOk result (λ made. plain_wp made ≡ infer_in owner.now (under (input_of (plain_program owner.now.program.now) effect) (under (plain_sort sort.now) (scope_at spot.now))) (t_var 1 ∷ map (shift 0 1) (map (shift 0 1) (terms_for spot.now.terms))) (t_var 0) (plain_comp text.now)) }
{
    let inner = spot_before(spot_under(alloc, spot, sort)?, Term::Var(0))?;
    infer_run(alloc, text, effect, owner, &inner)
}

/// The transformer of a lift.
#[cycle(infer)]
fn infer_lift(alloc: Global, lift: u32, part: &Comp, owner: &Owner, spot: &Spot) -> Node
    ensures { IfOk result (λ made. plain_wp made ≡ infer_in owner.now (scope_at spot.now) (terms_for spot.now.terms) (plain_term spot.now.input) (c_lift lift (plain_comp part.now))) }
{
    let program = owner.program;
    let from = lift_from(program, lift);
    let a = value_sort(alloc, program, part, spot)?;
    let first = infer_run(alloc, part, from, owner, spot);
    lift_wp(alloc, program, lift, from, a.get(), first, spot)
}

/// The transformer of a return.
#[cycle(infer)]
fn infer_return(alloc: Global, effect: u32, part: &Comp, owner: &Owner, spot: &Spot) -> Node
    ensures { IfOk result (λ made. plain_wp made ≡ infer_in owner.now (scope_at spot.now) (terms_for spot.now.terms) (plain_term spot.now.input) (c_return effect (plain_comp part.now))) }
{
    let a = value_sort(alloc, owner.program, part, spot)?;
    let first = infer_part(alloc, part, owner, spot);
    let rest = return_wp(alloc, owner.program, effect, a.get(), spot);
    let name = Name::new(alloc, "value");
    let ((first, name), rest) = pair(pair(first, name), rest)?;
    then(alloc, first, name, rest)
}

/// The transformer of a reify: that of its part on the term for the input.
#[cycle(infer)]
fn infer_reify(alloc: Global, part: &Comp, input: &Term, owner: &Owner, spot: &Spot) -> Node
    ensures { IfOk result (λ made. plain_wp made ≡ infer_in owner.now (scope_at spot.now) (terms_for spot.now.terms) (plain_term spot.now.input) (c_reify 0 s_unit (plain_comp part.now) (plain_term input.now))) }
{
    let terms = spot.terms.as_slice();
    let inner = spot_on(alloc, spot, put_box(alloc, input, terms)?)?;
    let rest = infer_at(alloc, part, owner, &inner)?;
    term_needs(alloc, input, terms, rest)
}

/// The transformer of a reflect: that of its part with the input for its last variable.
#[cycle(infer)]
fn infer_reflect(alloc: Global, part: &Comp, owner: &Owner, spot: &Spot) -> Node
    ensures { IfOk result (λ made. plain_wp made ≡ infer_in owner.now (scope_at spot.now) (terms_for spot.now.terms) (plain_term spot.now.input) (c_reflect 0 s_unit [] (plain_comp part.now))) }
{
    let inner = spot_last(alloc, spot)?;
    infer_part(alloc, part, owner, &inner)
}

/// What the first arm of this constructor gives.
#[cycle(infer)]
fn infer_arm(
    alloc: Global,
    arms: &[Arm<Comp>],
    at: Pos,
    con: Con,
    owner: &Owner,
    spot: &Spot,
    parts: &[Term],
) -> Node
    ensures { IfOk result (λ made. plain_wp made ≡ infer_arm_in owner.now (scope_at spot.now) (terms_for spot.now.terms) (plain_term spot.now.input) at.at (plain_arms arms.now) con (map plain_term parts.now)) }
{
    for arm in arms {
        if same_con(arm.con, con) {
            return infer_with(alloc, &arm.body, owner, spot, parts);
        }
    }
    missing(alloc, at)
}

/// The transformer of a text with these parts for its last variables.
#[cycle(infer)]
fn infer_with(alloc: Global, text: &Comp, owner: &Owner, spot: &Spot, parts: &[Term]) -> Node
    ensures { IfOk result (λ made. plain_wp made ≡ infer_in owner.now (scope_at spot.now) (reverse (map plain_term parts.now) ++ terms_for spot.now.terms) (plain_term spot.now.input) (plain_comp text.now)) }
{
    let inner = spot_with(alloc, spot, parts)?;
    infer_at(alloc, text, owner, &inner)
}

/// The way of this constructor.
#[cycle(infer)]
fn infer_case(
    alloc: Global,
    arms: &[Arm<Comp>],
    at: Pos,
    con: Con,
    owner: &Owner,
    spot: &Spot,
    term: &Term,
    sort: &Sort,
) -> Ways
    ensures { IfOk result (λ made. plain_ways made ≡ con_ways (con ∷ []) (plain_sort sort.now) (plain_term term.now) (λ c parts. infer_arm_in owner.now (scope_at spot.now) (terms_for spot.now.terms) (plain_term spot.now.input) at.at (plain_arms arms.now) c parts)) }
{
    let parts = selectors(alloc, con, sort, term)?;
    let rest = infer_arm(alloc, arms, at, con, owner, spot, parts.as_slice());
    case(alloc, con, sort, term, rest)
}

/// The ways of a match on this term of this sort.
#[cycle(infer)]
fn infer_ways(
    alloc: Global,
    arms: &[Arm<Comp>],
    at: Pos,
    owner: &Owner,
    spot: &Spot,
    term: &Term,
    sort: &Sort,
) -> Ways
    ensures { IfOk result (λ made. plain_ways made ≡ con_ways (cm_family (plain_arms arms.now)) (plain_sort sort.now) (plain_term term.now) (λ c parts. infer_arm_in owner.now (scope_at spot.now) (terms_for spot.now.terms) (plain_term spot.now.input) at.at (plain_arms arms.now) c parts)) }
{
    let Some(con) = first_con(arms) else {
        return Ok(Seq::new(alloc));
    };
    let (first, second) = family(con);
    let ways = infer_case(alloc, arms, at, first, owner, spot, term, sort);
    match second {
        None => ways,
        Some(second) => {
            let more = infer_case(alloc, arms, at, second, owner, spot, term, sort);
            let (ways, more) = pair(ways, more)?;
            joined(ways, more)
        }
    }
}
