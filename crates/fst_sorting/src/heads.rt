//! What stands before a function's body: what it breaks, and what it is in a program.

ghost use Rattle.std.specs.Prelude.{◌≡◌, ◌∷◌, [], map, option_map, reverse, IfOk, OnOk};
ghost use Rattle.fst_terms.specs.Terms.{plain_term};
ghost use Rattle.fst_program.specs.Plain.{plain_param};
ghost use Rattle.fst_effects.specs.Scopes.{scope_in};
ghost use Rattle.fst_sorting.specs.Listed.{entries_of, entry_of_param, maybe_breaks, maybe_core, measures_break, measures_core, param_breaks, param_core, params_break, params_core};
ghost use Rattle.fst_sorting.specs.Sites.{known_at};

use crate::callees::param_entry;
use crate::known::Known;
use crate::written::sort_of;
use fst_base::{OutOfMemory, Seq, Sort, pair};
use fst_effects::{Context, Found, Place, check_term, core_term};
use fst_names::{Ref, least};
use fst_program::Param;
use fst_terms::{Formula, Term};
use fst_trees::{Form, ParamTree};
use std::alloc::Global;

/// What a formula breaks, where there is one. Formulas are ghost places.
#[tactic(auto, using(crate::proofs::HeadLemmas::maybes))]
pub fn check_maybe(
    alloc: Global,
    known: Known<'_>,
    form: &Option<Form<Ref>>,
    context: &mut Context,
) -> Found
    ensures broken { IfOk result (λ found. found ≡ maybe_breaks (known_at known.entry) (scope_in context.old) form.now) }
    ensures scope { OnOk result (scope_in context.new ≡ scope_in context.old) }
{
    match form {
        None => Ok(None),
        Some(form) => {
            let place = Place {
                callees: known.applied,
                is_ghost: true,
            };
            check_term(alloc, place, form, Some(&Sort::Bool), context)
        }
    }
}

/// A formula, where there is one.
#[tactic(auto, using(crate::proofs::HeadLemmas::maybes))]
pub fn core_maybe(
    alloc: Global,
    known: Known<'_>,
    form: &Option<Form<Ref>>,
    context: &mut Context,
) -> Result<Option<Formula>, OutOfMemory>
    ensures term { IfOk result (λ t. option_map plain_term t ≡ maybe_core (known_at known.entry) (scope_in context.old) form.now) }
    ensures scope { OnOk result (scope_in context.new ≡ scope_in context.old) }
{
    match form {
        None => Ok(None),
        Some(form) => {
            let term = core_term(alloc, known.applied, form, Some(&Sort::Bool), context)?;
            Ok(Some(term))
        }
    }
}

/// What a parameter's refinement breaks. The parameter comes into scope.
fn check_param(
    alloc: Global,
    known: Known<'_>,
    param: &ParamTree<Ref>,
    context: &mut Context,
) -> Found
    ensures broken { IfOk result (λ found. found ≡ param_breaks (known_at known.entry) (scope_in context.old) param.now) }
    ensures scope { OnOk result (scope_in context.new ≡ entry_of_param param.now ∷ scope_in context.old) }
{
    context.push(param_entry(alloc, param)?)?;
    check_maybe(alloc, known, &param.refine, context)
}

/// What the refinements break, each over the parameters up to its own. The parameters come into scope.
#[tactic(auto, using(crate::proofs::HeadLemmas::params))]
pub fn check_params(
    alloc: Global,
    known: Known<'_>,
    params: &[ParamTree<Ref>],
    context: &mut Context,
) -> Found
    requires { scope_in context.old ≡ [] }
    ensures broken { IfOk result (λ found. found ≡ params_break (known_at known.entry) params.now) }
    ensures scope { OnOk result (scope_in context.new ≡ reverse (entries_of params.now)) }
{
    let mut found = None;
    for param in params {
        found = least(found, check_param(alloc, known, param, context)?);
    }
    Ok(found)
}

/// A parameter. It comes into scope.
#[tactic(auto, using(crate::proofs::HeadLemmas::core_params))]
fn core_param(
    alloc: Global,
    known: Known<'_>,
    param: &ParamTree<Ref>,
    context: &mut Context,
) -> Result<Param, OutOfMemory>
    ensures param { IfOk result (λ p. plain_param p ≡ param_core (known_at known.entry) (scope_in context.old) param.now) }
    ensures scope { OnOk result (scope_in context.new ≡ entry_of_param param.now ∷ scope_in context.old) }
{
    context.push(param_entry(alloc, param)?)?;
    let name = param.name.text.copy(alloc);
    let refine = core_maybe(alloc, known, &param.refine, context);
    let (name, (sort, refine)) = pair(name, pair(sort_of(alloc, &param.sort), refine))?;
    Ok(Param {
        name,
        sort,
        hidden: param.hidden,
        refine,
    })
}

/// The parameters. They come into scope.
#[tactic(auto, using(crate::proofs::HeadLemmas::params))]
pub fn core_params(
    alloc: Global,
    known: Known<'_>,
    params: &[ParamTree<Ref>],
    context: &mut Context,
) -> Result<Seq<Param>, OutOfMemory>
    requires { scope_in context.old ≡ [] }
    ensures params { IfOk result (λ ps. map plain_param ps ≡ params_core (known_at known.entry) params.now) }
    ensures scope { OnOk result (scope_in context.new ≡ reverse (entries_of params.now)) }
{
    let mut made = Seq::new(alloc);
    for param in params {
        let param = core_param(alloc, known, param, context)?;
        made.push(param)?;
    }
    Ok(made)
}

/// What measures break.
#[tactic(auto, using(crate::proofs::HeadLemmas::measures))]
pub fn check_measures(
    alloc: Global,
    known: Known<'_>,
    measures: &[Form<Ref>],
    context: &mut Context,
) -> Found
    ensures broken { IfOk result (λ found. found ≡ measures_break (known_at known.entry) (scope_in context.old) measures.now) }
    ensures scope { OnOk result (scope_in context.new ≡ scope_in context.old) }
{
    let mut found = None;
    for index in 0..measures.len() {
        let place = Place {
            callees: known.applied,
            is_ghost: true,
        };
        let own = check_term(alloc, place, &measures[index], Some(&Sort::Int), context)?;
        found = least(found, own);
    }
    Ok(found)
}

/// Measures.
#[tactic(auto, using(crate::proofs::HeadLemmas::measures))]
pub fn core_measures(
    alloc: Global,
    known: Known<'_>,
    measures: &[Form<Ref>],
    context: &mut Context,
) -> Result<Seq<Term>, OutOfMemory>
    ensures terms { IfOk result (λ ts. map plain_term ts ≡ measures_core (known_at known.entry) (scope_in context.old) measures.now) }
    ensures scope { OnOk result (scope_in context.new ≡ scope_in context.old) }
{
    let mut terms = Seq::new(alloc);
    for index in 0..measures.len() {
        let form = &measures[index];
        terms.push(core_term(alloc, known.applied, form, Some(&Sort::Int), context)?)?;
    }
    Ok(terms)
}
