//! What texts of definitions break where a sort is wanted, or none.

ghost use Rattle.std.specs.Prelude.{◌≡◌, ◌∷◌, Ok, IfOk, OnOk, Option, false, option_map};
ghost use Rattle.fst_base.specs.declared.sort.Sort.{Sort};
ghost use Rattle.fst_base.specs.Sorts.{plain_sort};
ghost use Rattle.fst_names.specs.Broken.{inner, least};
ghost use Rattle.fst_names.specs.declared.broken.Broken.{Broken};
ghost use Rattle.fst_effects.specs.DefinitionTexts.{dm_arm_breaks, dm_arms_break, dm_bound_breaks, dm_breaks, dm_match_breaks, dm_place, dm_rest_where, none_applied, run_in};
ghost use Rattle.fst_effects.specs.Scopes.{applied_at, known_sort, run_wants, scope_in, sort_at};
ghost use Rattle.fst_effects.specs.TermChecks.{clash_of, forms_break};
ghost use Rattle.fst_effects.specs.TermSorts.{visible};

use crate::callee::Place;
use crate::checking::{Found, check_forms, check_giving, check_term, inner_of, joined};
use crate::faults::{clash, need};
use crate::given_texts::{given_bound, given_unless};
use crate::giving::given;
use crate::open_matches::check_open;
use crate::patterns::{bind, fits, unbind};
use crate::runs::{run_of, value_of_run, wants_of_run};
use crate::scope::{Context, Entry};
use crate::sorts::{as_given, or_else};
use crate::wanted::Run;
use crate::written::noted;
use fst_base::{Box, Pos, Sort};
use fst_names::{Ref, least};
use fst_trees::{ArmTree, ConWord, DmTree, Form, SortTree};
use std::alloc::Global;

/// Where a term of a definition stands: it applies no function, and has no ghost variables.
fn in_text<'a>() -> Place<'a>
    ensures applied { applied_at result ≡ none_applied }
    ensures is_ghost { result.is_ghost ≡ false }
{
    Place {
        callees: &[],
        is_ghost: false,
    }
}

/// The place of a text that a let binds: 0 where it isn't a part.
#[tactic(auto, using(crate::proofs::CheckTextLemmas::places))]
fn place_of(tree: &DmTree<Ref>) -> Pos
    ensures { result ≡ dm_place tree.now }
{
    match tree {
        DmTree::Let(_, _, _, _) => Pos { at: 0 },
        DmTree::If(_, _, _) => Pos { at: 0 },
        DmTree::Match(_, _, _) => Pos { at: 0 },
        DmTree::Block(at, _) => *at,
        DmTree::Run(name, _) => name.at,
        DmTree::Term(form) => form.at,
    }
}

/// What a run of a computation breaks.
fn check_run(
    alloc: Global,
    runs: &[Run],
    name: Ref,
    args: &[Form<Ref>],
    want: Option<&Sort>,
    context: &mut Context,
) -> Found
    ensures broken { IfOk result (λ found. found ≡ inner (forms_break none_applied false (scope_in context.old) args.now (run_wants (run_in runs.now name))) (clash_of name.at (option_map (λ r. plain_sort r.sort) (run_in runs.now name)) (sort_at want.entry))) }
    ensures scope { OnOk result (scope_in context.new ≡ scope_in context.old) }
{
    let run = run_of(runs, name);
    let inside = check_forms(alloc, in_text(), args, wants_of_run(run), context);
    inner_of(inside, clash(name.at, value_of_run(run), want))
}

/// What a text breaks.
#[cycle(check)]
#[tactic(auto, using(crate::proofs::CheckTextLemmas::texts))]
pub fn check_dm(
    alloc: Global,
    runs: &[Run],
    tree: &DmTree<Ref>,
    want: Option<&Sort>,
    context: &mut Context,
) -> Found
    ensures broken { IfOk result (λ found. found ≡ dm_breaks runs.now (scope_in context.old) tree.now (sort_at want.entry)) }
    ensures scope { OnOk result (scope_in context.new ≡ scope_in context.old) }
{
    match tree {
        DmTree::Let(_, note, part, rest) => {
            let part = part.get();
            let sort = given_bound(alloc, runs, note, part, context)?;
            let inside = check_bound(alloc, runs, note, part, as_given(&sort), context);
            check_rest(alloc, runs, rest.get(), sort, inside, want, context)
        }
        DmTree::If(test, left, right) => {
            let own = given_unless(alloc, runs, tree, want, context)?;
            let side = or_else(want, as_given(&own));
            let test = check_term(alloc, in_text(), test, Some(&Sort::Bool), context);
            let left = check_dm(alloc, runs, left.get(), side, context);
            let right = check_dm(alloc, runs, right.get(), side, context);
            joined(joined(test, left), right)
        }
        DmTree::Match(form, at, arms) => {
            let own = given_unless(alloc, runs, tree, want, context)?;
            let side = or_else(want, as_given(&own));
            check_match(alloc, runs, arms.as_slice(), *at, form, side, context)
        }
        DmTree::Block(_, text) => check_dm(alloc, runs, text.get(), want, context),
        DmTree::Run(name, args) => check_run(alloc, runs, *name, args.as_slice(), want, context),
        DmTree::Term(form) => check_term(alloc, in_text(), form, want, context),
    }
}

/// What the text breaks that a let binds, where it gives this sort.
#[cycle(check)]
fn check_bound(
    alloc: Global,
    runs: &[Run],
    note: &Option<SortTree<Ref>>,
    part: &DmTree<Ref>,
    sort: Option<&Sort>,
    context: &mut Context,
) -> Found
    ensures broken { IfOk result (λ found. found ≡ dm_bound_breaks runs.now (scope_in context.old) note.now part.now (sort_at sort.entry)) }
    ensures scope { OnOk result (scope_in context.new ≡ scope_in context.old) }
{
    let note = noted(alloc, note)?;
    let inside = check_dm(alloc, runs, part, as_given(&note), context);
    inner_of(inside, need(place_of(part), sort))
}

/// What the text behind a let breaks, where the variable has this sort, and what it is bound to breaks this.
#[cycle(check)]
fn check_rest(
    alloc: Global,
    runs: &[Run],
    tree: &DmTree<Ref>,
    sort: Option<Box<Sort>>,
    inside: Found,
    want: Option<&Sort>,
    context: &mut Context,
) -> Found
    ensures broken { IfOk result (λ found. (o : Option Broken) × ((inside ≡ Ok o) × (found ≡ least o (dm_rest_where runs.now (scope_in context.old) tree.now (sort_at want.entry) (known_sort sort))))) }
    ensures scope { OnOk result (scope_in context.new ≡ scope_in context.old) }
{
    match sort {
        None => inside,
        Some(sort) => {
            let rest = check_under(alloc, runs, tree, sort, want, context);
            joined(inside, rest)
        }
    }
}

/// What a text breaks with one variable more in scope.
#[cycle(check)]
fn check_under(
    alloc: Global,
    runs: &[Run],
    tree: &DmTree<Ref>,
    sort: Box<Sort>,
    want: Option<&Sort>,
    context: &mut Context,
) -> Found
    ensures broken { IfOk result (λ found. found ≡ dm_breaks runs.now (visible (plain_sort sort) ∷ scope_in context.old) tree.now (sort_at want.entry)) }
    ensures scope { OnOk result (scope_in context.new ≡ scope_in context.old) }
{
    context.push(Entry {
        sort,
        hidden: false,
    })?;
    let found = check_dm(alloc, runs, tree, want, context);
    context.pop();
    found
}

/// What a match at this place breaks.
#[cycle(check)]
#[tactic(auto, using(crate::proofs::CheckTextLemmas::matches))]
fn check_match(
    alloc: Global,
    runs: &[Run],
    arms: &[ArmTree<DmTree<Ref>>],
    at: Pos,
    form: &Form<Ref>,
    want: Option<&Sort>,
    context: &mut Context,
) -> Found
    ensures broken { IfOk result (λ found. found ≡ dm_match_breaks runs.now (scope_in context.old) at form.now arms.now (sort_at want.entry)) }
    ensures scope { OnOk result (scope_in context.new ≡ scope_in context.old) }
{
    let sort = given(alloc, &[], form, context)?;
    let inside = check_giving(alloc, in_text(), form, context);
    match sort {
        None => inside,
        Some(sort) => {
            let found = check_arms(alloc, runs, arms, sort.get(), want, context);
            inner_of(joined(inside, found), check_open(at, arms, sort.get()))
        }
    }
}

/// What an arm breaks, whose pattern has to fit this sort.
#[cycle(check)]
#[tactic(auto, using(crate::proofs::CheckTextLemmas::arms))]
fn check_arm(
    alloc: Global,
    runs: &[Run],
    tree: &DmTree<Ref>,
    at: Pos,
    con: ConWord,
    sort: &Sort,
    want: Option<&Sort>,
    context: &mut Context,
) -> Found
    ensures broken { IfOk result (λ found. found ≡ dm_arm_breaks runs.now (scope_in context.old) (plain_sort sort.now) at con tree.now (sort_at want.entry)) }
    ensures scope { OnOk result (scope_in context.new ≡ scope_in context.old) }
{
    if !fits(con, sort) {
        return Ok(need(at, None));
    }
    bind(alloc, con, sort, context)?;
    let found = check_dm(alloc, runs, tree, want, context);
    unbind(con, sort, context);
    found
}

/// What any of the arms breaks.
#[cycle(check)]
#[tactic(auto, using(crate::proofs::CheckTextLemmas::arm_lists))]
fn check_arms(
    alloc: Global,
    runs: &[Run],
    arms: &[ArmTree<DmTree<Ref>>],
    sort: &Sort,
    want: Option<&Sort>,
    context: &mut Context,
) -> Found
    ensures broken { IfOk result (λ found. found ≡ dm_arms_break runs.now (scope_in context.old) (plain_sort sort.now) arms.now (sort_at want.entry)) }
    ensures scope { OnOk result (scope_in context.new ≡ scope_in context.old) }
{
    let mut found = None;
    for index in 0..arms.len() {
        let arm = &arms[index];
        let own = check_arm(alloc, runs, &arm.body, arm.at, arm.con, sort, want, context)?;
        found = least(found, own);
    }
    Ok(found)
}
