//! The sorts of the values of definitions' texts, where nothing is wanted.

ghost use Rattle.std.specs.Prelude.{◌≡◌, ◌∷◌, IfOk, OnOk};
ghost use Rattle.fst_base.specs.Sorts.{plain_sort};
ghost use Rattle.fst_program.specs.LiftPaths.{or_else};
ghost use Rattle.fst_effects.specs.DefinitionTexts.{dm_arm_gives, dm_arms_give, dm_bound_gives, dm_gives};
ghost use Rattle.fst_effects.specs.Scopes.{known_sort, scope_in, sort_at};
ghost use Rattle.fst_effects.specs.TermSorts.{visible};

use crate::giving::given;
use crate::patterns::{bind, fits, unbind};
use crate::runs::{run_of, value_of_run};
use crate::scope::{Context, Entry};
use crate::sorts::{Known, copied};
use crate::wanted::Run;
use crate::written::boxed_sort;
use fst_base::{Box, Sort};
use fst_names::Ref;
use fst_trees::{ArmTree, ConWord, DmTree, SortTree};
use std::alloc::Global;

/// The sort of a text's value.
#[cycle(given)]
#[tactic(auto, using(crate::proofs::GivenTextLemmas::texts))]
pub fn given_dm(alloc: Global, runs: &[Run], tree: &DmTree<Ref>, context: &mut Context) -> Known
    ensures sort { IfOk result (λ s. known_sort s ≡ dm_gives runs.now (scope_in context.old) tree.now) }
    ensures scope { OnOk result (scope_in context.new ≡ scope_in context.old) }
{
    match tree {
        DmTree::Let(_, note, part, rest) => {
            match given_bound(alloc, runs, note, part.get(), context)? {
                None => Ok(None),
                Some(sort) => given_under(alloc, runs, rest.get(), sort, context),
            }
        }
        DmTree::If(_, left, right) => match given_dm(alloc, runs, left.get(), context)? {
            Some(sort) => Ok(Some(sort)),
            None => given_dm(alloc, runs, right.get(), context),
        },
        DmTree::Match(form, _, arms) => match given(alloc, &[], form, context)? {
            None => Ok(None),
            Some(sort) => given_arms(alloc, runs, arms.as_slice(), sort.get(), context),
        },
        DmTree::Block(_, text) => given_dm(alloc, runs, text.get(), context),
        DmTree::Run(name, _) => copied(alloc, value_of_run(run_of(runs, *name))),
        DmTree::Term(form) => given(alloc, &[], form, context),
    }
}

/// The sort of the variable that a let binds: the one that is written, else the one that is given.
#[cycle(given)]
#[tactic(auto, using(crate::proofs::WrittenLemmas::notes))]
pub fn given_bound(
    alloc: Global,
    runs: &[Run],
    note: &Option<SortTree<Ref>>,
    part: &DmTree<Ref>,
    context: &mut Context,
) -> Known
    ensures sort { IfOk result (λ s. known_sort s ≡ dm_bound_gives runs.now (scope_in context.old) note.now part.now) }
    ensures scope { OnOk result (scope_in context.new ≡ scope_in context.old) }
{
    match note {
        Some(sort) => Ok(Some(boxed_sort(alloc, sort)?)),
        None => given_dm(alloc, runs, part, context),
    }
}

/// The sort of a text's value with one variable more in scope.
#[cycle(given)]
fn given_under(
    alloc: Global,
    runs: &[Run],
    tree: &DmTree<Ref>,
    sort: Box<Sort>,
    context: &mut Context,
) -> Known
    ensures sort { IfOk result (λ s. known_sort s ≡ dm_gives runs.now (visible (plain_sort sort) ∷ scope_in context.old) tree.now) }
    ensures scope { OnOk result (scope_in context.new ≡ scope_in context.old) }
{
    context.push(Entry {
        sort,
        hidden: false,
    })?;
    let found = given_dm(alloc, runs, tree, context);
    context.pop();
    found
}

/// The sort of an arm's value, where its pattern fits the sort of what is matched.
#[cycle(given)]
#[tactic(auto, using(crate::proofs::GivenTextLemmas::arms))]
fn given_arm(
    alloc: Global,
    runs: &[Run],
    tree: &DmTree<Ref>,
    con: ConWord,
    sort: &Sort,
    context: &mut Context,
) -> Known
    ensures sort { IfOk result (λ s. known_sort s ≡ dm_arm_gives runs.now (scope_in context.old) (plain_sort sort.now) con tree.now) }
    ensures scope { OnOk result (scope_in context.new ≡ scope_in context.old) }
{
    if !fits(con, sort) {
        return Ok(None);
    }
    bind(alloc, con, sort, context)?;
    let found = given_dm(alloc, runs, tree, context);
    unbind(con, sort, context);
    found
}

/// The sort that is found, else that of the arm.
#[cycle(given)]
fn given_next(
    alloc: Global,
    runs: &[Run],
    tree: &DmTree<Ref>,
    con: ConWord,
    found: Option<Box<Sort>>,
    sort: &Sort,
    context: &mut Context,
) -> Known
    ensures sort { IfOk result (λ s. known_sort s ≡ or_else (known_sort found) (dm_arm_gives runs.now (scope_in context.old) (plain_sort sort.now) con tree.now)) }
    ensures scope { OnOk result (scope_in context.new ≡ scope_in context.old) }
{
    match found {
        Some(found) => Ok(Some(found)),
        None => given_arm(alloc, runs, tree, con, sort, context),
    }
}

/// The sort of the value of the first arm that gives one, of those whose pattern fits this sort.
#[cycle(given)]
#[tactic(auto, using(crate::proofs::GivenTextLemmas::arm_lists))]
fn given_arms(
    alloc: Global,
    runs: &[Run],
    arms: &[ArmTree<DmTree<Ref>>],
    sort: &Sort,
    context: &mut Context,
) -> Known
    ensures sort { IfOk result (λ s. known_sort s ≡ dm_arms_give runs.now (scope_in context.old) (plain_sort sort.now) arms.now) }
    ensures scope { OnOk result (scope_in context.new ≡ scope_in context.old) }
{
    let mut found = None;
    for index in 0..arms.len() {
        let arm = &arms[index];
        found = given_next(alloc, runs, &arm.body, arm.con, found, sort, context)?;
    }
    Ok(found)
}

/// What a text gives, looked for only where nothing is wanted.
pub fn given_unless(
    alloc: Global,
    runs: &[Run],
    tree: &DmTree<Ref>,
    want: Option<&Sort>,
    context: &mut Context,
) -> Known
    ensures sort { IfOk result (λ s. or_else (sort_at want.entry) (known_sort s) ≡ or_else (sort_at want.entry) (dm_gives runs.now (scope_in context.old) tree.now)) }
    ensures scope { OnOk result (scope_in context.new ≡ scope_in context.old) }
{
    match want {
        Some(_) => Ok(None),
        None => given_dm(alloc, runs, tree, context),
    }
}
