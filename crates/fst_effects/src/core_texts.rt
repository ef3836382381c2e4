//! The core texts that texts of definitions are, where a sort is wanted, or none.

ghost use Rattle.std.specs.Prelude.{◌≡◌, ◌∷◌, List, Ok, IfOk, OnOk, Option, map};
ghost use Rattle.fst_base.specs.declared.sort.Sort.{Sort};
ghost use Rattle.fst_program.specs.declared.comp.Arm.{Arm};
ghost use Rattle.fst_program.specs.declared.definition.DmTerm.{DmTerm};
ghost use Rattle.fst_program.specs.Plain.{plain_dm};
ghost use Rattle.fst_program.specs.Texts.{d_if, d_let, d_match, d_ret};
ghost use Rattle.fst_terms.specs.declared.term.Term.{Term};
ghost use Rattle.fst_terms.specs.Terms.{plain_term};
ghost use Rattle.fst_base.specs.Sorts.{plain_sort};
ghost use Rattle.fst_effects.specs.DefinitionTexts.{arg_core, dm_arms_core, dm_core, dm_match_core, made_arms, run_core, run_in};
ghost use Rattle.fst_effects.specs.Known.{or_unit};
ghost use Rattle.fst_effects.specs.Patterns as P;
ghost use Rattle.fst_effects.specs.PatternScopes.{pattern_scope};
ghost use Rattle.fst_effects.specs.Scopes.{known_sort, run_wants, scope_in, sort_at, wants_in};
ghost use Rattle.fst_effects.specs.TermSorts.{visible};
ghost use Rattle.fst_effects.specs.WrittenSorts.{note_of};

use crate::building::{core_term, sort_or_unit};
use crate::given_texts::{given_bound, given_unless};
use crate::giving::given;
use crate::patterns::{bind, core_con, unbind};
use crate::runs::{run_of, wants_of_run};
use crate::scope::{Context, Entry};
use crate::sorts::{Known, as_given, or_else};
use crate::wanted::{Run, Wants, want_of};
use crate::written::noted;
use fst_base::{Box, Name, OutOfMemory, Seq, Sort, boxed, pair};
use fst_names::{Ref, RefKind};
use fst_program::{Arm, DmTerm};
use fst_terms::Term;
use fst_trees::{ArmTree, ConWord, DmTree, Form, SortTree, Word};
use std::alloc::Global;

/// Text of a definition on the heap, or want of memory.
pub type Made = Result<Box<DmTerm>, OutOfMemory>;

/// The text on the heap.
fn made(alloc: Global, text: DmTerm) -> Made
    ensures { IfOk result (λ t. t ≡ text) }
{
    boxed(alloc, Ok(text))
}

/// A term as a text.
#[tactic(auto, using(crate::proofs::CoreTextLemmas::makers))]
fn made_ret(alloc: Global, term: Result<Term, OutOfMemory>) -> Made
    ensures { IfOk result (λ t. (f : Term) × ((term ≡ Ok f) × (plain_dm t ≡ d_ret (plain_term f)))) }
{
    let term = term?;
    made(alloc, DmTerm::Ret(term))
}

/// A let of these.
#[tactic(auto, using(crate::proofs::CoreTextLemmas::makers))]
fn made_let(alloc: Global, word: &Word, bound: Made, rest: Made) -> Made
    ensures { IfOk result (λ t. (c : DmTerm) × ((d : DmTerm) × ((bound ≡ Ok c) × (rest ≡ Ok d) × (plain_dm t ≡ d_let word.now.text (plain_dm c) (plain_dm d))))) }
{
    let (name, (bound, rest)) = pair(word.text.copy(alloc), pair(bound, rest))?;
    made(alloc, DmTerm::Let(name, bound, rest))
}

/// An `if` of these.
#[tactic(auto, using(crate::proofs::CoreTextLemmas::makers))]
fn made_if(alloc: Global, test: Result<Term, OutOfMemory>, left: Made, right: Made) -> Made
    ensures { IfOk result (λ t. (f : Term) × ((c : DmTerm) × ((d : DmTerm) × ((test ≡ Ok f) × (left ≡ Ok c) × (right ≡ Ok d) × (plain_dm t ≡ d_if (plain_term f) (plain_dm c) (plain_dm d)))))) }
{
    let (test, (left, right)) = pair(test, pair(left, right))?;
    made(alloc, DmTerm::If(test, left, right))
}

/// A match of these.
#[tactic(auto, using(crate::proofs::CoreTextLemmas::makers))]
fn made_match(
    alloc: Global,
    form: Result<Term, OutOfMemory>,
    arms: Result<Seq<Arm<DmTerm>>, OutOfMemory>,
) -> Made
    ensures { IfOk result (λ t. (f : Term) × ((bs : List (Arm DmTerm)) × ((form ≡ Ok f) × (arms ≡ Ok bs) × (plain_dm t ≡ d_match (plain_term f) (made_arms bs))))) }
{
    let (form, arms) = pair(form, arms)?;
    made(alloc, DmTerm::Match(form, arms))
}

/// The names of a pattern or a header.
pub fn copy_texts(alloc: Global, words: &[Word]) -> Result<Seq<Name>, OutOfMemory>
    ensures { IfOk result (λ names. names ≡ map (λ w. w.text) words.now) }
{
    let mut names = Seq::new(alloc);
    for word in words {
        names.push(word.text.copy(alloc)?)?;
    }
    Ok(names)
}

/// The core term of the argument of this number; unit where there is none.
#[tactic(auto, using(crate::proofs::CoreTextLemmas::arguments))]
fn core_arg(
    alloc: Global,
    args: &[Form<Ref>],
    wants: Wants<'_>,
    index: usize,
    context: &mut Context,
) -> Result<Term, OutOfMemory>
    ensures term { IfOk result (λ t. plain_term t ≡ arg_core (scope_in context.old) args.now (wants_in wants.entry) index) }
    ensures scope { OnOk result (scope_in context.new ≡ scope_in context.old) }
{
    if index < args.len() {
        let want = want_of(wants, index);
        let term = core_term(alloc, &[], &args[index], want, context)?;
        Ok(term)
    } else {
        Ok(Term::Unit)
    }
}

/// A run of a computation.
#[tactic(auto, using(crate::proofs::CoreTextLemmas::runs))]
fn core_run(
    alloc: Global,
    runs: &[Run],
    name: Ref,
    args: &[Form<Ref>],
    context: &mut Context,
) -> Made
    ensures text { IfOk result (λ t. plain_dm t ≡ run_core name.kind (scope_in context.old) args.now (run_wants (run_in runs.now name))) }
    ensures scope { OnOk result (scope_in context.new ≡ scope_in context.old) }
{
    let wants = wants_of_run(run_of(runs, name));
    let first = core_arg(alloc, args, wants, 0, context);
    match name.kind {
        RefKind::RunG => {
            let second = core_arg(alloc, args, wants, 1, context);
            let (first, second) = pair(first, second)?;
            made(alloc, DmTerm::RunG(first, second))
        }
        _ => {
            let first = first?;
            made(alloc, DmTerm::RunF(first))
        }
    }
}

/// The core text that a text is.
#[cycle(core)]
#[tactic(auto, using(crate::proofs::CoreTextLemmas::texts))]
pub fn core_dm(
    alloc: Global,
    runs: &[Run],
    tree: &DmTree<Ref>,
    want: Option<&Sort>,
    context: &mut Context,
) -> Made
    ensures text { IfOk result (λ t. plain_dm t ≡ dm_core runs.now (scope_in context.old) tree.now (sort_at want.entry)) }
    ensures scope { OnOk result (scope_in context.new ≡ scope_in context.old) }
{
    match tree {
        DmTree::Let(word, note, part, rest) => {
            let sort = given_bound(alloc, runs, note, part.get(), context);
            let bound = core_bound(alloc, runs, note, part.get(), context);
            let rest = core_under(alloc, runs, rest.get(), sort, want, context);
            made_let(alloc, word, bound, rest)
        }
        DmTree::If(test, left, right) => {
            let own = given_unless(alloc, runs, tree, want, context)?;
            let side = or_else(want, as_given(&own));
            let test = core_term(alloc, &[], test, Some(&Sort::Bool), context);
            let left = core_dm(alloc, runs, left.get(), side, context);
            let right = core_dm(alloc, runs, right.get(), side, context);
            made_if(alloc, test, left, right)
        }
        DmTree::Match(form, _, arms) => {
            let own = given_unless(alloc, runs, tree, want, context)?;
            let side = or_else(want, as_given(&own));
            core_match(alloc, runs, arms.as_slice(), form, side, context)
        }
        DmTree::Block(_, text) => core_dm(alloc, runs, text.get(), want, context),
        DmTree::Run(name, args) => core_run(alloc, runs, *name, args.as_slice(), context),
        DmTree::Term(form) => made_ret(alloc, core_term(alloc, &[], form, want, context)),
    }
}

/// The core text of a match.
#[cycle(core)]
#[tactic(auto, using(crate::proofs::CoreTextLemmas::matches))]
fn core_match(
    alloc: Global,
    runs: &[Run],
    arms: &[ArmTree<DmTree<Ref>>],
    form: &Form<Ref>,
    want: Option<&Sort>,
    context: &mut Context,
) -> Made
    ensures text { IfOk result (λ t. plain_dm t ≡ dm_match_core runs.now (scope_in context.old) form.now arms.now (sort_at want.entry)) }
    ensures scope { OnOk result (scope_in context.new ≡ scope_in context.old) }
{
    let sort = boxed(alloc, sort_or_unit(given(alloc, &[], form, context)))?;
    let form = core_term(alloc, &[], form, None, context);
    let arms = core_arms(alloc, runs, arms, sort.get(), want, context);
    made_match(alloc, form, arms)
}

/// The core text that is bound to a variable.
#[cycle(core)]
fn core_bound(
    alloc: Global,
    runs: &[Run],
    note: &Option<SortTree<Ref>>,
    part: &DmTree<Ref>,
    context: &mut Context,
) -> Made
    ensures text { IfOk result (λ t. plain_dm t ≡ dm_core runs.now (scope_in context.old) part.now (note_of note.now)) }
    ensures scope { OnOk result (scope_in context.new ≡ scope_in context.old) }
{
    let note = noted(alloc, note)?;
    core_dm(alloc, runs, part, as_given(&note), context)
}

/// The core text behind a variable of this sort.
#[cycle(core)]
fn core_under(
    alloc: Global,
    runs: &[Run],
    tree: &DmTree<Ref>,
    sort: Known,
    want: Option<&Sort>,
    context: &mut Context,
) -> Made
    ensures text { IfOk result (λ t. (s : Option Sort) × ((sort ≡ Ok s) × (plain_dm t ≡ dm_core runs.now (visible (or_unit (known_sort s)) ∷ scope_in context.old) tree.now (sort_at want.entry)))) }
    ensures scope { OnOk result (scope_in context.new ≡ scope_in context.old) }
{
    let sort = boxed(alloc, sort_or_unit(sort))?;
    context.push(Entry {
        sort,
        hidden: false,
    })?;
    let text = core_dm(alloc, runs, tree, want, context);
    context.pop();
    text
}

/// An arm, with the names of its pattern in the scope of its text.
#[cycle(core)]
fn core_arm(
    alloc: Global,
    runs: &[Run],
    tree: &DmTree<Ref>,
    con: ConWord,
    names: &[Word],
    sort: &Sort,
    want: Option<&Sort>,
    context: &mut Context,
) -> Result<Arm<DmTerm>, OutOfMemory>
    ensures con { IfOk result (λ a. a.con ≡ P.core_con con) }
    ensures names { IfOk result (λ a. a.names ≡ map (λ w. w.text) names.now) }
    ensures text { IfOk result (λ a. plain_dm a.body ≡ dm_core runs.now (pattern_scope con (plain_sort sort.now) (scope_in context.old)) tree.now (sort_at want.entry)) }
    ensures scope { OnOk result (scope_in context.new ≡ scope_in context.old) }
{
    let names = copy_texts(alloc, names)?;
    bind(alloc, con, sort, context)?;
    let body = core_dm(alloc, runs, tree, want, context)?;
    unbind(con, sort, context);
    Ok(Arm {
        con: core_con(con),
        names,
        body: body.into_inner(),
    })
}

/// The arms of a match of this sort.
#[cycle(core)]
#[tactic(auto, using(crate::proofs::CoreTextLemmas::arm_lists))]
fn core_arms(
    alloc: Global,
    runs: &[Run],
    arms: &[ArmTree<DmTree<Ref>>],
    sort: &Sort,
    want: Option<&Sort>,
    context: &mut Context,
) -> Result<Seq<Arm<DmTerm>>, OutOfMemory>
    ensures arms { IfOk result (λ bs. made_arms bs ≡ dm_arms_core runs.now (scope_in context.old) (plain_sort sort.now) arms.now (sort_at want.entry)) }
    ensures scope { OnOk result (scope_in context.new ≡ scope_in context.old) }
{
    let mut made = Seq::new(alloc);
    for index in 0..arms.len() {
        let arm = &arms[index];
        let names = arm.names.as_slice();
        made.push(core_arm(alloc, runs, &arm.body, arm.con, names, sort, want, context)?)?;
    }
    Ok(made)
}
