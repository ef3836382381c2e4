//! Functions.

ghost use Rattle.std.specs.Prelude.{◌≡◌, [], ◌||◌, not, option_map, IfOk, OnOk};
ghost use Rattle.fst_base.specs.declared.rule.Rule.TheVariants as rule;
ghost use Rattle.fst_names.specs.Broken.{first_broken, least, breaks};
ghost use Rattle.fst_names.specs.Names.{broken_words, binding, clause_names, unless, is_among, is_before, is_blank, fun_from};
ghost use Rattle.fst_names.specs.Looked.{tables_in, before_in};
ghost use Rattle.fst_names.specs.Scopes.{names_in};
ghost use Rattle.fst_names.specs.Declarations.{param_names, fun_word_breaks, maybe_breaks, params_break, effect_name_breaks, clauses_break, head_breaks, fun_breaks};

use crate::before::Before;
use crate::broken::{Broken, least, unless};
use crate::check_forms::{check_form, check_forms};
use crate::check_sorts::check_sort;
use crate::check_texts::check_body;
use crate::globals::Globals;
use crate::scope::Scope;
use crate::tables::Tables;
use fst_base::{OutOfMemory, Rule};
use fst_trees::{EffectName, Form, FunTree, HeadTree, ParamTree, Word};
use std::alloc::Global;

/// Whether a function of the name stands before.
fn is_declared(tables: &Tables<'_, '_>, word: &Word) -> bool
    ensures { result ≡ is_before tables.now.before.funs (option_map (λ p. p.0) (fun_from 0 word.now.text tables.now.globals.now.funs)) }
{
    match tables.globals.fun(&word.text) {
        Some((number, _)) => number < tables.before.funs,
        None => false,
    }
}

/// What is broken at the name of a function: it is declared before, or there are 1,000 functions before.
#[tactic(auto, using(crate::proofs::CheckFunLemmas::words))]
fn check_fun_word(tables: &Tables<'_, '_>, word: &Word) -> Option<Broken>
    ensures { result ≡ fun_word_breaks tables.now.globals.now (before_in tables.now.before) word.now }
{
    least(
        unless(!is_declared(tables, word), Rule::Twice, word.at),
        unless(tables.before.funs < 1000, Rule::TooMany, word.at),
    )
}

/// Whether the word may be bound behind the names in scope; `_` binds nothing.
fn is_free(scope: &Scope<'_>, word: &Word) -> bool
    ensures { result ≡ (is_blank word.now.text || not (is_among word.now.text (names_in scope.now))) }
{
    word.text.text() == "_" || !scope.has(&word.text)
}

/// The second of a name among words that are bound together, the scope being those before it.
fn check_bound(scope: &Scope<'_>, word: &Word) -> Option<Broken>
    ensures { result ≡ first_broken (unless (is_blank word.now.text || not (is_among word.now.text (names_in scope.now))) (breaks rule.Twice word.now.at.at)) }
{
    unless(is_free(scope, word), Rule::Twice, word.at)
}

/// What a formula breaks, where there is one.
#[tactic(auto, using(crate::proofs::CheckFunLemmas::maybes))]
fn check_maybe<'a>(
    tables: &Tables<'_, 'a>,
    form: &'a Option<Form<Word>>,
    scope: &mut Scope<'a>,
) -> Result<Option<Broken>, OutOfMemory>
    ensures broken { IfOk result (λ found. found ≡ maybe_breaks (tables_in tables.now) (names_in scope.old) form.now) }
    ensures scope { OnOk result (names_in scope.new ≡ names_in scope.old) }
{
    match form {
        None => Ok(None),
        Some(form) => check_form(tables, form, scope),
    }
}

/// What the parameters break. They come into scope, and each refinement sees them up to its own.
#[tactic(auto, using(crate::proofs::CheckFunLemmas::params))]
fn check_params<'a>(
    tables: &Tables<'_, 'a>,
    params: &'a [ParamTree<Word>],
    scope: &mut Scope<'a>,
) -> Result<Option<Broken>, OutOfMemory>
    requires { names_in scope.old ≡ [] }
    ensures broken { IfOk result (λ found. found ≡ least (first_broken (broken_words [] (param_names params.now))) (params_break (tables_in tables.now) params.now)) }
    ensures scope { OnOk result (names_in scope.new ≡ binding (param_names params.now) []) }
{
    let mut twice = None;
    let mut found = None;
    for param in params {
        let sort = check_sort(tables, &param.sort);
        twice = least(twice, check_bound(scope, &param.name));
        scope.push(&param.name.text)?;
        let refine = check_maybe(tables, &param.refine, scope)?;
        found = least(found, least(sort, refine));
    }
    Ok(least(twice, found))
}

/// What is broken at the effect of a function.
fn check_effect_name(tables: &Tables<'_, '_>, effect: &EffectName<Word>) -> Option<Broken>
    ensures { result ≡ effect_name_breaks (tables_in tables.now) effect.now }
{
    match effect {
        EffectName::Pure => None,
        EffectName::Ghost => None,
        EffectName::Div => None,
        EffectName::User(word) => tables.effect(word),
    }
}

/// What requires and ensures break; `result` stands in ensures.
fn check_pair<'a>(
    tables: &Tables<'_, 'a>,
    head: &'a HeadTree<Word>,
    scope: &mut Scope<'a>,
) -> Result<Option<Broken>, OutOfMemory>
    ensures broken { IfOk result (λ found. found ≡ clauses_break (tables_in tables.now) (names_in scope.old) head.now) }
    ensures scope { OnOk result (names_in scope.new ≡ names_in scope.old) }
{
    let needs = check_maybe(tables, &head.needs, scope)?;
    scope.push_text("result")?;
    let gives = check_maybe(tables, &head.gives, scope)?;
    scope.pop();
    Ok(least(needs, gives))
}

/// The same; with a user effect `input` stands in both.
fn check_clauses<'a>(
    tables: &Tables<'_, 'a>,
    head: &'a HeadTree<Word>,
    scope: &mut Scope<'a>,
) -> Result<Option<Broken>, OutOfMemory>
    ensures broken { IfOk result (λ found. found ≡ clauses_break (tables_in tables.now) (clause_names head.now.effect (names_in scope.old)) head.now) }
    ensures scope { OnOk result (names_in scope.new ≡ names_in scope.old) }
{
    match &head.effect {
        EffectName::User(_) => {
            scope.push_text("input")?;
            let found = check_pair(tables, head, scope)?;
            scope.pop();
            Ok(found)
        }
        EffectName::Pure => check_pair(tables, head, scope),
        EffectName::Ghost => check_pair(tables, head, scope),
        EffectName::Div => check_pair(tables, head, scope),
    }
}

/// What stands between the parameters and the body: the effect, the sort, the clauses and the measures.
fn check_head<'a>(
    tables: &Tables<'_, 'a>,
    head: &'a HeadTree<Word>,
    scope: &mut Scope<'a>,
) -> Result<Option<Broken>, OutOfMemory>
    ensures broken { IfOk result (λ found. found ≡ head_breaks (tables_in tables.now) (names_in scope.old) head.now) }
    ensures scope { OnOk result (names_in scope.new ≡ names_in scope.old) }
{
    let effect = check_effect_name(tables, &head.effect);
    let sort = check_sort(tables, &head.sort);
    let clauses = check_clauses(tables, head, scope)?;
    let measures = check_forms(tables, head.measures.as_slice(), scope)?;
    Ok(least(least(least(effect, sort), clauses), measures))
}

/// What a function breaks, of which this much stands before.
#[tactic(auto, using(crate::proofs::CheckFunLemmas::funs))]
pub fn check_fun<'a>(
    alloc: Global,
    globals: &Globals<'a>,
    before: Before,
    fun: &'a FunTree<Word>,
) -> Result<Option<Broken>, OutOfMemory>
    ensures { IfOk result (λ found. found ≡ fun_breaks globals.now (before_in before) fun.now) }
{
    let tables = Tables {
        globals,
        before: before.own(fun.joined),
        header: None,
    };
    let mut scope = Scope::new(alloc);
    let word = check_fun_word(&tables, &fun.head.name);
    let params = check_params(&tables, fun.head.params.as_slice(), &mut scope)?;
    let head = check_head(&tables, &fun.head, &mut scope)?;
    let body = check_body(&tables, &fun.body, &mut scope)?;
    Ok(least(least(least(word, params), head), body))
}
