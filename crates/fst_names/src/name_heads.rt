//! What stands before a function's body, with its names looked up.

ghost use Rattle.std.specs.Prelude.{◌≡◌, [], ◌∷◌, map, option_map, codes, IfOk, OnOk};
ghost use Rattle.fst_names.specs.Names.{binding, clause_names};
ghost use Rattle.fst_names.specs.NamedDeclarations.{maybe_named, param_named, params_named, effect_name_named, measures_named, plain_head, head_named};
ghost use Rattle.fst_names.specs.Declarations.{param_names};
ghost use Rattle.fst_names.specs.Looked.{tables_in};
ghost use Rattle.fst_names.specs.Scopes.{names_in};
ghost use Rattle.fst_names.specs.Trees.{plain_form, plain_wparam};

use crate::name_forms::{copy_word, name_form, name_forms};
use crate::name_sorts::name_sort;
use crate::reference::Ref;
use crate::scope::Scope;
use crate::tables::Tables;
use fst_base::{OutOfMemory, Seq, pair};
use fst_trees::{EffectName, Form, HeadTree, ParamTree, Word};
use std::alloc::Global;

/// A formula with its names looked up, where there is one.
#[tactic(auto, using(crate::proofs::NameFunLemmas::maybes))]
fn name_maybe<'a>(
    alloc: Global,
    tables: &Tables<'_, 'a>,
    form: &'a Option<Form<Word>>,
    scope: &mut Scope<'a>,
) -> Result<Option<Form<Ref>>, OutOfMemory>
    ensures form { IfOk result (λ f. option_map plain_form f ≡ maybe_named (tables_in tables.now) (names_in scope.old) form.now) }
    ensures scope { OnOk result (names_in scope.new ≡ names_in scope.old) }
{
    match form {
        None => Ok(None),
        Some(form) => {
            let form = name_form(alloc, tables, form, scope)?;
            Ok(Some(form))
        }
    }
}

/// A parameter with its names looked up. It comes into scope, and its refinement sees it.
fn name_param<'a>(
    alloc: Global,
    tables: &Tables<'_, 'a>,
    param: &'a ParamTree<Word>,
    scope: &mut Scope<'a>,
) -> Result<ParamTree<Ref>, OutOfMemory>
    ensures param { IfOk result (λ p. plain_wparam p ≡ param_named (tables_in tables.now) (names_in scope.old) param.now) }
    ensures scope { OnOk result (names_in scope.new ≡ param.now.name.text ∷ names_in scope.old) }
{
    let name = copy_word(alloc, &param.name)?;
    scope.push(&param.name.text)?;
    let sort = name_sort(alloc, tables, &param.sort);
    let refine = name_maybe(alloc, tables, &param.refine, scope);
    let (sort, refine) = pair(sort, refine)?;
    Ok(ParamTree {
        name,
        sort,
        hidden: param.hidden,
        refine,
    })
}

/// The parameters with their names looked up. They come into scope, and each refinement sees them up to its own.
#[tactic(auto, using(crate::proofs::NameFunLemmas::params))]
fn name_params<'a>(
    alloc: Global,
    tables: &Tables<'_, 'a>,
    params: &'a [ParamTree<Word>],
    scope: &mut Scope<'a>,
) -> Result<Seq<ParamTree<Ref>>, OutOfMemory>
    requires { names_in scope.old ≡ [] }
    ensures params { IfOk result (λ ps. map plain_wparam ps ≡ params_named (tables_in tables.now) params.now) }
    ensures scope { OnOk result (names_in scope.new ≡ binding (param_names params.now) []) }
{
    let mut named = Seq::new(alloc);
    for param in params {
        let param = name_param(alloc, tables, param, scope)?;
        named.push(param)?;
    }
    Ok(named)
}

/// The effect of a function with its name looked up.
fn name_effect_name(tables: &Tables<'_, '_>, effect: &EffectName<Word>) -> EffectName<Ref>
    ensures { result ≡ effect_name_named (tables_in tables.now) effect.now }
{
    match effect {
        EffectName::Pure => EffectName::Pure,
        EffectName::Ghost => EffectName::Ghost,
        EffectName::Div => EffectName::Div,
        EffectName::User(word) => EffectName::User(tables.effect_ref(word)),
    }
}

/// Ensures with its names looked up; `result` stands in it.
fn name_gives<'a>(
    alloc: Global,
    tables: &Tables<'_, 'a>,
    form: &'a Option<Form<Word>>,
    scope: &mut Scope<'a>,
) -> Result<Option<Form<Ref>>, OutOfMemory>
    ensures form { IfOk result (λ f. option_map plain_form f ≡ maybe_named (tables_in tables.now) (codes "result" ∷ names_in scope.old) form.now) }
    ensures scope { OnOk result (names_in scope.new ≡ names_in scope.old) }
{
    scope.push_text("result")?;
    let gives = name_maybe(alloc, tables, form, scope)?;
    scope.pop();
    Ok(gives)
}

/// Requires and ensures.
type Clauses = (Option<Form<Ref>>, Option<Form<Ref>>);

/// Requires and ensures with their names looked up.
fn name_pair<'a>(
    alloc: Global,
    tables: &Tables<'_, 'a>,
    head: &'a HeadTree<Word>,
    scope: &mut Scope<'a>,
) -> Result<Clauses, OutOfMemory>
    ensures clauses { IfOk result (λ p. (option_map plain_form p.0 ≡ maybe_named (tables_in tables.now) (names_in scope.old) head.now.needs) × (option_map plain_form p.1 ≡ maybe_named (tables_in tables.now) (codes "result" ∷ names_in scope.old) head.now.gives)) }
    ensures scope { OnOk result (names_in scope.new ≡ names_in scope.old) }
{
    let needs = name_maybe(alloc, tables, &head.needs, scope);
    let gives = name_gives(alloc, tables, &head.gives, scope);
    pair(needs, gives)
}

/// The same; with a user effect `input` stands in both.
fn name_clauses<'a>(
    alloc: Global,
    tables: &Tables<'_, 'a>,
    head: &'a HeadTree<Word>,
    scope: &mut Scope<'a>,
) -> Result<Clauses, OutOfMemory>
    ensures clauses { IfOk result (λ p. (option_map plain_form p.0 ≡ maybe_named (tables_in tables.now) (clause_names head.now.effect (names_in scope.old)) head.now.needs) × (option_map plain_form p.1 ≡ maybe_named (tables_in tables.now) (codes "result" ∷ clause_names head.now.effect (names_in scope.old)) head.now.gives)) }
    ensures scope { OnOk result (names_in scope.new ≡ names_in scope.old) }
{
    match &head.effect {
        EffectName::User(_) => {
            scope.push_text("input")?;
            let clauses = name_pair(alloc, tables, head, scope)?;
            scope.pop();
            Ok(clauses)
        }
        EffectName::Pure => name_pair(alloc, tables, head, scope),
        EffectName::Ghost => name_pair(alloc, tables, head, scope),
        EffectName::Div => name_pair(alloc, tables, head, scope),
    }
}

/// The measures with their names looked up.
#[tactic(auto, using(crate::proofs::NameFunLemmas::measures))]
fn name_measures<'a>(
    alloc: Global,
    tables: &Tables<'_, 'a>,
    forms: &'a [Form<Word>],
    scope: &mut Scope<'a>,
) -> Result<Seq<Form<Ref>>, OutOfMemory>
    ensures forms { IfOk result (λ fs. map plain_form fs ≡ measures_named (tables_in tables.now) (names_in scope.old) forms.now) }
    ensures scope { OnOk result (names_in scope.new ≡ names_in scope.old) }
{
    name_forms(alloc, tables, forms, scope)
}

/// What stands before a function's body, with its names looked up. The parameters come into scope.
pub fn name_head<'a>(
    alloc: Global,
    tables: &Tables<'_, 'a>,
    head: &'a HeadTree<Word>,
    scope: &mut Scope<'a>,
) -> Result<HeadTree<Ref>, OutOfMemory>
    requires { names_in scope.old ≡ [] }
    ensures head { IfOk result (λ h. plain_head h ≡ head_named (tables_in tables.now) head.now) }
    ensures scope { OnOk result (names_in scope.new ≡ binding (param_names head.now.params) []) }
{
    let name = copy_word(alloc, &head.name)?;
    let params = name_params(alloc, tables, head.params.as_slice(), scope)?;
    let sort = name_sort(alloc, tables, &head.sort);
    let clauses = name_clauses(alloc, tables, head, scope);
    let measures = name_measures(alloc, tables, head.measures.as_slice(), scope);
    let (sort, ((needs, gives), measures)) = pair(sort, pair(clauses, measures))?;
    Ok(HeadTree {
        name,
        params,
        effect: name_effect_name(tables, &head.effect),
        sort,
        needs,
        gives,
        measures,
        unfold: head.unfold,
    })
}
