ghost use Rattle.std.specs.Prelude.{◌≡◌, ◌∷◌, IfOk, OnOk};
ghost use Rattle.fst_names.specs.Broken.{first_broken};
ghost use Rattle.fst_names.specs.Names.{broken_local};
ghost use Rattle.fst_names.specs.Looked.{tables_in};
ghost use Rattle.fst_names.specs.Scopes.{names_in};
ghost use Rattle.fst_names.specs.Checks.{form_breaks, forms_break, call_breaks};

use crate::broken::{Broken, inner, least, unless};
use crate::scope::Scope;
use crate::tables::{Called, Tables, wrong_count};
use fst_base::{OutOfMemory, Rule};
use fst_trees::{Form, FormNode, Word};

/// What is broken at a variable.
fn check_local(word: &Word, scope: &Scope<'_>) -> Option<Broken>
    ensures { result ≡ first_broken (broken_local (names_in scope.now) word.now) }
{
    unless(scope.has(&word.text), Rule::Unknown, word.at)
}

/// What is broken at a called name, or else in its arguments or by their number.
#[tactic(auto, unfolding(crate::specs::Checks::call_breaks))]
pub fn check_call(called: Called, count: usize, word: &Word, args: Option<Broken>) -> Option<Broken>
    ensures { result ≡ call_breaks called count word.now args }
{
    least(
        called.broken,
        inner(args, wrong_count(called.arity, count, word)),
    )
}

/// What a term or a formula breaks.
#[cycle(form)]
#[tactic(auto, using(crate::proofs::CheckLemmas::checks))]
pub fn check_form<'a>(
    tables: &Tables<'_, 'a>,
    form: &'a Form<Word>,
    scope: &mut Scope<'a>,
) -> Result<Option<Broken>, OutOfMemory>
    ensures broken { IfOk result (λ found. found ≡ form_breaks (tables_in tables.now) (names_in scope.old) form.now) }
    ensures scope { OnOk result (names_in scope.new ≡ names_in scope.old) }
{
    match &form.node {
        FormNode::Ident(word) => Ok(check_local(word, scope)),
        FormNode::Int(_) => Ok(None),
        FormNode::Bool(_) => Ok(None),
        FormNode::Unit => Ok(None),
        FormNode::Prim(_, args) => check_forms(tables, args.as_slice(), scope),
        FormNode::If(test, left, right) => {
            let test = check_form(tables, test.get(), scope)?;
            let left = check_form(tables, left.get(), scope)?;
            let right = check_form(tables, right.get(), scope)?;
            Ok(least(least(test, left), right))
        }
        FormNode::App(word, args) => {
            let inside = check_forms(tables, args.as_slice(), scope)?;
            Ok(check_call(tables.applied(word), args.len(), word, inside))
        }
        FormNode::Let(word, bound, body) => {
            let bound = check_form(tables, bound.get(), scope)?;
            scope.push(&word.text)?;
            let body = check_form(tables, body.get(), scope)?;
            scope.pop();
            Ok(least(bound, body))
        }
    }
}

/// What any of these breaks.
#[cycle(form)]
#[tactic(auto, using(crate::proofs::CheckLemmas::check_lists))]
pub fn check_forms<'a>(
    tables: &Tables<'_, 'a>,
    forms: &'a [Form<Word>],
    scope: &mut Scope<'a>,
) -> Result<Option<Broken>, OutOfMemory>
    ensures broken { IfOk result (λ found. found ≡ forms_break (tables_in tables.now) (names_in scope.old) forms.now) }
    ensures scope { OnOk result (names_in scope.new ≡ names_in scope.old) }
{
    let mut found = None;
    for form in forms {
        found = least(found, check_form(tables, form, scope)?);
    }
    Ok(found)
}
