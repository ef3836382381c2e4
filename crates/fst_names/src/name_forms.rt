//! Terms and formulas with their names looked up.

ghost use Rattle.std.specs.Prelude.{◌≡◌, IfOk, OnOk};
ghost use Rattle.fst_names.specs.Namings.{form_named, forms_named};
ghost use Rattle.fst_names.specs.Looked.{tables_in};
ghost use Rattle.fst_names.specs.Scopes.{names_in};
ghost use Rattle.fst_names.specs.Trees.{plain_form, plain_forms};

use crate::reference::Ref;
use crate::scope::Scope;
use crate::tables::Tables;
use fst_base::{OutOfMemory, Pos, Seq, boxed};
use fst_trees::{Form, FormNode, Word};
use std::alloc::Global;

/// An equal word.
pub fn copy_word(alloc: Global, word: &Word) -> Result<Word, OutOfMemory>
    ensures { IfOk result (λ w. w ≡ word.now) }
{
    Ok(Word {
        text: word.text.copy(alloc)?,
        at: word.at,
    })
}

/// Equal words.
pub fn copy_words(alloc: Global, words: &[Word]) -> Result<Seq<Word>, OutOfMemory>
    ensures { IfOk result (λ copies. copies ≡ words.now) }
{
    let mut copies = Seq::new(alloc);
    for word in words {
        let copy = copy_word(alloc, word)?;
        copies.push(copy)?;
    }
    Ok(copies)
}

/// A term or a formula at its place.
fn form_at(at: Pos, node: FormNode<Ref>) -> Form<Ref>
    ensures { result ≡ record { at = at; node = node } }
{
    Form { at, node }
}

/// A term or a formula with its names looked up.
#[cycle(name)]
#[tactic(auto, using(crate::proofs::NameLemmas::names))]
pub fn name_form<'a>(
    alloc: Global,
    tables: &Tables<'_, 'a>,
    form: &'a Form<Word>,
    scope: &mut Scope<'a>,
) -> Result<Form<Ref>, OutOfMemory>
    ensures form { IfOk result (λ f. plain_form f ≡ form_named (tables_in tables.now) (names_in scope.old) form.now) }
    ensures at { IfOk result (λ f. f.at ≡ form.now.at) }
    ensures scope { OnOk result (names_in scope.new ≡ names_in scope.old) }
{
    let at = form.at;
    match &form.node {
        FormNode::Ident(word) => Ok(form_at(at, FormNode::Ident(scope.local(word)?))),
        FormNode::Int(number) => Ok(form_at(at, FormNode::Int(*number))),
        FormNode::Bool(truth) => Ok(form_at(at, FormNode::Bool(*truth))),
        FormNode::Unit => Ok(form_at(at, FormNode::Unit)),
        FormNode::Prim(op, args) => {
            let args = name_forms(alloc, tables, args.as_slice(), scope)?;
            Ok(form_at(at, FormNode::Prim(*op, args)))
        }
        FormNode::If(test, left, right) => {
            let test = boxed(alloc, name_form(alloc, tables, test.get(), scope))?;
            let left = boxed(alloc, name_form(alloc, tables, left.get(), scope))?;
            let right = boxed(alloc, name_form(alloc, tables, right.get(), scope))?;
            Ok(form_at(at, FormNode::If(test, left, right)))
        }
        FormNode::App(word, args) => {
            let args = name_forms(alloc, tables, args.as_slice(), scope)?;
            let function = tables.applied_ref(word);
            Ok(form_at(at, FormNode::App(function, args)))
        }
        FormNode::Let(word, bound, body) => {
            let name = copy_word(alloc, word)?;
            let bound = boxed(alloc, name_form(alloc, tables, bound.get(), scope))?;
            scope.push(&word.text)?;
            let body = boxed(alloc, name_form(alloc, tables, body.get(), scope))?;
            scope.pop();
            Ok(form_at(at, FormNode::Let(name, bound, body)))
        }
    }
}

/// These with their names looked up.
#[cycle(name)]
#[tactic(auto, using(crate::proofs::NameLemmas::name_lists))]
pub fn name_forms<'a>(
    alloc: Global,
    tables: &Tables<'_, 'a>,
    forms: &'a [Form<Word>],
    scope: &mut Scope<'a>,
) -> Result<Seq<Form<Ref>>, OutOfMemory>
    ensures forms { IfOk result (λ fs. plain_forms fs ≡ forms_named (tables_in tables.now) (names_in scope.old) forms.now) }
    ensures scope { OnOk result (names_in scope.new ≡ names_in scope.old) }
{
    let mut named = Seq::new(alloc);
    for form in forms {
        let form = name_form(alloc, tables, form, scope)?;
        named.push(form)?;
    }
    Ok(named)
}
