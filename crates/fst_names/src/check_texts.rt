ghost use Rattle.std.specs.Prelude.{◌≡◌, IfOk, OnOk};
ghost use Rattle.fst_names.specs.Checks.{text_breaks, part_breaks, arms_break, pattern_breaks};
ghost use Rattle.fst_names.specs.Looked.{tables_in};
ghost use Rattle.fst_names.specs.Scopes.{names_in};

use crate::broken::{Broken, least};
use crate::check_forms::{check_call, check_form, check_forms};
use crate::check_sorts::{check_note, check_sort};
use crate::scope::Scope;
use crate::tables::Tables;
use crate::words::check_pattern;
use fst_base::OutOfMemory;
use fst_trees::{ArmTree, BodyTree, PartNode, PartTree, Word};

/// What a body breaks.
#[cycle(text)]
#[tactic(auto, using(crate::proofs::CheckTextLemmas::texts))]
pub fn check_body<'a>(
    tables: &Tables<'_, 'a>,
    tree: &'a BodyTree<Word>,
    scope: &mut Scope<'a>,
) -> Result<Option<Broken>, OutOfMemory>
    ensures broken { IfOk result (λ found. found ≡ text_breaks (tables_in tables.now) (names_in scope.old) tree.now) }
    ensures scope { OnOk result (names_in scope.new ≡ names_in scope.old) }
{
    match tree {
        BodyTree::Let(word, note, part, rest) => {
            let note = check_note(tables, note);
            let part = check_part(tables, part, scope)?;
            scope.push(&word.text)?;
            let rest = check_body(tables, rest.get(), scope)?;
            scope.pop();
            Ok(least(least(note, part), rest))
        }
        BodyTree::GhostLet(word, note, part, rest) => {
            let note = check_note(tables, note);
            let part = check_part(tables, part, scope)?;
            scope.push(&word.text)?;
            let rest = check_body(tables, rest.get(), scope)?;
            scope.pop();
            Ok(least(least(note, part), rest))
        }
        BodyTree::Assert(form, _, rest) => {
            let form = check_form(tables, form, scope)?;
            Ok(least(form, check_body(tables, rest.get(), scope)?))
        }
        BodyTree::If(test, left, right) => {
            let test = check_form(tables, test, scope)?;
            let left = check_body(tables, left.get(), scope)?;
            let right = check_body(tables, right.get(), scope)?;
            Ok(least(least(test, left), right))
        }
        BodyTree::Match(form, _, arms) => {
            let form = check_form(tables, form, scope)?;
            Ok(least(form, check_arms(tables, arms.as_slice(), scope)?))
        }
        BodyTree::Part(part) => check_part(tables, part, scope),
    }
}

/// What a part breaks.
#[cycle(text)]
#[tactic(auto, using(crate::proofs::CheckTextLemmas::parts))]
fn check_part<'a>(
    tables: &Tables<'_, 'a>,
    part: &'a PartTree<Word>,
    scope: &mut Scope<'a>,
) -> Result<Option<Broken>, OutOfMemory>
    ensures broken { IfOk result (λ found. found ≡ part_breaks (tables_in tables.now) (names_in scope.old) part.now) }
    ensures scope { OnOk result (names_in scope.new ≡ names_in scope.old) }
{
    match &part.node {
        PartNode::Block(body) => check_body(tables, body.get(), scope),
        PartNode::Call(word, args) => {
            let inside = check_forms(tables, args.as_slice(), scope)?;
            Ok(check_call(tables.called(word), args.len(), word, inside))
        }
        PartNode::Reify(effect, sort, body, input) => {
            let named = least(tables.effect(effect), check_sort(tables, sort));
            let body = check_body(tables, body.get(), scope)?;
            let input = check_form(tables, input, scope)?;
            Ok(least(least(named, body), input))
        }
        PartNode::Reflect(effect, sort, name, body) => {
            let named = least(tables.effect(effect), check_sort(tables, sort));
            scope.push(&name.text)?;
            let body = check_body(tables, body.get(), scope)?;
            scope.pop();
            Ok(least(named, body))
        }
        PartNode::Term(form) => check_form(tables, form, scope),
    }
}

/// What the arms of a match break.
#[cycle(text)]
#[tactic(auto, using(crate::proofs::CheckTextLemmas::arm_lists))]
fn check_arms<'a>(
    tables: &Tables<'_, 'a>,
    arms: &'a [ArmTree<BodyTree<Word>>],
    scope: &mut Scope<'a>,
) -> Result<Option<Broken>, OutOfMemory>
    ensures broken { IfOk result (λ found. found ≡ arms_break (tables_in tables.now) (names_in scope.old) arms.now) }
    ensures scope { OnOk result (names_in scope.new ≡ names_in scope.old) }
{
    let mut found = None;
    for index in 0..arms.len() {
        let arm = &arms[index];
        let own = check_pattern(&arms[..index], arm);
        scope.bind(arm.names.as_slice())?;
        let body = check_body(tables, &arm.body, scope)?;
        scope.unbind(arm.names.len());
        found = least(found, least(own, body));
    }
    Ok(found)
}
