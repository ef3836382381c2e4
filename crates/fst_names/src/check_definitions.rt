//! Texts of returns, binds and lifts.

ghost use Rattle.std.specs.Prelude.{◌≡◌, IfOk, OnOk};
ghost use Rattle.fst_names.specs.Checks.{dm_breaks, dm_arms_break, pattern_breaks};
ghost use Rattle.fst_names.specs.Looked.{tables_in};
ghost use Rattle.fst_names.specs.Scopes.{names_in};

use crate::broken::{Broken, least};
use crate::check_forms::{check_call, check_form, check_forms};
use crate::check_sorts::check_note;
use crate::scope::Scope;
use crate::tables::Tables;
use crate::words::check_pattern;
use fst_base::OutOfMemory;
use fst_trees::{ArmTree, DmTree, Word};

/// What the text of a definition breaks.
#[cycle(text)]
#[tactic(auto, using(crate::proofs::CheckDmLemmas::texts))]
pub fn check_dm<'a>(
    tables: &Tables<'_, 'a>,
    tree: &'a DmTree<Word>,
    scope: &mut Scope<'a>,
) -> Result<Option<Broken>, OutOfMemory>
    ensures broken { IfOk result (λ found. found ≡ dm_breaks (tables_in tables.now) (names_in scope.old) tree.now) }
    ensures scope { OnOk result (names_in scope.new ≡ names_in scope.old) }
{
    match tree {
        DmTree::Let(word, note, part, rest) => {
            let note = check_note(tables, note);
            let part = check_dm(tables, part.get(), scope)?;
            scope.push(&word.text)?;
            let rest = check_dm(tables, rest.get(), scope)?;
            scope.pop();
            Ok(least(least(note, part), rest))
        }
        DmTree::If(test, left, right) => {
            let test = check_form(tables, test, scope)?;
            let left = check_dm(tables, left.get(), scope)?;
            let right = check_dm(tables, right.get(), scope)?;
            Ok(least(least(test, left), right))
        }
        DmTree::Match(form, _, arms) => {
            let form = check_form(tables, form, scope)?;
            Ok(least(form, check_dm_arms(tables, arms.as_slice(), scope)?))
        }
        DmTree::Block(_, text) => check_dm(tables, text.get(), scope),
        DmTree::Run(word, args) => {
            let inside = check_forms(tables, args.as_slice(), scope)?;
            Ok(check_call(tables.called(word), args.len(), word, inside))
        }
        DmTree::Term(form) => check_form(tables, form, scope),
    }
}

/// What the arms of a match break.
#[cycle(text)]
#[tactic(auto, using(crate::proofs::CheckDmLemmas::arm_lists))]
fn check_dm_arms<'a>(
    tables: &Tables<'_, 'a>,
    arms: &'a [ArmTree<DmTree<Word>>],
    scope: &mut Scope<'a>,
) -> Result<Option<Broken>, OutOfMemory>
    ensures broken { IfOk result (λ found. found ≡ dm_arms_break (tables_in tables.now) (names_in scope.old) arms.now) }
    ensures scope { OnOk result (names_in scope.new ≡ names_in scope.old) }
{
    let mut found = None;
    for index in 0..arms.len() {
        let arm = &arms[index];
        let own = check_pattern(&arms[..index], arm);
        scope.bind(arm.names.as_slice())?;
        let body = check_dm(tables, &arm.body, scope)?;
        scope.unbind(arm.names.len());
        found = least(found, least(own, body));
    }
    Ok(found)
}
