//! Texts of returns, binds and lifts with their names looked up.

ghost use Rattle.std.specs.Prelude.{◌≡◌, ◌∷◌, option_map, IfOk, OnOk};
ghost use Rattle.fst_names.specs.Namings.{note_named, dm_named, dm_arms_named, ref_at};
ghost use Rattle.fst_names.specs.Names.{binding};
ghost use Rattle.fst_names.specs.Looked.{tables_in};
ghost use Rattle.fst_names.specs.Scopes.{names_in};
ghost use Rattle.fst_names.specs.Trees.{plain_wsort, plain_dm, plain_dm_arms};

use crate::name_forms::{copy_word, copy_words, name_form, name_forms};
use crate::name_sorts::name_note;
use crate::reference::Ref;
use crate::scope::Scope;
use crate::tables::Tables;
use fst_base::{Box, OutOfMemory, Seq, boxed, pair};
use fst_trees::{ArmTree, DmTree, SortTree, Word};
use std::alloc::Global;

/// The text of a definition with its names looked up.
#[cycle(name)]
#[tactic(auto, using(crate::proofs::NameDmLemmas::texts))]
pub fn name_dm<'a>(
    alloc: Global,
    tables: &Tables<'_, 'a>,
    tree: &'a DmTree<Word>,
    scope: &mut Scope<'a>,
) -> Result<DmTree<Ref>, OutOfMemory>
    ensures text { IfOk result (λ c. plain_dm ref_at c ≡ dm_named (tables_in tables.now) (names_in scope.old) tree.now) }
    ensures scope { OnOk result (names_in scope.new ≡ names_in scope.old) }
{
    match tree {
        DmTree::Let(word, note, part, rest) => {
            let bound = name_dm_bound(alloc, tables, part.get(), note, scope);
            let rest = name_dm_under(alloc, tables, word, rest.get(), scope);
            let ((note, part), (word, rest)) = pair(bound, rest)?;
            Ok(DmTree::Let(word, note, part, rest))
        }
        DmTree::If(test, left, right) => {
            let test = name_form(alloc, tables, test, scope);
            let left = boxed(alloc, name_dm(alloc, tables, left.get(), scope));
            let right = boxed(alloc, name_dm(alloc, tables, right.get(), scope));
            let (test, (left, right)) = pair(test, pair(left, right))?;
            Ok(DmTree::If(test, left, right))
        }
        DmTree::Match(form, at, arms) => {
            let form = name_form(alloc, tables, form, scope);
            let arms = name_dm_arms(alloc, tables, arms.as_slice(), scope);
            let (form, arms) = pair(form, arms)?;
            Ok(DmTree::Match(form, *at, arms))
        }
        DmTree::Block(at, text) => {
            let text = boxed(alloc, name_dm(alloc, tables, text.get(), scope))?;
            Ok(DmTree::Block(*at, text))
        }
        DmTree::Run(word, args) => {
            let args = name_forms(alloc, tables, args.as_slice(), scope)?;
            Ok(DmTree::Run(tables.called_ref(word), args))
        }
        DmTree::Term(form) => {
            let form = name_form(alloc, tables, form, scope)?;
            Ok(DmTree::Term(form))
        }
    }
}

/// What is bound to a name, behind the sort that may be written.
#[cycle(name)]
fn name_dm_bound<'a>(
    alloc: Global,
    tables: &Tables<'_, 'a>,
    part: &'a DmTree<Word>,
    note: &Option<SortTree<Word>>,
    scope: &mut Scope<'a>,
) -> Result<(Option<SortTree<Ref>>, Box<DmTree<Ref>>), OutOfMemory>
    ensures bound { IfOk result (λ p. (option_map plain_wsort p.0 ≡ note_named (tables_in tables.now) note.now) × (plain_dm ref_at p.1 ≡ dm_named (tables_in tables.now) (names_in scope.old) part.now)) }
    ensures scope { OnOk result (names_in scope.new ≡ names_in scope.old) }
{
    let note = name_note(alloc, tables, note);
    let part = boxed(alloc, name_dm(alloc, tables, part, scope));
    pair(note, part)
}

/// A name with the text that it is bound in.
#[cycle(name)]
fn name_dm_under<'a>(
    alloc: Global,
    tables: &Tables<'_, 'a>,
    word: &'a Word,
    text: &'a DmTree<Word>,
    scope: &mut Scope<'a>,
) -> Result<(Word, Box<DmTree<Ref>>), OutOfMemory>
    ensures text { IfOk result (λ p. (p.0 ≡ word.now) × (plain_dm ref_at p.1 ≡ dm_named (tables_in tables.now) (word.now.text ∷ names_in scope.old) text.now)) }
    ensures scope { OnOk result (names_in scope.new ≡ names_in scope.old) }
{
    let name = copy_word(alloc, word)?;
    scope.push(&word.text)?;
    let text = boxed(alloc, name_dm(alloc, tables, text, scope))?;
    scope.pop();
    Ok((name, text))
}

/// The arms of a match with their names looked up.
#[cycle(name)]
#[tactic(auto, using(crate::proofs::NameDmLemmas::arm_lists))]
fn name_dm_arms<'a>(
    alloc: Global,
    tables: &Tables<'_, 'a>,
    arms: &'a [ArmTree<DmTree<Word>>],
    scope: &mut Scope<'a>,
) -> Result<Seq<ArmTree<DmTree<Ref>>>, OutOfMemory>
    ensures arms { IfOk result (λ bs. plain_dm_arms ref_at bs ≡ dm_arms_named (tables_in tables.now) (names_in scope.old) arms.now) }
    ensures scope { OnOk result (names_in scope.new ≡ names_in scope.old) }
{
    let mut named = Seq::new(alloc);
    for arm in arms {
        let (names, body) = name_dm_arm(alloc, tables, &arm.body, arm.names.as_slice(), scope)?;
        named.push(ArmTree {
            at: arm.at,
            con: arm.con,
            names,
            body,
        })?;
    }
    Ok(named)
}

/// The text of an arm with these names, behind a copy of them.
#[cycle(name)]
fn name_dm_arm<'a>(
    alloc: Global,
    tables: &Tables<'_, 'a>,
    text: &'a DmTree<Word>,
    names: &'a [Word],
    scope: &mut Scope<'a>,
) -> Result<(Seq<Word>, DmTree<Ref>), OutOfMemory>
    ensures arm { IfOk result (λ p. (p.0 ≡ names.now) × (plain_dm ref_at p.1 ≡ dm_named (tables_in tables.now) (binding names.now (names_in scope.old)) text.now)) }
    ensures scope { OnOk result (names_in scope.new ≡ names_in scope.old) }
{
    let copies = copy_words(alloc, names)?;
    scope.bind(names)?;
    let text = name_dm(alloc, tables, text, scope)?;
    scope.unbind(names.len());
    Ok((copies, text))
}
