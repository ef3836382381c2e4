//! Bodies with their names looked up.

ghost use Rattle.std.specs.Prelude.{◌≡◌, ◌∷◌, true, false, option_map, IfOk, OnOk};
ghost use Rattle.fst_names.specs.Namings.{form_named, forms_named, sort_named, note_named, text_named, part_named, arms_named};
ghost use Rattle.fst_names.specs.Names.{binding};
ghost use Rattle.fst_names.specs.Looked.{tables_in};
ghost use Rattle.fst_names.specs.Scopes.{names_in};
ghost use Rattle.fst_names.specs.Trees.{plain_form, plain_forms, plain_wsort, plain_text, plain_part, plain_part_node, plain_arms};

use crate::name_forms::{copy_word, copy_words, name_form, name_forms};
use crate::name_sorts::{name_note, name_sort};
use crate::reference::Ref;
use crate::scope::Scope;
use crate::tables::Tables;
use fst_base::{Box, OutOfMemory, Pos, Seq, boxed, pair};
use fst_trees::{ArmTree, BodyTree, PartNode, PartTree, SortTree, Word};
use std::alloc::Global;

/// A part at its place.
fn part_at(at: Pos, node: PartNode<Ref>) -> PartTree<Ref>
    ensures { result ≡ record { at = at; node = node } }
{
    PartTree { at, node }
}

/// A body with its names looked up.
#[cycle(name)]
#[tactic(auto, using(crate::proofs::NameTextLemmas::texts))]
pub fn name_body<'a>(
    alloc: Global,
    tables: &Tables<'_, 'a>,
    tree: &'a BodyTree<Word>,
    scope: &mut Scope<'a>,
) -> Result<BodyTree<Ref>, OutOfMemory>
    ensures text { IfOk result (λ c. plain_text c ≡ text_named (tables_in tables.now) (names_in scope.old) tree.now) }
    ensures scope { OnOk result (names_in scope.new ≡ names_in scope.old) }
{
    match tree {
        BodyTree::Let(word, note, part, rest) => {
            let bound = name_bound(alloc, tables, part, note, scope);
            let rest = name_under(alloc, tables, word, rest.get(), scope);
            let ((note, part), (word, rest)) = pair(bound, rest)?;
            Ok(BodyTree::Let(word, note, part, rest))
        }
        BodyTree::GhostLet(word, note, part, rest) => {
            let bound = name_bound(alloc, tables, part, note, scope);
            let rest = name_under(alloc, tables, word, rest.get(), scope);
            let ((note, part), (word, rest)) = pair(bound, rest)?;
            Ok(BodyTree::GhostLet(word, note, part, rest))
        }
        BodyTree::Assert(form, at, rest) => {
            let form = name_form(alloc, tables, form, scope);
            let rest = boxed(alloc, name_body(alloc, tables, rest.get(), scope));
            let (form, rest) = pair(form, rest)?;
            Ok(BodyTree::Assert(form, *at, rest))
        }
        BodyTree::If(test, left, right) => {
            let test = name_form(alloc, tables, test, scope);
            let left = boxed(alloc, name_body(alloc, tables, left.get(), scope));
            let right = boxed(alloc, name_body(alloc, tables, right.get(), scope));
            let (test, (left, right)) = pair(test, pair(left, right))?;
            Ok(BodyTree::If(test, left, right))
        }
        BodyTree::Match(form, at, arms) => {
            let form = name_form(alloc, tables, form, scope);
            let arms = name_arms(alloc, tables, arms.as_slice(), scope);
            let (form, arms) = pair(form, arms)?;
            Ok(BodyTree::Match(form, *at, arms))
        }
        BodyTree::Part(part) => {
            let part = name_part(alloc, tables, part, scope)?;
            Ok(BodyTree::Part(part))
        }
    }
}

/// What is bound to a name, behind the sort that may be written.
#[cycle(name)]
fn name_bound<'a>(
    alloc: Global,
    tables: &Tables<'_, 'a>,
    part: &'a PartTree<Word>,
    note: &Option<SortTree<Word>>,
    scope: &mut Scope<'a>,
) -> Result<(Option<SortTree<Ref>>, PartTree<Ref>), OutOfMemory>
    ensures bound { IfOk result (λ p. (option_map plain_wsort p.0 ≡ note_named (tables_in tables.now) note.now) × (plain_part p.1 ≡ part_named (tables_in tables.now) (names_in scope.old) part.now)) }
    ensures scope { OnOk result (names_in scope.new ≡ names_in scope.old) }
{
    let note = name_note(alloc, tables, note);
    let part = name_part(alloc, tables, part, scope);
    pair(note, part)
}

/// A name with the body that it is bound in.
#[cycle(name)]
fn name_under<'a>(
    alloc: Global,
    tables: &Tables<'_, 'a>,
    word: &'a Word,
    body: &'a BodyTree<Word>,
    scope: &mut Scope<'a>,
) -> Result<(Word, Box<BodyTree<Ref>>), OutOfMemory>
    ensures text { IfOk result (λ p. (p.0 ≡ word.now) × (plain_text p.1 ≡ text_named (tables_in tables.now) (word.now.text ∷ names_in scope.old) body.now)) }
    ensures scope { OnOk result (names_in scope.new ≡ names_in scope.old) }
{
    let name = copy_word(alloc, word)?;
    scope.push(&word.text)?;
    let body = boxed(alloc, name_body(alloc, tables, body, scope))?;
    scope.pop();
    Ok((name, body))
}

/// A part with its names looked up.
#[cycle(name)]
#[tactic(auto, using(crate::proofs::NameTextLemmas::parts))]
fn name_part<'a>(
    alloc: Global,
    tables: &Tables<'_, 'a>,
    part: &'a PartTree<Word>,
    scope: &mut Scope<'a>,
) -> Result<PartTree<Ref>, OutOfMemory>
    ensures part { IfOk result (λ p. plain_part p ≡ part_named (tables_in tables.now) (names_in scope.old) part.now) }
    ensures scope { OnOk result (names_in scope.new ≡ names_in scope.old) }
{
    let at = part.at;
    match &part.node {
        PartNode::Block(body) => {
            let body = boxed(alloc, name_body(alloc, tables, body.get(), scope))?;
            Ok(part_at(at, PartNode::Block(body)))
        }
        PartNode::Call(word, args) => {
            let args = name_forms(alloc, tables, args.as_slice(), scope)?;
            let called = tables.called_ref(word);
            Ok(part_at(at, PartNode::Call(called, args)))
        }
        PartNode::Reify(effect, sort, body, input) => {
            let sort = name_sort(alloc, tables, sort);
            let body = boxed(alloc, name_body(alloc, tables, body.get(), scope));
            let input = name_form(alloc, tables, input, scope);
            let (sort, (body, input)) = pair(sort, pair(body, input))?;
            let effect = tables.effect_ref(effect);
            Ok(part_at(at, PartNode::Reify(effect, sort, body, input)))
        }
        PartNode::Reflect(effect, sort, name, body) => {
            let sort = name_sort(alloc, tables, sort);
            let body = name_under(alloc, tables, name, body.get(), scope);
            let (sort, (name, body)) = pair(sort, body)?;
            let effect = tables.effect_ref(effect);
            Ok(part_at(at, PartNode::Reflect(effect, sort, name, body)))
        }
        PartNode::Term(form) => {
            let form = name_form(alloc, tables, form, scope)?;
            Ok(part_at(at, PartNode::Term(form)))
        }
    }
}

/// The arms of a match with their names looked up.
#[cycle(name)]
#[tactic(auto, using(crate::proofs::NameTextLemmas::arm_lists))]
fn name_arms<'a>(
    alloc: Global,
    tables: &Tables<'_, 'a>,
    arms: &'a [ArmTree<BodyTree<Word>>],
    scope: &mut Scope<'a>,
) -> Result<Seq<ArmTree<BodyTree<Ref>>>, OutOfMemory>
    ensures arms { IfOk result (λ bs. plain_arms bs ≡ arms_named (tables_in tables.now) (names_in scope.old) arms.now) }
    ensures scope { OnOk result (names_in scope.new ≡ names_in scope.old) }
{
    let mut named = Seq::new(alloc);
    for arm in arms {
        let (names, body) = name_arm(alloc, tables, &arm.body, arm.names.as_slice(), scope)?;
        named.push(ArmTree {
            at: arm.at,
            con: arm.con,
            names,
            body,
        })?;
    }
    Ok(named)
}

/// The body of an arm with these names, behind a copy of them.
#[cycle(name)]
fn name_arm<'a>(
    alloc: Global,
    tables: &Tables<'_, 'a>,
    body: &'a BodyTree<Word>,
    names: &'a [Word],
    scope: &mut Scope<'a>,
) -> Result<(Seq<Word>, BodyTree<Ref>), OutOfMemory>
    ensures arm { IfOk result (λ p. (p.0 ≡ names.now) × (plain_text p.1 ≡ text_named (tables_in tables.now) (binding names.now (names_in scope.old)) body.now)) }
    ensures scope { OnOk result (names_in scope.new ≡ names_in scope.old) }
{
    let copies = copy_words(alloc, names)?;
    scope.bind(names)?;
    let body = name_body(alloc, tables, body, scope)?;
    scope.unbind(names.len());
    Ok((copies, body))
}
