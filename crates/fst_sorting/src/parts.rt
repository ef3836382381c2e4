//! What is put in around parts: binds, lifts and returns, as their effects ask.

ghost use Rattle.std.specs.Prelude.{◌≡◌, List, map, Ok, IfOk, option_map};
ghost use Rattle.fst_terms.specs.declared.term.Term.{Term};
ghost use Rattle.fst_terms.specs.Terms.{plain_term};
ghost use Rattle.fst_program.specs.declared.comp.Arm.{Arm};
ghost use Rattle.fst_program.specs.declared.comp.Comp.{Comp};
ghost use Rattle.fst_program.specs.Plain.{plain_comp};
ghost use Rattle.fst_program.specs.Texts.{c_ghost, c_match};
ghost use Rattle.fst_names.specs.Trees.{plain_part};
ghost use Rattle.fst_sorting.specs.CoreTexts.{bind_or_let, lifted, lifted_along, tail};
ghost use Rattle.fst_sorting.specs.Bodies.{is_block, made_arms, part_effect};
ghost use Rattle.fst_sorting.specs.Sites.{known_at};

use crate::effects::{base_of, callee_effect, effect_at, path_of};
use crate::known::Known;
use fst_base::{Box, Name, OutOfMemory, Pos, Seq, boxed, pair};
use fst_effects::callee_of;
use fst_names::Ref;
use fst_program::{Arm, Comp, Effect};
use fst_terms::Term;
use fst_trees::{PartNode, PartTree, Word};
use std::alloc::Global;

/// Core text on the heap, or want of memory.
pub type Made = Result<Box<Comp>, OutOfMemory>;

/// The text on the heap.
pub fn made(alloc: Global, text: Comp) -> Made
    ensures { IfOk result (λ c. c ≡ text) }
{
    boxed(alloc, Ok(text))
}

/// The effect of a part at a place.
#[tactic(auto, using(crate::proofs::CoreLemmas::effects))]
pub fn effect_of(known: Known<'_>, place: Effect, part: &PartTree<Ref>) -> Effect
    ensures { result ≡ part_effect (known_at known.entry) place part.now }
{
    match &part.node {
        PartNode::Block(_) => place,
        PartNode::Call(name, _) => callee_effect(callee_of(known.called, *name)),
        PartNode::Reify(name, _, _, _) => base_of(effect_at(known.effects, name.index)),
        PartNode::Reflect(name, _, _, _) => Effect::User(name.index),
        PartNode::Term(_) => Effect::Pure,
    }
}

/// Whether a part is a block.
#[tactic(auto, using(crate::proofs::CoreLemmas::blocks))]
pub fn is_block(part: &PartTree<Ref>) -> bool
    ensures { result ≡ is_block part.now }
{
    match &part.node {
        PartNode::Block(_) => true,
        PartNode::Call(_, _) => false,
        PartNode::Reify(_, _, _, _) => false,
        PartNode::Reflect(_, _, _, _) => false,
        PartNode::Term(_) => false,
    }
}

/// The names of a pattern.
pub fn copy_texts(alloc: Global, words: &[Word]) -> Result<Seq<Name>, OutOfMemory>
    ensures { IfOk result (λ names. names ≡ map (λ w. w.text) words.now) }
{
    let mut names = Seq::new(alloc);
    for word in words {
        names.push(word.text.copy(alloc)?)?;
    }
    Ok(names)
}

/// The text behind these lifts, the first innermost.
#[tactic(auto, using(crate::proofs::CoreLemmas::lifts))]
fn lifted(alloc: Global, known: Known<'_>, lifts: &[u32], text: Box<Comp>) -> Made
    ensures { IfOk result (λ c. plain_comp c ≡ lifted (known_at known.entry) lifts.now (plain_comp text)) }
{
    let mut text = text;
    for lift in lifts {
        text = made(alloc, Comp::Lift(*lift, text))?;
    }
    Ok(text)
}

/// The text behind the lifts of a path, where there is one.
fn lifted_along(alloc: Global, known: Known<'_>, path: Option<&[u32]>, text: Made) -> Made
    ensures { IfOk result (λ c. (t : Comp) × ((text ≡ Ok t) × (plain_comp c ≡ lifted_along (known_at known.entry) (option_map (λ p. p.now) path.entry) (plain_comp t)))) }
{
    match path {
        Some(lifts) => lifted(alloc, known, lifts, text?),
        None => text,
    }
}

/// What binds a variable to a text of an effect: the bind of the place's effect where both are user effects, else a let.
#[tactic(auto, using(crate::proofs::CoreLemmas::bounds))]
pub fn bound_text(
    alloc: Global,
    known: Known<'_>,
    place: Effect,
    part: Effect,
    word: &Word,
    bound: Made,
    rest: Made,
) -> Made
    ensures { IfOk result (λ c. (b : Comp) × ((r : Comp) × ((bound ≡ Ok b) × (rest ≡ Ok r) × (plain_comp c ≡ bind_or_let (known_at known.entry) place part word.now.text (plain_comp b) (plain_comp r))))) }
{
    match (place, part) {
        (Effect::User(to), Effect::User(from)) => {
            let bound = lifted_along(alloc, known, path_of(known.paths, from, to), bound);
            let (name, (bound, rest)) = pair(word.text.copy(alloc), pair(bound, rest))?;
            made(alloc, Comp::Bind(to, name, bound, rest))
        }
        _ => {
            let (name, (bound, rest)) = pair(word.text.copy(alloc), pair(bound, rest))?;
            made(alloc, Comp::Let(name, bound, rest))
        }
    }
}

/// What binds a ghost variable to a text.
#[tactic(auto, using(crate::proofs::CoreLemmas::bounds))]
pub fn ghost_text(alloc: Global, word: &Word, bound: Made, rest: Made) -> Made
    ensures { IfOk result (λ c. (b : Comp) × ((r : Comp) × ((bound ≡ Ok b) × (rest ≡ Ok r) × (plain_comp c ≡ c_ghost word.now.text (plain_comp b) (plain_comp r))))) }
{
    let (name, (bound, rest)) = pair(word.text.copy(alloc), pair(bound, rest))?;
    made(alloc, Comp::GhostLet(name, bound, rest))
}

/// A match.
#[tactic(auto, using(crate::proofs::CoreLemmas::matches))]
pub fn match_text(
    alloc: Global,
    form: Result<Term, OutOfMemory>,
    at: Pos,
    arms: Result<Seq<Arm<Comp>>, OutOfMemory>,
) -> Made
    ensures { IfOk result (λ c. (t : Term) × ((bs : List (Arm Comp)) × ((form ≡ Ok t) × (arms ≡ Ok bs) × (plain_comp c ≡ c_match (plain_term t) at.at (made_arms bs))))) }
{
    let (form, arms) = pair(form, arms)?;
    made(alloc, Comp::Match(form, at, arms))
}

/// A tail of an effect at a place: behind lifts, or returned.
#[tactic(auto, using(crate::proofs::CoreLemmas::returns))]
pub fn tail_text(alloc: Global, known: Known<'_>, place: Effect, part: Effect, text: Made) -> Made
    ensures { IfOk result (λ c. (t : Comp) × ((text ≡ Ok t) × (plain_comp c ≡ tail (known_at known.entry) place part (plain_comp t)))) }
{
    match (place, part) {
        (Effect::User(to), Effect::User(from)) => {
            lifted_along(alloc, known, path_of(known.paths, from, to), text)
        }
        (Effect::User(to), _) => {
            let text = text?;
            made(alloc, Comp::Return(to, text))
        }
        _ => text,
    }
}
