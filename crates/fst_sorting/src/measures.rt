//! Functions that call one of their group without a measure.

ghost use Rattle.std.specs.Prelude.{◌≡◌, ◌||◌, ℕ, length};
ghost use Rattle.fst_effects.specs.Known.{is_div};
ghost use Rattle.fst_sorting.specs.Functions.{calls_unmeasured, diverges, unmeasured};
ghost use Rattle.fst_sorting.specs.Listed.{all_placed, arms_call, loose_of, part_calls, placed_in, text_calls};
ghost use Rattle.fst_sorting.specs.Sites.{effects_in, known_at};

use crate::callees::effect_of;
use crate::effects::{base_of, effect_at};
use crate::known::Known;
use crate::listing::Placed;
use fst_base::Rule;
use fst_names::{Broken, Ref, unless};
use fst_program::{Effect, EffectDef};
use fst_trees::{ArmTree, BodyTree, PartNode, PartTree};

/// Whether a call from a function with so many measures to one with so many goes without what makes it end.
fn is_unmeasured(from: usize, to: usize) -> bool
    ensures { result ≡ unmeasured from to }
{
    from == 0 || from != to
}

/// Whether the function calls the one of this number, which is of its group, without a measure.
#[tactic(auto, using(crate::proofs::MeasureLemmas::calls))]
fn is_loose(funs: &[Placed<'_>], own: Placed<'_>, callee: u32) -> bool
    ensures { result ≡ calls_unmeasured (all_placed funs.now) (placed_in own.entry) callee }
{
    match funs.get(callee as usize) {
        None => false,
        Some(fun) => {
            let from = own.tree.head.measures.len();
            let is_free = is_unmeasured(from, fun.tree.head.measures.len());
            fun.group == own.group && is_free
        }
    }
}

/// Whether the function calls one of its group without a measure in this text.
#[cycle(loose)]
#[tactic(auto, using(crate::proofs::MeasureLemmas::texts))]
fn text_calls(funs: &[Placed<'_>], own: Placed<'_>, tree: &BodyTree<Ref>) -> bool
    ensures { result ≡ text_calls (calls_unmeasured (all_placed funs.now) (placed_in own.entry)) tree.now }
{
    match tree {
        BodyTree::Let(_, _, part, rest) => {
            part_calls(funs, own, part) || text_calls(funs, own, rest.get())
        }
        BodyTree::GhostLet(_, _, part, rest) => {
            part_calls(funs, own, part) || text_calls(funs, own, rest.get())
        }
        BodyTree::Assert(_, _, rest) => text_calls(funs, own, rest.get()),
        BodyTree::If(_, left, right) => {
            text_calls(funs, own, left.get()) || text_calls(funs, own, right.get())
        }
        BodyTree::Match(_, _, arms) => arms_call(funs, own, arms.as_slice()),
        BodyTree::Part(part) => part_calls(funs, own, part),
    }
}

/// The same in a part.
#[cycle(loose)]
#[tactic(auto, using(crate::proofs::MeasureLemmas::parts))]
fn part_calls(funs: &[Placed<'_>], own: Placed<'_>, part: &PartTree<Ref>) -> bool
    ensures { result ≡ part_calls (calls_unmeasured (all_placed funs.now) (placed_in own.entry)) part.now }
{
    match &part.node {
        PartNode::Block(body) => text_calls(funs, own, body.get()),
        PartNode::Call(name, _) => is_loose(funs, own, name.index),
        PartNode::Reify(_, _, body, _) => text_calls(funs, own, body.get()),
        PartNode::Reflect(_, _, _, body) => text_calls(funs, own, body.get()),
        PartNode::Term(_) => false,
    }
}

fn either(first: bool, second: bool) -> bool
    ensures { result ≡ (first || second) }
{
    first || second
}

/// The same in arms.
#[cycle(loose)]
#[tactic(auto, using(crate::proofs::MeasureLemmas::arm_lists))]
fn arms_call(funs: &[Placed<'_>], own: Placed<'_>, arms: &[ArmTree<BodyTree<Ref>>]) -> bool
    ensures { result ≡ arms_call (calls_unmeasured (all_placed funs.now) (placed_in own.entry)) arms.now }
{
    let mut found = false;
    for index in 0..arms.len() {
        let here = text_calls(funs, own, &arms[index].body);
        found = either(found, here);
    }
    found
}

/// Whether the effect is DIV.
fn is_div(effect: Effect) -> bool
    ensures { result ≡ is_div effect }
{
    match effect {
        Effect::Div => true,
        Effect::Pure => false,
        Effect::Ghost => false,
        Effect::User(_) => false,
    }
}

/// Whether a function with this effect may diverge.
#[tactic(auto, using(crate::proofs::MeasureLemmas::effects))]
fn diverges(effects: &[EffectDef], effect: Effect) -> bool
    ensures { result ≡ diverges (effects_in effects.now) effect }
{
    match effect {
        Effect::Pure => false,
        Effect::Ghost => false,
        Effect::Div => true,
        Effect::User(number) => is_div(base_of(effect_at(effects, number))),
    }
}

/// A function without DIV that calls one of its group without a measure; it stands at the declared name.
#[tactic(auto, using(crate::proofs::MeasureLemmas::functions))]
pub fn loose_of(known: Known<'_>, funs: &[Placed<'_>], own: Placed<'_>) -> Option<Broken>
    ensures { result ≡ loose_of (known_at known.entry) (all_placed funs.now) (placed_in own.entry) }
{
    let may_diverge = diverges(known.effects, effect_of(&own.tree.head.effect));
    let is_loose = text_calls(funs, own, &own.tree.body);
    let test = may_diverge || !is_loose;
    unless(test, Rule::NoMeasure, own.tree.head.name.at)
}
