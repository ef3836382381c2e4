//! The effects and the lifts of a program.

ghost use Rattle.std.specs.Prelude.{◌≡◌, [], ◌∷◌, ◌++◌, map, IfOk, OnOk, Some, Err};
ghost use Rattle.fst_base.specs.declared.place.Pos.{Pos};
ghost use Rattle.fst_base.specs.declared.rule.Rule.{Rule};
ghost use Rattle.fst_base.specs.declared.rule.Fault.TheVariants as fault;
ghost use Rattle.fst_names.specs.Broken.{first_broken, least};
ghost use Rattle.fst_names.specs.NamedDeclarations.{decls_in};
ghost use Rattle.fst_program.specs.Plain.{plain_effect, plain_lift};
ghost use Rattle.fst_effects.specs.Definitions.{broken_definitions, core_effects, core_lifts, lifts_of};
ghost use Rattle.fst_effects.specs.Headers.{effects_break, effects_core, lifts_break, lifts_core, places_of, sorts_in, sorts_of};

use crate::checking::Found;
use crate::effects::{check_effect, check_lift, core_effect, core_lift};
use crate::headers::{EffectSorts, effect_sorts};
use fst_base::{Fault, OutOfMemory, Pos, Seq, pair};
use fst_names::{Named, NamedDecl, least};
use fst_program::{EffectDef, LiftDef};
use fst_trees::Decl;
use std::alloc::Global;

/// The effects and the lifts of a program, in order of declaration.
#[derive(Drop)]
pub struct Definitions {
    pub effects: Seq<EffectDef>,
    pub lifts: Seq<LiftDef>,
}

/// Puts the sorts of an effect behind those before it.
#[tactic(auto, using(crate::proofs::DefinitionLemmas::sorts))]
fn put_sorts(
    alloc: Global,
    sorts: &mut Seq<EffectSorts>,
    decl: &NamedDecl,
) -> Result<(), OutOfMemory>
    ensures { OnOk result (map sorts_in sorts.new ≡ map sorts_in sorts.old ++ sorts_of (decl.now ∷ [])) }
{
    match decl {
        Decl::Effect(effect) => sorts.push(effect_sorts(alloc, effect)?),
        Decl::Lift(_) => Ok(()),
        Decl::Fun(_) => Ok(()),
    }
}

/// The sorts of all effects.
#[tactic(auto, using(crate::proofs::DefinitionLemmas::sort_steps))]
fn all_sorts(alloc: Global, decls: &[NamedDecl]) -> Result<Seq<EffectSorts>, OutOfMemory>
    ensures { IfOk result (λ es. map sorts_in es ≡ sorts_of decls.now) }
{
    let mut sorts = Seq::new(alloc);
    for decl in decls {
        put_sorts(alloc, &mut sorts, decl)?;
    }
    Ok(sorts)
}

/// What a declaration breaks that is an effect.
#[tactic(auto, using(crate::proofs::DefinitionLemmas::effect_checks))]
fn check_if_effect(alloc: Global, decl: &NamedDecl) -> Found
    ensures { IfOk result (λ found. found ≡ effects_break (decl.now ∷ [])) }
{
    match decl {
        Decl::Effect(effect) => check_effect(alloc, effect),
        Decl::Lift(_) => Ok(None),
        Decl::Fun(_) => Ok(None),
    }
}

/// What any of the effects breaks.
#[tactic(auto, using(crate::proofs::DefinitionLemmas::effect_steps))]
fn check_effects(alloc: Global, decls: &[NamedDecl]) -> Found
    ensures { IfOk result (λ found. found ≡ effects_break decls.now) }
{
    let mut found = None;
    for decl in decls {
        found = least(found, check_if_effect(alloc, decl)?);
    }
    Ok(found)
}

/// What a declaration breaks that is a lift.
#[tactic(auto, using(crate::proofs::DefinitionLemmas::lift_checks))]
fn check_if_lift(alloc: Global, sorts: &[EffectSorts], decl: &NamedDecl) -> Found
    ensures { IfOk result (λ found. found ≡ lifts_break (map sorts_in sorts.now) (decl.now ∷ [])) }
{
    match decl {
        Decl::Effect(_) => Ok(None),
        Decl::Lift(lift) => check_lift(alloc, sorts, lift),
        Decl::Fun(_) => Ok(None),
    }
}

/// What any of the lifts breaks.
#[tactic(auto, using(crate::proofs::DefinitionLemmas::lift_steps))]
fn check_lifts(alloc: Global, sorts: &[EffectSorts], decls: &[NamedDecl]) -> Found
    ensures { IfOk result (λ found. found ≡ lifts_break (map sorts_in sorts.now) decls.now) }
{
    let mut found = None;
    for decl in decls {
        found = least(found, check_if_lift(alloc, sorts, decl)?);
    }
    Ok(found)
}

/// Puts an effect behind those before it.
#[tactic(auto, using(crate::proofs::DefinitionLemmas::effect_cores))]
fn put_effect(
    alloc: Global,
    effects: &mut Seq<EffectDef>,
    decl: &NamedDecl,
) -> Result<(), OutOfMemory>
    ensures { OnOk result (map plain_effect effects.new ≡ map plain_effect effects.old ++ effects_core (decl.now ∷ [])) }
{
    match decl {
        Decl::Effect(effect) => effects.push(core_effect(alloc, effect)?),
        Decl::Lift(_) => Ok(()),
        Decl::Fun(_) => Ok(()),
    }
}

/// All effects.
#[tactic(auto, using(crate::proofs::DefinitionLemmas::effect_core_steps))]
fn core_effects(alloc: Global, decls: &[NamedDecl]) -> Result<Seq<EffectDef>, OutOfMemory>
    ensures { IfOk result (λ es. map plain_effect es ≡ effects_core decls.now) }
{
    let mut effects = Seq::new(alloc);
    for decl in decls {
        put_effect(alloc, &mut effects, decl)?;
    }
    Ok(effects)
}

/// Puts a lift behind those before it.
#[tactic(auto, using(crate::proofs::DefinitionLemmas::lift_cores))]
fn put_lift(
    alloc: Global,
    sorts: &[EffectSorts],
    lifts: &mut Seq<LiftDef>,
    decl: &NamedDecl,
) -> Result<(), OutOfMemory>
    ensures { OnOk result (map plain_lift lifts.new ≡ map plain_lift lifts.old ++ lifts_core (map sorts_in sorts.now) (decl.now ∷ [])) }
{
    match decl {
        Decl::Effect(_) => Ok(()),
        Decl::Lift(lift) => lifts.push(core_lift(alloc, sorts, lift)?),
        Decl::Fun(_) => Ok(()),
    }
}

/// All lifts.
#[tactic(auto, using(crate::proofs::DefinitionLemmas::lift_core_steps))]
fn core_lifts(
    alloc: Global,
    sorts: &[EffectSorts],
    decls: &[NamedDecl],
) -> Result<Seq<LiftDef>, OutOfMemory>
    ensures { IfOk result (λ ls. map plain_lift ls ≡ lifts_core (map sorts_in sorts.now) decls.now) }
{
    let mut lifts = Seq::new(alloc);
    for decl in decls {
        put_lift(alloc, sorts, &mut lifts, decl)?;
    }
    Ok(lifts)
}

/// Puts the place of a lift behind those before it.
#[tactic(auto, using(crate::proofs::DefinitionLemmas::places))]
fn put_place(places: &mut Seq<Pos>, decl: &NamedDecl) -> Result<(), OutOfMemory>
    ensures { OnOk result (map (λ p. p.at) places.new ≡ map (λ p. p.at) places.old ++ places_of (decl.now ∷ [])) }
{
    match decl {
        Decl::Effect(_) => Ok(()),
        Decl::Lift(lift) => places.push(lift.at),
        Decl::Fun(_) => Ok(()),
    }
}

/// The places of all lifts.
#[tactic(auto, using(crate::proofs::DefinitionLemmas::place_steps))]
fn all_places(alloc: Global, decls: &[NamedDecl]) -> Result<Seq<Pos>, OutOfMemory>
    ensures { IfOk result (λ ps. map (λ p. p.at) ps ≡ places_of decls.now) }
{
    let mut places = Seq::new(alloc);
    for decl in decls {
        put_place(&mut places, decl)?;
    }
    Ok(places)
}

/// The places of the program's lifts, in order of declaration.
#[tactic(auto, using(crate::proofs::DefinitionLemmas::placed))]
pub fn lift_places(alloc: Global, program: &Named) -> Result<Seq<Pos>, OutOfMemory>
    ensures { IfOk result (λ ps. map (λ p. p.at) ps ≡ map (λ l. l.place) (lifts_of (decls_in program.now))) }
{
    all_places(alloc, program.decls.as_slice())
}

/// What the effects and the lifts break.
fn find_broken(alloc: Global, decls: &[NamedDecl]) -> Found
    ensures { IfOk result (λ found. found ≡ least (effects_break decls.now) (lifts_break (sorts_of decls.now) decls.now)) }
{
    let sorts = all_sorts(alloc, decls)?;
    let effects = check_effects(alloc, decls)?;
    let lifts = check_lifts(alloc, sorts.as_slice(), decls)?;
    Ok(least(effects, lifts))
}

/// Ok exactly where no effect and no lift breaks a rule; else the broken rule that answers, if memory isn't wanted first.
#[tactic(auto, using(crate::proofs::DefinitionLemmas::answers))]
fn check_definitions(alloc: Global, program: &Named) -> Result<(), Fault>
    ensures ok { OnOk result (broken_definitions (decls_in program.now) ≡ []) }
    ensures refused { (broken : Rule) (at : Pos) → result ≡ Err (fault.Refused broken at) → first_broken (broken_definitions (decls_in program.now)) ≡ Some (record { at = at; rule = broken }) }
{
    match find_broken(alloc, program.decls.as_slice()) {
        Ok(None) => Ok(()),
        Ok(Some(broken)) => Err(Fault::Refused(broken.rule, broken.at)),
        Err(OutOfMemory) => Err(Fault::NoMemory),
    }
}

/// The effects and the lifts, whether or not a rule is broken.
#[tactic(auto, using(crate::proofs::DefinitionLemmas::made))]
fn core_definitions(alloc: Global, program: &Named) -> Result<Definitions, OutOfMemory>
    ensures effects { IfOk result (λ d. map plain_effect d.effects ≡ core_effects (decls_in program.now)) }
    ensures lifts { IfOk result (λ d. map plain_lift d.lifts ≡ core_lifts (decls_in program.now)) }
{
    let decls = program.decls.as_slice();
    let sorts = all_sorts(alloc, decls)?;
    let effects = core_effects(alloc, decls);
    let (effects, lifts) = pair(effects, core_lifts(alloc, sorts.as_slice(), decls))?;
    Ok(Definitions { effects, lifts })
}

/// The effects and the lifts of the program. Ok exactly where no effect and no text of a lift breaks a rule on sorts, shapes or matches.
/// Else the broken rule at the smallest place, and of several there the one of the smallest number, if memory isn't wanted first.
pub fn define(alloc: Global, program: &Named) -> Result<Definitions, Fault>
    ensures ok { OnOk result (broken_definitions (decls_in program.now) ≡ []) }
    ensures effects { IfOk result (λ d. map plain_effect d.effects ≡ core_effects (decls_in program.now)) }
    ensures lifts { IfOk result (λ d. map plain_lift d.lifts ≡ core_lifts (decls_in program.now)) }
    ensures refused { (broken : Rule) (at : Pos) → result ≡ Err (fault.Refused broken at) → first_broken (broken_definitions (decls_in program.now)) ≡ Some (record { at = at; rule = broken }) }
{
    check_definitions(alloc, program)?;
    match core_definitions(alloc, program) {
        Ok(definitions) => Ok(definitions),
        Err(OutOfMemory) => Err(Fault::NoMemory),
    }
}
