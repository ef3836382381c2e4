//! Whole programs with their sorts.

ghost use Rattle.std.specs.Prelude.{◌≡◌, [], length, map, Err, IfErr, IfOk, OnOk, Some};
ghost use Rattle.fst_base.specs.declared.place.Pos.{Pos};
ghost use Rattle.fst_base.specs.declared.rule.Rule.{Rule};
ghost use Rattle.fst_base.specs.declared.rule.Fault.TheVariants as fault;
ghost use Rattle.fst_names.specs.Broken.{first_broken};
ghost use Rattle.fst_names.specs.NamedDeclarations.{decls_in};
ghost use Rattle.fst_program.specs.LiftPaths.{path};
ghost use Rattle.fst_program.specs.Plain.{plain_effect, plain_fun, plain_lift, plain_program};
ghost use Rattle.fst_lattice.specs.Lattices.{AreWithin, IsLattice};
ghost use Rattle.fst_lattice.specs.Tables.{step_in};
ghost use Rattle.fst_effects.specs.Definitions.{core_effects, core_lifts};
ghost use Rattle.fst_effects.specs.Scopes.{callee_of};
ghost use Rattle.fst_sorting.specs.Functions.{broken_funs, core_program};
ghost use Rattle.fst_sorting.specs.Listed.{all_placed, applied_of, called_of, fun_core, funs_break, listed, placed_in};
ghost use Rattle.fst_sorting.specs.Sites.{effects_in, known_at, path_in};

use crate::callees::{all_applied, all_called};
use crate::functions::{check_fun, core_fun};
use crate::known::{Known, Paths};
use crate::listing::{Placed, list_funs};
use crate::paths::paths_of;
use fst_base::{Fault, OutOfMemory, Seq};
use fst_effects::{Callee, Found};
use fst_lattice::Lattice;
use fst_names::{Named, least};
use fst_program::{EffectDef, Fun, LiftDef, Program};
use std::alloc::Global;

/// What any of the functions breaks.
#[tactic(auto, using(crate::proofs::FunLemmas::lists))]
fn check_funs(alloc: Global, known: Known<'_>, funs: &[Placed<'_>]) -> Found
    ensures { IfOk result (λ found. found ≡ funs_break (known_at known.entry) (all_placed funs.now) (all_placed funs.now)) }
{
    let mut found = None;
    for index in 0..funs.len() {
        found = least(found, check_fun(alloc, known, funs, funs[index])?);
    }
    Ok(found)
}

/// The functions in the program.
#[tactic(auto, using(crate::proofs::MapLemmas::maps))]
fn core_funs(alloc: Global, known: Known<'_>, funs: &[Placed<'_>]) -> Result<Seq<Fun>, OutOfMemory>
    ensures { IfOk result (λ fs. map plain_fun fs ≡ map (λ p. fun_core (known_at known.entry) (placed_in p)) funs.now) }
{
    let mut made = Seq::new(alloc);
    for index in 0..funs.len() {
        made.push(core_fun(alloc, known, funs[index])?)?;
    }
    Ok(made)
}

/// The functions in the program; else the first broken rule, or want of memory.
fn sort_funs(alloc: Global, known: Known<'_>, funs: &[Placed<'_>]) -> Result<Seq<Fun>, Fault>
    ensures ok { OnOk result (funs_break (known_at known.entry) (all_placed funs.now) (all_placed funs.now) ≡ None) }
    ensures funs { IfOk result (λ fs. map plain_fun fs ≡ map (λ p. fun_core (known_at known.entry) (placed_in p)) funs.now) }
    ensures refused { (broken : Rule) (at : Pos) → result ≡ Err (fault.Refused broken at)
        → funs_break (known_at known.entry) (all_placed funs.now) (all_placed funs.now) ≡ Some (record { at = at; rule = broken }) }
{
    match check_funs(alloc, known, funs) {
        Err(OutOfMemory) => Err(Fault::NoMemory),
        Ok(Some(broken)) => Err(Fault::Refused(broken.rule, broken.at)),
        Ok(None) => match core_funs(alloc, known, funs) {
            Ok(funs) => Ok(funs),
            Err(OutOfMemory) => Err(Fault::NoMemory),
        },
    }
}

/// What is known of a program: its functions in order, as texts call them and as formulas apply them, and the paths of its lifts.
#[derive(Drop)]
struct Tables<'a> {
    funs: Vec<Placed<'a>>,
    called: Seq<Callee>,
    applied: Seq<Callee>,
    paths: Paths,
}

/// What is known of a program.
fn tables_of<'a>(
    alloc: Global,
    program: &'a Named,
    effects: &[EffectDef],
    lifts: &[LiftDef],
    lattice: &Lattice,
) -> Result<Tables<'a>, OutOfMemory>
    requires within { AreWithin (length effects.now) (map plain_lift lifts.now) }
    requires lattice { IsLattice (map plain_effect effects.now) (map plain_lift lifts.now) (step_in lattice.now) }
    ensures funs { IfOk result (λ t. all_placed t.funs.items ≡ listed program.now.decls) }
    ensures called { IfOk result (λ t. map callee_of t.called ≡ map (λ p. called_of p.tree.now) t.funs.items) }
    ensures applied { IfOk result (λ t. map callee_of t.applied ≡ map (λ p. applied_of (effects_in effects.now) p.tree.now) t.funs.items) }
    ensures paths { IfOk result (λ t. path_in t.paths ≡ path (map plain_lift lifts.now)) }
{
    let funs = list_funs(alloc, program.decls.as_slice())?;
    let called = all_called(alloc, funs.as_slice())?;
    let applied = all_applied(alloc, effects, funs.as_slice())?;
    let paths = paths_of(alloc, effects, lifts, lattice)?;
    Ok(Tables {
        funs,
        called,
        applied,
        paths,
    })
}

/// The functions of a program, of which this is known.
fn sort_known(
    alloc: Global,
    program: &Named,
    known: Known<'_>,
    funs: &[Placed<'_>],
) -> Result<Seq<Fun>, Fault>
    requires effects { map plain_effect known.effects.now ≡ core_effects (decls_in program.now) }
    requires funs { all_placed funs.now ≡ listed program.now.decls }
    requires called { map callee_of known.called.now ≡ map (λ p. called_of p.tree.now) funs.now }
    requires applied { map callee_of known.applied.now ≡ map (λ p. applied_of (effects_in known.effects.now) p.tree.now) funs.now }
    requires paths { path_in known.paths.now ≡ path (core_lifts (decls_in program.now)) }
    ensures ok { OnOk result (broken_funs (decls_in program.now) ≡ []) }
    ensures funs { IfOk result (λ fs. map (λ f. Some (plain_fun f)) fs ≡ (core_program (decls_in program.now)).funs) }
    ensures refused { (broken : Rule) (at : Pos) → result ≡ Err (fault.Refused broken at)
        → first_broken (broken_funs (decls_in program.now)) ≡ Some (record { at = at; rule = broken }) }
{
    sort_funs(alloc, known, funs)
}

/// The functions of a program.
fn funs_of(
    alloc: Global,
    program: &Named,
    effects: &[EffectDef],
    lifts: &[LiftDef],
    lattice: &Lattice,
) -> Result<Seq<Fun>, Fault>
    requires effects { map plain_effect effects.now ≡ core_effects (decls_in program.now) }
    requires lifts { map plain_lift lifts.now ≡ core_lifts (decls_in program.now) }
    requires within { AreWithin (length effects.now) (map plain_lift lifts.now) }
    requires lattice { IsLattice (map plain_effect effects.now) (map plain_lift lifts.now) (step_in lattice.now) }
    ensures ok { OnOk result (broken_funs (decls_in program.now) ≡ []) }
    ensures funs { IfOk result (λ fs. map (λ f. Some (plain_fun f)) fs ≡ (core_program (decls_in program.now)).funs) }
    ensures refused { (broken : Rule) (at : Pos) → result ≡ Err (fault.Refused broken at)
        → first_broken (broken_funs (decls_in program.now)) ≡ Some (record { at = at; rule = broken }) }
{
    match tables_of(alloc, program, effects, lifts, lattice) {
        Err(OutOfMemory) => Err(Fault::NoMemory),
        Ok(tables) => {
            let known = Known {
                called: tables.called.as_slice(),
                applied: tables.applied.as_slice(),
                effects,
                paths: &tables.paths,
            };
            sort_known(alloc, program, known, tables.funs.as_slice())
        }
    }
}

/// The program with its sorts, where returns, binds and lifts are put in as the effects of its parts ask. Ok exactly where no function
/// breaks a rule on sorts, effects, ghost parts or measures; else the broken rule at the smallest place, and of several there the one of
/// the smallest number, if memory isn't wanted first. The effects and lifts are those of the program, in order, and the lattice theirs.
pub fn sort_program(
    alloc: Global,
    program: &Named,
    effects: Seq<EffectDef>,
    lifts: Seq<LiftDef>,
    lattice: &Lattice,
) -> Result<Program, Fault>
    requires effects { map plain_effect effects ≡ core_effects (decls_in program.now) }
    requires lifts { map plain_lift lifts ≡ core_lifts (decls_in program.now) }
    requires within { AreWithin (length effects) (map plain_lift lifts) }
    requires lattice { IsLattice (map plain_effect effects) (map plain_lift lifts) (step_in lattice.now) }
    ensures ok { OnOk result (broken_funs (decls_in program.now) ≡ []) }
    ensures program { IfOk result (λ p. plain_program p ≡ core_program (decls_in program.now)) }
    ensures refused { (broken : Rule) (at : Pos) → result ≡ Err (fault.Refused broken at)
        → first_broken (broken_funs (decls_in program.now)) ≡ Some (record { at = at; rule = broken }) }
{
    let funs = funs_of(
        alloc,
        program,
        effects.as_slice(),
        lifts.as_slice(),
        lattice,
    )?;
    Ok(Program {
        effects,
        lifts,
        funs,
    })
}
