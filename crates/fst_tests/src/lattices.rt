ghost use Rattle.std.specs.Prelude.{◌≡◌, ◌<◌, length, IfOk};

use fst_base::{Fault, Name, OutOfMemory, Pos, Rule, Seq, Sort, one, pair, two};
use fst_lattice::lattice;
use fst_program::{DmTerm, Effect, EffectDef, LiftDef};
use fst_terms::Term;
use std::alloc::Global;
use std::test::Fail;

fn effect(alloc: Global, name: &str, base: Effect) -> Result<EffectDef, OutOfMemory> {
    Ok(EffectDef {
        name: Name::new(alloc, name)?,
        base,
        input: Sort::Unit,
        result: Sort::VarA,
        ret_names: Seq::new(alloc),
        ret: DmTerm::Ret(Term::Var(1)),
        bind_names: Seq::new(alloc),
        bind: DmTerm::RunF(Term::Var(0)),
    })
}

fn lift(alloc: Global, from: u32, to: u32) -> LiftDef
    ensures from { result.from ≡ from }
    ensures to { result.to ≡ to }
{
    LiftDef {
        from,
        to,
        names: Seq::new(alloc),
        text: DmTerm::RunF(Term::Var(0)),
    }
}

/// The effects 0 with base PURE and 1 with base DIV.
fn effects(alloc: Global) -> Result<Seq<EffectDef>, OutOfMemory>
    ensures { IfOk result (λ es. length es ≡ 2) }
{
    let (pure, div) = pair(
        effect(alloc, "P", Effect::Pure),
        effect(alloc, "D", Effect::Div),
    )?;
    two(alloc, pure, div)
}

#[test]
fn a_lift_is_a_step(rt: HostRuntime) -> Result<(), Fail> {
    let alloc = rt.alloc();
    let effects = effects(alloc)?;
    let lifts = one(alloc, lift(alloc, 0, 1))?;
    let places = one(alloc, Pos { at: 7 })?;
    let found = match lattice(alloc, &lifts, &effects, &places) {
        Ok(lattice) => [lattice.step(0, 1), lattice.step(1, 0), lattice.step(0, 0)],
        Err(_) => [None; 3],
    };
    assert_eq!(rt; found, [Some(0), None, None]);
    Ok(())
}

/// The fault of two lifts, at 7 and at 9.
fn fault_of(
    alloc: Global,
    first: (u32, u32),
    second: (u32, u32),
) -> Result<Option<Fault>, OutOfMemory>
    requires first { (first.0 < 2) × (first.1 < 2) }
    requires second { (second.0 < 2) × (second.1 < 2) }
{
    let effects = effects(alloc)?;
    let lifts = two(
        alloc,
        lift(alloc, first.0, first.1),
        lift(alloc, second.0, second.1),
    )?;
    let places = two(alloc, Pos { at: 7 }, Pos { at: 9 })?;
    Ok(lattice(alloc, &lifts, &effects, &places).err())
}

#[test]
fn lifts_are_refused_at_their_places(rt: HostRuntime) -> Result<(), Fail> {
    let alloc = rt.alloc();
    let lowered = fault_of(alloc, (1, 0), (0, 1))?;
    assert_eq!(rt; lowered, Some(Fault::Refused(Rule::NoLift, Pos { at: 7 })));
    let twice = fault_of(alloc, (0, 1), (0, 1))?;
    assert_eq!(rt; twice, Some(Fault::Refused(Rule::TwoPaths, Pos { at: 9 })));
    let itself = fault_of(alloc, (0, 1), (0, 0))?;
    assert_eq!(rt; itself, Some(Fault::Refused(Rule::TwoPaths, Pos { at: 9 })));
    Ok(())
}
