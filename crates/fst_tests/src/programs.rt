use fst_base::{Box, Name, OutOfMemory, Pos, Seq, Sort, boxed, one, pair, two};
use fst_program::{Arm, Comp, Con, DmTerm, Effect, EffectDef, Fun, LiftDef, Param, Program};
use fst_terms::Term;
use std::alloc::Global;
use std::test::Fail;

/// A function of one parameter that returns it.
fn fun(alloc: Global, name: &str, effect: Effect, hidden: bool) -> Result<Fun, OutOfMemory> {
    let name = Name::new(alloc, name)?;
    let param = Param {
        name: Name::new(alloc, "x")?,
        sort: Sort::Int,
        hidden,
        refine: Some(Term::Bool(true)),
    };
    let params = one(alloc, param)?;
    Ok(Fun {
        name,
        at: Pos { at: 0 },
        params,
        effect,
        sort: Sort::Int,
        needs: None,
        gives: Some(Term::Bool(true)),
        measures: Seq::new(alloc),
        unfold: 0,
        body: Comp::Ret(Term::Var(0)),
        group: 0,
    })
}

/// The number of main in a program of g and this function.
fn main_of(
    alloc: Global,
    name: &str,
    effect: Effect,
    hidden: bool,
) -> Result<Option<u32>, OutOfMemory> {
    let g = fun(alloc, "g", Effect::Pure, false);
    let (first, second) = pair(g, fun(alloc, name, effect, hidden))?;
    let program = Program {
        effects: Seq::new(alloc),
        lifts: Seq::new(alloc),
        funs: two(alloc, first, second)?,
    };
    Ok(program.main())
}

#[test]
fn main_is_found(rt: HostRuntime) -> Result<(), Fail> {
    let alloc = rt.alloc();
    let rows = [
        ("f", Effect::Pure, false, None),
        ("main", Effect::Pure, false, Some(1)),
        ("main", Effect::Div, false, Some(1)),
        ("main", Effect::User(0), false, Some(1)),
        ("main", Effect::Ghost, false, None),
        ("main", Effect::Pure, true, None),
        ("Main", Effect::Pure, false, None),
        ("main2", Effect::Pure, false, None),
    ];
    for (name, effect, hidden, wanted) in &rows {
        assert_eq!(rt; main_of(alloc, name, *effect, *hidden)?, *wanted, "{name}");
    }
    Ok(())
}

/// A match whose one arm runs f.
fn a_match(alloc: Global) -> Result<DmTerm, OutOfMemory> {
    let arm = Arm {
        con: Con::True,
        names: Seq::new(alloc),
        body: DmTerm::RunF(Term::Unit),
    };
    Ok(DmTerm::Match(Term::Var(0), one(alloc, arm)?))
}

fn an_effect(alloc: Global) -> Result<EffectDef, OutOfMemory> {
    let name = Name::new(alloc, "E")?;
    let bind = a_match(alloc)?;
    Ok(EffectDef {
        name,
        base: Effect::Div,
        input: Sort::Int,
        result: Sort::VarA,
        ret_names: Seq::new(alloc),
        ret: DmTerm::Ret(Term::Var(0)),
        bind_names: Seq::new(alloc),
        bind,
    })
}

fn a_lift(alloc: Global) -> Result<LiftDef, OutOfMemory> {
    let text = a_match(alloc)?;
    Ok(LiftDef {
        from: 1,
        to: 2,
        names: Seq::new(alloc),
        text,
    })
}

fn a_body(alloc: Global) -> Result<Comp, OutOfMemory> {
    let part = Box::new(alloc, Comp::Ret(Term::Unit))?;
    Ok(Comp::Lift(3, part))
}

fn is_effect_copied(alloc: Global) -> Result<bool, OutOfMemory> {
    let effect = boxed(alloc, an_effect(alloc))?;
    let copy = boxed(alloc, effect.get().copy(alloc))?;
    Ok(matches!(&copy.get().bind, DmTerm::Match(Term::Var(0), _)))
}

fn is_lift_copied(alloc: Global) -> Result<bool, OutOfMemory> {
    let lift = boxed(alloc, a_lift(alloc))?;
    let copy = boxed(alloc, lift.get().copy(alloc))?;
    Ok(copy.get().to == 2)
}

fn is_body_copied(alloc: Global) -> Result<bool, OutOfMemory> {
    let body = boxed(alloc, a_body(alloc))?;
    let copy = boxed(alloc, body.get().copy(alloc))?;
    Ok(matches!(copy.get(), Comp::Lift(3, _)))
}

#[test]
fn texts_are_copied(rt: HostRuntime) -> Result<(), Fail> {
    let alloc = rt.alloc();
    assert!(rt; is_effect_copied(alloc)?);
    assert!(rt; is_lift_copied(alloc)?);
    assert!(rt; is_body_copied(alloc)?);
    Ok(())
}
