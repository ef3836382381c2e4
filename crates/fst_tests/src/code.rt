use fst_base::{Box, Name, OutOfMemory, Pos, Seq, Sort, both, boxes};
use fst_code::{Code, CodeFun};
use fst_program::{Arm, Comp, Con, DmTerm, Effect, EffectDef, LiftDef, Param};
use fst_terms::{Formula, Term};
use std::alloc::Global;
use std::test::Fail;

const AT: Pos = Pos { at: 0 };

fn effects(alloc: Global) -> Result<Seq<EffectDef>, OutOfMemory> {
    let mut effects = Seq::new(alloc);
    effects.push(EffectDef {
        name: Name::new(alloc, "E")?,
        base: Effect::Pure,
        input: Sort::Unit,
        result: Sort::VarA,
        ret_names: Seq::new(alloc),
        ret: DmTerm::Ret(Term::Var(1)),
        bind_names: Seq::new(alloc),
        bind: DmTerm::RunF(Term::Var(0)),
    })?;
    Ok(effects)
}

/// A lift from effect 0 to effect `to`, whose text runs its computation on the variable.
fn lifts(alloc: Global, to: u32, variable: u32) -> Result<Seq<LiftDef>, OutOfMemory> {
    let mut lifts = Seq::new(alloc);
    lifts.push(LiftDef {
        from: 0,
        to,
        names: Seq::new(alloc),
        text: DmTerm::RunF(Term::Var(variable)),
    })?;
    Ok(lifts)
}

/// One parameter with this refinement.
fn params(alloc: Global, hidden: bool, refine: Formula) -> Result<Seq<Param>, OutOfMemory> {
    let (refine, name) = both(Some(refine), Name::new(alloc, "x"))?;
    let mut params = Seq::new(alloc);
    params.push(Param {
        name,
        sort: Sort::Bool,
        hidden,
        refine,
    })?;
    Ok(params)
}

fn fun(name: Name, params: Seq<Param>, effect: Effect, body: Comp) -> CodeFun {
    CodeFun {
        name,
        params,
        effect,
        sort: Sort::Bool,
        body,
        group: 0,
    }
}

/// One effect, one lift, the function 0, and a GHOST function 1 that is gone.
fn code(alloc: Global, fun: CodeFun) -> Result<Code, OutOfMemory> {
    let mut funs = Seq::new(alloc);
    funs.push(Some(fun))?;
    funs.push(None)?;
    Ok(Code {
        effects: effects(alloc)?,
        lifts: lifts(alloc, 0, 0)?,
        funs,
    })
}

fn var(index: u32) -> Comp {
    Comp::Ret(Term::Var(index))
}

fn name(alloc: Global) -> Result<Name, OutOfMemory> {
    Name::new(alloc, "y")
}

fn part(alloc: Global, index: u32) -> Result<Box<Comp>, OutOfMemory> {
    Box::new(alloc, var(index))
}

/// A match whose one arm binds two names.
fn matching(alloc: Global, body: u32) -> Result<Comp, OutOfMemory> {
    let mut names = Seq::new(alloc);
    names.push(name(alloc)?)?;
    names.push(name(alloc)?)?;
    let mut arms = Seq::new(alloc);
    arms.push(Arm {
        con: Con::Pair,
        names,
        body: var(body),
    })?;
    Ok(Comp::Match(Term::Var(0), AT, arms))
}

fn args(alloc: Global, variable: u32) -> Result<Seq<Term>, OutOfMemory> {
    let mut args = Seq::new(alloc);
    args.push(Term::Var(variable))?;
    Ok(args)
}

/// A text by its numbers: those of its functions, effects and lifts first, then those of its variables.
#[derive(Clone, Copy, Debug)]
enum Text {
    Var(u32),
    Let(u32, u32),
    Match(u32),
    Call(u32, u32),
    Bind(u32, u32),
    Return(u32),
    Lift(u32),
    GhostLet,
    Assert,
    Application,
}

fn a_let(alloc: Global, bound: u32, rest: u32) -> Result<Comp, OutOfMemory> {
    let name = name(alloc)?;
    let (bound, rest) = boxes(alloc, var(bound), var(rest))?;
    Ok(Comp::Let(name, bound, rest))
}

fn a_ghost_let(alloc: Global) -> Result<Comp, OutOfMemory> {
    let name = name(alloc)?;
    let (bound, rest) = boxes(alloc, var(0), var(0))?;
    Ok(Comp::GhostLet(name, bound, rest))
}

fn a_bind(alloc: Global, effect: u32, rest: u32) -> Result<Comp, OutOfMemory> {
    let name = name(alloc)?;
    let (bound, rest) = boxes(alloc, var(0), var(rest))?;
    Ok(Comp::Bind(effect, name, bound, rest))
}

fn text_of(alloc: Global, text: Text) -> Result<Comp, OutOfMemory> {
    match text {
        Text::Var(index) => Ok(var(index)),
        Text::Let(bound, rest) => a_let(alloc, bound, rest),
        Text::Match(body) => matching(alloc, body),
        Text::Call(function, index) => Ok(Comp::Call(function, args(alloc, index)?, AT)),
        Text::Bind(effect, rest) => a_bind(alloc, effect, rest),
        Text::Return(effect) => Ok(Comp::Return(effect, part(alloc, 0)?)),
        Text::Lift(lift) => Ok(Comp::Lift(lift, part(alloc, 0)?)),
        Text::GhostLet => a_ghost_let(alloc),
        Text::Assert => Ok(Comp::Assert(Term::Bool(true), AT, part(alloc, 0)?)),
        Text::Application => Ok(Comp::Ret(Term::App(0, Sort::Bool, args(alloc, 0)?))),
    }
}

/// Whether code is sound whose function of one parameter has this body.
fn is_sound(alloc: Global, body: Text) -> Result<bool, OutOfMemory> {
    let name = name(alloc)?;
    let params = params(alloc, false, Term::Bool(true))?;
    let fun = fun(name, params, Effect::Pure, text_of(alloc, body)?);
    Ok(code(alloc, fun)?.sound())
}

#[test]
fn texts(rt: HostRuntime) -> Result<(), Fail> {
    let alloc = rt.alloc();
    let rows = [
        (Text::Var(0), true),
        (Text::Var(1), false),
        (Text::Let(0, 1), true),
        (Text::Let(0, 2), false),
        (Text::Let(1, 0), false),
        (Text::Match(2), true),
        (Text::Match(3), false),
        (Text::Call(0, 0), true),
        (Text::Call(0, 1), false),
        // A function that is gone, and one that never was.
        (Text::Call(1, 0), false),
        (Text::Call(2, 0), false),
        (Text::Bind(0, 1), true),
        (Text::Bind(1, 1), false),
        (Text::Return(0), true),
        (Text::Return(1), false),
        (Text::Lift(0), true),
        (Text::Lift(1), false),
        (Text::GhostLet, false),
        (Text::Assert, false),
        (Text::Application, false),
    ];
    for (body, wanted) in &rows {
        assert_eq!(rt; is_sound(alloc, *body)?, *wanted, "{body:?}");
    }
    Ok(())
}

/// Whether code is sound whose function has this effect and this parameter; its refinement applies a function to a variable.
fn is_sound_with(
    alloc: Global,
    effect: Effect,
    hidden: bool,
    function: u32,
    variable: u32,
) -> Result<bool, OutOfMemory> {
    let name = name(alloc)?;
    let refine = Term::App(function, Sort::Bool, args(alloc, variable)?);
    let fun = fun(name, params(alloc, hidden, refine)?, effect, var(0));
    Ok(code(alloc, fun)?.sound())
}

#[test]
fn functions(rt: HostRuntime) -> Result<(), Fail> {
    let alloc = rt.alloc();
    let rows = [
        (Effect::Pure, false, 0, 0, true),
        (Effect::User(0), false, 1, 0, true),
        (Effect::User(1), false, 0, 0, false),
        (Effect::Ghost, false, 0, 0, false),
        (Effect::Pure, true, 0, 0, false),
        (Effect::Pure, false, 2, 0, false),
        (Effect::Pure, false, 0, 1, false),
    ];
    for (effect, hidden, function, variable, wanted) in &rows {
        let sound = is_sound_with(alloc, *effect, *hidden, *function, *variable)?;
        assert_eq!(rt; sound, *wanted, "{effect:?} {hidden} {function} {variable}");
    }
    Ok(())
}

/// Whether code without functions is sound that has this lift.
fn is_sound_lift(alloc: Global, to: u32, variable: u32) -> Result<bool, OutOfMemory> {
    let effects = effects(alloc)?;
    let lifts = lifts(alloc, to, variable)?;
    let funs = Seq::new(alloc);
    Ok(Code {
        effects,
        lifts,
        funs,
    }
    .sound())
}

#[test]
fn lifts_in_range(rt: HostRuntime) -> Result<(), Fail> {
    let alloc = rt.alloc();
    let rows = [(0, 0, true), (1, 0, false), (0, 1, false)];
    for (to, variable, wanted) in &rows {
        assert_eq!(rt;
            is_sound_lift(alloc, *to, *variable)?,
            *wanted,
            "{to} {variable}"
        );
    }
    Ok(())
}
