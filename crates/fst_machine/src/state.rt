ghost use Rattle.std.specs.Prelude.{◌≡◌, [], List, reverse, IfOk, IsTrue};
ghost use Rattle.fst_base.specs.Values.{Val, plain_value};
ghost use Rattle.fst_terms.specs.Meaning.{Env};
ghost use Rattle.fst_terms.specs.Terms.{plain_term, plain_terms};
ghost use Rattle.fst_program.specs.Texts.{Prog, c_bind, c_if, c_call};
ghost use Rattle.fst_program.specs.Plain.{plain_comp, plain_dm};
ghost use Rattle.fst_machine.specs.Arms.{plain_arms, plain_dm_arms};
ghost use Rattle.fst_code.specs.Plain.{plain_code};
ghost use Rattle.fst_code.specs.Sound.{is_effect, is_sound, is_there};
ghost use Rattle.fst_machine.specs.Memories.{IsCell, InputIs, IsChain};

use crate::eval::{arguments, eval, is_true};
use crate::memory::{Chain, Memory};
use crate::stop::Stop;
use crate::texts::{arm_body, bind_text, body_of, function, input_for, lift_text, return_text};
use fst_base::{OutOfMemory, Pos, Seq, Value};
use fst_cells::Cell;
use fst_code::Code;
use fst_program::{Arm, Comp, DmTerm};
use fst_terms::Term;
use std::alloc::Global;

/// The computations that a definition's text may run, with their environment.
#[derive(Clone, Copy)]
pub(crate) enum Header<'a> {
    None,
    Lift(&'a Comp, Chain),
    Bind(&'a Comp, &'a Comp, Chain),
}

/// What runs: core text in an environment on an input, or a definition's text with its header.
#[derive(Clone, Copy)]
pub(crate) enum Task<'a> {
    Text(&'a Comp, Chain, Option<Cell>),
    Definition(&'a DmTerm, Chain, Header<'a>),
}

/// What waits for the value of what runs.
#[derive(Clone, Copy)]
pub(crate) enum Frame<'a> {
    Let(&'a Comp, Chain, Option<Cell>),
    Definition(&'a DmTerm, Chain, Header<'a>),
    Return(&'a DmTerm, Option<Cell>),
}

/// What runs, and what waits, the innermost last.
#[derive(Drop)]
pub(crate) struct State<'a> {
    memory: Memory,
    task: Task<'a>,
    frames: Seq<Frame<'a>>,
}

impl<'a> State<'a> {
    ghost use Rattle.fst_machine.specs.States.{TurnIs, RunIs, StateIs, StateIsFit, FramesAre, HeaderIs};
    ghost use Rattle.fst_machine.specs.Turns.{Tsk, run_text, Frm, Hdr, give, arm_turn, def_arm_turn, def_turn, f_turn, g_turn, text_turn, turn, machine_run, IsCode};

    /// The start of a run of a text, in an environment on an input.
    pub(crate) fn new(
        alloc: Global,
        memory: Memory,
        text: &'a Comp,
        env: Chain,
        input: Option<Cell>,
    ) -> State<'a>
        ensures { (e : Env) (s : Val) → IsChain memory env e → InputIs memory input s → StateIs result (run_text (plain_comp text.now) e s) [] }
    {
        State {
            memory,
            task: Task::Text(text, env, input),
            frames: Seq::new(alloc),
        }
    }

    /// The value of a cell.
    pub(crate) fn value(&self, alloc: Global, cell: Cell) -> Result<Value, OutOfMemory>
        ensures { (v : Val) → IsCell self.now.memory cell v → IfOk result (λ x. plain_value x ≡ v) }
    {
        self.memory.value(alloc, cell)
    }

    /// Gives the value of a part to what waits for it; where nothing waits, the run is over.
    fn give(&mut self, cell: Cell) -> Result<Option<Cell>, Stop>
        ensures { (v : Val) (fs : List Frm) → IsCell self.old.memory cell v → FramesAre self.old.memory (reverse self.old.frames) fs → TurnIs self.new result (give v fs) }
    {
        let Some(frame) = self.frames.pop() else {
            return Ok(Some(cell));
        };
        self.task = match frame {
            Frame::Let(text, env, input) => Task::Text(text, self.memory.link(cell, env)?, input),
            Frame::Definition(text, env, header) => {
                Task::Definition(text, self.memory.link(cell, env)?, header)
            }
            Frame::Return(text, input) => {
                let env = self.memory.link(cell, Chain::empty())?;
                let input = self.memory.given(input)?;
                Task::Definition(text, self.memory.link(input, env)?, Header::None)
            }
        };
        Ok(None)
    }

    /// One unit of a definition's text.
    fn definition(
        &mut self,
        text: &'a DmTerm,
        env: Chain,
        header: Header<'a>,
    ) -> Result<Option<Cell>, Stop>
        ensures { (P : Prog) (e : Env) (h : Hdr) (fs : List Frm) → IsChain self.old.memory env e → HeaderIs self.old.memory header.entry h → FramesAre self.old.memory (reverse self.old.frames) fs
            → TurnIs self.new result (def_turn P (plain_dm text.now) e h fs) }
    {
        match text {
            DmTerm::Ret(term) => {
                let cell = eval(&mut self.memory, term, env)?;
                self.give(cell)
            }
            DmTerm::Let(_, bound, rest) => {
                self.frames
                    .push(Frame::Definition(rest.get(), env, header))?;
                self.task = Task::Definition(bound.get(), env, header);
                Ok(None)
            }
            DmTerm::If(test, left, right) => {
                let test = eval(&mut self.memory, test, env)?;
                let side = if is_true(&self.memory, test) {
                    left.get()
                } else {
                    right.get()
                };
                self.task = Task::Definition(side, env, header);
                Ok(None)
            }
            DmTerm::RunF(term) => {
                let input = eval(&mut self.memory, term, env)?;
                self.run_f(header, input)
            }
            DmTerm::RunG(term, input) => {
                let cell = eval(&mut self.memory, term, env)?;
                let input = eval(&mut self.memory, input, env)?;
                self.run_g(header, cell, input)
            }
            DmTerm::Match(term, arms) => {
                let cell = eval(&mut self.memory, term, env)?;
                self.definition_arm(arms.as_slice(), cell, env, header)
            }
        }
    }

    /// The arm of the value's constructor.
    fn arm(
        &mut self,
        arms: &'a [Arm<Comp>],
        at: Pos,
        cell: Cell,
        env: Chain,
        input: Option<Cell>,
    ) -> Result<Option<Cell>, Stop>
        ensures { (v : Val) (e : Env) (s : Val) (fs : List Frm) → IsCell self.old.memory cell v → IsChain self.old.memory env e → InputIs self.old.memory input s → FramesAre self.old.memory (reverse self.old.frames) fs
            → TurnIs self.new result (arm_turn (plain_arms arms.now) at.at v e s fs) }
    {
        for arm in arms {
            if let Some(inner) = self.memory.parts(arm.con, cell, env)? {
                self.task = Task::Text(arm_body(arm), inner, input);
                return Ok(None);
            }
        }
        Err(Stop::Stuck(at))
    }

    /// The same in a definition's text.
    fn definition_arm(
        &mut self,
        arms: &'a [Arm<DmTerm>],
        cell: Cell,
        env: Chain,
        header: Header<'a>,
    ) -> Result<Option<Cell>, Stop>
        ensures { (v : Val) (e : Env) (h : Hdr) (fs : List Frm) → IsCell self.old.memory cell v → IsChain self.old.memory env e → HeaderIs self.old.memory header.entry h → FramesAre self.old.memory (reverse self.old.frames) fs
            → TurnIs self.new result (def_arm_turn (plain_dm_arms arms.now) v e h fs) }
    {
        for arm in arms {
            if let Some(inner) = self.memory.parts(arm.con, cell, env)? {
                self.task = Task::Definition(arm_body(arm), inner, header);
                return Ok(None);
            }
        }
        Err(Stop::Stuck(Pos { at: 0 }))
    }

    /// The run of the header's first computation.
    fn run_f(&mut self, header: Header<'a>, input: Cell) -> Result<Option<Cell>, Stop>
        ensures { (h : Hdr) (s : Val) (fs : List Frm) → HeaderIs self.old.memory header.entry h → IsCell self.old.memory input s → FramesAre self.old.memory (reverse self.old.frames) fs → TurnIs self.new result (f_turn h s fs) }
    {
        match header {
            Header::None => Err(Stop::Stuck(Pos { at: 0 })),
            Header::Lift(text, env) => {
                self.task = Task::Text(text, env, Some(input));
                Ok(None)
            }
            Header::Bind(text, _, env) => {
                self.task = Task::Text(text, env, Some(input));
                Ok(None)
            }
        }
    }

    /// The run of the header's second computation, on a value and an input.
    fn run_g(&mut self, header: Header<'a>, cell: Cell, input: Cell) -> Result<Option<Cell>, Stop>
        ensures { (h : Hdr) (v s : Val) (fs : List Frm) → HeaderIs self.old.memory header.entry h → IsCell self.old.memory cell v → IsCell self.old.memory input s → FramesAre self.old.memory (reverse self.old.frames) fs → TurnIs self.new result (g_turn h v s fs) }
    {
        match header {
            Header::None => Err(Stop::Stuck(Pos { at: 0 })),
            Header::Lift(_, _) => Err(Stop::Stuck(Pos { at: 0 })),
            Header::Bind(_, text, env) => {
                let env = self.memory.link(cell, env)?;
                self.task = Task::Text(text, env, Some(input));
                Ok(None)
            }
        }
    }

    /// One unit of a bind: what runs is its effect's text, over the two parts.
    fn bind(
        &mut self,
        code: &'a Code,
        effect: u32,
        first: &'a Comp,
        second: &'a Comp,
        env: Chain,
        input: Option<Cell>,
    ) -> Result<Option<Cell>, Stop>
        requires there { IsTrue (is_effect (plain_code code.now) effect) }
        ensures { (e : Env) (s : Val) (fs : List Frm) → IsChain self.old.memory env e → InputIs self.old.memory input s → FramesAre self.old.memory (reverse self.old.frames) fs
            → TurnIs self.new result (text_turn (plain_code code.now) (c_bind effect [] (plain_comp first.now) (plain_comp second.now)) e s fs) }
    {
        let Some(bind) = bind_text(code, effect) else {
            unreachable!();
        };
        let given = self.memory.given(input)?;
        let inner = self.memory.link(given, Chain::empty())?;
        self.task = Task::Definition(bind, inner, Header::Bind(first, second, env));
        Ok(None)
    }

    /// One unit of a choice.
    fn side(
        &mut self,
        test: &Term,
        left: &'a Comp,
        right: &'a Comp,
        env: Chain,
        input: Option<Cell>,
    ) -> Result<Option<Cell>, Stop>
        ensures { (P : Prog) (e : Env) (s : Val) (fs : List Frm) → IsChain self.old.memory env e → InputIs self.old.memory input s → FramesAre self.old.memory (reverse self.old.frames) fs
            → TurnIs self.new result (text_turn P (c_if (plain_term test.now) (plain_comp left.now) (plain_comp right.now)) e s fs) }
    {
        let test = eval(&mut self.memory, test, env)?;
        let side = if is_true(&self.memory, test) {
            left
        } else {
            right
        };
        self.task = Task::Text(side, env, input);
        Ok(None)
    }

    /// One unit of a call.
    fn call(
        &mut self,
        code: &'a Code,
        number: u32,
        args: &[Term],
        env: Chain,
        input: Option<Cell>,
    ) -> Result<Option<Cell>, Stop>
        requires sound { IsTrue (is_sound (plain_code code.now)) }
        requires there { IsTrue (is_there (plain_code code.now) number) }
        ensures { (e : Env) (s : Val) (fs : List Frm) → IsChain self.old.memory env e → InputIs self.old.memory input s → FramesAre self.old.memory (reverse self.old.frames) fs
            → TurnIs self.new result (text_turn (plain_code code.now) (c_call number (plain_terms args.now) 0) e s fs) }
    {
        let Some(fun) = function(code, number) else {
            unreachable!();
        };
        let inner = arguments(&mut self.memory, args, env)?;
        self.task = Task::Text(body_of(fun), inner, input_for(fun.effect, input));
        Ok(None)
    }

    /// One unit of core text.
    #[cycle(text)]
    fn text(
        &mut self,
        code: &'a Code,
        text: &'a Comp,
        env: Chain,
        input: Option<Cell>,
    ) -> Result<Option<Cell>, Stop>
        requires sound { IsTrue (is_sound (plain_code code.now)) }
        requires fit { IsCode (plain_code code.now) (plain_comp text.now) }
        ensures { (e : Env) (s : Val) (fs : List Frm) → IsChain self.old.memory env e → InputIs self.old.memory input s → FramesAre self.old.memory (reverse self.old.frames) fs
            → TurnIs self.new result (text_turn (plain_code code.now) (plain_comp text.now) e s fs) }
    {
        match text {
            Comp::Ret(term) => {
                let cell = eval(&mut self.memory, term, env)?;
                self.give(cell)
            }
            Comp::Let(_, bound, rest) => {
                self.frames.push(Frame::Let(rest.get(), env, input))?;
                self.task = Task::Text(bound.get(), env, None);
                Ok(None)
            }
            Comp::Bind(effect, _, first, second) => {
                self.bind(code, *effect, first.get(), second.get(), env, input)
            }
            Comp::If(test, left, right) => self.side(test, left.get(), right.get(), env, input),
            Comp::Reify(_, _, part, term) => {
                let input = eval(&mut self.memory, term, env)?;
                self.task = Task::Text(part.get(), env, Some(input));
                Ok(None)
            }
            Comp::Reflect(_, _, _, part) => {
                let given = self.memory.given(input)?;
                let inner = self.memory.link(given, env)?;
                self.task = Task::Text(part.get(), inner, None);
                Ok(None)
            }
            Comp::Return(effect, part) => {
                let Some(text) = return_text(code, *effect) else {
                    unreachable!();
                };
                self.frames.push(Frame::Return(text, input))?;
                self.text(code, part.get(), env, None)
            }
            Comp::Lift(lift, part) => {
                let Some(text) = lift_text(code, *lift) else {
                    unreachable!();
                };
                let given = self.memory.given(input)?;
                let inner = self.memory.link(given, Chain::empty())?;
                self.definition(text, inner, Header::Lift(part.get(), env))
            }
            Comp::Match(term, at, arms) => {
                let cell = eval(&mut self.memory, term, env)?;
                self.arm(arms.as_slice(), *at, cell, env, input)
            }
            Comp::Call(number, args, _) => self.call(code, *number, args.as_slice(), env, input),
            Comp::GhostLet(_, _, _) => Err(Stop::Stuck(Pos { at: 0 })),
            Comp::Assert(_, at, _) => Err(Stop::Stuck(*at)),
        }
    }

    /// One unit of fuel: the run's value where it is over.
    fn turn(&mut self, code: &'a Code) -> Result<Option<Cell>, Stop>
        requires sound { IsTrue (is_sound (plain_code code.now)) }
        requires fit { StateIsFit (plain_code code.now) self.old }
        ensures { (t : Tsk) (fs : List Frm) → StateIs self.old t fs → TurnIs self.new result (turn (plain_code code.now) t fs) }
    {
        match self.task {
            Task::Text(text, env, input) => self.text(code, text, env, input),
            Task::Definition(text, env, header) => self.definition(text, env, header),
        }
    }

    /// The run's value, where the fuel ends it.
    pub(crate) fn run(&mut self, code: &'a Code, fuel: u64) -> Result<Option<Cell>, Stop>
        requires sound { IsTrue (is_sound (plain_code code.now)) }
        requires fit { StateIsFit (plain_code code.now) self.old }
        ensures { (t : Tsk) (fs : List Frm) → StateIs self.old t fs → RunIs self.new.memory result (machine_run (plain_code code.now) fuel t fs) }
    {
        for _unit in 0..fuel {
            if let Some(cell) = self.turn(code)? {
                return Ok(Some(cell));
            }
        }
        Ok(None)
    }
}
