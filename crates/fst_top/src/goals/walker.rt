ghost use Rattle.std.specs.Prelude.{◌≡◌, ◌∷◌, ◌++◌, [], length, map, reverse, IfOk, OnOk};
ghost use Rattle.fst_program.specs.Paths.{plain_goal};
ghost use Rattle.fst_program.specs.Plain.{plain_comp, plain_fun, plain_param};
ghost use Rattle.fst_terms.specs.Formulas.{put, vars_from};
ghost use Rattle.fst_terms.specs.Meaning.{plain_var};
ghost use Rattle.fst_terms.specs.Terms.{plain_term};
ghost use Rattle.fst_top.specs.Built.{var_of};
ghost use Rattle.fst_top.specs.Goals.{CmSimple, FunSimple, GivenSimple, TmSimple, end_goal, end_of, ends, simple_goals, start_of};
ghost use Rattle.fst_top.specs.Ways.{state_of};

use crate::goals::instantiate::{instantiate, variables};
use crate::goals::way::{Test, Way};
use fst_base::{OutOfMemory, Seq};
use fst_program::{Choice, Comp, Fun, Goal, Param, Site, SiteKind};
use fst_terms::{Formula, Sequent, Term, Var};
use std::alloc::Global;

/// The walk over the ways of a function.
#[derive(Clone, Copy)]
pub struct Walker<'a> {
    pub alloc: Global,
    pub fun: &'a Fun,
    pub number: u32,
}

/// The parameters as variables.
fn vars_of(alloc: Global, params: &[Param]) -> Result<Seq<Var>, OutOfMemory>
    ensures { IfOk result (λ vars. map plain_var vars ≡ map (λ p. var_of (plain_param p)) params.now) }
{
    let mut vars = Seq::new(alloc);
    for param in params {
        let name = param.name.copy(alloc)?;
        let sort = param.sort.copy(alloc)?;
        vars.push(Var { name, sort })?;
    }
    Ok(vars)
}

fn copy_formulas(alloc: Global, formulas: &[Formula]) -> Result<Seq<Formula>, OutOfMemory>
    ensures { IfOk result (λ copies. copies ≡ formulas.now) }
{
    let mut copies = Seq::new(alloc);
    for formula in formulas {
        copies.push(formula.copy(alloc)?)?;
    }
    Ok(copies)
}

impl<'a> Walker<'a> {
    /// The goals of the function, in order.
    pub fn goals(&self) -> Result<Seq<Goal>, OutOfMemory>
        requires { FunSimple (plain_fun self.now.fun.now) }
        ensures { IfOk result (λ goals. map plain_goal goals ≡ simple_goals self.now.number (plain_fun self.now.fun.now)) }
    {
        let mut way = self.start()?;
        let mut goals = Seq::new(self.alloc);
        self.walk(&self.fun.body, &mut way, &mut goals)?;
        Ok(goals)
    }

    /// The variables of the parameters, the last one with index 0 at the end.
    fn own_terms(&self) -> Result<Seq<Term>, OutOfMemory>
        ensures { IfOk result (λ terms. reverse (map plain_term terms) ≡ vars_from 0 (length self.now.fun.now.params)) }
    {
        match u32::try_from(self.fun.params.len()) {
            Ok(count) => variables(self.alloc, count),
            // An index has 32 bits.
            Err(_) => Err(OutOfMemory),
        }
    }

    /// The way that the body begins on: requires is a hypothesis.
    fn start(&self) -> Result<Way, OutOfMemory>
        requires { FunSimple (plain_fun self.now.fun.now) }
        ensures { IfOk result (λ way. state_of way ≡ start_of (plain_fun self.now.fun.now)) }
    {
        let terms = self.own_terms()?;
        let mut hyps = Seq::new(self.alloc);
        if let Some(needs) = &self.fun.needs {
            hyps.push(instantiate(self.alloc, needs, terms.as_slice())?)?;
        }
        Ok(Way {
            terms,
            hyps,
            choices: Seq::new(self.alloc),
        })
    }

    /// Adds the goals at the ends of the ways through a text.
    #[cycle(walk)]
    fn walk(&self, text: &Comp, way: &mut Way, goals: &mut Seq<Goal>) -> Result<(), OutOfMemory>
        requires text { CmSimple (plain_comp text.now) }
        requires gives { GivenSimple (plain_fun self.now.fun.now).gives }
        ensures goals { OnOk result (map plain_goal goals.new ≡ map plain_goal goals.old ++ ends (end_of self.now.number (plain_fun self.now.fun.now)) (plain_comp text.now) (state_of way.old)) }
        ensures way { OnOk result (state_of way.new ≡ state_of way.old) }
    {
        match text {
            Comp::Ret(term) => self.end(term, way, goals),
            Comp::Let(_, bound, rest) => {
                let Comp::Ret(term) = bound.get() else {
                    unreachable!();
                };
                way.bind(way.value(self.alloc, term)?)?;
                self.walk(rest.get(), way, goals)?;
                way.unbind();
                Ok(())
            }
            Comp::If(test, left, right) => match way.test(self.alloc, test)? {
                Test::Literal(true) => self.walk(left.get(), way, goals),
                Test::Literal(false) => self.walk(right.get(), way, goals),
                Test::Open(formula) => {
                    way.suppose(formula, Choice::Then)?;
                    self.walk(left.get(), way, goals)?;
                    way.turn(self.alloc)?;
                    self.walk(right.get(), way, goals)?;
                    way.leave();
                    Ok(())
                }
            },
            _ => unreachable!(),
        }
    }

    /// Adds the goal at the end of a way with this result, where the function has ensures.
    fn end(&self, term: &Term, way: &Way, goals: &mut Seq<Goal>) -> Result<(), OutOfMemory>
        requires term { TmSimple (plain_term term.now) }
        requires gives { GivenSimple (plain_fun self.now.fun.now).gives }
        ensures { OnOk result (map plain_goal goals.new ≡ map plain_goal goals.old ++ end_of self.now.number (plain_fun self.now.fun.now) (state_of way.now) (put (state_of way.now).terms (plain_term term.now))) }
    {
        let Some(gives) = &self.fun.gives else {
            return Ok(());
        };
        goals.push(self.goal(gives, term, way)?)?;
        Ok(())
    }

    /// The goal that the ensures `gives` asks for at the end of a way with this result.
    fn goal(&self, gives: &Formula, term: &Term, way: &Way) -> Result<Goal, OutOfMemory>
        requires gives { TmSimple (plain_term gives.now) }
        requires term { TmSimple (plain_term term.now) }
        ensures { IfOk result (λ goal. plain_goal goal ≡ end_goal self.now.number (plain_fun self.now.fun.now) (state_of way.now) (put (put (state_of way.now).terms (plain_term term.now) ∷ vars_from 0 (length self.now.fun.now.params)) (plain_term gives.now))) }
    {
        let vars = vars_of(self.alloc, self.fun.params.as_slice())?;
        let hyps = copy_formulas(self.alloc, way.hyps.as_slice())?;
        let choices = Seq::from_slice(self.alloc, way.choices.as_slice())?;
        let goal = self.formula(gives, term, way)?;
        let sequent = Sequent { vars, hyps, goal };
        let site = Site {
            kind: SiteKind::Ensures,
            fun: self.number,
            at: self.fun.at,
            choices,
        };
        Ok(Goal { site, sequent })
    }

    /// The formula `gives` on this result.
    fn formula(&self, gives: &Formula, term: &Term, way: &Way) -> Result<Formula, OutOfMemory>
        requires gives { TmSimple (plain_term gives.now) }
        requires term { TmSimple (plain_term term.now) }
        ensures { IfOk result (λ made. plain_term made ≡ put (put (state_of way.now).terms (plain_term term.now) ∷ vars_from 0 (length self.now.fun.now.params)) (plain_term gives.now)) }
    {
        let mut terms = self.own_terms()?;
        terms.push(way.value(self.alloc, term)?)?;
        let formula = instantiate(self.alloc, gives, terms.as_slice())?;
        Ok(formula)
    }
}
