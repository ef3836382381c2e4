ghost use Rattle.std.specs.Prelude.{◌≡◌, IfOk, OnOk};
ghost use Rattle.fst_program.specs.declared.goal.Choice.{Choice};
ghost use Rattle.fst_program.specs.declared.goal.Choice.TheVariants.{Else};
ghost use Rattle.fst_terms.specs.Formulas.{negation, put};
ghost use Rattle.fst_terms.specs.Terms.{Tm, plain_term};
ghost use Rattle.fst_top.specs.Goals.{State, TmSimple, bound, supposed};
ghost use Rattle.fst_top.specs.Ways.{Asks, state_of};

use crate::goals::instantiate::instantiate;
use fst_base::{Box, OutOfMemory, Seq};
use fst_program::Choice;
use fst_terms::{Formula, Term};
use std::alloc::Global;

/// Where a way stands: the terms of its variables, its hypotheses, and its choices.
#[derive(Drop)]
pub struct Way {
    pub terms: Seq<Term>,
    pub hyps: Seq<Formula>,
    pub choices: Seq<Choice>,
}

/// What an `if` asks, with the way's terms put in.
#[derive(Drop)]
pub enum Test {
    Literal(bool),
    Open(Formula),
}

impl Test {
    fn of(formula: Formula) -> Test
        ensures { Asks result (plain_term formula) }
    {
        match formula {
            Term::Bool(truth) => Test::Literal(truth),
            formula => Test::Open(formula),
        }
    }
}

/// `not` of the formula.
fn negation(alloc: Global, formula: Formula) -> Result<Formula, OutOfMemory>
    ensures { IfOk result (λ made. plain_term made ≡ negation (plain_term formula)) }
{
    let formula = Box::new(alloc, formula)?;
    let left = Box::new(alloc, Term::Bool(false))?;
    let right = Box::new(alloc, Term::Bool(true))?;
    Ok(Term::If(formula, left, right))
}

impl Way {
    /// The term, with the way's terms put in for its variables.
    pub fn value(&self, alloc: Global, term: &Term) -> Result<Term, OutOfMemory>
        requires { TmSimple (plain_term term.now) }
        ensures { IfOk result (λ made. plain_term made ≡ put (state_of self.now).terms (plain_term term.now)) }
    {
        let term = instantiate(alloc, term, self.terms.as_slice())?;
        Ok(term)
    }

    /// What an `if` on the term asks.
    pub fn test(&self, alloc: Global, term: &Term) -> Result<Test, OutOfMemory>
        requires { TmSimple (plain_term term.now) }
        ensures { IfOk result (λ test. Asks test (put (state_of self.now).terms (plain_term term.now))) }
    {
        let value = self.value(alloc, term)?;
        Ok(Test::of(value))
    }

    /// Brings a variable into scope.
    pub fn bind(&mut self, term: Term) -> Result<(), OutOfMemory>
        ensures { OnOk result (state_of self.new ≡ bound (plain_term term) (state_of self.old)) }
    {
        self.terms.push(term)?;
        Ok(())
    }

    /// Takes the last variable out of scope.
    pub fn unbind(&mut self)
        ensures { (t : Tm) (s : State) → state_of self.old ≡ bound t s → state_of self.new ≡ s }
    {
        self.terms.pop();
    }

    /// Takes a side of an `if`.
    pub fn suppose(&mut self, formula: Formula, choice: Choice) -> Result<(), OutOfMemory>
        ensures { OnOk result (state_of self.new ≡ supposed (plain_term formula) choice (state_of self.old)) }
    {
        self.hyps.push(formula)?;
        self.choices.push(choice)?;
        Ok(())
    }

    /// Takes the other side of the `if` that was taken last.
    pub fn turn(&mut self, alloc: Global) -> Result<(), OutOfMemory>
        ensures { OnOk result ((t : Tm) (c : Choice) (s : State) → state_of self.old ≡ supposed t c s → state_of self.new ≡ supposed (negation t) Else s) }
    {
        self.choices.pop();
        if let Some(formula) = self.hyps.pop() {
            self.suppose(negation(alloc, formula)?, Choice::Else)?;
        }
        Ok(())
    }

    /// Leaves the `if` that was taken last.
    pub fn leave(&mut self)
        ensures { (t : Tm) (c : Choice) (s : State) → state_of self.old ≡ supposed t c s → state_of self.new ≡ s }
    {
        self.hyps.pop();
        self.choices.pop();
    }
}
