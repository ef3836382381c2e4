//! Terms and formulas: the chains of operators. Their functions take the reader of a nested term as a parameter, so that each is
//! proved by itself.

ghost use Rattle.std.specs.Prelude.{◌≡◌, ◌<◌, ◌≤◌, length, OnOk};
ghost use Rattle.fst_syntax.specs.Productions as n;
ghost use Rattle.fst_syntax.specs.Reading.{Reads, reads, run, applied};
ghost use Rattle.fst_syntax.specs.Following.{behind_un, behind_sum, behind_cmp};
ghost use Rattle.fst_syntax.specs.Nests.{Nests};
ghost use Rattle.fst_syntax.specs.Tails as tails;

use crate::make;
use crate::reader::Reader;
use fst_base::{Box, Pos, both};
use fst_syntax::{Comparison, Operator, Stop, Terminal};
use fst_trees::{Form, Word};

/// The readers of the parts of a term or formula.
#[derive(Clone, Copy)]
pub struct Terms<F> {
    /// Whether formulas are read.
    pub formula: bool,
    /// More than the tokens that are left at a nested term.
    pub room: usize,
    /// The reader of a nested term.
    pub term: F,
}

impl<F: Fn(bool, &mut Reader<'_>, usize) -> Result<Form<Word>, Stop>> Terms<F> {
    pub fn nested(&self, reader: &mut Reader<'_>) -> Result<Form<Word>, Stop>
        requires nests { Nests self.now.formula self.now.room (F.pre self.now.term) (F.post self.now.term) }
        requires room { length reader.old < self.now.room }
        ensures reads { Reads (reads (n.term self.now.formula) reader.old) result reader.new }
        ensures shorter { OnOk result (length reader.new < length reader.old) }
    {
        (self.term)(self.formula, reader, self.room)
    }

    /// A nested term on the heap.
    pub fn boxed(&self, reader: &mut Reader<'_>) -> Result<Box<Form<Word>>, Stop>
        requires nests { Nests self.now.formula self.now.room (F.pre self.now.term) (F.post self.now.term) }
        requires room { length reader.old < self.now.room }
        ensures reads { Reads (reads (n.term self.now.formula) reader.old) result reader.new }
        ensures shorter { OnOk result (length reader.new < length reader.old) }
    {
        let term = self.nested(reader)?;
        Ok(Box::new(reader.alloc(), term)?)
    }

    #[tactic(auto, using(fst_syntax::proofs::Following::term_opens))]
    pub fn whole(&self, reader: &mut Reader<'_>) -> Result<Form<Word>, Stop>
        requires nests { Nests self.now.formula self.now.room (F.pre self.now.term) (F.post self.now.term) }
        requires room { length reader.old ≤ self.now.room }
        ensures reads { Reads (reads (n.term self.now.formula) reader.old) result reader.new }
        ensures shorter { OnOk result (length reader.new < length reader.old) }
    {
        let first = self.un(reader)?;
        self.behind(reader, first)
    }

    /// The term whose first operand is read.
    pub fn behind(&self, reader: &mut Reader<'_>, first: Form<Word>) -> Result<Form<Word>, Stop>
        requires nests { Nests self.now.formula self.now.room (F.pre self.now.term) (F.post self.now.term) }
        requires room { length reader.old ≤ self.now.room }
        ensures reads { Reads (behind_un self.now.formula first reader.old) result reader.new }
        ensures no_longer { OnOk result (length reader.new ≤ length reader.old) }
    {
        if reader.at_operator() {
            self.operated(reader, first)
        } else {
            Ok(first)
        }
    }

    /// The term whose first operand is read, level by level.
    fn operated(&self, reader: &mut Reader<'_>, first: Form<Word>) -> Result<Form<Word>, Stop>
        requires nests { Nests self.now.formula self.now.room (F.pre self.now.term) (F.post self.now.term) }
        requires room { length reader.old ≤ self.now.room }
        ensures reads { Reads (behind_un self.now.formula first reader.old) result reader.new }
        ensures no_longer { OnOk result (length reader.new ≤ length reader.old) }
    {
        let prod = self.prod_more(reader, first)?;
        let sum = self.sum_more(reader, prod)?;
        self.compared(reader, sum)
    }

    /// The same from a sum on.
    fn compared(&self, reader: &mut Reader<'_>, sum: Form<Word>) -> Result<Form<Word>, Stop>
        requires nests { Nests self.now.formula self.now.room (F.pre self.now.term) (F.post self.now.term) }
        requires room { length reader.old ≤ self.now.room }
        ensures reads { Reads (behind_sum self.now.formula sum reader.old) result reader.new }
        ensures no_longer { OnOk result (length reader.new ≤ length reader.old) }
    {
        let (sum, more) = both(sum, self.con_more(reader))?;
        let con = make::cons_by(reader.alloc(), sum, more)?;
        let (con, more) = both(con, self.cmp_more(reader))?;
        let cmp = make::compared_by(reader.alloc(), con, more)?;
        self.connected(reader, cmp)
    }

    /// The same from a comparison on.
    fn connected(&self, reader: &mut Reader<'_>, cmp: Form<Word>) -> Result<Form<Word>, Stop>
        requires nests { Nests self.now.formula self.now.room (F.pre self.now.term) (F.post self.now.term) }
        requires room { length reader.old ≤ self.now.room }
        ensures reads { Reads (behind_cmp self.now.formula cmp reader.old) result reader.new }
        ensures no_longer { OnOk result (length reader.new ≤ length reader.old) }
    {
        let conj = self.conj_more(reader, cmp)?;
        let disj = self.disj_more(reader, conj)?;
        let (disj, more) = both(disj, self.implies_more(reader))?;
        Ok(make::implied_by(reader.alloc(), disj, more)?)
    }

    #[tactic(auto, using(fst_syntax::proofs::Opens::opens))]
    pub fn implies_more(&self, reader: &mut Reader<'_>) -> Result<Option<(Pos, Form<Word>)>, Stop>
        requires nests { Nests self.now.formula self.now.room (F.pre self.now.term) (F.post self.now.term) }
        requires room { length reader.old ≤ self.now.room }
        ensures reads { Reads (reads (n.implies_more self.now.formula) reader.old) result reader.new }
        ensures no_longer { OnOk result (length reader.new ≤ length reader.old) }
    {
        match reader.peek() {
            Terminal::Implies => {
                let at = reader.expect(Terminal::Implies)?;
                let right = self.nested(reader)?;
                Ok(Some((at, right)))
            }
            _ => Ok(None),
        }
    }

    pub fn disj_more(&self, reader: &mut Reader<'_>, left: Form<Word>) -> Result<Form<Word>, Stop>
        requires nests { Nests self.now.formula self.now.room (F.pre self.now.term) (F.post self.now.term) }
        requires room { length reader.old ≤ self.now.room }
        ensures reads { Reads (applied left (reads (n.disj_more self.now.formula) reader.old)) result reader.new }
        ensures no_longer { OnOk result (length reader.new ≤ length reader.old) }
    {
        let mut tree = left;
        'operators: while reader.at(Terminal::BarBar) {
            let (left, (operator, right)) = both(tree, self.disj_step(reader))?;
            tree = make::disjunction(reader.alloc(), operator, left, right)?;
        }
        Ok(tree)
    }

    /// The mark of a disjunction with its right operand.
    fn disj_step(&self, reader: &mut Reader<'_>) -> Result<(Pos, Form<Word>), Stop>
        requires nests { Nests self.now.formula self.now.room (F.pre self.now.term) (F.post self.now.term) }
        requires room { length reader.old ≤ self.now.room }
        ensures reads { Reads (run (tails.disj_step self.now.formula) reader.old) result reader.new }
        ensures shorter { OnOk result (length reader.new < length reader.old) }
    {
        let operator = reader.expect(Terminal::BarBar)?;
        let right = self.conj(reader)?;
        Ok((operator, right))
    }

    #[tactic(auto, using(fst_syntax::proofs::Chains::conj_opens))]
    fn conj(&self, reader: &mut Reader<'_>) -> Result<Form<Word>, Stop>
        requires nests { Nests self.now.formula self.now.room (F.pre self.now.term) (F.post self.now.term) }
        requires room { length reader.old ≤ self.now.room }
        ensures reads { Reads (reads (n.conj self.now.formula) reader.old) result reader.new }
        ensures shorter { OnOk result (length reader.new < length reader.old) }
    {
        let left = self.cmp(reader)?;
        let tree = self.conj_more(reader, left)?;
        Ok(tree)
    }

    pub fn conj_more(&self, reader: &mut Reader<'_>, left: Form<Word>) -> Result<Form<Word>, Stop>
        requires nests { Nests self.now.formula self.now.room (F.pre self.now.term) (F.post self.now.term) }
        requires room { length reader.old ≤ self.now.room }
        ensures reads { Reads (applied left (reads (n.conj_more self.now.formula) reader.old)) result reader.new }
        ensures no_longer { OnOk result (length reader.new ≤ length reader.old) }
    {
        let mut tree = left;
        'operators: while reader.at(Terminal::AmpAmp) {
            let (left, (operator, right)) = both(tree, self.conj_step(reader))?;
            tree = make::conjunction(reader.alloc(), operator, left, right)?;
        }
        Ok(tree)
    }

    /// The mark of a conjunction with its right operand.
    fn conj_step(&self, reader: &mut Reader<'_>) -> Result<(Pos, Form<Word>), Stop>
        requires nests { Nests self.now.formula self.now.room (F.pre self.now.term) (F.post self.now.term) }
        requires room { length reader.old ≤ self.now.room }
        ensures reads { Reads (run (tails.conj_step self.now.formula) reader.old) result reader.new }
        ensures shorter { OnOk result (length reader.new < length reader.old) }
    {
        let operator = reader.expect(Terminal::AmpAmp)?;
        let right = self.cmp(reader)?;
        Ok((operator, right))
    }

    #[tactic(auto, using(fst_syntax::proofs::Opens::opens))]
    fn cmp(&self, reader: &mut Reader<'_>) -> Result<Form<Word>, Stop>
        requires nests { Nests self.now.formula self.now.room (F.pre self.now.term) (F.post self.now.term) }
        requires room { length reader.old ≤ self.now.room }
        ensures reads { Reads (reads (n.cmp self.now.formula) reader.old) result reader.new }
        ensures shorter { OnOk result (length reader.new < length reader.old) }
    {
        let left = self.con(reader)?;
        let (left, more) = both(left, self.cmp_more(reader))?;
        Ok(make::compared_by(reader.alloc(), left, more)?)
    }

    #[tactic(auto, using(fst_syntax::proofs::Opens::opens))]
    pub fn cmp_more(
        &self,
        reader: &mut Reader<'_>,
    ) -> Result<Option<(Comparison, Form<Word>)>, Stop>
        requires nests { Nests self.now.formula self.now.room (F.pre self.now.term) (F.post self.now.term) }
        requires room { length reader.old ≤ self.now.room }
        ensures reads { Reads (reads (n.cmp_more self.now.formula) reader.old) result reader.new }
        ensures no_longer { OnOk result (length reader.new ≤ length reader.old) }
    {
        if reader.at_comparison() {
            let comparison = reader.comparison()?;
            let right = self.con(reader)?;
            Ok(Some((comparison, right)))
        } else {
            Ok(None)
        }
    }

    #[cycle(con)]
    #[tactic(auto, using(fst_syntax::proofs::Opens::opens))]
    fn con(&self, reader: &mut Reader<'_>) -> Result<Form<Word>, Stop>
        requires nests { Nests self.now.formula self.now.room (F.pre self.now.term) (F.post self.now.term) }
        requires room { length reader.old ≤ self.now.room }
        ensures reads { Reads (reads (n.con self.now.formula) reader.old) result reader.new }
        ensures shorter { OnOk result (length reader.new < length reader.old) }
    {
        let left = self.sum(reader)?;
        let (left, more) = both(left, self.con_more(reader))?;
        Ok(make::cons_by(reader.alloc(), left, more)?)
    }

    #[cycle(con)]
    #[tactic(auto, using(fst_syntax::proofs::Opens::opens))]
    pub fn con_more(&self, reader: &mut Reader<'_>) -> Result<Option<(Pos, Form<Word>)>, Stop>
        requires nests { Nests self.now.formula self.now.room (F.pre self.now.term) (F.post self.now.term) }
        requires room { length reader.old ≤ self.now.room }
        ensures reads { Reads (reads (n.con_more self.now.formula) reader.old) result reader.new }
        ensures no_longer { OnOk result (length reader.new ≤ length reader.old) }
    {
        match reader.peek() {
            Terminal::ColonColon => {
                let at = reader.expect(Terminal::ColonColon)?;
                let right = self.con(reader)?;
                Ok(Some((at, right)))
            }
            _ => Ok(None),
        }
    }

    #[tactic(auto, using(fst_syntax::proofs::Chains::sum_opens))]
    fn sum(&self, reader: &mut Reader<'_>) -> Result<Form<Word>, Stop>
        requires nests { Nests self.now.formula self.now.room (F.pre self.now.term) (F.post self.now.term) }
        requires room { length reader.old ≤ self.now.room }
        ensures reads { Reads (reads (n.sum self.now.formula) reader.old) result reader.new }
        ensures shorter { OnOk result (length reader.new < length reader.old) }
    {
        let left = self.prod(reader)?;
        let tree = self.sum_more(reader, left)?;
        Ok(tree)
    }

    pub fn sum_more(&self, reader: &mut Reader<'_>, left: Form<Word>) -> Result<Form<Word>, Stop>
        requires nests { Nests self.now.formula self.now.room (F.pre self.now.term) (F.post self.now.term) }
        requires room { length reader.old ≤ self.now.room }
        ensures reads { Reads (applied left (reads (n.sum_more self.now.formula) reader.old)) result reader.new }
        ensures no_longer { OnOk result (length reader.new ≤ length reader.old) }
    {
        let mut tree = left;
        'operators: while reader.at_sum_operator() {
            let (left, (operator, right)) = both(tree, self.sum_step(reader))?;
            tree = make::operated(reader.alloc(), operator, left, right)?;
        }
        Ok(tree)
    }

    /// The operator of a sum with its right operand.
    fn sum_step(&self, reader: &mut Reader<'_>) -> Result<(Operator, Form<Word>), Stop>
        requires nests { Nests self.now.formula self.now.room (F.pre self.now.term) (F.post self.now.term) }
        requires room { length reader.old ≤ self.now.room }
        ensures reads { Reads (run (tails.sum_step self.now.formula) reader.old) result reader.new }
        ensures shorter { OnOk result (length reader.new < length reader.old) }
    {
        let operator = reader.sum_operator()?;
        let right = self.prod(reader)?;
        Ok((operator, right))
    }

    #[tactic(auto, using(fst_syntax::proofs::Chains::prod_opens))]
    fn prod(&self, reader: &mut Reader<'_>) -> Result<Form<Word>, Stop>
        requires nests { Nests self.now.formula self.now.room (F.pre self.now.term) (F.post self.now.term) }
        requires room { length reader.old ≤ self.now.room }
        ensures reads { Reads (reads (n.prod self.now.formula) reader.old) result reader.new }
        ensures shorter { OnOk result (length reader.new < length reader.old) }
    {
        let left = self.un(reader)?;
        let tree = self.prod_more(reader, left)?;
        Ok(tree)
    }

    pub fn prod_more(&self, reader: &mut Reader<'_>, left: Form<Word>) -> Result<Form<Word>, Stop>
        requires nests { Nests self.now.formula self.now.room (F.pre self.now.term) (F.post self.now.term) }
        requires room { length reader.old ≤ self.now.room }
        ensures reads { Reads (applied left (reads (n.prod_more self.now.formula) reader.old)) result reader.new }
        ensures no_longer { OnOk result (length reader.new ≤ length reader.old) }
    {
        let mut tree = left;
        'operators: while reader.at_prod_operator() {
            let (left, (operator, right)) = both(tree, self.prod_step(reader))?;
            tree = make::operated(reader.alloc(), operator, left, right)?;
        }
        Ok(tree)
    }

    /// The operator of a product with its right operand.
    fn prod_step(&self, reader: &mut Reader<'_>) -> Result<(Operator, Form<Word>), Stop>
        requires nests { Nests self.now.formula self.now.room (F.pre self.now.term) (F.post self.now.term) }
        requires room { length reader.old ≤ self.now.room }
        ensures reads { Reads (run (tails.prod_step self.now.formula) reader.old) result reader.new }
        ensures shorter { OnOk result (length reader.new < length reader.old) }
    {
        let operator = reader.prod_operator()?;
        let right = self.un(reader)?;
        Ok((operator, right))
    }
}

/// A term, or a formula, with more room than tokens.
pub fn term(formula: bool, reader: &mut Reader<'_>, room: usize) -> Result<Form<Word>, Stop>
    requires { length reader.old < room }
    ensures reads { Reads (reads (n.term formula) reader.old) result reader.new }
    ensures shorter { OnOk result (length reader.new < length reader.old) }
{
    Terms {
        formula,
        room: room - 1,
        term,
    }
    .whole(reader)
}
