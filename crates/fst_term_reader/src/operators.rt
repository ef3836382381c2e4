//! Operators.

ghost use Rattle.std.specs.Prelude.{◌≡◌, ◌<◌, length, OnOk};
ghost use Rattle.fst_grammar.specs.Alphabet.{next, has};
ghost use Rattle.fst_syntax.specs.Tokens.{alphabet};
ghost use Rattle.fst_syntax.specs.Productions as n;
ghost use Rattle.fst_syntax.specs.Tables.{firsts};
ghost use Rattle.fst_syntax.specs.Reading.{Reads, reads};

use crate::reader::Reader;
use fst_base::Op;
use fst_syntax::{Comparison, Operator, Relation, Stop, Terminal};

impl<'a> Reader<'a> {
    pub fn at_comparison(&self) -> bool
        ensures { result ≡ has alphabet (firsts n.comparison) (next alphabet self.now) }
    {
        match self.peek() {
            Terminal::Equal => true,
            Terminal::NotEqual => true,
            Terminal::LessEqual => true,
            Terminal::Less => true,
            Terminal::GreaterEqual => true,
            Terminal::Greater => true,
            _ => false,
        }
    }

    pub fn at_sum_operator(&self) -> bool
        ensures { result ≡ has alphabet (firsts n.sum_operator) (next alphabet self.now) }
    {
        match self.peek() {
            Terminal::Plus => true,
            Terminal::Minus => true,
            _ => false,
        }
    }

    pub fn at_prod_operator(&self) -> bool
        ensures { result ≡ has alphabet (firsts n.prod_operator) (next alphabet self.now) }
    {
        match self.peek() {
            Terminal::Star => true,
            Terminal::Slash => true,
            Terminal::Percent => true,
            _ => false,
        }
    }

    #[tactic(auto, using(fst_syntax::proofs::Opens::opens))]
    pub fn comparison(&mut self) -> Result<Comparison, Stop>
        ensures reads { Reads (reads n.comparison self.old) result self.new }
        ensures shorter { OnOk result (length self.new < length self.old) }
    {
        match self.peek() {
            Terminal::Equal => {
                let at = self.expect(Terminal::Equal)?;
                Ok(Comparison {
                    relation: Relation::Equal,
                    at,
                })
            }
            Terminal::NotEqual => {
                let at = self.expect(Terminal::NotEqual)?;
                Ok(Comparison {
                    relation: Relation::NotEqual,
                    at,
                })
            }
            Terminal::LessEqual => {
                let at = self.expect(Terminal::LessEqual)?;
                Ok(Comparison {
                    relation: Relation::LessEqual,
                    at,
                })
            }
            Terminal::Less => {
                let at = self.expect(Terminal::Less)?;
                Ok(Comparison {
                    relation: Relation::Less,
                    at,
                })
            }
            Terminal::GreaterEqual => {
                let at = self.expect(Terminal::GreaterEqual)?;
                Ok(Comparison {
                    relation: Relation::GreaterEqual,
                    at,
                })
            }
            _ => {
                let at = self.expect(Terminal::Greater)?;
                Ok(Comparison {
                    relation: Relation::Greater,
                    at,
                })
            }
        }
    }

    #[tactic(auto, using(fst_syntax::proofs::Opens::opens))]
    pub fn sum_operator(&mut self) -> Result<Operator, Stop>
        ensures reads { Reads (reads n.sum_operator self.old) result self.new }
        ensures shorter { OnOk result (length self.new < length self.old) }
    {
        match self.peek() {
            Terminal::Plus => {
                let at = self.expect(Terminal::Plus)?;
                Ok(Operator { op: Op::Add, at })
            }
            _ => {
                let at = self.expect(Terminal::Minus)?;
                Ok(Operator { op: Op::Sub, at })
            }
        }
    }

    #[tactic(auto, using(fst_syntax::proofs::Opens::opens))]
    pub fn prod_operator(&mut self) -> Result<Operator, Stop>
        ensures reads { Reads (reads n.prod_operator self.old) result self.new }
        ensures shorter { OnOk result (length self.new < length self.old) }
    {
        match self.peek() {
            Terminal::Star => {
                let at = self.expect(Terminal::Star)?;
                Ok(Operator { op: Op::Mul, at })
            }
            Terminal::Slash => {
                let at = self.expect(Terminal::Slash)?;
                Ok(Operator { op: Op::Div, at })
            }
            _ => {
                let at = self.expect(Terminal::Percent)?;
                Ok(Operator { op: Op::Rem, at })
            }
        }
    }

    #[tactic(auto, using(fst_syntax::proofs::Opens::opens))]
    pub fn prefix_operator(&mut self) -> Result<Operator, Stop>
        ensures reads { Reads (reads n.prefix_operator self.old) result self.new }
        ensures shorter { OnOk result (length self.new < length self.old) }
    {
        match self.peek() {
            Terminal::Fst => {
                let at = self.expect(Terminal::Fst)?;
                Ok(Operator { op: Op::Fst, at })
            }
            Terminal::Snd => {
                let at = self.expect(Terminal::Snd)?;
                Ok(Operator { op: Op::Snd, at })
            }
            Terminal::Some => {
                let at = self.expect(Terminal::Some)?;
                Ok(Operator { op: Op::Just, at })
            }
            Terminal::Inl => {
                let at = self.expect(Terminal::Inl)?;
                Ok(Operator { op: Op::Inl, at })
            }
            Terminal::Inr => {
                let at = self.expect(Terminal::Inr)?;
                Ok(Operator { op: Op::Inr, at })
            }
            _ => {
                let at = self.expect(Terminal::Len)?;
                Ok(Operator { op: Op::Len, at })
            }
        }
    }
}
