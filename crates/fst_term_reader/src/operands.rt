//! Operands of terms and formulas.

ghost use Rattle.std.specs.Prelude.{◌≡◌, ◌<◌, ◌≤◌, true, IsTrue, [], ◌∷◌, length, OnOk};
ghost use Rattle.fst_syntax.specs.Productions as n;
ghost use Rattle.fst_syntax.specs.Reading.{Reads, reads, placed, behind};
ghost use Rattle.fst_syntax.specs.Nests.{Nests};

use crate::make;
use crate::reader::Reader;
use crate::terms::Terms;
use fst_base::{Op, Pos, Seq, both};
use fst_syntax::{Separator, Stop, Terminal};
use fst_trees::{Form, Word};

impl<F: Fn(bool, &mut Reader<'_>, usize) -> Result<Form<Word>, Stop>> Terms<F> {
    #[cycle(un)]
    #[tactic(auto, using(fst_syntax::proofs::Opens::opens))]
    pub fn un(&self, reader: &mut Reader<'_>) -> Result<Form<Word>, Stop>
        requires nests { Nests self.now.formula self.now.room (F.pre self.now.term) (F.post self.now.term) }
        requires room { length reader.old ≤ self.now.room }
        ensures reads { Reads (reads (n.un self.now.formula) reader.old) result reader.new }
        ensures shorter { OnOk result (length reader.new < length reader.old) }
    {
        match reader.peek() {
            Terminal::Name => {
                let tree = self.named(reader)?;
                Ok(tree)
            }
            _ => {
                let tree = self.other(reader)?;
                Ok(tree)
            }
        }
    }

    /// An operand that begins with no name.
    #[cycle(un)]
    #[tactic(auto, using(fst_syntax::proofs::Opens::opens))]
    pub fn other(&self, reader: &mut Reader<'_>) -> Result<Form<Word>, Stop>
        requires nests { Nests self.now.formula self.now.room (F.pre self.now.term) (F.post self.now.term) }
        requires room { length reader.old ≤ self.now.room }
        ensures reads { Reads (reads (n.other self.now.formula) reader.old) result reader.new }
        ensures shorter { OnOk result (length reader.new < length reader.old) }
    {
        match reader.peek() {
            Terminal::Minus => {
                let at = reader.expect(Terminal::Minus)?;
                let tree = self.negated(reader, at)?;
                Ok(tree)
            }
            Terminal::Not => {
                let at = reader.expect(Terminal::Not)?;
                let operand = self.un(reader)?;
                Ok(make::negation(reader.alloc(), at, operand)?)
            }
            Terminal::Small => {
                let digits = reader.number()?;
                Ok(make::literal(digits))
            }
            Terminal::Number => {
                let digits = reader.number()?;
                Ok(make::literal(digits))
            }
            Terminal::Fst
            | Terminal::Snd
            | Terminal::Some
            | Terminal::Inl
            | Terminal::Inr
            | Terminal::Len => {
                let tree = self.prefix(reader)?;
                Ok(tree)
            }
            _ => {
                let tree = self.plain(reader)?;
                Ok(tree)
            }
        }
    }

    /// What follows a minus, which stands at this place.
    #[cycle(un)]
    #[tactic(auto, using(fst_syntax::proofs::Enclosed::negated_opens))]
    fn negated(&self, reader: &mut Reader<'_>, at: Pos) -> Result<Form<Word>, Stop>
        requires nests { Nests self.now.formula self.now.room (F.pre self.now.term) (F.post self.now.term) }
        requires room { length reader.old ≤ self.now.room }
        ensures reads { Reads (placed at (reads (n.negated self.now.formula) reader.old)) result reader.new }
        ensures shorter { OnOk result (length reader.new < length reader.old) }
    {
        match reader.peek() {
            Terminal::Small => {
                let digits = reader.number()?;
                Ok(make::negative(at, digits.magnitude))
            }
            Terminal::Number => {
                let digits = reader.number()?;
                Ok(make::negative(at, digits.magnitude))
            }
            Terminal::Minus => {
                let inner = reader.expect(Terminal::Minus)?;
                let operand = self.negated(reader, inner)?;
                Ok(make::unary(reader.alloc(), Op::Neg, at, operand)?)
            }
            Terminal::Not => {
                let inner = reader.expect(Terminal::Not)?;
                let operand = self.un(reader)?;
                let operand = make::negation(reader.alloc(), inner, operand)?;
                Ok(make::unary(reader.alloc(), Op::Neg, at, operand)?)
            }
            _ => {
                let operand = self.solid(reader)?;
                Ok(make::unary(reader.alloc(), Op::Neg, at, operand)?)
            }
        }
    }

    #[cycle(app)]
    #[tactic(auto, using(fst_syntax::proofs::Opens::opens))]
    fn app(&self, reader: &mut Reader<'_>) -> Result<Form<Word>, Stop>
        requires nests { Nests self.now.formula self.now.room (F.pre self.now.term) (F.post self.now.term) }
        requires room { length reader.old ≤ self.now.room }
        ensures reads { Reads (reads (n.app self.now.formula) reader.old) result reader.new }
        ensures shorter { OnOk result (length reader.new < length reader.old) }
    {
        match reader.peek() {
            Terminal::Minus => {
                let at = reader.expect(Terminal::Minus)?;
                let digits = reader.number()?;
                Ok(make::negative(at, digits.magnitude))
            }
            Terminal::Small => {
                let digits = reader.number()?;
                Ok(make::literal(digits))
            }
            Terminal::Number => {
                let digits = reader.number()?;
                Ok(make::literal(digits))
            }
            _ => {
                let tree = self.solid(reader)?;
                Ok(tree)
            }
        }
    }

    #[cycle(app)]
    #[tactic(auto, using(fst_syntax::proofs::Opens::opens))]
    fn solid(&self, reader: &mut Reader<'_>) -> Result<Form<Word>, Stop>
        requires nests { Nests self.now.formula self.now.room (F.pre self.now.term) (F.post self.now.term) }
        requires room { length reader.old ≤ self.now.room }
        ensures reads { Reads (reads (n.solid self.now.formula) reader.old) result reader.new }
        ensures shorter { OnOk result (length reader.new < length reader.old) }
    {
        match reader.peek() {
            Terminal::Name => {
                let tree = self.named(reader)?;
                Ok(tree)
            }
            Terminal::Fst
            | Terminal::Snd
            | Terminal::Some
            | Terminal::Inl
            | Terminal::Inr
            | Terminal::Len => {
                let tree = self.prefix(reader)?;
                Ok(tree)
            }
            _ => {
                let tree = self.plain(reader)?;
                Ok(tree)
            }
        }
    }

    #[cycle(app)]
    #[tactic(auto, using(fst_syntax::proofs::Opens::opens))]
    fn prefix(&self, reader: &mut Reader<'_>) -> Result<Form<Word>, Stop>
        requires nests { Nests self.now.formula self.now.room (F.pre self.now.term) (F.post self.now.term) }
        requires room { length reader.old ≤ self.now.room }
        ensures reads { Reads (reads (n.prefix self.now.formula) reader.old) result reader.new }
        ensures shorter { OnOk result (length reader.new < length reader.old) }
    {
        let operator = reader.prefix_operator()?;
        let operand = self.app(reader)?;
        Ok(make::unary(reader.alloc(), operator.op, operator.at, operand)?)
    }

    #[tactic(auto, using(fst_syntax::proofs::Opens::opens))]
    fn named(&self, reader: &mut Reader<'_>) -> Result<Form<Word>, Stop>
        requires nests { Nests self.now.formula self.now.room (F.pre self.now.term) (F.post self.now.term) }
        requires room { length reader.old ≤ self.now.room }
        ensures reads { Reads (reads (n.named self.now.formula) reader.old) result reader.new }
        ensures shorter { OnOk result (length reader.new < length reader.old) }
    {
        if self.formula {
            let tree = self.named_of_formula(reader)?;
            Ok(tree)
        } else {
            let name = reader.name()?;
            Ok(make::ident(name))
        }
    }

    #[tactic(auto, using(fst_syntax::proofs::Opens::opens))]
    fn named_of_formula(&self, reader: &mut Reader<'_>) -> Result<Form<Word>, Stop>
        requires nests { Nests self.now.formula self.now.room (F.pre self.now.term) (F.post self.now.term) }
        requires room { length reader.old ≤ self.now.room }
        requires formula { IsTrue self.now.formula }
        ensures reads { Reads (reads (n.named true) reader.old) result reader.new }
        ensures shorter { OnOk result (length reader.new < length reader.old) }
    {
        let name = reader.name()?;
        let args = self.application(reader)?;
        Ok(make::applied_to(name, args))
    }

    #[tactic(auto, using(fst_syntax::proofs::Opens::opens))]
    fn application(&self, reader: &mut Reader<'_>) -> Result<Option<Seq<Form<Word>>>, Stop>
        requires nests { Nests self.now.formula self.now.room (F.pre self.now.term) (F.post self.now.term) }
        requires room { length reader.old ≤ self.now.room }
        ensures reads { Reads (reads (n.application self.now.formula) reader.old) result reader.new }
        ensures no_longer { OnOk result (length reader.new ≤ length reader.old) }
    {
        match reader.peek() {
            Terminal::LeftParen => {
                reader.expect(Terminal::LeftParen)?;
                let args = self.args(reader)?;
                Ok(Some(args))
            }
            _ => Ok(None),
        }
    }

    /// What follows the parenthesis of a call.
    #[tactic(auto, using(fst_syntax::proofs::Enclosed::args_opens))]
    pub fn args(&self, reader: &mut Reader<'_>) -> Result<Seq<Form<Word>>, Stop>
        requires nests { Nests self.now.formula self.now.room (F.pre self.now.term) (F.post self.now.term) }
        requires room { length reader.old < self.now.room }
        ensures reads { Reads (reads (n.args self.now.formula) reader.old) result reader.new }
        ensures shorter { OnOk result (length reader.new < length reader.old) }
    {
        match reader.peek() {
            Terminal::RightParen => {
                reader.expect(Terminal::RightParen)?;
                Ok(Seq::new(reader.alloc()))
            }
            _ => {
                let first = self.nested(reader)?;
                let args = self.terms_more(reader, Separator::Comma, first)?;
                let (args, _) = both(args, reader.expect(Terminal::RightParen))?;
                Ok(args)
            }
        }
    }

    /// What follows a bracket.
    #[tactic(auto, using(fst_syntax::proofs::Enclosed::items_opens))]
    pub fn items(&self, reader: &mut Reader<'_>) -> Result<Seq<Form<Word>>, Stop>
        requires nests { Nests self.now.formula self.now.room (F.pre self.now.term) (F.post self.now.term) }
        requires room { length reader.old < self.now.room }
        ensures reads { Reads (reads (n.items self.now.formula) reader.old) result reader.new }
        ensures shorter { OnOk result (length reader.new < length reader.old) }
    {
        match reader.peek() {
            Terminal::RightBracket => {
                reader.expect(Terminal::RightBracket)?;
                Ok(Seq::new(reader.alloc()))
            }
            _ => {
                let first = self.nested(reader)?;
                let items = self.terms_more(reader, Separator::Semicolon, first)?;
                let (items, _) = both(items, reader.expect(Terminal::RightBracket))?;
                Ok(items)
            }
        }
    }

    /// The terms behind a first one, with that one.
    fn terms_more(
        &self,
        reader: &mut Reader<'_>,
        separator: Separator,
        first: Form<Word>,
    ) -> Result<Seq<Form<Word>>, Stop>
        requires nests { Nests self.now.formula self.now.room (F.pre self.now.term) (F.post self.now.term) }
        requires room { length reader.old ≤ self.now.room }
        ensures reads { Reads (behind (first ∷ []) (reads (n.terms_more separator self.now.formula) reader.old)) result reader.new }
        ensures no_longer { OnOk result (length reader.new ≤ length reader.old) }
    {
        let mut terms = Seq::new(reader.alloc());
        terms.push(first)?;
        let mark = separator.terminal();
        while reader.at(mark) {
            reader.expect(mark)?;
            let term = self.nested(reader)?;
            terms.push(term)?;
        }
        Ok(terms)
    }
}
