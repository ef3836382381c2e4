//! Atoms of terms and formulas, and what stands in parentheses.

ghost use Rattle.std.specs.Prelude.{◌≡◌, ◌<◌, ◌≤◌, true, IsTrue, length, OnOk};
ghost use Rattle.fst_syntax.specs.Productions as n;
ghost use Rattle.fst_syntax.specs.Reading.{Reads, reads, run, placed, closed};
ghost use Rattle.fst_syntax.specs.Arms as arms;
ghost use Rattle.fst_syntax.specs.Tails as tails;
ghost use Rattle.fst_syntax.specs.Nests.{Nests};

use crate::make;
use crate::reader::Reader;
use crate::terms::Terms;
use fst_base::{Box, Op, Pos, both};
use fst_syntax::{Stop, Terminal};
use fst_trees::{Form, Word};

impl<F: Fn(bool, &mut Reader<'_>, usize) -> Result<Form<Word>, Stop>> Terms<F> {
    #[tactic(auto, using(fst_syntax::proofs::Opens::opens))]
    pub fn plain(&self, reader: &mut Reader<'_>) -> Result<Form<Word>, Stop>
        requires nests { Nests self.now.formula self.now.room (F.pre self.now.term) (F.post self.now.term) }
        requires room { length reader.old ≤ self.now.room }
        ensures reads { Reads (reads (n.plain self.now.formula) reader.old) result reader.new }
        ensures shorter { OnOk result (length reader.new < length reader.old) }
    {
        if self.formula {
            let tree = self.plain_of_formula(reader)?;
            Ok(tree)
        } else {
            let tree = self.atom(reader)?;
            Ok(tree)
        }
    }

    #[tactic(auto, using(fst_syntax::proofs::Opens::opens))]
    fn plain_of_formula(&self, reader: &mut Reader<'_>) -> Result<Form<Word>, Stop>
        requires nests { Nests self.now.formula self.now.room (F.pre self.now.term) (F.post self.now.term) }
        requires room { length reader.old ≤ self.now.room }
        requires formula { IsTrue self.now.formula }
        ensures reads { Reads (reads (n.plain true) reader.old) result reader.new }
        ensures shorter { OnOk result (length reader.new < length reader.old) }
    {
        match reader.peek() {
            Terminal::Result => reserved(reader, Terminal::Result, "result"),
            Terminal::Input => reserved(reader, Terminal::Input, "input"),
            _ => {
                let tree = self.atom(reader)?;
                Ok(tree)
            }
        }
    }

    #[tactic(auto, using(fst_syntax::proofs::Opens::opens))]
    pub fn atom(&self, reader: &mut Reader<'_>) -> Result<Form<Word>, Stop>
        requires nests { Nests self.now.formula self.now.room (F.pre self.now.term) (F.post self.now.term) }
        requires room { length reader.old ≤ self.now.room }
        ensures reads { Reads (reads (n.atom self.now.formula) reader.old) result reader.new }
        ensures shorter { OnOk result (length reader.new < length reader.old) }
    {
        match reader.peek() {
            Terminal::True => {
                let at = reader.expect(Terminal::True)?;
                Ok(make::truth(true, at))
            }
            Terminal::False => {
                let at = reader.expect(Terminal::False)?;
                Ok(make::truth(false, at))
            }
            Terminal::None => {
                let at = reader.expect(Terminal::None)?;
                Ok(make::nullary(reader.alloc(), Op::Nothing, at))
            }
            Terminal::LeftParen => self.parenthesized(reader),
            _ => self.bracketed(reader),
        }
    }

    fn parenthesized(&self, reader: &mut Reader<'_>) -> Result<Form<Word>, Stop>
        requires nests { Nests self.now.formula self.now.room (F.pre self.now.term) (F.post self.now.term) }
        requires room { length reader.old ≤ self.now.room }
        ensures reads { Reads (run (arms.parenthesized self.now.formula) reader.old) result reader.new }
        ensures shorter { OnOk result (length reader.new < length reader.old) }
    {
        let at = reader.expect(Terminal::LeftParen)?;
        let tree = self.inner(reader, at)?;
        Ok(tree)
    }

    fn bracketed(&self, reader: &mut Reader<'_>) -> Result<Form<Word>, Stop>
        requires nests { Nests self.now.formula self.now.room (F.pre self.now.term) (F.post self.now.term) }
        requires room { length reader.old ≤ self.now.room }
        ensures reads { Reads (run (arms.bracketed self.now.formula) reader.old) result reader.new }
        ensures shorter { OnOk result (length reader.new < length reader.old) }
    {
        let at = reader.expect(Terminal::LeftBracket)?;
        let items = self.items(reader)?;
        Ok(make::listed(reader.alloc(), at, items)?)
    }

    /// What follows a parenthesis, which stands at this place.
    #[tactic(auto, using(fst_syntax::proofs::Opens::opens))]
    pub fn inner(&self, reader: &mut Reader<'_>, at: Pos) -> Result<Form<Word>, Stop>
        requires nests { Nests self.now.formula self.now.room (F.pre self.now.term) (F.post self.now.term) }
        requires room { length reader.old < self.now.room }
        ensures reads { Reads (placed at (reads (n.inner self.now.formula) reader.old)) result reader.new }
        ensures shorter { OnOk result (length reader.new < length reader.old) }
    {
        if self.formula {
            let tree = self.inner_of_formula(reader, at)?;
            Ok(tree)
        } else {
            let tree = self.enclosed(reader, at)?;
            Ok(tree)
        }
    }

    #[tactic(auto, using(fst_syntax::proofs::Enclosed::inner_opens))]
    fn inner_of_formula(&self, reader: &mut Reader<'_>, at: Pos) -> Result<Form<Word>, Stop>
        requires nests { Nests self.now.formula self.now.room (F.pre self.now.term) (F.post self.now.term) }
        requires room { length reader.old < self.now.room }
        requires formula { IsTrue self.now.formula }
        ensures reads { Reads (placed at (reads (n.inner true) reader.old)) result reader.new }
        ensures shorter { OnOk result (length reader.new < length reader.old) }
    {
        match reader.peek() {
            Terminal::Let => {
                let tree = self.let_in(reader)?;
                Ok(tree)
            }
            _ => {
                let tree = self.enclosed(reader, at)?;
                Ok(tree)
            }
        }
    }

    #[tactic(auto, using(fst_syntax::proofs::Opens::opens))]
    fn let_in(&self, reader: &mut Reader<'_>) -> Result<Form<Word>, Stop>
        requires nests { Nests self.now.formula self.now.room (F.pre self.now.term) (F.post self.now.term) }
        requires room { length reader.old < self.now.room }
        requires formula { IsTrue self.now.formula }
        ensures reads { Reads (reads n.let_in reader.old) result reader.new }
        ensures shorter { OnOk result (length reader.new < length reader.old) }
    {
        let at = reader.expect(Terminal::Let)?;
        let name = reader.binder()?;
        let (name, (bound, rest)) = both(name, self.bound_in(reader))?;
        Ok(make::let_in(at, name, bound, rest))
    }

    /// What a name is bound to, and the formula that it is seen in.
    fn bound_in(&self, reader: &mut Reader<'_>) -> Result<(Box<Form<Word>>, Box<Form<Word>>), Stop>
        requires nests { Nests self.now.formula self.now.room (F.pre self.now.term) (F.post self.now.term) }
        requires room { length reader.old < self.now.room }
        requires formula { IsTrue self.now.formula }
        ensures reads { Reads (run tails.bound_in reader.old) result reader.new }
        ensures shorter { OnOk result (length reader.new < length reader.old) }
    {
        reader.expect(Terminal::Equal)?;
        let bound = self.boxed(reader)?;
        reader.expect(Terminal::In)?;
        let rest = self.boxed(reader)?;
        reader.expect(Terminal::RightParen)?;
        Ok((bound, rest))
    }

    #[tactic(auto, using(fst_syntax::proofs::Enclosed::enclosed_opens))]
    fn enclosed(&self, reader: &mut Reader<'_>, at: Pos) -> Result<Form<Word>, Stop>
        requires nests { Nests self.now.formula self.now.room (F.pre self.now.term) (F.post self.now.term) }
        requires room { length reader.old < self.now.room }
        ensures reads { Reads (placed at (reads (n.enclosed self.now.formula) reader.old)) result reader.new }
        ensures shorter { OnOk result (length reader.new < length reader.old) }
    {
        match reader.peek() {
            Terminal::RightParen => {
                reader.expect(Terminal::RightParen)?;
                Ok(make::unit(at))
            }
            Terminal::If => {
                let tree = self.choice(reader)?;
                Ok(tree)
            }
            _ => {
                let first = self.nested(reader)?;
                let tree = self.inner_more(reader, first, at)?;
                Ok(tree)
            }
        }
    }

    #[tactic(auto, using(fst_syntax::proofs::Opens::opens))]
    fn choice(&self, reader: &mut Reader<'_>) -> Result<Form<Word>, Stop>
        requires nests { Nests self.now.formula self.now.room (F.pre self.now.term) (F.post self.now.term) }
        requires room { length reader.old < self.now.room }
        ensures reads { Reads (reads (n.choice self.now.formula) reader.old) result reader.new }
        ensures shorter { OnOk result (length reader.new < length reader.old) }
    {
        let at = reader.expect(Terminal::If)?;
        let condition = self.boxed(reader)?;
        let (condition, (yes, no)) = both(condition, self.choices(reader))?;
        Ok(make::if_then_else(at, condition, yes, no))
    }

    /// The two terms behind a condition.
    fn choices(&self, reader: &mut Reader<'_>) -> Result<(Box<Form<Word>>, Box<Form<Word>>), Stop>
        requires nests { Nests self.now.formula self.now.room (F.pre self.now.term) (F.post self.now.term) }
        requires room { length reader.old < self.now.room }
        ensures reads { Reads (run (tails.choices self.now.formula) reader.old) result reader.new }
        ensures shorter { OnOk result (length reader.new < length reader.old) }
    {
        reader.expect(Terminal::Then)?;
        let yes = self.boxed(reader)?;
        reader.expect(Terminal::Else)?;
        let no = self.boxed(reader)?;
        reader.expect(Terminal::RightParen)?;
        Ok((yes, no))
    }

    #[tactic(auto, using(fst_syntax::proofs::Opens::opens))]
    fn inner_more(
        &self,
        reader: &mut Reader<'_>,
        first: Form<Word>,
        at: Pos,
    ) -> Result<Form<Word>, Stop>
        requires nests { Nests self.now.formula self.now.room (F.pre self.now.term) (F.post self.now.term) }
        requires room { length reader.old < self.now.room }
        ensures reads { Reads (closed first at (reads (n.inner_more self.now.formula) reader.old)) result reader.new }
        ensures shorter { OnOk result (length reader.new < length reader.old) }
    {
        match reader.peek() {
            Terminal::RightParen => {
                let (first, _) = both(first, reader.expect(Terminal::RightParen))?;
                Ok(first)
            }
            _ => {
                let (first, second) = both(first, self.second(reader))?;
                Ok(make::binary(reader.alloc(), Op::Pair, at, first, second)?)
            }
        }
    }

    /// What follows the first term of a pair.
    fn second(&self, reader: &mut Reader<'_>) -> Result<Form<Word>, Stop>
        requires nests { Nests self.now.formula self.now.room (F.pre self.now.term) (F.post self.now.term) }
        requires room { length reader.old < self.now.room }
        ensures reads { Reads (run (tails.second self.now.formula) reader.old) result reader.new }
        ensures shorter { OnOk result (length reader.new < length reader.old) }
    {
        reader.expect(Terminal::Comma)?;
        let second = self.nested(reader)?;
        let (second, _) = both(second, reader.expect(Terminal::RightParen))?;
        Ok(second)
    }
}

/// A reserved word that is used as a name.
fn reserved(reader: &mut Reader<'_>, terminal: Terminal, text: &str) -> Result<Form<Word>, Stop>
    ensures reads { Reads (run (arms.reserved terminal text.now) reader.old) result reader.new }
    ensures shorter { OnOk result (length reader.new < length reader.old) }
{
    let at = reader.expect(terminal)?;
    Ok(make::ident(make::the_word(reader.alloc(), text, at)?))
}
