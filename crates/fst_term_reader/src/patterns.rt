//! Patterns.

ghost use Rattle.std.specs.Prelude.{◌≡◌, ◌<◌, [], ◌∷◌, length, IfOk, OnOk};
ghost use Rattle.fst_syntax.specs.Productions as n;
ghost use Rattle.fst_syntax.specs.Reading.{Reads, reads, run};
ghost use Rattle.fst_syntax.specs.Arms as arms;

use crate::reader::Reader;
use fst_base::{OutOfMemory, Pos, Seq, both, one, two};
use fst_syntax::{Pattern, Stop, Terminal};
use fst_trees::{ConWord, Word};
use std::alloc::Global;

impl<'a> Reader<'a> {
    #[tactic(auto, using(fst_syntax::proofs::Opens::opens))]
    pub fn pattern(&mut self) -> Result<Pattern, Stop>
        ensures reads { Reads (reads n.pattern self.old) result self.new }
        ensures shorter { OnOk result (length self.new < length self.old) }
    {
        match self.peek() {
            Terminal::True => self.bare(Terminal::True, ConWord::True),
            Terminal::False => self.bare(Terminal::False, ConWord::False),
            Terminal::None => self.bare(Terminal::None, ConWord::Empty),
            Terminal::Some => self.of_one(Terminal::Some, ConWord::Full),
            Terminal::LeftBracket => self.of_none(),
            Terminal::Name | Terminal::Hole => self.of_cons(),
            Terminal::Inl => self.of_one(Terminal::Inl, ConWord::Left),
            Terminal::Inr => self.of_one(Terminal::Inr, ConWord::Right),
            _ => self.of_pair(),
        }
    }

    /// A constructor's word with no name.
    fn bare(&mut self, terminal: Terminal, con: ConWord) -> Result<Pattern, Stop>
        ensures reads { Reads (run (arms.bare terminal con) self.old) result self.new }
        ensures shorter { OnOk result (length self.new < length self.old) }
    {
        let at = self.expect(terminal)?;
        Ok(of_none(self.alloc(), at, con))
    }

    /// A constructor's word with one name.
    fn of_one(&mut self, terminal: Terminal, con: ConWord) -> Result<Pattern, Stop>
        ensures reads { Reads (run (arms.of_one terminal con) self.old) result self.new }
        ensures shorter { OnOk result (length self.new < length self.old) }
    {
        let at = self.expect(terminal)?;
        let name = self.binder()?;
        Ok(of_one(self.alloc(), at, con, name)?)
    }

    fn of_none(&mut self) -> Result<Pattern, Stop>
        ensures reads { Reads (run arms.of_none self.old) result self.new }
        ensures shorter { OnOk result (length self.new < length self.old) }
    {
        let at = self.expect(Terminal::LeftBracket)?;
        self.expect(Terminal::RightBracket)?;
        Ok(of_none(self.alloc(), at, ConWord::Nil))
    }

    fn of_cons(&mut self) -> Result<Pattern, Stop>
        ensures reads { Reads (run arms.of_cons self.old) result self.new }
        ensures shorter { OnOk result (length self.new < length self.old) }
    {
        let head = self.binder()?;
        let (head, _) = both(head, self.expect(Terminal::ColonColon))?;
        let (head, rest) = both(head, self.binder())?;
        Ok(of_two(self.alloc(), head.at, ConWord::Cons, head, rest)?)
    }

    fn of_pair(&mut self) -> Result<Pattern, Stop>
        ensures reads { Reads (run arms.of_pair self.old) result self.new }
        ensures shorter { OnOk result (length self.new < length self.old) }
    {
        let at = self.expect(Terminal::LeftParen)?;
        let first = self.binder()?;
        let (first, _) = both(first, self.expect(Terminal::Comma))?;
        let (first, second) = both(first, self.binder())?;
        let ((first, second), _) = both((first, second), self.expect(Terminal::RightParen))?;
        Ok(of_two(self.alloc(), at, ConWord::Pair, first, second)?)
    }
}

fn of_none(alloc: Global, at: Pos, con: ConWord) -> Pattern
    ensures { result ≡ record { at = at; con = con; names = [] } }
{
    Pattern {
        at,
        con,
        names: Seq::new(alloc),
    }
}

fn of_one(alloc: Global, at: Pos, con: ConWord, name: Word) -> Result<Pattern, OutOfMemory>
    ensures { IfOk result (λ p. p ≡ record { at = at; con = con; names = name ∷ [] }) }
{
    let names = one(alloc, name)?;
    Ok(Pattern { at, con, names })
}

fn of_two(
    alloc: Global,
    at: Pos,
    con: ConWord,
    first: Word,
    second: Word,
) -> Result<Pattern, OutOfMemory>
    ensures { IfOk result (λ p. p ≡ record { at = at; con = con; names = first ∷ second ∷ [] }) }
{
    let names = two(alloc, first, second)?;
    Ok(Pattern { at, con, names })
}
