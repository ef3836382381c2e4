//! Terms, formulas and their parts where no room is given.

ghost use Rattle.std.specs.Prelude.{◌≡◌, ◌<◌, ◌≤◌, length, true, false, OnOk};
ghost use Rattle.fst_grammar.specs.Alphabet.{next, has};
ghost use Rattle.fst_syntax.specs.Tokens.{alphabet};
ghost use Rattle.fst_syntax.specs.Productions as n;
ghost use Rattle.fst_syntax.specs.Tables.{operators};
ghost use Rattle.fst_syntax.specs.Reading.{Reads, reads, given};
ghost use Rattle.fst_syntax.specs.Trees as t;

use crate::make;
use crate::reader::Reader;
use crate::terms::{Terms, term};
use fst_base::Seq;
use fst_syntax::{Stop, Terminal};
use fst_trees::{Form, SortTree, Word};

impl<'a> Reader<'a> {
    pub fn term(&mut self) -> Result<Form<Word>, Stop>
        ensures reads { Reads (reads (n.term false) self.old) result self.new }
        ensures shorter { OnOk result (length self.new < length self.old) }
    {
        let room = self.room();
        term(false, self, room)
    }

    /// A formula.
    pub fn form(&mut self) -> Result<Form<Word>, Stop>
        ensures reads { Reads (reads (n.term true) self.old) result self.new }
        ensures shorter { OnOk result (length self.new < length self.old) }
    {
        let room = self.room();
        term(true, self, room)
    }

    #[tactic(auto, using(fst_syntax::proofs::Opens::opens))]
    pub fn annotation(&mut self) -> Result<Option<SortTree<Word>>, Stop>
        ensures reads { Reads (reads n.annotation self.old) result self.new }
        ensures no_longer { OnOk result (length self.new ≤ length self.old) }
    {
        match self.peek() {
            Terminal::Colon => {
                self.expect(Terminal::Colon)?;
                let sort = self.sort()?;
                Ok(Some(sort))
            }
            _ => Ok(None),
        }
    }

    /// A term that begins with no name.
    #[tactic(auto, using(fst_syntax::proofs::Behind::operation_opens))]
    pub fn operation(&mut self) -> Result<Form<Word>, Stop>
        ensures reads { Reads (reads n.operation self.old) result self.new }
        ensures shorter { OnOk result (length self.new < length self.old) }
    {
        let terms = Terms {
            formula: false,
            room: self.room(),
            term,
        };
        let first = terms.other(self)?;
        let tree = self.rest(first)?;
        Ok(tree)
    }

    /// The term whose first operand is read.
    #[tactic(auto, using(fst_syntax::proofs::Behind::rest_opens))]
    fn rest(&mut self, first: Form<Word>) -> Result<Form<Word>, Stop>
        ensures reads { Reads (given first (reads n.rest self.old)) result self.new }
        ensures no_longer { OnOk result (length self.new ≤ length self.old) }
    {
        let terms = Terms {
            formula: false,
            room: self.room(),
            term,
        };
        terms.behind(self, first)
    }

    /// Whether an operator comes next.
    pub fn at_operator(&self) -> bool
        ensures { result ≡ has alphabet operators (next alphabet self.now) }
    {
        match self.peek() {
            Terminal::Star
            | Terminal::Slash
            | Terminal::Percent
            | Terminal::Plus
            | Terminal::Minus
            | Terminal::ColonColon
            | Terminal::Equal
            | Terminal::NotEqual
            | Terminal::LessEqual
            | Terminal::Less
            | Terminal::GreaterEqual
            | Terminal::Greater
            | Terminal::AmpAmp
            | Terminal::BarBar
            | Terminal::Implies => true,
            _ => false,
        }
    }

    /// The term whose first operand is this name.
    pub fn term_of_name(&mut self, name: Word) -> Result<Form<Word>, Stop>
        ensures reads { Reads (given (t.ident name) (reads n.rest self.old)) result self.new }
        ensures no_longer { OnOk result (length self.new ≤ length self.old) }
    {
        self.rest(make::ident(name))
    }

    /// What follows the parenthesis of a call.
    pub fn arguments(&mut self) -> Result<Seq<Form<Word>>, Stop>
        ensures reads { Reads (reads (n.args false) self.old) result self.new }
        ensures shorter { OnOk result (length self.new < length self.old) }
    {
        let terms = Terms {
            formula: false,
            room: self.room(),
            term,
        };
        terms.args(self)
    }
}
