//! The texts of returns, binds and lifts.

ghost use Rattle.std.specs.Prelude.{◌≡◌, ◌<◌, ◌≤◌, length, OnOk};
ghost use Rattle.fst_syntax.specs.Productions as n;
ghost use Rattle.fst_syntax.specs.Reading.{Reads, reads};
ghost use Rattle.fst_reader.specs.Texts.{Nests};
ghost use Rattle.fst_reader.specs.Kinds.{definitions};

use crate::parts::dm_named_part;
use crate::texts::{Text, Texts};
use fst_base::Box;
use fst_syntax::{Binding, Stop, Terminal};
use fst_term_reader::Reader;
use fst_trees::{DmTree, Word};

impl Text<Box<DmTree<Word>>> for DmTree<Word> {
    ghost kind = { definitions };
}

impl<
    F: Fn(&mut Reader<'_>, usize) -> Result<DmTree<Word>, Stop>,
    G: Fn(&mut Reader<'_>, usize) -> Result<Box<DmTree<Word>>, Stop>,
> Texts<F, G> {
    #[tactic(auto, using(fst_syntax::proofs::Opens::opens))]
    pub fn dm(&self, reader: &mut Reader<'_>) -> Result<DmTree<Word>, Stop>
        requires nests { Nests (reads n.dm) self.now.room (F.pre self.now.text) (F.post self.now.text) }
        requires parts { Nests (reads n.dmpart) self.now.room (G.pre self.now.part) (G.post self.now.part) }
        requires room { length reader.old ≤ self.now.room }
        ensures reads { Reads (reads n.dm reader.old) result reader.new }
        ensures shorter { OnOk result (length reader.new < length reader.old) }
    {
        match reader.peek() {
            Terminal::Let => {
                let text = self.dm_let(reader)?;
                Ok(text)
            }
            Terminal::If => {
                let text = self.dm_branching(reader)?;
                Ok(text)
            }
            Terminal::Match => {
                let text = self.dm_matching(reader)?;
                Ok(text)
            }
            _ => {
                let text = self.dm_part(reader)?;
                Ok(text)
            }
        }
    }

    #[tactic(auto, using(fst_syntax::proofs::Opens::opens))]
    fn dm_let(&self, reader: &mut Reader<'_>) -> Result<DmTree<Word>, Stop>
        requires nests { Nests (reads n.dm) self.now.room (F.pre self.now.text) (F.post self.now.text) }
        requires parts { Nests (reads n.dmpart) self.now.room (G.pre self.now.part) (G.post self.now.part) }
        requires room { length reader.old ≤ self.now.room }
        ensures reads { Reads (reads n.dm_let reader.old) result reader.new }
        ensures shorter { OnOk result (length reader.new < length reader.old) }
    {
        let (binding, rest) = self.let_in(reader)?;
        let Binding { name, sort, part } = binding;
        Ok(DmTree::Let(name, sort, part, rest))
    }

    #[tactic(auto, using(fst_syntax::proofs::Opens::opens))]
    fn dm_branching(&self, reader: &mut Reader<'_>) -> Result<DmTree<Word>, Stop>
        requires nests { Nests (reads n.dm) self.now.room (F.pre self.now.text) (F.post self.now.text) }
        requires room { length reader.old ≤ self.now.room }
        ensures reads { Reads (reads n.dm_branching reader.old) result reader.new }
        ensures shorter { OnOk result (length reader.new < length reader.old) }
    {
        let (condition, (yes, no)) = self.branches(reader)?;
        Ok(DmTree::If(condition, yes, no))
    }

    #[tactic(auto, using(fst_syntax::proofs::Opens::opens))]
    fn dm_matching(&self, reader: &mut Reader<'_>) -> Result<DmTree<Word>, Stop>
        requires nests { Nests (reads n.dm) self.now.room (F.pre self.now.text) (F.post self.now.text) }
        requires room { length reader.old ≤ self.now.room }
        ensures reads { Reads (reads n.dm_matching reader.old) result reader.new }
        ensures shorter { OnOk result (length reader.new < length reader.old) }
    {
        let (at, (scrutinee, arms)) = self.cases(reader)?;
        Ok(DmTree::Match(scrutinee, at, arms))
    }

    #[tactic(auto, using(fst_syntax::proofs::Opens::opens))]
    fn dm_part(&self, reader: &mut Reader<'_>) -> Result<DmTree<Word>, Stop>
        requires nests { Nests (reads n.dm) self.now.room (F.pre self.now.text) (F.post self.now.text) }
        requires room { length reader.old ≤ self.now.room }
        ensures reads { Reads (reads n.dmpart reader.old) result reader.new }
        ensures shorter { OnOk result (length reader.new < length reader.old) }
    {
        match reader.peek() {
            Terminal::LeftBrace => {
                let at = reader.expect(Terminal::LeftBrace)?;
                let text = self.boxed(reader)?;
                reader.expect(Terminal::RightBrace)?;
                Ok(DmTree::Block(at, text))
            }
            Terminal::Name => {
                let part = dm_named_part(reader)?;
                Ok(part)
            }
            _ => {
                let tree = reader.operation()?;
                Ok(DmTree::Term(tree))
            }
        }
    }
}

/// A definition's text, with more room than tokens.
#[cycle(dm)]
pub fn dm(reader: &mut Reader<'_>, room: usize) -> Result<DmTree<Word>, Stop>
    requires { length reader.old < room }
    ensures reads { Reads (reads n.dm reader.old) result reader.new }
    ensures shorter { OnOk result (length reader.new < length reader.old) }
{
    Texts {
        room: room - 1,
        text: dm,
        part: dm_part,
    }
    .dm(reader)
}

/// A part of a definition's text on the heap, with more room than tokens.
#[cycle(dm)]
pub fn dm_part(reader: &mut Reader<'_>, room: usize) -> Result<Box<DmTree<Word>>, Stop>
    requires { length reader.old < room }
    ensures reads { Reads (reads n.dmpart reader.old) result reader.new }
    ensures shorter { OnOk result (length reader.new < length reader.old) }
{
    let texts = Texts {
        room: room - 1,
        text: dm,
        part: dm_part,
    };
    let part = texts.dm_part(reader)?;
    Ok(Box::new(reader.alloc(), part)?)
}
