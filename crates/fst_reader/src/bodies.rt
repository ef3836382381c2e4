//! Bodies of functions and their parts.

ghost use Rattle.std.specs.Prelude.{◌≡◌, ◌<◌, ◌≤◌, length, OnOk};
ghost use Rattle.fst_syntax.specs.Productions as n;
ghost use Rattle.fst_syntax.specs.Reading.{Reads, reads, run};
ghost use Rattle.fst_syntax.specs.Tails as tails;
ghost use Rattle.fst_reader.specs.Texts.{Nests};
ghost use Rattle.fst_reader.specs.Kinds.{bodies};

use crate::parts::{named_part, reified, term_part};
use crate::texts::{Text, Texts};
use fst_base::{Box, both};
use fst_syntax::{Binding, Stop, Terminal};
use fst_term_reader::Reader;
use fst_trees::{BodyTree, PartNode, PartTree, Word};

impl Text<PartTree<Word>> for BodyTree<Word> {
    ghost kind = { bodies };
}

impl<
    F: Fn(&mut Reader<'_>, usize) -> Result<BodyTree<Word>, Stop>,
    G: Fn(&mut Reader<'_>, usize) -> Result<PartTree<Word>, Stop>,
> Texts<F, G> {
    #[tactic(auto, using(fst_syntax::proofs::Opens::opens))]
    pub fn body(&self, reader: &mut Reader<'_>) -> Result<BodyTree<Word>, Stop>
        requires nests { Nests (reads n.body) self.now.room (F.pre self.now.text) (F.post self.now.text) }
        requires parts { Nests (reads n.part) self.now.room (G.pre self.now.part) (G.post self.now.part) }
        requires room { length reader.old ≤ self.now.room }
        ensures reads { Reads (reads n.body reader.old) result reader.new }
        ensures shorter { OnOk result (length reader.new < length reader.old) }
    {
        match reader.peek() {
            Terminal::Ghost => {
                let body = self.ghost_let(reader)?;
                Ok(body)
            }
            Terminal::Let => {
                let body = self.plain_let(reader)?;
                Ok(body)
            }
            Terminal::Assert => {
                let body = self.assertion(reader)?;
                Ok(body)
            }
            Terminal::If => {
                let body = self.branching(reader)?;
                Ok(body)
            }
            Terminal::Match => {
                let body = self.matching(reader)?;
                Ok(body)
            }
            _ => {
                let part = self.body_part(reader)?;
                Ok(BodyTree::Part(part))
            }
        }
    }

    #[tactic(auto, using(fst_syntax::proofs::Opens::opens))]
    fn ghost_let(&self, reader: &mut Reader<'_>) -> Result<BodyTree<Word>, Stop>
        requires nests { Nests (reads n.body) self.now.room (F.pre self.now.text) (F.post self.now.text) }
        requires parts { Nests (reads n.part) self.now.room (G.pre self.now.part) (G.post self.now.part) }
        requires room { length reader.old ≤ self.now.room }
        ensures reads { Reads (reads n.ghost_let reader.old) result reader.new }
        ensures shorter { OnOk result (length reader.new < length reader.old) }
    {
        reader.expect(Terminal::Ghost)?;
        let (binding, rest) = self.let_in(reader)?;
        let Binding { name, sort, part } = binding;
        Ok(BodyTree::GhostLet(name, sort, part, rest))
    }

    #[tactic(auto, using(fst_syntax::proofs::Opens::opens))]
    fn plain_let(&self, reader: &mut Reader<'_>) -> Result<BodyTree<Word>, Stop>
        requires nests { Nests (reads n.body) self.now.room (F.pre self.now.text) (F.post self.now.text) }
        requires parts { Nests (reads n.part) self.now.room (G.pre self.now.part) (G.post self.now.part) }
        requires room { length reader.old ≤ self.now.room }
        ensures reads { Reads (reads n.plain_let reader.old) result reader.new }
        ensures shorter { OnOk result (length reader.new < length reader.old) }
    {
        let (binding, rest) = self.let_in(reader)?;
        let Binding { name, sort, part } = binding;
        Ok(BodyTree::Let(name, sort, part, rest))
    }

    #[tactic(auto, using(fst_syntax::proofs::Opens::opens))]
    fn assertion(&self, reader: &mut Reader<'_>) -> Result<BodyTree<Word>, Stop>
        requires nests { Nests (reads n.body) self.now.room (F.pre self.now.text) (F.post self.now.text) }
        requires room { length reader.old ≤ self.now.room }
        ensures reads { Reads (reads n.assertion reader.old) result reader.new }
        ensures shorter { OnOk result (length reader.new < length reader.old) }
    {
        let at = reader.expect(Terminal::Assert)?;
        let form = reader.form()?;
        let (form, rest) = both(form, self.asserted(reader))?;
        Ok(BodyTree::Assert(form, at, rest))
    }

    fn asserted(&self, reader: &mut Reader<'_>) -> Result<Box<BodyTree<Word>>, Stop>
        requires nests { Nests (reads n.body) self.now.room (F.pre self.now.text) (F.post self.now.text) }
        requires room { length reader.old ≤ self.now.room }
        ensures reads { Reads (run tails.asserted reader.old) result reader.new }
        ensures shorter { OnOk result (length reader.new < length reader.old) }
    {
        reader.expect(Terminal::Semicolon)?;
        let rest = self.boxed(reader)?;
        Ok(rest)
    }

    #[tactic(auto, using(fst_syntax::proofs::Opens::opens))]
    fn branching(&self, reader: &mut Reader<'_>) -> Result<BodyTree<Word>, Stop>
        requires nests { Nests (reads n.body) self.now.room (F.pre self.now.text) (F.post self.now.text) }
        requires room { length reader.old ≤ self.now.room }
        ensures reads { Reads (reads n.branching reader.old) result reader.new }
        ensures shorter { OnOk result (length reader.new < length reader.old) }
    {
        let (condition, (yes, no)) = self.branches(reader)?;
        Ok(BodyTree::If(condition, yes, no))
    }

    #[tactic(auto, using(fst_syntax::proofs::Opens::opens))]
    fn matching(&self, reader: &mut Reader<'_>) -> Result<BodyTree<Word>, Stop>
        requires nests { Nests (reads n.body) self.now.room (F.pre self.now.text) (F.post self.now.text) }
        requires room { length reader.old ≤ self.now.room }
        ensures reads { Reads (reads n.matching reader.old) result reader.new }
        ensures shorter { OnOk result (length reader.new < length reader.old) }
    {
        let (at, (scrutinee, arms)) = self.cases(reader)?;
        Ok(BodyTree::Match(scrutinee, at, arms))
    }

    /// A block on the heap.
    #[tactic(auto, using(fst_syntax::proofs::Opens::opens))]
    fn boxed_block(&self, reader: &mut Reader<'_>) -> Result<Box<BodyTree<Word>>, Stop>
        requires nests { Nests (reads n.body) self.now.room (F.pre self.now.text) (F.post self.now.text) }
        requires room { length reader.old ≤ self.now.room }
        ensures reads { Reads (reads n.block reader.old) result reader.new }
        ensures shorter { OnOk result (length reader.new < length reader.old) }
    {
        let body = self.braced(reader)?;
        Ok(Box::new(reader.alloc(), body)?)
    }

    #[tactic(auto, using(fst_syntax::proofs::Opens::opens))]
    fn body_part(&self, reader: &mut Reader<'_>) -> Result<PartTree<Word>, Stop>
        requires nests { Nests (reads n.body) self.now.room (F.pre self.now.text) (F.post self.now.text) }
        requires room { length reader.old ≤ self.now.room }
        ensures reads { Reads (reads n.part reader.old) result reader.new }
        ensures shorter { OnOk result (length reader.new < length reader.old) }
    {
        match reader.peek() {
            Terminal::LeftBrace => {
                let part = self.block_part(reader)?;
                Ok(part)
            }
            Terminal::Reify => {
                let part = self.reify(reader)?;
                Ok(part)
            }
            Terminal::Reflect => {
                let part = self.reflect(reader)?;
                Ok(part)
            }
            Terminal::Name => {
                let part = named_part(reader)?;
                Ok(part)
            }
            _ => {
                let tree = reader.operation()?;
                Ok(term_part(tree))
            }
        }
    }

    #[tactic(auto, using(fst_syntax::proofs::Opens::opens))]
    fn block_part(&self, reader: &mut Reader<'_>) -> Result<PartTree<Word>, Stop>
        requires nests { Nests (reads n.body) self.now.room (F.pre self.now.text) (F.post self.now.text) }
        requires room { length reader.old ≤ self.now.room }
        ensures reads { Reads (reads n.block_part reader.old) result reader.new }
        ensures shorter { OnOk result (length reader.new < length reader.old) }
    {
        let at = reader.expect(Terminal::LeftBrace)?;
        let body = self.boxed(reader)?;
        reader.expect(Terminal::RightBrace)?;
        Ok(PartTree {
            at,
            node: PartNode::Block(body),
        })
    }

    #[tactic(auto, using(fst_syntax::proofs::Opens::opens))]
    fn reify(&self, reader: &mut Reader<'_>) -> Result<PartTree<Word>, Stop>
        requires nests { Nests (reads n.body) self.now.room (F.pre self.now.text) (F.post self.now.text) }
        requires room { length reader.old ≤ self.now.room }
        ensures reads { Reads (reads n.reify reader.old) result reader.new }
        ensures shorter { OnOk result (length reader.new < length reader.old) }
    {
        let at = reader.expect(Terminal::Reify)?;
        let effect = reader.name()?;
        let sort = reader.sort()?;
        let (sort, body) = both(sort, self.boxed_block(reader))?;
        let ((sort, body), input) = both((sort, body), reified(reader))?;
        Ok(PartTree {
            at,
            node: PartNode::Reify(effect, sort, body, input),
        })
    }

    #[tactic(auto, using(fst_syntax::proofs::Opens::opens))]
    fn reflect(&self, reader: &mut Reader<'_>) -> Result<PartTree<Word>, Stop>
        requires nests { Nests (reads n.body) self.now.room (F.pre self.now.text) (F.post self.now.text) }
        requires room { length reader.old ≤ self.now.room }
        ensures reads { Reads (reads n.reflect reader.old) result reader.new }
        ensures shorter { OnOk result (length reader.new < length reader.old) }
    {
        let at = reader.expect(Terminal::Reflect)?;
        let effect = reader.name()?;
        let sort = reader.sort()?;
        let (sort, (input, body)) = both(sort, self.reflected(reader))?;
        Ok(PartTree {
            at,
            node: PartNode::Reflect(effect, sort, input, body),
        })
    }

    fn reflected(&self, reader: &mut Reader<'_>) -> Result<(Word, Box<BodyTree<Word>>), Stop>
        requires nests { Nests (reads n.body) self.now.room (F.pre self.now.text) (F.post self.now.text) }
        requires room { length reader.old ≤ self.now.room }
        ensures reads { Reads (run tails.reflected reader.old) result reader.new }
        ensures shorter { OnOk result (length reader.new < length reader.old) }
    {
        reader.expect(Terminal::LeftParen)?;
        let input = reader.binder()?;
        reader.expect(Terminal::RightParen)?;
        let body = self.boxed_block(reader)?;
        Ok((input, body))
    }
}

/// A body, with more room than tokens.
#[cycle(body)]
pub fn body(reader: &mut Reader<'_>, room: usize) -> Result<BodyTree<Word>, Stop>
    requires { length reader.old < room }
    ensures reads { Reads (reads n.body reader.old) result reader.new }
    ensures shorter { OnOk result (length reader.new < length reader.old) }
{
    Texts {
        room: room - 1,
        text: body,
        part,
    }
    .body(reader)
}

/// A part of a body, with more room than tokens.
#[cycle(body)]
pub fn part(reader: &mut Reader<'_>, room: usize) -> Result<PartTree<Word>, Stop>
    requires { length reader.old < room }
    ensures reads { Reads (reads n.part reader.old) result reader.new }
    ensures shorter { OnOk result (length reader.new < length reader.old) }
{
    Texts {
        room: room - 1,
        text: body,
        part,
    }
    .body_part(reader)
}
