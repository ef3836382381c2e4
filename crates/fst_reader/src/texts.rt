//! Texts that hold texts of their kind: bodies of functions, and the texts of definitions. What the two kinds share is read
//! here. The reader of a nested text is a parameter, so that each function is proved by itself.

ghost use Rattle.std.specs.Prelude.{◌≡◌, ◌<◌, ◌≤◌, [], ◌∷◌, length, OnOk};
ghost use Rattle.fst_syntax.specs.Reading.{Reads, behind};
ghost use Rattle.fst_reader.specs.Texts as read;
ghost use Rattle.fst_reader.specs.Texts.{Kind, Nests};

use fst_base::{Box, Pos, Seq, both};
use fst_syntax::{Binding, Pattern, Stop, Terminal};
use fst_term_reader::Reader;
use fst_trees::{ArmTree, Form, Word};

/// A text that holds texts of its kind, with parts `P`.
pub trait Text<P>: Sized {
    ghost kind: { Kind Self P };
}

/// The readers of what a text holds.
#[derive(Clone, Copy)]
pub struct Texts<F, G> {
    /// More than the tokens that are left at a nested text, and at a part.
    pub room: usize,
    /// The reader of a nested text.
    pub text: F,
    /// The reader of a part.
    pub part: G,
}

impl<
    P: Drop,
    T: Text<P> + Drop,
    F: Fn(&mut Reader<'_>, usize) -> Result<T, Stop>,
    G: Fn(&mut Reader<'_>, usize) -> Result<P, Stop>,
> Texts<F, G> {
    pub fn nested(&self, reader: &mut Reader<'_>) -> Result<T, Stop>
        requires nests { Nests T.kind.text self.now.room (F.pre self.now.text) (F.post self.now.text) }
        requires room { length reader.old < self.now.room }
        ensures reads { Reads (T.kind.text reader.old) result reader.new }
        ensures shorter { OnOk result (length reader.new < length reader.old) }
    {
        (self.text)(reader, self.room)
    }

    /// A nested text on the heap.
    pub fn boxed(&self, reader: &mut Reader<'_>) -> Result<Box<T>, Stop>
        requires nests { Nests T.kind.text self.now.room (F.pre self.now.text) (F.post self.now.text) }
        requires room { length reader.old < self.now.room }
        ensures reads { Reads (T.kind.text reader.old) result reader.new }
        ensures shorter { OnOk result (length reader.new < length reader.old) }
    {
        let text = self.nested(reader)?;
        Ok(Box::new(reader.alloc(), text)?)
    }

    /// A text in braces.
    pub fn braced(&self, reader: &mut Reader<'_>) -> Result<T, Stop>
        requires nests { Nests T.kind.text self.now.room (F.pre self.now.text) (F.post self.now.text) }
        requires room { length reader.old ≤ self.now.room }
        ensures reads { Reads (read.braced T.kind.text reader.old) result reader.new }
        ensures shorter { OnOk result (length reader.new < length reader.old) }
    {
        reader.expect(Terminal::LeftBrace)?;
        let text = self.nested(reader)?;
        let (text, _) = both(text, reader.expect(Terminal::RightBrace))?;
        Ok(text)
    }

    /// A binding with the text behind it.
    pub fn let_in(&self, reader: &mut Reader<'_>) -> Result<(Binding<P>, Box<T>), Stop>
        requires nests { Nests T.kind.text self.now.room (F.pre self.now.text) (F.post self.now.text) }
        requires parts { Nests T.kind.part self.now.room (G.pre self.now.part) (G.post self.now.part) }
        requires room { length reader.old ≤ self.now.room }
        ensures reads { Reads (read.let_in T.kind.names T.kind.text reader.old) result reader.new }
        ensures shorter { OnOk result (length reader.new < length reader.old) }
    {
        reader.expect(Terminal::Let)?;
        let binding = self.binding(reader)?;
        both(binding, self.boxed(reader))
    }

    #[tactic(auto, using(crate::proofs::KindLemmas::names_opens))]
    fn binding(&self, reader: &mut Reader<'_>) -> Result<Binding<P>, Stop>
        requires parts { Nests T.kind.part self.now.room (G.pre self.now.part) (G.post self.now.part) }
        requires room { length reader.old ≤ self.now.room }
        ensures reads { Reads (T.kind.names reader.old) result reader.new }
        ensures shorter { OnOk result (length reader.new < length reader.old) }
    {
        let name = reader.binder()?;
        let sort = reader.annotation()?;
        let (sort, part) = both(sort, self.bound(reader))?;
        Ok(Binding { name, sort, part })
    }

    /// The part that a name is bound to.
    fn bound(&self, reader: &mut Reader<'_>) -> Result<P, Stop>
        requires parts { Nests T.kind.part self.now.room (G.pre self.now.part) (G.post self.now.part) }
        requires room { length reader.old ≤ self.now.room }
        ensures reads { Reads (read.bound T.kind.part reader.old) result reader.new }
        ensures shorter { OnOk result (length reader.new < length reader.old) }
    {
        reader.expect(Terminal::Equal)?;
        let part = (self.part)(reader, self.room)?;
        let (part, _) = both(part, reader.expect(Terminal::In))?;
        Ok(part)
    }

    /// A condition with its two texts.
    pub fn branches(&self, reader: &mut Reader<'_>) -> Result<(Form<Word>, (Box<T>, Box<T>)), Stop>
        requires nests { Nests T.kind.text self.now.room (F.pre self.now.text) (F.post self.now.text) }
        requires room { length reader.old ≤ self.now.room }
        ensures reads { Reads (read.branches T.kind.text reader.old) result reader.new }
        ensures shorter { OnOk result (length reader.new < length reader.old) }
    {
        reader.expect(Terminal::If)?;
        let condition = reader.term()?;
        both(condition, self.two(reader))
    }

    /// The two texts behind a condition.
    fn two(&self, reader: &mut Reader<'_>) -> Result<(Box<T>, Box<T>), Stop>
        requires nests { Nests T.kind.text self.now.room (F.pre self.now.text) (F.post self.now.text) }
        requires room { length reader.old ≤ self.now.room }
        ensures reads { Reads (read.two T.kind.text reader.old) result reader.new }
        ensures shorter { OnOk result (length reader.new < length reader.old) }
    {
        reader.expect(Terminal::Then)?;
        let yes = self.boxed(reader)?;
        reader.expect(Terminal::Else)?;
        let no = self.boxed(reader)?;
        Ok((yes, no))
    }

    /// The place of a match, what it looks at, and its arms.
    pub fn cases(
        &self,
        reader: &mut Reader<'_>,
    ) -> Result<(Pos, (Form<Word>, Seq<ArmTree<T>>)), Stop>
        requires nests { Nests T.kind.text self.now.room (F.pre self.now.text) (F.post self.now.text) }
        requires room { length reader.old ≤ self.now.room }
        ensures reads { Reads (read.cases T.kind.arms reader.old) result reader.new }
        ensures shorter { OnOk result (length reader.new < length reader.old) }
    {
        let at = reader.expect(Terminal::Match)?;
        let scrutinee = reader.term()?;
        let cases = both(scrutinee, self.with_arms(reader))?;
        Ok((at, cases))
    }

    fn with_arms(&self, reader: &mut Reader<'_>) -> Result<Seq<ArmTree<T>>, Stop>
        requires nests { Nests T.kind.text self.now.room (F.pre self.now.text) (F.post self.now.text) }
        requires room { length reader.old ≤ self.now.room }
        ensures reads { Reads (read.with_arms T.kind.arms reader.old) result reader.new }
        ensures shorter { OnOk result (length reader.new < length reader.old) }
    {
        reader.expect(Terminal::With)?;
        let arms = self.arms(reader)?;
        reader.expect(Terminal::EndWord)?;
        Ok(arms)
    }

    #[tactic(auto, using(crate::proofs::KindLemmas::arms_opens))]
    fn arms(&self, reader: &mut Reader<'_>) -> Result<Seq<ArmTree<T>>, Stop>
        requires nests { Nests T.kind.text self.now.room (F.pre self.now.text) (F.post self.now.text) }
        requires room { length reader.old ≤ self.now.room }
        ensures reads { Reads (T.kind.arms reader.old) result reader.new }
        ensures shorter { OnOk result (length reader.new < length reader.old) }
    {
        let first = self.arm(reader)?;
        let arms = self.arms_more(reader, first)?;
        Ok(arms)
    }

    /// The arms behind a first one, with that one.
    fn arms_more(&self, reader: &mut Reader<'_>, first: ArmTree<T>) -> Result<Seq<ArmTree<T>>, Stop>
        requires nests { Nests T.kind.text self.now.room (F.pre self.now.text) (F.post self.now.text) }
        requires room { length reader.old ≤ self.now.room }
        ensures reads { Reads (behind (first ∷ []) (T.kind.arms_more reader.old)) result reader.new }
        ensures no_longer { OnOk result (length reader.new ≤ length reader.old) }
    {
        let mut arms = Seq::new(reader.alloc());
        arms.push(first)?;
        'arms: while reader.at(Terminal::Bar) {
            let arm = self.arm(reader)?;
            arms.push(arm)?;
        }
        Ok(arms)
    }

    #[tactic(auto, using(crate::proofs::KindLemmas::arm_opens))]
    fn arm(&self, reader: &mut Reader<'_>) -> Result<ArmTree<T>, Stop>
        requires nests { Nests T.kind.text self.now.room (F.pre self.now.text) (F.post self.now.text) }
        requires room { length reader.old ≤ self.now.room }
        ensures reads { Reads (T.kind.arm reader.old) result reader.new }
        ensures shorter { OnOk result (length reader.new < length reader.old) }
    {
        reader.expect(Terminal::Bar)?;
        let pattern = reader.pattern()?;
        reader.expect(Terminal::Arrow)?;
        let body = self.nested(reader)?;
        let Pattern { at, con, names } = pattern;
        Ok(ArmTree {
            at,
            con,
            names,
            body,
        })
    }
}
