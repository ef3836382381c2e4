//! Sorts.

ghost use Rattle.std.specs.Prelude.{◌≡◌, ◌<◌, ◌≤◌, length, IfOk, OnOk};
ghost use Rattle.fst_syntax.specs.Productions as n;
ghost use Rattle.fst_syntax.specs.Productions.{product};
ghost use Rattle.fst_syntax.specs.Reading.{Reads, reads, run};
ghost use Rattle.fst_syntax.specs.Arms as arms;

use crate::reader::Reader;
use fst_base::{Box, OutOfMemory, both, boxes};
use fst_syntax::{Stop, Terminal};
use fst_trees::{SortTree, Word};
use std::alloc::Global;

impl<'a> Reader<'a> {
    #[cycle(sort)]
    #[tactic(auto, using(fst_syntax::proofs::Opens::opens))]
    pub fn sort(&mut self) -> Result<SortTree<Word>, Stop>
        ensures reads { Reads (reads n.sort self.old) result self.new }
        ensures shorter { OnOk result (length self.new < length self.old) }
    {
        let first = self.sat()?;
        let (first, second) = both(first, self.sort_more())?;
        Ok(product(self.alloc(), first, second)?)
    }

    #[cycle(sort)]
    #[tactic(auto, using(fst_syntax::proofs::Opens::opens))]
    fn sort_more(&mut self) -> Result<Option<SortTree<Word>>, Stop>
        ensures reads { Reads (reads n.sort_more self.old) result self.new }
        ensures no_longer { OnOk result (length self.new ≤ length self.old) }
    {
        match self.peek() {
            Terminal::Star => {
                self.expect(Terminal::Star)?;
                let sort = self.sort()?;
                Ok(Some(sort))
            }
            _ => Ok(None),
        }
    }

    #[cycle(sort)]
    #[tactic(auto, using(fst_syntax::proofs::Opens::opens))]
    fn sat(&mut self) -> Result<SortTree<Word>, Stop>
        ensures reads { Reads (reads n.sat self.old) result self.new }
        ensures shorter { OnOk result (length self.new < length self.old) }
    {
        match self.peek() {
            Terminal::Unit => {
                self.expect(Terminal::Unit)?;
                Ok(SortTree::Unit)
            }
            Terminal::Bool => {
                self.expect(Terminal::Bool)?;
                Ok(SortTree::Bool)
            }
            Terminal::Int => {
                self.expect(Terminal::Int)?;
                Ok(SortTree::Int)
            }
            Terminal::Option => {
                let item = self.item(Terminal::Option)?;
                Ok(SortTree::Opt(item))
            }
            Terminal::List => {
                let item = self.item(Terminal::List)?;
                Ok(SortTree::List(item))
            }
            Terminal::Either => self.either(),
            Terminal::Name => Ok(SortTree::Ident(self.name()?)),
            _ => {
                self.expect(Terminal::LeftParen)?;
                let sort = self.sort()?;
                let (sort, _) = both(sort, self.expect(Terminal::RightParen))?;
                Ok(sort)
            }
        }
    }

    /// The sort behind this word, on the heap.
    #[cycle(sort)]
    fn item(&mut self, word: Terminal) -> Result<Box<SortTree<Word>>, Stop>
        ensures reads { Reads (run (arms.item word) self.old) result self.new }
        ensures shorter { OnOk result (length self.new < length self.old) }
    {
        self.expect(word)?;
        let item = self.boxed_sat()?;
        Ok(item)
    }

    #[cycle(sort)]
    fn either(&mut self) -> Result<SortTree<Word>, Stop>
        ensures reads { Reads (run arms.either self.old) result self.new }
        ensures shorter { OnOk result (length self.new < length self.old) }
    {
        self.expect(Terminal::Either)?;
        let left = self.boxed_sat()?;
        let (left, right) = both(left, self.boxed_sat())?;
        Ok(SortTree::Either(left, right))
    }

    #[cycle(sort)]
    fn boxed_sat(&mut self) -> Result<Box<SortTree<Word>>, Stop>
        ensures reads { Reads (reads n.sat self.old) result self.new }
        ensures shorter { OnOk result (length self.new < length self.old) }
    {
        let sort = self.sat()?;
        Ok(Box::new(self.alloc(), sort)?)
    }
}

fn product(
    alloc: Global,
    first: SortTree<Word>,
    second: Option<SortTree<Word>>,
) -> Result<SortTree<Word>, OutOfMemory>
    ensures { IfOk result (λ sort. sort ≡ product first second) }
{
    match second {
        Some(second) => {
            let (first, second) = boxes(alloc, first, second)?;
            Ok(SortTree::Pair(first, second))
        }
        None => Ok(first),
    }
}
