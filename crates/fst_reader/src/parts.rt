//! Parts of bodies, and of definitions' texts, that hold no other.

ghost use Rattle.std.specs.Prelude.{◌≡◌, ◌<◌, ◌≤◌, length, IfOk, OnOk};
ghost use Rattle.fst_syntax.specs.Productions as n;
ghost use Rattle.fst_syntax.specs.Productions.{one_or_two};
ghost use Rattle.fst_syntax.specs.Reading.{Reads, reads, run, given};
ghost use Rattle.fst_syntax.specs.Tails as tails;

use fst_base::{OutOfMemory, Seq, both, one, two};
use fst_syntax::{Stop, Terminal};
use fst_term_reader::Reader;
use fst_trees::{DmTree, Form, PartNode, PartTree, Word};
use std::alloc::Global;

#[tactic(auto, using(fst_syntax::proofs::Behind::named_part_opens))]
pub fn named_part(reader: &mut Reader<'_>) -> Result<PartTree<Word>, Stop>
    ensures reads { Reads (reads n.named_part reader.old) result reader.new }
    ensures shorter { OnOk result (length reader.new < length reader.old) }
{
    let name = reader.name()?;
    let part = after_name(reader, name)?;
    Ok(part)
}

#[tactic(auto, using(fst_syntax::proofs::Behind::after_name_opens))]
fn after_name(reader: &mut Reader<'_>, name: Word) -> Result<PartTree<Word>, Stop>
    ensures reads { Reads (given name (reads n.after_name reader.old)) result reader.new }
    ensures no_longer { OnOk result (length reader.new ≤ length reader.old) }
{
    match reader.peek() {
        Terminal::LeftParen => {
            reader.expect(Terminal::LeftParen)?;
            let args = reader.arguments()?;
            Ok(PartTree {
                at: name.at,
                node: PartNode::Call(name, args),
            })
        }
        _ => {
            let tree = reader.term_of_name(name)?;
            Ok(term_part(tree))
        }
    }
}

/// What is given to a block that is reified.
pub fn reified(reader: &mut Reader<'_>) -> Result<Form<Word>, Stop>
    ensures reads { Reads (run tails.reified reader.old) result reader.new }
    ensures shorter { OnOk result (length reader.new < length reader.old) }
{
    reader.expect(Terminal::LeftParen)?;
    let input = reader.term()?;
    let (input, _) = both(input, reader.expect(Terminal::RightParen))?;
    Ok(input)
}

pub fn term_part(tree: Form<Word>) -> PartTree<Word>
    ensures { result ≡ n.term_part tree }
{
    PartTree {
        at: tree.at,
        node: PartNode::Term(tree),
    }
}

#[tactic(auto, using(fst_syntax::proofs::Behind::dm_named_part_opens))]
pub fn dm_named_part(reader: &mut Reader<'_>) -> Result<DmTree<Word>, Stop>
    ensures reads { Reads (reads n.dm_named_part reader.old) result reader.new }
    ensures shorter { OnOk result (length reader.new < length reader.old) }
{
    let name = reader.name()?;
    let part = dm_after_name(reader, name)?;
    Ok(part)
}

#[tactic(auto, using(fst_syntax::proofs::Behind::dm_after_name_opens))]
fn dm_after_name(reader: &mut Reader<'_>, name: Word) -> Result<DmTree<Word>, Stop>
    ensures reads { Reads (given name (reads n.dm_after_name reader.old)) result reader.new }
    ensures no_longer { OnOk result (length reader.new ≤ length reader.old) }
{
    match reader.peek() {
        Terminal::LeftParen => {
            reader.expect(Terminal::LeftParen)?;
            let args = run_args(reader)?;
            Ok(DmTree::Run(name, args))
        }
        _ => {
            let tree = reader.term_of_name(name)?;
            Ok(DmTree::Term(tree))
        }
    }
}

#[tactic(auto, using(fst_syntax::proofs::Opens::opens))]
fn run_args(reader: &mut Reader<'_>) -> Result<Seq<Form<Word>>, Stop>
    ensures reads { Reads (reads n.run_args reader.old) result reader.new }
    ensures shorter { OnOk result (length reader.new < length reader.old) }
{
    let first = reader.term()?;
    let (first, second) = both(first, second(reader))?;
    let ((first, second), _) = both((first, second), reader.expect(Terminal::RightParen))?;
    Ok(one_or_two(reader.alloc(), first, second)?)
}

#[tactic(auto, using(fst_syntax::proofs::Opens::opens))]
fn second(reader: &mut Reader<'_>) -> Result<Option<Form<Word>>, Stop>
    ensures reads { Reads (reads n.second reader.old) result reader.new }
    ensures no_longer { OnOk result (length reader.new ≤ length reader.old) }
{
    match reader.peek() {
        Terminal::Comma => {
            reader.expect(Terminal::Comma)?;
            let term = reader.term()?;
            Ok(Some(term))
        }
        _ => Ok(None),
    }
}

fn one_or_two(
    alloc: Global,
    first: Form<Word>,
    second: Option<Form<Word>>,
) -> Result<Seq<Form<Word>>, OutOfMemory>
    ensures { IfOk result (λ terms. terms ≡ one_or_two first second) }
{
    match second {
        Some(second) => two(alloc, first, second),
        None => one(alloc, first),
    }
}
