//! Declarations and programs.

ghost use Rattle.std.specs.Prelude.{◌≡◌, ◌<◌, ◌≤◌, length, OnOk};
ghost use Rattle.fst_grammar.specs.Alphabet.{next, has};
ghost use Rattle.fst_syntax.specs.Tokens.{alphabet};
ghost use Rattle.fst_syntax.specs.Productions as n;
ghost use Rattle.fst_syntax.specs.Tables.{firsts};
ghost use Rattle.fst_syntax.specs.Reading.{Reads, reads};

use crate::bodies::{body, part};
use crate::definitions::{dm, dm_part};
use crate::heads::head;
use crate::texts::Texts;
use fst_base::{Seq, both, three, two};
use fst_syntax::{Abstraction, Signature, Stop, Terminal};
use fst_term_reader::Reader;
use fst_trees::{BodyTree, Decl, DmTree, EffectTree, FunTree, LiftTree, RawDecl, Word};

#[tactic(auto, using(fst_syntax::proofs::Opens::opens))]
fn dm_block(reader: &mut Reader<'_>) -> Result<DmTree<Word>, Stop>
    ensures reads { Reads (reads n.dm_block reader.old) result reader.new }
    ensures shorter { OnOk result (length reader.new < length reader.old) }
{
    let texts = Texts {
        room: reader.room(),
        text: dm,
        part: dm_part,
    };
    let text = texts.braced(reader)?;
    Ok(text)
}

#[tactic(auto, using(fst_syntax::proofs::Opens::opens))]
fn block(reader: &mut Reader<'_>) -> Result<BodyTree<Word>, Stop>
    ensures reads { Reads (reads n.block reader.old) result reader.new }
    ensures shorter { OnOk result (length reader.new < length reader.old) }
{
    let bodies = Texts {
        room: reader.room(),
        text: body,
        part,
    };
    let block = bodies.braced(reader)?;
    Ok(block)
}

#[tactic(auto, using(fst_syntax::proofs::Opens::opens))]
fn base(reader: &mut Reader<'_>) -> Result<bool, Stop>
    ensures reads { Reads (reads n.base reader.old) result reader.new }
    ensures shorter { OnOk result (length reader.new < length reader.old) }
{
    match reader.peek() {
        Terminal::PureEffect => {
            reader.expect(Terminal::PureEffect)?;
            Ok(false)
        }
        _ => {
            reader.expect(Terminal::DivEffect)?;
            Ok(true)
        }
    }
}

#[tactic(auto, using(fst_syntax::proofs::Opens::opens))]
fn two_names(reader: &mut Reader<'_>) -> Result<Seq<Word>, Stop>
    ensures reads { Reads (reads n.two_names reader.old) result reader.new }
    ensures shorter { OnOk result (length reader.new < length reader.old) }
{
    let first = reader.binder()?;
    let (first, second) = both(first, reader.binder())?;
    Ok(two(reader.alloc(), first, second)?)
}

#[tactic(auto, using(fst_syntax::proofs::Opens::opens))]
fn three_names(reader: &mut Reader<'_>) -> Result<Seq<Word>, Stop>
    ensures reads { Reads (reads n.three_names reader.old) result reader.new }
    ensures shorter { OnOk result (length reader.new < length reader.old) }
{
    let first = reader.binder()?;
    let (first, second) = both(first, reader.binder())?;
    let ((first, second), third) = both((first, second), reader.binder())?;
    Ok(three(reader.alloc(), first, second, third)?)
}

#[tactic(auto, using(fst_syntax::proofs::Opens::opens))]
fn effect(reader: &mut Reader<'_>) -> Result<EffectTree<Word>, Stop>
    ensures reads { Reads (reads n.effect reader.old) result reader.new }
    ensures shorter { OnOk result (length reader.new < length reader.old) }
{
    let signature = signature(reader)?;
    let (signature, returning) = both(signature, returning(reader))?;
    let (texts, joining) = both((signature, returning), joining(reader))?;
    let (signature, returning) = texts;
    let Signature {
        name,
        div,
        input,
        result,
    } = signature;
    Ok(EffectTree {
        name,
        div,
        input,
        result,
        ret_names: returning.names,
        ret: returning.text,
        bind_names: joining.names,
        bind: joining.text,
    })
}

#[tactic(auto, using(fst_syntax::proofs::Opens::opens))]
fn signature(reader: &mut Reader<'_>) -> Result<Signature, Stop>
    ensures reads { Reads (reads n.signature reader.old) result reader.new }
    ensures shorter { OnOk result (length reader.new < length reader.old) }
{
    reader.expect(Terminal::Effect)?;
    let name = reader.name()?;
    let (name, _) = both(name, reader.expect(Terminal::Colon))?;
    let (name, div) = both(name, base(reader))?;
    let (name, _) = both(name, reader.expect(Terminal::Input))?;
    let (name, input) = both(name, reader.sort())?;
    let (front, _) = both((name, input), reader.expect(Terminal::Result))?;
    let ((name, input), result) = both(front, reader.sort())?;
    Ok(Signature {
        name,
        div,
        input,
        result,
    })
}

#[tactic(auto, using(fst_syntax::proofs::Opens::opens))]
fn returning(reader: &mut Reader<'_>) -> Result<Abstraction, Stop>
    ensures reads { Reads (reads n.returning reader.old) result reader.new }
    ensures shorter { OnOk result (length reader.new < length reader.old) }
{
    reader.expect(Terminal::Return)?;
    let names = two_names(reader)?;
    let text = dm_block(reader)?;
    Ok(Abstraction { names, text })
}

#[tactic(auto, using(fst_syntax::proofs::Opens::opens))]
fn joining(reader: &mut Reader<'_>) -> Result<Abstraction, Stop>
    ensures reads { Reads (reads n.joining reader.old) result reader.new }
    ensures shorter { OnOk result (length reader.new < length reader.old) }
{
    reader.expect(Terminal::Bind)?;
    let names = three_names(reader)?;
    let text = dm_block(reader)?;
    Ok(Abstraction { names, text })
}

#[tactic(auto, using(fst_syntax::proofs::Opens::opens))]
fn lift(reader: &mut Reader<'_>) -> Result<LiftTree<Word>, Stop>
    ensures reads { Reads (reads n.lift reader.old) result reader.new }
    ensures shorter { OnOk result (length reader.new < length reader.old) }
{
    let at = reader.expect(Terminal::Lift)?;
    let from = reader.name()?;
    reader.expect(Terminal::To)?;
    let to = reader.name()?;
    reader.expect(Terminal::By)?;
    let names = two_names(reader)?;
    let text = dm_block(reader)?;
    Ok(LiftTree {
        at,
        from,
        to,
        names,
        text,
    })
}

#[tactic(auto, using(fst_syntax::proofs::Opens::opens))]
fn fun(reader: &mut Reader<'_>) -> Result<FunTree<Word>, Stop>
    ensures reads { Reads (reads n.fun reader.old) result reader.new }
    ensures shorter { OnOk result (length reader.new < length reader.old) }
{
    let head = head(reader)?;
    let (head, body) = both(head, block(reader))?;
    Ok(FunTree {
        head,
        joined: false,
        body,
    })
}

#[tactic(auto, using(fst_syntax::proofs::Opens::opens))]
fn decl(reader: &mut Reader<'_>) -> Result<RawDecl, Stop>
    ensures reads { Reads (reads n.decl reader.old) result reader.new }
    ensures shorter { OnOk result (length reader.new < length reader.old) }
{
    match reader.peek() {
        Terminal::Effect => {
            let effect = effect(reader)?;
            Ok(Decl::Effect(effect))
        }
        Terminal::Lift => {
            let lift = lift(reader)?;
            Ok(Decl::Lift(lift))
        }
        _ => {
            let fun = fun(reader)?;
            Ok(Decl::Fun(fun))
        }
    }
}

fn at_decl(reader: &Reader<'_>) -> bool
    ensures { result ≡ has alphabet (firsts n.decl) (next alphabet reader.now) }
{
    match reader.peek() {
        Terminal::Effect => true,
        Terminal::Lift => true,
        Terminal::Fun => true,
        _ => false,
    }
}

/// The declarations at the front.
pub fn program(reader: &mut Reader<'_>) -> Result<Seq<RawDecl>, Stop>
    ensures reads { Reads (reads n.program reader.old) result reader.new }
{
    let mut decls = Seq::new(reader.alloc());
    'decls: while at_decl(reader) {
        let decl = decl(reader)?;
        decls.push(decl)?;
    }
    Ok(decls)
}
