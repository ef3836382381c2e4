//! Declarations of functions up to their bodies.

ghost use Rattle.std.specs.Prelude.{◌≡◌, ◌<◌, ◌≤◌, [], ◌∷◌, length, OnOk};
ghost use Rattle.fst_grammar.specs.Alphabet.{next, has};
ghost use Rattle.fst_syntax.specs.Tokens.{alphabet};
ghost use Rattle.fst_syntax.specs.Productions as n;
ghost use Rattle.fst_syntax.specs.Tables.{firsts};
ghost use Rattle.fst_syntax.specs.Reading.{Reads, reads, behind};

use fst_base::{Seq, both};
use fst_syntax::{Computation, Contract, Stop, Terminal};
use fst_term_reader::Reader;
use fst_trees::{EffectName, Form, HeadTree, ParamTree, Word};

#[tactic(auto, using(fst_syntax::proofs::Opens::opens))]
pub fn effname(reader: &mut Reader<'_>) -> Result<EffectName<Word>, Stop>
    ensures reads { Reads (reads n.effname reader.old) result reader.new }
    ensures shorter { OnOk result (length reader.new < length reader.old) }
{
    match reader.peek() {
        Terminal::PureEffect => {
            reader.expect(Terminal::PureEffect)?;
            Ok(EffectName::Pure)
        }
        Terminal::GhostEffect => {
            reader.expect(Terminal::GhostEffect)?;
            Ok(EffectName::Ghost)
        }
        Terminal::DivEffect => {
            reader.expect(Terminal::DivEffect)?;
            Ok(EffectName::Div)
        }
        _ => {
            let name = reader.name()?;
            Ok(EffectName::User(name))
        }
    }
}

#[tactic(auto, using(fst_syntax::proofs::Opens::opens))]
fn hidden(reader: &mut Reader<'_>) -> Result<bool, Stop>
    ensures reads { Reads (reads n.hidden reader.old) result reader.new }
    ensures no_longer { OnOk result (length reader.new ≤ length reader.old) }
{
    match reader.peek() {
        Terminal::Ghost => {
            reader.expect(Terminal::Ghost)?;
            Ok(true)
        }
        _ => Ok(false),
    }
}

#[tactic(auto, using(fst_syntax::proofs::Opens::opens))]
fn refinement(reader: &mut Reader<'_>) -> Result<Option<Form<Word>>, Stop>
    ensures reads { Reads (reads n.refinement reader.old) result reader.new }
    ensures no_longer { OnOk result (length reader.new ≤ length reader.old) }
{
    match reader.peek() {
        Terminal::LeftBrace => {
            reader.expect(Terminal::LeftBrace)?;
            let form = reader.form()?;
            let (form, _) = both(form, reader.expect(Terminal::RightBrace))?;
            Ok(Some(form))
        }
        _ => Ok(None),
    }
}

#[tactic(auto, using(fst_syntax::proofs::Opens::opens))]
fn param(reader: &mut Reader<'_>) -> Result<ParamTree<Word>, Stop>
    ensures reads { Reads (reads n.param reader.old) result reader.new }
    ensures shorter { OnOk result (length reader.new < length reader.old) }
{
    let hidden = hidden(reader)?;
    reader.expect(Terminal::LeftParen)?;
    let name = reader.binder()?;
    let (name, _) = both(name, reader.expect(Terminal::Colon))?;
    let (name, sort) = both(name, reader.sort())?;
    let (front, refine) = both((name, sort), refinement(reader))?;
    let (parts, _) = both((front, refine), reader.expect(Terminal::RightParen))?;
    let ((name, sort), refine) = parts;
    Ok(ParamTree {
        name,
        sort,
        hidden,
        refine,
    })
}

fn at_param(reader: &Reader<'_>) -> bool
    ensures { result ≡ has alphabet (firsts n.param) (next alphabet reader.now) }
{
    match reader.peek() {
        Terminal::Ghost => true,
        Terminal::LeftParen => true,
        _ => false,
    }
}

fn params(reader: &mut Reader<'_>) -> Result<Seq<ParamTree<Word>>, Stop>
    ensures reads { Reads (reads n.params reader.old) result reader.new }
    ensures no_longer { OnOk result (length reader.new ≤ length reader.old) }
{
    let mut params = Seq::new(reader.alloc());
    'params: while at_param(reader) {
        let param = param(reader)?;
        params.push(param)?;
    }
    Ok(params)
}

#[tactic(auto, using(fst_syntax::proofs::Opens::opens))]
fn needs(reader: &mut Reader<'_>) -> Result<Option<Form<Word>>, Stop>
    ensures reads { Reads (reads n.needs reader.old) result reader.new }
    ensures no_longer { OnOk result (length reader.new ≤ length reader.old) }
{
    match reader.peek() {
        Terminal::Requires => {
            reader.expect(Terminal::Requires)?;
            let form = reader.form()?;
            Ok(Some(form))
        }
        _ => Ok(None),
    }
}

#[tactic(auto, using(fst_syntax::proofs::Opens::opens))]
fn gives(reader: &mut Reader<'_>) -> Result<Option<Form<Word>>, Stop>
    ensures reads { Reads (reads n.gives reader.old) result reader.new }
    ensures no_longer { OnOk result (length reader.new ≤ length reader.old) }
{
    match reader.peek() {
        Terminal::Ensures => {
            reader.expect(Terminal::Ensures)?;
            let form = reader.form()?;
            Ok(Some(form))
        }
        _ => Ok(None),
    }
}

#[tactic(auto, using(fst_syntax::proofs::Measures::measures_opens))]
fn measures(reader: &mut Reader<'_>) -> Result<Seq<Form<Word>>, Stop>
    ensures reads { Reads (reads n.measures reader.old) result reader.new }
    ensures no_longer { OnOk result (length reader.new ≤ length reader.old) }
{
    match reader.peek() {
        Terminal::Decreases => {
            reader.expect(Terminal::Decreases)?;
            let first = reader.form()?;
            let measures = measures_more(reader, first)?;
            Ok(measures)
        }
        _ => Ok(Seq::new(reader.alloc())),
    }
}

/// At most three measures behind a first one, with that one.
fn measures_more(reader: &mut Reader<'_>, first: Form<Word>) -> Result<Seq<Form<Word>>, Stop>
    ensures reads { Reads (behind (first ∷ []) (reads (n.measures_more 3) reader.old)) result reader.new }
    ensures no_longer { OnOk result (length reader.new ≤ length reader.old) }
{
    let mut measures = Seq::new(reader.alloc());
    measures.push(first)?;
    let mut more: usize = 3;
    'measures: while more > 0 && reader.at(Terminal::Comma) {
        reader.expect(Terminal::Comma)?;
        let measure = reader.form()?;
        measures.push(measure)?;
        more -= 1;
    }
    Ok(measures)
}

#[tactic(auto, using(fst_syntax::proofs::Opens::opens))]
fn small(reader: &mut Reader<'_>) -> Result<u8, Stop>
    ensures reads { Reads (reads n.small reader.old) result reader.new }
    ensures shorter { OnOk result (length reader.new < length reader.old) }
{
    let digits = reader.digits(Terminal::Small)?;
    Ok(digits.magnitude.min(4) as u8)
}

#[tactic(auto, using(fst_syntax::proofs::Opens::opens))]
fn depth(reader: &mut Reader<'_>) -> Result<u8, Stop>
    ensures reads { Reads (reads n.depth reader.old) result reader.new }
    ensures no_longer { OnOk result (length reader.new ≤ length reader.old) }
{
    match reader.peek() {
        Terminal::Unfold => {
            reader.expect(Terminal::Unfold)?;
            let depth = small(reader)?;
            Ok(depth)
        }
        _ => Ok(1),
    }
}

#[tactic(auto, using(fst_syntax::proofs::Opens::opens))]
fn computation(reader: &mut Reader<'_>) -> Result<Computation, Stop>
    ensures reads { Reads (reads n.computation reader.old) result reader.new }
    ensures shorter { OnOk result (length reader.new < length reader.old) }
{
    let effect = effname(reader)?;
    let (effect, sort) = both(effect, reader.sort())?;
    Ok(Computation { effect, sort })
}

#[tactic(auto, using(fst_syntax::proofs::Opens::opens))]
fn contract(reader: &mut Reader<'_>) -> Result<Contract, Stop>
    ensures reads { Reads (reads n.contract reader.old) result reader.new }
    ensures no_longer { OnOk result (length reader.new ≤ length reader.old) }
{
    let needs = needs(reader)?;
    let (needs, gives) = both(needs, gives(reader))?;
    let (forms, measures) = both((needs, gives), measures(reader))?;
    let (((needs, gives), measures), unfold) = both((forms, measures), depth(reader))?;
    Ok(Contract {
        needs,
        gives,
        measures,
        unfold,
    })
}

#[tactic(auto, using(fst_syntax::proofs::Opens::opens))]
pub fn head(reader: &mut Reader<'_>) -> Result<HeadTree<Word>, Stop>
    ensures reads { Reads (reads n.head reader.old) result reader.new }
    ensures shorter { OnOk result (length reader.new < length reader.old) }
{
    reader.expect(Terminal::Fun)?;
    let name = reader.name()?;
    let (name, params) = both(name, params(reader))?;
    let (front, _) = both((name, params), reader.expect(Terminal::Colon))?;
    let (front, computation) = both(front, computation(reader))?;
    let (parts, contract) = both((front, computation), contract(reader))?;
    let ((name, params), computation) = parts;
    let Computation { effect, sort } = computation;
    let Contract {
        needs,
        gives,
        measures,
        unfold,
    } = contract;
    Ok(HeadTree {
        name,
        params,
        effect,
        sort,
        needs,
        gives,
        measures,
        unfold,
    })
}
