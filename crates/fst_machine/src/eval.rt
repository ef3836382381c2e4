ghost use Rattle.std.specs.Prelude.{◌≡◌, true, Bool, if◌then◌else◌};
ghost use Rattle.fst_base.specs.Primitives.{is_true};
ghost use Rattle.fst_base.specs.Values.{Val};
ghost use Rattle.fst_terms.specs.Meaning.{Env};
ghost use Rattle.fst_terms.specs.Terms.{plain_term, plain_terms};
ghost use Rattle.fst_program.specs.Evaluation.{eval, evals, got_stuck, limit};
ghost use Rattle.fst_machine.specs.Memories.{Keeps, IsCell, IsChain};
ghost use Rattle.fst_machine.specs.Stops.{Gives, ChainGives, OperandsGive};
ghost use Rattle.fst_cells.specs.Made.{Made};
ghost use Rattle.fst_machine.specs.declared.memory.Memory.{Memory as M};

use crate::memory::{Chain, Memory};
use crate::patterns::is_true_node;
use crate::stop::Stop;
use fst_base::Pos;
use fst_cells::{Cell, Node, Operands};
use fst_prims::PrimFault;
use fst_terms::Term;

/// The value of a term.
#[cycle(eval)]
#[tactic(auto, using(fst_terms::proofs::PlainLemmas::plain_variants))]
pub(crate) fn eval(memory: &mut Memory, term: &Term, env: Chain) -> Result<Cell, Stop>
    ensures value { (e : Env) → IsChain memory.old env e → Gives memory.new result (eval true (plain_term term.now) e) }
    ensures kept { Keeps memory.old memory.new }
{
    match term {
        Term::Var(index) => Ok(memory.given(memory.look(env, *index))?),
        Term::Int(number) => Ok(memory.add(Node::Int(*number))?),
        Term::Bool(truth) => Ok(memory.add(Node::Bool(*truth))?),
        Term::Unit => Ok(memory.add(Node::Unit)?),
        Term::If(test, left, right) => {
            let test = eval(memory, test.get(), env)?;
            if is_true(memory, test) {
                eval(memory, left.get(), env)
            } else {
                eval(memory, right.get(), env)
            }
        }
        Term::Prim(op, sort, args, at) => {
            let operands = operands(memory, args.as_slice(), env)?;
            placed(memory.apply(*op, operands, sort), *at)
        }
        Term::App(_, _, _) => Err(Stop::Stuck(Pos { at: 0 })),
        Term::Let(_, _, _) => Err(Stop::Stuck(Pos { at: 0 })),
    }
}

/// The values of a primitive's arguments.
#[cycle(eval)]
fn operands(memory: &mut Memory, args: &[Term], env: Chain) -> Result<Operands, Stop>
    ensures value { (e : Env) → IsChain memory.old env e → OperandsGive memory.new result (evals true (plain_terms args.now) e) }
    ensures kept { Keeps memory.old memory.new }
{
    let mut operands = Operands::none();
    for arg in args {
        let cell = eval(memory, arg, env)?;
        operands = operands.with(cell);
    }
    Ok(operands)
}

/// The answer of a primitive that stands at this place.
fn placed(answer: Result<Cell, PrimFault>, at: Pos) -> Result<Cell, Stop>
    ensures { (m : M) (v : Val) (z : Bool) → Made m.store v z answer → Gives m result (if z then got_stuck at.at else limit true v) }
{
    match answer {
        Ok(cell) => Ok(cell),
        Err(PrimFault::PastRange) => Err(Stop::PastRange),
        Err(PrimFault::ZeroDivisor) => Err(Stop::Stuck(at)),
        Err(PrimFault::NoMemory) => Err(Stop::NoMemory),
    }
}

pub(crate) fn is_true(memory: &Memory, cell: Cell) -> bool
    ensures { (v : Val) → IsCell memory.now cell v → result ≡ is_true v }
{
    let Some(node) = memory.node(cell) else {
        return false;
    };
    is_true_node(node)
}

/// The environment of these arguments, the last one first.
pub(crate) fn arguments(memory: &mut Memory, args: &[Term], env: Chain) -> Result<Chain, Stop>
    ensures chain { (e : Env) → IsChain memory.old env e → ChainGives memory.new result (evals true (plain_terms args.now) e) }
    ensures kept { Keeps memory.old memory.new }
{
    let mut inner = Chain::empty();
    for arg in args {
        let cell = eval(memory, arg, env)?;
        inner = memory.link(cell, inner)?;
    }
    Ok(inner)
}
