//! What patterns bind.

ghost use Rattle.std.specs.Prelude.{◌≡◌, ◌↔◌, IfOk, IsTrue};
ghost use Rattle.fst_base.specs.Values.{Val};
ghost use Rattle.fst_terms.specs.Meaning.{Env};
ghost use Rattle.fst_program.specs.Runs.{parts};
ghost use Rattle.fst_machine.specs.Memories.{is_true_node, NodeHas, Keeps, PartsGive, IsCell, IsChain};

use crate::memory::{Chain, Memory};
use fst_base::OutOfMemory;
use fst_cells::{Cell, Node};
use fst_program::Con;

pub(crate) fn is_true_node(node: Node) -> bool
    ensures { result ≡ is_true_node node }
{
    matches!(node, Node::Bool(true))
}

/// Whether the node is that of a value with this constructor.
fn has(node: Node, con: Con) -> bool
    ensures { IsTrue result ↔ NodeHas node con }
{
    match node {
        Node::Unit => false,
        Node::Bool(true) => con == Con::True,
        Node::Bool(false) => con == Con::False,
        Node::Int(_) => false,
        Node::Pair(_, _) => con == Con::Pair,
        Node::Nothing => con == Con::Empty,
        Node::Just(_) => con == Con::Full,
        Node::Nil => con == Con::Nil,
        Node::Cons(_, _) => con == Con::Cons,
        Node::Left(_) => con == Con::Left,
        Node::Right(_) => con == Con::Right,
    }
}

impl Memory {
    /// The environment with what a pattern binds, where the value has its constructor.
    pub(crate) fn parts(
        &mut self,
        con: Con,
        cell: Cell,
        env: Chain,
    ) -> Result<Option<Chain>, OutOfMemory>
        ensures chain { (v : Val) (e : Env) → IsCell self.old cell v → IsChain self.old env e → IfOk result (λ o. PartsGive self.new o (parts con v) e) }
        ensures kept { Keeps self.old self.new }
    {
        let Some(node) = self.node(cell) else {
            return Ok(None);
        };
        if !has(node, con) {
            return Ok(None);
        }
        match node {
            Node::Just(part) => Ok(Some(self.link(part, env)?)),
            Node::Left(part) => Ok(Some(self.link(part, env)?)),
            Node::Right(part) => Ok(Some(self.link(part, env)?)),
            Node::Pair(first, second) => {
                let env = self.link(first, env)?;
                Ok(Some(self.link(second, env)?))
            }
            Node::Cons(first, rest) => {
                let env = self.link(first, env)?;
                Ok(Some(self.link(rest, env)?))
            }
            Node::Unit => Ok(Some(env)),
            Node::Bool(_) => Ok(Some(env)),
            Node::Int(_) => Ok(Some(env)),
            Node::Nothing => Ok(Some(env)),
            Node::Nil => Ok(Some(env)),
        }
    }
}
