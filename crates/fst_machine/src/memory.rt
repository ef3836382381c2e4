ghost use Rattle.std.specs.Prelude.{◌≡◌, [], ◌∷◌, List, IfOk, MatchOption, IfSome, Ok};
ghost use Rattle.fst_base.specs.Sorts.{plain_sort};
ghost use Rattle.fst_base.specs.Primitives.{prim, divides_by_zero};
ghost use Rattle.fst_base.specs.Values.{Val, v_unit, plain_value};
ghost use Rattle.fst_terms.specs.Meaning.{Env, lookup};
ghost use Rattle.fst_cells.specs.Made.{Made};

use fst_base::{Op, OutOfMemory, Seq, Sort, Value};
use fst_cells::{Cell, Node, Operands, Store};
use fst_prims::PrimFault;
use std::alloc::Global;

/// An environment of a memory: the number of links up to its last variable's, and 0 for the empty one.
#[derive(Clone, Copy)]
pub(crate) struct Chain {
    links: usize,
}

impl Chain {
    pub(crate) fn empty() -> Chain
        ensures { result.links ≡ 0 }
    {
        Chain { links: 0 }
    }
}

/// The last variable of an environment, and the environment of the others.
#[derive(Clone, Copy)]
pub(crate) struct Link {
    cell: Cell,
    rest: Chain,
}

/// Values, and environments that share their tails.
#[derive(Drop)]
pub(crate) struct Memory {
    store: Store,
    links: Seq<Link>,
}

impl Memory {
    ghost use Rattle.fst_machine.specs.Memories.{Keeps, NodeIs, IsCell, InputIs, IsChain, OperandsAre};

    pub(crate) fn new(alloc: Global) -> Memory {
        Memory {
            store: Store::new(alloc),
            links: Seq::new(alloc),
        }
    }

    /// The cell of a value with this constructor and these parts.
    pub(crate) fn add(&mut self, node: Node) -> Result<Cell, OutOfMemory>
        ensures cell { (v : Val) → NodeIs self.old node v → IfOk result (λ c. IsCell self.new c v) }
        ensures kept { Keeps self.old self.new }
    {
        self.store.add(node)
    }

    /// The input; where there is none, unit.
    pub(crate) fn given(&mut self, input: Option<Cell>) -> Result<Cell, OutOfMemory>
        ensures cell { (v : Val) → InputIs self.old input v → IfOk result (λ c. IsCell self.new c v) }
        ensures kept { Keeps self.old self.new }
    {
        self.store.given(input)
    }

    /// What a primitive gives on these arguments, where `sort` is the sort of its result.
    pub(crate) fn apply(&mut self, op: Op, args: Operands, sort: &Sort) -> Result<Cell, PrimFault>
        ensures made { (vs : List Val) → OperandsAre self.old args vs → Made self.new.store (prim op (plain_sort sort.now) vs) (divides_by_zero op vs) result }
        ensures kept { Keeps self.old self.new }
    {
        self.store.apply(op, args, sort)
    }

    /// The cell of a value.
    pub(crate) fn put(&mut self, value: &Value) -> Result<Cell, OutOfMemory>
        ensures cell { IfOk result (λ c. IsCell self.new c (plain_value value.now)) }
        ensures kept { Keeps self.old self.new }
    {
        self.store.put(value)
    }

    /// The value of a cell.
    pub(crate) fn value(&self, alloc: Global, cell: Cell) -> Result<Value, OutOfMemory>
        ensures { (v : Val) → IsCell self.now cell v → IfOk result (λ x. plain_value x ≡ v) }
    {
        self.store.value(alloc, cell)
    }

    /// The constructor of a value.
    pub(crate) fn node(&self, cell: Cell) -> Option<Node>
        ensures value { (v : Val) → IsCell self.now cell v → MatchOption result ⊥ (λ n. NodeIs self.now n v) }
    {
        self.store.get(cell)
    }

    /// The environment with one more variable.
    pub(crate) fn link(&mut self, cell: Cell, rest: Chain) -> Result<Chain, OutOfMemory>
        ensures chain { (v : Val) (e : Env) → IsCell self.old cell v → IsChain self.old rest e → IfOk result (λ c. IsChain self.new c (v ∷ e)) }
        ensures kept { Keeps self.old self.new }
    {
        self.links.push(Link { cell, rest })?;
        Ok(Chain {
            links: self.links.len(),
        })
    }

    /// The value of a variable; past the first one there is none.
    pub(crate) fn look(&self, chain: Chain, index: u32) -> Option<Cell>
        ensures { (e : Env) → IsChain self.now chain e → MatchOption result (lookup e index ≡ v_unit) (λ c. IsCell self.now c (lookup e index)) }
    {
        let mut chain = chain;
        for _variable in 0..index {
            chain = self.top(chain)?.rest;
        }
        Some(self.top(chain)?.cell)
    }

    /// The last link of an environment.
    fn top(&self, chain: Chain) -> Option<Link>
        ensures { (e : Env) → IsChain self.now chain e → MatchOption result (e ≡ []) (λ l. (v : Val) × ((d : Env) × ((e ≡ v ∷ d) × IsCell self.now l.cell v × IsChain self.now l.rest d))) }
    {
        if chain.links == 0 {
            return None;
        }
        self.links.get(chain.links - 1).copied()
    }
}
