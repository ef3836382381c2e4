ghost use Rattle.std.specs.Prelude.{◌≡◌, slice_get, [], List, length, IfOk, IfSome, OnErr, MatchOption};
ghost use Rattle.fst_base.specs.Sorts.{plain_sort};
ghost use Rattle.fst_base.specs.Values.{Val, v_pair, v_some, v_cons, v_inl, v_inr};

use crate::cell::{Cell, Node};
use crate::operands::Operands;
use fst_base::{Op, OutOfMemory, Seq, Sort};
use fst_prims::PrimFault;
use std::alloc::Global;

/// Values that share their parts. A cell stays the same tree for ever: the store only grows, at its end.
#[derive(Drop)]
pub struct Store {
    nodes: Seq<Node>,
}

impl Store {
    ghost use Rattle.fst_cells.specs.declared.cell.Node.TheVariants as node;
    ghost use Rattle.fst_cells.specs.Trees.{Keeps, IsFresh, IsBelow, NodeIs, IsCell, CellsAre};
    ghost use Rattle.fst_cells.specs.Made.{Makes, operands_of};

    /// The store without cells.
    pub fn new(alloc: Global) -> Store
        ensures { result.nodes ≡ [] }
    {
        Store {
            nodes: Seq::new(alloc),
        }
    }

    /// The number of cells.
    pub fn len(&self) -> usize
        ensures { result ≡ length self.now.nodes }
    {
        self.nodes.len()
    }

    /// The outermost constructor of a cell's value, with cells for its parts.
    pub fn node(&self, cell: Cell) -> Node
        requires { (v : Val) × IsCell self.now cell v }
        ensures { (v : Val) → IsCell self.now cell v → NodeIs self.now result v }
    {
        let Some(node) = self.get(cell) else {
            unreachable!();
        };
        node
    }

    /// The same, and `None` where the cell isn't one of this store.
    pub fn get(&self, cell: Cell) -> Option<Node>
        ensures value { (v : Val) → IsCell self.now cell v → MatchOption result ⊥ (λ n. NodeIs self.now n v) }
        ensures is { result ≡ slice_get self.now.nodes cell.at }
    {
        self.nodes.get(cell.at).copied()
    }

    /// The same, and `None` where a part doesn't stand before it.
    pub(crate) fn descend(&self, cell: Cell) -> Option<Node>
        ensures value { (v : Val) → IsCell self.now cell v → MatchOption result ⊥ (λ n. NodeIs self.now n v) }
        ensures below { IfSome result (λ n. IsBelow cell.at n) }
    {
        let node = *self.nodes.get(cell.at)?;
        if node.is_below(cell.at) {
            Some(node)
        } else {
            None
        }
    }

    /// The cell of a value with this constructor and these parts.
    pub fn add(&mut self, node: Node) -> Result<Cell, OutOfMemory>
        ensures cell { (v : Val) → NodeIs self.old node v → IfOk result (λ c. IsCell self.new c v) }
        ensures kept { Keeps self.old self.new }
        ensures fresh { IfOk result (λ c. IsFresh self.old self.new node c) }
        ensures same { OnErr result (self.new ≡ self.old) }
    {
        let at = self.nodes.len();
        self.nodes.push(node)?;
        Ok(Cell { at })
    }

    pub(crate) fn pair(&mut self, first: Cell, second: Cell) -> Result<Cell, OutOfMemory>
        ensures cell { (v w : Val) → IsCell self.old first v → IsCell self.old second w → IfOk result (λ c. IsCell self.new c (v_pair v w)) }
        ensures kept { Keeps self.old self.new }
        ensures fresh { IfOk result (λ c. IsFresh self.old self.new (node.Pair first second) c) }
    {
        self.add(Node::Pair(first, second))
    }

    pub(crate) fn cons(&mut self, first: Cell, rest: Cell) -> Result<Cell, OutOfMemory>
        ensures cell { (v w : Val) → IsCell self.old first v → IsCell self.old rest w → IfOk result (λ c. IsCell self.new c (v_cons v w)) }
        ensures kept { Keeps self.old self.new }
        ensures fresh { IfOk result (λ c. IsFresh self.old self.new (node.Cons first rest) c) }
    {
        self.add(Node::Cons(first, rest))
    }

    pub(crate) fn just(&mut self, part: Cell) -> Result<Cell, OutOfMemory>
        ensures cell { (v : Val) → IsCell self.old part v → IfOk result (λ c. IsCell self.new c (v_some v)) }
        ensures kept { Keeps self.old self.new }
        ensures fresh { IfOk result (λ c. IsFresh self.old self.new (node.Just part) c) }
    {
        self.add(Node::Just(part))
    }

    pub(crate) fn left(&mut self, part: Cell) -> Result<Cell, OutOfMemory>
        ensures cell { (v : Val) → IsCell self.old part v → IfOk result (λ c. IsCell self.new c (v_inl v)) }
        ensures kept { Keeps self.old self.new }
        ensures fresh { IfOk result (λ c. IsFresh self.old self.new (node.Left part) c) }
    {
        self.add(Node::Left(part))
    }

    pub(crate) fn right(&mut self, part: Cell) -> Result<Cell, OutOfMemory>
        ensures cell { (v : Val) → IsCell self.old part v → IfOk result (λ c. IsCell self.new c (v_inr v)) }
        ensures kept { Keeps self.old self.new }
        ensures fresh { IfOk result (λ c. IsFresh self.old self.new (node.Right part) c) }
    {
        self.add(Node::Right(part))
    }

    /// What a primitive gives on these arguments, where `sort` is the sort of its result. The cells before stay as they were.
    ///
    /// `PastRange` where that is a number outside 128 bits, `ZeroDivisor` at a division or a remainder by 0.
    pub fn make(&mut self, op: Op, args: &[Cell], sort: &Sort) -> Result<Cell, PrimFault>
        ensures makes { (vs : List Val) → CellsAre self.old args.now vs → Makes op (operands_of args.now) (plain_sort sort.now) vs self.old self.new result }
        ensures kept { Keeps self.old self.new }
    {
        self.apply(op, Operands::of(args), sort)
    }
}
