//! Primitives on cells.

ghost use Rattle.std.specs.Prelude.{◌≡◌, ◌<◌, slice_get, [], ◌∷◌, ℕ, ℤ, pos, Bool, false, List, IfOk, IfSome, Ok, Some};
ghost use Rattle.fst_base.specs.Sorts.{plain_sort};
ghost use Rattle.fst_base.specs.Values.{Val, v_int, v_bool, v_pair, v_some, v_cons, v_inl, v_inr, default_of, same};
ghost use Rattle.fst_base.specs.Primitives.{int_of, first, second, len_of};
ghost use Rattle.fst_cells.specs.Made.{Made, Makes, OperandsAre, NumberIs, PartIs, RestIs, Selects};
ghost use Rattle.fst_cells.specs.Trees.{Keeps, IsFresh, IsGiven, IsCell, NodeIs, AddsAtMost, nodes_of};
ghost use Rattle.fst_cells.specs.declared.cell.Cell.{Cell as C};
ghost use Rattle.fst_cells.specs.declared.cell.Node.{Node as N};
ghost use Rattle.fst_cells.specs.declared.cell.Node.TheVariants as node;

use crate::cell::{Cell, Node};
use crate::compare::Compared;
use crate::numbers::{add, div, exact, mul, neg, rem, sub};
use crate::operands::Operands;
use crate::store::Store;
use fst_base::{Op, OutOfMemory, Sort};
use fst_prims::PrimFault;

impl Store {
    /// The argument; where there is none, unit.
    pub fn given(&mut self, argument: Option<Cell>) -> Result<Cell, OutOfMemory>
        ensures cell { (v : Val) → IsGiven self.old argument v → IfOk result (λ c. IsCell self.new c v) }
        ensures kept { Keeps self.old self.new }
        ensures there { IfSome argument (λ c. (result ≡ Ok c) × (self.new ≡ self.old)) }
    {
        match argument {
            Some(cell) => Ok(cell),
            None => self.add(Node::Unit),
        }
    }

    /// The constructor of an input.
    fn input_node(&self, input: Option<Cell>) -> Node
        ensures value { (v : Val) → IsGiven self.now input v → NodeIs self.now result v }
        ensures there { (c : C) (n : N) → input ≡ Some c → slice_get self.now.nodes c.at ≡ Some n → result ≡ n }
    {
        let Some(cell) = input else {
            return Node::Unit;
        };
        let Some(node) = self.get(cell) else {
            return Node::Unit;
        };
        node
    }

    /// The constructor of the first argument.
    fn head(&self, args: Operands) -> Node
        ensures value { (vs : List Val) → OperandsAre self.now args vs → NodeIs self.now result (first vs) }
        ensures there { (c : C) (n : N) → args.first ≡ Some c → slice_get self.now.nodes c.at ≡ Some n → result ≡ n }
    {
        self.input_node(args.first)
    }

    /// The number that an argument is; 0 where it isn't there.
    fn int(&self, input: Option<Cell>) -> i128
        ensures { (v : Val) → IsGiven self.now input v → result ≡ int_of v }
    {
        match self.input_node(input) {
            Node::Int(number) => number,
            _ => 0,
        }
    }

    fn number(&mut self, number: Result<i128, PrimFault>) -> Result<Cell, PrimFault>
        ensures made { (n : ℤ) (z : Bool) → NumberIs n z number → Made self.new (v_int n) z result }
        ensures kept { Keeps self.old self.new }
        ensures few { IfOk result (λ c. AddsAtMost 1 self.old self.new) }
    {
        Ok(self.add(Node::Int(number?))?)
    }

    fn truth(&mut self, truth: bool) -> Result<Cell, PrimFault>
        ensures made { Made self.new (v_bool truth) false result }
        ensures kept { Keeps self.old self.new }
        ensures few { IfOk result (λ c. AddsAtMost 1 self.old self.new) }
    {
        Ok(self.add(Node::Bool(truth))?)
    }

    /// The default value of a sort.
    fn default(&mut self, sort: &Sort) -> Result<Cell, OutOfMemory>
        ensures cell { IfOk result (λ c. IsCell self.new c (default_of (plain_sort sort.now))) }
        ensures kept { Keeps self.old self.new }
        ensures few { IfOk result (λ c. AddsAtMost (nodes_of (default_of (plain_sort sort.now))) self.old self.new) }
    {
        match sort {
            Sort::Unit => self.add(Node::Unit),
            Sort::VarA => self.add(Node::Unit),
            Sort::VarB => self.add(Node::Unit),
            Sort::Bool => self.add(Node::Bool(false)),
            Sort::Int => self.add(Node::Int(0)),
            Sort::Pair(first, second) => {
                let first = self.default(first.get())?;
                let second = self.default(second.get())?;
                self.pair(first, second)
            }
            Sort::Opt(_) => self.add(Node::Nothing),
            Sort::List(_) => self.add(Node::Nil),
            Sort::Either(part, _) => {
                let part = self.default(part.get())?;
                self.left(part)
            }
        }
    }

    /// The part that a selector found, or the default value.
    fn part(&mut self, part: Option<Cell>, sort: &Sort) -> Result<Cell, PrimFault>
        ensures selects { (v : Val) (lacking : Bool) → PartIs self.old part (plain_sort sort.now) v lacking → Selects (plain_sort sort.now) v lacking self.old self.new result }
        ensures kept { Keeps self.old self.new }
        ensures found { IfSome part (λ c. (result ≡ Ok c) × (self.new ≡ self.old)) }
    {
        match part {
            Some(cell) => Ok(cell),
            None => Ok(self.default(sort)?),
        }
    }

    fn two(&mut self, args: Operands) -> Result<(Cell, Cell), OutOfMemory>
        ensures cells { (vs : List Val) → OperandsAre self.old args vs → IfOk result (λ p. IsCell self.new p.0 (first vs) × IsCell self.new p.1 (second vs)) }
        ensures kept { Keeps self.old self.new }
        ensures there { (a b : C) → args.first ≡ Some a → args.second ≡ Some b → (result ≡ Ok (a, b)) × (self.new ≡ self.old) }
    {
        let first = self.given(args.first)?;
        let second = self.given(args.second)?;
        Ok((first, second))
    }

    fn make_pair(&mut self, args: Operands) -> Result<Cell, PrimFault>
        ensures made { (vs : List Val) → OperandsAre self.old args vs → Made self.new (v_pair (first vs) (second vs)) false result }
        ensures kept { Keeps self.old self.new }
        ensures fresh { (a b : C) → args.first ≡ Some a → args.second ≡ Some b → IfOk result (λ c. IsFresh self.old self.new (node.Pair a b) c) }
    {
        let (first, second) = self.two(args)?;
        Ok(self.pair(first, second)?)
    }

    fn make_cons(&mut self, args: Operands) -> Result<Cell, PrimFault>
        ensures made { (vs : List Val) → OperandsAre self.old args vs → Made self.new (v_cons (first vs) (second vs)) false result }
        ensures kept { Keeps self.old self.new }
        ensures fresh { (a b : C) → args.first ≡ Some a → args.second ≡ Some b → IfOk result (λ c. IsFresh self.old self.new (node.Cons a b) c) }
    {
        let (first, rest) = self.two(args)?;
        Ok(self.cons(first, rest)?)
    }

    fn make_just(&mut self, args: Operands) -> Result<Cell, PrimFault>
        ensures made { (vs : List Val) → OperandsAre self.old args vs → Made self.new (v_some (first vs)) false result }
        ensures kept { Keeps self.old self.new }
        ensures fresh { (a : C) → args.first ≡ Some a → IfOk result (λ c. IsFresh self.old self.new (node.Just a) c) }
    {
        let part = self.given(args.first)?;
        Ok(self.just(part)?)
    }

    fn make_left(&mut self, args: Operands) -> Result<Cell, PrimFault>
        ensures made { (vs : List Val) → OperandsAre self.old args vs → Made self.new (v_inl (first vs)) false result }
        ensures kept { Keeps self.old self.new }
        ensures fresh { (a : C) → args.first ≡ Some a → IfOk result (λ c. IsFresh self.old self.new (node.Left a) c) }
    {
        let part = self.given(args.first)?;
        Ok(self.left(part)?)
    }

    fn make_right(&mut self, args: Operands) -> Result<Cell, PrimFault>
        ensures made { (vs : List Val) → OperandsAre self.old args vs → Made self.new (v_inr (first vs)) false result }
        ensures kept { Keeps self.old self.new }
        ensures fresh { (a : C) → args.first ≡ Some a → IfOk result (λ c. IsFresh self.old self.new (node.Right a) c) }
    {
        let part = self.given(args.first)?;
        Ok(self.right(part)?)
    }

    /// A value without parts.
    fn leaf(&mut self, node: Node) -> Result<Cell, PrimFault>
        ensures made { (v : Val) → NodeIs self.old node v → Made self.new v false result }
        ensures kept { Keeps self.old self.new }
        ensures few { IfOk result (λ c. AddsAtMost 1 self.old self.new) }
    {
        Ok(self.add(node)?)
    }

    fn make_eq(&mut self, args: Operands) -> Result<Cell, PrimFault>
        ensures made { (vs : List Val) → OperandsAre self.old args vs → Made self.new (v_bool (same (first vs) (second vs))) false result }
        ensures kept { Keeps self.old self.new }
        ensures few { (a b : C) → args.first ≡ Some a → args.second ≡ Some b → IfOk result (λ c. AddsAtMost 1 self.old self.new) }
    {
        let (first, second) = self.two(args)?;
        let truth = self.same(first, second);
        self.truth(truth)
    }

    fn make_len(&mut self, args: Operands) -> Result<Cell, PrimFault>
        ensures made { (vs : List Val) → OperandsAre self.old args vs → Made self.new (v_int (pos (len_of (first vs)))) false result }
        ensures kept { Keeps self.old self.new }
        ensures few { IfOk result (λ c. AddsAtMost 1 self.old self.new) }
    {
        let items = self.items(args.first);
        self.number(exact(items as i128))
    }

    /// The number of items of a list; an input that isn't there has none.
    fn items(&self, input: Option<Cell>) -> usize
        ensures { (v : Val) → IsGiven self.now input v → result ≡ len_of v }
    {
        match input {
            Some(cell) => self.count(cell),
            None => 0,
        }
    }

    /// The number of items of a list.
    fn count(&self, cell: Cell) -> usize
        ensures { (v : Val) → IsCell self.now cell v → result ≡ len_of v }
    {
        let mut cell = cell;
        let mut count = 0;
        'items: while let Some(rest) = self.rest(cell) {
            count += 1;
            cell = rest;
        }
        count
    }

    /// The rest of a list that has an item.
    fn rest(&self, cell: Cell) -> Option<Cell>
        ensures rest { (v : Val) → IsCell self.now cell v → RestIs self.now result v }
        ensures below { IfSome result (λ c. c.at < cell.at) }
    {
        let Some(node) = self.descend(cell) else {
            return None;
        };
        node.rest()
    }

    /// Whether the two values are one tree. The depth is that of first parts.
    #[cycle(same)]
    pub fn same(&self, a: Cell, b: Cell) -> bool
        ensures { (v w : Val) → IsCell self.now a v → IsCell self.now b w → result ≡ same v w }
    {
        let mut a = a;
        let mut b = b;
        'parts: loop {
            let Some(x) = self.descend(a) else {
                return false;
            };
            let Some(y) = self.get(b) else {
                return false;
            };
            match x.compare(y) {
                Compared::Same => return true,
                Compared::Other => return false,
                Compared::Parts(c, d) => {
                    a = c;
                    b = d;
                }
                Compared::TwoParts(c, d, e, f) => {
                    if !self.same(c, d) {
                        return false;
                    }
                    a = e;
                    b = f;
                }
            }
        }
    }

    /// What a primitive gives on these arguments, where `sort` is the sort of its result. A missing argument counts as unit.
    pub fn apply(&mut self, op: Op, args: Operands, sort: &Sort) -> Result<Cell, PrimFault>
        ensures makes { (vs : List Val) → OperandsAre self.old args vs → Makes op args (plain_sort sort.now) vs self.old self.new result }
        ensures kept { Keeps self.old self.new }
    {
        match op {
            Op::Add => self.number(add(self.int(args.first), self.int(args.second))),
            Op::Sub => self.number(sub(self.int(args.first), self.int(args.second))),
            Op::Mul => self.number(mul(self.int(args.first), self.int(args.second))),
            Op::Div => self.number(div(self.int(args.first), self.int(args.second))),
            Op::Rem => self.number(rem(self.int(args.first), self.int(args.second))),
            Op::Neg => self.number(neg(self.int(args.first))),
            Op::Le => self.truth(self.int(args.first) <= self.int(args.second)),
            Op::Lt => self.truth(self.int(args.first) < self.int(args.second)),
            Op::Eq => self.make_eq(args),
            Op::Pair => self.make_pair(args),
            Op::Fst => self.part(self.head(args).fst(), sort),
            Op::Snd => self.part(self.head(args).snd(), sort),
            Op::Nothing => self.leaf(Node::Nothing),
            Op::Just => self.make_just(args),
            Op::Nil => self.leaf(Node::Nil),
            Op::Cons => self.make_cons(args),
            Op::Inl => self.make_left(args),
            Op::Inr => self.make_right(args),
            Op::Len => self.make_len(args),
            Op::Hd => self.part(self.head(args).hd(), sort),
            Op::Tl => self.part(self.head(args).tl(), sort),
            Op::The => self.part(self.head(args).the(), sort),
            Op::Outl => self.part(self.head(args).outl(), sort),
            Op::Outr => self.part(self.head(args).outr(), sort),
        }
    }
}
