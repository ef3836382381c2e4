//! Values in cells, and back.

ghost use Rattle.std.specs.Prelude.{◌≡◌, ◌<◌, map, IfOk, IfSome};
ghost use Rattle.fst_base.specs.Values.{Val, plain_value, chain};
ghost use Rattle.fst_cells.specs.Lists.{ItemIs};
ghost use Rattle.fst_cells.specs.Trees.{Keeps, IsCell, AddsAtMost, nodes_of};

use crate::cell::{Cell, Node};
use crate::store::Store;
use fst_base::{Box, OutOfMemory, Seq, Value};
use std::alloc::Global;

impl Store {
    /// The cell of a value.
    #[cycle(put)]
    pub fn put(&mut self, value: &Value) -> Result<Cell, OutOfMemory>
        ensures cell { IfOk result (λ c. IsCell self.new c (plain_value value.now)) }
        ensures kept { Keeps self.old self.new }
        ensures few { IfOk result (λ c. AddsAtMost (nodes_of (plain_value value.now)) self.old self.new) }
    {
        match value {
            Value::Unit => self.add(Node::Unit),
            Value::Bool(truth) => self.add(Node::Bool(*truth)),
            Value::Int(number) => self.add(Node::Int(*number)),
            Value::Pair(first, second) => {
                let first = self.put(first.get())?;
                let second = self.put(second.get())?;
                self.pair(first, second)
            }
            Value::Nothing => self.add(Node::Nothing),
            Value::Just(part) => {
                let part = self.put(part.get())?;
                self.just(part)
            }
            Value::List(items) => self.put_items(items.as_slice()),
            Value::Left(part) => {
                let part = self.put(part.get())?;
                self.left(part)
            }
            Value::Right(part) => {
                let part = self.put(part.get())?;
                self.right(part)
            }
        }
    }

    /// The cell of a list, from its end.
    #[cycle(put)]
    fn put_items(&mut self, items: &[Value]) -> Result<Cell, OutOfMemory>
        ensures cell { IfOk result (λ c. IsCell self.new c (chain (map plain_value items.now))) }
        ensures kept { Keeps self.old self.new }
        ensures few { IfOk result (λ c. AddsAtMost (nodes_of (chain (map plain_value items.now))) self.old self.new) }
    {
        let mut rest = self.add(Node::Nil)?;
        let mut left = items.len();
        'items: while left > 0 {
            left -= 1;
            let item = self.put(&items[left])?;
            rest = self.cons(item, rest)?;
        }
        Ok(rest)
    }

    /// The value of a cell. A tree whose chain of items ends in no empty list is no value.
    #[cycle(value)]
    pub fn value(&self, alloc: Global, cell: Cell) -> Result<Value, OutOfMemory>
        ensures { (v : Val) → IsCell self.now cell v → IfOk result (λ x. plain_value x ≡ v) }
    {
        let Some(node) = self.descend(cell) else {
            return Err(OutOfMemory);
        };
        match node {
            Node::Unit => Ok(Value::Unit),
            Node::Bool(truth) => Ok(Value::Bool(truth)),
            Node::Int(number) => Ok(Value::Int(number)),
            Node::Pair(first, second) => {
                let first = Box::new(alloc, self.value(alloc, first)?)?;
                let second = Box::new(alloc, self.value(alloc, second)?)?;
                Ok(Value::Pair(first, second))
            }
            Node::Nothing => Ok(Value::Nothing),
            Node::Just(part) => Ok(Value::Just(Box::new(alloc, self.value(alloc, part)?)?)),
            Node::Nil => Ok(Value::List(Seq::new(alloc))),
            Node::Cons(_, _) => self.list(alloc, cell),
            Node::Left(part) => Ok(Value::Left(Box::new(alloc, self.value(alloc, part)?)?)),
            Node::Right(part) => Ok(Value::Right(Box::new(alloc, self.value(alloc, part)?)?)),
        }
    }

    #[cycle(value)]
    fn list(&self, alloc: Global, cell: Cell) -> Result<Value, OutOfMemory>
        ensures { (v : Val) → IsCell self.now cell v → IfOk result (λ x. plain_value x ≡ v) }
    {
        let mut items = Seq::new(alloc);
        let mut cell = cell;
        'items: while let Some((item, rest)) = self.item(cell) {
            items.push(self.value(alloc, item)?)?;
            cell = rest;
        }
        let Some(Node::Nil) = self.descend(cell) else {
            return Err(OutOfMemory);
        };
        Ok(Value::List(items))
    }

    /// The first item of a list and the rest.
    fn item(&self, cell: Cell) -> Option<(Cell, Cell)>
        ensures item { (v : Val) → IsCell self.now cell v → ItemIs self.now result v }
        ensures below { IfSome result (λ p. (p.0.at < cell.at) × (p.1.at < cell.at)) }
    {
        let Some(Node::Cons(item, rest)) = self.descend(cell) else {
            return None;
        };
        Some((item, rest))
    }
}
