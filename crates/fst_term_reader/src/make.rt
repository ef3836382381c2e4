//! Nodes of terms, as the productions make them.

ghost use Rattle.std.specs.Prelude.{◌≡◌, IfOk};
ghost use Rattle.fst_syntax.specs.Trees as t;

use fst_base::{Box, Name, Op, OutOfMemory, Pos, Seq, boxes, one, pair, two};
use fst_syntax::{Comparison, Digits, Operator, Relation};
use fst_trees::{Form, FormNode, Word};
use std::alloc::Global;

pub fn truth(truth: bool, at: Pos) -> Form<Word>
    ensures { result ≡ t.truth truth at }
{
    Form {
        at,
        node: FormNode::Bool(truth),
    }
}

pub fn unit(at: Pos) -> Form<Word>
    ensures { result ≡ t.unit at }
{
    Form {
        at,
        node: FormNode::Unit,
    }
}

pub fn literal(digits: Digits) -> Form<Word>
    ensures { result ≡ t.literal digits.at digits.magnitude }
{
    let number = digits.magnitude.min(i128::MAX as u128) as i128;
    Form {
        at: digits.at,
        node: FormNode::Int(number),
    }
}

pub fn negative(at: Pos, magnitude: u128) -> Form<Word>
    ensures { result ≡ t.negative at magnitude }
{
    let number = if magnitude < 1 << 127 {
        -(magnitude as i128)
    } else {
        i128::MIN
    };
    Form {
        at,
        node: FormNode::Int(number),
    }
}

/// A reserved word that is used as a name.
pub fn the_word(alloc: Global, text: &str, at: Pos) -> Result<Word, OutOfMemory>
    ensures { IfOk result (λ w. w ≡ t.the_word text.now at) }
{
    let text = Name::new(alloc, text)?;
    Ok(Word { text, at })
}

/// The items as a chain of pairs.
#[tactic(auto, using(fst_syntax::proofs::Lists::steps))]
pub fn listed(alloc: Global, at: Pos, items: Seq<Form<Word>>) -> Result<Form<Word>, OutOfMemory>
    ensures { IfOk result (λ a. a ≡ t.listed at items) }
{
    let mut left = items;
    let mut list = nullary(alloc, Op::Nil, at);
    while let Some(item) = left.pop() {
        list = binary(alloc, Op::Cons, at, item, list)?;
    }
    Ok(list)
}

pub fn ident(name: Word) -> Form<Word>
    ensures { result ≡ t.ident name }
{
    Form {
        at: name.at,
        node: FormNode::Ident(name),
    }
}

pub fn applied(name: Word, args: Seq<Form<Word>>) -> Form<Word>
    ensures { result ≡ t.applied name args }
{
    Form {
        at: name.at,
        node: FormNode::App(name, args),
    }
}

pub fn nullary(alloc: Global, op: Op, at: Pos) -> Form<Word>
    ensures { result ≡ t.nullary op at }
{
    Form {
        at,
        node: FormNode::Prim(op, Seq::new(alloc)),
    }
}

pub fn unary(alloc: Global, op: Op, at: Pos, operand: Form<Word>) -> Result<Form<Word>, OutOfMemory>
    ensures { IfOk result (λ a. a ≡ t.unary op at operand) }
{
    let operands = one(alloc, operand)?;
    Ok(Form {
        at,
        node: FormNode::Prim(op, operands),
    })
}

pub fn binary(
    alloc: Global,
    op: Op,
    at: Pos,
    left: Form<Word>,
    right: Form<Word>,
) -> Result<Form<Word>, OutOfMemory>
    ensures { IfOk result (λ a. a ≡ t.binary op at left right) }
{
    let operands = two(alloc, left, right)?;
    Ok(Form {
        at,
        node: FormNode::Prim(op, operands),
    })
}

pub fn choice(
    alloc: Global,
    at: Pos,
    condition: Form<Word>,
    yes: Form<Word>,
    no: Form<Word>,
) -> Result<Form<Word>, OutOfMemory>
    ensures { IfOk result (λ a. a ≡ t.choice at condition yes no) }
{
    let (parts, no) = pair(boxes(alloc, condition, yes), Box::new(alloc, no))?;
    let (condition, yes) = parts;
    Ok(if_then_else(at, condition, yes, no))
}

/// The same of terms that stand on the heap.
pub fn if_then_else(
    at: Pos,
    condition: Box<Form<Word>>,
    yes: Box<Form<Word>>,
    no: Box<Form<Word>>,
) -> Form<Word>
    ensures { result ≡ t.choice at condition yes no }
{
    Form {
        at,
        node: FormNode::If(condition, yes, no),
    }
}

pub fn let_in(at: Pos, name: Word, bound: Box<Form<Word>>, rest: Box<Form<Word>>) -> Form<Word>
    ensures { result ≡ t.let_in at name bound rest }
{
    Form {
        at,
        node: FormNode::Let(name, bound, rest),
    }
}

pub fn negation(alloc: Global, at: Pos, operand: Form<Word>) -> Result<Form<Word>, OutOfMemory>
    ensures { IfOk result (λ a. a ≡ t.negation at operand) }
{
    choice(alloc, at, operand, truth(false, at), truth(true, at))
}

pub fn conjunction(
    alloc: Global,
    at: Pos,
    left: Form<Word>,
    right: Form<Word>,
) -> Result<Form<Word>, OutOfMemory>
    ensures { IfOk result (λ a. a ≡ t.conjunction at left right) }
{
    choice(alloc, at, left, right, truth(false, at))
}

pub fn disjunction(
    alloc: Global,
    at: Pos,
    left: Form<Word>,
    right: Form<Word>,
) -> Result<Form<Word>, OutOfMemory>
    ensures { IfOk result (λ a. a ≡ t.disjunction at left right) }
{
    choice(alloc, at, left, truth(true, at), right)
}

pub fn operated(
    alloc: Global,
    operator: Operator,
    left: Form<Word>,
    right: Form<Word>,
) -> Result<Form<Word>, OutOfMemory>
    ensures { IfOk result (λ a. a ≡ t.operated operator left right) }
{
    binary(alloc, operator.op, operator.at, left, right)
}

/// The tree of `left` with the implication that may follow it.
pub fn implied_by(
    alloc: Global,
    left: Form<Word>,
    more: Option<(Pos, Form<Word>)>,
) -> Result<Form<Word>, OutOfMemory>
    ensures { IfOk result (λ a. a ≡ t.implied_by left more) }
{
    match more {
        Some((at, right)) => choice(alloc, at, left, right, truth(true, at)),
        None => Ok(left),
    }
}

pub fn cons_by(
    alloc: Global,
    left: Form<Word>,
    more: Option<(Pos, Form<Word>)>,
) -> Result<Form<Word>, OutOfMemory>
    ensures { IfOk result (λ a. a ≡ t.cons_by left more) }
{
    match more {
        Some((at, right)) => binary(alloc, Op::Cons, at, left, right),
        None => Ok(left),
    }
}

pub fn compared_by(
    alloc: Global,
    left: Form<Word>,
    more: Option<(Comparison, Form<Word>)>,
) -> Result<Form<Word>, OutOfMemory>
    ensures { IfOk result (λ a. a ≡ t.compared_by left more) }
{
    match more {
        Some((comparison, right)) => compared(alloc, comparison, left, right),
        None => Ok(left),
    }
}

fn compared(
    alloc: Global,
    comparison: Comparison,
    left: Form<Word>,
    right: Form<Word>,
) -> Result<Form<Word>, OutOfMemory>
    ensures { IfOk result (λ a. a ≡ t.compared comparison left right) }
{
    let at = comparison.at;
    match comparison.relation {
        Relation::Equal => binary(alloc, Op::Eq, at, left, right),
        Relation::NotEqual => {
            let equal = binary(alloc, Op::Eq, at, left, right)?;
            negation(alloc, at, equal)
        }
        Relation::LessEqual => binary(alloc, Op::Le, at, left, right),
        Relation::Less => binary(alloc, Op::Lt, at, left, right),
        Relation::GreaterEqual => binary(alloc, Op::Le, at, right, left),
        Relation::Greater => binary(alloc, Op::Lt, at, right, left),
    }
}

pub fn applied_to(name: Word, args: Option<Seq<Form<Word>>>) -> Form<Word>
    ensures { result ≡ t.applied_to name args }
{
    match args {
        Some(args) => applied(name, args),
        None => ident(name),
    }
}
