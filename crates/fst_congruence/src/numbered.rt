ghost use Rattle.std.specs.Prelude.{◌≡◌, ◌+◌, ◌<◌, ◌∷◌, false, length, get_or, map, take, IfOk, IsTrue};
ghost use Rattle.fst_base.specs.Sorts.{plain_sort};
ghost use Rattle.fst_congruence.specs.Numbered.{maker, constructor_of, arguments, is_of_op, is_of_function, same_head, number_of, kind_of, node_of, nodes_of, no_node, head_of, head_term, term_at, IsNumber, IsOnce};
ghost use Rattle.fst_terms.specs.Terms.{plain_term};
ghost use Rattle.fst_terms.specs.declared.term.Term.{Term};

use crate::log::place;
use crate::node::Node;
use crate::places::{Places, look_of, look_of_head};
use fst_base::{Op, OutOfMemory, Seq, Sort};
use fst_terms::Term;
use std::alloc::Global;

/// The number of a constructor, 0 for another operator.
fn maker(op: Op) -> u32
    ensures { result ≡ maker op }
{
    match op {
        Op::Pair => 3,
        Op::Nothing => 4,
        Op::Just => 5,
        Op::Nil => 6,
        Op::Cons => 7,
        Op::Inl => 8,
        Op::Inr => 9,
        _ => 0,
    }
}

/// The constructor that a term begins with, 0 for none.
fn constructor_of(term: &Term) -> u32
    ensures { result ≡ constructor_of (plain_term term.now) }
{
    match term {
        Term::Bool(true) => 1,
        Term::Bool(false) => 2,
        Term::Prim(op, _, _, _) => maker(*op),
        Term::Var(_) => 0,
        Term::Int(_) => 0,
        Term::Unit => 0,
        Term::If(_, _, _) => 0,
        Term::App(_, _, _) => 0,
        Term::Let(_, _, _) => 0,
    }
}

/// The arguments of a term.
fn arguments(term: &Term) -> &[Term]
    ensures { map plain_term result.now ≡ arguments (plain_term term.now) }
{
    match term {
        Term::Prim(_, _, args, _) => args.as_slice(),
        Term::App(_, _, args) => args.as_slice(),
        Term::Var(_) => &[],
        Term::Int(_) => &[],
        Term::Bool(_) => &[],
        Term::Unit => &[],
        Term::If(_, _, _) => &[],
        Term::Let(_, _, _) => &[],
    }
}

fn is_of_op(op: Op, sort: &Sort, term: &Term) -> bool
    ensures { result ≡ is_of_op op (plain_sort sort.now) (plain_term term.now) }
{
    match term {
        Term::Prim(other, at, _, _) => op == *other && sort.same(at),
        Term::Var(_) => false,
        Term::Int(_) => false,
        Term::Bool(_) => false,
        Term::Unit => false,
        Term::If(_, _, _) => false,
        Term::App(_, _, _) => false,
        Term::Let(_, _, _) => false,
    }
}

fn is_of_function(function: u32, sort: &Sort, term: &Term) -> bool
    ensures { result ≡ is_of_function function (plain_sort sort.now) (plain_term term.now) }
{
    match term {
        Term::App(other, at, _) => function == *other && sort.same(at),
        Term::Var(_) => false,
        Term::Int(_) => false,
        Term::Bool(_) => false,
        Term::Unit => false,
        Term::Prim(_, _, _, _) => false,
        Term::If(_, _, _) => false,
        Term::Let(_, _, _) => false,
    }
}

/// Whether two terms have one head and one sort.
fn same_head(left: &Term, right: &Term) -> bool
    ensures { result ≡ same_head (plain_term left.now) (plain_term right.now) }
{
    match left {
        Term::Prim(op, sort, _, _) => is_of_op(*op, sort, right),
        Term::App(function, sort, _) => is_of_function(*function, sort, right),
        Term::Var(_) => left.same(right),
        Term::Int(_) => left.same(right),
        Term::Bool(_) => left.same(right),
        Term::Unit => left.same(right),
        Term::If(_, _, _) => left.same(right),
        Term::Let(_, _, _) => left.same(right),
    }
}

/// Whether the term is one of a primitive or of a function: others are their own heads.
fn is_applied(term: &Term) -> bool
    ensures { result ≡ false → head_of (plain_term term.now) ≡ head_term (plain_term term.now) }
{
    match term {
        Term::Prim(_, _, _, _) => true,
        Term::App(_, _, _) => true,
        Term::Var(_) => false,
        Term::Int(_) => false,
        Term::Bool(_) => false,
        Term::Unit => false,
        Term::If(_, _, _) => false,
        Term::Let(_, _, _) => false,
    }
}

/// The number of the first term of the same head and sort, 0 for none.
fn first_kind(terms: &[Term], term: &Term) -> Result<u32, OutOfMemory>
    ensures { IfOk result (λ kind. kind ≡ kind_of (map plain_term terms.now) (plain_term term.now)) }
{
    for at in 0..terms.len() {
        if same_head(term, &terms[at]) {
            return place(at);
        }
    }
    Ok(0)
}

/// The same for the term at this place, where the nodes of the terms before it are there: a term that is its own head has its own
/// number, and of another one a term is guessed that has its head.
fn kind_of(terms: &[Term], nodes: &[Node], heads: &Places, at: usize) -> Result<u32, OutOfMemory>
    requires at { at < length terms.now }
    requires once { IsOnce (map plain_term terms.now) }
    requires nodes { nodes.now ≡ no_node ∷ map (node_of (map plain_term terms.now)) (map plain_term (take at terms.now)) }
    ensures { (d : Term) → IfOk result (λ kind. kind ≡ kind_of (map plain_term terms.now) (plain_term (get_or terms.now at d))) }
{
    let term = &terms[at];
    if !is_applied(term) {
        return place(at);
    }
    let likely = heads.guess(look_of_head(term)) as usize;
    if likely > 0 && likely < nodes.len() && same_head(term, &terms[likely - 1]) {
        return Ok(nodes[likely].kind);
    }
    first_kind(terms, term)
}

/// The number of the first term that is this one, 0 for none.
fn first_number(terms: &[Term], term: &Term) -> Result<u32, OutOfMemory>
    ensures { IfOk result (λ number. number ≡ number_of (map plain_term terms.now) (plain_term term.now)) }
{
    for at in 0..terms.len() {
        if term.same(&terms[at]) {
            return place(at);
        }
    }
    Ok(0)
}

/// Whether the term has this number.
fn is_at(terms: &[Term], number: u32, term: &Term) -> bool
    ensures { IsTrue result → IsNumber (map plain_term terms.now) number × (term_at (map plain_term terms.now) number ≡ plain_term term.now) }
{
    let after = number as usize;
    after > 0 && after <= terms.len() && term.same(&terms[after - 1])
}

/// The number of a term, 0 for none: a guess that is right, and else the first one of all.
pub fn number_of(terms: &[Term], places: &Places, term: &Term) -> Result<u32, OutOfMemory>
    requires { IsOnce (map plain_term terms.now) }
    ensures { IfOk result (λ number. number ≡ number_of (map plain_term terms.now) (plain_term term.now)) }
{
    let likely = places.guess(look_of(term));
    if is_at(terms, likely, term) {
        return Ok(likely);
    }
    first_number(terms, term)
}

/// The numbers of these terms.
fn numbers_of(
    alloc: Global,
    terms: &[Term],
    places: &Places,
    args: &[Term],
) -> Result<Seq<u32>, OutOfMemory>
    requires { IsOnce (map plain_term terms.now) }
    ensures { IfOk result (λ numbers. numbers ≡ map (number_of (map plain_term terms.now)) (map plain_term args.now)) }
{
    let mut numbers = Seq::new(alloc);
    for arg in args {
        numbers.push(number_of(terms, places, arg)?)?;
    }
    Ok(numbers)
}

/// The places of all terms by their looks.
pub fn places_of(alloc: Global, terms: &[Term]) -> Result<Places, OutOfMemory> {
    let mut places = Places::new(alloc);
    for at in 0..terms.len() {
        places.put(look_of(&terms[at]), place(at)?)?;
    }
    Ok(places)
}

/// The nodes of numbered terms.
pub fn nodes_of(alloc: Global, terms: &[Term]) -> Result<Seq<Node>, OutOfMemory>
    requires { IsOnce (map plain_term terms.now) }
    ensures { IfOk result (λ nodes. nodes ≡ nodes_of (map plain_term terms.now)) }
{
    let places = places_of(alloc, terms)?;
    let mut heads = Places::new(alloc);
    let mut nodes = Seq::new(alloc);
    nodes.push(Node {
        kind: 0,
        constructor: 0,
        args: Seq::new(alloc),
    })?;
    for at in 0..terms.len() {
        let term = &terms[at];
        let kind = kind_of(terms, nodes.as_slice(), &heads, at)?;
        let args = numbers_of(alloc, terms, &places, arguments(term))?;
        let constructor = constructor_of(term);
        heads.put(look_of_head(term), kind)?;
        nodes.push(Node {
            kind,
            constructor,
            args,
        })?;
    }
    Ok(nodes)
}
