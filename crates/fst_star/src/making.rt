//! Nodes of transformers, on the heap.
ghost use Rattle.std.specs.Prelude.{◌≡◌, map, IfOk};
ghost use Rattle.fst_base.specs.Sorts.{plain_sort};
ghost use Rattle.fst_star.specs.Plain.{plain_ways, plain_which, plain_wp};
ghost use Rattle.fst_star.specs.Transformers.{w_fresh, w_given, w_hole, w_hole_tail, w_need, w_post, w_then, w_ways};
ghost use Rattle.fst_terms.specs.Terms.{plain_term};

use crate::wp::{Way, Which, Wp};
use fst_base::{Box, Name, OutOfMemory, Pos, Seq, Sort};
use fst_program::SiteKind;
use fst_terms::{Formula, Term};
use std::alloc::Global;

/// A node, or want of memory.
pub type Node = Result<Box<Wp>, OutOfMemory>;

#[tactic(auto, using(crate::proofs::PlainLemmas::wp_variants))]
pub fn post(alloc: Global, term: Term) -> Node
    ensures { IfOk result (λ made. plain_wp made ≡ w_post (plain_term term)) }
{
    Box::new(alloc, Wp::Post(term))
}

#[tactic(auto, using(crate::proofs::PlainLemmas::wp_variants))]
pub fn need(alloc: Global, formula: Formula, kind: SiteKind, at: Pos, rest: Box<Wp>) -> Node
    ensures { IfOk result (λ made. plain_wp made ≡ w_need (plain_term formula) kind at.at (plain_wp rest)) }
{
    Box::new(alloc, Wp::Need(formula, kind, at, rest))
}

#[tactic(auto, using(crate::proofs::PlainLemmas::wp_variants))]
pub fn given(alloc: Global, formula: Formula, rest: Box<Wp>) -> Node
    ensures { IfOk result (λ made. plain_wp made ≡ w_given (plain_term formula) (plain_wp rest)) }
{
    Box::new(alloc, Wp::Given(formula, rest))
}

#[tactic(auto, using(crate::proofs::PlainLemmas::wp_variants))]
pub fn fresh(alloc: Global, name: Name, sort: Sort, rest: Box<Wp>) -> Node
    ensures { IfOk result (λ made. plain_wp made ≡ w_fresh name (plain_sort sort) (plain_wp rest)) }
{
    Box::new(alloc, Wp::Fresh(name, sort, rest))
}

#[tactic(auto, using(crate::proofs::PlainLemmas::wp_variants))]
pub fn ways(alloc: Global, ways: Seq<Way<Wp>>) -> Node
    ensures { IfOk result (λ made. plain_wp made ≡ w_ways (plain_ways ways)) }
{
    Box::new(alloc, Wp::Ways(ways))
}

#[tactic(auto, using(crate::proofs::PlainLemmas::wp_variants))]
pub fn then(alloc: Global, first: Box<Wp>, name: Name, rest: Box<Wp>) -> Node
    ensures { IfOk result (λ made. plain_wp made ≡ w_then (plain_wp first) name (plain_wp rest)) }
{
    Box::new(alloc, Wp::Then(first, name, rest))
}

#[tactic(auto, using(crate::proofs::PlainLemmas::wp_variants))]
pub fn hole(alloc: Global, which: Which, terms: Seq<Term>, name: Name, rest: Box<Wp>) -> Node
    ensures { IfOk result (λ made. plain_wp made ≡ w_hole (plain_which which) (map plain_term terms) name (plain_wp rest)) }
{
    Box::new(alloc, Wp::Hole(which, terms, name, rest))
}

#[tactic(auto, using(crate::proofs::PlainLemmas::wp_variants))]
pub fn hole_tail(alloc: Global, which: Which, terms: Seq<Term>) -> Node
    ensures { IfOk result (λ made. plain_wp made ≡ w_hole_tail (plain_which which) (map plain_term terms)) }
{
    Box::new(alloc, Wp::HoleTail(which, terms))
}
