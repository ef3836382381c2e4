//! What transformers of texts are put together of: ends, sequences, and the ways of an `if` and of a match.
ghost use Rattle.std.specs.Prelude.{◌≡◌, List, Ok, IfOk};
ghost use Rattle.fst_base.specs.Sorts.{plain_sort};
ghost use Rattle.fst_program.specs.Paths.{family};
ghost use Rattle.fst_program.specs.declared.goal.Choice.TheVariants as choice;
ghost use Rattle.fst_scopes.specs.Scopes.{sorts_in, terms_for};
ghost use Rattle.fst_star.specs.Plain.{plain_ways, plain_wp};
ghost use Rattle.fst_star.specs.Transformers.{w_none, w_post, w_then, w_way, w_ways};
ghost use Rattle.fst_star.specs.Translating.{joined_ways, one_or_two};
ghost use Rattle.fst_star.specs.Translation.{condition, missing, term_needs};
ghost use Rattle.fst_star.specs.declared.wp.Way.{Way};
ghost use Rattle.fst_star.specs.declared.wp.Wp.{Wp};
ghost use Rattle.fst_terms.specs.Formulas.{negation, put, sort_of};
ghost use Rattle.fst_terms.specs.Terms.{plain_term};
ghost use Rattle.fst_terms.specs.declared.term.Term.{Term};

use crate::dividing::{negation, term_needs};
use crate::making::{Node, need, post, then, ways};
use crate::putting::{put, put_box};
use crate::selecting::condition;
use crate::wp::{Way, Wp};
use fst_base::{Box, Name, OutOfMemory, Pos, Seq, Sort, one, pair};
use fst_program::{Choice, Con, SiteKind};
use fst_scopes::boxed_sort;
use fst_terms::Term;
use std::alloc::Global;

/// Ways in order, or want of memory.
pub type Ways = Result<Seq<Way<Wp>>, OutOfMemory>;

/// A way of this choice.
pub fn way(alloc: Global, choice: Choice, given: Result<Term, OutOfMemory>, rest: Node) -> Ways
    ensures { IfOk result (λ made. (phi : Term) × ((w : Wp) × ((given ≡ Ok phi) × (rest ≡ Ok w) × (plain_ways made ≡ w_way choice (plain_term phi) (plain_wp w) w_none)))) }
{
    let (given, rest) = pair(given, rest)?;
    let rest = rest.into_inner();
    one(
        alloc,
        Way {
            choice,
            given,
            rest,
        },
    )
}

/// A way before another.
pub fn joined(first: Seq<Way<Wp>>, second: Seq<Way<Wp>>) -> Ways
    ensures { IfOk result (λ made. plain_ways made ≡ joined_ways (plain_ways first) (plain_ways second)) }
{
    let mut first = first;
    first.append(second)?;
    Ok(first)
}

/// The ways of an `if`, with these sides.
pub fn sides(alloc: Global, test: &Term, terms: &[Term], left: Node, right: Node) -> Ways
    ensures { IfOk result (λ made. (v : Wp) × ((w : Wp) × ((left ≡ Ok v) × (right ≡ Ok w) × (plain_ways made ≡ w_way choice.Then (put (terms_for terms.now) (plain_term test.now)) (plain_wp v) (w_way choice.Else (negation (put (terms_for terms.now) (plain_term test.now))) (plain_wp w) w_none))))) }
{
    let left = way(alloc, Choice::Then, put(alloc, test, terms), left);
    let other = negation(alloc, put(alloc, test, terms));
    let (left, right) = pair(left, way(alloc, Choice::Else, other, right))?;
    joined(left, right)
}

/// What is asked for before a result, and the result.
pub fn returned(alloc: Global, term: &Term, terms: &[Term]) -> Node
    ensures { IfOk result (λ made. plain_wp made ≡ term_needs (plain_term term.now) (terms_for terms.now) (w_post (put (terms_for terms.now) (plain_term term.now)))) }
{
    let made = post(alloc, put(alloc, term, terms)?)?;
    term_needs(alloc, term, terms, made)
}

/// What is asked for before a choice by this term, and its ways.
pub fn chosen(alloc: Global, term: &Term, terms: &[Term], list: Ways) -> Node
    ensures { IfOk result (λ made. (ws : List (Way Wp)) × ((list ≡ Ok ws) × (plain_wp made ≡ term_needs (plain_term term.now) (terms_for terms.now) (w_ways (plain_ways ws))))) }
{
    let made = ways(alloc, list?)?;
    term_needs(alloc, term, terms, made)
}

/// The first, and then the rest under its result.
pub fn sequence(alloc: Global, first: Node, name: &Name, rest: Node) -> Node
    ensures { IfOk result (λ made. (v : Wp) × ((w : Wp) × ((first ≡ Ok v) × (rest ≡ Ok w) × (plain_wp made ≡ w_then (plain_wp v) name.now (plain_wp w))))) }
{
    let ((first, name), rest) = pair(pair(first, name.copy(alloc)), rest)?;
    then(alloc, first, name, rest)
}

/// A term with these terms for its variables, and its sort.
pub fn scrutinee(
    alloc: Global,
    term: &Term,
    terms: &[Term],
    sorts: &[Sort],
) -> Result<(Box<Term>, Box<Sort>), OutOfMemory>
    ensures term { IfOk result (λ made. plain_term made.0 ≡ put (terms_for terms.now) (plain_term term.now)) }
    ensures sort { IfOk result (λ made. plain_sort made.1 ≡ sort_of (sorts_in sorts.now) (put (terms_for terms.now) (plain_term term.now))) }
{
    let term = put_box(alloc, term, terms)?;
    let sort = boxed_sort(alloc, term.get(), sorts)?;
    Ok((term, sort))
}

/// The transformer of a constructor without an arm, in a match at this place.
#[tactic(auto, using(fst_scopes::proofs::PlainForms::plain_variants))]
pub fn missing(alloc: Global, at: Pos) -> Node
    ensures { IfOk result (λ made. plain_wp made ≡ missing at.at) }
{
    let none = ways(alloc, Seq::new(alloc))?;
    need(alloc, Term::Bool(false), SiteKind::Match, at, none)
}

/// The way of a constructor of this scrutinee, of this sort.
pub fn case(alloc: Global, con: Con, sort: &Sort, term: &Term, rest: Node) -> Ways
    ensures { IfOk result (λ made. (w : Wp) × ((rest ≡ Ok w) × (plain_ways made ≡ w_way (choice.Case con) (condition con (plain_sort sort.now) (plain_term term.now)) (plain_wp w) w_none))) }
{
    way(
        alloc,
        Choice::Case(con),
        condition(alloc, con, sort, term),
        rest,
    )
}

/// The constructors of one sort, in order: the first, and the second where there are two.
pub fn family(con: Con) -> (Con, Option<Con>)
    ensures { family con ≡ one_or_two result.0 result.1 }
{
    match con {
        Con::True | Con::False => (Con::True, Some(Con::False)),
        Con::Empty | Con::Full => (Con::Empty, Some(Con::Full)),
        Con::Nil | Con::Cons => (Con::Nil, Some(Con::Cons)),
        Con::Left | Con::Right => (Con::Left, Some(Con::Right)),
        Con::Pair => (Con::Pair, None),
    }
}
