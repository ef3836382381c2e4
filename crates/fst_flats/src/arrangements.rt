//! Arrangements: of the int arguments of two terms of one head, each two are equal or not.

ghost use Rattle.std.specs.Prelude.{◌≡◌, ◌∷◌, [], ◌++◌, if◌then◌else◌, flat_map, map, IfOk, OnOk};
ghost use Rattle.fst_base.specs.Sorts.{plain_sort, same_sort};
ghost use Rattle.fst_flats.specs.Arranged.{arranged_pair};
ghost use Rattle.fst_flats.specs.Makes.{Makes};
ghost use Rattle.fst_flats.specs.Preparing.{sorts_in};
ghost use Rattle.fst_terms.specs.DataFacts.{arranged_with, arrangement, arrangements, is_arranged, is_int, positions, same_head};
ghost use Rattle.fst_terms.specs.Formulas.{either, equation, negation, sort_of};
ghost use Rattle.fst_terms.specs.Same.{same_term};
ghost use Rattle.fst_terms.specs.Terms.{plain_term, plain_terms};

use crate::arguments::arguments;
use crate::building::{Made, copied, either, equation, negation, push_made};
use crate::equations::are_literals;
use crate::sorting::sort_of;
use fst_base::{Op, OutOfMemory, Seq, Sort};
use fst_terms::Term;
use std::alloc::Global;

/// Whether the int arguments of the term are arranged: a constructor term with arguments, or an application.
#[tactic(auto, using(crate::proofs::PlainForms::plain_variants))]
fn is_arranged(term: &Term) -> bool
    ensures { result ≡ is_arranged (plain_term term.now) }
{
    match term {
        Term::Prim(op, _, _, _) => match op {
            Op::Pair | Op::Just | Op::Cons | Op::Inl | Op::Inr => true,
            _ => false,
        },
        Term::App(_, _, _) => true,
        _ => false,
    }
}

fn same_sort(left: &Sort, right: &Sort) -> bool
    ensures { result ≡ same_sort (plain_sort left.now) (plain_sort right.now) }
{
    left.same(right)
}

/// Whether both have one operator or function and one sort.
#[tactic(auto, using(crate::proofs::PlainForms::plain_variants))]
fn same_head(left: &Term, right: &Term) -> bool
    ensures { result ≡ same_head (plain_term left.now) (plain_term right.now) }
{
    match left {
        Term::Prim(a, s, _, _) => match right {
            Term::Prim(b, t, _, _) => *a == *b && same_sort(s, t),
            _ => false,
        },
        Term::App(a, s, _) => match right {
            Term::App(b, t, _) => *a == *b && same_sort(s, t),
            _ => false,
        },
        _ => false,
    }
}

fn same_term(left: &Term, right: &Term) -> bool
    ensures { result ≡ same_term (plain_term left.now) (plain_term right.now) }
{
    left.same(right)
}

/// Whether the term is an int.
#[tactic(auto, using(crate::proofs::PlainForms::plain_variants))]
fn is_int_term(alloc: Global, term: &Term, sorts: &[Sort]) -> Result<bool, OutOfMemory>
    ensures { IfOk result (λ b. b ≡ is_int (sort_of (sorts_in sorts.now) (plain_term term.now))) }
{
    match sort_of(alloc, term, sorts)? {
        Sort::Int => Ok(true),
        _ => Ok(false),
    }
}

/// Whether the two arguments are arranged: two different ints that aren't both literals.
fn are_arranged(
    alloc: Global,
    left: &Term,
    right: &Term,
    sorts: &[Sort],
) -> Result<bool, OutOfMemory>
    ensures { IfOk result (λ b. arrangement (sorts_in sorts.now) (plain_term left.now) (plain_term right.now) ≡ (if b then either (equation (plain_term left.now) (plain_term right.now)) (negation (equation (plain_term left.now) (plain_term right.now))) ∷ [] else [])) }
{
    if same_term(left, right) || are_literals(left, right) {
        return Ok(false);
    }
    Ok(is_int_term(alloc, left, sorts)? && is_int_term(alloc, right, sorts)?)
}

/// The arrangement of the two: t = u || not (t = u).
fn arrangement(alloc: Global, left: &Term, right: &Term) -> Made
    ensures { Makes result (either (equation (plain_term left.now) (plain_term right.now)) (negation (equation (plain_term left.now) (plain_term right.now)))) }
{
    let equal = equation(alloc, copied(alloc, left), copied(alloc, right));
    let other = equation(alloc, copied(alloc, left), copied(alloc, right));
    either(alloc, equal, negation(alloc, other))
}

/// Adds the arrangement of two arguments.
fn add_arrangement(
    alloc: Global,
    left: &Term,
    right: &Term,
    sorts: &[Sort],
    made: &mut Seq<Term>,
) -> Result<(), OutOfMemory>
    ensures { OnOk result (map plain_term made.new ≡ map plain_term made.old ++ arrangement (sorts_in sorts.now) (plain_term left.now) (plain_term right.now)) }
{
    if are_arranged(alloc, left, right, sorts)? {
        return push_made(arrangement(alloc, left, right), made);
    }
    Ok(())
}

/// Adds the arrangements of these arguments with those, place by place.
fn add_positions(
    alloc: Global,
    left: &[Term],
    right: &[Term],
    sorts: &[Sort],
    made: &mut Seq<Term>,
) -> Result<(), OutOfMemory>
    ensures { OnOk result (map plain_term made.new ≡ map plain_term made.old ++ positions (sorts_in sorts.now) (plain_terms left.now) (plain_terms right.now)) }
{
    let count = left.len().min(right.len());
    for at in 0..count {
        add_arrangement(alloc, &left[at], &right[at], sorts, made)?;
    }
    Ok(())
}

/// Adds the arrangements of the two terms, where they have one head.
fn add_arranged(
    alloc: Global,
    term: &Term,
    other: &Term,
    sorts: &[Sort],
    made: &mut Seq<Term>,
) -> Result<(), OutOfMemory>
    ensures { OnOk result (map plain_term made.new ≡ map plain_term made.old ++ arranged_pair (sorts_in sorts.now) (plain_term term.now) (plain_term other.now)) }
{
    if same_head(term, other) {
        return add_positions(alloc, arguments(term), arguments(other), sorts, made);
    }
    Ok(())
}

/// Adds the arrangements of a term with the later ones.
fn arrange_with(
    alloc: Global,
    term: &Term,
    later: &[Term],
    sorts: &[Sort],
    made: &mut Seq<Term>,
) -> Result<(), OutOfMemory>
    ensures { OnOk result (map plain_term made.new ≡ map plain_term made.old ++ arranged_with (sorts_in sorts.now) (plain_term term.now) (map plain_term later.now)) }
{
    if is_arranged(term) {
        return arrange_each(alloc, term, later, sorts, made);
    }
    Ok(())
}

/// Adds the arrangements of a term with each of the later ones of its head.
fn arrange_each(
    alloc: Global,
    term: &Term,
    later: &[Term],
    sorts: &[Sort],
    made: &mut Seq<Term>,
) -> Result<(), OutOfMemory>
    ensures { OnOk result (map plain_term made.new ≡ map plain_term made.old ++ flat_map (arranged_pair (sorts_in sorts.now) (plain_term term.now)) (map plain_term later.now)) }
{
    for other in later {
        add_arranged(alloc, term, other, sorts, made)?;
    }
    Ok(())
}

/// The arrangements of these terms.
pub fn arrangements(alloc: Global, terms: &[Term], sorts: &[Sort]) -> Result<Seq<Term>, OutOfMemory>
    ensures { IfOk result (λ made. map plain_term made ≡ arrangements (sorts_in sorts.now) (map plain_term terms.now)) }
{
    let mut made = Seq::new(alloc);
    for at in 0..terms.len() {
        arrange_with(alloc, &terms[at], &terms[at + 1..], sorts, &mut made)?;
    }
    Ok(made)
}
