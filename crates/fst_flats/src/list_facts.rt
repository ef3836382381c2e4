//! Data facts of lists, options and eithers.

ghost use Rattle.std.specs.Prelude.{◌≡◌, ◌∷◌, [], map, OnOk};
ghost use Rattle.fst_base.specs.Sorts.{plain_sort, s_int, s_list};
ghost use Rattle.fst_base.specs.declared.op.Op.TheVariants as op;
ghost use Rattle.fst_flats.specs.Makes.{Makes};
ghost use Rattle.fst_flats.specs.Preparing.{sorts_in};
ghost use Rattle.fst_flats.specs.Rows.{cons_facts, nullary_facts, unary_facts};
ghost use Rattle.fst_terms.specs.DataFacts.{either_fact, item_sort, left_sort, len_term, list_fact, option_fact, right_sort};
ghost use Rattle.fst_terms.specs.Formulas.{nought, sort_of};
ghost use Rattle.fst_terms.specs.Same.{firsts};
ghost use Rattle.fst_terms.specs.Terms.{Tm, plain_term};

use crate::building::{
    Made, at_most, binary, copied, either, equation, implies, nullary, number, unary,
};
use crate::keyed::Keyed;
use crate::lengths::is_sort_among;
use crate::sorting::boxed_sort;
use fst_base::{Box, Op, OutOfMemory, Sort, boxed};
use fst_terms::Term;
use std::alloc::Global;

/// Puts the made term last, unless it is there.
pub fn add_made(alloc: Global, fact: Made, facts: &mut Keyed) -> Result<(), OutOfMemory>
    ensures { OnOk result ((e : Tm) → Makes fact e → map plain_term facts.new ≡ firsts (map plain_term facts.old) (e ∷ [])) }
{
    let fact = boxed(alloc, fact)?;
    facts.add(alloc, fact.get())
}

/// The length of a list.
fn length(alloc: Global, list: &Term) -> Made
    ensures { Makes result (len_term (plain_term list.now)) }
{
    unary(alloc, Op::Len, &Sort::Int, copied(alloc, list))
}

fn zero() -> Made
    ensures { Makes result nought }
{
    number(0)
}

/// The fact of a constructor term without arguments: the empty list has length 0, where lengths of its sort are spoken of.
pub fn add_nullary_facts(
    alloc: Global,
    op: Op,
    sort: &Sort,
    term: &Term,
    lens: &[Sort],
    facts: &mut Keyed,
) -> Result<(), OutOfMemory>
    ensures { OnOk result (map plain_term facts.new ≡ firsts (map plain_term facts.old) (nullary_facts (map plain_sort lens.now) op (plain_sort sort.now) (plain_term term.now))) }
{
    if op == Op::Nil && is_sort_among(sort, lens) {
        return add_made(alloc, equation(alloc, length(alloc, term), zero()), facts);
    }
    Ok(())
}

/// The fact of a cons: its length is one more than that of its tail, where lengths of its sort are spoken of.
pub fn add_cons_facts(
    alloc: Global,
    sort: &Sort,
    tail: &Term,
    term: &Term,
    lens: &[Sort],
    facts: &mut Keyed,
) -> Result<(), OutOfMemory>
    ensures { OnOk result (map plain_term facts.new ≡ firsts (map plain_term facts.old) (cons_facts (map plain_sort lens.now) (plain_sort sort.now) (plain_term tail.now) (plain_term term.now))) }
{
    if !is_sort_among(sort, lens) {
        return Ok(());
    }
    let more = binary(alloc, Op::Add, &Sort::Int, length(alloc, tail), number(1));
    add_made(alloc, equation(alloc, length(alloc, term), more), facts)
}

/// The facts of a length: it is at least 0, and only the empty list's is 0.
fn add_len_facts(
    alloc: Global,
    list: &Term,
    term: &Term,
    sorts: &[Sort],
    facts: &mut Keyed,
) -> Result<(), OutOfMemory>
    ensures { OnOk result (map plain_term facts.new ≡ firsts (map plain_term facts.old) (unary_facts (sorts_in sorts.now) op.Len s_int (plain_term list.now) (plain_term term.now))) }
{
    add_made(alloc, at_most(alloc, zero(), copied(alloc, term)), facts)?;
    let sort = boxed_sort(alloc, list, sorts)?;
    let is_empty = equation(
        alloc,
        copied(alloc, list),
        nullary(alloc, Op::Nil, sort.get()),
    );
    let is_zero = at_most(alloc, copied(alloc, term), zero());
    add_made(alloc, implies(alloc, is_zero, is_empty), facts)
}

/// The sort of a list's items.
#[tactic(auto, using(crate::proofs::PlainForms::plain_variants))]
fn item_sort(sort: &Sort) -> &Sort
    ensures { plain_sort result.now ≡ item_sort (plain_sort sort.now) }
{
    match sort {
        Sort::List(item) => item.get(),
        _ => sort,
    }
}

/// The sort of the left side of an either.
#[tactic(auto, using(crate::proofs::PlainForms::plain_variants))]
fn left_sort(sort: &Sort) -> &Sort
    ensures { plain_sort result.now ≡ left_sort (plain_sort sort.now) }
{
    match sort {
        Sort::Either(left, _) => left.get(),
        _ => sort,
    }
}

/// The sort of the right side of an either.
#[tactic(auto, using(crate::proofs::PlainForms::plain_variants))]
fn right_sort(sort: &Sort) -> &Sort
    ensures { plain_sort result.now ≡ right_sort (plain_sort sort.now) }
{
    match sort {
        Sort::Either(_, right) => right.get(),
        _ => sort,
    }
}

/// The fact of a list: it is empty, or the cons of its head and tail.
fn list_fact(alloc: Global, sort: &Sort, list: &Term) -> Made
    ensures { Makes result (list_fact (plain_sort sort.now) (plain_term list.now)) }
{
    let head = unary(alloc, Op::Hd, item_sort(sort), copied(alloc, list));
    let tail = unary(alloc, Op::Tl, sort, copied(alloc, list));
    let cons = binary(alloc, Op::Cons, sort, head, tail);
    let is_empty = equation(alloc, copied(alloc, list), nullary(alloc, Op::Nil, sort));
    either(alloc, is_empty, equation(alloc, copied(alloc, list), cons))
}

/// The fact of an option of this sort: it is none, or some of what it holds.
#[tactic(auto, using(crate::proofs::PlainForms::plain_variants))]
fn option_fact(alloc: Global, item: &Sort, option: &Term) -> Made
    ensures { Makes result (option_fact (plain_sort item.now) (plain_term option.now)) }
{
    let sort = Sort::Opt(Box::new(alloc, item.copy(alloc)?)?);
    let held = unary(alloc, Op::The, item, copied(alloc, option));
    let some = unary(alloc, Op::Just, &sort, held);
    let is_none = equation(
        alloc,
        copied(alloc, option),
        nullary(alloc, Op::Nothing, &sort),
    );
    either(alloc, is_none, equation(alloc, copied(alloc, option), some))
}

/// The fact of an either: it is the left one of what it holds, or the right one.
fn either_fact(alloc: Global, sort: &Sort, term: &Term) -> Made
    ensures { Makes result (either_fact (plain_sort sort.now) (plain_term term.now)) }
{
    let held = unary(alloc, Op::Outl, left_sort(sort), copied(alloc, term));
    let is_left = equation(
        alloc,
        copied(alloc, term),
        unary(alloc, Op::Inl, sort, held),
    );
    let held = unary(alloc, Op::Outr, right_sort(sort), copied(alloc, term));
    let is_right = equation(
        alloc,
        copied(alloc, term),
        unary(alloc, Op::Inr, sort, held),
    );
    either(alloc, is_left, is_right)
}

/// The fact of the list that a head of this sort is taken of.
#[tactic(auto, using(crate::proofs::PlainForms::plain_variants))]
fn head_fact(alloc: Global, item: &Sort, list: &Term) -> Made
    ensures { Makes result (list_fact (s_list (plain_sort item.now)) (plain_term list.now)) }
{
    let sort = Sort::List(Box::new(alloc, item.copy(alloc)?)?);
    list_fact(alloc, &sort, list)
}

/// The fact of the either that a side is taken of.
fn side_fact(alloc: Global, either: &Term, sorts: &[Sort]) -> Made
    ensures { Makes result (either_fact (sort_of (sorts_in sorts.now) (plain_term either.now)) (plain_term either.now)) }
{
    let sort = boxed_sort(alloc, either, sorts)?;
    either_fact(alloc, sort.get(), either)
}

/// The facts of a term of one argument: of a length, and of what a selector selects from.
pub fn add_unary_facts(
    alloc: Global,
    op: Op,
    sort: &Sort,
    arg: &Term,
    term: &Term,
    sorts: &[Sort],
    facts: &mut Keyed,
) -> Result<(), OutOfMemory>
    ensures { OnOk result (map plain_term facts.new ≡ firsts (map plain_term facts.old) (unary_facts (sorts_in sorts.now) op (plain_sort sort.now) (plain_term arg.now) (plain_term term.now))) }
{
    match op {
        Op::Len => add_len_facts(alloc, arg, term, sorts, facts),
        Op::Hd => add_made(alloc, head_fact(alloc, sort, arg), facts),
        Op::Tl => add_made(alloc, list_fact(alloc, sort, arg), facts),
        Op::The => add_made(alloc, option_fact(alloc, sort, arg), facts),
        Op::Outl => add_made(alloc, side_fact(alloc, arg, sorts), facts),
        Op::Outr => add_made(alloc, side_fact(alloc, arg, sorts), facts),
        _ => Ok(()),
    }
}
