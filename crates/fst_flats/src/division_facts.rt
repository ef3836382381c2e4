//! Data facts of divisions by a literal.

ghost use Rattle.std.specs.Prelude.{◌≡◌, ◌∷◌, [], true, false, pos, nat_abs, map, MatchOption, OnOk};
ghost use Rattle.fst_base.specs.Primitives.{in128};
ghost use Rattle.fst_base.specs.Sorts.{s_int};
ghost use Rattle.fst_base.specs.declared.op.Op.TheVariants as op;
ghost use Rattle.fst_flats.specs.Makes.{Makes};
ghost use Rattle.fst_flats.specs.Rows.{division_facts, quotient_rows, remainder_facts, remainder_rows, upper_facts};
ghost use Rattle.fst_terms.specs.DataFacts.{multiple, op_term, quotient_facts};
ghost use Rattle.fst_terms.specs.Formulas.{equation, less};
ghost use Rattle.fst_terms.specs.Same.{firsts};
ghost use Rattle.fst_terms.specs.Terms.{plain_term, t_int};

use crate::building::{Made, at_most, binary, copied, equation, less, number};
use crate::keyed::Keyed;
use crate::list_facts::add_made;
use fst_base::{Op, OutOfMemory, Sort};
use fst_terms::Term;
use std::alloc::Global;

/// k * (t / k).
fn multiple(alloc: Global, term: &Term, by: i128) -> Made
    ensures { Makes result (multiple (plain_term term.now) by) }
{
    let quotient = binary(alloc, Op::Div, &Sort::Int, copied(alloc, term), number(by));
    binary(alloc, Op::Mul, &Sort::Int, number(by), quotient)
}

/// The absolute value, where it lies within 128 bits.
fn size(number: i128) -> Option<i128>
    ensures { MatchOption result (in128 (pos (nat_abs number)) ≡ false) (λ size. (in128 (pos (nat_abs number)) ≡ true) × (size ≡ pos (nat_abs number))) }
{
    number.checked_abs()
}

/// t < k * (t / k) + size.
fn upper(alloc: Global, term: &Term, by: i128, size: i128) -> Made
    ensures { Makes result (less (plain_term term.now) (op_term op.Add s_int (multiple (plain_term term.now) by ∷ t_int size ∷ []))) }
{
    let next = binary(
        alloc,
        Op::Add,
        &Sort::Int,
        multiple(alloc, term, by),
        number(size),
    );
    less(alloc, copied(alloc, term), next)
}

/// Adds that a term is below the next multiple of k, where abs k lies within 128 bits.
fn add_upper(alloc: Global, term: &Term, by: i128, facts: &mut Keyed) -> Result<(), OutOfMemory>
    ensures { OnOk result (map plain_term facts.new ≡ firsts (map plain_term facts.old) (upper_facts (plain_term term.now) by)) }
{
    match size(by) {
        Some(size) => add_made(alloc, upper(alloc, term, by, size), facts),
        None => Ok(()),
    }
}

/// Adds the bounds of a term by multiples of k: k * (t / k) <= t, and t below the next one.
fn add_bounds(alloc: Global, term: &Term, by: i128, facts: &mut Keyed) -> Result<(), OutOfMemory>
    ensures { OnOk result (map plain_term facts.new ≡ firsts (map plain_term facts.old) (quotient_facts (plain_term term.now) by)) }
{
    add_made(
        alloc,
        at_most(alloc, multiple(alloc, term, by), copied(alloc, term)),
        facts,
    )?;
    add_upper(alloc, term, by, facts)
}

/// The facts of a quotient; that by 0 is 0.
fn add_quotient_facts(
    alloc: Global,
    term: &Term,
    by: i128,
    whole: &Term,
    facts: &mut Keyed,
) -> Result<(), OutOfMemory>
    ensures { OnOk result (map plain_term facts.new ≡ firsts (map plain_term facts.old) (quotient_rows (plain_term term.now) by (plain_term whole.now))) }
{
    if by == 0 {
        return add_made(
            alloc,
            equation(alloc, copied(alloc, whole), number(0)),
            facts,
        );
    }
    add_bounds(alloc, term, by, facts)
}

/// t - k * (t / k) is the remainder.
fn remainder(alloc: Global, term: &Term, by: i128, whole: &Term) -> Made
    ensures { Makes result (equation (plain_term whole.now) (op_term op.Sub s_int (plain_term term.now ∷ multiple (plain_term term.now) by ∷ []))) }
{
    let rest = binary(
        alloc,
        Op::Sub,
        &Sort::Int,
        copied(alloc, term),
        multiple(alloc, term, by),
    );
    equation(alloc, copied(alloc, whole), rest)
}

/// Adds the facts of a remainder by another number than 0.
fn add_remainder(
    alloc: Global,
    term: &Term,
    by: i128,
    whole: &Term,
    facts: &mut Keyed,
) -> Result<(), OutOfMemory>
    ensures { OnOk result (map plain_term facts.new ≡ firsts (map plain_term facts.old) (remainder_facts (plain_term term.now) by (plain_term whole.now))) }
{
    add_made(alloc, remainder(alloc, term, by, whole), facts)?;
    add_bounds(alloc, term, by, facts)
}

/// Adds the facts of a remainder; that by 0 is 0.
fn add_remainder_facts(
    alloc: Global,
    term: &Term,
    by: i128,
    whole: &Term,
    facts: &mut Keyed,
) -> Result<(), OutOfMemory>
    ensures { OnOk result (map plain_term facts.new ≡ firsts (map plain_term facts.old) (remainder_rows (plain_term term.now) by (plain_term whole.now))) }
{
    if by == 0 {
        return add_made(
            alloc,
            equation(alloc, copied(alloc, whole), number(0)),
            facts,
        );
    }
    add_remainder(alloc, term, by, whole, facts)
}

/// The facts of a term of this operator, of `term` and of a literal.
pub fn add_division_facts(
    alloc: Global,
    op: Op,
    term: &Term,
    by: i128,
    whole: &Term,
    facts: &mut Keyed,
) -> Result<(), OutOfMemory>
    ensures { OnOk result (map plain_term facts.new ≡ firsts (map plain_term facts.old) (division_facts op (plain_term term.now) (Some by) (plain_term whole.now))) }
{
    match op {
        Op::Div => add_quotient_facts(alloc, term, by, whole, facts),
        Op::Rem => add_remainder_facts(alloc, term, by, whole, facts),
        _ => Ok(()),
    }
}
