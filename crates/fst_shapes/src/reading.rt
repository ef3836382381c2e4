//! The shapes of formulas.

ghost use Rattle.std.specs.Prelude.{◌≡◌, ◌&&◌, ◌∷◌, [], IfOk, ℕ};
ghost use Rattle.fst_base.specs.Sorts.{plain_sort};
ghost use Rattle.fst_base.specs.declared.op.Op.TheVariants as op;
ghost use Rattle.fst_shapes.specs.Preparing.{sorts_in};
ghost use Rattle.fst_shapes.specs.Sides.{is_by, is_long};
ghost use Rattle.fst_shapes.specs.Relations.{relation, relation_two};
ghost use Rattle.fst_shapes.specs.Shapes.{Shapes, before_end, bools_form, ends_equal, number_in, shaped, unless_made};
ghost use Rattle.fst_terms.specs.Formulas.{at_most, equation, make, sort_of};
ghost use Rattle.fst_terms.specs.Skeletons.{Skl, at_most_form, eithers_equal, equal, k_atom, k_not, less_form, lists_equal, made_by, numbers_equal, options_equal, simple, skeleton};
ghost use Rattle.fst_terms.specs.Terms.{Tm, plain_term, plain_terms, row, t_unit};

use crate::arguments::{argument, made_by};
use crate::building::{at_most, copied, equation};
use crate::meeting::{are_by, are_made, components, is_by, is_list_term, is_long};
use crate::relations::is_same;
use crate::shapes::{Shape, Shaped, agreement, atom, both, choice, truth};
use crate::sorting::boxed_sort;
use fst_base::{Box, Op, OutOfMemory, Seq, Sort, boxed};
use fst_terms::Term;
use std::alloc::Global;

/// A bool that stands as an argument.
#[tactic(auto, using(crate::proofs::PlainForms::plain_variants))]
fn simple(alloc: Global, term: &Term, atoms: &[Term]) -> Shaped
    ensures { Shapes (number_in atoms.now) result (simple (plain_term term.now)) }
{
    match term {
        Term::Bool(value) => truth(*value),
        _ => atom(alloc, atoms, term),
    }
}

/// The equation of the two.
fn whole(alloc: Global, left: &Term, right: &Term, atoms: &[Term]) -> Shaped
    ensures { Shapes (number_in atoms.now) result (k_atom (equation (plain_term left.now) (plain_term right.now))) }
{
    let made = boxed(
        alloc,
        equation(alloc, copied(alloc, left), copied(alloc, right)),
    )?;
    atom(alloc, atoms, made.get())
}

/// An equation of numbers; that of two literals is decided.
#[tactic(auto, using(crate::proofs::PlainForms::plain_variants))]
fn numbers(alloc: Global, left: &Term, right: &Term, atoms: &[Term]) -> Shaped
    ensures { Shapes (number_in atoms.now) result (numbers_equal (plain_term left.now) (plain_term right.now)) }
{
    match left {
        Term::Int(m) => match right {
            Term::Int(n) => truth(*m == *n),
            _ => whole(alloc, left, right, atoms),
        },
        _ => whole(alloc, left, right, atoms),
    }
}

/// The equation, but where both begin with constructors, which differ.
fn unless_made(alloc: Global, left: &Term, right: &Term, atoms: &[Term]) -> Shaped
    ensures { Shapes (number_in atoms.now) result (unless_made (made_by (plain_term left.now)) (made_by (plain_term right.now)) (plain_term left.now) (plain_term right.now)) }
{
    if are_made(left, right) {
        return truth(false);
    }
    whole(alloc, left, right, atoms)
}

/// The equation of two lists of which not both are conses of two arguments.
fn ends(alloc: Global, left: &Term, right: &Term, atoms: &[Term]) -> Shaped
    ensures { Shapes (number_in atoms.now) result (ends_equal (plain_term left.now) (made_by (plain_term right.now)) (plain_term right.now)) }
{
    if !is_list_term(left) {
        return whole(alloc, left, right, atoms);
    }
    if are_by(Op::Nil, left, right) {
        return truth(true);
    }
    unless_made(alloc, left, right, atoms)
}

/// Whether both are conses, the left one of two arguments.
fn are_long(left: &Term, right: &Term) -> bool
    ensures { result ≡ (is_long (plain_term left.now) && is_by op.Cons (made_by (plain_term right.now))) }
{
    is_long(left) && is_by(Op::Cons, right)
}

/// The equations of heads, and then that of the ends.
fn before(alloc: Global, mut heads: Seq<Shape>, end: Shaped) -> Shaped
    ensures { (n : Tm → ℕ) (k : Skl) → Shapes n end k → IfOk result (λ made. made ≡ before_end heads (shaped n k)) }
{
    let mut all = end;
    while let Some(head) = heads.pop() {
        all = choice(alloc, Ok(head), all, truth(false));
    }
    all
}

/// The equation of a component of the two.
#[cycle(shape)]
fn components_equal(
    alloc: Global,
    op: Op,
    sort: &Sort,
    left: &Term,
    right: &Term,
    unit: &Term,
    atoms: &[Term],
) -> Shaped
    requires { plain_term unit.now ≡ t_unit }
    ensures { Shapes (number_in atoms.now) result (equal (plain_sort sort.now) (make op (plain_sort sort.now) (row (plain_term left.now ∷ [])) 0) (make op (plain_sort sort.now) (row (plain_term right.now ∷ [])) 0)) }
{
    let (front, other) = components(alloc, op, sort, left, right)?;
    equal(alloc, sort, front.get(), other.get(), unit, atoms)
}

/// An equation of options: some t = some u is t = u.
#[cycle(shape)]
fn options(
    alloc: Global,
    item: &Sort,
    left: &Term,
    right: &Term,
    unit: &Term,
    atoms: &[Term],
) -> Shaped
    requires { plain_term unit.now ≡ t_unit }
    ensures { Shapes (number_in atoms.now) result (options_equal (equal (plain_sort item.now)) (made_by (plain_term left.now)) (made_by (plain_term right.now)) (plain_term left.now) (plain_term right.now)) }
{
    if are_by(Op::Just, left, right) {
        let left = argument(left, 0, unit);
        return equal(alloc, item, left, argument(right, 0, unit), unit, atoms);
    }
    if are_by(Op::Nothing, left, right) {
        return truth(true);
    }
    unless_made(alloc, left, right, atoms)
}

/// An equation of eithers: that of what two terms of one side hold.
#[cycle(shape)]
fn eithers(
    alloc: Global,
    first: &Sort,
    second: &Sort,
    left: &Term,
    right: &Term,
    unit: &Term,
    atoms: &[Term],
) -> Shaped
    requires { plain_term unit.now ≡ t_unit }
    ensures { Shapes (number_in atoms.now) result (eithers_equal (equal (plain_sort first.now)) (equal (plain_sort second.now)) (made_by (plain_term left.now)) (made_by (plain_term right.now)) (plain_term left.now) (plain_term right.now)) }
{
    if are_by(Op::Inl, left, right) {
        let left = argument(left, 0, unit);
        return equal(alloc, first, left, argument(right, 0, unit), unit, atoms);
    }
    if are_by(Op::Inr, left, right) {
        let left = argument(left, 0, unit);
        return equal(alloc, second, left, argument(right, 0, unit), unit, atoms);
    }
    unless_made(alloc, left, right, atoms)
}

/// An equation of lists, along both of them.
#[cycle(shape)]
fn lists(
    alloc: Global,
    item: &Sort,
    left: &Term,
    right: &Term,
    unit: &Term,
    atoms: &[Term],
) -> Shaped
    requires { plain_term unit.now ≡ t_unit }
    ensures { Shapes (number_in atoms.now) result (lists_equal (equal (plain_sort item.now)) (plain_term left.now) (plain_term right.now)) }
{
    let mut heads = Seq::new(alloc);
    let mut left = left;
    let mut right = right;
    while are_long(left, right) {
        let front = argument(left, 0, unit);
        let head = equal(alloc, item, front, argument(right, 0, unit), unit, atoms)?;
        heads.push(head)?;
        left = argument(left, 1, unit);
        right = argument(right, 1, unit);
    }
    before(alloc, heads, ends(alloc, left, right, atoms))
}

/// The equation of the two at a sort.
#[cycle(shape)]
#[tactic(auto, using(crate::proofs::PlainForms::plain_variants))]
fn equal(
    alloc: Global,
    sort: &Sort,
    left: &Term,
    right: &Term,
    unit: &Term,
    atoms: &[Term],
) -> Shaped
    requires { plain_term unit.now ≡ t_unit }
    ensures { Shapes (number_in atoms.now) result (equal (plain_sort sort.now) (plain_term left.now) (plain_term right.now)) }
{
    match sort {
        Sort::Unit => truth(true),
        Sort::Bool => {
            let first = simple(alloc, left, atoms);
            agreement(alloc, first, simple(alloc, right, atoms))
        }
        Sort::Int => numbers(alloc, left, right, atoms),
        Sort::VarA | Sort::VarB => whole(alloc, left, right, atoms),
        Sort::Pair(first, second) => {
            let front = components_equal(alloc, Op::Fst, first.get(), left, right, unit, atoms);
            let back = components_equal(alloc, Op::Snd, second.get(), left, right, unit, atoms);
            both(alloc, front, back)
        }
        Sort::Opt(item) => options(alloc, item.get(), left, right, unit, atoms),
        Sort::List(item) => lists(alloc, item.get(), left, right, unit, atoms),
        Sort::Either(first, second) => {
            eithers(alloc, first.get(), second.get(), left, right, unit, atoms)
        }
    }
}

/// The order of the two; that of two literals is decided.
#[tactic(auto, using(crate::proofs::PlainForms::plain_variants))]
fn order(alloc: Global, left: &Term, right: &Term, atoms: &[Term]) -> Shaped
    ensures { Shapes (number_in atoms.now) result (at_most_form (plain_term left.now) (plain_term right.now)) }
{
    match left {
        Term::Int(m) => match right {
            Term::Int(n) => truth(*m <= *n),
            _ => at_most_atom(alloc, left, right, atoms),
        },
        _ => at_most_atom(alloc, left, right, atoms),
    }
}

fn at_most_atom(alloc: Global, left: &Term, right: &Term, atoms: &[Term]) -> Shaped
    ensures { Shapes (number_in atoms.now) result (k_atom (at_most (plain_term left.now) (plain_term right.now))) }
{
    let made = boxed(
        alloc,
        at_most(alloc, copied(alloc, left), copied(alloc, right)),
    )?;
    atom(alloc, atoms, made.get())
}

/// The strict order of the two, which is that not the second is at most the first.
#[tactic(auto, using(crate::proofs::PlainForms::plain_variants))]
fn less(alloc: Global, left: &Term, right: &Term, atoms: &[Term]) -> Shaped
    ensures { Shapes (number_in atoms.now) result (less_form (plain_term left.now) (plain_term right.now)) }
{
    match left {
        Term::Int(m) => match right {
            Term::Int(n) => truth(*m < *n),
            _ => not_at_most(alloc, right, left, atoms),
        },
        _ => not_at_most(alloc, right, left, atoms),
    }
}

fn not_at_most(alloc: Global, left: &Term, right: &Term, atoms: &[Term]) -> Shaped
    ensures { Shapes (number_in atoms.now) result (k_not (k_atom (at_most (plain_term left.now) (plain_term right.now)))) }
{
    let test = at_most_atom(alloc, left, right, atoms);
    choice(alloc, test, truth(false), truth(true))
}

/// The equation of two that are no bools, at their sort.
fn equation_at(alloc: Global, left: &Term, right: &Term, sorts: &[Sort], atoms: &[Term]) -> Shaped
    ensures { Shapes (number_in atoms.now) result (equal (sort_of (sorts_in sorts.now) (plain_term left.now)) (plain_term left.now) (plain_term right.now)) }
{
    let sort = boxed_sort(alloc, left, sorts)?;
    let unit = Box::new(alloc, Term::Unit)?;
    equal(alloc, sort.get(), left, right, unit.get(), atoms)
}

/// A relation of two terms that is no equation of bools.
fn relation_two(
    alloc: Global,
    op: Op,
    sides: (&Term, &Term),
    term: &Term,
    sorts: &[Sort],
    atoms: &[Term],
) -> Shaped
    ensures { Shapes (number_in atoms.now) result (relation_two (sorts_in sorts.now) op (plain_term sides.entry.0.now) (plain_term sides.entry.1.now) (plain_term term.now)) }
{
    let (left, right) = sides;
    match op {
        Op::Le => order(alloc, left, right, atoms),
        Op::Lt => less(alloc, left, right, atoms),
        Op::Eq => equation_at(alloc, left, right, sorts, atoms),
        _ => atom(alloc, atoms, term),
    }
}

/// A term of this operator that is no equation of two bools.
fn relation(
    alloc: Global,
    op: Op,
    args: &[Term],
    term: &Term,
    sorts: &[Sort],
    atoms: &[Term],
) -> Shaped
    ensures { Shapes (number_in atoms.now) result (relation (sorts_in sorts.now) op (plain_terms args.now) (plain_term term.now)) }
{
    if args.len() == 2 {
        return relation_two(alloc, op, (&args[0], &args[1]), term, sorts, atoms);
    }
    atom(alloc, atoms, term)
}

/// The equation of two bools.
#[cycle(formula)]
fn bools(alloc: Global, args: &[Term], sorts: &[Sort], atoms: &[Term]) -> Shaped
    ensures { Shapes (number_in atoms.now) result (bools_form (sorts_in sorts.now) (plain_terms args.now)) }
{
    if args.len() != 2 {
        return truth(true);
    }
    let left = shape_of(alloc, &args[0], sorts, atoms);
    agreement(alloc, left, shape_of(alloc, &args[1], sorts, atoms))
}

/// The shape of a formula, where these are the sorts of its variables and the atoms by their numbers.
#[cycle(formula)]
#[tactic(auto, using(crate::proofs::PlainForms::plain_variants))]
pub fn shape_of(alloc: Global, term: &Term, sorts: &[Sort], atoms: &[Term]) -> Shaped
    ensures { Shapes (number_in atoms.now) result (skeleton (sorts_in sorts.now) (plain_term term.now)) }
{
    match term {
        Term::Bool(value) => truth(*value),
        Term::If(test, left, right) => {
            let test = shape_of(alloc, test.get(), sorts, atoms);
            let left = shape_of(alloc, left.get(), sorts, atoms);
            choice(
                alloc,
                test,
                left,
                shape_of(alloc, right.get(), sorts, atoms),
            )
        }
        Term::Prim(op, _, args, _) => {
            if is_same(alloc, *op, args.as_slice(), sorts)? {
                return bools(alloc, args.as_slice(), sorts, atoms);
            }
            relation(alloc, *op, args.as_slice(), term, sorts, atoms)
        }
        _ => atom(alloc, atoms, term),
    }
}
