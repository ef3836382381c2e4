//! Equations, taken apart to atoms by the sort of their sides.

ghost use Rattle.std.specs.Prelude.{◌≡◌, ◌&&◌, if◌then◌else◌, ◌∷◌, [], map, IfOk, OnOk};
ghost use Rattle.fst_base.specs.Sorts.{plain_sort};
ghost use Rattle.fst_flats.specs.Sides.{are_by, are_literals, are_made, is_by, is_list_term, is_long, is_made, is_two};
ghost use Rattle.fst_terms.specs.Formulas.{equation, make};
ghost use Rattle.fst_terms.specs.Skeletons.{atoms_in, eithers_equal, equal, first_atoms, lists_equal, made_by, numbers_equal, options_equal, simple};
ghost use Rattle.fst_terms.specs.Terms.{plain_term, plain_terms, row, t_unit};

use crate::arguments::{argument, made_by};
use crate::atoms::add_atom;
use crate::building::{copied, equation, selector};
use crate::keyed::Keyed;
use fst_base::{Box, Op, OutOfMemory, Sort, boxed, pair};
use fst_terms::Term;
use std::alloc::Global;

/// Adds a bool that stands as an argument; a literal is no atom.
#[tactic(auto, using(crate::proofs::PlainForms::plain_variants))]
fn add_simple(alloc: Global, term: &Term, atoms: &mut Keyed) -> Result<(), OutOfMemory>
    ensures { OnOk result (map plain_term atoms.new ≡ first_atoms (map plain_term atoms.old) (atoms_in (simple (plain_term term.now)))) }
{
    match term {
        Term::Bool(_) => Ok(()),
        _ => add_atom(alloc, term, atoms),
    }
}

/// Adds the equation of the two.
pub fn add_equation(
    alloc: Global,
    left: &Term,
    right: &Term,
    atoms: &mut Keyed,
) -> Result<(), OutOfMemory>
    ensures { OnOk result (map plain_term atoms.new ≡ first_atoms (map plain_term atoms.old) (equation (plain_term left.now) (plain_term right.now) ∷ [])) }
{
    let made = boxed(
        alloc,
        equation(alloc, copied(alloc, left), copied(alloc, right)),
    )?;
    add_atom(alloc, made.get(), atoms)
}

/// Whether the two are literals.
#[tactic(auto, using(crate::proofs::PlainForms::plain_variants))]
pub fn are_literals(left: &Term, right: &Term) -> bool
    ensures { result ≡ are_literals (plain_term left.now) (plain_term right.now) }
{
    match left {
        Term::Int(_) => match right {
            Term::Int(_) => true,
            _ => false,
        },
        _ => false,
    }
}

/// Adds an equation of numbers; that of two literals is no atom.
fn add_numbers(
    alloc: Global,
    left: &Term,
    right: &Term,
    atoms: &mut Keyed,
) -> Result<(), OutOfMemory>
    ensures { OnOk result (map plain_term atoms.new ≡ first_atoms (map plain_term atoms.old) (atoms_in (numbers_equal (plain_term left.now) (plain_term right.now)))) }
{
    if are_literals(left, right) {
        return Ok(());
    }
    add_equation(alloc, left, right, atoms)
}

/// The same component of both sides.
fn components(
    alloc: Global,
    op: Op,
    sort: &Sort,
    left: &Term,
    right: &Term,
) -> Result<(Box<Term>, Box<Term>), OutOfMemory>
    ensures left { IfOk result (λ parts. plain_term parts.0 ≡ make op (plain_sort sort.now) (row (plain_term left.now ∷ [])) 0) }
    ensures right { IfOk result (λ parts. plain_term parts.1 ≡ make op (plain_sort sort.now) (row (plain_term right.now ∷ [])) 0) }
{
    let first = boxed(alloc, selector(alloc, op, sort, left));
    pair(first, boxed(alloc, selector(alloc, op, sort, right)))
}

/// Whether both begin with this constructor.
fn are_by(op: Op, left: &Term, right: &Term) -> bool
    ensures { result ≡ are_by op (made_by (plain_term left.now)) (made_by (plain_term right.now)) }
{
    is_by(op, left) && is_by(op, right)
}

fn is_by(op: Op, term: &Term) -> bool
    ensures { result ≡ is_by op (made_by (plain_term term.now)) }
{
    match made_by(term) {
        Some(maker) => maker == op,
        None => false,
    }
}

/// Whether both begin with constructors.
fn are_made(left: &Term, right: &Term) -> bool
    ensures { result ≡ are_made (made_by (plain_term left.now)) (made_by (plain_term right.now)) }
{
    made_by(left).is_some() && made_by(right).is_some()
}

/// Adds the equation, but where both begin with constructors, which then differ or have nothing to compare.
fn add_unless_made(
    alloc: Global,
    left: &Term,
    right: &Term,
    atoms: &mut Keyed,
) -> Result<(), OutOfMemory>
    ensures { OnOk result (map plain_term atoms.new ≡ first_atoms (map plain_term atoms.old) (if are_made (made_by (plain_term left.now)) (made_by (plain_term right.now)) then [] else equation (plain_term left.now) (plain_term right.now) ∷ [])) }
{
    if are_made(left, right) {
        return Ok(());
    }
    add_equation(alloc, left, right, atoms)
}

fn are_two(args: &[Term]) -> bool
    ensures { result ≡ is_two (plain_terms args.now) }
{
    args.len() == 2
}

/// Whether the term is a cons of two arguments.
#[tactic(auto, using(crate::proofs::PlainForms::plain_variants))]
fn is_long(term: &Term) -> bool
    ensures { result ≡ is_long (plain_term term.now) }
{
    match term {
        Term::Prim(Op::Cons, _, args, _) => are_two(args.as_slice()),
        _ => false,
    }
}

/// Whether the term is a list's constructor term.
#[tactic(auto, using(crate::proofs::PlainForms::plain_variants))]
fn is_list_term(term: &Term) -> bool
    ensures { result ≡ is_list_term (plain_term term.now) }
{
    match term {
        Term::Prim(Op::Nil, _, _, _) => true,
        Term::Prim(Op::Cons, _, args, _) => are_two(args.as_slice()),
        _ => false,
    }
}

/// Adds the equation of two lists of which not both are conses; two constructor terms have no atom.
fn add_ends(alloc: Global, left: &Term, right: &Term, atoms: &mut Keyed) -> Result<(), OutOfMemory>
    ensures { OnOk result (map plain_term atoms.new ≡ first_atoms (map plain_term atoms.old) (if is_list_term (plain_term left.now) && is_made (made_by (plain_term right.now)) then [] else equation (plain_term left.now) (plain_term right.now) ∷ [])) }
{
    if is_list_term(left) && made_by(right).is_some() {
        return Ok(());
    }
    add_equation(alloc, left, right, atoms)
}

/// Adds the atoms of the equation of the two at a sort.
#[cycle(equal)]
#[tactic(auto, using(crate::proofs::PlainForms::plain_variants))]
pub fn collect_equal(
    alloc: Global,
    sort: &Sort,
    left: &Term,
    right: &Term,
    unit: &Term,
    atoms: &mut Keyed,
) -> Result<(), OutOfMemory>
    requires { plain_term unit.now ≡ t_unit }
    ensures { OnOk result (map plain_term atoms.new ≡ first_atoms (map plain_term atoms.old) (atoms_in (equal (plain_sort sort.now) (plain_term left.now) (plain_term right.now)))) }
{
    match sort {
        Sort::Unit => Ok(()),
        Sort::Bool => {
            add_simple(alloc, left, atoms)?;
            add_simple(alloc, right, atoms)
        }
        Sort::Int => add_numbers(alloc, left, right, atoms),
        Sort::VarA | Sort::VarB => add_equation(alloc, left, right, atoms),
        Sort::Pair(first, second) => {
            let (front, other) = components(alloc, Op::Fst, first.get(), left, right)?;
            collect_equal(alloc, first.get(), front.get(), other.get(), unit, atoms)?;
            let (back, other) = components(alloc, Op::Snd, second.get(), left, right)?;
            collect_equal(alloc, second.get(), back.get(), other.get(), unit, atoms)
        }
        Sort::Opt(item) => collect_options(alloc, item.get(), left, right, unit, atoms),
        Sort::List(item) => collect_lists(alloc, item.get(), left, right, unit, atoms),
        Sort::Either(first, second) => {
            collect_eithers(alloc, first.get(), second.get(), left, right, unit, atoms)
        }
    }
}

/// Adds the atoms of an equation of options: of some t = some u those of t = u.
#[cycle(equal)]
fn collect_options(
    alloc: Global,
    item: &Sort,
    left: &Term,
    right: &Term,
    unit: &Term,
    atoms: &mut Keyed,
) -> Result<(), OutOfMemory>
    requires { plain_term unit.now ≡ t_unit }
    ensures { OnOk result (map plain_term atoms.new ≡ first_atoms (map plain_term atoms.old) (atoms_in (options_equal (equal (plain_sort item.now)) (made_by (plain_term left.now)) (made_by (plain_term right.now)) (plain_term left.now) (plain_term right.now)))) }
{
    if are_by(Op::Just, left, right) {
        return collect_equal(
            alloc,
            item,
            argument(left, 0, unit),
            argument(right, 0, unit),
            unit,
            atoms,
        );
    }
    add_unless_made(alloc, left, right, atoms)
}

/// Adds the atoms of an equation of eithers: of two terms of one side those of the equation of what they hold.
#[cycle(equal)]
fn collect_eithers(
    alloc: Global,
    first: &Sort,
    second: &Sort,
    left: &Term,
    right: &Term,
    unit: &Term,
    atoms: &mut Keyed,
) -> Result<(), OutOfMemory>
    requires { plain_term unit.now ≡ t_unit }
    ensures { OnOk result (map plain_term atoms.new ≡ first_atoms (map plain_term atoms.old) (atoms_in (eithers_equal (equal (plain_sort first.now)) (equal (plain_sort second.now)) (made_by (plain_term left.now)) (made_by (plain_term right.now)) (plain_term left.now) (plain_term right.now)))) }
{
    if are_by(Op::Inl, left, right) {
        return collect_equal(
            alloc,
            first,
            argument(left, 0, unit),
            argument(right, 0, unit),
            unit,
            atoms,
        );
    }
    if are_by(Op::Inr, left, right) {
        return collect_equal(
            alloc,
            second,
            argument(left, 0, unit),
            argument(right, 0, unit),
            unit,
            atoms,
        );
    }
    add_unless_made(alloc, left, right, atoms)
}

/// Adds the atoms of an equation of lists, along both of them.
#[cycle(equal)]
fn collect_lists(
    alloc: Global,
    item: &Sort,
    left: &Term,
    right: &Term,
    unit: &Term,
    atoms: &mut Keyed,
) -> Result<(), OutOfMemory>
    requires { plain_term unit.now ≡ t_unit }
    ensures { OnOk result (map plain_term atoms.new ≡ first_atoms (map plain_term atoms.old) (atoms_in (lists_equal (equal (plain_sort item.now)) (plain_term left.now) (plain_term right.now)))) }
{
    let mut left = left;
    let mut right = right;
    while is_long(left) && is_by(Op::Cons, right) {
        collect_equal(
            alloc,
            item,
            argument(left, 0, unit),
            argument(right, 0, unit),
            unit,
            atoms,
        )?;
        left = argument(left, 1, unit);
        right = argument(right, 1, unit);
    }
    add_ends(alloc, left, right, atoms)
}
