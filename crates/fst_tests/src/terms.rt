ghost use Rattle.std.specs.Prelude.{◌≡◌, [], ◌∷◌, codes, map, IfOk};
ghost use Rattle.fst_base.specs.Sorts.{s_bool, s_unit};
ghost use Rattle.fst_terms.specs.Flats.{sorts_of_vars};
ghost use Rattle.fst_terms.specs.Meaning.{plain_sequent, plain_var};
ghost use Rattle.fst_terms.specs.Propositional.{IsPropositional, TmPropositional, VarsPropositional};
ghost use Rattle.fst_terms.specs.Terms.{plain_term, t_var, t_unit, t_prim, t_if, t_let, t_end, t_more};

use fst_base::{Box, Name, Op, OutOfMemory, Pos, Seq, Sort, both, boxed, boxes, pair, two};
use fst_terms::{Flat, Sequent, Term, Var, free_in, prepare, shift, subst};
use std::alloc::Global;
use std::test::Fail;

fn a_choice(alloc: Global, index: u32) -> Result<Term, OutOfMemory>
    ensures { IfOk result (λ t. plain_term t ≡ t_if (t_var 0) (t_var index) t_unit) }
{
    let sides = boxes(alloc, Term::Var(index), Term::Unit);
    let (test, (left, right)) = pair(Box::new(alloc, Term::Var(0)), sides)?;
    Ok(Term::If(test, left, right))
}

/// A let of the variable `bound`; under it an `if` on the let's own variable, with the variable `inner` as its first side.
fn a_let(alloc: Global, bound: u32, inner: u32) -> Result<Term, OutOfMemory>
    ensures { IfOk result (λ t. plain_term t ≡ t_let (codes "x") (t_var bound) (t_if (t_var 0) (t_var inner) t_unit)) }
{
    let name = Name::new(alloc, "x")?;
    let rest = boxed(alloc, a_choice(alloc, inner));
    let (bound, rest) = pair(Box::new(alloc, Term::Var(bound)), rest)?;
    Ok(Term::Let(name, bound, rest))
}

/// Whether the term has that form, with these two variables.
fn is_let(term: &Term, bound: u32, inner: u32) -> bool {
    match term {
        Term::Let(_, first, rest) => match rest.get() {
            Term::If(_, left, _) => is_variable(first.get(), bound)
                && is_variable(left.get(), inner),
            _ => false,
        },
        _ => false,
    }
}

fn is_variable(term: &Term, index: u32) -> bool {
    match term {
        Term::Var(found) => *found == index,
        _ => false,
    }
}

/// The variables of a let, and what they are afterwards.
type Row = (u8, u8, u32, u32);

/// Whether the let, raised from `from` on by 2, has those variables.
fn is_raised(alloc: Global, term: &Term, row: Row, from: u32) -> Result<bool, OutOfMemory>
    requires { plain_term term.now ≡ t_let (codes "x") (t_var row.0) (t_if (t_var 0) (t_var row.1) t_unit) }
{
    let raised = shift(alloc, term, from, 2)?;
    Ok(is_let(&raised, row.2, row.3))
}

/// Whether raising from `from` on by 2 does that.
fn raises(alloc: Global, row: &Row, from: u32) -> Result<bool, OutOfMemory> {
    let term = a_let(alloc, u32::from(row.0), u32::from(row.1))?;
    is_raised(alloc, &term, *row, from)
}

/// Whether the let, with the variable 4 put in for the variable 1, has those variables.
fn is_replaced(alloc: Global, term: &Term, row: Row) -> Result<bool, OutOfMemory>
    requires { plain_term term.now ≡ t_let (codes "x") (t_var row.0) (t_if (t_var 0) (t_var row.1) t_unit) }
{
    let replaced = subst(alloc, term, 1, &Term::Var(4))?;
    Ok(is_let(&replaced, row.2, row.3))
}

/// Whether putting the variable 4 in for the variable 1 does that.
fn replaces(alloc: Global, row: &Row) -> Result<bool, OutOfMemory> {
    let term = a_let(alloc, u32::from(row.0), u32::from(row.1))?;
    is_replaced(alloc, &term, *row)
}

/// Whether the index is free in a let of the variable 1 that has the variable 3 in it.
fn is_free(alloc: Global, index: u32) -> Result<bool, OutOfMemory> {
    Ok(free_in(&a_let(alloc, 1, 3)?, index))
}

#[test]
fn indices_under_a_let(rt: HostRuntime) -> Result<(), Fail> {
    for row in &[(0, 1, 2, 3), (0, 0, 2, 0), (4, 2, 6, 4)] {
        assert!(rt; raises(rt.alloc(), row, 0)?);
    }
    for row in &[(0, 1, 0, 1), (1, 1, 3, 1), (1, 2, 3, 4)] {
        assert!(rt; raises(rt.alloc(), row, 1)?);
    }
    for row in &[(1, 2, 4, 5), (2, 3, 1, 2), (0, 0, 0, 0)] {
        assert!(rt; replaces(rt.alloc(), row)?);
    }
    for (index, wanted) in &[(0, false), (1, true), (2, true), (3, false)] {
        assert_eq!(rt; is_free(rt.alloc(), *index)?, *wanted);
    }
    Ok(())
}

/// The equation of two terms, at place 7.
fn an_equation(alloc: Global, left: Term, right: Term) -> Result<Term, OutOfMemory>
    ensures { IfOk result (λ t. plain_term t ≡ t_prim Op.Eq s_bool (t_more (plain_term left) (t_more (plain_term right) t_end)) 7) }
{
    let sides = two(alloc, left, right)?;
    Ok(Term::Prim(Op::Eq, Sort::Bool, sides, Pos { at: 7 }))
}

/// A goal over the variables a and b of sort bool, 2 and 1, and u of sort unit, 0.
#[derive(Clone, Copy)]
enum Shape {
    /// if a then b else a
    Choice,
    /// a = b
    Bools,
    /// u = ()
    Units,
    /// (u = ()) = (if b then a else b)
    Nested,
}

fn choice(alloc: Global, test: u32, left: u32, right: u32) -> Result<Term, OutOfMemory>
    ensures { IfOk result (λ t. plain_term t ≡ t_if (t_var test) (t_var left) (t_var right)) }
{
    let sides = boxes(alloc, Term::Var(left), Term::Var(right));
    let (test, (left, right)) = pair(Box::new(alloc, Term::Var(test)), sides)?;
    Ok(Term::If(test, left, right))
}

fn goal_of(alloc: Global, shape: Shape) -> Result<Term, OutOfMemory>
    ensures { IfOk result (λ t. TmPropositional (s_unit ∷ s_bool ∷ s_bool ∷ []) (plain_term t) s_bool) }
{
    match shape {
        Shape::Choice => choice(alloc, 2, 1, 2),
        Shape::Bools => an_equation(alloc, Term::Var(2), Term::Var(1)),
        Shape::Units => an_equation(alloc, Term::Var(0), Term::Unit),
        Shape::Nested => {
            let units = an_equation(alloc, Term::Var(0), Term::Unit)?;
            let (units, choice) = both(units, choice(alloc, 1, 2, 1))?;
            an_equation(alloc, units, choice)
        }
    }
}

fn var(alloc: Global, name: &str, sort: Sort) -> Result<Var, OutOfMemory>
    ensures { IfOk result (λ var. var.sort ≡ sort) }
{
    let name = Name::new(alloc, name)?;
    Ok(Var { name, sort })
}

fn vars(alloc: Global) -> Result<Seq<Var>, OutOfMemory>
    ensures sorts { IfOk result (λ vars. sorts_of_vars (map plain_var vars) ≡ s_unit ∷ s_bool ∷ s_bool ∷ []) }
    ensures propositional { IfOk result (λ vars. VarsPropositional (map plain_var vars)) }
{
    let mut vars = Seq::new(alloc);
    vars.push(var(alloc, "a", Sort::Bool)?)?;
    vars.push(var(alloc, "b", Sort::Bool)?)?;
    vars.push(var(alloc, "u", Sort::Unit)?)?;
    Ok(vars)
}

/// The flat form of the sequent with that goal.
fn flat_form(alloc: Global, shape: Shape) -> Result<Flat, OutOfMemory> {
    let (vars, goal) = both(vars(alloc)?, goal_of(alloc, shape))?;
    let sequent = Sequent {
        vars,
        hyps: Seq::new(alloc),
        goal,
    };
    prepare(alloc, &sequent, &Seq::new(alloc))
}

fn are_variables(terms: &[Term], wanted: &[u32]) -> bool {
    if terms.len() != wanted.len() {
        return false;
    }
    for at in 0..wanted.len() {
        if !is_variable(&terms[at], wanted[at]) {
            return false;
        }
    }
    true
}

fn has_atoms(alloc: Global, shape: Shape, wanted: &[u32]) -> Result<bool, OutOfMemory> {
    let flat = flat_form(alloc, shape)?;
    let is_numbered = flat.terms.len() == wanted.len() + 3;
    Ok(is_numbered && are_variables(flat.atoms.as_slice(), wanted))
}

#[test]
fn atoms_of_flat_forms(rt: HostRuntime) -> Result<(), Fail> {
    let rows: [(Shape, &[u32]); 4] = [
        (Shape::Choice, &[2, 1]),
        (Shape::Bools, &[2, 1]),
        (Shape::Units, &[]),
        (Shape::Nested, &[1, 2]),
    ];
    for (shape, wanted) in &rows {
        assert!(rt; has_atoms(rt.alloc(), *shape, wanted)?);
    }
    Ok(())
}
