ghost use Rattle.std.specs.Prelude.{◌≡◌, ℕ};
ghost use Rattle.std.specs.List.{list_all};
ghost use Rattle.fst_terms.specs.Indices.{Stands};
ghost use Rattle.fst_terms.specs.Terms.{plain_term};
ghost use Rattle.fst_code.specs.Within.{term_within};

use fst_terms::Term;

/// Whether the term's variables are among the last `vars`, and its applications name functions before `funs`.
#[cycle(within)]
#[tactic(auto, using(fst_terms::proofs::PlainLemmas::plain_variants))]
pub(crate) fn term_within(term: &Term, vars: u64, funs: usize) -> bool
    ensures { (n : ℕ) → Stands vars n → result ≡ term_within n funs (plain_term term.now) }
{
    match term {
        Term::Var(index) => u64::from(*index) < vars,
        Term::Int(_) => true,
        Term::Bool(_) => true,
        Term::Unit => true,
        Term::Prim(_, _, args, _) => terms_within(args.as_slice(), vars, funs),
        Term::If(test, left, right) => term_within(test.get(), vars, funs)
            && term_within(left.get(), vars, funs)
            && term_within(right.get(), vars, funs),
        Term::App(function, _, args) => (*function as usize) < funs
            && terms_within(args.as_slice(), vars, funs),
        Term::Let(_, bound, rest) => term_within(bound.get(), vars, funs)
            && term_within(rest.get(), vars.saturating_add(1), funs),
    }
}

#[cycle(within)]
pub(crate) fn terms_within(terms: &[Term], vars: u64, funs: usize) -> bool
    ensures { (n : ℕ) → Stands vars n → result ≡ list_all (λ t. term_within n funs (plain_term t)) terms.now }
{
    for term in terms {
        if !term_within(term, vars, funs) {
            return false;
        }
    }
    true
}
