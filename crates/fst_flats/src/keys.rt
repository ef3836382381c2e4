ghost use Rattle.std.specs.Prelude.{◌≡◌, ◌%◌, ◌^◌, map, nat_abs};
ghost use Rattle.fst_flats.specs.Keys.{key, key_from, keys_of, mix, op_number, place_of};
ghost use Rattle.fst_terms.specs.Same.{same_term};
ghost use Rattle.fst_terms.specs.Terms.{plain_term, plain_terms};

use fst_base::Op;
use fst_terms::Term;

/// A number that equal terms share.
#[cycle(key)]
#[tactic(auto, using(crate::proofs::PlainForms::plain_variants))]
pub fn key(term: &Term) -> u64
    ensures { result ≡ key (plain_term term.now) }
{
    match term {
        Term::Var(index) => mix(1, u64::from(*index)),
        Term::Int(number) => mix(2, low_bits(*number)),
        Term::Bool(truth) => if *truth { 3 } else { 4 },
        Term::Unit => 5,
        Term::Prim(op, _, args, _) => key_from(args.as_slice(), mix(6, op_number(*op))),
        Term::If(test, left, right) => {
            let first = mix(7, key(test.get()));
            let second = mix(first, key(left.get()));
            mix(second, key(right.get()))
        }
        Term::App(function, _, args) => key_from(args.as_slice(), mix(8, u64::from(*function))),
        Term::Let(_, bound, rest) => mix(mix(9, key(bound.get())), key(rest.get())),
    }
}

#[cycle(key)]
fn key_from(terms: &[Term], begun: u64) -> u64
    ensures { result ≡ key_from begun (plain_terms terms.now) }
{
    let mut mixed = begun;
    for term in terms {
        mixed = mix(mixed, key(term));
    }
    mixed
}

#[tactic(auto, unfolding(crate::specs::Keys::mix))]
fn mix(a: u64, b: u64) -> u64
    ensures { result ≡ mix a b }
{
    a.wrapping_mul(1099511628211).wrapping_add(b)
}

/// The low 32 bits of the number's absolute value.
fn low_bits(number: i128) -> u64
    ensures { result ≡ nat_abs number % 2 ^ 32 }
{
    (number.unsigned_abs() % 4_294_967_296) as u64
}

/// The operator's place in the table of primitives.
fn op_number(op: Op) -> u64
    ensures { result ≡ op_number op }
{
    op as u64
}

/// Whether the two are one term, by their keys first.
#[tactic(auto, using(crate::proofs::KeyLemmas::keyed))]
fn matches(term: &Term, of_term: u64, other: &Term, of_other: u64) -> bool
    requires term { of_term ≡ key (plain_term term.now) }
    requires other { of_other ≡ key (plain_term other.now) }
    ensures { result ≡ same_term (plain_term term.now) (plain_term other.now) }
{
    if of_term != of_other {
        return false;
    }
    term.same(other)
}

/// The place of the term among these, whose keys stand beside them, and their number where it isn't there.
pub fn place(term: &Term, terms: &[Term], keys: &[u64]) -> usize
    requires { keys.now ≡ keys_of terms.now }
    ensures { result ≡ place_of (plain_term term.now) (map plain_term terms.now) }
{
    let of_term = key(term);
    for at in 0..terms.len() {
        if matches(term, of_term, &terms[at], keys[at]) {
            return at;
        }
    }
    terms.len()
}
