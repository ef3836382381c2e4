ghost use Rattle.std.specs.Prelude.{◌≡◌, map, get_or, IfOk, option_map};
ghost use Rattle.std.specs.Option.{option_copied};
ghost use Rattle.fst_base.specs.Sorts.{plain_sort};
ghost use Rattle.fst_shapes.specs.Preparing.{maker_of, selected, parts_from, first_of};
ghost use Rattle.fst_terms.specs.Terms.{plain_term, plain_terms, t_unit, t_prim};
ghost use Rattle.fst_terms.specs.Formulas.{component, make};

use fst_base::{Op, OutOfMemory, Pos, Seq, Sort};
use fst_terms::Term;
use std::alloc::Global;

/// The primitive of these arguments; a selector of its own constructor term is written as the component.
pub fn make(alloc: Global, op: Op, sort: &Sort, args: Seq<Term>) -> Result<Term, OutOfMemory>
    ensures { IfOk result (λ term. plain_term term ≡ make op (plain_sort sort.now) (plain_terms args) 0) }
{
    match component(alloc, op, args.as_slice())? {
        Some(part) => Ok(part),
        None => prim(alloc, op, sort, args),
    }
}

/// The primitive with place 0.
#[tactic(auto, using(crate::proofs::PlainForms::plain_variants))]
pub fn prim(alloc: Global, op: Op, sort: &Sort, args: Seq<Term>) -> Result<Term, OutOfMemory>
    ensures { IfOk result (λ term. plain_term term ≡ t_prim op (plain_sort sort.now) (plain_terms args) 0) }
{
    let sort = sort.copy(alloc)?;
    Ok(Term::Prim(op, sort, args, Pos { at: 0 }))
}

/// The component, where the operator is a selector before its own constructor term.
fn component(alloc: Global, op: Op, args: &[Term]) -> Result<Option<Term>, OutOfMemory>
    ensures { IfOk result (λ part. option_map plain_term part ≡ component op (first_of (map plain_term args.now))) }
{
    match maker(op) {
        Some(maker) => match parts(args, maker) {
            Some(parts) => Ok(Some(part(alloc, parts, selected(op))?)),
            None => Ok(None),
        },
        None => Ok(None),
    }
}

/// The argument at this place.
fn part(alloc: Global, args: &[Term], at: usize) -> Result<Term, OutOfMemory>
    ensures { IfOk result (λ part. plain_term part ≡ get_or (map plain_term args.now) at t_unit) }
{
    if at < args.len() {
        args[at].copy(alloc)
    } else {
        Ok(Term::Unit)
    }
}

/// The arguments of the first term, where it is of this constructor.
fn parts(args: &[Term], maker: Op) -> Option<&[Term]>
    ensures { option_map (map plain_term) (option_copied result) ≡ parts_from maker (first_of (map plain_term args.now)) }
{
    if args.len() == 0 {
        return None;
    }
    parts_of(&args[0], maker)
}

#[tactic(auto, using(crate::proofs::PlainForms::plain_variants))]
fn parts_of(term: &Term, maker: Op) -> Option<&[Term]>
    ensures { option_map (map plain_term) (option_copied result) ≡ parts_from maker (plain_term term.now) }
{
    match term {
        Term::Prim(op, _, args, _) if *op == maker => Some(args.as_slice()),
        _ => None,
    }
}

/// The constructor that a selector selects from.
fn maker(op: Op) -> Option<Op>
    ensures { result ≡ maker_of op }
{
    match op {
        Op::Fst | Op::Snd => Some(Op::Pair),
        Op::Hd | Op::Tl => Some(Op::Cons),
        Op::The => Some(Op::Just),
        Op::Outl => Some(Op::Inl),
        Op::Outr => Some(Op::Inr),
        _ => None,
    }
}

/// The place of the argument that it selects.
fn selected(op: Op) -> usize
    ensures { result ≡ selected op }
{
    match op {
        Op::Snd | Op::Tl => 1,
        _ => 0,
    }
}
