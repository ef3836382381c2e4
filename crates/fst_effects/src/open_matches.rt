//! Matches that lack a constructor.

ghost use Rattle.std.specs.Prelude.{◌≡◌, [], ◌∷◌, map};
ghost use Rattle.fst_base.specs.Sorts.{plain_sort};
ghost use Rattle.fst_names.specs.Names.{has_con};
ghost use Rattle.fst_effects.specs.DefinitionTexts.{open_of};
ghost use Rattle.fst_effects.specs.Patterns.{constructors, lacks_one};

use fst_base::{Pos, Rule, Sort};
use fst_names::{Broken, Ref, unless};
use fst_trees::{ArmTree, ConWord, DmTree};

/// Whether one of the arms has this constructor.
#[tactic(auto, using(fst_names::proofs::WordLemmas::cons))]
fn has_con(arms: &[ArmTree<DmTree<Ref>>], con: ConWord) -> bool
    ensures { result ≡ has_con con (map (λ a. a.con) arms.now) }
{
    for arm in arms {
        if con == arm.con {
            return true;
        }
    }
    false
}

/// Whether no arm has the first of these, or none the second.
fn lacks(arms: &[ArmTree<DmTree<Ref>>], first: ConWord, second: ConWord) -> bool
    ensures { result ≡ lacks_one (first ∷ second ∷ []) (map (λ a. a.con) arms.now) }
{
    !has_con(arms, first) || !has_con(arms, second)
}

/// Whether no arm has this constructor.
fn lacks_only(arms: &[ArmTree<DmTree<Ref>>], con: ConWord) -> bool
    ensures { result ≡ lacks_one (con ∷ []) (map (λ a. a.con) arms.now) }
{
    !has_con(arms, con)
}

/// Whether the arms lack a constructor of the sort.
#[tactic(auto, using(crate::proofs::PlainLemmas::sorts))]
fn is_open(arms: &[ArmTree<DmTree<Ref>>], sort: &Sort) -> bool
    ensures { result ≡ lacks_one (constructors (plain_sort sort.now)) (map (λ a. a.con) arms.now) }
{
    match sort {
        Sort::Bool => lacks(arms, ConWord::True, ConWord::False),
        Sort::Opt(_) => lacks(arms, ConWord::Empty, ConWord::Full),
        Sort::List(_) => lacks(arms, ConWord::Nil, ConWord::Cons),
        Sort::Either(_, _) => lacks(arms, ConWord::Left, ConWord::Right),
        Sort::Pair(_, _) => lacks_only(arms, ConWord::Pair),
        Sort::Unit => false,
        Sort::Int => false,
        Sort::VarA => false,
        Sort::VarB => false,
    }
}

/// A match at this place that lacks a constructor of the sort.
#[tactic(auto, using(crate::proofs::OpenLemmas::opens))]
pub fn check_open(at: Pos, arms: &[ArmTree<DmTree<Ref>>], sort: &Sort) -> Option<Broken>
    ensures { result ≡ open_of at (plain_sort sort.now) arms.now }
{
    unless(!is_open(arms, sort), Rule::OpenMatch, at)
}
