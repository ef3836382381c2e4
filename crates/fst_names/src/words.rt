//! Names that are bound together.

ghost use Rattle.std.specs.Prelude.{◌≡◌, ◌||◌, not, map, []};
ghost use Rattle.fst_base.specs.declared.rule.Rule.TheVariants as rule;
ghost use Rattle.fst_names.specs.Broken.{first_broken, breaks};
ghost use Rattle.fst_names.specs.Checks.{pattern_breaks};
ghost use Rattle.fst_names.specs.Names.{broken_words, has_con, unless, is_among, is_blank, binding};

use crate::broken::{Broken, least, unless};
use crate::scope::is_same;
use fst_base::{Name, Rule};
use fst_trees::{ArmTree, ConWord, Word};

/// Whether the name is one of these words.
#[tactic(auto, using(crate::proofs::WordLemmas::amongs))]
fn is_among(words: &[Word], name: &Name) -> bool
    ensures { result ≡ is_among name.now (binding words.now []) }
{
    for word in words {
        if is_same(name, &word.text) {
            return true;
        }
    }
    false
}

/// Whether the word may be bound behind these; `_` binds nothing.
fn is_free(before: &[Word], word: &Word) -> bool
    ensures { result ≡ (is_blank word.now.text || not (is_among word.now.text (binding before.now []))) }
{
    word.text.text() == "_" || !is_among(before, &word.text)
}

/// The words that are the second of their name among these.
#[tactic(auto, using(crate::proofs::WordLemmas::words))]
pub fn check_words(words: &[Word]) -> Option<Broken>
    ensures { result ≡ first_broken (broken_words [] words.now) }
{
    let mut found = None;
    for index in 0..words.len() {
        let word = &words[index];
        let is_free = is_free(&words[..index], word);
        found = least(found, unless(is_free, Rule::Twice, word.at));
    }
    found
}

/// Whether one of the arms has this constructor.
#[tactic(auto, using(crate::proofs::WordLemmas::cons))]
fn has_con<T>(arms: &[ArmTree<T>], con: ConWord) -> bool
    ensures { result ≡ has_con con (map (λ a. a.con) arms.now) }
{
    for arm in arms {
        if con == arm.con {
            return true;
        }
    }
    false
}

/// A second arm of a constructor.
fn check_con<T>(before: &[ArmTree<T>], arm: &ArmTree<T>) -> Option<Broken>
    ensures { result ≡ first_broken (unless (not (has_con arm.now.con (map (λ b. b.con) before.now))) (breaks rule.Twice arm.now.at.at)) }
{
    unless(!has_con(before, arm.con), Rule::Twice, arm.at)
}

/// What an arm breaks by itself, behind these.
#[tactic(auto, unfolding(crate::specs::Checks::pattern_breaks))]
pub fn check_pattern<T>(before: &[ArmTree<T>], arm: &ArmTree<T>) -> Option<Broken>
    ensures { result ≡ pattern_breaks before.now arm.now }
{
    least(check_con(before, arm), check_words(arm.names.as_slice()))
}
