//! A law of reading: a function that does nothing, and whose contract says the law.

ghost use Rattle.std.specs.Prelude.{◌≡◌, ℕ, List};
ghost use Rattle.fst_program.specs.Texts as p;
ghost use Rattle.fst_top.specs.Answers.{Reads};

/// A text reads as at most one of the first programs.
pub fn a_text_is_at_most_one_program()
    ensures { (text : List ℕ) (P Q : p.Prog) → Reads text P → Reads text Q → P ≡ Q }
{}
