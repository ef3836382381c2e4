ghost use Rattle.std.specs.Prelude.{◌≡◌, ℕ, List, false};
ghost use Rattle.fst_base.specs.Primitives.{InRange};
ghost use Rattle.fst_base.specs.Sorts.{Srt, holds_a, holds_b};
ghost use Rattle.fst_base.specs.Values.{Val, Has};
ghost use Rattle.fst_values.specs.Texts.{IsText, text_of};

/// At a sort a text is one of at most one value.
pub fn a_text_has_one_value()
    ensures { (S : Srt) (v w : Val) (bytes : List ℕ) → IsText S v bytes → IsText S w bytes → v ≡ w }
{}

/// The printed text of a value is a text of it, at each sort that the value has and that holds no
/// variable, where the value's numbers lie within 128 bits.
pub fn printed_texts_are_texts()
    ensures { (S : Srt) (v : Val) → holds_a S ≡ false → holds_b S ≡ false → Has S v → InRange v
        → IsText S v (text_of v) }
{}
