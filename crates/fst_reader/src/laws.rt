//! Laws of reading: each is a function that does nothing, and whose contract says the law.

ghost use Rattle.std.specs.Prelude.{ℕ, List};
ghost use Rattle.fst_syntax.specs.OneReading.{OneReading};

/// A text is at most one program or is refused at most once, and not both.
pub fn a_text_has_one_reading()
    ensures { (bytes : List ℕ) → OneReading bytes }
{}
