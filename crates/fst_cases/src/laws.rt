ghost use Rattle.std.specs.Prelude.{ℕ, List};
ghost use Rattle.fst_cases.specs.CaseLaws.{NothingLaw, ClashLaw};
ghost use Rattle.fst_cert.specs.declared.line.Line.{Line};
ghost use Rattle.fst_cert.specs.Proving.{Mk};
ghost use Rattle.fst_terms.specs.Flats.{Flt};
ghost use Rattle.fst_terms.specs.Marks.{Marking};

/// Lines that refute the branch without marks prove the goal.
pub fn nothing_law()
    ensures { NothingLaw }
{}

/// An explanation of two terms with different constructors, or of the sides of a false equation, refutes every branch that has its marks.
pub fn clash_law()
    ensures { (f : Flt) (ended : List (List Mk)) (n : ℕ) (core : Marking) (ls : List Line) → ClashLaw f ended n core ls }
{}
