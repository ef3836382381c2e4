ghost use Rattle.std.specs.Prelude.{ℕ, ℤ, List, All};
ghost use Rattle.fst_terms.specs.Rows.{Rw, Solves};
ghost use Rattle.fst_linear.specs.Refutations.{AreSteps, Refutes, Stp, replay};

/// Whole numbers that solve the given rows solve each row that steps make of them.
pub fn steps_keep_solutions()
    ensures { (x : ℕ → ℤ) (rows : List Rw) (steps : List Stp) → AreSteps rows steps → All (Solves x) rows → All (Solves x) (replay rows steps) }
{}

/// No whole numbers solve rows that steps refute.
pub fn refuted_rows_have_no_solution()
    ensures { (x : ℕ → ℤ) (rows : List Rw) (steps : List Stp) → Refutes rows steps → All (Solves x) rows → ⊥ }
{}
