ghost use Rattle.std.specs.Prelude.{ℕ, ℤ, pos, ◌≤ℤ◌};
ghost use Rattle.fst_terms.specs.Rows.{Rw, Solves, combined};

/// Whole numbers that solve two rows solve their tightened sum.
pub fn sums_keep_solutions()
    ensures { (x : ℕ → ℤ) (p : ℤ) (a : Rw) (q : ℤ) (b : Rw) → pos 1 ≤ℤ p → pos 1 ≤ℤ q → Solves x a → Solves x b → Solves x (combined p a q b) }
{}
