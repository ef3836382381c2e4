ghost use Rattle.fst_program.specs.Plain.{plain_program};
ghost use Rattle.fst_proved.specs.Branching.{BranchLaw};
ghost use Rattle.fst_proved.specs.Extensions.{FactsExtend};
ghost use Rattle.fst_proved.specs.ProofShows.{FlatShows, ProofShows};
ghost use Rattle.fst_proved.specs.ProvedGoals.{ProvedGoalsLaw, TrueFlatsLaw};

use fst_program::Program;

/// The facts of a flat form are true: every environment of the sequent goes on to one in which they are.
pub fn facts_law(program: &Program)
    ensures { FactsExtend (plain_program program.now) }
{}

/// The flat form of a sequent is well sorted, and where it is true the sequent is valid.
pub fn flat_law(program: &Program)
    ensures { FlatShows (plain_program program.now) }
{}

/// A proof of the flat form of a sequent shows that the sequent is valid.
pub fn proof_law(program: &Program)
    ensures { ProofShows (plain_program program.now) }
{}

/// Where the flat form of each goal of a program is true, every function is good.
pub fn true_flats_law(program: &Program)
    ensures { TrueFlatsLaw (plain_program program.now) }
{}

/// Where the flat form of each goal of a program has a proof, every function is good.
pub fn proved_goals_law(program: &Program)
    ensures { ProvedGoalsLaw (plain_program program.now) }
{}

/// Every environment of a flat form agrees with exactly one branch.
pub fn branch_law(program: &Program)
    ensures { BranchLaw (plain_program program.now) }
{}
