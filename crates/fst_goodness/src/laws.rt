ghost use Rattle.fst_goodness.specs.Goodness.{GroupLaw, GoodLaw, StepLaw, MeaningSortLaw, ApplicationLaw};
ghost use Rattle.fst_goodness.specs.FunctionSentences.{FunctionFactsTrue};
ghost use Rattle.fst_goodness.specs.Unfolding.{UnfoldLaw, PostLaw};
ghost use Rattle.fst_program.specs.Plain.{plain_program};

use fst_program::Program;

/// Where every goal of a program is valid, every function of it is good.
pub fn good_law(program: &Program)
    ensures { GoodLaw (plain_program program.now) }
{}

/// Where the goals of all functions up to a group are valid, these functions are good.
pub fn group_law(program: &Program)
    ensures { GroupLaw (plain_program program.now) }
{}

/// Applications on arguments of their sorts have a value of their sort.
pub fn meaning_sort_law(program: &Program)
    ensures { MeaningSortLaw (plain_program program.now) }
{}

/// Where the goals of each group are valid once the functions of earlier groups are good, all goals are valid and all functions good.
pub fn step_law(program: &Program)
    ensures { StepLaw (plain_program program.now) }
{}

/// The application of a good total function, on arguments that meet what it asks for, has a value that meets its ensures.
pub fn application_law(program: &Program)
    ensures { ApplicationLaw (plain_program program.now) }
{}

/// The facts of unfolding an application of a good total function are true.
pub fn unfold_law(program: &Program)
    ensures { UnfoldLaw (plain_program program.now) }
{}

/// The postcondition of an application of a good total function is true.
pub fn post_law(program: &Program)
    ensures { PostLaw (plain_program program.now) }
{}

/// The facts of functions of a sequent are true where the functions of earlier groups are good.
pub fn function_facts_law(program: &Program)
    ensures { FunctionFactsTrue (plain_program program.now) }
{}
