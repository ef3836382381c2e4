ghost use Rattle.fst_program.specs.Plain.{plain_program};
ghost use Rattle.fst_star.specs.Laws.{GoalsMeetPaths, GoalsTellOfEach, ValidGoalsMakeSafe, SafeMakesGoalsValid, TransformersEqualPaths};
ghost use Rattle.fst_star.specs.Size.{InferredAreSmall};
ghost use Rattle.fst_star.specs.TextLaws.{StarIsExact, TextsFitStar};

use fst_program::Program;

/// The goals of a function are those that its inferred transformer gives.
pub fn goals_law(program: &Program)
    ensures { GoalsMeetPaths (plain_program program.now) }
{}

/// Where the goals that a transformer gives are valid, it is safe, and its results meet the ensures.
pub fn safe_law(program: &Program)
    ensures { ValidGoalsMakeSafe (plain_program program.now) }
{}

/// Where a transformer is safe and its results meet the ensures, the goals that it gives are valid.
pub fn valid_law(program: &Program)
    ensures { SafeMakesGoalsValid (plain_program program.now) }
{}

/// Environment by environment: where a transformer has no need of kind `Ensures`, it is safe exactly where the goals of other kinds
/// hold, and its results meet the ensures exactly where those of kind `Ensures` hold.
pub fn each_law(program: &Program)
    ensures { GoalsTellOfEach (plain_program program.now) }
{}

/// The inferred transformer demands exactly the results of the function's paths.
pub fn paths_law(program: &Program)
    ensures { TransformersEqualPaths (plain_program program.now) }
{}

/// Where no text names a computation of its header at more than one place, what is inferred for a function has at most as many
/// nodes as eight times the size of its body times that of the largest text.
pub fn size_law(program: &Program)
    ensures { InferredAreSmall (plain_program program.now) }
{}

/// The translation of a definition's text is safe exactly where the rules of the text say so, and demands exactly what they say.
pub fn star_law(program: &Program)
    ensures { StarIsExact (plain_program program.now) }
{}

/// Where the runs of a header's computations fit their transformers, the runs of a text fit its translation.
pub fn texts_law(program: &Program)
    ensures { TextsFitStar (plain_program program.now) }
{}
