ghost use Rattle.fst_names.specs.Declarations.{decls_of};
ghost use Rattle.fst_sorting.specs.Front.{FrontLaw};

use fst_trees::RawProgram;

/// A program that the grammar gives and that isn't refused is well sorted, and obeys the discipline.
pub fn front_law(program: &RawProgram)
    ensures { FrontLaw (decls_of program.now) }
{}
