ghost use Rattle.fst_erasure.specs.ErasureLaws.{ErasureKeeps, ErasedSorted, ErasedSound};
ghost use Rattle.fst_program.specs.Plain.{plain_program};

use fst_program::Program;

/// Where all functions are good, the erased run of one that isn't GHOST has the outcome of the program's run, at each fuel.
pub fn erasure_keeps(program: &Program)
    ensures { ErasureKeeps (plain_program program.now) }
{}

/// An erased program is well sorted.
pub fn erased_sorted(program: &Program)
    ensures { ErasedSorted (plain_program program.now) }
{}

/// An erased program is sound code.
pub fn erased_sound(program: &Program)
    ensures { ErasedSound (plain_program program.now) }
{}
