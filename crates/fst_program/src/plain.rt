ghost use Rattle.std.specs.Prelude.{◌≡◌};
ghost use Rattle.fst_program.specs.Plain.{plain_comp, plain_dm, plain_program};

use crate::comp::Comp;
use crate::definition::DmTerm;
use crate::fun::Program;

/// Two core texts with one plain tree are equal.
pub fn plain_comps_lose_nothing(a: &Comp, b: &Comp)
    ensures { plain_comp a.now ≡ plain_comp b.now → a.now ≡ b.now }
{}

/// Two definition texts with one plain tree are equal.
pub fn plain_definitions_lose_nothing(a: &DmTerm, b: &DmTerm)
    ensures { plain_dm a.now ≡ plain_dm b.now → a.now ≡ b.now }
{}

/// Two programs with one plain tree are equal.
pub fn plain_programs_lose_nothing(a: &Program, b: &Program)
    ensures { plain_program a.now ≡ plain_program b.now → a.now ≡ b.now }
{}
