ghost use Rattle.fst_congruence.specs.Explained.{JoinedLaw};

/// Two numbers are joined under the equations of a marking exactly where their terms are joined under the marking.
pub fn joined_law()
    ensures { JoinedLaw }
{}
