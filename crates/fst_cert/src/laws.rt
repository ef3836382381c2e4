ghost use Rattle.fst_cert.specs.Rules.{RulesLaw};

/// The rules of the lines of a certificate, and the function that computes what is owed and the first line that doesn't
/// hold, say the same.
pub fn rules_law()
    ensures { RulesLaw }
{}
