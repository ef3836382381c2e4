//! Grammars whose choices one token settles: what has a derivation, how it is read, and where a fault is.
#![tactic(auto)]
