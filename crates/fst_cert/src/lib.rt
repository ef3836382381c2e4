//! Certificates: the lines of a proof, and what each of them needs and gives.
#![tactic(auto)]

mod cert;
mod laws;
mod line;

pub use cert::{Cert, Proof};
pub use laws::rules_law;
pub use line::Line;
