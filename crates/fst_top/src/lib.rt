//! The top call: from words, a shelf and a sink to a text and a status.
#![tactic(auto)]

mod arguments;
mod branches;
mod checking;
mod elaborate;
mod goals;
mod judging;
mod laws;
mod print;
mod reading;
mod running;
mod status;
mod token_words;
mod top;
mod words;

pub use laws::a_text_is_at_most_one_program;
pub use top::fstar;
