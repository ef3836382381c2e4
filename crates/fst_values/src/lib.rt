//! Texts of values, read and printed.
#![tactic(auto)]

mod fault;
mod laws;
mod number;
mod parts;
mod print;
mod read;
mod reader;
mod values;

pub use fault::ValueFault;
pub use laws::{a_text_has_one_value, printed_texts_are_texts};
pub use print::print_value;
pub use read::read_value;
