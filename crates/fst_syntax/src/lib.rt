//! The grammar of the language: its tokens, its productions with the tree of each, and what a text is read as.
#![tactic(auto)]

mod binding;
mod header;
mod lexeme;
mod limit;
mod operator;
mod pattern;
mod stop;
mod terminal;

pub use binding::Binding;
pub use header::{Abstraction, Computation, Contract, Signature};
pub use lexeme::Lexeme;
pub use limit::{Limit, Seen};
pub use operator::{Comparison, Digits, Operator, Relation, Separator};
pub use pattern::Pattern;
pub use stop::Stop;
pub use terminal::Terminal;
