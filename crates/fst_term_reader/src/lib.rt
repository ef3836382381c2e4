//! From bytes to tokens, and from tokens to sorts, patterns, terms and formulas.
#![tactic(auto)]

mod atoms;
mod lexeme;
mod make;
mod operands;
mod operators;
mod parts;
mod patterns;
mod reader;
mod sorts;
mod spelling;
mod terms;

pub use lexeme::lexemes;
pub use reader::{Reader, magnitude};
