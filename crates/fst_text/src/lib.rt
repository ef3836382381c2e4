//! The scanner: bytes to tokens, each the longest that fits, and the place of the first fault.
#![tactic(auto)]

mod blank;
mod character;
mod lexeme;
mod mark;
mod scanner;
mod token;
mod word;

pub use mark::Mark;
pub use scanner::Scanner;
pub use token::{Kind, Token};
pub use word::Word;
