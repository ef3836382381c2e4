use crate::terminal::Terminal;

/// A token with its terminal, its place and its text, which is UTF-8.
#[derive(Clone, Copy, Debug)]
pub struct Lexeme<'a> {
    pub terminal: Terminal,
    pub at: u32,
    pub text: &'a [u8],
}
