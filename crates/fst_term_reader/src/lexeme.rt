//! The tokens of a text as the grammar sees them.

ghost use Rattle.std.specs.Prelude.{◌≡◌, ◌<◌, ◌+◌, ◌^◌, length, map, [], IfOk};
ghost use Rattle.std.specs.List.{All};
ghost use Rattle.fst_text.specs.Scans.{IsTokenOf};
ghost use Rattle.fst_syntax.specs.Tokens.{token_of, HasText};
ghost use Rattle.fst_syntax.specs.Lexemes.{terminal_of, lexed, lexemes};
ghost use Rattle.fst_syntax.specs.Program.{Rising};

use crate::reader::magnitude;
use crate::spelling::{of_mark, of_word};
use fst_base::OutOfMemory;
use fst_syntax::{Lexeme, Terminal};
use fst_text::{Kind, Scanner, Token};
use std::alloc::Global;

fn terminal_of(kind: Kind, text: &[u8]) -> Terminal
    ensures { result ≡ terminal_of kind text.now }
{
    match kind {
        Kind::Word(word) => of_word(word),
        Kind::Mark(mark) => of_mark(mark),
        Kind::Number => {
            if magnitude(text) <= 4 {
                Terminal::Small
            } else {
                Terminal::Number
            }
        }
        Kind::Ident => {
            match text {
                [b'_'] => Terminal::Hole,
                _ => Terminal::Name,
            }
        }
    }
}

fn lexed<'a>(bytes: &'a [u8], token: Token) -> Lexeme<'a>
    requires { IsTokenOf bytes.now token }
    ensures value { token_of result ≡ lexed bytes.now token }
    ensures utf8 { HasText result }
{
    let text = &bytes[token.from as usize..token.to as usize];
    Lexeme {
        terminal: terminal_of(token.kind, text),
        at: token.from,
        text,
    }
}

/// The tokens of the text, and at their end the byte that begins none, if there is one.
#[tactic(auto, using(fst_syntax::proofs::Rising::lexemes_rising))]
pub fn lexemes<'a>(alloc: Global, bytes: &'a [u8]) -> Result<Vec<Lexeme<'a>>, OutOfMemory>
    requires { length bytes.now + 1 < 2 ^ 32 }
    ensures value { IfOk result (λ found. map token_of found.items ≡ lexemes bytes.now) }
    ensures utf8 { IfOk result (λ found. All HasText found.items) }
    ensures rising { Rising 0 (lexemes bytes.now) (length bytes.now) }
{
    let mut found = Vec::new(alloc);
    let mut scanner = Scanner::new(bytes);
    'tokens: loop {
        match scanner.next() {
            Ok(Some(token)) => found.push(lexed(bytes, token))?,
            Ok(None) => return Ok(found),
            Err(at) => {
                found.push(bad(at))?;
                return Ok(found);
            }
        }
    }
}

fn bad<'a>(at: u32) -> Lexeme<'a>
    ensures value { token_of result ≡ record { terminal = Terminal.Bad; at = at; text = [] } }
    ensures utf8 { HasText result }
{
    Lexeme {
        terminal: Terminal::Bad,
        at,
        text: b"",
    }
}
