//! The tokens that are left to be read.

ghost use Rattle.std.specs.Prelude.{◌≡◌, ◌<◌, ◌+◌, [], ◌∷◌, length, map, Ok, Err, IfOk, IfErr, OnOk};
ghost use Rattle.fst_grammar.specs.Alphabet.{next, has};
ghost use Rattle.std.specs.List.{All};
ghost use Rattle.fst_syntax.specs.Tokens.{alphabet, token_of, HasText};
ghost use Rattle.fst_syntax.specs.Program.{first_place};
ghost use Rattle.fst_syntax.specs.Productions as n;
ghost use Rattle.fst_syntax.specs.Reading.{Reads, reads, takes, words, numbers};
ghost use Rattle.fst_syntax.specs.Trees.{magnitude};

use fst_base::{Name, OutOfMemory, Pos};
use fst_syntax::{Digits, Lexeme, Stop, Terminal};
use fst_trees::Word;
use std::alloc::Global;
use std::marker::Model;
use std::str::from_utf8;

/// The tokens that are left.
#[derive(Drop)]
pub struct Reader<'a> {
    rest: &'a [Lexeme<'a>],
    alloc: Global,
}

impl<'a> Model for Reader<'a> {
    ghost use Rattle.std.specs.Prelude.{List, map};
    ghost use Rattle.std.specs.List.{All};
    ghost use Rattle.fst_syntax.specs.Tokens.{Token, token_of, HasText};

    ghost Value = { List Token };

    ghost view = { λ r. map token_of r.rest.now };

    ghost invariant = { λ r. All HasText r.rest.now };
}

impl<'a> Reader<'a> {
    /// A reader of these tokens.
    pub fn new(alloc: Global, tokens: &'a [Lexeme<'a>]) -> Reader<'a>
        requires { All HasText tokens.now }
        ensures { result ≡ map token_of tokens.now }
    {
        Reader {
            rest: tokens,
            alloc,
        }
    }

    /// The place of the next token, if there is one.
    pub fn place(&self) -> Option<Pos>
        ensures { result ≡ first_place self.now }
    {
        match self.rest {
            [token, ..] => Some(Pos { at: token.at }),
            [] => None,
        }
    }

    /// What makes the trees.
    pub fn alloc(&self) -> Global {
        self.alloc
    }

    /// How many tokens are left.
    pub fn left(&self) -> usize
        ensures { result ≡ length self.now }
    {
        self.rest.len()
    }

    /// More than the tokens that are left.
    pub fn room(&self) -> usize
        ensures { result ≡ length self.now + 1 }
    {
        self.rest.len() + 1
    }

    /// The terminal of the next token.
    pub fn peek(&self) -> Terminal
        ensures { result ≡ next alphabet self.now }
    {
        match self.rest {
            [token, ..] => token.terminal,
            [] => Terminal::End,
        }
    }

    /// Whether a token of this terminal comes next.
    pub fn at(&self, terminal: Terminal) -> bool
        ensures { result ≡ has alphabet (terminal ∷ []) (next alphabet self.now) }
    {
        self.peek() == terminal
    }

    /// Takes a token of this terminal; its place.
    pub fn expect(&mut self, terminal: Terminal) -> Result<Pos, Stop>
        ensures reads { Reads (takes terminal self.old) result self.new }
        ensures shorter { OnOk result (length self.new < length self.old) }
    {
        match self.rest {
            [token, rest @ ..] => {
                if token.terminal == terminal {
                    self.rest = rest;
                    Ok(Pos { at: token.at })
                } else {
                    Err(Stop::Syntax)
                }
            }
            [] => Err(Stop::Syntax),
        }
    }

    /// Takes a token of this terminal, as a word.
    fn word(&mut self, terminal: Terminal) -> Result<Word, Stop>
        ensures reads { Reads (words terminal self.old) result self.new }
        ensures shorter { OnOk result (length self.new < length self.old) }
    {
        match self.rest {
            [token, rest @ ..] => {
                if token.terminal == terminal {
                    self.rest = rest;
                    let text = name_of(self.alloc, *token)?;
                    Ok(Word {
                        text,
                        at: Pos { at: token.at },
                    })
                } else {
                    Err(Stop::Syntax)
                }
            }
            [] => Err(Stop::Syntax),
        }
    }

    /// Takes a token of this terminal, as digits.
    pub fn digits(&mut self, terminal: Terminal) -> Result<Digits, Stop>
        ensures reads { Reads (numbers terminal self.old) result self.new }
        ensures shorter { OnOk result (length self.new < length self.old) }
    {
        match self.rest {
            [token, rest @ ..] => {
                if token.terminal == terminal {
                    self.rest = rest;
                    Ok(Digits {
                        at: Pos { at: token.at },
                        magnitude: magnitude(token.text),
                    })
                } else {
                    Err(Stop::Syntax)
                }
            }
            [] => Err(Stop::Syntax),
        }
    }

    /// An identifier but for `_`.
    #[tactic(auto, using(fst_syntax::proofs::Opens::opens))]
    pub fn name(&mut self) -> Result<Word, Stop>
        ensures reads { Reads (reads n.name self.old) result self.new }
        ensures shorter { OnOk result (length self.new < length self.old) }
    {
        let name = self.word(Terminal::Name)?;
        Ok(name)
    }

    /// An identifier.
    #[tactic(auto, using(fst_syntax::proofs::Opens::opens))]
    pub fn binder(&mut self) -> Result<Word, Stop>
        ensures reads { Reads (reads n.binder self.old) result self.new }
        ensures shorter { OnOk result (length self.new < length self.old) }
    {
        match self.peek() {
            Terminal::Name => {
                let name = self.word(Terminal::Name)?;
                Ok(name)
            }
            _ => {
                let hole = self.word(Terminal::Hole)?;
                Ok(hole)
            }
        }
    }

    #[tactic(auto, using(fst_syntax::proofs::Opens::opens))]
    pub fn number(&mut self) -> Result<Digits, Stop>
        ensures reads { Reads (reads n.number self.old) result self.new }
        ensures shorter { OnOk result (length self.new < length self.old) }
    {
        match self.peek() {
            Terminal::Small => {
                let small = self.digits(Terminal::Small)?;
                Ok(small)
            }
            _ => {
                let number = self.digits(Terminal::Number)?;
                Ok(number)
            }
        }
    }
}

/// The text of a token as a name.
fn name_of(alloc: Global, token: Lexeme<'_>) -> Result<Name, OutOfMemory>
    requires { HasText token }
    ensures { IfOk result (λ name. name ≡ token.entry.text.now) }
{
    let text = from_utf8(token.text).unwrap_or("");
    Name::new(alloc, text)
}

/// The number that the digits are, up to 2^127 + 1.
pub fn magnitude(digits: &[u8]) -> u128
    ensures { result ≡ magnitude digits.now }
{
    let mut number: u128 = 0;
    for digit in digits {
        let digit = digit.saturating_sub(b'0') as u128;
        number = number
            .saturating_mul(10)
            .saturating_add(digit)
            .min((1 << 127) + 1);
    }
    number
}
