ghost use Rattle.std.specs.Prelude.{◌≡◌, ◌↔◌, [], length, IsTrue, None, Some};
ghost use Rattle.fst_values.specs.Tokens.{skip, word, after_word};
ghost use Rattle.fst_values.specs.Reading.{starts, after_mark, expected, past_word, Expects};

use crate::fault::ValueFault;
use std::marker::Model;

/// The bytes of a text that are left to read. Each token is taken with the blanks after it.
#[derive(Drop)]
pub struct Reader<'a> {
    rest: &'a [u8],
}

impl<'a> Model for Reader<'a> {
    ghost use Rattle.std.specs.Prelude.{ℕ, List};

    ghost Value = { List ℕ };

    ghost view = { λ reader. reader.rest.now };
}

impl<'a> Reader<'a> {
    /// A reader behind the blanks at the front.
    pub fn new(bytes: &'a [u8]) -> Reader<'a>
        ensures { result ≡ skip bytes.now }
    {
        Reader {
            rest: after_blanks(bytes),
        }
    }

    pub fn is_at_end(&self) -> bool
        ensures { IsTrue result ↔ (self.now ≡ []) }
    {
        self.rest.is_empty()
    }

    /// Takes the mark if it is next.
    pub fn take(&mut self, mark: u8) -> bool
        ensures found { result ≡ starts mark self.old }
        ensures rest { self.new ≡ after_mark mark self.old }
    {
        match self.rest {
            [first, rest @ ..] if *first == mark => {
                self.rest = after_blanks(rest);
                true
            }
            _ => false,
        }
    }

    pub fn expect(&mut self, mark: u8) -> Result<(), ValueFault>
        ensures { Expects (expected mark self.old) result self.new }
    {
        if self.take(mark) {
            Ok(())
        } else {
            Err(ValueFault::NotAValue)
        }
    }

    /// Takes the longest run of letters and digits.
    pub fn word(&mut self) -> &'a [u8]
        ensures word { result.now ≡ word self.old }
        ensures rest { self.new ≡ past_word self.old }
    {
        let (word, rest) = self.rest.split_at(word_len(self.rest));
        self.rest = after_blanks(rest);
        word
    }
}

fn after_blanks(bytes: &[u8]) -> &[u8]
    ensures { result.now ≡ skip bytes.now }
{
    let mut rest = bytes;
    while let [first, tail @ ..] = rest {
        if !matches!(*first, b' ' | b'\t' | b'\n' | b'\r') {
            break;
        }
        rest = tail;
    }
    rest
}

/// The length of the longest run of letters and digits at the front.
fn word_len(bytes: &[u8]) -> usize
    ensures { result ≡ length (word bytes.now) }
{
    bytes
        .iter()
        .take_while(|byte| byte.is_ascii_alphanumeric())
        .count()
}
