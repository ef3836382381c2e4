//! Words among the tokens of a text.

ghost use Rattle.std.specs.Prelude.{◌≡◌, ◌<◌, ◌+◌, ◌^◌, length, bytes_eq};
ghost use Rattle.std.specs.List.{list_any};
ghost use Rattle.fst_text.specs.Scans.{IsTokenOf, token_text};
ghost use Rattle.fst_top.specs.Answers.{has_word};

use fst_text::{Scanner, Token};

/// Whether the word stands among the tokens of the text.
pub fn has_word(text: &[u8], word: &str) -> bool
    requires { length text.now + 1 < 2 ^ 32 }
    ensures { result ≡ has_word text.now word.now }
{
    let mut scanner = Scanner::new(text);
    'tokens: loop {
        match scanner.next() {
            Ok(Some(token)) => {
                if is_word(text, token, word) {
                    return true;
                }
            }
            Ok(None) => return false,
            Err(_) => return false,
        }
    }
}

/// Whether the token is this word.
fn is_word(text: &[u8], token: Token, word: &str) -> bool
    requires { IsTokenOf text.now token }
    ensures { result ≡ bytes_eq (token_text text.now token) word.now }
{
    &text[token.from as usize..token.to as usize] == word.as_bytes()
}
