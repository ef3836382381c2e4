ghost use Rattle.std.specs.Prelude.{◌≡◌, ◌≤◌, ◌<◌, length, take, IfSome, IfNone};
ghost use Rattle.std.specs.List.{prefix_len};
ghost use Rattle.std.specs.Char.{is_ascii_digit};
ghost use Rattle.fst_text.specs.Characters.{name_len};
ghost use Rattle.fst_text.specs.Tokens.{kind_of, lexeme, IsLongest, BeginsNone};

use crate::character::Class;
use crate::mark::longest_mark;
use crate::token::Kind;
use crate::word::word_of;

/// How many bytes the identifier at the front has, whose first character is decoded.
fn decoded_name_len(bytes: &[u8]) -> usize
    ensures value { result ≡ name_len bytes.now }
    ensures within { result ≤ length bytes.now }
{
    let first = Class::Start.char_len(bytes);
    if first == 0 {
        return 0;
    }
    first + Class::Continue.run_len(&bytes[first..])
}

/// How many bytes the identifier at the front has, 0 where none begins there.
fn name_len(bytes: &[u8]) -> usize
    ensures value { result ≡ name_len bytes.now }
    ensures within { result ≤ length bytes.now }
{
    match bytes {
        [] => 0,
        [first, rest @ ..] if Class::Start.has_ascii(*first) => 1 + Class::Continue.run_len(rest),
        [0..=127, ..] => 0,
        _ => decoded_name_len(bytes),
    }
}

fn number_len(bytes: &[u8]) -> usize
    ensures value { result ≡ prefix_len is_ascii_digit bytes.now }
    ensures within { result ≤ length bytes.now }
{
    let mut at = 0;
    while at < bytes.len() && bytes[at].is_ascii_digit() {
        at += 1;
    }
    at
}

fn kind_of(name: &[u8]) -> Kind
    ensures { result ≡ kind_of name.now }
{
    match word_of(name) {
        Some(word) => Kind::Word(word),
        None => Kind::Ident,
    }
}

/// The longest token at the front: its kind and how many bytes it has.
pub fn lexeme(bytes: &[u8]) -> Option<(Kind, usize)>
    ensures value { result ≡ lexeme bytes.now }
    ensures longest { IfSome result (λ found. (0 < found.1) × IsLongest found.0 found.1 bytes.now) }
    ensures none { IfNone result (BeginsNone bytes.now) }
{
    let name = name_len(bytes);
    if name > 0 {
        return Some((kind_of(&bytes[..name]), name));
    }
    let number = number_len(bytes);
    if number > 0 {
        return Some((Kind::Number, number));
    }
    match longest_mark(bytes) {
        Some((mark, size)) => Some((Kind::Mark(mark), size)),
        None => None,
    }
}
