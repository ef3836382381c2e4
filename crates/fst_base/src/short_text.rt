ghost use Rattle.std.specs.Prelude.{◌≡◌, ◌≤◌, length};

use std::marker::Model;
use std::{fmt, str};

/// The most bytes of a short text: with them a name is no larger than a `String`.
pub(crate) const ROOM: usize = 22;

/// A text of at most `ROOM` bytes, which lie in the value itself. Contracts see its bytes.
#[derive(Drop)]
pub(crate) struct ShortText {
    len: u8,
    bytes: [u8; ROOM],
}

impl Model for ShortText {
    ghost use Rattle.std.specs.Prelude.{ℕ, ◌≤◌, List, take, IsUtf8};
    ghost use Rattle.fst_base.specs.declared.short_text.TheConstants.{ROOM};

    ghost Value = { List ℕ };

    ghost view = { λ text. take text.len text.bytes };

    ghost invariant = { λ text. (text.len ≤ ROOM) × ∥ IsUtf8 (take text.len text.bytes) ∥₁ };
}

impl ShortText {
    /// A copy of a text that has room.
    pub(crate) fn new(text: &str) -> ShortText
        requires { length text.now ≤ ROOM }
        ensures { result ≡ text.now }
    {
        let len = text.len();
        let mut bytes = [0; ROOM];
        bytes[..len].copy_from_slice(text.as_bytes());
        ShortText {
            len: len as u8,
            bytes,
        }
    }

    pub(crate) fn as_str(&self) -> &str
        ensures { result.now ≡ self.now }
    {
        unsafe { str::from_utf8_unchecked(&self.bytes[..self.len as usize]) }
    }
}

impl fmt::Debug for ShortText {
    fn fmt<W: fmt::Write>(&self, f: &mut fmt::Formatter<W>) -> fmt::Result {
        fmt::Debug::fmt(&self.as_str(), f)
    }
}
