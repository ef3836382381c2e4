ghost use Rattle.std.specs.Prelude.{◌≡◌, ◌≤◌, ◌<◌, ◌+◌, ◌==◌, IsTrue, length, drop, slice_index};
ghost use Rattle.fst_text.specs.Characters.{test_of, char_len, run_len};

use unicode_ident::{is_xid_continue, is_xid_start};

/// A class of characters.
#[derive(Clone, Copy)]
pub enum Class {
    /// What an identifier may begin with.
    Start,
    /// What an identifier may go on with.
    Continue,
    /// What may stand in a comment.
    Comment,
}

impl Class {
    fn has(self, ch: char) -> bool
        ensures { result ≡ test_of self ch }
    {
        match self {
            Class::Start => ch == '_' || is_xid_start(ch),
            Class::Continue => is_xid_continue(ch),
            Class::Comment => ch != '\n',
        }
    }

    /// Whether the byte is an ASCII character of the class.
    pub fn has_ascii(self, byte: u8) -> bool
        ensures value { byte < 128 → result ≡ test_of self byte }
        ensures ascii { IsTrue result → byte < 128 }
    {
        match self {
            Class::Start => byte.is_ascii_alphabetic() || byte == b'_',
            Class::Continue => byte.is_ascii_alphanumeric() || byte == b'_',
            Class::Comment => byte < 128 && byte != b'\n',
        }
    }

    /// How many bytes the first character has, 0 where it is not of the class or the bytes begin with none.
    pub fn char_len(self, bytes: &[u8]) -> usize
        ensures value { result ≡ char_len (test_of self) bytes.now }
        ensures within { result ≤ length bytes.now }
    {
        let (found, size) = bstr::decode_utf8(bytes);
        match found {
            Some(ch) if self.has(ch) => size,
            _ => 0,
        }
    }

    /// How many bytes at the front are ASCII characters of the class. The run ends there, or goes on with a byte that is
    /// not ASCII.
    fn ascii_len(self, bytes: &[u8]) -> usize
        ensures value { run_len (test_of self) bytes.now ≡ result + run_len (test_of self) (drop result bytes.now) }
        ensures stops { slice_index bytes.now result < 128 → run_len (test_of self) (drop result bytes.now) ≡ 0 }
        ensures within { result ≤ length bytes.now }
    {
        let mut at = 0;
        while at < bytes.len() && self.has_ascii(bytes[at]) {
            at += 1;
        }
        at
    }

    /// How many bytes the characters of the class at the front have, decoded one by one.
    fn decoded_len(self, bytes: &[u8]) -> usize
        ensures value { result ≡ run_len (test_of self) bytes.now }
        ensures within { result ≤ length bytes.now }
    {
        let mut at = 0;
        loop {
            let size = self.char_len(&bytes[at..]);
            if size == 0 {
                return at;
            }
            at += size;
        }
    }

    /// How many bytes the characters of the class at the front have: they are decoded only where a byte is not ASCII.
    pub fn run_len(self, bytes: &[u8]) -> usize
        ensures value { result ≡ run_len (test_of self) bytes.now }
        ensures within { result ≤ length bytes.now }
    {
        let ascii = self.ascii_len(bytes);
        if ascii < bytes.len() && bytes[ascii] >= 128 {
            return ascii + self.decoded_len(&bytes[ascii..]);
        }
        ascii
    }
}
