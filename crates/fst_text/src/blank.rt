ghost use Rattle.std.specs.Prelude.{◌≡◌, ◌≤◌, length};
ghost use Rattle.fst_text.specs.Blanks.{blank_len, blanks_len};

use crate::character::Class;

/// How many bytes the blank or the comment at the front has, 0 where none begins there.
fn blank_len(bytes: &[u8]) -> usize
    ensures value { result ≡ blank_len bytes.now }
    ensures within { result ≤ length bytes.now }
{
    match bytes {
        [b' ' | b'\t' | b'\n' | b'\r', ..] => 1,
        [b'/', rest @ ..] => match rest {
            [b'/', comment @ ..] => 2 + Class::Comment.run_len(comment),
            _ => 0,
        },
        _ => 0,
    }
}

/// How many bytes the blanks and comments at the front have.
pub fn blanks_len(bytes: &[u8]) -> usize
    ensures value { result ≡ blanks_len bytes.now }
    ensures within { result ≤ length bytes.now }
{
    let mut at = 0;
    loop {
        let size = blank_len(&bytes[at..]);
        if size == 0 {
            return at;
        }
        at += size;
    }
}
