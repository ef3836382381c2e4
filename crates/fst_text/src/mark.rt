ghost use Rattle.std.specs.Prelude.{◌≡◌, ◌≤◌, length, IfSome};
ghost use Rattle.fst_text.specs.Marks.{longest_mark};

/// A mark of the language.
#[derive(Clone, Copy, Debug, PartialEq, Eq)]
pub enum Mark {
    LeftParen,
    RightParen,
    LeftBracket,
    RightBracket,
    LeftBrace,
    RightBrace,
    Comma,
    Semicolon,
    Colon,
    ColonColon,
    Bar,
    BarBar,
    Arrow,
    Equal,
    NotEqual,
    LessEqual,
    Less,
    GreaterEqual,
    Greater,
    Implies,
    Plus,
    Minus,
    Star,
    Slash,
    Percent,
    AmpAmp,
}

/// The longest mark at the front, and how many bytes it has.
pub fn longest_mark(bytes: &[u8]) -> Option<(Mark, usize)>
    ensures value { result ≡ longest_mark bytes.now }
    ensures within { IfSome result (λ found. found.1 ≤ length bytes.now) }
{
    match bytes {
        [b'=', b'=', b'>', ..] => Some((Mark::Implies, 3)),
        [b':', b':', ..] => Some((Mark::ColonColon, 2)),
        [b'|', b'|', ..] => Some((Mark::BarBar, 2)),
        [b'-', b'>', ..] => Some((Mark::Arrow, 2)),
        [b'!', b'=', ..] => Some((Mark::NotEqual, 2)),
        [b'<', b'=', ..] => Some((Mark::LessEqual, 2)),
        [b'>', b'=', ..] => Some((Mark::GreaterEqual, 2)),
        [b'&', b'&', ..] => Some((Mark::AmpAmp, 2)),
        [b'(', ..] => Some((Mark::LeftParen, 1)),
        [b')', ..] => Some((Mark::RightParen, 1)),
        [b'[', ..] => Some((Mark::LeftBracket, 1)),
        [b']', ..] => Some((Mark::RightBracket, 1)),
        [b'{', ..] => Some((Mark::LeftBrace, 1)),
        [b'}', ..] => Some((Mark::RightBrace, 1)),
        [b',', ..] => Some((Mark::Comma, 1)),
        [b';', ..] => Some((Mark::Semicolon, 1)),
        [b':', ..] => Some((Mark::Colon, 1)),
        [b'|', ..] => Some((Mark::Bar, 1)),
        [b'=', ..] => Some((Mark::Equal, 1)),
        [b'<', ..] => Some((Mark::Less, 1)),
        [b'>', ..] => Some((Mark::Greater, 1)),
        [b'+', ..] => Some((Mark::Plus, 1)),
        [b'-', ..] => Some((Mark::Minus, 1)),
        [b'*', ..] => Some((Mark::Star, 1)),
        [b'/', ..] => Some((Mark::Slash, 1)),
        [b'%', ..] => Some((Mark::Percent, 1)),
        _ => None,
    }
}
