//! The limits on what is read: open brackets, tokens of a declaration, and the size of literals.

ghost use Rattle.std.specs.Prelude.{◌≡◌, ◌≤◌, ◌<◌, ◌||◌, nat_lt, false, length, map, IfSome, IfNone};
ghost use Rattle.fst_syntax.specs.Limits as l;
ghost use Rattle.fst_syntax.specs.Tokens.{token_of};

use fst_base::{Pos, Rule};
use fst_syntax::{Lexeme, Limit, Seen, Terminal};
use fst_term_reader::magnitude;

fn opens(terminal: Terminal) -> bool
    ensures { result ≡ l.opens terminal }
{
    match terminal {
        Terminal::LeftParen | Terminal::LeftBracket | Terminal::LeftBrace => true,
        _ => false,
    }
}

fn closes(terminal: Terminal) -> bool
    ensures { result ≡ l.closes terminal }
{
    match terminal {
        Terminal::RightParen | Terminal::RightBracket | Terminal::RightBrace => true,
        _ => false,
    }
}

fn declares(terminal: Terminal) -> bool
    ensures { result ≡ l.declares terminal }
{
    match terminal {
        Terminal::Fun | Terminal::Effect | Terminal::Lift => true,
        _ => false,
    }
}

fn ends_operand(terminal: Terminal) -> bool
    ensures { result ≡ l.ends_operand terminal }
{
    match terminal {
        Terminal::Name | Terminal::Small | Terminal::Number => true,
        Terminal::True | Terminal::False | Terminal::None => true,
        Terminal::Result | Terminal::Input => true,
        Terminal::RightParen | Terminal::RightBracket => true,
        _ => false,
    }
}

fn opened(seen: &Seen, terminal: Terminal) -> usize
    requires { seen.now.brackets ≤ 256 }
    ensures { result ≡ l.opened seen.now terminal }
{
    if opens(terminal) {
        seen.brackets + 1
    } else if closes(terminal) {
        seen.brackets.saturating_sub(1)
    } else {
        seen.brackets
    }
}

fn counted(seen: &Seen, terminal: Terminal) -> usize
    requires { seen.now.declared ≤ 2048 }
    ensures { result ≡ l.counted seen.now terminal }
{
    if declares(terminal) {
        1
    } else if seen.declared > 0 {
        seen.declared + 1
    } else {
        0
    }
}

/// What stands before the next token.
fn see(seen: &Seen, terminal: Terminal, at: Pos) -> Seen
    requires open { seen.now.brackets ≤ 256 }
    requires declared { seen.now.declared ≤ 2048 }
    ensures { result ≡ l.see seen.now terminal at }
{
    let minus = if terminal == Terminal::Minus && !seen.operand {
        Some(at)
    } else {
        None
    };
    Seen {
        brackets: opened(seen, terminal),
        declared: counted(seen, terminal),
        operand: ends_operand(terminal),
        minus,
    }
}

/// Whether the last bracket or token was one too many.
fn is_deep(seen: &Seen) -> bool
    ensures value { result ≡ (nat_lt 256 seen.now.brackets || nat_lt 2048 seen.now.declared) }
    ensures shallow { result ≡ false → (seen.now.brackets ≤ 256) × (seen.now.declared ≤ 2048) }
{
    seen.brackets > 256 || seen.declared > 2048
}

/// The rule that the token breaks, and its place; `next` stands behind it.
fn passed(seen: &Seen, next: &Seen, token: &Lexeme<'_>) -> Option<(Rule, Pos)>
    requires { next.now ≡ l.see seen.now token.now.terminal (record { at = token.now.at }) }
    ensures value { result ≡ l.passed seen.now (token_of token.now) }
    ensures shallow { IfNone result ((next.now.brackets ≤ 256) × (next.now.declared ≤ 2048)) }
{
    let at = Pos { at: token.at };
    let wide = token.terminal == Terminal::Number && is_wide(seen, token.text);
    match seen.minus {
        Some(minus) if wide => Some((Rule::NumberTooWide, minus)),
        _ if is_deep(next) => Some((Rule::TooDeep, at)),
        _ if wide => Some((Rule::NumberTooWide, at)),
        _ => None,
    }
}

/// Whether the digits are a literal outside 128 bits.
fn is_wide(seen: &Seen, digits: &[u8]) -> bool
    ensures { result ≡ l.is_wide seen.now digits.now }
{
    match seen.minus {
        Some(_) => magnitude(digits) > 1 << 127,
        None => magnitude(digits) >= 1 << 127,
    }
}

pub fn first_limit(tokens: &[Lexeme<'_>]) -> Option<Limit>
    ensures value { result ≡ l.first_limit (map token_of tokens.now) }
    ensures within { IfSome result (λ limit. limit.index < length tokens.now) }
{
    let mut seen = Seen {
        brackets: 0,
        declared: 0,
        operand: false,
        minus: None,
    };
    let mut index = 0;
    let mut left = tokens;
    'tokens: while let [token, rest @ ..] = left {
        let next = see(&seen, token.terminal, Pos { at: token.at });
        if let Some((rule, at)) = passed(&seen, &next, token) {
            return Some(Limit { index, rule, at });
        }
        seen = next;
        index += 1;
        left = rest;
    }
    None
}
