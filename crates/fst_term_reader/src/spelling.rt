//! The terminals of words and marks.

ghost use Rattle.std.specs.Prelude.{◌≡◌};
ghost use Rattle.fst_syntax.specs.Spelling.{of_word, of_mark};

use fst_syntax::Terminal;
use fst_text::{Mark, Word};

pub fn of_word(word: Word) -> Terminal
    ensures { result ≡ of_word word }
{
    match word {
        Word::Held => Terminal::Held,
        Word::Fun => Terminal::Fun,
        Word::Effect => Terminal::Effect,
        Word::Lift => Terminal::Lift,
        Word::To => Terminal::To,
        Word::By => Terminal::By,
        Word::Input => Terminal::Input,
        Word::Result => Terminal::Result,
        Word::Return => Terminal::Return,
        Word::Bind => Terminal::Bind,
        Word::Let => Terminal::Let,
        Word::Ghost => Terminal::Ghost,
        Word::In => Terminal::In,
        Word::Assert => Terminal::Assert,
        Word::If => Terminal::If,
        Word::Then => Terminal::Then,
        Word::Else => Terminal::Else,
        Word::Match => Terminal::Match,
        Word::With => Terminal::With,
        Word::End => Terminal::EndWord,
        Word::Reflect => Terminal::Reflect,
        Word::Reify => Terminal::Reify,
        Word::Requires => Terminal::Requires,
        Word::Ensures => Terminal::Ensures,
        Word::Decreases => Terminal::Decreases,
        Word::Unfold => Terminal::Unfold,
        Word::Unit => Terminal::Unit,
        Word::Bool => Terminal::Bool,
        Word::Int => Terminal::Int,
        Word::Option => Terminal::Option,
        Word::List => Terminal::List,
        Word::Either => Terminal::Either,
        Word::Fst => Terminal::Fst,
        Word::Snd => Terminal::Snd,
        Word::None => Terminal::None,
        Word::Some => Terminal::Some,
        Word::Inl => Terminal::Inl,
        Word::Inr => Terminal::Inr,
        Word::Len => Terminal::Len,
        Word::True => Terminal::True,
        Word::False => Terminal::False,
        Word::Not => Terminal::Not,
        Word::PureEffect => Terminal::PureEffect,
        Word::GhostEffect => Terminal::GhostEffect,
        Word::DivEffect => Terminal::DivEffect,
    }
}

pub fn of_mark(mark: Mark) -> Terminal
    ensures { result ≡ of_mark mark }
{
    match mark {
        Mark::LeftParen => Terminal::LeftParen,
        Mark::RightParen => Terminal::RightParen,
        Mark::LeftBracket => Terminal::LeftBracket,
        Mark::RightBracket => Terminal::RightBracket,
        Mark::LeftBrace => Terminal::LeftBrace,
        Mark::RightBrace => Terminal::RightBrace,
        Mark::Comma => Terminal::Comma,
        Mark::Semicolon => Terminal::Semicolon,
        Mark::Colon => Terminal::Colon,
        Mark::ColonColon => Terminal::ColonColon,
        Mark::Bar => Terminal::Bar,
        Mark::BarBar => Terminal::BarBar,
        Mark::Arrow => Terminal::Arrow,
        Mark::Equal => Terminal::Equal,
        Mark::NotEqual => Terminal::NotEqual,
        Mark::LessEqual => Terminal::LessEqual,
        Mark::Less => Terminal::Less,
        Mark::GreaterEqual => Terminal::GreaterEqual,
        Mark::Greater => Terminal::Greater,
        Mark::Implies => Terminal::Implies,
        Mark::Plus => Terminal::Plus,
        Mark::Minus => Terminal::Minus,
        Mark::Star => Terminal::Star,
        Mark::Slash => Terminal::Slash,
        Mark::Percent => Terminal::Percent,
        Mark::AmpAmp => Terminal::AmpAmp,
    }
}
