ghost use Rattle.std.specs.Prelude.{◌≡◌, ◌∷◌};
ghost use Rattle.fst_text.specs.Words.{word_of};

/// A word of the language.
#[derive(Clone, Copy, Debug, PartialEq, Eq)]
pub enum Word {
    /// Any word that is held for a later version.
    Held,
    Fun,
    Effect,
    Lift,
    To,
    By,
    Input,
    Result,
    Return,
    Bind,
    Let,
    Ghost,
    In,
    Assert,
    If,
    Then,
    Else,
    Match,
    With,
    End,
    Reflect,
    Reify,
    Requires,
    Ensures,
    Decreases,
    Unfold,
    Unit,
    Bool,
    Int,
    Option,
    List,
    Either,
    Fst,
    Snd,
    None,
    Some,
    Inl,
    Inr,
    Len,
    True,
    False,
    Not,
    PureEffect,
    GhostEffect,
    DivEffect,
}

/// The word that a `D` and the rest are.
#[tactic(auto, unfolding(crate::specs::Words::words))]
fn after_capital_d(rest: &[u8]) -> Option<Word>
    ensures { result ≡ word_of (68 ∷ rest.now) }
{
    match rest {
        b"IV" => Some(Word::DivEffect),
        _ => None,
    }
}

/// The word that a `G` and the rest are.
#[tactic(auto, unfolding(crate::specs::Words::words))]
fn after_capital_g(rest: &[u8]) -> Option<Word>
    ensures { result ≡ word_of (71 ∷ rest.now) }
{
    match rest {
        b"HOST" => Some(Word::GhostEffect),
        _ => None,
    }
}

/// The word that a `P` and the rest are.
#[tactic(auto, unfolding(crate::specs::Words::words))]
fn after_capital_p(rest: &[u8]) -> Option<Word>
    ensures { result ≡ word_of (80 ∷ rest.now) }
{
    match rest {
        b"URE" => Some(Word::PureEffect),
        _ => None,
    }
}

/// The word that an `a` and the rest are.
#[tactic(auto, unfolding(crate::specs::Words::words))]
fn after_a(rest: &[u8]) -> Option<Word>
    ensures { result ≡ word_of (97 ∷ rest.now) }
{
    match rest {
        b"ssert" => Some(Word::Assert),
        b"nd" | b"bs" => Some(Word::Held),
        _ => None,
    }
}

/// The word that a `b` and the rest are.
#[tactic(auto, unfolding(crate::specs::Words::words))]
fn after_b(rest: &[u8]) -> Option<Word>
    ensures { result ≡ word_of (98 ∷ rest.now) }
{
    match rest {
        b"y" => Some(Word::By),
        b"ind" => Some(Word::Bind),
        b"ool" => Some(Word::Bool),
        _ => None,
    }
}

/// The word that a `d` and the rest are.
#[tactic(auto, unfolding(crate::specs::Words::words))]
fn after_d(rest: &[u8]) -> Option<Word>
    ensures { result ≡ word_of (100 ∷ rest.now) }
{
    match rest {
        b"ecreases" => Some(Word::Decreases),
        _ => None,
    }
}

/// The word that an `e` and the rest are.
#[tactic(auto, unfolding(crate::specs::Words::words))]
fn after_e(rest: &[u8]) -> Option<Word>
    ensures { result ≡ word_of (101 ∷ rest.now) }
{
    match rest {
        b"ffect" => Some(Word::Effect),
        b"lse" => Some(Word::Else),
        b"nd" => Some(Word::End),
        b"nsures" => Some(Word::Ensures),
        b"ither" => Some(Word::Either),
        _ => None,
    }
}

/// The word that an `f` and the rest are.
#[tactic(auto, unfolding(crate::specs::Words::words))]
fn after_f(rest: &[u8]) -> Option<Word>
    ensures { result ≡ word_of (102 ∷ rest.now) }
{
    match rest {
        b"un" => Some(Word::Fun),
        b"st" => Some(Word::Fst),
        b"alse" => Some(Word::False),
        b"orall" => Some(Word::Held),
        _ => None,
    }
}

/// The word that a `g` and the rest are.
#[tactic(auto, unfolding(crate::specs::Words::words))]
fn after_g(rest: &[u8]) -> Option<Word>
    ensures { result ≡ word_of (103 ∷ rest.now) }
{
    match rest {
        b"host" => Some(Word::Ghost),
        _ => None,
    }
}

/// The word that an `i` and the rest are.
#[tactic(auto, unfolding(crate::specs::Words::words))]
fn after_i(rest: &[u8]) -> Option<Word>
    ensures { result ≡ word_of (105 ∷ rest.now) }
{
    match rest {
        b"nput" => Some(Word::Input),
        b"n" => Some(Word::In),
        b"f" => Some(Word::If),
        b"nt" => Some(Word::Int),
        b"nl" => Some(Word::Inl),
        b"nr" => Some(Word::Inr),
        b"nterface" => Some(Word::Held),
        _ => None,
    }
}

/// The word that an `l` and the rest are.
#[tactic(auto, unfolding(crate::specs::Words::words))]
fn after_l(rest: &[u8]) -> Option<Word>
    ensures { result ≡ word_of (108 ∷ rest.now) }
{
    match rest {
        b"ift" => Some(Word::Lift),
        b"et" => Some(Word::Let),
        b"ist" => Some(Word::List),
        b"en" => Some(Word::Len),
        b"aws" => Some(Word::Held),
        _ => None,
    }
}

/// The word that an `m` and the rest are.
#[tactic(auto, unfolding(crate::specs::Words::words))]
fn after_m(rest: &[u8]) -> Option<Word>
    ensures { result ≡ word_of (109 ∷ rest.now) }
{
    match rest {
        b"atch" => Some(Word::Match),
        b"in" | b"ax" | b"odule" => Some(Word::Held),
        _ => None,
    }
}

/// The word that an `n` and the rest are.
#[tactic(auto, unfolding(crate::specs::Words::words))]
fn after_n(rest: &[u8]) -> Option<Word>
    ensures { result ≡ word_of (110 ∷ rest.now) }
{
    match rest {
        b"one" => Some(Word::None),
        b"ot" => Some(Word::Not),
        _ => None,
    }
}

/// The word that an `o` and the rest are.
#[tactic(auto, unfolding(crate::specs::Words::words))]
fn after_o(rest: &[u8]) -> Option<Word>
    ensures { result ≡ word_of (111 ∷ rest.now) }
{
    match rest {
        b"ption" => Some(Word::Option),
        _ => None,
    }
}

/// The word that an `r` and the rest are.
#[tactic(auto, unfolding(crate::specs::Words::words))]
fn after_r(rest: &[u8]) -> Option<Word>
    ensures { result ≡ word_of (114 ∷ rest.now) }
{
    match rest {
        b"esult" => Some(Word::Result),
        b"eturn" => Some(Word::Return),
        b"eflect" => Some(Word::Reflect),
        b"eify" => Some(Word::Reify),
        b"equires" => Some(Word::Requires),
        _ => None,
    }
}

/// The word that an `s` and the rest are.
#[tactic(auto, unfolding(crate::specs::Words::words))]
fn after_s(rest: &[u8]) -> Option<Word>
    ensures { result ≡ word_of (115 ∷ rest.now) }
{
    match rest {
        b"nd" => Some(Word::Snd),
        b"ome" => Some(Word::Some),
        _ => None,
    }
}

/// The word that a `t` and the rest are.
#[tactic(auto, unfolding(crate::specs::Words::words))]
fn after_t(rest: &[u8]) -> Option<Word>
    ensures { result ≡ word_of (116 ∷ rest.now) }
{
    match rest {
        b"o" => Some(Word::To),
        b"hen" => Some(Word::Then),
        b"rue" => Some(Word::True),
        _ => None,
    }
}

/// The word that a `u` and the rest are.
#[tactic(auto, unfolding(crate::specs::Words::words))]
fn after_u(rest: &[u8]) -> Option<Word>
    ensures { result ≡ word_of (117 ∷ rest.now) }
{
    match rest {
        b"nfold" => Some(Word::Unfold),
        b"nit" => Some(Word::Unit),
        b"se" => Some(Word::Held),
        _ => None,
    }
}

/// The word that a `w` and the rest are.
#[tactic(auto, unfolding(crate::specs::Words::words))]
fn after_w(rest: &[u8]) -> Option<Word>
    ensures { result ≡ word_of (119 ∷ rest.now) }
{
    match rest {
        b"ith" => Some(Word::With),
        _ => None,
    }
}

/// The word that the first byte and the rest are.
#[tactic(auto, unfolding(crate::specs::Words::words))]
fn word_after(first: u8, rest: &[u8]) -> Option<Word>
    ensures { result ≡ word_of (first ∷ rest.now) }
{
    match first {
        b'D' => after_capital_d(rest),
        b'G' => after_capital_g(rest),
        b'P' => after_capital_p(rest),
        b'a' => after_a(rest),
        b'b' => after_b(rest),
        b'd' => after_d(rest),
        b'e' => after_e(rest),
        b'f' => after_f(rest),
        b'g' => after_g(rest),
        b'i' => after_i(rest),
        b'l' => after_l(rest),
        b'm' => after_m(rest),
        b'n' => after_n(rest),
        b'o' => after_o(rest),
        b'r' => after_r(rest),
        b's' => after_s(rest),
        b't' => after_t(rest),
        b'u' => after_u(rest),
        b'w' => after_w(rest),
        _ => None,
    }
}

/// The word that the identifier is, if it is reserved or held for a later version.
#[tactic(auto, unfolding(crate::specs::Words::words))]
pub fn word_of(name: &[u8]) -> Option<Word>
    ensures { result ≡ word_of name.now }
{
    match name {
        [first, rest @ ..] => word_after(*first, rest),
        [] => None,
    }
}
