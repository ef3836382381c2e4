ghost use Rattle.std.specs.Prelude.{◌≡◌, ◌≤◌, ◌<◌, ◌+◌, ◌^◌, ◌++◌, length, OnOk};
ghost use Rattle.fst_top.specs.Printed.{rule_text, refusal_text, plain_refusal_text, bad_argument_text};

use crate::print::number::{print_number, print_place};
use fst_base::{OutOfMemory, Pos, Rule, Seq};

fn rule_text(rule: Rule) -> &'static [u8]
    ensures { result.now ≡ rule_text rule }
{
    match rule {
        Rule::Syntax => b"1 Syntax",
        Rule::TooLong => b"2 TooLong",
        Rule::TooDeep => b"3 TooDeep",
        Rule::NumberTooWide => b"4 NumberTooWide",
        Rule::Unknown => b"5 Unknown",
        Rule::Twice => b"6 Twice",
        Rule::TooEarly => b"7 TooEarly",
        Rule::Arity => b"8 Arity",
        Rule::SortClash => b"9 SortClash",
        Rule::GhostUse => b"10 GhostUse",
        Rule::NoLift => b"11 NoLift",
        Rule::TwoPaths => b"12 TwoPaths",
        Rule::EffectShape => b"13 EffectShape",
        Rule::NoMeasure => b"14 NoMeasure",
        Rule::OpenMatch => b"15 OpenMatch",
        Rule::NoMain => b"16 NoMain",
        Rule::BadArgument => b"17 BadArgument",
        Rule::BadFuel => b"18 BadFuel",
        Rule::TooMany => b"19 TooMany",
        Rule::BadWords => b"20 BadWords",
        Rule::NoEffect => b"21 NoEffect",
    }
}

/// Appends a rule that is broken at a place of the text.
pub fn refusal(rule: Rule, at: Pos, text: &[u8], out: &mut Seq<u8>) -> Result<(), OutOfMemory>
    requires short { length text.now + 1 < 2 ^ 32 }
    ensures { OnOk result (out.new ≡ out.old ++ refusal_text rule text.now at.at) }
{
    out.extend_from_slice(b"refused ")?;
    out.extend_from_slice(rule_text(rule))?;
    out.extend_from_slice(b" at ")?;
    print_place(text, at, out)?;
    out.extend_from_slice(b"\n")
}

/// Appends a rule that is broken at no place.
pub fn plain_refusal(rule: Rule, out: &mut Seq<u8>) -> Result<(), OutOfMemory>
    ensures { OnOk result (out.new ≡ out.old ++ plain_refusal_text rule) }
{
    out.extend_from_slice(b"refused ")?;
    out.extend_from_slice(rule_text(rule))?;
    out.extend_from_slice(b"\n")
}

/// Appends that an argument word is bad, the first one being word 1.
pub fn bad_argument(word: u128, out: &mut Seq<u8>) -> Result<(), OutOfMemory>
    requires { word < 2 ^ 127 }
    ensures { OnOk result (out.new ≡ out.old ++ bad_argument_text word) }
{
    out.extend_from_slice(b"refused ")?;
    out.extend_from_slice(rule_text(Rule::BadArgument))?;
    out.extend_from_slice(b" ")?;
    print_number(word, out)?;
    out.extend_from_slice(b"\n")
}
