//! From bytes to a program, or to the refusal that is due.

ghost use Rattle.std.specs.Prelude.{◌≡◌, ◌<◌, ◌^◌, ◌⊎◌, ℕ, List, length, map, IfOk};
ghost use Rattle.fst_syntax.specs.Program.{Spells, FaultAt, Begins, IsProgram, IsRefused, AtLimit, Rising, place, first_place};
ghost use Rattle.fst_syntax.specs.Limits.{first_limit};
ghost use Rattle.std.specs.Prelude as o;
ghost use Rattle.std.specs.List.{All};
ghost use Rattle.fst_syntax.specs.Tokens.{token_of, HasText};
ghost use Rattle.fst_syntax.specs.Tokens as t;
ghost use Rattle.fst_trees.specs.declared.decl.Decl as d;
ghost use Rattle.fst_trees.specs.declared.word.Word as w;
ghost use Rattle.fst_base.specs.declared.rule.Rule as r;
ghost use Rattle.fst_base.specs.declared.place.Pos as p;

use crate::decls::program;
use crate::limits::first_limit;
use fst_base::{Fault, OutOfMemory, Pos, Rule, Seq};
use fst_syntax::{Lexeme, Limit, Stop};
use fst_term_reader::{Reader, lexemes};
use fst_trees::{RawDecl, RawProgram};
use std::alloc::Global;

/// The most bytes that a file has.
const LONGEST: usize = 1 << 20;

/// Why tokens are not read: the place of the fault, where it is not the end, or want of memory.
#[derive(Clone, Copy, Debug)]
enum Refusal {
    Syntax(Option<Pos>),
    NoMemory,
}

/// The declarations that the tokens spell, all of them.
fn read_tokens(alloc: Global, tokens: &[Lexeme<'_>]) -> Result<Seq<RawDecl>, Refusal>
    requires { All HasText tokens.now }
    ensures tree { IfOk result (λ decls. Spells decls (map token_of tokens.now)) }
    ensures only { (decls : List (d.Decl w.Word)) → Spells decls (map token_of tokens.now) → (result ≡ Ok decls) ⊎ (result ≡ Err Refusal.NoMemory) }
    ensures fault { (at : o.Option p.Pos) → result ≡ Err (Refusal.Syntax at) → (ks : List t.Token) × (FaultAt (map token_of tokens.now) ks × (at ≡ first_place ks)) }
{
    let mut reader = Reader::new(alloc, tokens);
    match program(&mut reader) {
        Ok(decls) => match reader.place() {
            None => Ok(decls),
            Some(at) => Err(Refusal::Syntax(Some(at))),
        },
        Err(Stop::Syntax) => Err(Refusal::Syntax(reader.place())),
        Err(Stop::NoMemory) => Err(Refusal::NoMemory),
    }
}

/// The answer where no limit is passed; the text ends at `end`.
fn unlimited(alloc: Global, tokens: &[Lexeme<'_>], end: u32) -> Result<RawProgram, Fault>
    requires { All HasText tokens.now }
    ensures tree { IfOk result (λ program. Spells program.decls (map token_of tokens.now)) }
    ensures only { (decls : List (d.Decl w.Word)) → Spells decls (map token_of tokens.now) → (result ≡ Ok (record { decls = decls })) ⊎ (result ≡ Err Fault.NoMemory) }
    ensures fault { (rule : r.Rule) (at : p.Pos) → result ≡ Err (Fault.Refused rule at) → (rule ≡ Rule.Syntax) × ((ks : List t.Token) × (FaultAt (map token_of tokens.now) ks × (at.at ≡ place end ks))) }
{
    match read_tokens(alloc, tokens) {
        Ok(decls) => Ok(RawProgram { decls }),
        Err(Refusal::Syntax(Some(at))) => Err(Fault::Refused(Rule::Syntax, at)),
        Err(Refusal::Syntax(None)) => Err(Fault::Refused(Rule::Syntax, Pos { at: end })),
        Err(Refusal::NoMemory) => Err(Fault::NoMemory),
    }
}

/// The place of the fault among these tokens, if they do not begin a program.
fn fault_among(alloc: Global, tokens: &[Lexeme<'_>]) -> Result<Option<Pos>, OutOfMemory>
    requires { All HasText tokens.now }
    ensures begun { result ≡ Ok None → Begins (map token_of tokens.now) }
    ensures fault { (at : p.Pos) → result ≡ Ok (Some at) → (ks : List t.Token) × (FaultAt (map token_of tokens.now) ks × (Some at ≡ first_place ks)) }
{
    match read_tokens(alloc, tokens) {
        Ok(_) => Ok(None),
        Err(Refusal::Syntax(place)) => Ok(place),
        Err(Refusal::NoMemory) => Err(OutOfMemory),
    }
}

/// The answer where a limit is passed, from the tokens up to it.
fn up_to(alloc: Global, tokens: &[Lexeme<'_>], limit: Limit) -> Fault
    requires utf8 { All HasText tokens.now }
    requires passed { first_limit (map token_of tokens.now) ≡ Some limit }
    requires within { limit.index < length tokens.now }
    ensures { (end : ℕ) → Rising 0 (map token_of tokens.now) end → AtLimit (map token_of tokens.now) end limit result }
{
    match fault_among(alloc, &tokens[..limit.index + 1]) {
        Ok(Some(at)) => {
            if at.at <= limit.at.at {
                Fault::Refused(Rule::Syntax, at)
            } else {
                Fault::Refused(limit.rule, limit.at)
            }
        }
        Ok(None) => Fault::Refused(limit.rule, limit.at),
        Err(OutOfMemory) => Fault::NoMemory,
    }
}

/// The program that the bytes are. Refused are, at the smallest place and there with the smaller number, what begins no
/// program, the 257th open bracket and the 2,049th token of a declaration, and a literal outside 128 bits; before all, with
/// place 0, more than 1,048,576 bytes.
pub fn read(alloc: Global, bytes: &[u8]) -> Result<RawProgram, Fault>
    ensures tree { IfOk result (λ program. IsProgram bytes.now program.decls) }
    ensures only { (decls : List (d.Decl w.Word)) → IsProgram bytes.now decls → (result ≡ Ok (record { decls = decls })) ⊎ (result ≡ Err Fault.NoMemory) }
    ensures refused { (rule : r.Rule) (at : p.Pos) → result ≡ Err (Fault.Refused rule at) → IsRefused bytes.now rule at }
    ensures too_long { 2 ^ 20 < length bytes.now → result ≡ Err (Fault.Refused Rule.TooLong (record { at = 0 })) }
{
    if bytes.len() > LONGEST {
        return Err(Fault::Refused(Rule::TooLong, Pos { at: 0 }));
    }
    let Ok(tokens) = lexemes(alloc, bytes) else {
        return Err(Fault::NoMemory);
    };
    match first_limit(&tokens) {
        Some(limit) => Err(up_to(alloc, &tokens, limit)),
        None => unlimited(alloc, &tokens, bytes.len() as u32),
    }
}
