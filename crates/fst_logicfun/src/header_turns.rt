//! The turns of what goes through a definition's text.

ghost use Rattle.std.specs.Prelude.{◌≡◌, ◌∷◌, List, [], map, option_map, IfOk, Some, None};
ghost use Rattle.std.specs.Option.{option_copied};
ghost use Rattle.fst_base.specs.Sorts.{Srt, plain_sort};
ghost use Rattle.fst_logicfun.specs.Ends.{End, ends};
ghost use Rattle.fst_scopes.specs.Scopes.{terms_for, sorts_in};
ghost use Rattle.fst_logicfun.specs.Turns.{Heads, ends_at, header_ends, next_ends, next_sort, rest_ends, text_ends, turns_at, value_sort};
ghost use Rattle.fst_program.specs.Plain.{plain_comp, plain_dm, plain_program};
ghost use Rattle.fst_program.specs.Texts.{Prog, bind_text, c_bind, c_lift, c_return, d_ret, if_there, lift_text, return_text};
ghost use Rattle.fst_terms.specs.Formulas.{sort_of};
ghost use Rattle.fst_terms.specs.Terms.{Tm, plain_term, t_unit};

use crate::copying::copy_terms;
use crate::ways::{At, Header, Next, Rest, Text, Turn, Turned};
use fst_base::{Box, OutOfMemory, Seq, Sort, boxed, one};
use fst_program::{Comp, DmTerm};
use fst_scopes::{bind_text, lift_text, return_text, sorts_of, text_sort, with_sort};
use fst_terms::Term;
use std::alloc::Global;

/// A definition's text with its header; where there is none, its only end is of the unit value.
fn definition<'a>(text: Option<&'a DmTerm>, header: Header<'a>) -> Text<'a>
    ensures { (P : Prog) (Ss : List Srt) (us hs : List Tm) → text_ends P Ss result us hs ≡ header_ends P Ss header.entry (if_there (option_map plain_dm (option_copied text.entry)) (λ d. d) (d_ret t_unit)) us hs }
{
    match text {
        Some(text) => Text::Definition(text, header),
        None => Text::Nothing,
    }
}

/// The sort of the value of a text.
fn value_sort(alloc: Global, text: &Comp, at: &At) -> Result<Box<Sort>, OutOfMemory>
    ensures { IfOk result (λ sort. plain_sort sort ≡ value_sort (plain_comp text.now) at.now) }
{
    let sorts = sorts_of(alloc, at.scope, at.sorts)?;
    text_sort(alloc, text, at.program, sorts.as_slice())
}

/// The sort of the value of a text under a variable more, of this sort.
fn next_sort(alloc: Global, first: &Sort, text: &Comp, at: &At) -> Result<Box<Sort>, OutOfMemory>
    ensures { IfOk result (λ sort. plain_sort sort ≡ next_sort (plain_sort first.now) (plain_comp text.now) at.now) }
{
    let outer = sorts_of(alloc, at.scope, at.sorts)?;
    let sorts = with_sort(alloc, outer.as_slice(), first)?;
    text_sort(alloc, text, at.program, sorts.as_slice())
}

/// The sort of the value of a text, for both sort variables.
fn both_sorts(alloc: Global, text: &Comp, at: &At) -> Result<(Box<Sort>, Box<Sort>), OutOfMemory>
    ensures { IfOk result (λ sorts. (plain_sort sorts.0 ≡ value_sort (plain_comp text.now) at.now) × (plain_sort sorts.1 ≡ value_sort (plain_comp text.now) at.now)) }
{
    let first = value_sort(alloc, text, at)?;
    let second = boxed(alloc, first.get().copy(alloc))?;
    Ok((first, second))
}

/// Definition text on the input, by its header.
fn through<'a>(
    alloc: Global,
    text: Option<&'a DmTerm>,
    header: Header<'a>,
    at: &At<'a>,
) -> Turned<'a>
    ensures { IfOk result (λ made. turns_at at.now made ≡ header_ends (plain_program at.now.program.now) (sorts_in at.now.sorts.now) header.entry (if_there (option_map plain_dm (option_copied text.entry)) (λ d. d) (d_ret t_unit)) (plain_term at.now.input.now ∷ []) (terms_for at.now.hyps.now)) }
{
    let scope = one(alloc, at.input.copy(alloc)?)?;
    let hyps = copy_terms(alloc, at.hyps)?;
    let text = definition(text, header);
    Ok(Turn::Ways(one(alloc, Next { text, scope, hyps })?))
}

/// The header of a bind, whose runs are of its two parts.
fn bind_header<'a>(
    alloc: Global,
    bound: &'a Comp,
    rest: &'a Comp,
    at: &At,
) -> Result<Header<'a>, OutOfMemory>
    ensures { IfOk result (λ header. Heads header (Some (plain_comp bound.now)) (Some (plain_comp rest.now)) (terms_for at.now.scope.now) (value_sort (plain_comp bound.now) at.now) (next_sort (value_sort (plain_comp bound.now) at.now) (plain_comp rest.now) at.now)) }
{
    let scope = copy_terms(alloc, at.scope)?;
    let a = value_sort(alloc, bound, at)?;
    let b = next_sort(alloc, a.get(), rest, at)?;
    Ok(Header {
        first: Some(bound),
        second: Some(rest),
        scope,
        a,
        b,
    })
}

/// The header of a lift, which runs its part.
fn lift_header<'a>(alloc: Global, part: &'a Comp, at: &At) -> Result<Header<'a>, OutOfMemory>
    ensures { IfOk result (λ header. Heads header (Some (plain_comp part.now)) None (terms_for at.now.scope.now) (value_sort (plain_comp part.now) at.now) (value_sort (plain_comp part.now) at.now)) }
{
    let scope = copy_terms(alloc, at.scope)?;
    let (a, b) = both_sorts(alloc, part, at)?;
    Ok(Header {
        first: Some(part),
        second: None,
        scope,
        a,
        b,
    })
}

/// The header of a return, which runs nothing.
fn return_header<'a>(alloc: Global, part: &Comp, at: &At) -> Result<Header<'a>, OutOfMemory>
    ensures { IfOk result (λ header. Heads header None None [] (value_sort (plain_comp part.now) at.now) (value_sort (plain_comp part.now) at.now)) }
{
    let (a, b) = both_sorts(alloc, part, at)?;
    Ok(Header {
        first: None,
        second: None,
        scope: Seq::new(alloc),
        a,
        b,
    })
}

/// A bind goes through the definition's text, whose runs are of its two parts.
pub fn bind_turn<'a>(
    alloc: Global,
    effect: u32,
    bound: &'a Comp,
    rest: &'a Comp,
    at: &At<'a>,
) -> Turned<'a>
    ensures { IfOk result (λ made. turns_at at.now made ≡ ends_at (c_bind effect [] (plain_comp bound.now) (plain_comp rest.now)) at.now) }
{
    let header = bind_header(alloc, bound, rest, at)?;
    through(alloc, bind_text(at.program, effect), header, at)
}

/// A lift goes through the definition's text, which runs its part.
pub fn lift_turn<'a>(alloc: Global, lift: u32, part: &'a Comp, at: &At<'a>) -> Turned<'a>
    ensures { IfOk result (λ made. turns_at at.now made ≡ ends_at (c_lift lift (plain_comp part.now)) at.now) }
{
    let header = lift_header(alloc, part, at)?;
    through(alloc, lift_text(at.program, lift), header, at)
}

/// The part of a return, on its way.
fn part_next<'a>(alloc: Global, part: &'a Comp, at: &At<'a>) -> Result<Next<'a>, OutOfMemory>
    ensures { IfOk result (λ made. next_ends (plain_program at.now.program.now) (sorts_in at.now.sorts.now) made ≡ ends (plain_program at.now.program.now) (sorts_in at.now.sorts.now) (plain_comp part.now) (terms_for at.now.scope.now) t_unit (terms_for at.now.hyps.now)) }
{
    let input = Box::new(alloc, Term::Unit)?;
    let scope = copy_terms(alloc, at.scope)?;
    let hyps = copy_terms(alloc, at.hyps)?;
    let text = Text::Core(part, input);
    Ok(Next { text, scope, hyps })
}

/// Definition text from each end of a part, on its result and the input, by its header.
fn after_part<'a>(
    alloc: Global,
    text: Option<&'a DmTerm>,
    header: Header<'a>,
    at: &At,
) -> Result<Rest<'a>, OutOfMemory>
    ensures { IfOk result (λ rest. (e : End) → rest_ends (plain_program at.now.program.now) (sorts_in at.now.sorts.now) rest e ≡ header_ends (plain_program at.now.program.now) (sorts_in at.now.sorts.now) header.entry (if_there (option_map plain_dm (option_copied text.entry)) (λ d. d) (d_ret t_unit)) (plain_term at.now.input.now ∷ e.result ∷ []) e.hyps) }
{
    let above = one(alloc, at.input.copy(alloc)?)?;
    Ok(Rest {
        text: definition(text, header),
        below: Seq::new(alloc),
        above,
    })
}

/// The definition's text of a return follows the part, on its value and the input.
pub fn return_turn<'a>(alloc: Global, effect: u32, part: &'a Comp, at: &At<'a>) -> Turned<'a>
    ensures { IfOk result (λ made. turns_at at.now made ≡ ends_at (c_return effect (plain_comp part.now)) at.now) }
{
    let header = return_header(alloc, part, at)?;
    let rest = after_part(alloc, return_text(at.program, effect), header, at)?;
    let first = part_next(alloc, part, at)?;
    Ok(Turn::Then(first, rest))
}
