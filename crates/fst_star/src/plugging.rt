//! The text of a bind, a return or a lift, translated with transformers for its header's computations.
ghost use Rattle.std.specs.Prelude.{◌≡◌, ◌∷◌, [], List, map, option_map, Ok, IfOk};
ghost use Rattle.std.specs.Option.{option_copied};
ghost use Rattle.fst_base.specs.declared.sort.Sort.{Sort};
ghost use Rattle.fst_base.specs.Sorts.{plain_sort, s_unit};
ghost use Rattle.fst_program.specs.Paths.{dm_at, text_sort};
ghost use Rattle.fst_program.specs.Plain.{plain_comp, plain_dm, plain_program};
ghost use Rattle.fst_program.specs.Texts.{d_ret, if_there};
ghost use Rattle.fst_scopes.specs.Scopes.{sorts_in, terms_for};
ghost use Rattle.fst_star.specs.Inference.{input_of};
ghost use Rattle.fst_star.specs.Inferring.{bind_in, lift_from, lift_in, nothing, return_in, scope_at, value_sort};
ghost use Rattle.fst_star.specs.Plain.{plain_wp};
ghost use Rattle.fst_star.specs.Transformers.{w_post};
ghost use Rattle.fst_star.specs.Translation.{star};
ghost use Rattle.fst_star.specs.declared.wp.Wp.{Wp};
ghost use Rattle.fst_terms.specs.Formulas.{sort_of};
ghost use Rattle.fst_terms.specs.Terms.{Tm, plain_term, shift, t_unit, t_var};

use crate::bodies::Bodies;
use crate::making::{Node, post, ways};
use crate::putting::with_last;
use crate::raising::raise;
use crate::spots::Spot;
use crate::standing::Place;
use crate::translating::star;
use fst_base::{Box, OutOfMemory, Seq, Sort, boxed, one, pair};
use fst_program::{Comp, DmTerm, Program};
use fst_scopes::{
    bind_text, copy_sorts, definition_at, effect_at, lift_text, result_at, return_text, sorts_of,
    text_sort, with_sort,
};
use fst_terms::Term;
use std::alloc::Global;

/// A sort on the heap, or want of memory.
pub type Sorted = Result<Box<Sort>, OutOfMemory>;

/// The unit sort.
#[tactic(auto, using(fst_scopes::proofs::PlainForms::plain_variants))]
pub fn unit_sort(alloc: Global) -> Sorted
    ensures { IfOk result (λ sort. plain_sort sort ≡ s_unit) }
{
    Box::new(alloc, Sort::Unit)
}

/// The sort of the inputs of an effect.
pub fn input_of(alloc: Global, program: &Program, effect: u32) -> Sorted
    ensures { IfOk result (λ sort. plain_sort sort ≡ input_of (plain_program program.now) effect) }
{
    match effect_at(program, effect) {
        Some(definition) => boxed(alloc, definition.input.copy(alloc)),
        None => unit_sort(alloc),
    }
}

/// The effect that a lift leads from.
pub fn lift_from(program: &Program, lift: u32) -> u32
    ensures { result ≡ lift_from (plain_program program.now) lift }
{
    match program.lifts.get(lift as usize) {
        Some(lift) => lift.from,
        None => 0,
    }
}

/// The sort of the value of a text at a spot.
pub fn value_sort(alloc: Global, program: &Program, text: &Comp, spot: &Spot) -> Sorted
    ensures { IfOk result (λ sort. plain_sort sort ≡ value_sort (plain_program program.now) (sorts_in spot.now.sorts) (terms_for spot.now.terms) (plain_comp text.now)) }
{
    let sorts = sorts_of(alloc, spot.terms.as_slice(), spot.sorts.as_slice())?;
    text_sort(alloc, text, program, sorts.as_slice())
}

/// The same under a variable more, of this sort.
fn next_sort(alloc: Global, program: &Program, first: &Sort, text: &Comp, spot: &Spot) -> Sorted
    ensures { IfOk result (λ sort. plain_sort sort ≡ text_sort (plain_program program.now) (plain_sort first.now ∷ map (sort_of (sorts_in spot.now.sorts)) (terms_for spot.now.terms)) (plain_comp text.now)) }
{
    let outer = sorts_of(alloc, spot.terms.as_slice(), spot.sorts.as_slice())?;
    let sorts = with_sort(alloc, outer.as_slice(), first)?;
    text_sort(alloc, text, program, sorts.as_slice())
}

/// The sorts of the values of a bind's two parts at a spot.
pub fn bind_sorts(
    alloc: Global,
    program: &Program,
    part: &Comp,
    rest: &Comp,
    spot: &Spot,
) -> Result<(Box<Sort>, Box<Sort>), OutOfMemory>
    ensures first { IfOk result (λ made. plain_sort made.0 ≡ value_sort (plain_program program.now) (sorts_in spot.now.sorts) (terms_for spot.now.terms) (plain_comp part.now)) }
    ensures second { IfOk result (λ made. plain_sort made.1 ≡ text_sort (plain_program program.now) (plain_sort made.0 ∷ map (sort_of (sorts_in spot.now.sorts)) (terms_for spot.now.terms)) (plain_comp rest.now)) }
{
    let first = value_sort(alloc, program, part, spot)?;
    let second = next_sort(alloc, program, first.get(), rest, spot)?;
    Ok((first, second))
}

/// The transformer without a result.
pub fn nothing(alloc: Global) -> Node
    ensures { IfOk result (λ made. plain_wp made ≡ nothing) }
{
    ways(alloc, Seq::new(alloc))
}

/// The computations of a header.
pub fn bodies(
    first_sort: Sorted,
    second_sort: Sorted,
    first: Node,
    second: Node,
) -> Result<Bodies, OutOfMemory>
    ensures { IfOk result (λ made. (A : Sort) × ((B : Sort) × ((v : Wp) × ((w : Wp) × ((first_sort ≡ Ok A) × (second_sort ≡ Ok B) × (first ≡ Ok v) × (second ≡ Ok w) × (made.first_sort ≡ A) × (made.second_sort ≡ B) × (made.first ≡ v) × (made.second ≡ w)))))) }
{
    let ((a, b), (first, second)) = pair(pair(first_sort, second_sort), pair(first, second))?;
    let first_sort = a.into_inner();
    let second_sort = b.into_inner();
    Ok(Bodies {
        first_sort,
        second_sort,
        first,
        second,
    })
}

/// Where the text of a bind or a lift stands: at the spot, with the input for its only variable.
pub fn place_on(alloc: Global, spot: &Spot) -> Result<Place, OutOfMemory>
    ensures sorts { IfOk result (λ made. made.sorts ≡ spot.now.sorts) }
    ensures terms { IfOk result (λ made. terms_for made.terms ≡ plain_term spot.now.input ∷ []) }
    ensures depth { IfOk result (λ made. made.depth ≡ 0) }
{
    let terms = one(alloc, spot.input.get().copy(alloc)?);
    let (sorts, terms) = pair(copy_sorts(alloc, spot.sorts.as_slice()), terms)?;
    Ok(Place {
        sorts,
        terms,
        depth: 0,
    })
}

/// The last variable, and this term for one after it.
#[tactic(auto, using(fst_terms::proofs::PlainLemmas::plain_variants))]
fn before_last(alloc: Global, term: Term) -> Result<Seq<Term>, OutOfMemory>
    ensures { IfOk result (λ made. terms_for made ≡ plain_term term ∷ t_var 0 ∷ []) }
{
    with_last(one(alloc, Term::Var(0))?, term)
}

/// Where the text of a return stands: under a value of this sort, with the value and then the input for its variables.
pub fn place_after(alloc: Global, spot: &Spot, sort: &Sort) -> Result<Place, OutOfMemory>
    ensures sorts { IfOk result (λ made. sorts_in made.sorts ≡ plain_sort sort.now ∷ sorts_in spot.now.sorts) }
    ensures terms { IfOk result (λ made. terms_for made.terms ≡ shift 0 1 (plain_term spot.now.input) ∷ t_var 0 ∷ []) }
    ensures depth { IfOk result (λ made. made.depth ≡ 0) }
{
    let terms = before_last(alloc, raise(alloc, spot.input.get(), 0, 1)?);
    let (sorts, terms) = pair(with_sort(alloc, spot.sorts.as_slice(), sort), terms)?;
    Ok(Place {
        sorts,
        terms,
        depth: 0,
    })
}

/// The unit value as the result.
#[tactic(auto, using(fst_terms::proofs::PlainLemmas::plain_variants))]
fn unit_post(alloc: Global) -> Node
    ensures { IfOk result (λ made. plain_wp made ≡ w_post t_unit) }
{
    post(alloc, Term::Unit)
}

/// The text, with a and b in place of its sort variables, translated at this place; where there is no text, the unit value.
pub fn translated(
    alloc: Global,
    text: Option<&DmTerm>,
    a: &Sort,
    b: &Sort,
    bodies: &Bodies,
    place: &Place,
) -> Node
    ensures { IfOk result (λ made. (olds : List Tm) → plain_wp made ≡ star (plain_sort bodies.now.first_sort) (plain_sort bodies.now.second_sort) (plain_wp bodies.now.first) (plain_wp bodies.now.second) (record { sorts = sorts_in place.now.sorts; olds = olds }) (terms_for place.now.terms) place.now.depth (dm_at (plain_sort a.now) (plain_sort b.now) (if_there (option_map plain_dm (option_copied text.entry)) (λ d. d) (d_ret t_unit)))) }
{
    match text {
        Some(text) => {
            let text = boxed(alloc, definition_at(alloc, text, a, b))?;
            star(alloc, text.get(), bodies, place)
        }
        None => unit_post(alloc),
    }
}

/// The text of an effect's bind at this spot, at these value sorts of its parts, whose transformers these are.
pub fn bind_wp(
    alloc: Global,
    program: &Program,
    effect: u32,
    a: &Sort,
    b: &Sort,
    first: Node,
    second: Node,
    spot: &Spot,
) -> Node
    ensures { IfOk result (λ made. (v : Wp) × ((w : Wp) × ((first ≡ Ok v) × (second ≡ Ok w) × (plain_wp made ≡ bind_in (plain_program program.now) effect (plain_sort a.now) (plain_sort b.now) (plain_wp v) (plain_wp w) (scope_at spot.now) (plain_term spot.now.input))))) }
{
    let first_sort = result_at(alloc, program, effect, a);
    let second_sort = result_at(alloc, program, effect, b);
    let runs = bodies(first_sort, second_sort, first, second)?;
    let place = place_on(alloc, spot)?;
    translated(alloc, bind_text(program, effect), a, b, &runs, &place)
}

/// The text of a lift from this effect at this spot, at the value sort of its part, whose transformer this is.
pub fn lift_wp(
    alloc: Global,
    program: &Program,
    lift: u32,
    from: u32,
    a: &Sort,
    part: Node,
    spot: &Spot,
) -> Node
    ensures { IfOk result (λ made. (v : Wp) × ((part ≡ Ok v) × (plain_wp made ≡ lift_in (plain_program program.now) lift from (plain_sort a.now) (plain_wp v) (scope_at spot.now) (plain_term spot.now.input)))) }
{
    let first_sort = result_at(alloc, program, from, a);
    let runs = bodies(first_sort, unit_sort(alloc), part, nothing(alloc))?;
    let place = place_on(alloc, spot)?;
    translated(alloc, lift_text(program, lift), a, a, &runs, &place)
}

/// The text of an effect's return at this spot, under a value of this sort.
pub fn return_wp(alloc: Global, program: &Program, effect: u32, a: &Sort, spot: &Spot) -> Node
    ensures { IfOk result (λ made. plain_wp made ≡ return_in (plain_program program.now) effect (plain_sort a.now) (scope_at spot.now) (plain_term spot.now.input)) }
{
    let runs = bodies(
        unit_sort(alloc),
        unit_sort(alloc),
        nothing(alloc),
        nothing(alloc),
    )?;
    let place = place_after(alloc, spot, a)?;
    translated(alloc, return_text(program, effect), a, a, &runs, &place)
}
