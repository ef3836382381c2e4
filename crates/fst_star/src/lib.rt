//! Transformers of programs: their meaning, the translation of definition text, what is inferred for a function, and their goals.
#![tactic(auto)]

mod bodies;
mod branching;
mod calling;
mod deciding;
mod dividing;
mod function_goals;
mod gathering;
mod inference;
mod inferring;
mod laws;
mod making;
mod plugging;
mod putting;
mod raising;
mod selecting;
mod spots;
mod standing;
mod starting;
mod trail;
mod translating;
mod wp;

pub use bodies::Bodies;
pub use dividing::term_needs;
pub use function_goals::goals;
pub use gathering::{Event, gather};
pub use inference::infer;
pub use laws::{
    each_law, goals_law, paths_law, safe_law, size_law, star_law, texts_law, valid_law,
};
pub use putting::put;
pub use raising::{raise, raise_wp};
pub use standing::Place;
pub use trail::Trail;
pub use translating::star;
pub use wp::{Way, Which, Wp};
