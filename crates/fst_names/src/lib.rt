//! The rules on names.
#![tactic(auto)]

mod before;
mod broken;
mod check_definitions;
mod check_effects;
mod check_forms;
mod check_functions;
mod check_programs;
mod check_sorts;
mod check_texts;
mod globals;
mod name_definitions;
mod name_effects;
mod name_forms;
mod name_heads;
mod name_programs;
mod name_sorts;
mod name_texts;
mod named;
mod numbers;
mod reference;
mod references;
mod scope;
mod tables;
mod words;

pub use before::Before;
pub use broken::{Broken, inner, least, unless};
pub use check_definitions::check_dm;
pub use check_forms::check_form;
pub use check_programs::check_program;
pub use check_sorts::check_sort;
pub use check_texts::check_body;
pub use globals::{Globals, Head};
pub use name_definitions::name_dm;
pub use name_effects::{name_effect, name_lift};
pub use name_forms::name_form;
pub use name_programs::resolve;
pub use name_sorts::name_sort;
pub use name_texts::name_body;
pub use named::{Named, NamedDecl};
pub use reference::{Ref, RefKind};
pub use scope::Scope;
pub use tables::{Called, Tables};
pub use words::check_words;
