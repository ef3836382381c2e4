//! From bytes to the tree that the grammar gives, or the one refusal that is due.
#![tactic(auto)]

mod bodies;
mod decls;
mod definitions;
mod heads;
mod laws;
mod limits;
mod parts;
mod texts;
mod whole;

pub use fst_trees::{
    ArmTree, BodyTree, ConWord, Decl, DmTree, EffectName, EffectTree, Form, FormNode, FunTree,
    HeadTree, LiftTree, ParamTree, PartNode, PartTree, RawDecl, RawProgram, RawTerm, SortTree,
    Word,
};
pub use laws::a_text_has_one_reading;
pub use whole::read;
