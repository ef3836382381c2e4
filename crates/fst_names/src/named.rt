use crate::reference::Ref;
use fst_base::Seq;
use fst_trees::Decl;

pub type NamedDecl = Decl<Ref>;

/// A program with what its names stand for.
#[derive(Drop)]
pub struct Named {
    pub decls: Seq<NamedDecl>,
}
