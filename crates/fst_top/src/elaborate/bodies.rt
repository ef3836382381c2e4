ghost use Rattle.std.specs.Prelude.{◌≡◌, ◌∷◌, Some, IfOk, OnOk};
ghost use Rattle.fst_top.specs.Elaboration.{part_of, text_of, let_of, branch_of, given_some};
ghost use Rattle.fst_top.specs.Elaborating.{Gives, plain_typed, plain_typed_text, binding_var};
ghost use Rattle.fst_top.specs.Scopes.{vars_in};

use crate::elaborate::scope::Scope;
use crate::elaborate::stop::Stop;
use crate::elaborate::terms::elaborate_term;
use crate::elaborate::typed::{Binding, BuiltSort, TypedTerm, TypedText};
use fst_base::{both, boxes, refuse};
use fst_program::Comp;
use fst_reader::{BodyTree, PartNode, PartTree, Word};
use std::alloc::Global;

/// The `let` of a term before a text.
fn let_text(
    alloc: Global,
    word: &Word,
    bound: TypedTerm,
    rest: TypedText,
) -> Result<TypedText, Stop>
    ensures { Gives plain_typed_text (let_of word.now (plain_typed bound) (plain_typed_text rest)) result }
{
    let (bound, text) = boxes(alloc, Comp::Ret(bound.term), rest.text)?;
    let name = word.text.copy(alloc)?;
    Ok(TypedText {
        text: Comp::Let(name, bound, text),
        sort: rest.sort,
    })
}

/// The `if` of a term of sort bool and two texts of one sort.
fn branch(
    alloc: Global,
    test: TypedTerm,
    left: TypedText,
    right: TypedText,
) -> Result<TypedText, Stop>
    ensures { Gives plain_typed_text (branch_of (plain_typed test) (plain_typed_text left) (plain_typed_text right)) result }
{
    let sort = left.sort;
    if test.sort != BuiltSort::Bool || sort != right.sort {
        return refuse((test, (left, right)), Stop::NotBuilt);
    }
    let (test, (left, right)) = both(test, boxes(alloc, left.text, right.text))?;
    Ok(TypedText {
        text: Comp::If(test.term, left, right),
        sort,
    })
}

/// The term that a part is, in a scope.
#[tactic(auto, using(crate::proofs::BodyLemmas::parts))]
fn elaborate_part(
    alloc: Global,
    part: &PartTree<Word>,
    scope: &Scope<'_>,
) -> Result<TypedTerm, Stop>
    ensures { Gives plain_typed (part_of part.now (vars_in scope.now)) result }
{
    match &part.node {
        PartNode::Block(_) => Err(Stop::NotBuilt),
        PartNode::Call(_, _) => Err(Stop::NotBuilt),
        PartNode::Reify(_, _, _, _) => Err(Stop::NotBuilt),
        PartNode::Reflect(_, _, _, _) => Err(Stop::NotBuilt),
        PartNode::Term(form) => elaborate_term(alloc, form, scope),
    }
}

/// The text that a body is, in a scope.
#[cycle(body)]
#[tactic(auto, using(crate::proofs::BodyLemmas::bodies))]
pub fn elaborate_body<'a>(
    alloc: Global,
    tree: &'a BodyTree<Word>,
    scope: &mut Scope<'a>,
) -> Result<TypedText, Stop>
    ensures text { Gives plain_typed_text (text_of tree.now (vars_in scope.old)) result }
    ensures scope { OnOk result (vars_in scope.new ≡ vars_in scope.old) }
{
    match tree {
        BodyTree::Let(_, Some(_), _, _) => Err(Stop::NotBuilt),
        BodyTree::Let(word, None, part, rest) => {
            let bound = elaborate_part(alloc, part, scope)?;
            let binding = Binding {
                name: &word.text,
                sort: bound.sort,
            };
            let (bound, rest) = both(bound, elaborate_under(alloc, rest.get(), binding, scope))?;
            let_text(alloc, word, bound, rest)
        }
        BodyTree::GhostLet(_, _, _, _) => Err(Stop::NotBuilt),
        BodyTree::Assert(_, _, _) => Err(Stop::NotBuilt),
        BodyTree::If(test, left, right) => {
            let test = elaborate_term(alloc, test, scope)?;
            let (test, left) = both(test, elaborate_body(alloc, left.get(), scope))?;
            let ((test, left), right) = both(
                (test, left),
                elaborate_body(alloc, right.get(), scope),
            )?;
            branch(alloc, test, left, right)
        }
        BodyTree::Match(_, _, _) => Err(Stop::NotBuilt),
        BodyTree::Part(part) => {
            let bound = elaborate_part(alloc, part, scope)?;
            Ok(TypedText {
                text: Comp::Ret(bound.term),
                sort: bound.sort,
            })
        }
    }
}

/// The text that a body is, with one variable more in scope.
#[cycle(body)]
fn elaborate_under<'a>(
    alloc: Global,
    tree: &'a BodyTree<Word>,
    binding: Binding<'a>,
    scope: &mut Scope<'a>,
) -> Result<TypedText, Stop>
    ensures text { Gives plain_typed_text (text_of tree.now (binding_var binding.entry ∷ vars_in scope.old)) result }
    ensures scope { OnOk result (vars_in scope.new ≡ vars_in scope.old) }
{
    scope.push(binding)?;
    let text = elaborate_body(alloc, tree, scope);
    scope.pop();
    text
}
