ghost use Rattle.std.specs.Prelude.{◌≡◌, ◌||◌, [], map, option_map, IfOk, OnOk};
ghost use Rattle.fst_terms.specs.Terms.{plain_term};
ghost use Rattle.fst_program.specs.Plain.{plain_param};
ghost use Rattle.fst_top.specs.Built.{var_of};
ghost use Rattle.fst_top.specs.Elaboration.{clause_of, is_blank, is_named, param_of, sort_of_tree};
ghost use Rattle.fst_top.specs.Elaborating.{Gives, binding_var, srt_of};
ghost use Rattle.fst_top.specs.Functions.{first_plain_param};
ghost use Rattle.fst_top.specs.Scopes.{vars_in};

use crate::elaborate::scope::Scope;
use crate::elaborate::stop::Stop;
use crate::elaborate::terms::elaborate_term;
use crate::elaborate::typed::{Binding, BuiltSort};
use fst_base::{Name, refuse};
use fst_program::Param;
use fst_reader::{ParamTree, RawTerm, SortTree, Word};
use fst_terms::Term;
use std::alloc::Global;

/// The sort that a tree is, where it is built.
#[tactic(auto, using(crate::proofs::HeadLemmas::sorts))]
pub fn elaborate_sort(tree: &SortTree<Word>) -> Option<BuiltSort>
    ensures { option_map srt_of result ≡ sort_of_tree tree.now }
{
    match tree {
        SortTree::Unit => Some(BuiltSort::Unit),
        SortTree::Bool => Some(BuiltSort::Bool),
        SortTree::Int => None,
        SortTree::Pair(_, _) => None,
        SortTree::Opt(_) => None,
        SortTree::List(_) => None,
        SortTree::Either(_, _) => None,
        SortTree::Ident(_) => None,
    }
}

/// A parameter without refinement, and not a ghost one; and the same as a variable.
pub fn elaborate_param<'a>(
    alloc: Global,
    tree: &'a ParamTree<Word>,
) -> Result<(Param, Binding<'a>), Stop>
    ensures param { Gives first_plain_param (param_of tree.now) result }
    ensures binding { IfOk result (λ pair. binding_var pair.1 ≡ var_of (plain_param pair.0)) }
{
    let Some(sort) = elaborate_sort(&tree.sort) else {
        return Err(Stop::NotBuilt);
    };
    if tree.hidden || tree.refine.is_some() {
        return Err(Stop::NotBuilt);
    }
    let param = Param {
        name: tree.name.text.copy(alloc)?,
        sort: sort.sort(),
        hidden: false,
        refine: None,
    };
    let name = &tree.name.text;
    Ok((param, Binding { name, sort }))
}

/// Whether a parameter has the name.
pub fn is_taken(params: &[Param], name: &Name) -> bool
    ensures { result ≡ is_named name.now (map (λ p. p.name) params.now) }
{
    for param in params {
        if name.same(&param.name) {
            return true;
        }
    }
    false
}

/// A clause, where one stands: a formula.
pub fn elaborate_clause(
    alloc: Global,
    clause: &Option<RawTerm>,
    scope: &Scope<'_>,
) -> Result<Option<Term>, Stop>
    ensures { Gives (option_map plain_term) (clause_of clause.now (vars_in scope.now)) result }
{
    match clause {
        None => Ok(None),
        Some(form) => {
            let formula = elaborate_term(alloc, form, scope)?;
            if formula.sort != BuiltSort::Bool {
                return refuse(formula, Stop::NotBuilt);
            }
            Ok(Some(formula.term))
        }
    }
}
