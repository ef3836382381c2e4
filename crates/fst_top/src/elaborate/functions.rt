ghost use Rattle.std.specs.Prelude.{◌≡◌, [], ◌∷◌, map, option_map, IfOk};
ghost use Rattle.fst_terms.specs.Terms.{plain_term};
ghost use Rattle.fst_program.specs.Plain.{plain_fun, plain_param};
ghost use Rattle.fst_top.specs.Built.{var_of};
ghost use Rattle.fst_top.specs.Elaboration.{clause_of, fun_of_tree, is_blank, params_of_trees, result_name, scope_of};
ghost use Rattle.fst_top.specs.Elaborating.{Gives, binding_var, srt_of};
ghost use Rattle.fst_top.specs.Functions.{first_plain_param, has_built_head, next_param, parts_of, plain_params, plain_parts, result_var};
ghost use Rattle.fst_top.specs.Scopes.{vars_in};

use crate::elaborate::bodies::elaborate_body;
use crate::elaborate::heads::{elaborate_clause, elaborate_param, elaborate_sort, is_taken};
use crate::elaborate::scope::Scope;
use crate::elaborate::stop::Stop;
use crate::elaborate::typed::{Binding, BuiltSort};
use fst_base::{Name, Seq, both, refuse};
use fst_program::{Comp, Effect, Fun, Param};
use fst_reader::{EffectName, FunTree, ParamTree, Word};
use fst_terms::Term;
use std::alloc::Global;

/// The clauses of a function and its text.
#[derive(Drop)]
pub struct Parts {
    pub needs: Option<Term>,
    pub gives: Option<Term>,
    pub text: Comp,
}

/// Whether the name binds nothing.
fn is_blank(name: &Name) -> bool
    ensures { result ≡ is_blank name.now }
{
    name.text() == "_"
}

/// A parameter after these, and the same as a variable; its name is none of theirs, or binds nothing.
fn next_param<'a>(
    alloc: Global,
    params: &[Param],
    tree: &'a ParamTree<Word>,
) -> Result<(Param, Binding<'a>), Stop>
    ensures param { Gives first_plain_param (next_param (map (λ p. p.name) params.now) tree.now) result }
    ensures binding { IfOk result (λ pair. binding_var pair.1 ≡ var_of (plain_param pair.0)) }
{
    let (param, binding) = elaborate_param(alloc, tree)?;
    if !is_blank(&param.name) && is_taken(params, &param.name) {
        return refuse(param, Stop::NotBuilt);
    }
    Ok((param, binding))
}

/// The parameters, and the same as variables in scope.
fn elaborate_params<'a>(
    alloc: Global,
    trees: &'a [ParamTree<Word>],
) -> Result<(Seq<Param>, Scope<'a>), Stop>
    ensures params { Gives plain_params (params_of_trees [] trees.now) result }
    ensures scope { IfOk result (λ pair. vars_in pair.1 ≡ scope_of (map plain_param pair.0)) }
{
    let mut params = Seq::new(alloc);
    let mut scope = Scope::new(alloc);
    for tree in trees {
        let (param, binding) = next_param(alloc, params.as_slice(), tree)?;
        params.push(param)?;
        scope.push(binding)?;
    }
    Ok((params, scope))
}

/// Ensures, where it stands: a formula over the parameters and the result.
fn elaborate_gives<'a>(
    alloc: Global,
    tree: &FunTree<Word>,
    sort: BuiltSort,
    result_word: &'a Name,
    scope: &mut Scope<'a>,
) -> Result<Option<Term>, Stop>
    requires { result_word.now ≡ result_name }
    ensures { Gives (option_map plain_term) (clause_of tree.now.head.gives (result_var (srt_of sort) ∷ vars_in scope.old)) result }
{
    scope.push(Binding {
        name: result_word,
        sort,
    })?;
    let clause = elaborate_clause(alloc, &tree.head.gives, scope)?;
    Ok(clause)
}

/// The clauses and the text of a function, where these are its parameters.
fn elaborate_parts<'a>(
    alloc: Global,
    tree: &'a FunTree<Word>,
    sort: BuiltSort,
    result_word: &'a Name,
    scope: &mut Scope<'a>,
) -> Result<Parts, Stop>
    requires { result_word.now ≡ result_name }
    ensures { Gives plain_parts (parts_of tree.now (srt_of sort) (vars_in scope.old)) result }
{
    let needs = elaborate_clause(alloc, &tree.head.needs, scope)?;
    let (needs, body) = both(needs, elaborate_body(alloc, &tree.body, scope))?;
    if body.sort != sort {
        return refuse((needs, body), Stop::NotBuilt);
    }
    let ((needs, body), gives) = both(
        (needs, body),
        elaborate_gives(alloc, tree, sort, result_word, scope),
    )?;
    Ok(Parts {
        needs,
        gives,
        text: body.text,
    })
}

/// Whether the function is PURE, without decreases and of unfold depth 1, and begins a group of its own.
fn has_built_head(tree: &FunTree<Word>) -> bool
    ensures { result ≡ has_built_head tree.now }
{
    matches!(tree.head.effect, EffectName::Pure)
        && tree.head.measures.is_empty()
        && tree.head.unfold == 1
        && !tree.joined
}

/// The function of this number.
pub fn elaborate_fun<'a>(
    alloc: Global,
    tree: &'a FunTree<Word>,
    result_word: &'a Name,
    number: u32,
) -> Result<Fun, Stop>
    requires { result_word.now ≡ result_name }
    ensures { Gives plain_fun (fun_of_tree number tree.now) result }
{
    if !has_built_head(tree) {
        return Err(Stop::NotBuilt);
    }
    let Some(sort) = elaborate_sort(&tree.head.sort) else {
        return Err(Stop::NotBuilt);
    };
    let (params, mut scope) = elaborate_params(alloc, tree.head.params.as_slice())?;
    let (params, parts) = both(
        params,
        elaborate_parts(alloc, tree, sort, result_word, &mut scope),
    )?;
    let name = tree.head.name.text.copy(alloc)?;
    Ok(Fun {
        name,
        at: tree.head.name.at,
        params,
        effect: Effect::Pure,
        sort: sort.sort(),
        needs: parts.needs,
        gives: parts.gives,
        measures: Seq::new(alloc),
        unfold: 1,
        body: parts.text,
        group: number,
    })
}
