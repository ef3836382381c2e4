use fst_names::{NamedDecl, Ref, RefKind, resolve};
use fst_reader::{
    ArmTree, BodyTree, Decl, DmTree, EffectName, EffectTree, Form, FormNode, FunTree, LiftTree,
    ParamTree, PartNode, PartTree, RawProgram, SortTree,
};
use std::alloc::{AllocError, Global};

/// What names stand for in order: of each a letter and its index, which is less than 10. The letters are L for a variable, F for a
/// function, E for an effect, A and B for the sorts a and b, and f and g for a header's computations.
pub(crate) type Uses = Vec<u8>;

fn put(uses: &mut Uses, reference: &Ref) -> Result<(), AllocError> {
    let letter = match reference.kind {
        RefKind::Local => b'L',
        RefKind::Fun => b'F',
        RefKind::Effect => b'E',
        RefKind::SortA => b'A',
        RefKind::SortB => b'B',
        RefKind::RunF => b'f',
        RefKind::RunG => b'g',
    };
    uses.push(letter)?;
    uses.push(b'0' + (reference.index % 10) as u8)?;
    Ok(())
}

fn put_sort(uses: &mut Uses, sort: &SortTree<Ref>) -> Result<(), AllocError> {
    match sort {
        SortTree::Pair(left, right) | SortTree::Either(left, right) => {
            put_sort(uses, left.get())?;
            put_sort(uses, right.get())
        }
        SortTree::Opt(item) | SortTree::List(item) => put_sort(uses, item.get()),
        SortTree::Ident(reference) => put(uses, reference),
        SortTree::Unit | SortTree::Bool | SortTree::Int => Ok(()),
    }
}

fn put_note(uses: &mut Uses, note: &Option<SortTree<Ref>>) -> Result<(), AllocError> {
    match note {
        Some(sort) => put_sort(uses, sort),
        None => Ok(()),
    }
}

#[cycle(form)]
fn put_form(uses: &mut Uses, form: &Form<Ref>) -> Result<(), AllocError> {
    match &form.node {
        FormNode::Ident(reference) => put(uses, reference),
        FormNode::Prim(_, args) => put_forms(uses, args.as_slice()),
        FormNode::If(test, left, right) => {
            put_form(uses, test.get())?;
            put_form(uses, left.get())?;
            put_form(uses, right.get())
        }
        FormNode::App(reference, args) => {
            put(uses, reference)?;
            put_forms(uses, args.as_slice())
        }
        FormNode::Let(_, bound, body) => {
            put_form(uses, bound.get())?;
            put_form(uses, body.get())
        }
        FormNode::Int(_) | FormNode::Bool(_) | FormNode::Unit => Ok(()),
    }
}

#[cycle(form)]
fn put_forms(uses: &mut Uses, forms: &[Form<Ref>]) -> Result<(), AllocError> {
    for form in forms {
        put_form(uses, form)?;
    }
    Ok(())
}

#[cycle(body)]
fn put_body(uses: &mut Uses, body: &BodyTree<Ref>) -> Result<(), AllocError> {
    match body {
        BodyTree::Let(_, note, part, rest) | BodyTree::GhostLet(_, note, part, rest) => {
            put_note(uses, note)?;
            put_part(uses, part)?;
            put_body(uses, rest.get())
        }
        BodyTree::Assert(form, _, rest) => {
            put_form(uses, form)?;
            put_body(uses, rest.get())
        }
        BodyTree::If(test, left, right) => {
            put_form(uses, test)?;
            put_body(uses, left.get())?;
            put_body(uses, right.get())
        }
        BodyTree::Match(form, _, arms) => {
            put_form(uses, form)?;
            put_arms(uses, arms.as_slice())
        }
        BodyTree::Part(part) => put_part(uses, part),
    }
}

#[cycle(body)]
fn put_part(uses: &mut Uses, part: &PartTree<Ref>) -> Result<(), AllocError> {
    match &part.node {
        PartNode::Block(body) => put_body(uses, body.get()),
        PartNode::Call(reference, args) => {
            put(uses, reference)?;
            put_forms(uses, args.as_slice())
        }
        PartNode::Reify(reference, sort, body, input) => {
            put(uses, reference)?;
            put_sort(uses, sort)?;
            put_body(uses, body.get())?;
            put_form(uses, input)
        }
        PartNode::Reflect(reference, sort, _, body) => {
            put(uses, reference)?;
            put_sort(uses, sort)?;
            put_body(uses, body.get())
        }
        PartNode::Term(form) => put_form(uses, form),
    }
}

#[cycle(body)]
fn put_arms(uses: &mut Uses, arms: &[ArmTree<BodyTree<Ref>>]) -> Result<(), AllocError> {
    for arm in arms {
        put_body(uses, &arm.body)?;
    }
    Ok(())
}

#[cycle(text)]
fn put_dm(uses: &mut Uses, text: &DmTree<Ref>) -> Result<(), AllocError> {
    match text {
        DmTree::Let(_, note, part, rest) => {
            put_note(uses, note)?;
            put_dm(uses, part.get())?;
            put_dm(uses, rest.get())
        }
        DmTree::If(test, left, right) => {
            put_form(uses, test)?;
            put_dm(uses, left.get())?;
            put_dm(uses, right.get())
        }
        DmTree::Match(form, _, arms) => {
            put_form(uses, form)?;
            put_dm_arms(uses, arms.as_slice())
        }
        DmTree::Block(_, text) => put_dm(uses, text.get()),
        DmTree::Run(reference, args) => {
            put(uses, reference)?;
            put_forms(uses, args.as_slice())
        }
        DmTree::Term(form) => put_form(uses, form),
    }
}

#[cycle(text)]
fn put_dm_arms(uses: &mut Uses, arms: &[ArmTree<DmTree<Ref>>]) -> Result<(), AllocError> {
    for arm in arms {
        put_dm(uses, &arm.body)?;
    }
    Ok(())
}

fn put_maybe(uses: &mut Uses, form: &Option<Form<Ref>>) -> Result<(), AllocError> {
    match form {
        Some(form) => put_form(uses, form),
        None => Ok(()),
    }
}

fn put_params(uses: &mut Uses, params: &[ParamTree<Ref>]) -> Result<(), AllocError> {
    for param in params {
        put_sort(uses, &param.sort)?;
        put_maybe(uses, &param.refine)?;
    }
    Ok(())
}

fn put_fun(uses: &mut Uses, fun: &FunTree<Ref>) -> Result<(), AllocError> {
    put_params(uses, fun.head.params.as_slice())?;
    if let EffectName::User(reference) = &fun.head.effect {
        put(uses, reference)?;
    }
    put_sort(uses, &fun.head.sort)?;
    put_maybe(uses, &fun.head.needs)?;
    put_maybe(uses, &fun.head.gives)?;
    put_forms(uses, fun.head.measures.as_slice())?;
    put_body(uses, &fun.body)
}

fn put_effect(uses: &mut Uses, effect: &EffectTree<Ref>) -> Result<(), AllocError> {
    put_sort(uses, &effect.input)?;
    put_sort(uses, &effect.result)?;
    put_dm(uses, &effect.ret)?;
    put_dm(uses, &effect.bind)
}

fn put_lift(uses: &mut Uses, lift: &LiftTree<Ref>) -> Result<(), AllocError> {
    put(uses, &lift.from)?;
    put(uses, &lift.to)?;
    put_dm(uses, &lift.text)
}

fn put_decls(uses: &mut Uses, decls: &[NamedDecl]) -> Result<(), AllocError> {
    for decl in decls {
        match decl {
            Decl::Effect(effect) => put_effect(uses, effect)?,
            Decl::Lift(lift) => put_lift(uses, lift)?,
            Decl::Fun(fun) => put_fun(uses, fun)?,
        }
    }
    Ok(())
}

/// What the names of the program stand for; `refused` where it breaks a rule or memory is wanted.
pub(crate) fn uses_of(alloc: Global, program: &RawProgram) -> Result<Uses, AllocError> {
    match resolve(alloc, program) {
        Ok(named) => {
            let mut uses = Vec::new(alloc);
            put_decls(&mut uses, named.decls.as_slice())?;
            Ok(uses)
        }
        Err(_) => Vec::from_slice(alloc, b"refused"),
    }
}
