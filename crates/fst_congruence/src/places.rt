use fst_base::{Op, OutOfMemory};
use fst_terms::Term;
use std::alloc::Global;
use std::collections::HashMap;

/// Numbers of terms by what they look like; of terms that look the same it knows one. What it tells is a guess: who asks compares.
#[derive(Drop)]
pub struct Places {
    numbers: HashMap<u64, u32>,
}

impl Places {
    pub fn new(alloc: Global) -> Places {
        Places {
            numbers: HashMap::new(alloc),
        }
    }

    /// A number of a term that looks like this, 0 for none.
    pub fn guess(&self, look: u64) -> u32 {
        match self.numbers.get(&look) {
            Some(number) => *number,
            None => 0,
        }
    }

    pub fn put(&mut self, look: u64, number: u32) -> Result<(), OutOfMemory> {
        self.numbers.insert(look, number)?;
        Ok(())
    }
}

fn mixed(look: u64, more: u64) -> u64 {
    (look ^ more)
        .wrapping_mul(0x9E37_79B9_7F4A_7C15)
        .rotate_left(23)
}

fn look_of_op(op: Op) -> u64 {
    mixed(5, u64::from(op as u8))
}

/// What the head of a term looks like, without its sort.
pub fn look_of_head(term: &Term) -> u64 {
    match term {
        Term::Prim(op, _, _, _) => look_of_op(*op),
        Term::App(function, _, _) => mixed(7, u64::from(*function)),
        _ => 0,
    }
}

/// What a term looks like, without sorts and places.
#[cycle(look)]
pub fn look_of(term: &Term) -> u64 {
    match term {
        Term::Var(index) => mixed(1, u64::from(*index)),
        Term::Int(number) => mixed(2, u64::try_from(number.unsigned_abs()).unwrap_or(0)),
        Term::Bool(truth) => mixed(3, u64::from(*truth)),
        Term::Unit => mixed(4, 0),
        Term::Prim(op, _, args, _) => look_of_all(look_of_op(*op), args.as_slice()),
        Term::App(function, _, args) => {
            look_of_all(mixed(7, u64::from(*function)), args.as_slice())
        }
        Term::If(_, left, right) => mixed(look_of(left.get()), look_of(right.get())),
        Term::Let(_, _, rest) => mixed(8, look_of(rest.get())),
    }
}

#[cycle(look)]
fn look_of_all(head: u64, args: &[Term]) -> u64 {
    let mut look = head;
    for arg in args {
        look = mixed(look, look_of(arg));
    }
    look
}
