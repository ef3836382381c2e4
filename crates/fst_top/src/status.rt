ghost use Rattle.std.specs.Prelude.{◌≡◌, IfOk};
ghost use Rattle.fst_top.specs.Printed.{plain_refusal_text};
ghost use Rattle.fst_top.specs.Statuses.{number_of};

use crate::print;
use fst_base::{OutOfMemory, Rule, Seq};
use std::alloc::Global;

/// How a command ended.
#[derive(Clone, Copy, Debug, PartialEq, Eq)]
pub enum Status {
    Done,
    NotProved,
    Refused,
    BadWords,
    OutOfFuel,
    ReadFault,
    WriteFault,
    NoMemory,
}

impl Status {
    /// The exit status.
    pub fn number(self) -> u8
        ensures { result ≡ number_of self }
    {
        match self {
            Status::Done => 0,
            Status::NotProved => 1,
            Status::Refused => 2,
            Status::BadWords => 3,
            Status::OutOfFuel => 4,
            Status::ReadFault => 7,
            Status::WriteFault => 8,
            Status::NoMemory => 10,
        }
    }
}

/// A status, and the text that goes with it.
#[derive(Drop)]
pub struct Answer {
    pub status: Status,
    pub text: Seq<u8>,
}

impl Answer {
    /// The answer with this text.
    pub fn said(alloc: Global, status: Status, text: &[u8]) -> Result<Answer, OutOfMemory>
        ensures { IfOk result (λ a. (a.status ≡ status) × (a.text ≡ text.now)) }
    {
        let text = Seq::from_slice(alloc, text)?;
        Ok(Answer { status, text })
    }

    /// The answer that says of a rule that it is broken, at no place.
    pub fn refusal(alloc: Global, status: Status, rule: Rule) -> Result<Answer, OutOfMemory>
        ensures { IfOk result (λ a. (a.status ≡ status) × (a.text ≡ plain_refusal_text rule)) }
    {
        let mut text = Seq::new(alloc);
        print::plain_refusal(rule, &mut text)?;
        Ok(Answer { status, text })
    }
}
