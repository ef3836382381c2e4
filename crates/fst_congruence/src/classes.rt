ghost use Rattle.std.specs.Prelude.{◌≡◌, ◌≢◌, ◌<◌, ◌^◌, ℕ, [], length, get_or, slice_index, IfOk, OnOk};
ghost use Rattle.fst_congruence.specs.Classes.{label_at, why_at, Sound, Labelled, Relabelling, RelabelsOne, After, Joins};
ghost use Rattle.fst_congruence.specs.Lines.{Because, Extends, StrictReason, SliceReasons};

use crate::begin::{labels_of_their_own, no_reasons};
use crate::equation::Equation;
use crate::log::{chain, straight};
use crate::members::Members;
use crate::why::Why;
use fst_base::{OutOfMemory, Seq};
use std::alloc::Global;

/// Classes of numbered terms. Each term has the label of its class, which is the number of a term of the class, and the reason why
/// it equals that term; a reason names a line of the log.
#[derive(Debug, Drop)]
pub struct Classes {
    pub labels: Seq<u32>,
    pub whys: Seq<Why>,
    pub members: Members,
    pub log: Seq<Equation>,
}

impl Classes {
    /// A class for each of so many terms.
    pub fn new(alloc: Global, count: usize) -> Result<Classes, OutOfMemory>
        requires { count < 2 ^ 32 }
        ensures { IfOk result (λ classes. Sound classes × (length classes.labels ≡ count) × (classes.log ≡ [])) }
    {
        let labels = labels_of_their_own(alloc, count)?;
        let whys = no_reasons(alloc, count)?;
        let members = Members::new(alloc, count)?;
        let log = Seq::new(alloc);
        Ok(Classes {
            labels,
            whys,
            members,
            log,
        })
    }

    /// Why left = right, which have the same label.
    pub fn why(&mut self, left: u32, right: u32) -> Result<Why, OutOfMemory>
        requires sound { Sound self.old }
        requires left { left < length self.old.labels }
        requires right { right < length self.old.labels }
        requires same { label_at self.old.labels left ≡ label_at self.old.labels right }
        ensures { IfOk result (λ why. Because self.new.log why left right × After self.old self.new) }
    {
        let label = self.labels.as_slice()[right as usize];
        let up = self.whys.as_slice()[left as usize];
        let down = self.whys.as_slice()[right as usize].back();
        chain(&mut self.log, up, down, left, label, right)
    }

    /// Lines for the equations of two lists of terms in order, which have the same labels: 0 where the two are the same term.
    pub fn reasons(
        &mut self,
        alloc: Global,
        lefts: &[u32],
        rights: &[u32],
    ) -> Result<Seq<u32>, OutOfMemory>
        requires sound { Sound self.old }
        requires count { length lefts.now ≡ length rights.now }
        requires left { (k : ℕ) → k < length lefts.now → slice_index lefts.now k < length self.old.labels }
        requires right { (k : ℕ) → k < length lefts.now → slice_index rights.now k < length self.old.labels }
        requires same { (k : ℕ) → k < length lefts.now → label_at self.old.labels (slice_index lefts.now k) ≡ label_at self.old.labels (slice_index rights.now k) }
        ensures { IfOk result (λ reasons. SliceReasons self.new.log lefts.now rights.now (length lefts.now) reasons × After self.old self.new) }
    {
        let mut reasons = Seq::new(alloc);
        for at in 0..lefts.len() {
            let line = self.reason(lefts[at], rights[at])?;
            reasons.push(line)?;
        }
        Ok(reasons)
    }

    /// The number of a line that gives left = right, which have the same label; 0 where they are the same term.
    pub fn reason(&mut self, left: u32, right: u32) -> Result<u32, OutOfMemory>
        requires sound { Sound self.old }
        requires left { left < length self.old.labels }
        requires right { right < length self.old.labels }
        requires same { label_at self.old.labels left ≡ label_at self.old.labels right }
        ensures { IfOk result (λ line. StrictReason self.new.log line left right × After self.old self.new) }
    {
        if left == right {
            return Ok(0);
        }
        let why = self.why(left, right)?;
        straight(&mut self.log, why, left, right)
    }

    /// Joins the classes of left and right; the smaller class gets the label of the other one.
    pub fn join(
        &mut self,
        alloc: Global,
        left: u32,
        right: u32,
        why: Why,
    ) -> Result<(), OutOfMemory>
        requires sound { Sound self.old }
        requires left { left < length self.old.labels }
        requires right { right < length self.old.labels }
        requires differ { label_at self.old.labels left ≢ label_at self.old.labels right }
        requires why { Because self.old.log why left right }
        ensures { OnOk result (Joins self.old self.new) }
    {
        let from = self.labels.as_slice()[left as usize];
        let to = self.labels.as_slice()[right as usize];
        if self.members.count(from) <= self.members.count(to) {
            self.merge(alloc, left, right, why)
        } else {
            self.merge(alloc, right, left, why.back())
        }
    }

    /// Puts the class of left into that of right.
    fn merge(&mut self, alloc: Global, left: u32, right: u32, why: Why) -> Result<(), OutOfMemory>
        requires sound { Sound self.old }
        requires left { left < length self.old.labels }
        requires right { right < length self.old.labels }
        requires differ { label_at self.old.labels left ≢ label_at self.old.labels right }
        requires why { Because self.old.log why left right }
        ensures { OnOk result (Joins self.old self.new) }
    {
        let from = self.labels.as_slice()[left as usize];
        let to = self.labels.as_slice()[right as usize];
        let link = self.link(left, right, why)?;
        let mut terms = self.members.take(alloc, from);
        terms.push(from)?;
        self.relabel(terms.as_slice(), from, to, link)?;
        self.members.append(to, terms)
    }

    /// Why the label of left equals that of right, where left = right.
    fn link(&mut self, left: u32, right: u32, why: Why) -> Result<Why, OutOfMemory>
        requires sound { Sound self.old }
        requires left { left < length self.old.labels }
        requires right { right < length self.old.labels }
        requires why { Because self.old.log why left right }
        ensures { IfOk result (λ link. Because self.new.log link (label_at self.old.labels left) (label_at self.old.labels right) × After self.old self.new) }
    {
        let from = self.labels.as_slice()[left as usize];
        let to = self.labels.as_slice()[right as usize];
        let up = self.whys.as_slice()[left as usize].back();
        let down = self.whys.as_slice()[right as usize];
        let rest = chain(&mut self.log, why, down, left, right, to)?;
        chain(&mut self.log, up, rest, from, left, to)
    }

    /// Gives the label `to` to each of these terms that has the label `from`; `link` says why from = to.
    fn relabel(&mut self, terms: &[u32], from: u32, to: u32, link: Why) -> Result<(), OutOfMemory>
        requires labelled { Labelled self.old.labels self.old.whys self.old.log }
        requires terms { (k : ℕ) → k < length terms.now → slice_index terms.now k < length self.old.labels }
        requires differ { from ≢ to }
        requires link { Because self.old.log link from to }
        ensures { OnOk result (Relabelling self.old.labels self.new.labels self.new.whys self.new.log terms.now from to (length terms.now) × Extends self.old.log self.new.log × (self.new.members ≡ self.old.members)) }
    {
        for at in 0..terms.len() {
            self.relabel_one(terms[at], from, to, link)?;
        }
        Ok(())
    }

    /// The same for one term.
    fn relabel_one(&mut self, term: u32, from: u32, to: u32, link: Why) -> Result<(), OutOfMemory>
        requires count { length self.old.whys ≡ length self.old.labels }
        requires term { term < length self.old.labels }
        requires why { Because self.old.log (why_at self.old.whys term) term (label_at self.old.labels term) }
        requires differ { from ≢ to }
        requires link { Because self.old.log link from to }
        ensures { OnOk result (RelabelsOne self.old self.new term from to) }
    {
        if self.labels.as_slice()[term as usize] != from {
            return Ok(());
        }
        let up = self.whys.as_slice()[term as usize];
        let why = chain(&mut self.log, up, link, term, from, to)?;
        self.whys.set(term as usize, why);
        self.labels.set(term as usize, to);
        Ok(())
    }
}
