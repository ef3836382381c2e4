ghost use Rattle.std.specs.Prelude.{◌≡◌, ◌<◌, ◌↔◌, length, IfOk, IsTrue};
ghost use Rattle.fst_congruence.specs.Classes.{label_at};
ghost use Rattle.fst_congruence.specs.Closures.{Explains};
ghost use Rattle.fst_congruence.specs.Explained.{AreGiven, Gives};
ghost use Rattle.fst_congruence.specs.Joined.{node_at};
ghost use Rattle.fst_congruence.specs.Numbered.{IsComplete, nodes_of, term_at};
ghost use Rattle.fst_terms.specs.Flats.{Flt};
ghost use Rattle.fst_terms.specs.Marks.{Marking};

use crate::classes::Classes;
use crate::equation::Equation;
use crate::explain::{argue, lines};
use crate::node::Node;
use fst_base::{OutOfMemory, Seq};
use fst_cert::Line;
use std::alloc::Global;
use std::marker::Model;

/// The classes of numbered terms under equations, with the lines that give them.
#[derive(Debug, Drop)]
pub struct Closure {
    pub(crate) nodes: Seq<Node>,
    pub(crate) equations: Seq<Equation>,
    pub(crate) classes: Classes,
}

impl Model for Closure {
    ghost use Rattle.fst_congruence.specs.Closures.{ClosureView, IsClosure};

    ghost Value = { ClosureView };

    ghost view = { λ c. record { nodes = c.nodes; equations = c.equations; labels = c.classes.labels } };

    ghost invariant = { λ c. IsClosure c.nodes c.equations c.classes };
}

impl Closure {
    /// How many labels there are: one more than terms.
    pub fn count(&self) -> u32
        ensures { result ≡ length self.now.labels }
    {
        self.classes.labels.len() as u32
    }

    /// The label of a term: two terms have one label exactly where the least congruence joins them.
    pub fn label(&self, term: u32) -> u32
        requires { term < length self.now.labels }
        ensures is { result ≡ label_at self.now.labels term }
        ensures small { result < length self.now.labels }
    {
        self.classes.labels.as_slice()[term as usize]
    }

    /// Whether this is the number of a term.
    pub fn numbers(&self, term: u32) -> bool
        ensures { IsTrue result ↔ ((term < length self.now.labels) × (0 < (node_at self.now.nodes term).kind)) }
    {
        let nodes = self.nodes.as_slice();
        (term as usize) < nodes.len() && nodes[term as usize].kind != 0
    }

    /// The number of the constructor that a term begins with, 0 for none.
    pub fn maker(&self, term: u32) -> u32
        requires { term < length self.now.labels }
        ensures { result ≡ (node_at self.now.nodes term).constructor }
    {
        self.nodes.as_slice()[term as usize].constructor
    }

    /// Lines that give left = right, which have one label.
    pub fn explain(&self, alloc: Global, left: u32, right: u32) -> Result<Seq<Line>, OutOfMemory>
        requires some { 0 < (node_at self.now.nodes left).kind }
        requires left { left < length self.now.labels }
        requires right { right < length self.now.labels }
        requires same { label_at self.now.labels left ≡ label_at self.now.labels right }
        ensures numbers { IfOk result (λ lines. Explains self.now.nodes self.now.equations lines left right) }
        ensures terms { (f : Flt) (look : Marking) → self.now.nodes ≡ nodes_of f.terms → IsComplete f.terms → AreGiven f look self.now.equations → IfOk result (λ lines. Gives f look lines (term_at f.terms left) (term_at f.terms right)) }
    {
        let whole = argue(alloc, self.nodes.as_slice(), &self.classes, left, right)?;
        lines(alloc, whole.as_slice())
    }

    /// The table of terms, for a further closure.
    pub fn into_table(self) -> Seq<Node>
        ensures { result ≡ self.nodes }
    {
        let Closure { nodes, .. } = self;
        nodes
    }
}
