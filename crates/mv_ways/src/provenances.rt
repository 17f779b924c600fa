// A graph of provenances: how the references of a block came about.
ghost use Rattle.std.specs.Prelude.{◌≡◌, ◌≤◌, length, IsTrue};
ghost use Rattle.std.specs.List.{list_all};
ghost use Rattle.mv_edges.specs.Edges.{here};
ghost use Rattle.mv_ways.specs.Provenances.{an_origin, are_below, are_earlier, is_known, most_provenances};

pub(crate) mod along;
mod counting;
mod derivation;
pub(crate) mod every;
mod extending;
mod growth;
mod listing;
mod made;
mod questions;
mod sink;
mod sinks;
mod stating;
mod steps;
mod telling;
pub(crate) mod told;
mod tying;
mod under;

use mv_edges::Label;
use mv_move_types::Node;
use std::marker::Model;

/// The most provenances of a graph. A block can't make more: it begins with at most 64 references, and each of its 4,096 instructions
/// makes at most two provenances.
const MOST_PROVENANCES: usize = 8_320;

/// How many provenances a small graph has at most.
const FEW_PROVENANCES: usize = 64;

/// An origin of a reference: a source from which an edge leads to it, by its number, and the edge's label.
#[derive(Drop, Debug)]
pub(crate) struct Origin {
    source: usize,
    label: Label,
    // Its number among all that are stated where the graph is made. Nothing rests on it but the time that a question takes.
    number: usize,
}

impl Model for Origin {
    ghost use Rattle.mv_ways.specs.Origins.{Origin as OriginRecord};

    ghost Value = { OriginRecord };

    ghost view = { λ l. record { source = l.source; label = l.label } };
}

impl Origin {
    /// What a source lends, with no label.
    pub(crate) fn lent(source: usize) -> Self
        ensures { result ≡ an_origin source here }
    {
        Origin {
            source,
            label: Label::itself(),
            number: usize::MAX,
        }
    }

    /// The source's number.
    pub(crate) fn source(&self) -> usize
        ensures { result ≡ self.now.source }
    {
        self.source
    }

    /// The label.
    pub(crate) fn label(&self) -> &Label
        ensures { result.now ≡ self.now.label }
    {
        &self.label
    }
}

/// How a reference came about. A provenance is named by its place, and goes over earlier ones alone.
#[derive(Drop, Debug)]
pub(crate) enum Provenance {
    /// It is stated what leads to it.
    Stated(Vec<Origin>),
    /// It was lent by a source. Where a mutable reference was copied, it also goes over the original's provenance.
    Lent { source: usize, over: Option<usize> },
    /// It leads to a field of what the other leads to.
    Field { over: usize, position: u8 },
    /// A function returned it, having been given references with these provenances.
    Returned(Vec<usize>),
}

/// A node that refers to something, and how the reference came about.
#[derive(Clone, Copy, Debug)]
pub(crate) struct Reference {
    node: Node,
    provenance: usize,
}

impl Reference {
    /// The node.
    pub(crate) fn node(&self) -> Node
        ensures { result ≡ self.now.node }
    {
        self.node
    }

    /// The place of its provenance.
    pub(crate) fn provenance(&self) -> usize
        ensures { result ≡ self.now.provenance }
    {
        self.provenance
    }
}

/// The edges of a borrow graph on its way through a block. They aren't stored as a list: it records for each reference how it came
/// about, over which provenances, and for each node that lends where it is now.
#[derive(Drop, Debug)]
pub(crate) struct ProvenanceGraph {
    /// Where each source is, if it is still there.
    sources: Vec<Option<Node>>,
    provenances: Vec<Provenance>,
    references: Vec<Reference>,
}

impl Model for ProvenanceGraph {
    ghost use Rattle.std.specs.Prelude.{◌≤◌, length, IsTrue};
    ghost use Rattle.mv_ways.specs.Provenances.{ProvenanceGraph as GraphRecord, is_whole, most_provenances};

    ghost Value = { GraphRecord };

    ghost view = { λ g. record { sources = g.sources.items; provenances = g.provenances.items; references = g.references.items } };

    ghost invariant = { λ g. IsTrue (is_whole (record { sources = g.sources.items; provenances = g.provenances.items; references = g.references.items }))
        × (length g.provenances.items ≤ most_provenances) };
}

impl ProvenanceGraph {
    /// Where each source is.
    pub(crate) fn sources(&self) -> &[Option<Node>]
        ensures { result.now ≡ self.now.sources }
    {
        &self.sources
    }

    /// How references came about.
    pub(crate) fn provenances(&self) -> &[Provenance]
        ensures value { result.now ≡ self.now.provenances }
        ensures earlier { IsTrue (are_earlier 0 self.now.provenances) }
        ensures known { IsTrue (list_all (is_known (length self.now.sources)) self.now.provenances) }
        ensures few { length self.now.provenances ≤ most_provenances }
    {
        &self.provenances
    }

    /// Which nodes refer to something.
    pub(crate) fn references(&self) -> &[Reference]
        ensures value { result.now ≡ self.now.references }
        ensures below { IsTrue (are_below (length self.now.provenances) self.now.references) }
        ensures earlier { IsTrue (are_earlier 0 self.now.provenances) }
        ensures few { length self.now.provenances ≤ most_provenances }
    {
        &self.references
    }
}
