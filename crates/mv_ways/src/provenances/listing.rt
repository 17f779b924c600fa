// The edges of a graph of provenances as a list.
ghost use Rattle.std.specs.Prelude.{◌≡◌, flat_map, IfOk};
ghost use Rattle.mv_edges.specs.Edges.{into};
ghost use Rattle.mv_edges.specs.Sorted.{sorted};
ghost use Rattle.mv_ways.specs.Provenances.{edges_of};

use super::super::nodes::{All, One};
use super::ProvenanceGraph;
use super::sinks::Listing;
use mv_edges::Edges;
use mv_move_types::Node;
use std::alloc::{AllocError, Global};

impl ProvenanceGraph {
    /// The edges as a list.
    pub(crate) fn to_edges(&self, alloc: Global) -> Result<Edges, AllocError>
        ensures { IfOk result (λ s. s ≡ sorted (edges_of self.now)) }
    {
        let mut listing = Listing::new(alloc, self.references().len().saturating_mul(2))?;
        self.tell_each(&All, &mut listing);
        listing.edges()
    }

    /// The edges that lead into some nodes.
    pub(super) fn led_into(&self, alloc: Global, nodes: &[Node]) -> Result<Edges, AllocError>
        ensures { IfOk result (λ es. es ≡ sorted (flat_map (λ n. into n (edges_of self.now)) nodes.now)) }
    {
        let mut listing = Listing::new(alloc, nodes.len())?;
        for n in nodes {
            self.tell_each(&One(*n), &mut listing);
        }
        listing.edges()
    }
}
