// The edges of a graph of provenances, told one by one: of each reference what is derived for its provenance, and, opened, what is derived
// for each provenance that was given to a function on the way there. It takes no memory but tables on the stack.
ghost use Rattle.std.specs.Prelude.{◌≡◌, ◌<◌, ◌≤◌, length, true, IsTrue};
ghost use Rattle.mv_ways.specs.Telling.{edges_at, edges_into, given_edges, marked_edges};
ghost use Rattle.mv_ways.specs.Told.{IsTold};
ghost use Rattle.mv_ways.specs.Derived.{derived_edges};
ghost use Rattle.mv_ways.specs.Provenances.{all_origins, are_earlier, reference_edges};

use super::super::nodes::NodeSet;
use super::sink::Sink;
use super::under::leading::Mark;
use super::{FEW_PROVENANCES, MOST_PROVENANCES, ProvenanceGraph, Reference};
use mv_move_types::Node;

impl ProvenanceGraph {
    /// Tells what is derived for a provenance, opened, if the provenance is marked as given to a function.
    fn tell_marked<S: Sink>(
        &self,
        mark: Mark,
        room: &mut [u8],
        place: usize,
        to: Node,
        sink: &mut S,
    ) -> bool
        requires inside { place < length self.now.provenances }
        requires room { place < length room.old }
        ensures { IsTold S.after sink.old (marked_edges (derived_edges self.now to true) mark place) result sink.new }
    {
        if mark.was_given() {
            self.tell_derived(room, place, true, to, sink)
        } else {
            true
        }
    }

    /// Tells what is derived for each of the first provenances that is marked as given to a function, opened.
    fn tell_given<S: Sink>(
        &self,
        marks: &[Mark],
        end: usize,
        room: &mut [u8],
        to: Node,
        sink: &mut S,
    ) -> bool
        requires marks { length marks.now ≡ length self.now.provenances }
        requires within { end ≤ length self.now.provenances }
        requires room { length room.old ≡ length self.now.provenances }
        ensures { IsTold S.after sink.old (given_edges (derived_edges self.now to true) marks.now end) result sink.new }
    {
        for place in 0..end {
            if !self.tell_marked(marks[place], room, place, to, sink) {
                return false;
            }
        }
        true
    }

    /// Tells the edges of a reference.
    fn tell_reference<S: Sink>(
        &self,
        marks: &mut [Mark],
        room: &mut [u8],
        reference: Reference,
        sink: &mut S,
    ) -> bool
        requires inside { reference.provenance < length self.now.provenances }
        requires marks { length marks.old ≡ length self.now.provenances }
        requires room { length room.old ≡ length self.now.provenances }
        requires earlier { IsTrue (are_earlier 0 self.now.provenances) }
        ensures { IsTold S.after sink.old (reference_edges self.now.sources (all_origins self.now.provenances) reference) result sink.new }
    {
        let end = self.mark_given_to(marks, reference.provenance());
        self.tell_given(marks, end, room, reference.node(), sink)
            && self.tell_derived(room, reference.provenance(), false, reference.node(), sink)
    }

    /// Tells the edges of a reference, if it is of one of some nodes.
    fn tell_at<S: Sink, N: NodeSet>(
        &self,
        marks: &mut [Mark],
        room: &mut [u8],
        nodes: &N,
        reference: Reference,
        sink: &mut S,
    ) -> bool
        requires inside { reference.provenance < length self.now.provenances }
        requires marks { length marks.old ≡ length self.now.provenances }
        requires room { length room.old ≡ length self.now.provenances }
        requires earlier { IsTrue (are_earlier 0 self.now.provenances) }
        ensures { IsTold S.after sink.old (edges_at (N.test nodes.now) self.now reference) result sink.new }
    {
        if nodes.has(reference.node()) {
            self.tell_reference(marks, room, reference, sink)
        } else {
            true
        }
    }

    /// Tells the edges of each reference of some nodes, with room for what is noted of each provenance.
    fn tell_references<S: Sink, N: NodeSet>(
        &self,
        marks: &mut [Mark],
        room: &mut [u8],
        nodes: &N,
        sink: &mut S,
    )
        requires marks { length marks.old ≡ length self.now.provenances }
        requires room { length room.old ≡ length self.now.provenances }
        ensures { S.after sink.old (edges_into (N.test nodes.now) self.now) sink.new }
    {
        for reference in self.references() {
            if !self.tell_at(marks, room, nodes, *reference, sink) {
                return;
            }
        }
    }

    /// The same with more room than needed.
    fn tell_within<S: Sink, N: NodeSet>(
        &self,
        marks: &mut [Mark],
        room: &mut [u8],
        nodes: &N,
        sink: &mut S,
    )
        requires marks { length self.now.provenances ≤ length marks.old }
        requires room { length self.now.provenances ≤ length room.old }
        ensures { S.after sink.old (edges_into (N.test nodes.now) self.now) sink.new }
    {
        let count = self.provenances().len();
        self.tell_references(&mut marks[..count], &mut room[..count], nodes, sink);
    }

    /// Tells the edges that lead into some nodes, where there are few provenances.
    fn tell_few<S: Sink, N: NodeSet>(&self, nodes: &N, sink: &mut S)
        requires { length self.now.provenances ≤ FEW_PROVENANCES }
        ensures { S.after sink.old (edges_into (N.test nodes.now) self.now) sink.new }
    {
        let marks = &mut [Mark::Nothing; FEW_PROVENANCES];
        self.tell_within(marks, &mut [0; FEW_PROVENANCES], nodes, sink);
    }

    /// Tells the edges that lead into some nodes, where there are many provenances.
    #[inline(never)]
    fn tell_many<S: Sink, N: NodeSet>(&self, nodes: &N, sink: &mut S)
        requires { length self.now.provenances ≤ MOST_PROVENANCES }
        ensures { S.after sink.old (edges_into (N.test nodes.now) self.now) sink.new }
    {
        let marks = &mut [Mark::Nothing; MOST_PROVENANCES];
        self.tell_within(marks, &mut [0; MOST_PROVENANCES], nodes, sink);
    }

    /// Tells the edges that lead into some nodes, in any order, and any of them more than once, until no more are wanted.
    pub(crate) fn tell_each<S: Sink, N: NodeSet>(&self, nodes: &N, sink: &mut S)
        ensures { S.after sink.old (edges_into (N.test nodes.now) self.now) sink.new }
    {
        if self.provenances().len() <= FEW_PROVENANCES {
            self.tell_few(nodes, sink);
        } else {
            self.tell_many(nodes, sink);
        }
    }
}
