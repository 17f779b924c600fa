// An edge that is told, with its positions where they stand.
ghost use Rattle.std.specs.Prelude.{◌≡◌, ◌≤◌, length, slice_get, IfOk, IfSome, IsSome};
ghost use Rattle.mv_move_types.specs.Paths.{begins};
ghost use Rattle.mv_edges.specs.Edges.{an_edge, composed, edge_leq, same_edge, same_label};
ghost use Rattle.mv_ways.specs.Told.{is_beside, same_position};

use super::Origin;
use mv_edges::{Edge, Label, is_same};
use mv_move_types::Node;
use std::alloc::{AllocError, Global};
use std::marker::Model;

/// An edge. Its label is one that stands elsewhere, with positions behind it.
#[derive(Drop)]
pub(crate) struct Told<'a> {
    from: Node,
    first: &'a [u8],
    behind: &'a [u8],
    is_open: bool,
    to: Node,
    // The place where it is likely to be in a list. Nothing rests on it but the time that a search takes.
    guess: usize,
}

impl<'a> Model for Told<'a> {
    ghost use Rattle.std.specs.Prelude.{◌++◌};
    ghost use Rattle.mv_edges.specs.Edges.{Edge as EdgeRecord};

    ghost Value = { EdgeRecord };

    ghost view = { λ e. record { from = e.from; label = record { path = e.first.now ++ e.behind.now; is_open = e.is_open }; to = e.to } };
}

impl<'a> Told<'a> {
    /// The edge by an origin's label and the positions behind it, of which none count if the label is open.
    pub(crate) fn new(
        from: Node,
        origin: &'a Origin,
        path: &'a [u8],
        is_open: bool,
        to: Node,
    ) -> Self
        ensures { result ≡ an_edge from (composed origin.now.label (record { path = path.now; is_open = is_open })) to }
    {
        let label = origin.label();
        let first = label.path();
        let guess = origin.number;
        if label.is_open() {
            return Told {
                from,
                first,
                behind: &[],
                is_open: true,
                to,
                guess,
            };
        }
        Told {
            from,
            first,
            behind: path,
            is_open,
            to,
            guess,
        }
    }

    /// An edge of a list.
    pub(crate) fn of(e: &'a Edge) -> Self
        ensures { result ≡ e.now }
    {
        let label = e.label();
        Told {
            from: e.from(),
            first: label.path(),
            behind: &[],
            is_open: label.is_open(),
            to: e.to(),
            guess: usize::MAX,
        }
    }

    /// The edge, with its positions copied.
    pub(super) fn edge(&self, alloc: Global) -> Result<Edge, AllocError>
        ensures { IfOk result (λ e. e ≡ self.now) }
    {
        let label = Label::from_slice(alloc, self.first, self.is_open && self.behind.is_empty())?;
        if self.behind.is_empty() {
            return Ok(Edge::new(self.from, label, self.to));
        }
        let behind = Label::from_slice(alloc, self.behind, self.is_open)?;
        let label = label.followed_by(alloc, &behind)?;
        Ok(Edge::new(self.from, label, self.to))
    }

    /// The edge, if its positions lie in the label itself: at most 8.
    pub(super) fn short_edge(&self, alloc: Global) -> Option<Edge>
        ensures value { IfSome result (λ e. e ≡ self.now) }
        ensures short { length self.now.label.path ≤ 8 → IsSome result }
    {
        let mut room = [0; 8];
        let count = self.depth();
        if count > room.len() {
            return None;
        }
        for place in 0..count {
            room[place] = self.position(place)?;
        }
        let label = Label::from_slice(alloc, &room[..count], self.is_open).ok()?;
        Some(Edge::new(self.from, label, self.to))
    }

    /// The node that it leads out of.
    pub(crate) fn from(&self) -> Node
        ensures { result ≡ self.now.from }
    {
        self.from
    }

    /// The node that it leads to.
    pub(crate) fn to(&self) -> Node
        ensures { result ≡ self.now.to }
    {
        self.to
    }

    /// The place where it is likely to be in a list.
    pub(super) fn guess(&self) -> usize {
        self.guess
    }

    /// How many positions its label has.
    pub(crate) fn depth(&self) -> usize
        ensures { result ≡ length self.now.label.path }
    {
        self.first.len() + self.behind.len()
    }

    /// The position of its label at a place, if there are so many.
    fn position(&self, place: usize) -> Option<u8>
        ensures { result ≡ slice_get self.now.label.path place }
    {
        if place < self.first.len() {
            return self.first.get(place).copied();
        }
        self.behind.get(place - self.first.len()).copied()
    }

    /// Whether both have the same position at a place.
    fn agrees_at(&self, other: &Told<'_>, place: usize) -> bool
        ensures { result ≡ same_position (slice_get self.now.label.path place) (slice_get other.now.label.path place) }
    {
        match (self.position(place), other.position(place)) {
            (Some(own), Some(its)) => own == its,
            (_, _) => false,
        }
    }

    /// Whether its positions begin those of another one.
    fn begins(&self, other: &Told<'_>) -> bool
        ensures { result ≡ begins self.now.label.path other.now.label.path }
    {
        for place in 0..self.depth() {
            if !self.agrees_at(other, place) {
                return false;
            }
        }
        true
    }

    /// Whether it leads between the same nodes as another one.
    fn is_beside(&self, other: &Told<'_>) -> bool
        ensures { result ≡ is_beside self.now other.now }
    {
        is_same(self.from, other.from) && is_same(self.to, other.to)
    }

    /// Whether both have the same label.
    #[tactic(auto, using(crate::proofs::Told::same_by_begins))]
    fn has_label_of(&self, other: &Told<'_>) -> bool
        ensures { result ≡ same_label self.now.label other.now.label }
    {
        other.begins(self) && self.depth() == other.depth() && self.is_open == other.is_open
    }

    /// Whether both are one edge.
    pub(crate) fn is_same(&self, other: &Told<'_>) -> bool
        ensures { result ≡ same_edge self.now other.now }
    {
        is_same(self.from, other.from) && self.has_label_of(other) && is_same(self.to, other.to)
    }

    /// Whether the other one leads between the same nodes by a label above its own.
    #[tactic(auto, using(crate::proofs::Told::not_beside, crate::proofs::Told::not_begun, crate::proofs::Told::below_open, crate::proofs::Told::open_not_below, crate::proofs::Told::below_exact))]
    pub(crate) fn is_below(&self, other: &Told<'_>) -> bool
        ensures { result ≡ edge_leq self.now other.now }
    {
        if !self.is_beside(other) {
            return false;
        }
        if !other.begins(self) {
            return false;
        }
        if other.is_open {
            return true;
        }
        if self.is_open {
            return false;
        }
        self.depth() == other.depth()
    }
}
