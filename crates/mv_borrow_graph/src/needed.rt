// What has to be free where a function is called: its mutable arguments, and the globals that it acquires.
ghost use Rattle.std.specs.Prelude.{◌≡◌, ◌==◌, ◌||◌, ◌&&◌, ℕ, ◌<◌, [], length, slice_get, IsTrue};
ghost use Rattle.std.specs.List.{list_all, list_any};
ghost use Rattle.mv_move_types.specs.declared.borrow.Node.TheVariants.{Glob, Temp};
ghost use Rattle.mv_edges.specs.Edges.{same_node};
ghost use Rattle.mv_certificate_rules.specs.BorrowRules.{is_mutable_token, no_edge_out, reference_nodes};
ghost use Rattle.mv_borrow_graph.specs.Calls.{AreMarks, is_marked, needed_free};

use crate::nodes::{has_mutable, is_mutable_reference};
use mv_move_types::{Node, Token};
use mv_ways::{All, Borrows, NodeSet};
use std::marker::Model;

/// How many acquired globals are looked through one by one. Where there are more, each global is looked up among marks.
const FEW_GLOBALS: usize = 4;

/// How many globals have marks. A module's 64 KB have no room for more structs; if there were one, the list would be searched for
/// it.
const MARKED_GLOBALS: usize = 8_192;

/// The nodes out of which no edge may lead where a function is called: its mutable arguments, which stand on the stack from a
/// place on, and the globals that it acquires. Marks may say which of the first globals those are.
#[derive(Drop)]
struct NeededFree<'a> {
    place: usize,
    parameters: &'a [Token],
    acquired: &'a [u16],
    marks: &'a [bool],
}

impl<'a> Model for NeededFree<'a> {
    ghost use Rattle.std.specs.Prelude.{List};
    ghost use Rattle.mv_move_types.specs.declared.borrow.Node.{Node as NodeRecord};
    ghost use Rattle.mv_borrow_graph.specs.Calls.{AreMarks, needed_free};

    ghost Value = { List NodeRecord };

    ghost view = { λ s. needed_free s.place s.parameters.now s.acquired.now };

    ghost invariant = { λ s. AreMarks s.marks.now s.acquired.now };
}

impl<'a> NodeSet for NeededFree<'a> {
    ghost use Rattle.std.specs.List.{list_any};
    ghost use Rattle.mv_edges.specs.Edges.{same_node};

    ghost test = { λ nodes n. list_any (same_node n) nodes };

    #[tactic(auto, using(crate::proofs::Free::operand_needed, crate::proofs::Free::global_needed, crate::proofs::Free::slot_not_needed, crate::proofs::Free::own_not_needed))]
    fn has(&self, node: Node) -> bool {
        match node {
            Node::Temp(place) => has_argument(self.place, self.parameters, usize::from(place)),
            Node::Glob(definition) => has_acquired(self.acquired, self.marks, definition),
            Node::Slot(_) | Node::Own(_) => false,
        }
    }
}

impl<'a> NeededFree<'a> {
    /// Whether there are none.
    #[tactic(auto, using(crate::proofs::Free::none_needed))]
    fn is_empty(&self) -> bool
        ensures { IsTrue result → self.now ≡ [] }
    {
        self.acquired.is_empty() && !has_mutable(self.parameters)
    }

    /// Whether no edge leads out of any of them.
    #[tactic(auto, using(crate::proofs::Free::free_of_none))]
    fn are_free(&self, s: &Borrows<'_>) -> bool
        ensures { result ≡ list_all (λ n. no_edge_out n s.now) self.now }
    {
        self.is_empty() || !s.any_between(self, None, &All)
    }
}

/// The type of an argument, if it is there.
fn argument(parameters: &[Token], i: usize) -> Option<Token>
    ensures { result ≡ slice_get parameters.now i }
{
    parameters.get(i).copied()
}

/// Whether a mutable argument stands at a place, where the first one stands at another.
#[tactic(auto, using(crate::proofs::Free::no_argument))]
fn has_argument(first: usize, parameters: &[Token], place: usize) -> bool
    ensures { result ≡ list_any (same_node (Temp place)) (reference_nodes is_mutable_token first parameters.now) }
{
    let Some(i) = place.checked_sub(first) else {
        return false;
    };
    match argument(parameters, i) {
        Some(token) => is_mutable_reference(token),
        None => false,
    }
}

/// Whether a global is one of those that are listed.
fn is_listed(acquired: &[u16], definition: u16) -> bool
    ensures { result ≡ list_any (λ t. definition == t) acquired.now }
{
    acquired.iter().any(|it| definition == *it)
}

/// Whether a global is one of those that are listed, by the marks as far as they go.
fn has_acquired(acquired: &[u16], marks: &[bool], definition: u16) -> bool
    requires { AreMarks marks.now acquired.now }
    ensures { result ≡ list_any (λ t. definition == t) acquired.now }
{
    let place = usize::from(definition);
    if place < marks.len() {
        marks[place]
    } else {
        is_listed(acquired, definition)
    }
}

/// Marks a global, if the marks go so far.
#[tactic(auto, using(crate::proofs::Free::marked_set, crate::proofs::Free::not_marked))]
fn mark(marks: &mut [bool], definition: u16)
    ensures count { length marks.new ≡ length marks.old }
    ensures marks { (y : ℕ) → y < length marks.old → is_marked marks.new y ≡ (is_marked marks.old y || y == definition) }
{
    let place = usize::from(definition);
    if place < marks.len() {
        marks[place] = true;
    }
}

/// Marks each of these globals, as far as the marks go.
fn mark_all(marks: &mut [bool], acquired: &[u16])
    ensures count { length marks.new ≡ length marks.old }
    ensures marks { (y : ℕ) → y < length marks.old → is_marked marks.new y ≡ (is_marked marks.old y || list_any (λ t. y == t) acquired.now) }
{
    for definition in acquired {
        mark(marks, *definition);
    }
}

/// Whether no edge leads out of the mutable ones of these arguments, or of any of many globals.
fn are_free_of_many(place: usize, parameters: &[Token], acquired: &[u16], s: &Borrows<'_>) -> bool
    ensures { result ≡ list_all (λ n. no_edge_out n s.now) (needed_free place parameters.now acquired.now) }
{
    let mut marks = [false; MARKED_GLOBALS];
    mark_all(&mut marks, acquired);
    let needed = NeededFree {
        place,
        parameters,
        acquired,
        marks: &marks,
    };
    needed.are_free(s)
}

/// The same of a few.
fn are_free_of_few(place: usize, parameters: &[Token], acquired: &[u16], s: &Borrows<'_>) -> bool
    ensures { result ≡ list_all (λ n. no_edge_out n s.now) (needed_free place parameters.now acquired.now) }
{
    let needed = NeededFree {
        place,
        parameters,
        acquired,
        marks: &[],
    };
    needed.are_free(s)
}

/// Whether no edge leads out of the mutable ones of a call's arguments, which stand on the stack from a place on, or of the globals that
/// the function acquires.
pub fn are_free(place: usize, parameters: &[Token], acquired: &[u16], s: &Borrows<'_>) -> bool
    ensures { result ≡ list_all (λ n. no_edge_out n s.now) (needed_free place parameters.now acquired.now) }
{
    if acquired.len() <= FEW_GLOBALS {
        are_free_of_few(place, parameters, acquired, s)
    } else {
        are_free_of_many(place, parameters, acquired, s)
    }
}
