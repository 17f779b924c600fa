// Locals: copied, moved and stored.
ghost use Rattle.std.specs.Prelude.{◌≡◌, [], Some, is_some, IsErr, IsSome, OnOk, IsTrue};
ghost use Rattle.mv_edges.specs.Ascending.{are_ascending};
ghost use Rattle.mv_certificate_rules.specs.BorrowRules.{edges_after};
ghost use Rattle.mv_borrow_graph.specs.Domain.{ordered, places_reference, LeavesEdges};

use crate::nodes::{is_free, is_mutable_reference};
use crate::site::Site;
use mv_move_types::{Instruction, Node, Token};
use mv_ways::{Borrows, Graph};
use std::alloc::AllocError;

impl<'d, 'm> Site<'d, 'm> {
    /// Whether a local may be copied: from a value no edge may lead to a mutable reference, and out of a mutable reference none.
    #[tactic(auto, using(crate::proofs::Rows::met_if), unfolding(mv_certificate_rules::specs::BorrowRules::edges_after))]
    pub fn may_copy(&self, local: u16, s: &Borrows<'_>) -> bool
        ensures { result ≡ is_some (edges_after self.now (Instruction.CopyLoc local) s.now) }
    {
        match self.local(local) {
            Some(Token::Plain(_)) => self.is_readable(Node::Own(local), s),
            Some(Token::Reference(_)) => true,
            Some(Token::MutableReference(_)) => is_free(Node::Slot(local), s),
            None => false,
        }
    }

    /// Whether a local may be moved, or stored into: if it is a value, no edge may lead out of it.
    #[tactic(auto, using(crate::proofs::Rows::met_if), unfolding(mv_certificate_rules::specs::BorrowRules::edges_after))]
    pub fn may_move(&self, local: u16, s: &Borrows<'_>) -> bool
        ensures moved { result ≡ is_some (edges_after self.now (Instruction.MoveLoc local) s.now) }
        ensures stored { result ≡ is_some (edges_after self.now (Instruction.StLoc local) s.now) }
    {
        match self.local(local) {
            Some(Token::Plain(_)) => is_free(Node::Own(local), s),
            Some(Token::Reference(_) | Token::MutableReference(_)) => true,
            None => false,
        }
    }

    /// Whether a local is a value, so that its copy, its move and its store leave the edges as they are, if they may be.
    #[tactic(auto, using(crate::proofs::Rows::kept_if), unfolding(mv_certificate_rules::specs::BorrowRules::edges_after))]
    pub fn is_value(&self, local: u16) -> bool
        ensures copied { IsTrue result → LeavesEdges self.now (Instruction.CopyLoc local) }
        ensures moved { IsTrue result → LeavesEdges self.now (Instruction.MoveLoc local) }
        ensures stored { IsTrue result → LeavesEdges self.now (Instruction.StLoc local) }
    {
        matches!(self.local(local), Some(Token::Plain(_)))
    }

    /// Copies a local: the new reference has the edges of its original, and a mutable one is also its child. A value takes no
    /// memory.
    #[tactic(auto, using(crate::proofs::Rows::kept_order, crate::proofs::Rows::left_if), unfolding(mv_certificate_rules::specs::BorrowRules::edges_after))]
    pub fn copy_local(&self, local: u16, s: &mut Graph) -> Result<(), AllocError>
        requires ascending { IsTrue (are_ascending s.old) }
        requires met { IsSome (edges_after self.now (Instruction.CopyLoc local) s.old) }
        ensures after { OnOk result (ordered (edges_after self.now (Instruction.CopyLoc local) s.old) ≡ Some s.new) }
        ensures memory { IsErr result → IsTrue (places_reference self.now.home self.now.function (Instruction.CopyLoc local)) }
    {
        let slot = Node::Slot(local);
        let next = self.next();
        match self.local(local) {
            Some(Token::Reference(_)) => s.share(slot, next),
            Some(Token::MutableReference(_)) => {
                s.share(slot, next)?;
                s.lend(slot, next)
            }
            _ => Ok(()),
        }
    }

    /// Whether the copy of a local leaves no edges where there are none: it is there, and isn't a mutable reference.
    #[tactic(auto, unfolding(mv_certificate_rules::specs::BorrowRules::edges_after))]
    pub fn copy_leaves_none(&self, local: u16) -> bool
        ensures { IsTrue result → edges_after self.now (Instruction.CopyLoc local) [] ≡ Some [] }
    {
        match self.local(local) {
            Some(token) => !is_mutable_reference(token),
            None => false,
        }
    }

    /// Whether a local's move and its store leave no edges where there are none: it is there.
    #[tactic(auto, unfolding(mv_certificate_rules::specs::BorrowRules::edges_after))]
    pub fn move_leaves_none(&self, local: u16) -> bool
        ensures moved { IsTrue result → edges_after self.now (Instruction.MoveLoc local) [] ≡ Some [] }
        ensures stored { IsTrue result → edges_after self.now (Instruction.StLoc local) [] ≡ Some [] }
    {
        self.local(local).is_some()
    }

    /// Moves a local: a reference takes its edges along.
    #[tactic(auto, using(crate::proofs::Rows::kept_order, crate::proofs::Rows::left_if), unfolding(mv_certificate_rules::specs::BorrowRules::edges_after))]
    pub fn move_local(&self, local: u16, s: &mut Graph)
        requires ascending { IsTrue (are_ascending s.old) }
        requires met { IsSome (edges_after self.now (Instruction.MoveLoc local) s.old) }
        ensures { ordered (edges_after self.now (Instruction.MoveLoc local) s.old) ≡ Some s.new }
    {
        if let Some(Token::Reference(_) | Token::MutableReference(_)) = self.local(local) {
            s.rename(Node::Slot(local), self.next());
        }
    }

    /// Stores into a local: a reference takes its edges along.
    #[tactic(auto, using(crate::proofs::Rows::kept_order, crate::proofs::Rows::left_if), unfolding(mv_certificate_rules::specs::BorrowRules::edges_after))]
    pub fn store_local(&self, local: u16, s: &mut Graph)
        requires ascending { IsTrue (are_ascending s.old) }
        requires met { IsSome (edges_after self.now (Instruction.StLoc local) s.old) }
        ensures { ordered (edges_after self.now (Instruction.StLoc local) s.old) ≡ Some s.new }
    {
        if let Some(Token::Reference(_) | Token::MutableReference(_)) = self.local(local) {
            s.remove_at(Node::Slot(local));
            s.rename(self.top(), Node::Slot(local));
        }
    }
}
