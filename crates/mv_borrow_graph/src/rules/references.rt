// References: to fields.
ghost use Rattle.std.specs.Prelude.{◌≡◌, [], not, false, slice_get, Some, IsSome, IsTrue, OnOk};
ghost use Rattle.std.specs.Option.{option_map_or};
ghost use Rattle.mv_edges.specs.Edges.{same_node};
ghost use Rattle.mv_ways.specs.Between.{any_between};
ghost use Rattle.mv_certificate_rules.specs.BorrowRules.{edges_after, position_of, top_temp};
ghost use Rattle.mv_borrow_graph.specs.Domain.{ordered};

use crate::site::Site;
use mv_move_types::{FieldHandle, Instruction};
use mv_ways::{Borrows, Graph, NodeSet, One};
use std::alloc::{AllocError, Global};

impl<'d, 'm> Site<'d, 'm> {
    /// A field handle, if it is there.
    fn field_handle(&self, field: u16) -> Option<FieldHandle>
        ensures { result ≡ slice_get self.now.home.field_handles field }
    {
        let module = self.scope.module.module();
        module.field_handles().get(usize::from(field)).copied()
    }

    /// Whether the borrow of a field leaves no edges where there are none: the field's handle is there.
    #[tactic(auto, unfolding(mv_certificate_rules::specs::BorrowRules::edges_after))]
    pub fn field_leaves_none(&self, field: u16) -> bool
        ensures mutable { IsTrue result → edges_after self.now (Instruction.MutBorrowField field) [] ≡ Some [] }
        ensures immutable { IsTrue result → edges_after self.now (Instruction.ImmBorrowField field) [] ≡ Some [] }
    {
        self.field_handle(field).is_some()
    }

    /// The position that a field handle names, if it is there.
    fn position(&self, field: u16) -> Option<u8>
        ensures { result ≡ position_of self.now field }
    {
        let module = self.scope.module.module();
        // For the prover: structs have few fields, so that a position fits.
        let _structs = module.structs();
        match self.field_handle(field) {
            Some(handle) => Some(handle.position as u8),
            None => None,
        }
    }

    /// Whether a field is there, and no edge that agrees with it leads from the operand to one of these nodes.
    pub fn is_field_free<Q: NodeSet>(&self, field: u16, to: &Q, s: &Borrows<'_>) -> bool
        ensures { result ≡ option_map_or (λ f. not (any_between (λ n. same_node n (top_temp self.now)) (Some f) (Q.test to.now) s.now)) (position_of self.now field) false }
    {
        match self.position(field) {
            Some(position) => !s.any_between(&One(self.top()), Some(position), to),
            None => false,
        }
    }

    /// Borrows a field: the new reference stands where its operand stood.
    #[tactic(auto, using(crate::proofs::Rows::field_borrowed), unfolding(mv_certificate_rules::specs::BorrowRules::edges_after))]
    pub fn borrow_field(&self, alloc: Global, field: u16, s: &mut Graph) -> Result<(), AllocError>
        ensures mutable { IsSome (edges_after self.now (Instruction.MutBorrowField field) s.old)
            → OnOk result (ordered (edges_after self.now (Instruction.MutBorrowField field) s.old) ≡ Some s.new) }
        ensures immutable { IsSome (edges_after self.now (Instruction.ImmBorrowField field) s.old)
            → OnOk result (ordered (edges_after self.now (Instruction.ImmBorrowField field) s.old) ≡ Some s.new) }
    {
        match self.position(field) {
            Some(position) => s.extend(alloc, position, self.top()),
            None => Ok(()),
        }
    }
}
