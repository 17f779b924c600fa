// Where an instruction stands in its function, and what it does to the edges.
ghost use Rattle.std.specs.Prelude.{◌≡◌, ◌-◌, List, [], length, reverse, slice_get, Some, None, is_some, IfOk, IsErr, IsErrOf, IsSome, IsTrue, OnOk};
ghost use Rattle.mv_move_types.specs.declared.borrow.Node.TheVariants.{Temp};
ghost use Rattle.mv_move_types.specs.Module.{local_type as type_of_local};
ghost use Rattle.mv_type_rules.specs.TypesHold.{Point};
ghost use Rattle.mv_edges.specs.Edges.{Edge as EdgeRecord};
ghost use Rattle.mv_edges.specs.Ascending.{are_ascending};
ghost use Rattle.mv_certificate_rules.specs.BorrowRules.{edges_after, is_mutable, next_temp, top_temp, no_mutable_from};
ghost use Rattle.mv_borrow_graph.specs.Domain.{ordered, places_reference, LeavesEdges};

use crate::nodes::{among, is_free, is_mutable_reference, token_at};
use mv_binary_format::FunctionDefinition;
use mv_bound_rules::Bounded;
use mv_lattice::StepError;
use mv_move_types::{Instruction, Node, Token};
use mv_ways::{All, Borrows, Graph, NodeSet, One};
use std::alloc::{AllocError, Global};
use std::marker::Model;

/// Whether an instruction leaves all edges as they are wherever it stands, and needs nothing of them.
#[tactic(auto, unfolding(mv_certificate_rules::specs::BorrowRules::edges_after))]
pub fn leaves_edges(instruction: &Instruction) -> bool
    ensures { IsTrue result → (p : Point) (s : List EdgeRecord) → edges_after p instruction.now s ≡ Some s }
{
    match instruction {
        Instruction::Pop
        | Instruction::Ret
        | Instruction::Call(_)
        | Instruction::CopyLoc(_)
        | Instruction::MoveLoc(_)
        | Instruction::StLoc(_)
        | Instruction::MutBorrowLoc(_)
        | Instruction::ImmBorrowLoc(_)
        | Instruction::MutBorrowField(_)
        | Instruction::ImmBorrowField(_)
        | Instruction::ReadRef
        | Instruction::WriteRef
        | Instruction::FreezeRef
        | Instruction::MutBorrowGlobal(_)
        | Instruction::ImmBorrowGlobal(_)
        | Instruction::MoveFrom(_)
        | Instruction::MoveTo(_) => false,
        _ => true,
    }
}

/// A function of a module, and the types of its locals: of its parameters, and of the others.
#[derive(Drop)]
pub struct Scope<'d, 'm> {
    pub module: &'d Bounded<'m>,
    pub function: &'d FunctionDefinition<'m>,
    pub parameters: &'d [Token],
    pub others: &'d [Token],
}

/// An instruction's place in a function, by the types on the stack before it, the last of them topmost.
#[derive(Drop)]
pub struct Site<'d, 'm> {
    pub scope: &'d Scope<'d, 'm>,
    pub stack: &'d [Token],
}

impl<'d, 'm> Model for Site<'d, 'm> {
    ghost use Rattle.std.specs.Prelude.{◌≡◌, ◌≤◌, ◌++◌, Some, length, reverse};
    ghost use Rattle.mv_move_types.specs.Module.{local_tokens};
    ghost use Rattle.mv_type_rules.specs.TypesHold.{Point, point_at};

    ghost Value = { Point };

    ghost view = { λ s. point_at s.scope.now.module.now s.scope.now.function.now (reverse s.stack.now) };

    ghost invariant = { λ s. (local_tokens s.scope.now.module.now s.scope.now.function.now ≡ Some (s.scope.now.parameters.now ++ s.scope.now.others.now))
        × (length s.stack.now ≤ 128) };
}

/// The nodes that are mutable references where an instruction stands.
#[derive(Drop)]
pub struct MutableAt<'s, 'd, 'm> {
    pub site: &'s Site<'d, 'm>,
}

impl<'s, 'd, 'm> Model for MutableAt<'s, 'd, 'm> {
    ghost use Rattle.mv_type_rules.specs.TypesHold.{Point};

    ghost Value = { Point };

    ghost view = { λ m. m.site.now };
}

impl<'s, 'd, 'm> NodeSet for MutableAt<'s, 'd, 'm> {
    ghost use Rattle.mv_certificate_rules.specs.BorrowRules.{is_mutable};

    ghost test = { λ p n. is_mutable p n };

    fn has(&self, node: Node) -> bool {
        self.site.is_mutable(node)
    }
}

impl<'d, 'm> Site<'d, 'm> {
    /// The type of a local, if it is there.
    pub fn local(&self, local: u16) -> Option<Token>
        ensures { result ≡ type_of_local self.now.home self.now.function local }
    {
        among(self.scope.parameters, self.scope.others, usize::from(local))
    }

    /// The type of an operand by its place from the bottom, if it is there.
    fn operand(&self, place: u16) -> Option<Token>
        ensures { result ≡ slice_get (reverse self.now.types) place }
    {
        token_at(self.stack, usize::from(place))
    }

    /// Whether the type of a node is a mutable reference.
    pub fn is_mutable(&self, node: Node) -> bool
        ensures { result ≡ is_mutable self.now node }
    {
        let token = match node {
            Node::Slot(local) => self.local(local),
            Node::Temp(place) => self.operand(place),
            Node::Own(_) | Node::Glob(_) => None,
        };
        match token {
            Some(token) => is_mutable_reference(token),
            None => false,
        }
    }

    /// The node of the next operand.
    pub fn next(&self) -> Node
        ensures { result ≡ next_temp self.now }
    {
        Node::Temp(self.stack.len() as u16)
    }

    /// The node of the topmost operand.
    pub fn top(&self) -> Node
        ensures { result ≡ top_temp self.now }
    {
        Node::Temp(self.stack.len().saturating_sub(1) as u16)
    }

    /// The node of the operand below the topmost.
    fn second(&self) -> Node
        ensures { result ≡ Temp (length self.now.types - 2) }
    {
        Node::Temp(self.stack.len().saturating_sub(2) as u16)
    }

    /// Whether no edge leads from a node to a mutable reference, so that what it stands for may be read.
    pub fn is_readable(&self, node: Node, s: &Borrows<'_>) -> bool
        ensures { result ≡ no_mutable_from self.now node s.now }
    {
        !s.any_between(&One(node), None, &MutableAt { site: self })
    }

    /// Whether an instruction here needs nothing and leaves no edges, where there are none.
    #[tactic(auto, unfolding(mv_certificate_rules::specs::BorrowRules::edges_after))]
    #[inline(always)]
    pub fn leaves_none(&self, instruction: &Instruction) -> bool
        ensures { IsTrue result → edges_after self.now instruction.now [] ≡ Some [] }
    {
        match instruction {
            Instruction::WriteRef
            | Instruction::Ret
            | Instruction::ReadRef
            | Instruction::Pop
            | Instruction::FreezeRef
            | Instruction::MoveFrom(_)
            | Instruction::MoveTo(_) => true,
            Instruction::CopyLoc(local) => self.copy_leaves_none(*local),
            Instruction::MoveLoc(local) | Instruction::StLoc(local) => {
                self.move_leaves_none(*local)
            }
            Instruction::MutBorrowField(field) | Instruction::ImmBorrowField(field) => {
                self.field_leaves_none(*field)
            }
            Instruction::Call(callee) => self.call_leaves_none(*callee),
            _ => false,
        }
    }

    /// Whether an instruction here finds what it needs.
    #[tactic(auto, using(crate::proofs::Rows::met_if), unfolding(mv_certificate_rules::specs::BorrowRules::edges_after))]
    fn is_met(&self, instruction: &Instruction, s: &Borrows<'_>) -> bool
        ensures { result ≡ is_some (edges_after self.now instruction.now s.now) }
    {
        match instruction {
            Instruction::Ret => self.may_return(s),
            Instruction::Call(callee) => self.may_call(*callee, s),
            Instruction::CopyLoc(local) => self.may_copy(*local, s),
            Instruction::MoveLoc(local) | Instruction::StLoc(local) => self.may_move(*local, s),
            Instruction::MutBorrowLoc(local) => is_free(Node::Own(*local), s),
            Instruction::ImmBorrowLoc(local) => self.is_readable(Node::Own(*local), s),
            Instruction::MutBorrowField(field) => self.is_field_free(*field, &All, s),
            Instruction::ImmBorrowField(field) => {
                self.is_field_free(*field, &MutableAt { site: self }, s)
            }
            Instruction::ReadRef | Instruction::FreezeRef => self.is_readable(self.top(), s),
            Instruction::WriteRef => is_free(self.top(), s),
            Instruction::MutBorrowGlobal(definition) | Instruction::MoveFrom(definition) => {
                is_free(Node::Glob(*definition), s)
            }
            Instruction::ImmBorrowGlobal(definition) => {
                self.is_readable(Node::Glob(*definition), s)
            }
            _ => true,
        }
    }

    /// Whether an instruction here leaves the edges as they are, if it finds what it needs.
    #[tactic(auto, using(crate::proofs::Rows::kept_if), unfolding(mv_certificate_rules::specs::BorrowRules::edges_after))]
    fn leaves(&self, instruction: &Instruction) -> bool
        ensures { IsTrue result → LeavesEdges self.now instruction.now }
    {
        match instruction {
            Instruction::Ret | Instruction::MoveFrom(_) => true,
            Instruction::CopyLoc(local) | Instruction::MoveLoc(local) | Instruction::StLoc(local) =>
                self.is_value(*local),
            _ => false,
        }
    }

    /// Changes the edges as an instruction here does that finds what it needs.
    ///
    /// # Errors
    /// An allocation failed; an instruction that doesn't put a reference where none stood allocates nothing. Nothing is known of the
    /// edges afterwards.
    #[tactic(auto, using(crate::proofs::Rows::kept_order, crate::proofs::Rows::left_if, crate::proofs::Rows::ok_if), unfolding(mv_certificate_rules::specs::BorrowRules::edges_after))]
    fn change(
        &self,
        alloc: Global,
        instruction: Instruction,
        s: &mut Graph,
    ) -> Result<(), AllocError>
        requires ascending { IsTrue (are_ascending s.old) }
        requires met { IsSome (edges_after self.now instruction s.old) }
        ensures after { OnOk result (ordered (edges_after self.now instruction s.old) ≡ Some s.new) }
        ensures memory { IsErr result → IsTrue (places_reference self.now.home self.now.function instruction) }
    {
        match instruction {
            Instruction::Call(callee) => return self.call(alloc, callee, s),
            Instruction::CopyLoc(local) => return self.copy_local(local, s),
            Instruction::MutBorrowLoc(local) | Instruction::ImmBorrowLoc(local) => {
                return s.lend(Node::Own(local), self.next());
            }
            Instruction::MutBorrowField(field) | Instruction::ImmBorrowField(field) => {
                return self.borrow_field(alloc, field, s);
            }
            Instruction::MutBorrowGlobal(definition) | Instruction::ImmBorrowGlobal(definition) => {
                return s.lend(Node::Glob(definition), self.top());
            }
            Instruction::MoveLoc(local) => self.move_local(local, s),
            Instruction::StLoc(local) => self.store_local(local, s),
            Instruction::Pop | Instruction::ReadRef | Instruction::WriteRef => {
                s.remove_at(self.top());
            }
            Instruction::FreezeRef => s.remove_out_of(self.top()),
            Instruction::MoveTo(_) => s.remove_at(self.second()),
            _ => {}
        }
        Ok(())
    }

    /// What an instruction here makes of the edges. Only one that changes them makes a graph of a list, which then goes on from step
    /// to step.
    ///
    /// # Errors
    /// `Need` if a need of the instruction fails; otherwise `Memory` if an allocation failed.
    #[tactic(auto, using(crate::proofs::Rows::ordered_met))]
    pub fn step<'s>(
        &self,
        alloc: Global,
        instruction: &Instruction,
        s: Borrows<'s>,
    ) -> Result<Borrows<'s>, StepError>
        requires { IsTrue (are_ascending s) }
        ensures ok { IfOk result (λ t. ordered (edges_after self.now instruction.now s.entry) ≡ Some t) }
        ensures need { IsErrOf result StepError.Need → ordered (edges_after self.now instruction.now s.entry) ≡ None }
        ensures meets { IsErrOf result StepError.Memory → IsSome (ordered (edges_after self.now instruction.now s.entry)) }
    {
        if !self.is_met(instruction, &s) {
            return Err(StepError::Need);
        }
        if self.leaves(instruction) {
            return Ok(s);
        }
        let mut graph = s.grown(alloc)?;
        self.change(alloc, *instruction, &mut graph)?;
        Ok(Borrows::of_graph(graph))
    }
}
