// Calls and returns.
ghost use Rattle.std.specs.Prelude.{◌≡◌, ℕ, List, ◌+◌, ◌++◌, ◌∷◌, [], ◌≤◌, ◌^◌, ◌&&◌, ◌||◌, ◌-◌, length, slice_get, option_map, Some, None, is_some, IfOk, IfNone, IfSome, IsSome, OnOk, IsTrue};
ghost use Rattle.std.specs.List.{list_any};
ghost use Rattle.mv_move_types.specs.Limits.{most_operands, most_types};
ghost use Rattle.mv_move_types.specs.declared.borrow.Node.{Node as NodeRecord};
ghost use Rattle.mv_edges.specs.Edges.{Edge as EdgeRecord};
ghost use Rattle.mv_edges.specs.Sorted.{sorted};
ghost use Rattle.mv_ways.specs.Graph.{taken_over};
ghost use Rattle.mv_certificate_rules.specs.BorrowRules.{call_edges, is_mutable, is_mutable_token, is_root_node, is_temp, reference_nodes, result_edges, return_edges};
ghost use Rattle.mv_borrow_graph.specs.Calls.{call_after, tied_edges};
ghost use Rattle.mv_borrow_graph.specs.Domain.{ordered};

use crate::needed::are_free;
use crate::nodes::{has_mutable, is_operand, is_root, nodes_of};
use crate::site::Site;
use mv_move_types::{FunctionHandle, Node, Token};
use mv_ways::{Borrows, Graph, NodeSet, Reborrow};
use std::alloc::{AllocError, Global};
use std::marker::Model;

/// Adds the result at a place, if its type is a reference: a mutable one reborrows from the mutable arguments, any other from all.
fn push_reborrow<'a>(
    reborrows: &mut Vec<Reborrow<'a>>,
    mutable: &'a [Node],
    all: &'a [Node],
    place: u16,
    token: Token,
) -> Result<(), AllocError>
    ensures { OnOk result ((es : List EdgeRecord) → taken_over reborrows.new.items es
        ≡ taken_over reborrows.old.items es ++ result_edges mutable.now all.now place (token ∷ []) es) }
{
    let givers = match token {
        Token::Plain(_) => return Ok(()),
        Token::Reference(_) => all,
        Token::MutableReference(_) => mutable,
    };
    reborrows.push(Reborrow::new(Node::Temp(place), givers))?;
    Ok(())
}

/// The results of a call that take over what leads into its arguments. The first result stands at a place.
fn reborrows_of<'a>(
    alloc: Global,
    mutable: &'a [Node],
    all: &'a [Node],
    place: usize,
    results: &[Token],
) -> Result<Vec<Reborrow<'a>>, AllocError>
    requires { place + length results.now ≤ 2 ^ 16 }
    ensures { IfOk result (λ reborrows. (es : List EdgeRecord) → taken_over reborrows.items es ≡ result_edges mutable.now all.now place results.now es) }
{
    let mut reborrows = Vec::new(alloc);
    for (i, token) in results.iter().enumerate() {
        push_reborrow(&mut reborrows, mutable, all, (place + i) as u16, *token)?;
    }
    Ok(reborrows)
}

/// A call: the place of its first argument on the stack, and the types of its arguments and results.
#[derive(Drop)]
struct Call<'a> {
    place: usize,
    parameters: &'a [Token],
    results: &'a [Token],
}

/// The nodes of the mutable arguments, or none where no result is a mutable reference, which alone takes over from them.
fn givers_of(alloc: Global, call: &Call<'_>) -> Result<Vec<Node>, AllocError>
    requires { call.now.place + length call.now.parameters.now ≤ 2 ^ 16 }
    ensures { IfOk result (λ nodes. let mutable = reference_nodes is_mutable_token call.now.place call.now.parameters.now in
        (all : List NodeRecord) (k : ℕ) (es : List EdgeRecord) → result_edges nodes.items all k call.now.results.now es ≡ result_edges mutable all k call.now.results.now es) }
{
    if has_mutable(call.results) {
        nodes_of(alloc, true, call.place, call.parameters)
    } else {
        Ok(Vec::new(alloc))
    }
}

/// Ties a call's results to its arguments, which are taken.
fn tie(alloc: Global, call: &Call<'_>, s: &mut Graph) -> Result<(), AllocError>
    requires taken { call.now.place + length call.now.parameters.now ≤ 2 ^ 16 }
    requires given { call.now.place + length call.now.results.now ≤ 2 ^ 16 }
    ensures { OnOk result (s.new ≡ sorted (tied_edges call.now.place call.now.parameters.now call.now.results.now s.old)) }
{
    let mutable = givers_of(alloc, call)?;
    let all = nodes_of(alloc, false, call.place, call.parameters)?;
    let reborrows = reborrows_of(alloc, &mutable, &all, call.place, call.results)?;
    s.tie(alloc, &all, &reborrows)
}

/// The operands.
#[derive(Drop)]
struct Operands;

impl NodeSet for Operands {
    ghost use Rattle.mv_certificate_rules.specs.BorrowRules.{is_temp};

    ghost test = { λ s n. is_temp n };

    fn has(&self, node: Node) -> bool {
        is_operand(node)
    }
}

/// The nodes out of which no edge may lead to a result: what the frame and the storage hold, and mutable results.
#[derive(Drop)]
struct HoldingAt<'s, 'd, 'm> {
    site: &'s Site<'d, 'm>,
}

impl<'s, 'd, 'm> Model for HoldingAt<'s, 'd, 'm> {
    ghost use Rattle.mv_type_rules.specs.TypesHold.{Point};

    ghost Value = { Point };

    ghost view = { λ m. m.site.now };
}

impl<'s, 'd, 'm> NodeSet for HoldingAt<'s, 'd, 'm> {
    ghost use Rattle.std.specs.Prelude.{◌||◌, ◌&&◌};
    ghost use Rattle.mv_certificate_rules.specs.BorrowRules.{is_mutable, is_root_node, is_temp};

    ghost test = { λ p n. is_root_node n || is_temp n && is_mutable p n };

    fn has(&self, node: Node) -> bool {
        is_root(node) || is_operand(node) && self.site.is_mutable(node)
    }
}

impl<'d, 'm> Site<'d, 'm> {
    /// A function handle, if it is there.
    fn function_handle(&self, callee: u16) -> Option<FunctionHandle>
        ensures { result ≡ slice_get self.now.home.function_handles callee }
    {
        let module = self.scope.module.module();
        module.function_handles().get(usize::from(callee)).copied()
    }

    /// The types of a signature, at most 64, if it is there.
    fn signature(&self, index: u16) -> Option<&[Token]>
        ensures value { option_map (λ tokens. tokens.now) result ≡ slice_get self.now.home.signatures index }
        ensures short { IfSome result (λ tokens. length tokens.now ≤ most_types) }
    {
        self.scope.module.module().signature(usize::from(index))
    }

    /// The place of the first of the topmost operands, by how many they are.
    fn first_of(&self, count: usize) -> usize
        ensures value { result ≡ length self.now.types - count }
        ensures low { result ≤ most_operands }
    {
        self.stack.len().saturating_sub(count)
    }

    /// The call of a function, if its handle and its signatures are there.
    #[tactic(auto, using(crate::proofs::Rows::called))]
    fn call_of(&self, callee: u16) -> Option<Call<'_>>
        ensures edges { IfSome result (λ c. (s : List EdgeRecord) → call_edges self.now callee s ≡ call_after self.now callee c.place c.parameters.now c.results.now s) }
        ensures none { IfNone result ((s : List EdgeRecord) → call_edges self.now callee s ≡ None) }
        ensures taken { IfSome result (λ c. c.place + length c.parameters.now ≤ 2 ^ 16) }
        ensures given { IfSome result (λ c. c.place + length c.results.now ≤ 2 ^ 16) }
    {
        let handle = self.function_handle(callee)?;
        let parameters = self.signature(handle.parameters)?;
        let results = self.signature(handle.results)?;
        Some(Call {
            place: self.first_of(parameters.len()),
            parameters,
            results,
        })
    }

    /// Whether a function may be called: its mutable arguments and the globals that it acquires have to be free.
    #[tactic(auto, using(crate::proofs::Rows::met_if))]
    pub fn may_call(&self, callee: u16, s: &Borrows<'_>) -> bool
        ensures { result ≡ is_some (call_edges self.now callee s.now) }
    {
        match self.call_of(callee) {
            Some(call) => {
                let acquired = self.scope.module.own_acquires(callee);
                are_free(call.place, call.parameters, acquired, s)
            }
            None => false,
        }
    }

    /// Calls a function.
    #[tactic(auto, using(crate::proofs::Rows::ok_if))]
    pub fn call(&self, alloc: Global, callee: u16, s: &mut Graph) -> Result<(), AllocError>
        requires { IsSome (call_edges self.now callee s.old) }
        ensures { OnOk result (ordered (call_edges self.now callee s.old) ≡ Some s.new) }
    {
        match self.call_of(callee) {
            Some(call) => tie(alloc, &call, s),
            None => Ok(()),
        }
    }

    /// Whether a call needs nothing and leaves no edges where there are none: the function's handle and its signatures are there.
    pub fn call_leaves_none(&self, callee: u16) -> bool
        ensures { IsTrue result → call_edges self.now callee [] ≡ Some [] }
    {
        self.call_of(callee).is_some()
    }

    /// Whether an edge keeps a result from being handed out: it leads to it from what the frame or the storage holds, or
    /// from a mutable result.
    #[tactic(auto, using(crate::proofs::Between::to_results))]
    fn any_holds_result(&self, s: &Borrows<'_>) -> bool
        ensures { result ≡ list_any (λ e. is_temp e.to && (is_root_node e.from || is_temp e.from && is_mutable self.now e.from)) s.now }
    {
        s.any_between(&HoldingAt { site: self }, None, &Operands)
    }

    /// Whether the results may be handed out: nothing of the frame leads into one.
    #[tactic(auto, using(crate::proofs::Rows::met_if))]
    pub fn may_return(&self, s: &Borrows<'_>) -> bool
        ensures { result ≡ is_some (return_edges self.now s.now) }
    {
        !self.any_holds_result(s)
    }
}
