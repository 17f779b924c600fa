// What types and nodes are, and which nodes the references among types have.
ghost use Rattle.std.specs.Prelude.{◌≡◌, ◌+◌, ◌≤◌, ◌^◌, ◌++◌, ◌∷◌, [], length, slice_get, IfOk, OnOk, if◌then◌else◌};
ghost use Rattle.std.specs.List.{list_any};
ghost use Rattle.mv_move_types.specs.declared.borrow.Node.TheVariants.{Glob};
ghost use Rattle.mv_certificate_rules.specs.BorrowRules.{is_mutable_token, is_reference_token, is_root_node, is_temp, no_edge_out, reference_nodes};
ghost use Rattle.mv_borrow_graph.specs.Domain.{is_picked};

use mv_move_types::{Node, Token};
use mv_ways::{All, Borrows, One};
use std::alloc::{AllocError, Global};

/// Whether a type is a mutable reference.
pub fn is_mutable_reference(token: Token) -> bool
    ensures { result ≡ is_mutable_token token }
{
    match token {
        Token::MutableReference(_) => true,
        Token::Plain(_) | Token::Reference(_) => false,
    }
}

/// Whether one of these types is a mutable reference.
pub fn has_mutable(types: &[Token]) -> bool
    ensures { result ≡ list_any is_mutable_token types.now }
{
    types.iter().any(|token| is_mutable_reference(*token))
}

/// Whether a type is a reference.
pub fn is_reference(token: Token) -> bool
    ensures { result ≡ is_reference_token token }
{
    match token {
        Token::Reference(_) | Token::MutableReference(_) => true,
        Token::Plain(_) => false,
    }
}

/// The type at an index of a list, if it is there.
pub fn token_at(types: &[Token], index: usize) -> Option<Token>
    ensures { result ≡ slice_get types.now index }
{
    types.get(index).copied()
}

/// The type at an index of two lists, one after the other, if it is there.
pub fn among(first: &[Token], second: &[Token], index: usize) -> Option<Token>
    ensures { result ≡ slice_get (first.now ++ second.now) index }
{
    match index.checked_sub(first.len()) {
        None => token_at(first, index),
        Some(beyond) => token_at(second, beyond),
    }
}

/// Whether a node is an operand.
pub fn is_operand(node: Node) -> bool
    ensures { result ≡ is_temp node }
{
    match node {
        Node::Temp(_) => true,
        Node::Slot(_) | Node::Own(_) | Node::Glob(_) => false,
    }
}

/// Whether a node is a local's value or a global.
pub fn is_root(node: Node) -> bool
    ensures { result ≡ is_root_node node }
{
    match node {
        Node::Own(_) | Node::Glob(_) => true,
        Node::Slot(_) | Node::Temp(_) => false,
    }
}

/// Whether no edge leads out of a node.
#[tactic(auto, using(crate::proofs::Free::free_of_one))]
pub fn is_free(node: Node, s: &Borrows<'_>) -> bool
    ensures { result ≡ no_edge_out node s.now }
{
    !s.any_between(&One(node), None, &All)
}

/// Whether a type is a reference, or a mutable one where only those are asked for.
fn is_picked(only_mutable: bool, token: Token) -> bool
    ensures { result ≡ is_picked only_mutable token }
{
    if only_mutable {
        is_mutable_reference(token)
    } else {
        is_reference(token)
    }
}

/// Adds a node at the end, if it is picked.
fn push_if(nodes: &mut Vec<Node>, picked: bool, node: Node) -> Result<(), AllocError>
    ensures { OnOk result (nodes.new.items ≡ nodes.old.items ++ (if picked then node ∷ [] else [])) }
{
    if picked {
        nodes.push(node)?;
    }
    Ok(())
}

/// The nodes of the references among these types, which stand on the stack from a place on: of all, or of the mutable
/// ones alone.
pub fn nodes_of(
    alloc: Global,
    only_mutable: bool,
    place: usize,
    tokens: &[Token],
) -> Result<Vec<Node>, AllocError>
    requires { place + length tokens.now ≤ 2 ^ 16 }
    ensures { IfOk result (λ nodes. nodes.items ≡ reference_nodes (is_picked only_mutable) place tokens.now) }
{
    let mut nodes = Vec::new(alloc);
    for (i, token) in tokens.iter().enumerate() {
        let node = Node::Temp((place + i) as u16);
        push_if(&mut nodes, is_picked(only_mutable, *token), node)?;
    }
    Ok(nodes)
}
