// Writing the parts of a certificate.

ghost use Rattle.std.specs.Prelude.{◌≡◌, ◌++◌, ◌∷◌, [], map, flat_map, OnOk};
ghost use Rattle.mv_uleb.specs.Uleb.{uleb};
ghost use Rattle.mv_module_text.specs.Entries.{counted};
ghost use Rattle.mv_edges.specs.Ascending.{node_kind, node_index};
ghost use Rattle.mv_certificate_rules.specs.CertificateText.{availability_code, node_text, edge_text, stated_text};

use super::certificate::Known;
use mv_edges::{Edge, Edges};
use mv_move_types::{Availability, Node};
use std::alloc::AllocError;

/// An availability's byte.
fn availability_byte(a: Availability) -> u8
    ensures { result ≡ availability_code a }
{
    match a {
        Availability::Unavailable => 0,
        Availability::Available => 1,
        Availability::Maybe => 2,
    }
}

/// Writes one byte.
fn write_byte(byte: u8, out: &mut Vec<u8>) -> Result<(), AllocError>
    ensures { OnOk result (out.new.items ≡ out.old.items ++ byte ∷ []) }
{
    out.push(byte)?;
    Ok(())
}

/// Writes availabilities, one byte each.
fn write_availabilities(locals: &[Availability], out: &mut Vec<u8>) -> Result<(), AllocError>
    ensures { OnOk result (out.new.items ≡ out.old.items ++ map availability_code locals.now) }
{
    for local in locals {
        write_byte(availability_byte(*local), out)?;
    }
    Ok(())
}

/// A node's kind byte.
fn kind_byte(node: Node) -> u8
    ensures { result ≡ node_kind node }
{
    match node {
        Node::Slot(_) => 0,
        Node::Own(_) => 1,
        Node::Glob(_) => 2,
        Node::Temp(_) => 3,
    }
}

/// A node's index.
fn index_of(node: Node) -> u16
    ensures { result ≡ node_index node }
{
    match node {
        Node::Slot(index) | Node::Own(index) | Node::Glob(index) | Node::Temp(index) => index,
    }
}

/// Writes a node: its kind and its index.
fn write_node(node: Node, out: &mut Vec<u8>) -> Result<(), AllocError>
    ensures { OnOk result (out.new.items ≡ out.old.items ++ node_text node) }
{
    write_byte(kind_byte(node), out)?;
    mv_uleb::write(u64::from(index_of(node)), out)
}

/// Writes field positions after their number.
fn write_path(path: &[u8], out: &mut Vec<u8>) -> Result<(), AllocError>
    ensures { OnOk result (out.new.items ≡ out.old.items ++ counted uleb path.now) }
{
    mv_uleb::write(path.len() as u64, out)?;
    for position in path {
        mv_uleb::write(u64::from(*position), out)?;
    }
    Ok(())
}

/// Writes an edge: its nodes, its positions, and whether its label is open.
fn write_edge(e: &Edge, out: &mut Vec<u8>) -> Result<(), AllocError>
    ensures { OnOk result (out.new.items ≡ out.old.items ++ edge_text e.now) }
{
    write_node(e.from(), out)?;
    write_node(e.to(), out)?;
    write_path(e.label().path(), out)?;
    write_byte(u8::from(e.label().is_open()), out)
}

/// Writes edges after their number.
fn write_edges(edges: &Edges, out: &mut Vec<u8>) -> Result<(), AllocError>
    ensures { OnOk result (out.new.items ≡ out.old.items ++ counted edge_text edges.now) }
{
    let edges = edges.as_slice();
    mv_uleb::write(edges.len() as u64, out)?;
    for edge in edges {
        write_edge(edge, out)?;
    }
    Ok(())
}

/// Writes what is stated of a block: its mark, and what is known.
fn write_block(stated: &Option<Known>, out: &mut Vec<u8>) -> Result<(), AllocError>
    ensures { OnOk result (out.new.items ≡ out.old.items ++ stated_text stated.now) }
{
    match stated {
        None => write_byte(0, out),
        Some(known) => {
            write_byte(1, out)?;
            write_availabilities(known.locals.as_slice(), out)?;
            write_edges(&known.edges, out)
        }
    }
}

/// Writes what is stated of the blocks of a function.
pub fn write_stated(stated: &[Option<Known>], out: &mut Vec<u8>) -> Result<(), AllocError>
    ensures { OnOk result (out.new.items ≡ out.old.items ++ flat_map stated_text stated.now) }
{
    for block in stated {
        write_block(block, out)?;
    }
    Ok(())
}
