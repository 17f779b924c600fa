// Borrows that go through a function step by step: as the graph that they become, and listed before each step.
ghost use Rattle.std.specs.Prelude.{◌≤◌, length};

use mv_borrow_graph::BorrowDomain;
use mv_lattice::{Domain, StepError};
use mv_ways::Borrows;
use std::alloc::Global;
use std::test::Fail;

/// A module whose function takes a struct, borrows its second field, copies the reference, and reads through both. Its code has ten
/// instructions.
const BORROWS: &str = "a11ceb0b0500000009010002020204030605050b080713130826100a36070c3d150d5202\
00000001030000040001000108000103010703014d0153056669727374067365636f6e640166000000000000000000000000000000010002020203030300000000020a\
0d000f000c010a01140b012e141602000100";

/// The edges after so many instructions.
fn stepped<'t>(
    alloc: Global,
    domain: &BorrowDomain<'t, '_>,
    count: usize,
) -> Result<Borrows<'t>, StepError>
    requires { count ≤ length domain.now.function.code }
{
    let mut edges = domain.start();
    for at in 0..count {
        edges = domain.step(alloc, edges, at)?;
    }
    Ok(edges)
}

/// The edges after so many instructions, listed before each of them.
fn listed<'t>(
    alloc: Global,
    domain: &BorrowDomain<'t, '_>,
    count: usize,
) -> Result<Borrows<'t>, StepError>
    requires { count ≤ length domain.now.function.code }
{
    let mut edges = domain.start();
    for at in 0..count {
        let list = domain.copy(alloc, &edges)?;
        edges = domain.step(alloc, list, at)?;
    }
    Ok(edges)
}

#[test]
fn graphs_and_lists_go_through_steps_alike(rt: HostRuntime) -> Result<(), Fail> {
    let alloc = rt.alloc();
    let text = hex::decode(alloc, BORROWS)?;
    let bounded = mv_bounds::check(alloc, mv_binary_format::decode(alloc, &text)?)?;
    let typed = mv_type_states::check(alloc, bounded)?;
    if typed.module().functions().is_empty() {
        return Err("no function".into());
    }
    let domain = BorrowDomain::of_function(&typed, 0);
    let count = typed.bounded().code(0).len();
    assert_eq!(rt; count, 10);
    for at in 0..=count {
        let edges = stepped(alloc, &domain, at)?;
        assert!(rt; edges == listed(alloc, &domain, at)?);
        let wanted = match at {
            0 | 8..=10 => 0,
            4 => 3,
            _ => 1,
        };
        assert_eq!(rt; edges.into_list(alloc)?.len(), wanted);
    }
    Ok(())
}
