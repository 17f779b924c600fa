// In which order stubs are replaced: each module behind all that it names.
ghost use Rattle.std.specs.Prelude.{◌≤◌, length};

use crate::loading::stubs::{Stubs, place_named};
use mv_ledger_state::Offered;
use mv_linker::Store;
use mv_move_types::Refusal;
use std::alloc::{AllocError, Global};
use std::mem::replace;

/// For which stubs modules wait, because they name them.
#[derive(Drop)]
struct Waits {
    /// For how many the module of a place waits.
    counts: Vec<usize>,
    /// The places of the modules that wait for the stub at a place.
    waiting: Vec<Vec<u16>>,
}

impl Waits {
    /// None of so many modules waits.
    fn new(alloc: Global, count: usize) -> Result<Self, AllocError> {
        let mut waiting = Vec::with_capacity(alloc, count)?;
        for _ in 0..count {
            waiting.push(Vec::new(alloc))?;
        }
        Ok(Waits {
            counts: vec![in alloc; 0; count]?,
            waiting,
        })
    }

    /// Notes that the module of a place waits for the stub at another.
    fn put(&mut self, place: u16, stub: usize) -> Result<(), AllocError> {
        if let Some(waiting) = self.waiting.get_mut(stub) {
            waiting.push(place)?;
        }
        if let Some(count) = self.counts.get_mut(usize::from(place)) {
            *count = count.saturating_add(1);
        }
        Ok(())
    }

    /// Notes for which stubs the module of a place waits.
    fn put_all(
        &mut self,
        alloc: Global,
        store: &Store,
        stubs: &Stubs,
        place: u16,
        offer: &Offered<'_>,
    ) -> Result<(), Refusal> {
        let module = mv_binary_format::decode(alloc, offer.text)?;
        for handle in 0..module.module_handles().len() {
            match place_named(store, &module, handle) {
                Some(named) if named != usize::from(place) && stubs.has(named) => {
                    self.put(place, named)?;
                }
                _ => {}
            }
        }
        Ok(())
    }

    /// For which stubs the modules of these wait.
    fn of(
        alloc: Global,
        store: &Store,
        stubs: &Stubs,
        offers: &[Offered<'_>],
    ) -> Result<Self, Refusal>
        requires { length offers.now ≤ 65536 }
    {
        let mut waits = Waits::new(alloc, offers.len())?;
        for place in 0..offers.len() {
            if stubs.has(place) {
                waits.put_all(alloc, store, stubs, place as u16, &offers[place])?;
            }
        }
        Ok(waits)
    }

    /// Whether the module of a place waits for none.
    fn is_free(&self, place: usize) -> bool {
        self.counts.get(place).copied() == Some(0)
    }

    /// Notes that what a module waits for is one stub fewer, and says whether it waits for none any more.
    fn is_freed(&mut self, place: u16) -> bool {
        match self.counts.get_mut(usize::from(place)) {
            Some(count) => {
                *count = count.saturating_sub(1);
                *count == 0
            }
            None => false,
        }
    }

    /// Notes that the stub at a place is replaced, and puts those that waited for it alone behind the others.
    fn free(&mut self, alloc: Global, stub: u16, order: &mut Vec<u16>) -> Result<(), AllocError> {
        let Some(waiting) = self.waiting.get_mut(usize::from(stub)) else {
            return Ok(());
        };
        for place in replace(waiting, Vec::new(alloc)) {
            if self.is_freed(place) {
                order.push(place)?;
            }
        }
        Ok(())
    }
}

/// The places of the stubs that can be replaced, each behind those that its module names. A stub is left out only where its
/// module is part of a cycle, or names one that is left out.
pub fn order(
    alloc: Global,
    store: &Store,
    stubs: &Stubs,
    offers: &[Offered<'_>],
) -> Result<Vec<u16>, Refusal>
    requires { length offers.now ≤ 65536 }
{
    let mut waits = Waits::of(alloc, store, stubs, offers)?;
    let mut order = Vec::new(alloc);
    for place in 0..offers.len() {
        if stubs.has(place) && waits.is_free(place) {
            order.push(place as u16).map_err(AllocError::from)?;
        }
    }
    for at in 0..offers.len() {
        let Some(stub) = order.get(at).copied() else {
            break;
        };
        waits.free(alloc, stub, &mut order)?;
    }
    Ok(order)
}
