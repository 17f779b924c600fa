// What holds a ledger for C.
ghost use Rattle.std.specs.Prelude.{◌≡◌, Option, Some, None, MatchOption};
ghost use Rattle.mv_ledger_state.specs.View.{LedgerView};

use crate::parts::Parts;
use mv_ledger::Ledger;
use std::alloc::Global;
use std::marker::Model;
use std::mem;
use std::ptr::null_mut;

/// C's `moveledger`: a ledger on the heap, or none, where the pointer is null.
#[repr(C)]
#[derive(Drop)]
pub struct Holder {
    own: *mut u8,
    pub ghost held: { Option LedgerView },
}

impl Model for Holder {
    ghost use Rattle.moveledger_c.specs.Owning.{holds_ledger};

    ghost also_owns = { λ h. holds_ledger h.own h.held };
}

impl Holder {
    /// No ledger.
    pub(crate) fn none() -> Holder
        ensures { result.held ≡ None }
    {
        Holder { own: null_mut() }
    }

    /// A ledger that is on the heap.
    fn hold(parts: Parts<Ledger, Global>) -> Holder
        ensures { result.held ≡ Some parts.value }
    {
        let Parts { at, alloc: _ } = parts;
        Holder { own: at as *mut u8 }
    }

    /// What is held.
    fn release(self, alloc: Global) -> Option<Parts<Ledger, Global>>
        ensures { MatchOption result (self.held ≡ None) (λ p. self.held ≡ Some p.value) }
    {
        let Holder { own } = self;
        if own.is_null() {
            return None;
        }
        Some(Parts {
            at: own as *mut Ledger,
            alloc,
        })
    }

    /// This ledger.
    pub(crate) fn of(ledger: Box<Ledger>) -> Holder
        ensures { result.held ≡ Some ledger.value }
    {
        Holder::hold(Parts::of(ledger))
    }

    /// The ledger that is held; none is then.
    pub(crate) fn take(&mut self, alloc: Global) -> Option<Box<Ledger>>
        ensures taken { MatchOption result (self.old.held ≡ None) (λ b. self.old.held ≡ Some b.value) }
        ensures none { self.new.held ≡ None }
    {
        match mem::replace(self, Holder::none()).release(alloc) {
            None => None,
            Some(parts) => Some(parts.into_box()),
        }
    }
}
