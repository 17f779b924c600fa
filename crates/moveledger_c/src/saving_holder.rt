// What holds a save for C.
ghost use Rattle.std.specs.Prelude.{◌≡◌, Option, Some, None, MatchOption};
ghost use Rattle.mv_saved_text.specs.Flowing.{SavingView};

use crate::parts::Parts;
use mv_ledger::Saving;
use std::alloc::Global;
use std::marker::Model;
use std::mem;
use std::ptr::null_mut;

/// C's `moveledger_saving`: how far a save is, on the heap; or none, where the pointer is null.
#[repr(C)]
#[derive(Drop)]
pub struct SavingHolder {
    own: *mut u8,
    pub ghost held: { Option SavingView },
}

impl Model for SavingHolder {
    ghost use Rattle.moveledger_c.specs.Owning.{holds_saving};

    ghost also_owns = { λ h. holds_saving h.own h.held };
}

impl SavingHolder {
    /// No save.
    pub(crate) fn none() -> SavingHolder
        ensures { result.held ≡ None }
    {
        SavingHolder { own: null_mut() }
    }

    /// A save that is on the heap.
    fn hold(parts: Parts<Saving, Global>) -> SavingHolder
        ensures { result.held ≡ Some parts.value }
    {
        let Parts { at, alloc: _ } = parts;
        SavingHolder { own: at as *mut u8 }
    }

    /// What is held.
    fn release(self, alloc: Global) -> Option<Parts<Saving, Global>>
        ensures { MatchOption result (self.held ≡ None) (λ p. self.held ≡ Some p.value) }
    {
        let SavingHolder { own } = self;
        if own.is_null() {
            return None;
        }
        Some(Parts {
            at: own as *mut Saving,
            alloc,
        })
    }

    /// This save.
    pub(crate) fn of(saving: Box<Saving>) -> SavingHolder
        ensures { result.held ≡ Some saving.value }
    {
        SavingHolder::hold(Parts::of(saving))
    }

    /// The save that is held; none is then.
    pub(crate) fn take(&mut self, alloc: Global) -> Option<Box<Saving>>
        ensures taken { MatchOption result (self.old.held ≡ None) (λ b. self.old.held ≡ Some b.value) }
        ensures none { self.new.held ≡ None }
    {
        match mem::replace(self, SavingHolder::none()).release(alloc) {
            None => None,
            Some(parts) => Some(parts.into_box()),
        }
    }
}
