// Memory that is kept from one call to the next.
ghost use Rattle.std.specs.Prelude.{◌≡◌};

use crate::Ledger;
use std::alloc::Global;
use std::mem::replace;

// A list with room for more bytes than these isn't kept (128 KiB).
const MOST_KEPT: usize = 0x2_0000;

/// Memory for a record that is answered. What the lists hold means nothing.
#[derive(Drop)]
pub struct Scratch {
    /// For its payload.
    pub payload: Vec<u8>,
    /// For the line that answers it.
    pub line: Vec<u8>,
}

impl Scratch {
    /// No memory.
    pub(crate) fn new(alloc: Global) -> Self {
        Scratch {
            payload: Vec::new(alloc),
            line: Vec::new(alloc),
        }
    }
}

impl Ledger {
    /// Takes out the memory that is kept for the next record. Nothing else changes.
    pub fn take_scratch(&mut self) -> Scratch
        ensures { self.new ≡ self.old }
    {
        replace(&mut self.scratch, Scratch::new(self.alloc))
    }

    /// Keeps memory for the next record, unless a list has room for more than 128 KiB. Nothing else changes.
    pub fn keep_scratch(&mut self, scratch: Scratch)
        ensures { self.new ≡ self.old }
    {
        if scratch.payload.capacity() <= MOST_KEPT && scratch.line.capacity() <= MOST_KEPT {
            self.scratch = scratch;
        }
    }
}
