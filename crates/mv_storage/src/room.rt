// Memory that is kept from one run to the next.
use mv_machine::StructTally;
use std::alloc::Global;

// So many words of locals are kept at most (64 MiB), which is what a run's locals take at most.
const MOST_LOCALS: usize = 0x40_0000;

// So many words of operands are kept at most (1 MiB).
const MOST_OPERANDS: usize = 0x1_0000;

// A tally is kept that has room for so many structs at most (96 KiB).
pub(crate) const MOST_TALLIED: usize = 0x1000;

/// Memory for the words of a run, and for its tally. What the lists hold means nothing.
#[derive(Drop)]
pub struct Room {
    /// For its locals.
    pub locals: Vec<u128>,
    /// For its operands.
    pub operands: Vec<u128>,
    /// For its tally.
    pub tally: Vec<StructTally>,
}

// The list, or an empty one in place of one that is longer than this.
fn kept(words: Vec<u128>, most: usize, alloc: Global) -> Vec<u128> {
    if words.len() <= most {
        words
    } else {
        Vec::new(alloc)
    }
}

impl Room {
    /// No memory.
    pub fn new(alloc: Global) -> Self {
        Room {
            locals: Vec::new(alloc),
            operands: Vec::new(alloc),
            tally: Vec::new(alloc),
        }
    }

    // What is kept of it for the next run.
    pub(crate) fn kept(self, alloc: Global) -> Self {
        let Room {
            locals,
            operands,
            tally,
        } = self;
        Room {
            locals: kept(locals, MOST_LOCALS, alloc),
            operands: kept(operands, MOST_OPERANDS, alloc),
            tally,
        }
    }
}
