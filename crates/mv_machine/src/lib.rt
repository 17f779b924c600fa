//! The defensive machine: its values, states, steps, runs and replies stand in specs/. Here is what a run is given, how it may
//! end, and what is counted of runs.
//!
//! ```
//! use mv_machine::{Ending, Kind, Outcome};
//!
//! /// Whether a run ended for an overflow or a division by zero.
//! fn example(outcome: &Outcome) -> bool {
//!     matches!(outcome.ending, Ending::Aborted(Kind::Arith, _))
//! }
//! ```
#![tactic(auto)]

use mv_move_types::LeafKind;

/// An argument of a run: a leaf, as its kind and its number. A bool is 0 or 1, and an address is the number that its 16 bytes
/// are in big-endian order. The signer of an entry function has the sender's address.
#[derive(Clone, Copy, PartialEq, Eq, Debug)]
pub struct Arg {
    pub kind: LeafKind,
    pub number: u128,
}

/// Why a run aborts.
#[derive(Clone, Copy, PartialEq, Eq, Debug)]
pub enum Kind {
    /// The code asks for it.
    Code,
    /// A number leaves its range, or a divisor is 0.
    Arith,
    /// A value is stored already where one is to be stored.
    Exists,
    /// No value is stored where one is wanted.
    Missing,
}

/// What a run has used up.
#[derive(Clone, Copy, PartialEq, Eq, Debug)]
pub enum Stop {
    /// Its budget of steps.
    Steps,
    /// The 256 frames that a run may have.
    Frames,
}

/// How a run ended.
#[derive(Clone, Copy, PartialEq, Eq, Debug)]
pub enum Ending {
    /// The first function returned.
    Returned,
    /// It was given up, for a reason and with a number.
    Aborted(Kind, u64),
    /// It used up what it was allowed.
    Exhausted(Stop),
}

/// How a run ended, and how many instructions it executed.
#[derive(Clone, Copy, PartialEq, Eq, Debug)]
pub struct Outcome {
    pub ending: Ending,
    pub steps: u64,
}

/// How often values of a struct with neither copy nor drop were made, and taken apart, in the runs that returned; of other
/// structs nothing is kept. The struct is named by its module's place in the order of publication and its definition's index.
#[derive(Clone, Copy)]
pub struct Tally {
    pub place: u16,
    pub index: u16,
    pub packs: u128,
    pub unpacks: u128,
}

/// How often a run made values of a struct, and took them apart. The struct is named by its module's place in the order of
/// publication and its definition's index.
#[derive(Clone, Copy, PartialEq, Eq, Debug)]
pub struct StructTally {
    pub place: u16,
    pub index: u16,
    pub packs: u64,
    pub unpacks: u64,
}
