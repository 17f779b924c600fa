// What a call answers.

/// The call did what it was asked for.
pub const DONE: i32 = 0;

/// A module or a certificate is refused; `why` has the phase.
pub const REFUSED: i32 = 1;

/// Bytes are not a saved ledger; `why` has the reason.
pub const LOAD_REFUSED: i32 = 2;

/// The search for a certificate reached its limits.
pub const TOO_COMPLEX: i32 = 3;

/// An allocation failed.
pub const MEMORY: i32 = 4;

/// An argument is invalid, and no ledger, count or report changed.
pub const ARGUMENTS: i32 = 5;

/// No block is open, and nothing changed.
pub const NO_BLOCK: i32 = 7;

/// No value, module or tally is there by this name.
pub const ABSENT: i32 = 8;

/// The search for a certificate used up its steps.
pub const TOO_LONG: i32 = 9;
