//! How large each thing may be: each number is the most that is allowed. The rules name them as `specs/Limits.antt` does.

/// Bytes of a module's text.
pub const MOST_MODULE_BYTES: usize = 65_536;

/// Bytes that the contents of a module's tables have together, and so the greatest offset and length of one.
pub const MOST_CONTENT_BYTES: u64 = 65_536;

/// Bytes of a certificate's text.
pub const MOST_CERTIFICATE_BYTES: u64 = 1_048_576;

/// Bytes of a record's payload.
pub const MOST_PAYLOAD_BYTES: u64 = 33_554_432;

/// Modules of a bundle.
pub const MOST_OFFERS: u64 = 16;

/// Arguments that a run's record gives.
pub const MOST_ARGUMENTS: u64 = 16;

/// Bytes of an identifier.
pub const MOST_NAME_BYTES: u64 = 128;

/// Types of a signature.
pub const MOST_TYPES: u64 = 64;

/// Functions that a module defines.
pub const MOST_FUNCTIONS: usize = 256;

/// Instructions of a function.
pub const MOST_INSTRUCTIONS: u64 = 4096;

/// Fields of a struct.
pub const MOST_FIELDS: u64 = 32;

/// Parameters of a function.
pub const MOST_PARAMETERS: usize = 16;

/// Results of a function.
pub const MOST_RESULTS: usize = 8;

/// Locals of a function, parameters included.
pub const MOST_LOCALS: usize = 64;

/// Operands on a function's stack.
pub const MOST_OPERANDS: usize = 128;

/// Edges that are stated of a block: a certificate has no more, and a search states no more.
pub const MOST_EDGES: usize = 1024;

/// Positions that the label of a stated edge has.
pub const MOST_POSITIONS: usize = 8;

/// Leaves of a struct's values.
pub const MOST_LEAVES: u32 = 256;

/// How deep a struct nests: one with no struct among its fields nests 1 deep.
pub const MOST_NESTING: u8 = 8;

/// Modules of a ledger.
pub const MOST_MODULES: usize = 4096;

/// Steps that a run's budget allows.
pub const MOST_STEPS: u64 = 10_000_000;

/// Frames of a run.
pub const MOST_FRAMES: usize = 256;

/// Runs of a ledger.
pub const MOST_RUNS: u64 = 4_294_967_296;
