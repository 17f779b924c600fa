// Why a text isn't kept in a file.
use std::alloc::AllocError;
use std::io::{self, ErrorKind};
use thiserror::Error;

/// Why a text isn't kept. Where the system refused a call, its number is given, if there is one: `io::Error::from_raw_os_error`
/// has its words.
#[derive(Clone, Copy, Debug, PartialEq, Eq, Error)]
pub enum KeepError {
    /// The file can't be made, written, synced or put into its place.
    #[error("fault: write")]
    Write(Option<i32>),
    /// What stands there is no saved ledger, and isn't empty.
    #[error("fault: write")]
    NoLedger,
    /// Another program saves there.
    #[error("fault: write")]
    InUse,
    /// The place can't be locked.
    #[error("fault: write")]
    NoLock(Option<i32>),
    /// No ledger is saved by this name: it is empty, or one of the program's own.
    #[error("fault: write")]
    Name,
    /// An allocation failed.
    #[error("fault: memory")]
    Memory,
}

impl From<AllocError> for KeepError {
    ghost use Rattle.std.specs.Prelude.{◌≡◌};
    ghost use Rattle.mv_commands.specs.declared.error.KeepError.TheVariants.{Memory};

    ghost from_gives = { λ _ e. e ≡ Memory };

    fn from(_: AllocError) -> Self {
        KeepError::Memory
    }
}

impl From<io::Error> for KeepError {
    ghost use Rattle.std.specs.Prelude.{◌≡◌, ◌≢◌, ◌⊎◌};
    ghost use Rattle.std.specs.IoError.{error_kind, raw_os_error};
    ghost use Rattle.std.specs.declared.io.ErrorKind.TheVariants.{OutOfMemory};
    ghost use Rattle.mv_commands.specs.declared.error.KeepError.TheVariants.{Memory, Write};

    ghost from_gives = { λ e fault. ((error_kind e ≡ OutOfMemory) × (fault ≡ Memory))
        ⊎ ((error_kind e ≢ OutOfMemory) × (fault ≡ Write (raw_os_error e))) };

    fn from(e: io::Error) -> Self {
        if e.kind() == ErrorKind::OutOfMemory {
            KeepError::Memory
        } else {
            KeepError::Write(e.raw_os_error())
        }
    }
}
