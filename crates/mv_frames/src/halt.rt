// Why a step does not go on.
use mv_machine::Kind;
use std::alloc::AllocError;

/// Why a step does not go on.
#[derive(Clone, Copy)]
pub enum Halt {
    /// An allocation failed.
    Memory,
    /// The step is not one of linked code of accepted modules.
    Stuck,
    /// The run aborts, for this reason and with this number.
    Aborted(Kind, u64),
    /// The run returns.
    Returned,
    /// The step would enter one frame too many.
    Frames,
}

impl From<AllocError> for Halt {
    ghost use Rattle.std.specs.Prelude.{◌≡◌};
    ghost use Rattle.mv_frames.specs.declared.halt.Halt.TheVariants.{Memory};

    ghost from_gives = { λ _ e. e ≡ Memory };

    fn from(_: AllocError) -> Self {
        Halt::Memory
    }
}
