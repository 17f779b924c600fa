// Why something is refused.
use std::alloc::AllocError;
use thiserror::Error;

/// Why something is refused: the phase of publishing whose rules it fails, or an allocation that failed.
#[derive(Clone, Copy, PartialEq, Eq, Debug, Error)]
pub enum Refusal {
    /// The phase, from 1 to 14, that refuses.
    #[error("refused {0}")]
    Phase(u8),
    /// An allocation failed.
    #[error("out of memory")]
    Memory,
}

impl From<AllocError> for Refusal {
    ghost use Rattle.std.specs.Prelude.{◌≡◌};
    ghost use Rattle.mv_move_types.specs.declared.refusal.Refusal.TheVariants.{Memory};

    ghost from_gives = { λ _ e. e ≡ Memory };

    fn from(_: AllocError) -> Self {
        Refusal::Memory
    }
}
