// From where on a ledger's text is still to be written.
ghost use Rattle.std.specs.Prelude.{◌≡◌};
ghost use Rattle.mv_saved_text.specs.Parts.Steps.{is_end};

use mv_move_types::Address;

/// From where on a ledger's text is still to be written.
#[derive(Clone, Copy)]
pub enum Position {
    /// All of it.
    Head,
    /// The module at this place and later ones, and what follows the modules.
    Modules(usize),
    /// What follows the modules.
    Counts,
    /// The values of the structs with key from this one on.
    Sections(usize),
    /// The values of one of these structs at this address or a greater one, and those of later structs.
    Values(usize, Address),
    /// Nothing.
    End,
}

impl Position {
    /// Whether all is written.
    pub fn is_end(self) -> bool
        ensures { result ≡ is_end self }
    {
        matches!(self, Position::End)
    }
}
