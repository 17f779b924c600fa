// The pieces in which the lines of a report are told.
ghost use Rattle.std.specs.Prelude.{◌≡◌, ◌++◌, OnOk};
ghost use Rattle.mv_lines.specs.Pieces.{piece_text};

use std::alloc::AllocError;

/// A piece of a line.
#[derive(Drop)]
pub struct Piece {
    /// Its bytes. There is at least one where the line goes on behind it.
    pub text: Vec<u8>,
    /// Whether the line ends behind it.
    pub is_last: bool,
}

impl Piece {
    /// Appends its bytes and, if the line ends with it, a line end.
    ///
    /// # Errors
    ///
    /// If an allocation failed.
    pub fn put(&self, text: &mut Vec<u8>) -> Result<(), AllocError>
        ensures { OnOk result (text.new.items ≡ text.old.items ++ piece_text self.now.is_last self.now.text.items) }
    {
        text.extend_from_slice(&self.text)?;
        if self.is_last {
            text.push(b'\n')?;
        }
        Ok(())
    }
}
