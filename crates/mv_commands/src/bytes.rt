// The first bytes of what stands in a file, and whether a saved ledger begins with them.
ghost use Rattle.std.specs.Prelude.{◌↔◌, ◌≤◌, ◌<◌, IfOk, IsTrue, length, take};
ghost use Rattle.std.specs.Io.KnownBytes.{Consumes, IsAtEnd};
ghost use Rattle.mv_commands.specs.Marks.{IsMark};

use std::io::{self, Read};

/// The length in bytes of the mark that a saved ledger begins with.
pub const MARK: usize = 4;

/// Fills the buffer, and returns how much was there.
pub fn filled<R: Read>(reader: &mut R, buffer: &mut [u8]) -> io::Result<usize>
    ensures within { IfOk result (λ n. n ≤ length buffer.new) }
    ensures taken { IfOk result (λ n. Consumes (R.remaining reader.old) (R.remaining reader.new) (take n buffer.new)) }
    ensures end { IfOk result (λ n. n < length buffer.new → IsAtEnd (R.remaining reader.new)) }
{
    let mut filled = 0;
    while filled < buffer.len() {
        match reader.read(&mut buffer[filled..]) {
            Ok(0) => return Ok(filled),
            Ok(n) => filled += n,
            Err(e) => return Err(e),
        }
    }
    Ok(filled)
}

/// Whether these are the bytes that a saved ledger of either form begins with.
pub fn is_mark(bytes: &[u8]) -> bool
    ensures { IsTrue result ↔ IsMark bytes.now }
{
    matches!(bytes, b"MVL1" | b"MVL2")
}
