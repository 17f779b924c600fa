// A save in pieces.

use super::rows::{inputs, rows_of};
use super::{answered, room, whole};
use moveledger::{Ledger, Saving};
use std::alloc::{AllocError, Global};
use std::test::Fail;

// More pieces than a ledger of the rows has.
const MANY_PIECES: usize = 1000;

// The pieces of a save, one after the other; none where no end comes.
fn pieces_of(alloc: Global, ledger: &Ledger) -> Result<Option<Vec<u8>>, AllocError> {
    let mut saving = Saving::new(alloc);
    let mut text = Vec::new(alloc);
    for _ in 0..MANY_PIECES {
        match ledger.next_piece(&mut saving)? {
            Some(piece) => text.extend_from_slice(&piece)?,
            None => return Ok(Some(text)),
        }
    }
    Ok(None)
}

// Whether the ledger that an input leaves has the text of its save in pieces, too.
fn is_saved_in_pieces(alloc: Global, bytes: &[u8]) -> Result<bool, AllocError> {
    let mut ledger = Ledger::new(alloc);
    let _ = answered(&mut whole(bytes), &mut room(alloc), &mut ledger);
    let text = ledger.save()?;
    let pieces = pieces_of(alloc, &ledger)?;
    Ok(pieces.as_deref() == Some(text.as_slice()))
}

#[test]
fn pieces_are_the_save(rt: HostRuntime) -> Result<(), Fail> {
    let rows = rows_of(rt.alloc(), inputs())?;
    for row in &rows {
        let bytes = row.input(rt.alloc())?;
        assert!(rt; is_saved_in_pieces(rt.alloc(), &bytes)?, "{}", row.shows);
    }
    Ok(())
}
