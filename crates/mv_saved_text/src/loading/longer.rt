// Why each text that is longer than these bytes and begins with them is refused, where they tell it.
ghost use Rattle.std.specs.Prelude.{◌≡◌, List, [], ℕ, IfOk, IfSome};
ghost use Rattle.mv_ledger_state.specs.Asking.{offers_of};
ghost use Rattle.mv_saved_text.specs.Loading.{LongerFail};
ghost use Rattle.mv_saved_text.specs.Parts.LoadedParts.{head_of, BeginsWith};
ghost use Rattle.mv_ledger_state.specs.Publishing.{AllPass};

use crate::loading::LoadError;
use crate::loading::body::read_body;
use crate::loading::head::{Head, read_head};
use crate::loading::modules::of_offers;
use mv_ledger_state::Published;
use mv_ledger_state::unread::Unread;
use mv_module_text::Reader;
use std::alloc::{AllocError, Global};

// The number of the refusal of how a text begins.
const HEAD: u8 = 1;

// The number of the refusal of what follows the modules.
const BODY: u8 = 4;

/// The number of the refusal of each longer text where the part that has this one wasn't read for this reason.
fn refusal_by(unread: Unread, part: u8) -> Result<Option<u8>, AllocError>
    ensures { IfOk result (λ found. IfSome found (λ number. (number ≡ part) × (unread ≡ Unread.Malformed))) }
{
    match unread {
        Unread::Malformed => Ok(Some(part)),
        Unread::Cut => Ok(None),
        Unread::Memory => Err(AllocError),
    }
}

/// The number of the refusal of each longer text, where the front has this head and these modules, and the reader has what follows.
fn refusal_by_body(
    alloc: Global,
    reader: &mut Reader<'_>,
    head: &Head<'_>,
    joined: &mut Published,
) -> Result<Option<u8>, AllocError>
    requires passed { AllPass (offers_of head.now.offers.items) joined.old.modules }
    requires marks { joined.old.marks ≡ [] }
    ensures { (bytes : List ℕ) → BeginsWith bytes (head_of head.now) reader.old → IfOk result (λ found. IfSome found (LongerFail bytes)) }
{
    let unread = match read_body(alloc, reader, head.form, &joined.store, &mut joined.tallies) {
        // Each longer text has a byte after it.
        Ok(_storage) => return Ok(Some(BODY)),
        Err(unread) => unread,
    };
    refusal_by(unread, BODY)
}

/// The same where the front has this head.
fn refusal_after(
    alloc: Global,
    reader: &mut Reader<'_>,
    head: &Head<'_>,
) -> Result<Option<u8>, AllocError>
    requires { (bytes : List ℕ) × BeginsWith bytes (head_of head.now) reader.old }
    ensures { (bytes : List ℕ) → BeginsWith bytes (head_of head.now) reader.old → IfOk result (λ found. IfSome found (LongerFail bytes)) }
{
    match of_offers(alloc, &head.offers) {
        Ok(mut joined) => refusal_by_body(alloc, reader, head, &mut joined),
        Err(LoadError::Memory) => Err(AllocError),
        Err(error) => Ok(error.number()),
    }
}

/// The number of the refusal of each text that begins with `front` and has at least one byte more; none, where that depends on
/// what follows.
///
/// # Errors
///
/// Only where an allocation failed.
pub fn refusal_of_longer(alloc: Global, front: &[u8]) -> Result<Option<u8>, AllocError>
    ensures { IfOk result (λ found. IfSome found (LongerFail front.now)) }
{
    let mut reader = Reader::new(front);
    match read_head(alloc, &mut reader) {
        Ok(head) => refusal_after(alloc, &mut reader, &head),
        Err(unread) => refusal_by(unread, HEAD),
    }
}
