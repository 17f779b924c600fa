// Texts that are given to C.
ghost use Rattle.moveledger_c.specs.Giving.{AreGiven, IsGiven};

use crate::bytes::Bytes;
use crate::status::{DONE, MEMORY};
use std::alloc::{AllocError, Global};

/// Gives a text, and says how that went.
pub(crate) fn give(alloc: Global, out: &mut Bytes, text: Result<Vec<u8>, AllocError>) -> i32
    ensures { IsGiven text result out.new.items }
{
    *out = Bytes::none();
    let Ok(text) = text else {
        return MEMORY;
    };
    match Box::new(alloc, text) {
        Ok(list) => {
            *out = Bytes::of(list);
            DONE
        }
        Err(_) => MEMORY,
    }
}

/// Gives two texts, or neither, and says how that went.
pub(crate) fn give_two(
    alloc: Global,
    out: &mut Bytes,
    other: &mut Bytes,
    text: Result<Vec<u8>, AllocError>,
    more: Result<Vec<u8>, AllocError>,
) -> i32
    ensures { AreGiven text more result out.new.items other.new.items }
{
    let status = give(alloc, out, text);
    if status != DONE {
        *other = Bytes::none();
        return MEMORY;
    }
    let status = give(alloc, other, more);
    if status != DONE {
        drop(out.take(alloc));
        return MEMORY;
    }
    DONE
}
