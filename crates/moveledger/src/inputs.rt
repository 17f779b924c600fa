// What a file gives: all of it, its first bytes, or a saved ledger's text.
ghost use Rattle.std.specs.Prelude.{◌≡◌, ◌⊎◌, ◌++◌, ◌<◌, ◌≤◌, ℕ, List, Option, IfErr, IfOk, IfSome, length, take};
ghost use Rattle.std.specs.Io.KnownBytes.{Consumes, IsAtEnd};
ghost use Rattle.std.specs.IoError.{error_kind};
ghost use Rattle.mv_saved_text.specs.Loading.{FailsLoad};
ghost use Rattle.moveledger.specs.Saved.{IsRead};

use crate::ending::End;
use mv_commands::{MARK, filled, is_mark};
use std::alloc::Global;
use std::io::{self, ErrorKind, Read};

// How many bytes of a saved ledger's text are read at a time.
const PART: usize = 1 << 16;

/// The most parts of a saved ledger's text that are read: 32 TiB. The format has no such limit. But a ledger is held in memory, so
/// that a longer text is answered as a failed allocation. 4,096 modules with their certificates and tallies take less than 2^34.
const MOST_PARTS: u64 = 1 << 29;

// What was read is looked at where it is at most this part of what is expected, and where more was read than that, ...
const CHEAP: usize = 128;

// ... and once so many times as much was read as at the last look; ...
const FURTHER: usize = 1024;

// ... or once twice as much was, if it ends in so many zeros, as a sparse file has.
const ZEROS: usize = 4096;

// The number of the refusal of what begins with no head.
const HEAD: u8 = 1;

/// The end where a read failed.
fn end_of_read(error: &io::Error) -> End
    ensures memory { error_kind error.now ≡ ErrorKind.OutOfMemory → result ≡ End.Memory }
    ensures other { (result ≡ End.Read) ⊎ ((result ≡ End.Memory) × (error_kind error.now ≡ ErrorKind.OutOfMemory)) }
{
    if error.kind() == ErrorKind::OutOfMemory {
        End::Memory
    } else {
        End::Read
    }
}

/// All bytes that a reader gives.
///
/// # Errors
///
/// `Read` if a read failed; `Memory` if an allocation failed.
fn all_of<R: Read + Drop>(alloc: Global, mut reader: R) -> Result<Vec<u8>, End>
    ensures bytes { IfOk result (λ v. IfSome (R.remaining reader) (λ xs. v.items ≡ xs)) }
    ensures err { IfErr result (λ e. (e ≡ End.Read) ⊎ (e ≡ End.Memory)) }
{
    let mut bytes = Vec::new(alloc);
    match reader.read_to_end(&mut bytes) {
        Ok(_) => Ok(bytes),
        Err(e) => Err(end_of_read(&e)),
    }
}

/// The first bytes that a reader gives, at most so many.
///
/// # Errors
///
/// `Read` if a read failed; `Memory` if an allocation failed.
pub fn first_bytes<R: Read + Drop>(alloc: Global, reader: R, most: u64) -> Result<Vec<u8>, End>
    ensures bytes { IfOk result (λ v. IfSome (R.remaining reader) (λ xs. v.items ≡ take most xs)) }
    ensures err { IfErr result (λ e. (e ≡ End.Read) ⊎ (e ≡ End.Memory)) }
{
    all_of(alloc, reader.take(most))
}

/// What is read of a saved ledger's text: all of it, or enough to tell why it isn't loaded.
#[derive(Drop)]
pub enum Bytes {
    Whole(Vec<u8>),
    /// The number of the refusal.
    Fails(u8),
}

/// Reads what fits in `part`, puts it behind the bytes that were read, and returns how much there was.
///
/// # Errors
///
/// `Read` if a read failed; `Memory` if an allocation failed.
fn read_on<R: Read>(reader: &mut R, part: &mut [u8], bytes: &mut Vec<u8>) -> Result<usize, End>
    ensures within { IfOk result (λ n. n ≤ length part.new) }
    ensures room { length part.new ≡ length part.old }
    ensures taken { IfOk result (λ n. Consumes (R.remaining reader.old) (R.remaining reader.new) (take n part.new)) }
    ensures bytes { IfOk result (λ n. bytes.new.items ≡ bytes.old.items ++ take n part.new) }
    ensures end { IfOk result (λ n. n < length part.new → IsAtEnd (R.remaining reader.new)) }
    ensures err { IfErr result (λ e. (e ≡ End.Read) ⊎ (e ≡ End.Memory)) }
{
    let n = match filled(reader, part) {
        Ok(n) => n,
        Err(e) => return Err(end_of_read(&e)),
    };
    match bytes.extend_from_slice(&part[..n]) {
        Ok(()) => Ok(n),
        Err(_) => Err(End::Memory),
    }
}

/// Whether what was read so far is worth a look, given how much was read at the last one. `part` was read last.
fn is_due(part: &[u8], read: usize, judged: usize, expected: usize) -> bool {
    let is_cheap = read <= expected / CHEAP || read > expected;
    let is_empty = part.iter().rev().take(ZEROS).all(|byte| *byte == 0);
    (is_cheap && read / FURTHER >= judged) || (is_empty && read / 2 >= judged)
}

/// The number of the refusal of each text that begins so, if these bytes tell it.
///
/// # Errors
///
/// `Memory` if an allocation failed.
fn refusal_of(alloc: Global, bytes: &[u8]) -> Result<Option<u8>, End>
    ensures number { IfOk result (λ found. IfSome found (λ number. (more : List ℕ) → FailsLoad (bytes.now ++ more) number)) }
    ensures err { IfErr result (λ e. e ≡ End.Memory) }
{
    if bytes.is_empty() {
        return Ok(None);
    }
    // The last byte is the one more that each longer text has.
    match mv_saved_text::refusal_of_longer(alloc, &bytes[..bytes.len() - 1]) {
        Ok(found) => Ok(found),
        Err(_) => Err(End::Memory),
    }
}

/// Reads on behind the bytes that were read, to the end or until they tell why the text isn't loaded.
///
/// # Errors
///
/// `Read` if a read failed; `Memory` if an allocation failed, or if there are some 2^45 bytes more.
fn all_or_refusal<R: Read>(
    alloc: Global,
    reader: &mut R,
    mut bytes: Vec<u8>,
    expected: usize,
) -> Result<Bytes, End>
    ensures read { (given : Option (List ℕ)) → Consumes given (R.remaining reader.old) bytes.items → IfOk result (IsRead given) }
    ensures err { IfErr result (λ e. (e ≡ End.Read) ⊎ (e ≡ End.Memory)) }
{
    let Ok(mut part) = vec![in alloc; 0u8; PART] else {
        return Err(End::Memory);
    };
    let mut judged = 0;
    'each: for _ in 0..MOST_PARTS {
        let n = read_on(reader, &mut part, &mut bytes)?;
        if n < part.len() {
            return Ok(Bytes::Whole(bytes));
        }
        if is_due(&part, bytes.len(), judged, expected) {
            if let Some(number) = refusal_of(alloc, &bytes)? {
                return Ok(Bytes::Fails(number));
            }
            judged = bytes.len();
        }
    }
    Err(End::Memory)
}

/// All bytes that a reader gives, of which so many are expected, or why they aren't loaded as a ledger, if their first bytes tell
/// that. Then no more of them are read.
///
/// # Errors
///
/// `Read` if a read failed; `Memory` if an allocation failed, or if there are some 2^45 bytes.
pub fn ledger_bytes<R: Read + Drop>(
    alloc: Global,
    mut reader: R,
    expected: usize,
) -> Result<Bytes, End>
    ensures read { IfOk result (IsRead (R.remaining reader)) }
    ensures err { IfErr result (λ e. (e ≡ End.Read) ⊎ (e ≡ End.Memory)) }
{
    let mut front = [0u8; MARK];
    let n = match filled(&mut reader, &mut front) {
        Ok(n) => n,
        Err(e) => return Err(end_of_read(&e)),
    };
    let mark = &front[..n];
    if !is_mark(mark) {
        return Ok(Bytes::Fails(HEAD));
    }
    let Ok(bytes) = Vec::from_slice(alloc, mark) else {
        return Err(End::Memory);
    };
    all_or_refusal(alloc, &mut reader, bytes, expected)
}
