// Reading records from a reader.
ghost use Rattle.std.specs.Prelude.{◌≡◌, ◌≢◌, ℕ, ◌≤◌, ◌<◌, List, [], ◌∷◌, length, min, take, IfOk, IfErr, MatchOption};
ghost use Rattle.std.specs.Io.KnownBytes.{Consumes, IsAtEnd};
ghost use Rattle.mv_uleb.specs.Uleb.{IsUleb};
ghost use Rattle.mv_move_types.specs.Limits.{most_payload_bytes};
ghost use Rattle.moveledger.specs.Reading.{HasNoLength, IsLengthBegun, IsUnfinished, piece_limit};
ghost use Rattle.moveledger.specs.Next.{IsNext, IsPayload};
ghost use Rattle.moveledger.specs.Outcome.{left_of};

use crate::streaming::EngineError;
use mv_move_types::limits::MOST_PAYLOAD_BYTES;
use std::alloc::Global;
use std::io::Read;

/// The next byte, or None at the end.
pub fn read_byte<R: Read>(reader: &mut R) -> Result<Option<u8>, EngineError>
    ensures ok { IfOk result (λ byte. MatchOption byte
        (Consumes (R.remaining reader.old) (R.remaining reader.new) [] × IsAtEnd (R.remaining reader.new))
        (λ b. Consumes (R.remaining reader.old) (R.remaining reader.new) (b ∷ []))) }
    ensures err { IfErr result (λ e. (e ≡ EngineError.Read) × Consumes (R.remaining reader.old) (R.remaining reader.new) []) }
{
    let mut one = [0u8; 1];
    match reader.read(&mut one) {
        Ok(0) => Ok(None),
        Ok(_) => Ok(Some(one[0])),
        Err(_) => Err(EngineError::Read),
    }
}

/// Fills the buffer, and returns how much was there.
fn fill<R: Read>(reader: &mut R, buffer: &mut [u8]) -> Result<usize, EngineError>
    ensures within { IfOk result (λ n. n ≤ length buffer.new) }
    ensures taken { IfOk result (λ n. Consumes (R.remaining reader.old) (R.remaining reader.new) (take n buffer.new)) }
    ensures end { IfOk result (λ n. n < length buffer.new → IsAtEnd (R.remaining reader.new)) }
    ensures err { IfErr result (λ e. (e ≡ EngineError.Read) × (took : List ℕ)
        × (length took < length buffer.new) × Consumes (R.remaining reader.old) (R.remaining reader.new) took) }
{
    let mut filled = 0;
    while filled < buffer.len() {
        match reader.read(&mut buffer[filled..]) {
            Ok(0) => return Ok(filled),
            Ok(n) => filled += n,
            Err(_) => return Err(EngineError::Read),
        }
    }
    Ok(filled)
}

/// The length of a payload, up to the first byte without the high bit or the tenth. None where there is none.
fn read_length<R: Read>(reader: &mut R) -> Result<Option<u64>, EngineError>
    ensures ok { IfOk result (λ len. (took : List ℕ)
        × Consumes (R.remaining reader.old) (R.remaining reader.new) took
        × MatchOption len (HasNoLength took (left_of (R.remaining reader.new)))
        (λ n. IsUleb took n × (n ≤ most_payload_bytes))) }
    ensures err { IfErr result (λ e. (e ≡ EngineError.Read) × (took : List ℕ)
        × Consumes (R.remaining reader.old) (R.remaining reader.new) took × IsLengthBegun took) }
{
    let mut bytes = [0u8; 10];
    for i in 0..10 {
        match read_byte(reader)? {
            None => return Ok(None),
            Some(byte) => {
                bytes[i] = byte;
                if byte < 128 {
                    return match mv_uleb::read(&bytes[..i + 1], MOST_PAYLOAD_BYTES) {
                        Ok((n, _)) => Ok(Some(n)),
                        Err(_) => Ok(None),
                    };
                }
            }
        }
    }
    Ok(None)
}

/// The most bytes of a payload that are read at once.
const PIECE: usize = 65_536;

/// How many bytes of a payload are read next, where so many are missing. The list of the payload grows only for these, whatever length
/// the record states; where it grows, it may double.
fn piece_of(missing: usize) -> usize
    ensures { result ≡ min missing piece_limit }
{
    missing.min(PIECE)
}

/// Empties the list of the payload before. Its memory is kept for the next one, but one of more than 65,536 bytes is given back: so
/// 131,072 bytes are kept at most.
fn empty_payload(alloc: Global, payload: &mut Vec<u8>)
    ensures { payload.new.items ≡ [] }
{
    if payload.len() > PIECE {
        *payload = Vec::new(alloc);
    }
    payload.clear();
}

/// Reads a payload of this many bytes into a list, over what it held; false where the input ends before.
fn read_payload<R: Read>(
    alloc: Global,
    reader: &mut R,
    len: usize,
    payload: &mut Vec<u8>,
) -> Result<bool, EngineError>
    ensures ok { IfOk result (λ is_whole. (took : List ℕ)
        × Consumes (R.remaining reader.old) (R.remaining reader.new) took
        × IsPayload len took (R.remaining reader.new) payload.new.items is_whole) }
    ensures err { IfErr result (λ e. (e ≢ EngineError.Write) × (took : List ℕ)
        × Consumes (R.remaining reader.old) (R.remaining reader.new) took × (length took < len)) }
{
    empty_payload(alloc, payload);
    while payload.len() < len {
        let start = payload.len();
        let piece = piece_of(len - start);
        if payload.resize(start + piece, 0).is_err() {
            return Err(EngineError::Memory);
        }
        let n = fill(reader, &mut payload[start..])?;
        if n < piece {
            return Ok(false);
        }
    }
    Ok(true)
}

/// What stands next in the input.
#[derive(Drop)]
pub enum Next {
    /// Nothing.
    End,
    /// Something that is no whole record.
    Cut,
    /// A record of this kind. Its payload was read into a list.
    Record(u8),
}

/// Reads what stands behind the kind of a record, its payload into a list.
pub fn rest_of_record<R: Read>(
    alloc: Global,
    reader: &mut R,
    kind: u8,
    payload: &mut Vec<u8>,
) -> Result<Next, EngineError>
    ensures ok { IfOk result (λ next. (took : List ℕ)
        × Consumes (R.remaining reader.old) (R.remaining reader.new) took
        × IsNext (kind ∷ took) (left_of (R.remaining reader.new)) payload.new.items next) }
    ensures err { IfErr result (λ e. (e ≢ EngineError.Write) × (took : List ℕ)
        × Consumes (R.remaining reader.old) (R.remaining reader.new) took × IsUnfinished (kind ∷ took)) }
{
    let Some(len) = read_length(reader)? else {
        return Ok(Next::Cut);
    };
    let is_whole = read_payload(alloc, reader, len as usize, payload)?;
    if is_whole {
        Ok(Next::Record(kind))
    } else {
        Ok(Next::Cut)
    }
}
