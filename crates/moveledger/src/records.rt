// What record stands at the front of bytes, without answering it.
ghost use Rattle.std.specs.Prelude.{◌≤◌, length, take, MatchOption};
ghost use Rattle.mv_uleb.specs.Uleb.{IsUleb};
ghost use Rattle.mv_move_types.specs.Limits.{most_payload_bytes};
ghost use Rattle.moveledger.specs.Records.{IsText, NoWhole};
ghost use Rattle.moveledger.specs.Reading.{NoLength};

use mv_move_types::limits::MOST_PAYLOAD_BYTES;

/// A whole record at the front of bytes.
#[derive(Clone, Copy, Debug)]
pub struct Front<'a> {
    /// Its kind: 1 publish, 2 run, 3 show, 4 audit; others are answered `refused 1`.
    pub kind: u8,
    /// Its payload.
    pub payload: &'a [u8],
    /// How many bytes it takes. The next record begins behind them.
    pub length: usize,
}

/// The length of a payload that stands at the front, and how many bytes it takes.
fn length_at(bytes: &[u8]) -> Option<(usize, usize)>
    ensures { MatchOption result (NoLength bytes.now) (λ r. IsUleb (take r.1 bytes.now) r.0 × (r.0 ≤ most_payload_bytes) × (r.1 ≤ length bytes.now)) }
{
    match mv_uleb::read(bytes, MOST_PAYLOAD_BYTES) {
        Ok((length, used)) => Some((length as usize, used)),
        Err(_) => None,
    }
}

/// The record that bytes begin with; None where no whole one stands there. It isn't answered, and takes no memory.
pub fn first_record(bytes: &[u8]) -> Option<Front<'_>>
    ensures { MatchOption result (NoWhole bytes.entry.now) (λ front. IsText (take front.length bytes.entry.now) front.kind front.payload.now
        × (front.length ≤ length bytes.entry.now)) }
{
    let (kind, rest) = bytes.split_first()?;
    let (length, used) = length_at(rest)?;
    let end = used + length;
    let payload = rest.get(used..end)?;
    Some(Front {
        kind: *kind,
        payload,
        length: 1 + end,
    })
}
