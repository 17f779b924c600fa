// Whether what was read ends with a whole record, as the bytes pass.
ghost use Rattle.std.specs.Prelude.{◌≡◌, ◌<◌, ◌≤◌, [], ◌∷◌, length, take, IfOk, OnErr};
ghost use Rattle.std.specs.Io.{ReadsAtMost};
ghost use Rattle.std.specs.Io.KnownBytes.{ReadConsumes};
ghost use Rattle.moveledger_program.specs.Following.{Leads, StandsAt, TellsWhole};

use mv_move_types::limits::MOST_PAYLOAD_BYTES;
use std::io::{self, Read};

/// The first bytes of a record's length.
#[derive(Clone, Copy)]
struct LengthBytes {
    bytes: [u8; 10],
    count: usize,
}

impl LengthBytes {
    /// None yet.
    fn none() -> Self
        ensures room { length result.bytes ≡ 10 }
        ensures none { result.count ≡ 0 }
    {
        LengthBytes {
            bytes: [0; 10],
            count: 0,
        }
    }

    /// One more byte: where it, the last of these, ends.
    fn more(mut self, byte: u8) -> ParseState
        ensures { Leads (ParseState.Length self) (byte ∷ []) result }
    {
        if self.count >= self.bytes.len() {
            return ParseState::NoLength;
        }
        self.bytes[self.count] = byte;
        self.count += 1;
        if byte >= 128 {
            return ParseState::Length(self);
        }
        match mv_uleb::read(&self.bytes[..self.count], MOST_PAYLOAD_BYTES) {
            Ok((missing, _)) => ParseState::Record(missing),
            Err(_) => ParseState::NoLength,
        }
    }
}

/// Where bytes end, among the records that they are.
#[derive(Clone, Copy)]
enum ParseState {
    /// So many bytes before the end of a record. Behind a whole record, and before the first one, none are missing.
    Record(u64),
    /// Within the length of a record, or before it.
    Length(LengthBytes),
    /// Behind bytes in the place of a length that are none: no whole record ends there or further on.
    NoLength,
}

impl ParseState {
    /// Where the first of these bytes end, which go on from here, and how many these are: one, a kind with a length of one byte, or
    /// those of a payload.
    fn after_first(self, bytes: &[u8]) -> (ParseState, usize)
        requires { 0 < length bytes.now }
        ensures some { 0 < result.1 }
        ensures within { result.1 ≤ length bytes.now }
        ensures leads { Leads self (take result.1 bytes.now) result.0 }
    {
        match self {
            ParseState::Record(0) => match bytes {
                [_, length, ..] if *length < 128 => (ParseState::Record(u64::from(*length)), 2),
                _ => (ParseState::Length(LengthBytes::none()), 1),
            },
            ParseState::Record(missing) => {
                let count = missing.min(bytes.len() as u64);
                (ParseState::Record(missing - count), count as usize)
            }
            ParseState::Length(begun) => (begun.more(bytes[0]), 1),
            ParseState::NoLength => (ParseState::NoLength, bytes.len()),
        }
    }

    /// Where these bytes end, which go on from here.
    fn after(self, bytes: &[u8]) -> ParseState
        ensures { Leads self bytes.now result }
    {
        let mut state = self;
        let mut passed = 0;
        while passed < bytes.len() {
            let (next, count) = state.after_first(&bytes[passed..]);
            state = next;
            passed += count;
        }
        state
    }

    /// Whether the bytes that end here are whole records.
    fn is_whole(self) -> bool
        ensures { TellsWhole self result }
    {
        match self {
            ParseState::Record(missing) => missing == 0,
            ParseState::Length(_) | ParseState::NoLength => false,
        }
    }
}

/// A reader that follows the records as it gives their bytes.
#[derive(Drop)]
pub struct Followed<R> {
    inner: R,
    state: ParseState,
}

impl<R: Read> Followed<R> {
    /// It follows from here on, where the first record begins.
    pub fn new(inner: R) -> Self
        ensures remaining { R.remaining result.inner ≡ R.remaining inner }
        ensures stands { StandsAt result.state [] }
    {
        Followed {
            inner,
            state: ParseState::Record(0),
        }
    }

    /// Whether the bytes that it gave are whole records.
    pub fn is_whole(&self) -> bool
        ensures { TellsWhole self.now.state result }
    {
        self.state.is_whole()
    }
}

impl<R: Read> Read for Followed<R> {
    ghost remaining = { λ r. R.remaining r.inner };

    fn read(&mut self, buf: &mut [u8]) -> io::Result<usize>
        ensures bound { ReadsAtMost result buf.new }
        ensures bytes { ReadConsumes (R.remaining self.old.inner) (R.remaining self.new.inner) result buf.new }
        ensures leads { IfOk result (λ n. Leads self.old.state (take n buf.new) self.new.state) }
        ensures stays { OnErr result (self.new.state ≡ self.old.state) }
    {
        let n = self.inner.read(buf)?;
        self.state = self.state.after(&buf[..n]);
        Ok(n)
    }
}
