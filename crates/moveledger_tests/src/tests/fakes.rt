// Readers and writers that give, take and fail as a test asks.

ghost use Rattle.std.specs.Prelude.{Some};

use std::io;
use std::io::{ErrorKind, Read, Write};

/// A reader over memory that gives at most `each` bytes a call. Once it has given `until`, it fails with `error`, and goes on
/// where it is asked again. It notes the most bytes that a call asked for, and how many calls there were from the failed one on.
#[derive(Drop)]
pub struct Pieces<'a> {
    pub bytes: &'a [u8],
    pub each: usize,
    pub until: usize,
    pub error: ErrorKind,
    pub most_asked: usize,
    pub calls: usize,
}

impl Read for Pieces<'_> {
    // What it gives if it doesn't fail. A failed read takes nothing of it.
    ghost remaining = { λ r. Some r.bytes.now };

    fn read(&mut self, buf: &mut [u8]) -> io::Result<usize> {
        self.most_asked = self.most_asked.max(buf.len());
        if self.calls > 0 {
            self.calls = self.calls.saturating_add(1);
        }
        if self.until == 0 {
            self.until = usize::MAX;
            self.calls = 1;
            return Err(io::Error::from(self.error));
        }
        let most = self
            .each
            .max(1)
            .min(self.until)
            .min(buf.len())
            .min(self.bytes.len());
        let (now, later) = self.bytes.split_at(most);
        buf[..most].copy_from_slice(now);
        self.bytes = later;
        self.until -= most;
        Ok(most)
    }
}

/// A writer into memory that takes at most `each` bytes a call. Once it has taken `room`, it fails with `error`, or takes
/// nothing, and goes on where it is asked again. It notes how many calls there were from the failed one on.
#[derive(Drop)]
pub struct Room {
    pub taken: Vec<u8>,
    pub each: usize,
    pub room: usize,
    pub error: Option<ErrorKind>,
    pub calls: usize,
}

impl Write for Room {
    ghost contents = { λ w. Some w.taken.items };

    fn write(&mut self, buf: &[u8]) -> io::Result<usize> {
        if self.calls > 0 {
            self.calls = self.calls.saturating_add(1);
        }
        if self.room == 0 {
            self.room = usize::MAX;
            self.calls = 1;
            return match self.error {
                Some(kind) => Err(io::Error::from(kind)),
                None => Ok(0),
            };
        }
        let most = self.each.min(self.room).min(buf.len());
        self.taken.extend_from_slice(&buf[..most])?;
        self.room -= most;
        Ok(most)
    }

    fn flush(&mut self) -> io::Result<()> {
        Ok(())
    }
}
