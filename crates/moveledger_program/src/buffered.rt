// A buffer of which a single byte is read in a few machine instructions: the engine reads a record's kind and its length byte by byte.
ghost use Rattle.std.specs.Prelude.{◌≡◌};
ghost use Rattle.std.specs.Io.Buffered.{reader_inner, reader_remaining};

use std::io::{self, BufRead, BufReader, Read};

/// A reader with a buffer.
#[derive(Drop)]
pub struct Buffered<R> {
    inner: BufReader<R>,
}

impl<R: Read> Buffered<R> {
    /// It gives what this reader has.
    pub fn new(inner: BufReader<R>) -> Self
        ensures { result.inner ≡ inner }
    {
        Buffered { inner }
    }

    /// The reader that the buffer is filled from.
    pub fn get_ref(&self) -> &R
        ensures { result.now ≡ reader_inner self.now.inner }
    {
        self.inner.get_ref()
    }
}

impl<R: Read> Read for Buffered<R> {
    ghost remaining = { λ r. reader_remaining R.remaining r.inner };

    fn read(&mut self, buf: &mut [u8]) -> io::Result<usize> {
        if buf.len() == 1 {
            if let Some(first) = self.inner.buffer().first() {
                buf[0] = *first;
                self.inner.consume(1);
                return Ok(1);
            }
        }
        self.inner.read(buf)
    }
}
