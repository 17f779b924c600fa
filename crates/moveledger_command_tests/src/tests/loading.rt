// What is said of a ledger whose reader fails, begins with no mark, or doesn't end.

use moveledger::{End, loaded, migrated};
use std::alloc::Global;
use std::io::{self, ErrorKind, Read};
use std::process::Abort;

/// A reader that gives some bytes, and then fails.
#[derive(Drop)]
struct Failing<'a> {
    front: &'a [u8],
    kind: ErrorKind,
}

impl Read for Failing<'_> {
    fn read(&mut self, buf: &mut [u8]) -> io::Result<usize> {
        if self.front.is_empty() {
            return Err(io::Error::from(self.kind));
        }
        self.front.read(buf)
    }
}

// How a ledger of this reader isn't loaded, and isn't migrated; nothing is printed of it.
fn ends(rt: &impl Abort, alloc: Global, front: &[u8], kind: ErrorKind, wanted: End, text: &[u8]) {
    let mut lines = Vec::new(alloc);
    let end = match loaded(alloc, Failing { front, kind }, 0, &mut lines) {
        Ok(_) => End::Done,
        Err(end) => end,
    };
    assert_eq!(rt; (end, lines.as_slice()), (wanted, text));
    let mut lines = Vec::new(alloc);
    let end = match migrated(alloc, Failing { front, kind }, 0, &mut lines) {
        Ok(_) => End::Done,
        Err(end) => end,
    };
    assert_eq!(rt; (end, lines.as_slice()), (wanted, text));
}

#[test]
fn want_of_memory_is_no_failed_read(rt: HostRuntime) {
    for front in [
        b"".as_slice(),
        b"MVL".as_slice(),
        b"MVL2".as_slice(),
        b"MVL2\0\0".as_slice(),
    ] {
        for (kind, wanted) in [
            (ErrorKind::OutOfMemory, End::Memory),
            (ErrorKind::Other, End::Read),
        ] {
            ends(&rt, rt.alloc(), front, kind, wanted, b"");
        }
    }
}

// Behind four bytes that are no mark nothing is read.
#[test]
fn no_mark_is_refused_at_once(rt: HostRuntime) {
    for front in [b"MVL3".as_slice(), b"\0\0\0\0".as_slice()] {
        let wanted = End::LoadRefused(1);
        ends(
            &rt,
            rt.alloc(),
            front,
            ErrorKind::Other,
            wanted,
            b"load refused 1\n",
        );
    }
}

/// A reader that gives some bytes, and then zeros without end.
#[derive(Drop)]
pub struct Endless<'a> {
    pub front: &'a [u8],
}

impl Read for Endless<'_> {
    fn read(&mut self, buf: &mut [u8]) -> io::Result<usize> {
        if self.front.is_empty() {
            buf.fill(0);
            return Ok(buf.len());
        }
        self.front.read(buf)
    }
}

// What is printed of a ledger of this reader.
fn prints(rt: &impl Abort, alloc: Global, front: &[u8], expected: usize, wanted: &[u8]) {
    let mut lines = Vec::new(alloc);
    let is_loaded = loaded(alloc, Endless { front }, expected, &mut lines).is_ok();
    assert_eq!(rt; (is_loaded, lines.as_slice()), (false, wanted));
    let mut lines = Vec::new(alloc);
    let is_migrated = migrated(alloc, Endless { front }, expected, &mut lines).is_ok();
    assert_eq!(rt; (is_migrated, lines.as_slice()), (false, wanted));
}

// Their first bytes tell that texts with zeros behind are no ledgers', however many were expected.
#[test]
fn texts_without_end_are_refused(rt: HostRuntime) {
    for (front, wanted) in [
        (b"".as_slice(), b"load refused 1\n".as_slice()),
        // A number of runs that ends in a needless byte.
        (b"MVL2\x80".as_slice(), b"load refused 1\n".as_slice()),
        // More modules than a ledger has, and a module and a certificate of more bytes than there are in one.
        (b"MVL2\0\x81\x20".as_slice(), b"load refused 1\n".as_slice()),
        (
            b"MVL1\0\x01\x81\x80\x04".as_slice(),
            b"load refused 1\n".as_slice(),
        ),
        (
            b"MVL2\0\x01\0\x81\x80\x40".as_slice(),
            b"load refused 1\n".as_slice(),
        ),
        (b"MVL1".as_slice(), b"load refused 4\n".as_slice()),
        (b"MVL2".as_slice(), b"load refused 4\n".as_slice()),
        (b"MVL2\0\0".as_slice(), b"load refused 4\n".as_slice()),
        // A module of no bytes.
        (b"MVL2\0\x01".as_slice(), b"load refused 2\n".as_slice()),
    ] {
        for expected in [0, 4, 1 << 35, usize::MAX] {
            prints(&rt, rt.alloc(), front, expected, wanted);
        }
    }
}
