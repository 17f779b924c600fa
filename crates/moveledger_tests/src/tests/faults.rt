// Readers and writers that fail once, and would go on where they were asked again: they aren't.

use super::fakes::{Pieces, Room};
use super::rows::Row;
use super::{Answer, MANY, MINTED_TWICE, alone, left_by, room, same, whole};
use moveledger::EngineError;
use std::alloc::Global;
use std::io::ErrorKind;
use std::mem;
use std::process::Abort;
use std::test::Fail;

// Errors of readers and writers, one that other programs would try again among them.
const KINDS: [ErrorKind; 7] = [
    ErrorKind::Interrupted,
    ErrorKind::WouldBlock,
    ErrorKind::TimedOut,
    ErrorKind::UnexpectedEof,
    ErrorKind::BrokenPipe,
    ErrorKind::OutOfMemory,
    ErrorKind::Other,
];

// Readers that fail after so many bytes: then so many bytes of the report are written, and the ledger is as so many records
// left it. The input has three records of 124, 52 and 52 bytes, and the report on it lines of 14, 13 and 21: a coin is published,
// minted, and minted again.
const READERS: [(&str, usize, usize, usize); 11] = [
    ("before the first kind", 0, 0, 0),
    ("behind a kind", 1, 0, 0),
    ("behind a length", 2, 0, 0),
    ("within a payload", 60, 0, 0),
    ("before the last byte of a payload", 123, 0, 0),
    ("before the second kind", 124, 14, 1),
    ("behind the second kind", 125, 14, 1),
    ("within the second payload", 150, 14, 1),
    ("before the third kind", 176, 27, 2),
    ("before the last byte", 227, 27, 2),
    ("at the end", 228, 48, 3),
];

// Writers that fail after so many bytes of the report: then so many bytes of the input are read, and the ledger is as so many
// records left it.
const WRITERS: [(&str, usize, usize, usize); 9] = [
    ("before the first line", 0, 124, 1),
    ("behind a number", 1, 124, 1),
    ("within the first line", 3, 124, 1),
    ("before a line end", 13, 124, 1),
    ("before the second line", 14, 176, 2),
    ("within the second line", 16, 176, 2),
    ("before the second line end", 26, 176, 2),
    ("before the third line", 27, 228, 3),
    ("before the last line end", 47, 228, 3),
];

// The text of the ledger that an input leaves is put into a list.
fn hold(
    rt: &impl Abort,
    alloc: Global,
    (reader, writer): (&mut Pieces<'_>, &mut Room),
    held: &mut Vec<u8>,
) -> Answer {
    let (answer, text) = left_by(alloc, reader, writer);
    assert!(rt; text.is_some(), "memory is there to save a ledger");
    *held = text.unwrap_or(Vec::new(alloc));
    answer
}

// A fault: after how many bytes of the input the reader fails, and after how many of the report the writer does; and what is to
// come of it: the engine's answer, how many bytes are read and written, and how many records have left the ledger as it is.
#[derive(Clone, Copy)]
struct Fault {
    until: usize,
    left: usize,
    error: EngineError,
    read: usize,
    written: usize,
    records: usize,
}

// What comes of an input with a reader that gives 7 bytes a call and fails after so many, and a writer that takes 5 and fails
// after so many: the engine's answer, how many bytes were read, and how often what failed was asked from then on. With no error
// the writer takes nothing there. What was written and what the ledger holds are put into lists.
fn come(
    rt: &impl Abort,
    alloc: Global,
    bytes: &[u8],
    (until, left): (usize, usize),
    error: Option<ErrorKind>,
    (written, held): (&mut Vec<u8>, &mut Vec<u8>),
) -> (Answer, usize, usize) {
    let mut reader = Pieces {
        until,
        each: 7,
        error: error.unwrap_or(ErrorKind::Other),
        ..whole(bytes)
    };
    let mut writer = room(alloc);
    writer.room = left;
    writer.each = 5;
    writer.error = error;
    let answer = hold(rt, alloc, (&mut reader, &mut writer), held);
    mem::swap(written, &mut writer.taken);
    let read = bytes.len().saturating_sub(reader.bytes.len());
    (answer, read, reader.calls.saturating_add(writer.calls))
}

// A fault of this kind ends the engine so: this is written, and the ledger holds this.
fn ends_so(
    rt: &impl Abort,
    alloc: Global,
    (fault, kind): (&Fault, ErrorKind),
    bytes: &[u8],
    wanted: (&[u8], &[u8]),
    shows: &str,
) {
    let (mut written, mut held) = (Vec::new(alloc), Vec::new(alloc));
    let faults = (fault.until, fault.left);
    let lists = (&mut written, &mut held);
    let came = come(rt, alloc, bytes, faults, Some(kind), lists);
    assert_eq!(rt; came, (Err(fault.error), fault.read, 1), "{shows}");
    same(rt, &written, wanted.0, shows);
    same(rt, &held, wanted.1, shows);
}

// A fault ends the engine so, whatever its kind.
fn ends(rt: &impl Abort, alloc: Global, fault: &Fault, shows: &str) -> Result<(), Fail> {
    let row = Row::that_shows(MINTED_TWICE)?;
    let bytes = row.input(alloc)?;
    let report = row.report(alloc)?;
    let first = row.first(alloc, fault.records)?;
    let (mut writer, mut held) = (room(alloc), Vec::new(alloc));
    let answer = hold(rt, alloc, (&mut whole(&first), &mut writer), &mut held);
    assert_eq!(rt; answer, Ok(fault.records as u64));
    let Some(lines) = report.as_bytes().get(..fault.written) else {
        return Err(Fail::from("the report is shorter"));
    };
    let wanted = (lines, held.as_slice());
    for kind in KINDS {
        ends_so(rt, alloc, (fault, kind), &bytes, wanted, shows);
    }
    Ok(())
}

// Whatever the error: it is told, nothing is tried again, no byte is read behind the record that is being answered, and the
// ledger is as after the last record that was read whole.

#[test]
fn failed_reads_end_it(rt: HostRuntime) -> Result<(), Fail> {
    for (shows, read, written, records) in READERS {
        let fault = Fault {
            until: read,
            left: MANY,
            error: EngineError::Read,
            read,
            written,
            records,
        };
        ends(&rt, rt.alloc(), &fault, shows)?;
    }
    Ok(())
}

#[test]
fn failed_writes_end_it(rt: HostRuntime) -> Result<(), Fail> {
    for (shows, written, read, records) in WRITERS {
        let fault = Fault {
            until: MANY,
            left: written,
            error: EngineError::Write,
            read,
            written,
            records,
        };
        ends(&rt, rt.alloc(), &fault, shows)?;
    }
    Ok(())
}

// A writer takes nothing once, behind these bytes of the report: then so many bytes of the input are read, and the ledger has this
// text.
fn takes_nothing(
    rt: &impl Abort,
    alloc: Global,
    bytes: &[u8],
    taken: &[u8],
    (read, text): (usize, &[u8]),
) {
    let (mut written, mut held) = (Vec::new(alloc), Vec::new(alloc));
    let lists = (&mut written, &mut held);
    let came = come(rt, alloc, bytes, (MANY, taken.len()), None, lists);
    assert_eq!(rt; came, (Err(EngineError::Write), read, 1));
    same(rt, &written, taken, "a writer that takes nothing");
    same(rt, &held, text, "a writer that takes nothing");
}

// Where each line of the report ends; how many bytes of the input, and how many records, are read by then.
const LINES: [(usize, usize, usize); 3] = [(14, 124, 1), (27, 176, 2), (48, 228, 3)];

// A writer that takes nothing once, at each byte of a line of the report.
fn take_nothing(
    rt: &impl Abort,
    alloc: Global,
    (from, to): (usize, usize),
    (read, records): (usize, usize),
) -> Result<(), Fail> {
    let row = Row::that_shows(MINTED_TWICE)?;
    let bytes = row.input(alloc)?;
    let report = row.report(alloc)?;
    let first = row.first(alloc, records)?;
    let (mut writer, mut held) = (room(alloc), Vec::new(alloc));
    let answer = hold(rt, alloc, (&mut whole(&first), &mut writer), &mut held);
    assert_eq!(rt; answer, Ok(records as u64));
    for at in from..to {
        let taken = report.as_bytes().get(..at).ok_or("the report is shorter")?;
        takes_nothing(rt, alloc, &bytes, taken, (read, &held));
    }
    Ok(())
}

#[test]
fn writers_that_take_nothing_end_it(rt: HostRuntime) -> Result<(), Fail> {
    let mut from = 0;
    for (to, read, records) in LINES {
        take_nothing(&rt, rt.alloc(), (from, to), (read, records))?;
        from = to;
    }
    Ok(())
}

// Shows and audits, as text and as JSON.
const SHOWN: &str = "several entries as JSON, each but the first behind a comma";

// A writer fails with this error, or takes nothing, behind these bytes of the report: that is told, and no byte is written behind it.
fn breaks_off(
    rt: &impl Abort,
    alloc: Global,
    bytes: &[u8],
    taken: &[u8],
    error: Option<ErrorKind>,
) {
    let mut writer = room(alloc);
    writer.room = taken.len();
    writer.error = error;
    let answer = alone(alloc, &mut whole(bytes), &mut writer);
    let told = (answer, writer.calls);
    assert_eq!(rt; told, (Err(EngineError::Write), 1), "{SHOWN}");
    same(rt, &writer.taken, taken, SHOWN);
}

// Each so many bytes of the report a write fails.
const APART: usize = 17;

// A failed write within a show is no want of memory, whatever its kind and wherever it comes.
#[test]
fn failed_writes_within_shows_are_told(rt: HostRuntime) -> Result<(), Fail> {
    let row = Row::that_shows(SHOWN)?;
    let bytes = row.input(rt.alloc())?;
    let report = row.report(rt.alloc())?;
    for step in 0..report.len() / APART {
        let taken = report
            .as_bytes()
            .get(..step * APART)
            .ok_or("the report is shorter")?;
        for error in [None, Some(ErrorKind::Other), Some(ErrorKind::OutOfMemory)] {
            breaks_off(&rt, rt.alloc(), &bytes, taken, error);
        }
    }
    Ok(())
}

// Inputs that end where the reader fails: what comes of them, and what was written.
const LENGTHS: [(&str, Result<u64, EngineError>, &str); 5] = [
    // Four bytes that say that another follows.
    ("0180808080", Err(EngineError::Read), ""),
    // Ten of them: the reader isn't asked for more.
    ("0180808080808080808080", Ok(1), "1 refused 1\n"),
    // A length that isn't in its shortest form.
    ("018000", Ok(1), "1 refused 1\n"),
    // A length past the limit.
    ("0181808010", Ok(1), "1 refused 1\n"),
    // A record of no bytes, and a kind.
    ("060001", Err(EngineError::Read), "1 refused 1\n"),
];

// An input that ends where the reader fails is answered so.
fn is_read(
    rt: &impl Abort,
    alloc: Global,
    digits: &str,
    wanted: (Answer, &[u8]),
) -> Result<(), Fail> {
    let bytes = hex::decode(alloc, digits)?;
    let mut reader = whole(&bytes);
    reader.until = bytes.len();
    let mut writer = room(alloc);
    let answer = alone(alloc, &mut reader, &mut writer);
    let calls = usize::from(answer.is_err());
    assert_eq!(rt; (answer, reader.calls), (wanted.0, calls), "{digits}");
    same(rt, &writer.taken, wanted.1, digits);
    Ok(())
}

#[test]
fn lengths_are_read_to_their_end_and_no_further(rt: HostRuntime) -> Result<(), Fail> {
    for (digits, wanted, written) in LENGTHS {
        is_read(&rt, rt.alloc(), digits, (wanted, written.as_bytes()))?;
    }
    Ok(())
}
