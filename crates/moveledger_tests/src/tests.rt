// Inputs through the engine, and the reports that come out.

mod altered;
mod fakes;
mod faults;
mod rows;
mod saving;

use fakes::{Pieces, Room};
use moveledger::{EngineError, Ledger, engine};
use rows::{Row, inputs, rows_of};
use std::alloc::Global;
use std::io::ErrorKind;
use std::mem;
use std::process::Abort;
use std::test::Fail;

const MANY: usize = usize::MAX;

// How many records were answered.
type Answer = Result<u64, EngineError>;

fn whole(bytes: &[u8]) -> Pieces<'_> {
    Pieces {
        bytes,
        each: MANY,
        until: MANY,
        error: ErrorKind::Other,
        most_asked: 0,
        calls: 0,
    }
}

fn room(alloc: Global) -> Room {
    Room {
        taken: Vec::new(alloc),
        each: MANY,
        room: MANY,
        error: None,
        calls: 0,
    }
}

// A writer that asks for no memory up to 1,024 bytes; none where an allocation fails.
fn roomy(alloc: Global) -> Option<Room> {
    match Vec::with_capacity(alloc, 1024) {
        Ok(taken) => Some(Room {
            taken,
            ..room(alloc)
        }),
        Err(_) => None,
    }
}

fn answered(reader: &mut Pieces<'_>, writer: &mut Room, ledger: &mut Ledger) -> Answer {
    engine(reader, writer, ledger)
}

// What comes of an input on a new ledger, and then of another one on what that left.
fn in_turn(
    alloc: Global,
    (reader, writer): (&mut Pieces<'_>, &mut Room),
    (next_reader, next_writer): (&mut Pieces<'_>, &mut Room),
) -> (Answer, Answer) {
    let mut ledger = Ledger::new(alloc);
    let answer = answered(reader, writer, &mut ledger);
    let next_answer = answered(next_reader, next_writer, &mut ledger);
    (answer, next_answer)
}

// What comes of an input on a new ledger.
fn alone(alloc: Global, reader: &mut Pieces<'_>, writer: &mut Room) -> Answer {
    let nothing = (&mut whole(&[]), &mut room(alloc));
    let (answer, _) = in_turn(alloc, (reader, writer), nothing);
    answer
}

// Bytes are those that are wanted.
fn same(rt: &impl Abort, found: &[u8], wanted: &[u8], shows: &str) {
    assert_eq!(rt; found, wanted, "{shows}");
}

// An input that is given and taken in pieces has its report.
fn reports(rt: &impl Abort, alloc: Global, row: &Row, bytes: &[u8], wanted: &[u8], each: usize) {
    let mut reader = Pieces {
        each,
        ..whole(bytes)
    };
    let mut writer = Room {
        each,
        ..room(alloc)
    };
    let answer = alone(alloc, &mut reader, &mut writer);
    assert_eq!(rt; answer, Ok(row.count() as u64), "{}", row.shows);
    same(rt, &writer.taken, wanted, row.shows);
}

// However many bytes a reader gives and a writer takes in a call.
#[test]
fn rows_are_answered_as_wanted(rt: HostRuntime) -> Result<(), Fail> {
    let rows = rows_of(rt.alloc(), inputs())?;
    assert_eq!(rt; rows.len(), 137);
    for row in &rows {
        let bytes = row.input(rt.alloc())?;
        let wanted = row.report(rt.alloc())?;
        for each in [MANY, 7, 1] {
            reports(&rt, rt.alloc(), row, &bytes, wanted.as_bytes(), each);
        }
    }
    Ok(())
}

const MINTED_TWICE: &str = "a coin exists when it is minted again";

// A record that is said to have 33,554,432 bytes and has five: no read asks for more than a piece of it.
#[test]
fn long_payloads_are_read_in_pieces(rt: HostRuntime) {
    let mut reader = whole(&[1, 128, 128, 128, 16, 1, 2, 3, 4, 5]);
    let mut writer = room(rt.alloc());
    let answer = alone(rt.alloc(), &mut reader, &mut writer);
    assert_eq!(rt; (answer, reader.most_asked), (Ok(1), 65_536));
    same(
        &rt,
        &writer.taken,
        "1 refused 1\n".as_bytes(),
        "a long payload",
    );
}

// A payload that asks for a report, and what is shown and counted then where one coin of 7 is stored.
const REPORTS: [(&[u8], &str, &str); 2] = [
    (
        &[],
        "at 00000000000000000000000000000001 00000000000000000000000000000001::M::Coin {7}\nend 1\n",
        "count 00000000000000000000000000000001::M::Coin stored 1 packed 1 unpacked 0\nend 1\n",
    ),
    (
        &[1],
        "json {\"show\":[{\"address\":\"00000000000000000000000000000001\",\"struct\":\"00000000000000000000000000000001::M::Coin\",\"value\":\"{7}\"}]}\n",
        "json {\"audit\":[{\"packed\":\"1\",\"stored\":\"1\",\"struct\":\"00000000000000000000000000000001::M::Coin\",\"unpacked\":\"0\"}]}\n",
    ),
];

// What is shown and counted is given as one text, too.
#[test]
fn reports_are_given_as_texts(rt: HostRuntime) -> Result<(), Fail> {
    let row = Row::that_shows("a coin is counted and shown")?;
    let bytes = row.input(rt.alloc())?;
    let mut ledger = Ledger::new(rt.alloc());
    let mut writer = room(rt.alloc());
    let answer = answered(&mut whole(&bytes), &mut writer, &mut ledger);
    assert!(rt; answer.is_ok());
    for (payload, shown, counted) in REPORTS {
        let (Ok(show), Ok(audit)) = (ledger.show(payload), ledger.audit(payload)) else {
            return Err(Fail::from("memory ran out"));
        };
        assert_eq!(rt; (show.as_str(), audit.as_str()), (shown, counted));
    }
    Ok(())
}

// After a fault a ledger answers the records after those that it was changed by. They count from 1 again.

#[test]
fn ledgers_go_on_after_failed_reads(rt: HostRuntime) -> Result<(), Fail> {
    // It fails within the second record: the module is published, and no coin minted.
    let wanted = (Err(EngineError::Read), Ok(2));
    goes_on(
        &rt,
        rt.alloc(),
        (150, MANY),
        124,
        wanted,
        "1 returned 5\n2 aborted exists 0 4\n",
    )
}

#[test]
fn ledgers_go_on_after_failed_writes(rt: HostRuntime) -> Result<(), Fail> {
    // It fails within the second line: the coin is minted.
    let wanted = (Err(EngineError::Write), Ok(1));
    goes_on(
        &rt,
        rt.alloc(),
        (MANY, 16),
        176,
        wanted,
        "1 aborted exists 0 4\n",
    )
}

// A ledger that a fault stopped, after so many bytes of the input or of the report, goes on with the input's bytes from a place.
fn goes_on(
    rt: &impl Abort,
    alloc: Global,
    (until, left): (usize, usize),
    from: usize,
    answers: (Answer, Answer),
    report: &str,
) -> Result<(), Fail> {
    let bytes = Row::that_shows(MINTED_TWICE)?.input(alloc)?;
    let (mut writer, mut next_writer) = (room(alloc), room(alloc));
    writer.room = left;
    let mut reader = whole(&bytes);
    reader.until = until;
    let mut next_reader = whole(bytes.get(from..).unwrap_or(&[]));
    let first = (&mut reader, &mut writer);
    let found = in_turn(alloc, first, (&mut next_reader, &mut next_writer));
    assert_eq!(rt; found, answers);
    same(rt, &next_writer.taken, report.as_bytes(), MINTED_TWICE);
    Ok(())
}

// What was seen of an engine that memory ran out for: what it wrote, then, once memory was back, the text of its ledger, and what
// the row's whole input wrote on it.
#[derive(Clone, Copy)]
struct Told<'a> {
    written: &'a [u8],
    saved: &'a [u8],
    again: &'a [u8],
}

// What comes of an input on a new ledger, and the text of the ledger that it leaves; none where an allocation fails.
fn left_by(alloc: Global, reader: &mut Pieces<'_>, writer: &mut Room) -> (Answer, Option<Vec<u8>>) {
    let mut ledger = Ledger::new(alloc);
    let answer = answered(reader, writer, &mut ledger);
    (answer, ledger.save().ok())
}

// The text of the ledger that an input leaves; none where an allocation fails.
fn text_left_by(alloc: Global, bytes: &[u8], writer: &mut Room) -> Option<Vec<u8>> {
    match left_by(alloc, &mut whole(bytes), writer) {
        (Ok(_), text) => text,
        (Err(_), _) => None,
    }
}

// Whether the first records of a row have left a ledger of that text, that reports so on the row, and have the written bytes as a
// prefix of their report, with all lines of those before the last, which stand in `before`: afterwards all lines do. It is true
// where an allocation fails again.
fn is_left_by(
    alloc: Global,
    (first, bytes): (&[u8], &[u8]),
    told: &Told<'_>,
    before: &mut Vec<u8>,
) -> bool {
    let (mut writer, mut next_writer) = (room(alloc), room(alloc));
    let Some(text) = text_left_by(alloc, first, &mut writer) else {
        return true;
    };
    let nothing = &mut room(alloc);
    let reader = (&mut whole(first), nothing);
    let answers = in_turn(alloc, reader, (&mut whole(bytes), &mut next_writer));
    let is_written = told.written.starts_with(before) && writer.taken.starts_with(told.written);
    mem::swap(before, &mut writer.taken);
    let is_left = is_written && text.as_slice() == told.saved;
    is_left && next_writer.taken.as_slice() == told.again
        || answers.0.is_err()
        || answers.1.is_err()
}

// Whether some first records of a row have left a ledger so.
fn is_left_by_some(alloc: Global, row: &Row, bytes: &[u8], told: &Told<'_>) -> bool {
    let mut before = Vec::new(alloc);
    for count in 0..=row.count() {
        let Ok(first) = row.first(alloc, count) else {
            return true;
        };
        if is_left_by(alloc, (&first, bytes), told, &mut before) {
            return true;
        }
    }
    false
}

// What the rows show whose requests for memory are refused.
const STARVED: [&str; 8] = [
    "a coin is minted: mint(s: signer, v: u64) stores it",
    "a coin is counted and shown",
    "a coin is burnt once, and its module published again: burn(a: address) takes it out of the storage and apart",
    "a loop writes through a reference to a local: g(n: u64) keeps it n times round",
    "256 calls are within one another at most, and an input is cut: down(n: u64) calls itself with the number before, to 0",
    "coins within a vault are counted: put(s: signer) stores a vault with coins of 1 and 2",
    "a coin is stored before a run asks for more memory: put(s: signer, n: u64) stores it, and calls n functions within one another",
    "a coin stays counted where a bundle of 8 modules joins",
];

// Where an input wasn't answered: the text of the ledger once memory is back, and what comes of the input on it then.
fn again(
    rt: &HostRuntime,
    answer: Answer,
    bytes: &[u8],
    writer: &mut Room,
    ledger: &mut Ledger,
) -> (Option<Vec<u8>>, Answer) {
    if answer.is_ok() {
        return (None, answer);
    }
    // What refuses requests ends with this.
    let _ = rt.eprintln("memory is back");
    let text = ledger.save().ok();
    (text, answered(&mut whole(bytes), writer, ledger))
}

// What comes of an input on a new ledger, and of the input again where memory ran out, with the text of the ledger between.
fn once_or_again(
    rt: &HostRuntime,
    bytes: &[u8],
    writer: &mut Room,
    next_writer: &mut Room,
) -> (Answer, Answer, Option<Vec<u8>>) {
    let mut ledger = Ledger::new(rt.alloc());
    let answer = answered(&mut whole(bytes), writer, &mut ledger);
    let (text, next_answer) = again(rt, answer, bytes, next_writer, &mut ledger);
    (answer, next_answer, text)
}

// Whether an input has its report, or a ledger stands where memory ran out. It is true where that was before the engine.
fn is_told_or_stands(rt: &HostRuntime, row: &Row, bytes: &[u8], report: &[u8]) -> bool {
    let Some(mut writer) = roomy(rt.alloc()) else {
        return true;
    };
    let Some(mut next_writer) = roomy(rt.alloc()) else {
        return true;
    };
    let (answer, next_answer, text) = once_or_again(rt, bytes, &mut writer, &mut next_writer);
    let told = Told {
        written: &writer.taken,
        saved: text.as_deref().unwrap_or(&[]),
        again: &next_writer.taken,
    };
    match (answer, next_answer) {
        (Ok(_), _) => told.written == report,
        (Err(EngineError::Memory), Ok(_)) => is_left_by_some(rt.alloc(), row, bytes, &told),
        (Err(error), _) => error == EngineError::Memory,
    }
}

fn is_row_told_or_stands(rt: &HostRuntime, row: &Row) -> bool {
    let Ok(bytes) = row.input(rt.alloc()) else {
        return true;
    };
    match row.report(rt.alloc()) {
        Ok(report) => is_told_or_stands(rt, row, &bytes, report.as_bytes()),
        Err(_) => true,
    }
}

// With any one request for memory refused, which scripts/refuse-each-growth tries for each: what was written is a prefix
// of the report, and the ledger is as the records whose lines were written left it, or one more, by its text and by what it answers.
#[test]
fn ledgers_stand_where_memory_runs_out(rt: HostRuntime) -> Result<(), Fail> {
    for shows in STARVED {
        let row = Row::that_shows(shows)?;
        assert!(rt; is_row_told_or_stands(&rt, &row), "{shows}");
    }
    Ok(())
}
