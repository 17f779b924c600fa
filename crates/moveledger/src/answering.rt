// What is written for a record.
ghost use Rattle.std.specs.Prelude.{◌≡◌, ◌≢◌, ◌⊎◌, ◌++◌, ◌∷◌, [], Some, Err, IfErr, OnOk, codes, decimal};
ghost use Rattle.std.specs.Io.KnownBytes.{Appends};
ghost use Rattle.mv_machine.specs.Lines.{Reply as Told, numbered, kind_text, stop_text};
ghost use Rattle.mv_ledger.specs.Answering.{told, told_ending, told_lines};
ghost use Rattle.mv_lines.specs.Pieces.{piece_text};
ghost use Rattle.moveledger.specs.Answered.{FailsLines, FailsReply, FailsReport, FailsToAnswer, IsAnswered, Writes, WritesReply, line_of, number_at};
ghost use Rattle.moveledger.specs.Writing.{BreaksOff};

use crate::streaming::EngineError;
use itoa::Buffer;
use mv_ledger::{Ledger, Lines, Piece, Reply};
use mv_machine::{Ending, Kind, Stop};
use mv_move_types::Refusal;
use std::alloc::{AllocError, Global};
use std::io::Write;

/// Writes the whole text. A write that takes nothing before the end is a failed write.
pub fn write_text<W: Write>(writer: &mut W, text: &[u8]) -> Result<(), EngineError>
    ensures ok { OnOk result (Appends (W.contents writer.old) (W.contents writer.new) text.now) }
    ensures err { IfErr result (λ e. (e ≡ EngineError.Write) × BreaksOff text.now (W.contents writer.old) (W.contents writer.new)) }
{
    let mut written = 0;
    while written < text.len() {
        match writer.write(&text[written..]) {
            Ok(0) => return Err(EngineError::Write),
            Ok(n) => written += n,
            Err(_) => return Err(EngineError::Write),
        }
    }
    Ok(())
}

/// Why a run aborted, in the report's words.
fn kind_word(kind: Kind) -> &'static str
    ensures { result.now ≡ kind_text kind }
{
    match kind {
        Kind::Code => "code",
        Kind::Arith => "arith",
        Kind::Exists => "exists",
        Kind::Missing => "missing",
    }
}

/// What a run has used up, in the report's words.
fn stop_word(stop: Stop) -> &'static str
    ensures { result.now ≡ stop_text stop }
{
    match stop {
        Stop::Steps => "steps",
        Stop::Frames => "frames",
    }
}

/// Appends a number and the byte behind it.
fn put_number_and(line: &mut Vec<u8>, n: u64, byte: u8) -> Result<(), AllocError>
    ensures { OnOk result (line.new.items ≡ line.old.items ++ (decimal n ++ byte ∷ [])) }
{
    let mut digits = Buffer::new();
    line.extend_from_slice(digits.format(n).as_bytes())?;
    line.push(byte)?;
    Ok(())
}

/// Appends the line of a run that aborted: the record's number, the words, the number of the abort and the steps.
fn put_aborted(
    line: &mut Vec<u8>,
    number: u64,
    kind: Kind,
    n: u64,
    steps: u64,
) -> Result<(), AllocError>
    ensures { OnOk result (line.new.items ≡ line.old.items ++ numbered number (codes "aborted " ++ kind_text kind ++ codes " " ++ decimal n ++ codes " " ++ decimal steps)) }
{
    put_number_and(line, number, b' ')?;
    line.extend_from_slice(b"aborted ")?;
    line.extend_from_slice(kind_word(kind).as_bytes())?;
    line.push(b' ')?;
    put_number_and(line, n, b' ')?;
    put_number_and(line, steps, b'\n')
}

/// Appends the line of a run that used something up: the record's number, the words, what it was, and the steps.
fn put_exhausted(line: &mut Vec<u8>, number: u64, stop: Stop, steps: u64) -> Result<(), AllocError>
    ensures { OnOk result (line.new.items ≡ line.old.items ++ numbered number (codes "exhausted " ++ stop_text stop ++ codes " " ++ decimal steps)) }
{
    put_number_and(line, number, b' ')?;
    line.extend_from_slice(b"exhausted ")?;
    line.extend_from_slice(stop_word(stop).as_bytes())?;
    line.push(b' ')?;
    put_number_and(line, steps, b'\n')
}

/// Appends the record's number and a blank to a line that isn't begun.
fn put_number(line: &mut Vec<u8>, number: u64, is_begun: bool) -> Result<(), AllocError>
    ensures { OnOk result (line.new.items ≡ line.old.items ++ number_at number is_begun) }
{
    if is_begun {
        return Ok(());
    }
    put_number_and(line, number, b' ')
}

/// Appends the line of a word, with the blank after it, and a number.
fn put_count(line: &mut Vec<u8>, number: u64, word: &str, n: u64) -> Result<(), AllocError>
    ensures { OnOk result (line.new.items ≡ line.old.items ++ numbered number (word.now ++ decimal n)) }
{
    put_number_and(line, number, b' ')?;
    line.extend_from_slice(word.as_bytes())?;
    put_number_and(line, n, b'\n')
}

/// Appends the line of a run that was had.
fn put_ending(line: &mut Vec<u8>, number: u64, ending: Ending, steps: u64) -> Result<(), AllocError>
    ensures { OnOk result (line.new.items ≡ line.old.items ++ numbered number (line_of (told_ending ending steps))) }
{
    match ending {
        Ending::Returned => put_count(line, number, "returned ", steps),
        Ending::Aborted(kind, n) => put_aborted(line, number, kind, n, steps),
        Ending::Exhausted(stop) => put_exhausted(line, number, stop, steps),
    }
}

/// Appends the line of a reply; fails where an allocation failed, here or before.
fn put_reply(line: &mut Vec<u8>, number: u64, reply: Reply) -> Result<(), AllocError>
    ensures { OnOk result ((t : Told) × ((told reply ≡ Some t) × (line.new.items ≡ line.old.items ++ numbered number (line_of t)))) }
{
    match reply {
        Reply::Published(count) => put_count(line, number, "published ", count),
        Reply::Refused(phase) => put_count(line, number, "refused ", u64::from(phase)),
        Reply::Rejected(reason) => put_count(line, number, "rejected ", u64::from(reason)),
        Reply::Ran(outcome) => put_ending(line, number, outcome.ending, outcome.steps),
        Reply::Memory => Err(AllocError),
    }
}

/// Writes a piece of a line of the report: before the line's first piece the record's number and a blank, behind its last one a
/// line end. It is made in the memory of another piece.
fn write_piece<W: Write>(
    writer: &mut W,
    number: u64,
    is_begun: bool,
    piece: &Piece,
    line: &mut Vec<u8>,
) -> Result<(), EngineError>
    ensures ok { OnOk result (Appends (W.contents writer.old) (W.contents writer.new) (number_at number is_begun ++ piece_text piece.now.is_last piece.now.text.items)) }
    ensures err { IfErr result (λ e. (e ≡ EngineError.Write) ⊎ (e ≡ EngineError.Memory)) }
    // A failed write is one within the piece.
    ensures write { result ≡ Err EngineError.Write → BreaksOff (number_at number is_begun ++ piece_text piece.now.is_last piece.now.text.items)
        (W.contents writer.old) (W.contents writer.new) }
    // Memory runs out before anything of the piece is written.
    ensures memory { result ≡ Err EngineError.Memory → W.contents writer.new ≡ W.contents writer.old }
{
    line.clear();
    put_number(line, number, is_begun)?;
    piece.put(line)?;
    write_text(writer, line)
}

/// Writes lines of the report, all with the number of one record. Each piece of a line is made when the one before it is written, in
/// its memory.
fn write_lines<W: Write>(
    alloc: Global,
    writer: &mut W,
    number: u64,
    mut lines: Lines<'_>,
) -> Result<(), EngineError>
    ensures ok { OnOk result (Writes number lines.entry.left (W.contents writer.old) (W.contents writer.new)) }
    // A failed write is one within the lines. Memory runs out between two lines of text, and not within one.
    ensures err { IfErr result (λ e. FailsLines e lines.entry.format number lines.entry.left
        (W.contents writer.old) (W.contents writer.new)) }
{
    let mut line = Vec::new(alloc);
    let mut is_begun = false;
    'each: while let Some(piece) = lines.next_piece()? {
        write_piece(writer, number, is_begun, &piece, &mut line)?;
        is_begun = !piece.is_last;
    }
    Ok(())
}

/// Writes the line of a reply, after the record's number. It is made in the memory of another reply's.
pub fn write_reply<W: Write>(
    writer: &mut W,
    number: u64,
    reply: Reply,
    line: &mut Vec<u8>,
) -> Result<(), EngineError>
    ensures ok { OnOk result (WritesReply number (told reply) (W.contents writer.old) (W.contents writer.new)) }
    ensures err { IfErr result (λ e. FailsReply e number (told reply) (W.contents writer.old) (W.contents writer.new)) }
{
    line.clear();
    put_reply(line, number, reply)?;
    write_text(writer, line)
}

/// Writes the lines of a show or an audit, each after the record's number, or the line of its refusal.
fn write_report<W: Write>(
    alloc: Global,
    writer: &mut W,
    number: u64,
    report: Result<Lines<'_>, Refusal>,
    line: &mut Vec<u8>,
) -> Result<(), EngineError>
    ensures ok { OnOk result (WritesReply number (told_lines report.entry) (W.contents writer.old) (W.contents writer.new)) }
    ensures err { IfErr result (λ e. FailsReport e number report.entry (W.contents writer.old) (W.contents writer.new)) }
{
    match report {
        Ok(lines) => write_lines(alloc, writer, number, lines),
        Err(Refusal::Phase(phase)) => { write_reply(writer, number, Reply::Refused(phase), line) }
        Err(Refusal::Memory) => Err(EngineError::Memory),
    }
}

/// The kind of a publish record.
const PUBLISH: u8 = 1;

/// The kind of a run record.
const RUN: u8 = 2;

/// The kind of a show record.
const SHOW: u8 = 3;

/// The kind of an audit record.
const AUDIT: u8 = 4;

/// Answers a record that changes nothing: a show or an audit record, or one of another kind, which is refused. It isn't inlined: the
/// lines that it goes over are large, and its caller would fill the place for them with zeros at each record.
#[inline(never)]
fn answer_unchanged<W: Write>(
    alloc: Global,
    writer: &mut W,
    ledger: &Ledger,
    number: u64,
    kind: u8,
    payload: &[u8],
    line: &mut Vec<u8>,
) -> Result<(), EngineError>
    requires publish { kind ≢ 1 }
    requires run { kind ≢ 2 }
    ensures ok { OnOk result (IsAnswered number kind payload.now ledger.now ledger.now
        (W.contents writer.old) (W.contents writer.new)) }
    ensures err { IfErr result (λ e. FailsToAnswer e number kind payload.now ledger.now ledger.now
        (W.contents writer.old) (W.contents writer.new)) }
{
    if kind == SHOW {
        return write_report(alloc, writer, number, ledger.show_lines(payload), line);
    }
    if kind == AUDIT {
        return write_report(alloc, writer, number, ledger.audit_lines(payload), line);
    }
    // For the prover: so the ledger is balanced.
    ledger.is_sound();
    write_reply(writer, number, Reply::Refused(1), line)
}

/// Answers a whole record, and writes its lines; that of a reply is made in the memory of another one's. Where an allocation
/// fails, the ledger is as before or as after the record.
pub fn answer<W: Write>(
    alloc: Global,
    writer: &mut W,
    ledger: &mut Ledger,
    number: u64,
    kind: u8,
    payload: &[u8],
    line: &mut Vec<u8>,
) -> Result<(), EngineError>
    ensures ok { OnOk result (IsAnswered number kind payload.now ledger.old ledger.new
        (W.contents writer.old) (W.contents writer.new)) }
    // A write fails only where there is something to write: the ledger is as after the record then, and not all is written.
    // Memory runs out between two lines, unless the record asks for JSON.
    ensures err { IfErr result (λ e. FailsToAnswer e number kind payload.now ledger.old ledger.new
        (W.contents writer.old) (W.contents writer.new)) }
{
    if kind == PUBLISH {
        return write_reply(writer, number, ledger.publish(payload), line);
    }
    if kind == RUN {
        return write_reply(writer, number, ledger.execute(payload), line);
    }
    answer_unchanged(alloc, writer, ledger, number, kind, payload, line)
}
