// The files that are read, what they plainly are, and what is said where a read or a write fails.
ghost use Rattle.std.specs.Prelude.{◌≡◌, ◌+◌, ◌-◌, ◌^◌, IfOk, IfSome, None, min, unwrap_or};
ghost use Rattle.std.specs.Io.Buffered.{reader_remaining};
ghost use Rattle.std.specs.Io.KnownBytes.{Keeps};
ghost use Rattle.std.specs.Fs.{file_type, metadata_len, IsFile};

use crate::kinds::{FRONT, Kind, kind_of};
use crate::meter::Noted;
use crate::told::{Told, Words};
use moveledger::{End, Looks, Place};
use std::cell::Cell;
use std::fs::{self, File, Metadata};
use std::io::{self, BufRead, BufReader, Read};

/// The word for standard input on the command line.
pub const STANDARD_INPUT: &str = "-";

/// Where standard input is found by a name, to see what it is.
pub const STANDARD_INPUT_FILE: &str = "/dev/stdin";

/// Where standard output is found by a name, to see what it is.
pub const STANDARD_OUTPUT_FILE: &str = "/dev/stdout";

/// What is said where a read failed that had begun.
const NOT_READ: &str = "it can't be read to its end";

/// Standard output, and the system's number of a write to it that failed.
#[derive(Drop)]
pub struct Output<'a> {
    pub rt: &'a HostRuntime,
    pub failed: Cell<Option<i32>>,
}

impl<'a> Output<'a> {
    /// Standard output before the first write.
    pub fn new(rt: &'a HostRuntime) -> Self {
        Output {
            rt,
            failed: Cell::new(None),
        }
    }

    /// An end with the file that it is about, where a read or a write failed.
    pub fn told(&self, end: End, path: &str) -> Told
        ensures { result.end ≡ end }
    {
        let alloc = self.rt.alloc();
        match end {
            End::Read => match why_not_read(self.rt, path) {
                Some(why) => Told::of_file(alloc, end, shown(path), why),
                None => Told::of_file(alloc, end, shown(path), NOT_READ),
            },
            End::Write => {
                let words = Words(self.failed.get());
                Told::of_file(alloc, end, "can't write to standard output", words)
            }
            _ => Told::plainly(end),
        }
    }
}

/// The name of a file for who reads of it.
pub fn shown(path: &str) -> &str {
    if path == STANDARD_INPUT {
        "standard input"
    } else {
        path
    }
}

/// Which file standard output is.
pub fn standard_output(rt: &HostRuntime) -> Option<Place> {
    match rt.look_through(STANDARD_OUTPUT_FILE) {
        Ok(Some(found)) => Some(found.seen.place),
        _ => None,
    }
}

/// Opens a file to read it.
pub fn open(rt: &HostRuntime, path: &str) -> Result<File, Told> {
    match File::open(rt, path) {
        Ok(file) => Ok(file),
        Err(e) => Err(Told::of_file(rt.alloc(), End::Read, path, e)),
    }
}

/// Whether a name is that of a regular file or of a folder, which can be opened again: a pipe might wait for its other end.
fn is_at_rest(rt: &HostRuntime, path: &str) -> bool {
    match fs::metadata(rt, path) {
        Ok(found) => found.is_file() || found.is_dir(),
        Err(_) => false,
    }
}

/// Why a file can't be read, if a read of it fails again.
fn why_not_read(rt: &HostRuntime, path: &str) -> Option<io::Error> {
    if path == STANDARD_INPUT || !is_at_rest(rt, path) {
        return None;
    }
    let mut file = match File::open(rt, path) {
        Ok(file) => file,
        Err(e) => return Some(e),
    };
    let mut front = [0u8; 1];
    file.read(&mut front).err()
}

/// What a regular file plainly is.
fn kind_of_file(rt: &HostRuntime, path: &str) -> Option<Kind> {
    regular_size(fs::metadata(rt, path))?;
    let mut file = File::open(rt, path).ok()?;
    let mut front = [0u8; FRONT];
    let count = file.read(&mut front).ok()?;
    kind_of(&front[..count])
}

/// An end with a word of advice, where a file is plainly of another kind than the one that is read.
pub fn advised(rt: &HostRuntime, told: Told, path: &str, wanted: Kind) -> Told {
    if told.why.is_some() {
        return told;
    }
    match kind_of_file(rt, path) {
        Some(found) => match found.advice(wanted) {
            Some(advice) => Told::of_file(rt.alloc(), told.end, path, advice),
            None => told,
        },
        None => told,
    }
}

/// What is to be said before the first record is answered, where what is read is plainly no stream of records. It waits for the
/// first bytes, as the first record does.
///
/// # Errors
///
/// If they can't be read.
pub fn advice_before<R: Read>(reader: &mut BufReader<R>) -> io::Result<Option<&'static str>>
    // The first record is still to come.
    ensures kept { Keeps (reader_remaining R.remaining reader.old) (reader_remaining R.remaining reader.new) }
{
    let front = reader.fill_buf()?;
    let count = front.len().min(FRONT);
    match kind_of(&front[..count]) {
        Some(kind) => Ok(kind.advice(Kind::Stream)),
        None => Ok(None),
    }
}

/// How many bytes a regular file has; None of anything else.
pub fn regular_size(metadata: io::Result<Metadata>) -> Option<u64>
    ensures some { IfSome result (λ size. IfOk metadata (λ m. IsFile (file_type m) × (size ≡ metadata_len m))) }
    ensures none { result ≡ None → IfOk metadata (λ m. ¬ IsFile (file_type m)) }
{
    match metadata {
        Ok(found) if found.is_file() => Some(found.len()),
        _ => None,
    }
}

/// Room for a file's bytes, and for one more: a read of it then finds the end.
pub fn expected_bytes(size: Option<u64>) -> usize
    ensures { result ≡ min (unwrap_or size 0 + 1) (2 ^ 64 - 1) }
{
    let size = usize::try_from(size.unwrap_or(0)).unwrap_or(0);
    size.saturating_add(1)
}
