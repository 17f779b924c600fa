// What standard error says behind the line of a fault, of bytes that are plainly of another kind, and of files that stay.
ghost use Rattle.std.specs.Prelude.{◌≡◌, None};

use moveledger::{End, KeepError, Notice, Tell};
use std::alloc::Global;
use std::fmt::{self, Display, Formatter};
use std::io;

/// How the program ends, and a line for standard error that says more, if there is one: the file, and why.
#[derive(Drop)]
pub struct Told {
    pub end: End,
    pub why: Option<String>,
}

impl Told {
    /// An end of which no more is said.
    pub fn plainly(end: End) -> Self
        ensures end { result.end ≡ end }
        ensures why { result.why ≡ None }
    {
        Told { end, why: None }
    }

    /// An end, and what a file has to do with it. Where there is no memory for the line, the end alone is told.
    pub fn of_file<D: Display + Drop>(alloc: Global, end: End, file: &str, why: D) -> Self
        ensures { result.end ≡ end }
    {
        let why = format!(in alloc; "moveledger: {file}: {why}\n").ok();
        Told { end, why }
    }
}

/// The system's words for a number, where it gave one.
#[derive(Clone, Copy, Debug, PartialEq, Eq)]
pub struct Words(pub Option<i32>);

impl Display for Words {
    fn fmt<W: fmt::Write>(&self, f: &mut Formatter<W>) -> fmt::Result {
        match self.0 {
            Some(number) => write!(f, "{}", io::Error::from_raw_os_error(number)),
            None => f.write_str("the system doesn't say why"),
        }
    }
}

/// Why a ledger can't be saved by a name.
#[derive(Clone, Copy, Debug, PartialEq, Eq)]
pub struct Reason<'a> {
    pub path: &'a str,
    pub error: KeepError,
}

impl Display for Reason<'_> {
    fn fmt<W: fmt::Write>(&self, f: &mut Formatter<W>) -> fmt::Result {
        match self.error {
            KeepError::Write(None) => f.write_str("can't save the ledger there"),
            KeepError::Write(number) => write!(f, "{}", Words(number)),
            KeepError::NoLedger => {
                f.write_str("this file isn't a saved ledger; it was left unchanged")
            }
            KeepError::InUse => f.write_str("another program has this ledger in use"),
            KeepError::NoLock(number) => {
                write!(f, "its place can't be locked: {}", Words(number))
            }
            KeepError::Name if self.path.is_empty() => f.write_str("there is no name"),
            KeepError::Name => {
                f.write_str("names that begin with .moveledger- are the program's own")
            }
            KeepError::Memory => f.write_str("no memory is left"),
        }
    }
}

/// Standard error, where it is said which files stay while a ledger is saved by a name.
#[derive(Drop)]
pub struct Teller<'a> {
    pub rt: &'a HostRuntime,
    pub path: &'a str,
}

/// What is told of files that stay while a ledger is saved by a name.
#[derive(Clone, Copy, Debug, PartialEq, Eq)]
struct Line<'a> {
    path: &'a str,
    notice: Notice<'a>,
}

impl Display for Line<'_> {
    fn fmt<W: fmt::Write>(&self, f: &mut Formatter<W>) -> fmt::Result {
        let path = self.path;
        match self.notice {
            Notice::Previous(name) => {
                write!(f, "{path}: the ledger that stood there is kept as {name}")
            }
            Notice::Earlier(name) => write!(
                f,
                "{path}: what an earlier program couldn't put in place is kept as {name}"
            ),
            Notice::Unsaved(name) => {
                write!(
                    f,
                    "the ledger is whole in {name}: move or copy it to {path}"
                )
            }
            Notice::Unconfirmed(number) => {
                let words = Words(number);
                write!(f, "{path}: the disk hasn't confirmed that: {words}")
            }
            Notice::Placed(number) => {
                let words = Words(number);
                write!(
                    f,
                    "{path}: it is in its place, but the disk hasn't confirmed that: {words}"
                )
            }
        }
    }
}

impl Tell for Teller<'_> {
    fn tell(&self, notice: Notice<'_>) {
        let line = Line {
            path: self.path,
            notice,
        };
        // In one write, unless there is no memory for that.
        let _ = match format!(in self.rt.alloc(); "moveledger: {line}\n") {
            Ok(said) => self.rt.eprint(said.as_str()),
            Err(_) => eprint!(self.rt; "moveledger: {line}\n"),
        };
    }
}
