// What a terminal shows of a run that takes long: how far it is.
ghost use Rattle.std.specs.Prelude.{◌≡◌, IfOk, Ok, string_bytes};
ghost use Rattle.moveledger_program.specs.Meter.{meter_text};

use moveledger::{AfterRecord, EngineError};
use std::alloc::{AllocError, Global};
use std::cell::Cell;
use std::io::{self, IsTerminal, Printer, Read, Write};
use std::time::{Duration, Instant};

/// A reader that counts the bytes that it gives.
#[derive(Drop)]
pub struct Counted<R> {
    inner: R,
    bytes: u64,
}

impl<R: Read> Counted<R> {
    /// Counts from here on.
    pub fn new(inner: R) -> Self
        ensures { R.remaining result.inner ≡ R.remaining inner }
    {
        Counted { inner, bytes: 0 }
    }

    /// The reader that gives them.
    pub fn get_ref(&self) -> &R
        ensures { result.now ≡ self.now.inner }
    {
        &self.inner
    }
}

impl<R: Read> Read for Counted<R> {
    ghost remaining = { λ r. R.remaining r.inner };

    fn read(&mut self, buf: &mut [u8]) -> io::Result<usize> {
        let n = self.inner.read(buf)?;
        self.bytes = self.bytes.saturating_add(n as u64);
        Ok(n)
    }
}

/// One line on standard error, which is written again and again.
#[derive(Drop)]
pub struct Screen<'a> {
    rt: &'a HostRuntime,
    is_shown: Cell<bool>,
}

impl<'a> Screen<'a> {
    /// Standard error with no line on it.
    pub fn new(rt: &'a HostRuntime) -> Self {
        Screen {
            rt,
            is_shown: Cell::new(false),
        }
    }

    /// Shows this line in the place of the one before, which is no longer than this one.
    fn show(&self, line: &str) {
        let _ = self.rt.eprint(line);
        self.is_shown.set(true);
    }

    /// Takes the line away, if one is shown.
    pub fn erase(&self) {
        if self.is_shown.get() {
            let _ = self.rt.eprint("\r\x1b[K");
            self.is_shown.set(false);
        }
    }
}

/// A writer that notes the system's number of a write that failed.
#[derive(Drop)]
pub struct Noted<'a, W> {
    inner: W,
    failed: &'a Cell<Option<i32>>,
}

impl<'a, W: Write> Noted<'a, W> {
    /// Notes it there.
    pub fn new(inner: W, failed: &'a Cell<Option<i32>>) -> Self
        ensures { W.contents result.inner ≡ W.contents inner }
    {
        Noted { inner, failed }
    }
}

impl<W: Write> Write for Noted<'_, W> {
    ghost contents = { λ r. W.contents r.inner };

    fn write(&mut self, buf: &[u8]) -> io::Result<usize> {
        match self.inner.write(buf) {
            Ok(n) => Ok(n),
            Err(e) => {
                self.failed.set(e.raw_os_error());
                Err(e)
            }
        }
    }

    fn flush(&mut self) -> io::Result<()> {
        self.inner.flush()
    }
}

/// The report, as it goes to standard output. Where that is a terminal, as standard error may be, the line there is taken away
/// before anything is written.
#[derive(Drop)]
pub struct Report<'a, W> {
    inner: W,
    screen: &'a Screen<'a>,
    is_terminal: bool,
}

impl<'a, W: Write> Report<'a, W> {
    /// Standard output beside a screen.
    pub fn new(inner: W, screen: &'a Screen<'a>) -> Self
        ensures { W.contents result.inner ≡ W.contents inner }
    {
        Report {
            inner,
            screen,
            is_terminal: screen.rt.stdout().is_terminal(),
        }
    }
}

impl<W: Write> Write for Report<'_, W> {
    ghost contents = { λ r. W.contents r.inner };

    fn write(&mut self, buf: &[u8]) -> io::Result<usize> {
        if self.is_terminal {
            self.screen.erase();
        }
        self.inner.write(buf)
    }

    fn flush(&mut self) -> io::Result<()> {
        self.inner.flush()
    }
}

/// Standard output, of which a failed write is noted. It has one lifetime, which is all that the borrow checker follows in the type of a
/// writer that is handed on.
#[derive(Drop)]
pub struct Printing<'a> {
    noted: Noted<'a, Printer<'a, HostRuntime>>,
}

impl<'a> Printing<'a> {
    /// Notes a failed write there.
    pub fn new(rt: &'a HostRuntime, failed: &'a Cell<Option<i32>>) -> Self {
        Printing {
            noted: Noted::new(io::writer(rt), failed),
        }
    }
}

impl Write for Printing<'_> {
    fn write(&mut self, buf: &[u8]) -> io::Result<usize> {
        self.noted.write(buf)
    }

    fn flush(&mut self) -> io::Result<()> {
        self.noted.flush()
    }
}

/// A report on standard output, likewise.
#[derive(Drop)]
pub struct Reported<'a> {
    report: Report<'a, Printing<'a>>,
}

impl<'a> Reported<'a> {
    /// Standard output beside a screen.
    pub fn new(rt: &'a HostRuntime, failed: &'a Cell<Option<i32>>, screen: &'a Screen<'a>) -> Self {
        Reported {
            report: Report::new(Printing::new(rt, failed), screen),
        }
    }
}

impl Write for Reported<'_> {
    fn write(&mut self, buf: &[u8]) -> io::Result<usize> {
        self.report.write(buf)
    }

    fn flush(&mut self) -> io::Result<()> {
        self.report.flush()
    }
}

/// The line that says how far a run is.
fn meter_text(alloc: Global, bytes: u64, total: u64, records: u64) -> Result<String, AllocError>
    ensures { IfOk result (λ text. string_bytes text ≡ meter_text bytes total records) }
{
    let mut text = String::from_str(alloc, "\r")?;
    write!(text, "{bytes}")?;
    text.push_str(" of ")?;
    write!(text, "{total}")?;
    text.push_str(" bytes, ")?;
    write!(text, "{records}")?;
    text.push_str(" records")?;
    Ok(text)
}

/// Shows on a screen how many bytes and records are done: first after two seconds, then five times a second. Where the clock
/// can't be read, nothing is shown.
#[derive(Drop)]
pub struct Meter<'a> {
    screen: &'a Screen<'a>,
    total: u64,
    due: Option<Instant>,
}

/// How long a run takes before its progress is shown.
fn patience() -> Duration {
    Duration::from_secs(2)
}

/// How long a line stands.
fn pause() -> Duration {
    Duration::from_millis(200)
}

impl<'a> Meter<'a> {
    /// A run over so many bytes begins.
    pub fn new(screen: &'a Screen<'a>, total: u64) -> Self {
        let due = match Instant::now(screen.rt) {
            Ok(now) => now.checked_add(patience()),
            Err(_) => None,
        };
        Meter { screen, total, due }
    }

    /// Whether a line is due by now. If so, the next one is due later.
    fn is_due(&mut self) -> bool {
        let Some(due) = self.due else {
            return false;
        };
        let Ok(now) = Instant::now(self.screen.rt) else {
            return false;
        };
        if now < due {
            return false;
        }
        self.due = now.checked_add(pause());
        true
    }
}

impl<R: Read, W: Write> AfterRecord<Counted<R>, W> for Meter<'_> {
    // It never fails, and leaves the writer as it is. What it shows on the screen no contract sees.
    ghost does = { λ number reader old before end new after. (end ≡ Ok tt) × (after ≡ before) };

    fn make_room(&self, _writer: &mut W) -> Result<(), AllocError> {
        Ok(())
    }

    fn answered(
        &mut self,
        number: u64,
        reader: &Counted<R>,
        _writer: &mut W,
    ) -> Result<(), EngineError> {
        if self.is_due() {
            if let Ok(text) = meter_text(self.screen.rt.alloc(), reader.bytes, self.total, number) {
                self.screen.show(text.as_str());
            }
        }
        Ok(())
    }
}
