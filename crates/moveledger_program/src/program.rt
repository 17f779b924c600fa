// The program: its command line, its files, and what it prints.
use crate::buffered::Buffered;
use crate::files::{
    Output, STANDARD_INPUT, STANDARD_INPUT_FILE, advice_before, advised, expected_bytes, open,
    regular_size, shown, standard_output,
};
use crate::following::Followed;
use crate::kinds::Kind;
use crate::meter::{Counted, Meter, Noted, Printing, Reported, Screen};
use crate::saving::Saving;
use crate::told::Told;
use moveledger::{
    End, Hold, Ledger, LineError, Prompt, Seen, Sort, Task, check_module, command, end_of_words,
    ended, loaded, migrated, not_text, prove_module, report, report_file,
};
use std::fs::{self, File};
use std::io::{self, BufReader, BufWriter, ErrorKind, IsTerminal, Read, Write};
use std::{env, mem};

/// Runs the program, and returns its exit status. A fault has its line on standard error; the line after it says which file it was
/// about, and why.
pub fn run(rt: &HostRuntime) -> u8 {
    let told = asked(rt);
    let status = ended(&mut rt.stderr(), &told.end);
    if let Some(why) = &told.why {
        let _ = rt.eprint(why.as_str());
    }
    status
}

/// What the program calls itself, whatever the name of its file.
const NAME: &str = "moveledger";

/// What `--version` prints. CHANGELOG.md says what each version has.
const VERSION: &str = "moveledger 1.0.0\n";

/// Reads the command line, and does what it asks for.
fn asked(rt: &HostRuntime) -> Told {
    let args = match env::args(rt) {
        Ok(args) => args,
        Err(e) if e.kind() == ErrorKind::InvalidData => {
            return Told::plainly(refused(rt, not_text(rt.alloc())));
        }
        Err(_) => return Told::plainly(End::Memory),
    };
    let mut owned: Vec<String> = Vec::new(rt.alloc());
    for word in args {
        if owned.push(word).is_err() {
            return Told::plainly(End::Memory);
        }
    }
    let mut words: Vec<&str> = Vec::new(rt.alloc());
    for word in &owned {
        let said = if words.is_empty() {
            NAME
        } else {
            word.as_str()
        };
        if words.push(said).is_err() {
            return Told::plainly(End::Memory);
        }
    }
    done(rt, words.as_slice())
}

/// Does what words ask for.
fn done(rt: &HostRuntime, words: &[&str]) -> Told {
    let output = Output::new(rt);
    if let [_, "--version"] = words {
        return version(&output);
    }
    match command(rt.alloc(), words) {
        Ok(Task::Apply { file, load, save }) => apply(&output, file, load, save),
        Ok(Task::Migrate(old, new)) => migrate(&output, old, new),
        Ok(Task::Prove { module, steps }) => prove(&output, module, steps),
        Ok(Task::Check(module, certificate)) => check(&output, module, certificate),
        Err(error) => Told::plainly(refused(rt, error)),
    }
}

/// Prints the version.
fn version(output: &Output<'_>) -> Told {
    let mut writer = Noted::new(io::writer(output.rt), &output.failed);
    match writer.write_all(VERSION.as_bytes()) {
        Ok(()) => Told::plainly(End::Done),
        Err(_) => output.told(End::Write, ""),
    }
}

/// Says why there is no task, on standard error, or gives the help that was asked for, on standard output.
fn refused(rt: &HostRuntime, error: LineError) -> End {
    let end = end_of_words(&error);
    let is_help = error.is_help();
    if let LineError::Words(text) = error {
        let _ = if is_help {
            rt.print(text)
        } else {
            rt.eprint(text)
        };
    }
    end
}

/// Answers the records of a file with a ledger that is loaded from another file, or with an empty one, and writes the report to
/// standard output. If that ends well and a file is given to keep the ledger in, the ledger replaces it.
///
/// The place of that file is claimed before anything is read, and given up at the end. Faults count in this order: the ledger that is
/// loaded, the file of records, the engine, the file to save in. Where that last one shows before, it is said before the first
/// record is answered. A ledger that is loaded to be replaced, and can't be had alone, is a failed read.
fn apply(output: &Output<'_>, path: &str, load: Option<&str>, save: Option<&str>) -> Told {
    let rt = output.rt;
    let Some(save) = save else {
        return apply_with(output, path, load, None);
    };
    let saving = Saving::begin(rt, save, standard_output(rt), load);
    let told = apply_with(output, path, load, Some(&saving));
    saving.end();
    told
}

/// Answers the records of a file, and saves the ledger in a place that is claimed.
fn apply_with(
    output: &Output<'_>,
    path: &str,
    load: Option<&str>,
    saving: Option<&Saving<'_>>,
) -> Told {
    let source = match load {
        None => None,
        Some(kept) => match open_ledger(output.rt, kept, saving) {
            Ok(source) => Some(source),
            Err(told) => return told,
        },
    };
    let begun = match &source {
        None => Ok(Ledger::new(output.rt.alloc())),
        Some(source) => load_file(output, source),
    };
    let mut ledger = match begun {
        Ok(ledger) => ledger,
        Err(told) => return told,
    };
    let mut told = apply_file(output, path, &mut ledger, saving);
    if let (End::Done, Some(saving)) = (told.end, saving) {
        let saved = saving.save(seen_of(&source), told.end, &ledger);
        if saved.end != End::Done {
            told = saved;
        }
    }
    // The process ends, which gives back all memory at once: what the ledger holds isn't given back piece by piece before.
    mem::forget(ledger);
    told
}

/// The file of a ledger, and what it was when it was opened, where it is going to be replaced.
#[derive(Drop)]
struct Source<'a> {
    path: &'a str,
    file: File,
    seen: Option<Seen>,
}

/// What was going to be replaced, when it was opened.
fn seen_of(source: &Option<Source<'_>>) -> Option<Seen> {
    match source {
        Some(source) => source.seen,
        None => None,
    }
}

/// Opens the file of a ledger. One that is going to be replaced is had by this program alone, or isn't opened.
fn open_ledger<'a>(
    rt: &HostRuntime,
    path: &'a str,
    saving: Option<&Saving<'_>>,
) -> Result<Source<'a>, Told> {
    let file = open(rt, path)?;
    let seen = to_be_replaced(path, &file, saving);
    if let (Some(_), Some(saving)) = (seen, saving) {
        if let Some(reason) = saving.not_alone() {
            return Err(Told::of_file(rt.alloc(), End::Read, path, reason));
        }
    }
    Ok(Source { path, file, seen })
}

/// What a regular file is by now, if it is going to be replaced.
fn to_be_replaced(path: &str, file: &File, saving: Option<&Saving<'_>>) -> Option<Seen> {
    let found = file.found().ok()?;
    if found.sort == Sort::File && saving?.is_replaced(path, found.seen.place) {
        Some(found.seen)
    } else {
        None
    }
}

/// The ledger that a file keeps; otherwise why it isn't loaded, which is printed.
fn load_file(output: &Output<'_>, source: &Source<'_>) -> Result<Ledger, Told> {
    let (rt, path) = (output.rt, source.path);
    let expected = expected_bytes(regular_size(source.file.metadata()));
    let mut writer = Printing::new(rt, &output.failed);
    match loaded(rt.alloc(), &source.file, expected, &mut writer) {
        Ok(ledger) => Ok(ledger),
        Err(end) => Err(advised(rt, output.told(end, path), path, Kind::Ledger)),
    }
}

/// Converts the ledger of one file to the current form, and replaces another file by it. Faults count in the order of `apply`.
fn migrate(output: &Output<'_>, old: &str, new: &str) -> Told {
    let rt = output.rt;
    let saving = Saving::begin(rt, new, standard_output(rt), Some(old));
    let told = migrate_with(output, old, &saving);
    saving.end();
    told
}

/// Converts the ledger of a file, and puts it into a place that is claimed.
fn migrate_with(output: &Output<'_>, old: &str, saving: &Saving<'_>) -> Told {
    let rt = output.rt;
    let source = match open_ledger(rt, old, Some(saving)) {
        Ok(source) => source,
        Err(told) => return told,
    };
    saving.warn();
    let expected = expected_bytes(regular_size(source.file.metadata()));
    let mut writer = Noted::new(io::writer(rt), &output.failed);
    match migrated(rt.alloc(), &source.file, expected, &mut writer) {
        Ok(text) => saving.save_text(source.seen, Ok(text)),
        Err(end) => advised(rt, output.told(end, old), old, Kind::Ledger),
    }
}

/// What is said where the last record isn't whole.
const CUT: &str = "the last record is incomplete, or its length is invalid";

/// What came of records: the end, and whether the last one was whole, or is not spoken of.
#[derive(Drop)]
struct Answered {
    end: End,
    is_whole: bool,
}

/// Answers the records of a file, and writes the report to standard output. What shows before of the place where the ledger is to
/// be saved is said before the first one is answered.
fn apply_file(
    output: &Output<'_>,
    path: &str,
    ledger: &mut Ledger,
    saving: Option<&Saving<'_>>,
) -> Told {
    let rt = output.rt;
    let answered = if path == STANDARD_INPUT {
        warn(saving);
        let size = regular_size(fs::metadata(rt, STANDARD_INPUT_FILE));
        apply_to(output, path, rt.stdin(), size, ledger)
    } else {
        let file = match open(rt, path) {
            Ok(file) => file,
            Err(told) => return told,
        };
        warn(saving);
        let size = regular_size(file.metadata());
        apply_to(output, path, file, size, ledger)
    };
    let told = output.told(answered.end, path);
    if answered.is_whole || told.why.is_some() || told.end != End::Done {
        return told;
    }
    Told::of_file(rt.alloc(), told.end, shown(path), CUT)
}

/// Says that nothing can be saved, if that shows by now.
fn warn(saving: Option<&Saving<'_>>) {
    if let Some(saving) = saving {
        saving.warn();
    }
}

/// Answers the records that a source gives. For a regular file, of this size, the engine does, and many lines are written at a time;
/// but if standard error is a terminal, it shows how far a long run is. For anything else, each record's lines are written before the next
/// record is waited for. Where the first bytes are plainly those of no stream, that is said before.
fn apply_to<R: Read + Drop>(
    output: &Output<'_>,
    path: &str,
    source: R,
    size: Option<u64>,
    ledger: &mut Ledger,
) -> Answered {
    let rt = output.rt;
    let screen = Screen::new(rt);
    let Ok(mut reader) = BufReader::new(rt.alloc(), Followed::new(source)) else {
        return Answered::none(End::Memory);
    };
    let reported = Reported::new(rt, &output.failed, &screen);
    let Ok(mut writer) = BufWriter::new(rt.alloc(), reported) else {
        return Answered::none(End::Memory);
    };
    let is_advised = match advice_before(&mut reader) {
        Ok(Some(advice)) => say(rt, path, advice),
        Ok(None) => false,
        Err(_) => return Answered::none(End::Read),
    };
    let (end, is_whole) = match size {
        None => {
            let end = report(&mut reader, &mut writer, ledger, &mut Prompt);
            (end, reader.get_ref().is_whole())
        }
        Some(total) if rt.stderr().is_terminal() => {
            let mut counted = Counted::new(Buffered::new(reader));
            let mut meter = Meter::new(&screen, total);
            let end = report(&mut counted, &mut writer, ledger, &mut meter);
            (end, counted.get_ref().get_ref().is_whole())
        }
        Some(_) => {
            let mut reader = Buffered::new(reader);
            let end = report_file(&mut reader, &mut writer, ledger);
            (end, reader.get_ref().is_whole())
        }
    };
    screen.erase();
    Answered {
        end,
        is_whole: is_whole || is_advised,
    }
}

impl Answered {
    /// What came of none.
    fn none(end: End) -> Self {
        Answered {
            end,
            is_whole: true,
        }
    }
}

/// Says something of a file, and returns whether it was said.
fn say(rt: &HostRuntime, path: &str, said: &str) -> bool {
    match Told::of_file(rt.alloc(), End::Done, shown(path), said).why {
        Some(line) => rt.eprint(line.as_str()).is_ok(),
        None => false,
    }
}

/// Prints a certificate for the module of a file, or why there is none; the search for it may take so many steps, or any number.
fn prove(output: &Output<'_>, path: &str, steps: Option<u64>) -> Told {
    let rt = output.rt;
    let mut writer = Noted::new(io::writer(rt), &output.failed);
    if path == STANDARD_INPUT {
        let end = prove_module(rt.alloc(), rt.stdin(), steps, &mut writer);
        return output.told(end, path);
    }
    match open(rt, path) {
        Ok(module) => {
            let end = prove_module(rt.alloc(), module, steps, &mut writer);
            advised(rt, output.told(end, path), path, Kind::Module)
        }
        Err(told) => told,
    }
}

/// What is said where a certificate isn't there.
const NO_CERTIFICATE: &str = "there is no such file, and CERT is the name of one";

/// Opens the file of a certificate.
fn open_certificate(rt: &HostRuntime, path: &str) -> Result<File, Told> {
    match File::open(rt, path) {
        Err(e) if e.kind() == ErrorKind::NotFound => {
            Err(Told::of_file(rt.alloc(), End::Read, path, NO_CERTIFICATE))
        }
        Err(e) => Err(Told::of_file(rt.alloc(), End::Read, path, e)),
        Ok(file) => Ok(file),
    }
}

/// Checks the module of a file with the text of a certificate in another, and prints what comes of it.
fn check(output: &Output<'_>, path: &str, certificate: &str) -> Told {
    let rt = output.rt;
    let mut writer = Noted::new(io::writer(rt), &output.failed);
    if path == STANDARD_INPUT {
        return match open_certificate(rt, certificate) {
            Ok(text) => {
                let end = check_module(rt.alloc(), rt.stdin(), text, &mut writer);
                output.told(end, path)
            }
            Err(told) => told,
        };
    }
    match (open(rt, path), open_certificate(rt, certificate)) {
        (Ok(module), Ok(text)) => {
            let end = check_module(rt.alloc(), module, text, &mut writer);
            advised(rt, output.told(end, path), path, Kind::Module)
        }
        (Err(told), _) => told,
        (_, Err(told)) => told,
    }
}
