// The names of the program's own files, those of files that stay, and which names a ledger may have.
ghost use Rattle.std.specs.Prelude.{◌≡◌, ◌↔◌, ℕ, IfOk, IsTrue, string_bytes};
ghost use Rattle.std.specs.Io.{StartsWith};
ghost use Rattle.std.specs.Path.{path_bytes};
ghost use Rattle.mv_commands.specs.Keeping.{folder_of, lock_name, new_name, numbered, own, previous_name, unsaved_name};

use crate::error::KeepError;
use std::alloc::{AllocError, Global};
use std::fs;
use std::io::{self, ErrorKind, Write};
use std::path::Path;
use std::rt::Files;

/// What the names of the program's own files begin with.
const OWN: &str = ".moveledger-";

/// How many names are tried for a file that stays.
pub const MOST_NAMES: u32 = 10_000;

/// The system's number of "File exists".
pub const EXISTS: i32 = 17;

/// The system's number of "Is a directory".
pub const IS_FOLDER: i32 = 21;

/// The name of the file that is locked while a ledger of this name is saved.
pub fn lock_name(alloc: Global, name: &str) -> Result<String, AllocError>
    ensures { IfOk result (λ text. string_bytes text ≡ lock_name name.now) }
{
    let mut text = String::from_str(alloc, ".moveledger-lock-")?;
    text.push_str(name)?;
    Ok(text)
}

/// The name of the file that is to take the place of the ledger of this name.
pub fn new_name(alloc: Global, name: &str) -> Result<String, AllocError>
    ensures { IfOk result (λ text. string_bytes text ≡ new_name name.now) }
{
    let mut text = String::from_str(alloc, ".moveledger-new-")?;
    text.push_str(name)?;
    Ok(text)
}

/// The first name by which a ledger stays beside the one that takes its place.
pub fn previous_name(alloc: Global, path: Path<'_>) -> Result<String, AllocError>
    ensures { IfOk result (λ name. string_bytes name ≡ previous_name (path_bytes path.entry)) }
{
    let mut name = String::from_str(alloc, path.as_str())?;
    name.push_str(".previous")?;
    Ok(name)
}

/// The first name by which a new ledger stays that can't have its place.
pub fn unsaved_name(alloc: Global, path: Path<'_>) -> Result<String, AllocError>
    ensures { IfOk result (λ name. string_bytes name ≡ unsaved_name (path_bytes path.entry)) }
{
    let mut name = String::from_str(alloc, path.as_str())?;
    name.push_str(".unsaved")?;
    Ok(name)
}

/// The name with this number: the base alone, or with the number behind it.
pub fn numbered(alloc: Global, base: &str, number: u32) -> Result<String, AllocError>
    ensures { IfOk result (λ name. string_bytes name ≡ numbered base.now number) }
{
    let mut name = String::from_str(alloc, base)?;
    if number > 0 {
        name.push_str("-")?;
        write!(name, "{number}")?;
    }
    Ok(name)
}

/// The folder that a file lies in.
pub fn folder_of(path: Path<'_>) -> Path<'_>
    ensures { path_bytes result ≡ folder_of (path_bytes path.entry) }
{
    match path.parent() {
        Some(folder) if !folder.as_str().is_empty() => folder,
        _ => Path::new("."),
    }
}

/// Whether a name begins as those of the program's own files do.
fn is_own(name: &str) -> bool
    ensures { IsTrue result ↔ StartsWith name.now own }
{
    name.as_bytes().starts_with(OWN.as_bytes())
}

/// Whether a ledger may have this name. A name that ends in a slash is that of a folder, and so are `.` and `..`.
///
/// # Errors
///
/// `Name` if there is none, or if its last part begins as the names of the program's own files do; `Write` with the system's number
/// if it is that of a folder.
pub fn may_be_saved(path: &str) -> Result<(), KeepError> {
    let last = match path.rsplit_once('/') {
        Some((_, last)) => last,
        None => path,
    };
    if path.is_empty() || is_own(last) {
        return Err(KeepError::Name);
    }
    if last.is_empty() || last == "." || last == ".." {
        return Err(KeepError::Write(Some(IS_FOLDER)));
    }
    Ok(())
}

/// Gives a file one more name: the first with this base that nothing has. It replaces nothing.
///
/// # Errors
///
/// If it can't have another name; with the system's number of "File exists" if the first 10,000 are taken.
pub fn named_too<R: Files + AllocGlobal>(
    rt: &R,
    path: Path<'_>,
    base: &str,
) -> Result<String, KeepError>
    ensures { IfOk result (λ name. (n : ℕ) × (string_bytes name ≡ numbered base.now n)) }
{
    for number in 0..MOST_NAMES {
        let name = numbered(rt.alloc(), base, number)?;
        match fs::hard_link(rt, path, name.as_str()) {
            Ok(()) => return Ok(name),
            Err(e) if e.kind() == ErrorKind::AlreadyExists => {}
            Err(e) => return Err(KeepError::from(e)),
        }
    }
    Err(KeepError::Write(Some(EXISTS)))
}
