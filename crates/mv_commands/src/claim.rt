// A place that this program alone saves to, from before the first record to the end.
ghost use Rattle.std.specs.Prelude.{◌≡◌, IfOk};
ghost use Rattle.mv_commands.specs.Keeping.{lock_mode};

use crate::bytes::{MARK, filled, is_mark};
use crate::error::KeepError;
use crate::holding::{Found, Hold, Lock, Looks, Place, Sort, held, is_one};
use crate::on_disk::{OnDisk, Whose, set_aside};
use crate::own_names::{EXISTS, IS_FOLDER, folder_of, lock_name, may_be_saved, new_name};
use crate::telling::Tell;
use std::fs::{self, File, OpenFile, OpenOptions, Permissions};
use std::io::{self, ErrorKind, Read};
use std::os::unix::fs::{OpenOptionsExt, PermissionsExt};
use std::path::{Path, PathBuf};
use std::rt::Files;

/// The most names that are looked at, one after the other: 39 symbolic links, and what the last of them leads to.
const MOST_LINKS: u32 = 40;

/// How often a lock is opened whose holder has just ended.
const TRIES: u32 = 3;

/// The bits of a mode by which a file's owner may write to it, and by which others may.
const OWNER_WRITES: u32 = 0o200;

const OTHERS_WRITE: u32 = 0o022;

/// The bit of a folder's mode by which only a file's owner takes it away.
const STICKY: u32 = 0o1000;

/// The system's numbers of "Operation not permitted" and "Invalid cross-device link".
const NOT_PERMITTED: i32 = 1;

const OTHER_DISK: i32 = 18;

/// A place that this program alone saves to.
#[derive(Drop)]
pub struct Claim<F> {
    /// The file that the name leads to by its links.
    pub(crate) target: PathBuf,
    /// What stood there when the place was claimed.
    pub(crate) stood: Option<Found>,
    pub(crate) lock_path: PathBuf,
    /// The file that is to take its place.
    pub(crate) new: PathBuf,
    pub(crate) folder: F,
    pub lock: Lock<F>,
}

/// What a ledger is put into.
#[derive(Drop)]
pub enum Stand<F> {
    /// What is no regular file, or is standard output, and lies here: it is written to as it is.
    AsItIs(Place),
    /// The place of a regular file, or of none that is there.
    Place(Claim<F>),
}

/// Claims the place of this name for this program, until `release`. A file beside it is locked; what an earlier program left of a
/// new file is removed, or if that is whole gets a name that is told. `output` is the file that standard output is, and `load` the
/// name of the ledger that is begun with.
///
/// # Errors
///
/// `InUse` if another program has claimed it; `NoLock` if it can't be locked; `NoLedger` if what stands there is no saved ledger and
/// isn't empty; `Name` if no ledger is saved by that name; `Write` if it can't be replaced for another reason that shows by now;
/// `Memory` if an allocation failed. What stood there is as it was.
pub fn claim_place<R: Files + Looks + AllocGlobal, T: Tell>(
    rt: &R,
    path: &str,
    output: Option<Place>,
    load: Option<&str>,
    tell: &T,
) -> Result<Stand<R::File>, KeepError>
where
    R::File: Hold,
    // The file of the lock is held, whichever the disk.
    ensures held { IfOk result (λ stand. (c : _) → stand ≡ Stand.Place c → R.File.is_held c.lock.file) }
{
    may_be_saved(path)?;
    let stood = rt.look_through(path)?;
    if let Some(found) = stood {
        match found.sort {
            Sort::Folder => return Err(KeepError::Write(Some(IS_FOLDER))),
            Sort::Other => return Ok(Stand::AsItIs(found.seen.place)),
            Sort::File if is_one(found.seen.place, output) => {
                return Ok(Stand::AsItIs(found.seen.place));
            }
            Sort::File => {}
        }
    }
    let claim = locked_place(rt, led_to(rt, path)?, stood)?;
    match made_ready(rt, &claim, path, load, tell) {
        Ok(()) => Ok(Stand::Place(claim)),
        Err(e) => {
            release(rt, Stand::Place(claim));
            Err(e)
        }
    }
}

/// Gives a place up. The lock's file is removed while it is held.
pub fn release<R: Files>(rt: &R, stand: Stand<R::File>) {
    if let Stand::Place(claim) = stand {
        let _ = fs::remove_file(rt, claim.lock_path.as_path());
    }
}

/// The name to which a name leads by symbolic links.
fn led_to<R: Files + AllocGlobal>(rt: &R, path: &str) -> Result<PathBuf, KeepError> {
    let mut target = PathBuf::from_str(rt.alloc(), path)?;
    for _ in 0..MOST_LINKS {
        match fs::read_link(rt, target.as_path()) {
            Ok(next) => {
                target = folder_of(target.as_path()).join(rt.alloc(), next)?;
            }
            // It is no link, or there is nothing yet.
            Err(e) if matches!(e.kind(), ErrorKind::InvalidInput | ErrorKind::NotFound) => {
                return Ok(target);
            }
            Err(e) => return Err(KeepError::from(e)),
        }
    }
    Err(KeepError::Write(None))
}

/// Locks the place of a file where this one stands, or none.
fn locked_place<R: Files + Looks + AllocGlobal>(
    rt: &R,
    target: PathBuf,
    stood: Option<Found>,
) -> Result<Claim<R::File>, KeepError>
where
    R::File: Hold,
    ensures held { IfOk result (λ claim. R.File.is_held claim.lock.file) }
{
    may_be_saved(target.as_str())?;
    let Some(name) = target.as_path().file_name() else {
        return Err(KeepError::Write(Some(IS_FOLDER)));
    };
    let folder_path = folder_of(target.as_path());
    let lock_path = folder_path.join(rt.alloc(), lock_name(rt.alloc(), name)?)?;
    let new = folder_path.join(rt.alloc(), new_name(rt.alloc(), name)?)?;
    let folder = File::open(rt, folder_path)?;
    let mode = match stood {
        Some(found) => found.mode,
        None => 0,
    };
    let lock = locked(rt, lock_path.as_path(), lock_mode(mode))?;
    Ok(Claim {
        target,
        stood,
        lock_path,
        new,
        folder,
        lock,
    })
}

/// The mode of a lock's file: its owner may hold it, and who else may write the ledger; nobody may read it.
fn lock_mode(mode: u32) -> u32
    ensures { result ≡ lock_mode mode }
{
    OWNER_WRITES | mode & OTHERS_WRITE
}

/// Holds the lock of this name.
fn locked<R: Files + Looks>(rt: &R, path: Path<'_>, mode: u32) -> Result<Lock<R::File>, KeepError>
where
    R::File: Hold,
    ensures held { IfOk result (λ lock. R.File.is_held lock.file) }
{
    for _ in 0..TRIES {
        if let Some(opened) = open_lock(rt, path, mode)? {
            match held(opened.file, opened.is_made) {
                Err(e) => return Err(no_lock(&e)),
                Ok(None) => return Err(KeepError::InUse),
                Ok(Some(lock)) => {
                    if leads_to(rt, path, &lock.file)? {
                        return Ok(lock);
                    }
                }
            }
        }
    }
    Err(KeepError::InUse)
}

/// A lock's file that is open, and whether this program made it.
#[derive(Drop)]
struct Opened<F> {
    file: F,
    is_made: bool,
}

/// Opens the file of a lock for writing, which is made if it isn't there. None where its holder has just removed it. It is no link.
fn open_lock<R: Files + Looks>(
    rt: &R,
    path: Path<'_>,
    mode: u32,
) -> Result<Option<Opened<R::File>>, KeepError> {
    let mut options = OpenOptions::new();
    options.write(true).create_new(true).mode(mode);
    match options.open(rt, path) {
        Ok(file) => {
            // Also where the system takes away what others may.
            let _ = file.set_permissions(Permissions::from_mode(mode));
            return Ok(Some(Opened {
                file,
                is_made: true,
            }));
        }
        Err(e) if e.kind() == ErrorKind::AlreadyExists => {}
        Err(e) => return Err(KeepError::from(e)),
    }
    match rt.look(path.as_str())? {
        Some(found) if found.sort == Sort::File => {}
        Some(_) => return Err(KeepError::NoLock(Some(EXISTS))),
        None => return Ok(None),
    }
    match OpenOptions::new().write(true).open(rt, path) {
        Ok(file) => Ok(Some(Opened {
            file,
            is_made: false,
        })),
        Err(e) if e.kind() == ErrorKind::NotFound => Ok(None),
        Err(e) => Err(no_lock(&e)),
    }
}

/// That a lock can't be had.
fn no_lock(error: &io::Error) -> KeepError {
    if error.kind() == ErrorKind::OutOfMemory {
        return KeepError::Memory;
    }
    KeepError::NoLock(error.raw_os_error())
}

/// Whether a name leads to an open file, not by a link.
pub fn leads_to<R: Files + Looks>(rt: &R, path: Path<'_>, file: &R::File) -> io::Result<bool>
where
    R::File: Hold,
{
    let open = file.found()?;
    match rt.look(path.as_str())? {
        Some(found) => Ok(
            found.sort == Sort::File && is_one(open.seen.place, Some(found.seen.place)),
        ),
        None => Ok(false),
    }
}

/// Takes away what an earlier program left of a new file, and finds whether the place can be replaced.
fn made_ready<R: Files + Looks + AllocGlobal, T: Tell>(
    rt: &R,
    claim: &Claim<R::File>,
    path: &str,
    load: Option<&str>,
    tell: &T,
) -> Result<(), KeepError>
where
    R::File: Hold,
{
    cleared(rt, claim, tell)?;
    let led = rt.look_through(path)?;
    let Some(found) = rt.look(claim.target.as_str())? else {
        // Otherwise it has no name by which it could be replaced.
        return if led.is_none() {
            Ok(())
        } else {
            Err(KeepError::Write(None))
        };
    };
    if found.sort != Sort::File || !is_one(found.seen.place, led.map(|led| led.seen.place)) {
        return Err(KeepError::Write(None));
    }
    let _ = OpenOptions::new().append(true).open(rt, path)?;
    may_be_renamed(claim, &found)?;
    if found.seen.length == 0 {
        return Ok(());
    }
    if !is_ledger(&mut File::open(rt, claim.target.as_path())?)? {
        return Err(KeepError::NoLedger);
    }
    has_another_name(rt, claim, is_loaded(rt, found.seen.place, path, load))
}

/// Whether a file begins as a saved ledger does.
pub fn is_ledger<F: Read>(file: &mut F) -> io::Result<bool> {
    let mut front = [0u8; MARK];
    let n = filled(file, &mut front)?;
    Ok(is_mark(&front[..n]))
}

/// Whether what stands in the place of a name is what is loaded.
fn is_loaded<R: Looks>(rt: &R, place: Place, path: &str, load: Option<&str>) -> bool {
    match load {
        None => false,
        Some(load) => {
            load == path
                || matches!(rt.look_through(load), Ok(Some(found)) if is_one(place, Some(found.seen.place)))
        }
    }
}

/// Takes away what an earlier program left of a new file. A whole one stays, by a name that is told; the ledger itself may have
/// this name, too.
fn cleared<R: Files + Looks + AllocGlobal, T: Tell>(
    rt: &R,
    claim: &Claim<R::File>,
    tell: &T,
) -> Result<(), KeepError>
where
    R::File: Hold,
{
    let Some(left) = rt.look(claim.new.as_str())? else {
        return Ok(());
    };
    if left.sort != Sort::File {
        return Err(KeepError::Write(Some(EXISTS)));
    }
    let stands = rt.look(claim.target.as_str())?;
    if !is_one(left.seen.place, stands.map(|stands| stands.seen.place)) {
        let mut file = File::open(rt, claim.new.as_path())?;
        if is_ledger(&mut file)? {
            let mut names = OnDisk::new(rt, tell, claim, &file);
            return set_aside(&mut names, Whose::Earlier);
        }
    }
    Ok(fs::remove_file(rt, claim.new.as_path())?)
}

/// Finds whether a ledger can have one more name, by which it could stay. A mount of its own can't, and can't be replaced either;
/// what is loaded doesn't have to stay.
fn has_another_name<R: Files>(
    rt: &R,
    claim: &Claim<R::File>,
    is_loaded: bool,
) -> Result<(), KeepError> {
    match fs::hard_link(rt, claim.target.as_path(), claim.new.as_path()) {
        Ok(()) => Ok(fs::remove_file(rt, claim.new.as_path())?),
        Err(e) if is_loaded && !matches!(e.raw_os_error(), Some(EXISTS | OTHER_DISK)) => Ok(()),
        Err(e) => Err(KeepError::from(e)),
    }
}

/// Finds whether the system lets this program rename a file onto another. In a sticky folder that is for the owners of the file and
/// of the folder, and for root. Who this program runs for, the file of a lock shows that it made.
fn may_be_renamed<F: Hold>(claim: &Claim<F>, found: &Found) -> Result<(), KeepError> {
    let folder = claim.folder.found()?;
    if folder.mode & STICKY == 0 || !claim.lock.is_made {
        return Ok(());
    }
    let user = claim.lock.file.found()?.owner;
    if user == 0 || user == found.owner || user == folder.owner {
        return Ok(());
    }
    Err(KeepError::Write(Some(NOT_PERMITTED)))
}
