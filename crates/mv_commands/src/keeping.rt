// A text takes the place of a file, whole or not at all.
ghost use Rattle.std.specs.Prelude.{◌≡◌, OnOk};
ghost use Rattle.std.specs.Io.KnownBytes.{Appends};
ghost use Rattle.mv_commands.specs.Keeping.{mode_while_written, mode_without_group};

use crate::bytes::MARK;
use crate::claim::{Claim, Stand, is_ledger};
use crate::error::KeepError;
use crate::fresh::{NewFile, fill};
use crate::holding::{Found, Hold, Looks, Place, Seen, Sort, is_as_loaded, is_one};
use crate::names::{NotPut, put, put_first};
use crate::on_disk::{OnDisk, Whose, number_of, set_aside};
use crate::telling::{Notice, Tell};
use std::fs::{self, File, OpenFile, OpenOptions, Permissions};
use std::io::{self, Write};
use std::os::unix::fs::{OpenOptionsExt, PermissionsExt};
use std::path::Path;
use std::rt::Files;

/// How often a place is looked at that changes meanwhile.
const TRIES: u32 = 3;

/// The permissions that are asked for where no file stood.
const NEW_MODE: u32 = 0o666;

/// The bits of a mode by which a file's owner may read, write and run it.
const OWNER_BITS: u32 = 0o700;

/// The bits of a mode by which all others may.
const OTHER_BITS: u32 = 0o007;

/// Replaces the file of a claimed place by the text of a ledger, or makes it; or writes the text to what is written to as it is, by
/// its name `path`. At any moment the old file is there, or the new one whole, even if the machine stops. A symbolic link stays, and
/// what it leads to is replaced. The old file's mode is kept, and so are its owner and group if the program may set them.
///
/// What stands there is replaced if it is what was loaded, or is empty. Any other ledger stays beside the new one, by a name that is
/// told before.
///
/// # Errors
///
/// `NoLedger` if what stands there isn't what was loaded, isn't empty and isn't a saved ledger; `InUse` if another program has
/// changed it meanwhile, or if the name leads to something else than what is written to as it is; `Write` if it can't be replaced for another reason; `Memory` if an allocation failed. The file that stood
/// there is as it was, unless only the last step failed, which is told. Where the new file is whole it isn't removed: it stays by a
/// name that is told.
pub fn keep<R: Files + Looks + AllocGlobal, T: Tell>(
    rt: &R,
    path: &str,
    stand: &Stand<R::File>,
    loaded: Option<Seen>,
    text: &[u8],
    tell: &T,
) -> Result<(), KeepError>
where
    R::File: Hold,
{
    match stand {
        Stand::AsItIs(place) => {
            let mut file = still_there(rt, path, *place)?;
            Ok(as_it_is(&mut file, text)?)
        }
        Stand::Place(claim) => replace(rt, claim, loaded, text, tell),
    }
}

/// Opens what was found by this name when it was claimed. What has the name by now may be somebody's ledger.
fn still_there<R: Files>(rt: &R, path: &str, place: Place) -> Result<R::File, KeepError>
where
    R::File: Hold,
{
    let file = OpenOptions::new().append(true).open(rt, path)?;
    if !is_one(file.found()?.seen.place, Some(place)) {
        return Err(KeepError::InUse);
    }
    Ok(file)
}

/// Writes a text to what is written to as it is.
fn as_it_is<W: Write>(file: &mut W, text: &[u8]) -> io::Result<()>
    ensures { OnOk result (Appends (W.contents file.old) (W.contents file.new) text.now) }
{
    file.write_all(text)
}

/// Puts a text into a place.
fn replace<R: Files + Looks + AllocGlobal, T: Tell>(
    rt: &R,
    claim: &Claim<R::File>,
    loaded: Option<Seen>,
    text: &[u8],
    tell: &T,
) -> Result<(), KeepError>
where
    R::File: Hold,
{
    let found = like(rt.look(claim.target.as_str())?, claim.stood);
    let file = match filled_file(rt, claim.new.as_path(), found, text) {
        Ok(file) => file,
        Err(NotFilled::NotMade(e)) => return Err(e),
        Err(NotFilled::Part(e)) => {
            let _ = fs::remove_file(rt, claim.new.as_path());
            return Err(e);
        }
    };
    let mut names = OnDisk::new(rt, tell, claim, &file);
    let Err(e) = placed(&mut names, loaded) else {
        return Ok(());
    };
    if names.is_placed {
        names.tell(Notice::Placed(number_of(e)));
    } else if !names.is_lost {
        let _ = set_aside(&mut names, Whose::Ours);
    }
    Err(e)
}

/// The file whose mode, owner and group the new one gets: the one that stands in its place, and where none does by now, the one that
/// stood there when the place was claimed.
fn like(stands: Option<Found>, stood: Option<Found>) -> Option<Found> {
    match stands {
        Some(found) if found.sort == Sort::File => stands,
        _ => stood,
    }
}

/// Why there is no new file that is whole.
#[derive(Clone, Copy, Debug, PartialEq, Eq)]
enum NotFilled {
    /// It isn't there.
    NotMade(KeepError),
    /// It has a part.
    Part(KeepError),
}

/// A new file with a text, with the mode of this one, and its owner and group if the program may set them.
fn filled_file<R: Files>(
    rt: &R,
    new: Path<'_>,
    found: Option<Found>,
    text: &[u8],
) -> Result<R::File, NotFilled>
where
    R::File: Hold,
{
    let mode = found.map(|found| found.mode);
    let mut options = OpenOptions::new();
    options
        .write(true)
        .create_new(true)
        .mode(mode_while_written(mode));
    let file = match options.open(rt, new) {
        Ok(file) => file,
        Err(e) => return Err(NotFilled::NotMade(KeepError::from(e))),
    };
    let permissions = match found {
        Some(found) => Some(given(&file, &found)),
        None => None,
    };
    if text.len() < MARK {
        return Err(NotFilled::Part(KeepError::NoLedger));
    }
    let (mark, body) = text.split_at(MARK);
    let mut new_file = NewFile { file, permissions };
    match fill(&mut new_file, mark, body) {
        Ok(()) => Ok(new_file.file),
        Err(e) => Err(NotFilled::Part(KeepError::from(e))),
    }
}

/// Gives a new file the owner and the group of the old one, as far as the program may, and says which permissions it gets then.
fn given<F: Hold>(new: &F, old: &Found) -> Permissions {
    if new.give_to(Some(old.owner), old.group).is_ok() || new.give_to(None, old.group).is_ok() {
        return Permissions::from_mode(old.mode);
    }
    Permissions::from_mode(mode_without_group(old.mode))
}

/// The mode of a file whose group isn't that of the old one: the group may do no more than all others.
fn mode_without_group(mode: u32) -> u32
    ensures { result ≡ mode_without_group mode }
{
    mode & (OWNER_BITS | OTHER_BITS | (mode & OTHER_BITS) << 3)
}

/// The mode that a new file is made with: while it is written it is its owner's alone, where a file with a mode stood.
fn mode_while_written(mode: Option<u32>) -> u32
    ensures { result ≡ mode_while_written mode }
{
    match mode {
        Some(mode) => mode & OWNER_BITS,
        None => NEW_MODE,
    }
}

/// Gives a new file that is whole its place.
fn placed<R: Files + Looks + AllocGlobal, T: Tell>(
    names: &mut OnDisk<'_, R, T>,
    loaded: Option<Seen>,
) -> Result<(), KeepError>
where
    R::File: Hold,
{
    for _ in 0..TRIES {
        match placed_once(names, loaded) {
            Ok(()) => return Ok(()),
            Err(NotPut::Changed) => {}
            Err(NotPut::Failed(e)) => return Err(e),
        }
    }
    Err(KeepError::InUse)
}

/// Looks at the place, and gives the new file that place.
fn placed_once<R: Files + Looks + AllocGlobal, T: Tell>(
    names: &mut OnDisk<'_, R, T>,
    loaded: Option<Seen>,
) -> Result<(), NotPut>
where
    R::File: Hold,
{
    let Some(found) = names.rt.look(names.claim.target.as_str())? else {
        return placed_first(names);
    };
    names.stands = Some(found.seen);
    let stays = has_to_stay(names.rt, names.claim.target.as_path(), &found, loaded)?;
    put(names, stays)
}

/// Gives the new file a place where nothing stands: by a link, which replaces nothing. Where the disk has no hard links, it is
/// renamed.
fn placed_first<R: Files + Looks + AllocGlobal, T: Tell>(
    names: &mut OnDisk<'_, R, T>,
) -> Result<(), NotPut>
where
    R::File: Hold,
{
    names.stands = None;
    let put_first = put_first(names);
    if names.is_placed {
        let _ = fs::remove_file(names.rt, names.claim.new.as_path());
        return put_first;
    }
    match put_first {
        Err(NotPut::Failed(_)) if names.rt.look(names.claim.target.as_str())?.is_none() => {
            put(names, false)
        }
        other => other,
    }
}

/// Whether what stands in a place has to stay beside what takes it: it is a saved ledger, and isn't what was loaded.
fn has_to_stay<R: Files>(
    rt: &R,
    path: Path<'_>,
    found: &Found,
    loaded: Option<Seen>,
) -> Result<bool, KeepError> {
    if found.sort != Sort::File {
        return Err(KeepError::NoLedger);
    }
    if found.seen.length == 0 || is_as_loaded(found.seen, loaded) {
        return Ok(false);
    }
    if !is_ledger(&mut File::open(rt, path)?)? {
        return Err(KeepError::NoLedger);
    }
    Ok(true)
}
