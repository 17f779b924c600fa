// The names of a folder of the system: how a new file gets its place there, or another name.
ghost use Rattle.mv_commands.specs.Names.{unknown};

use crate::claim::{Claim, leads_to};
use crate::error::KeepError;
use crate::holding::{Hold, Looks, Seen};
use crate::names::{Names, NotPut, put_aside};
use crate::own_names::{EXISTS, MOST_NAMES, named_too, numbered, previous_name, unsaved_name};
use crate::telling::{Notice, Tell};
use std::fs::{self, OpenFile};
use std::io::ErrorKind;
use std::rt::Files;

/// The names of a claimed place, with a new file beside it. What a crash leaves of them the proof can't see: of it nothing is
/// claimed.
#[derive(Drop)]
pub struct OnDisk<'a, R: Files, T> {
    pub rt: &'a R,
    tell: &'a T,
    pub claim: &'a Claim<R::File>,
    /// The new file.
    file: &'a R::File,
    /// What stood in the place when it was looked at.
    pub stands: Option<Seen>,
    /// By which name that stays.
    beside: Option<String>,
    /// By which name the new file stays.
    unsaved: Option<String>,
    /// Whether the new file has its place.
    pub is_placed: bool,
    /// Whether the new file's own name leads to another one.
    pub is_lost: bool,
}

impl<'a, R: Files, T: Tell> OnDisk<'a, R, T> {
    /// The names before the first change.
    pub fn new(rt: &'a R, tell: &'a T, claim: &'a Claim<R::File>, file: &'a R::File) -> Self {
        OnDisk {
            rt,
            tell,
            claim,
            file,
            stands: None,
            beside: None,
            unsaved: None,
            is_placed: false,
            is_lost: false,
        }
    }

    /// Tells this.
    pub fn tell(&self, notice: Notice<'_>) {
        self.tell.tell(notice);
    }
}

impl<R: Files + Looks, T> OnDisk<'_, R, T>
where
    R::File: Hold,
{
    /// Finds whether the lock and the new file still have their names, and what was looked at stands in the place.
    ///
    /// # Errors
    ///
    /// `Failed` if a name leads elsewhere, `Changed` if something else stands there by now.
    fn look_again(&mut self) -> Result<(), NotPut> {
        let claim = self.claim;
        let is_locked = leads_to(self.rt, claim.lock_path.as_path(), &claim.lock.file)?;
        self.is_lost = !leads_to(self.rt, claim.new.as_path(), self.file)?;
        if self.is_lost || !is_locked {
            return Err(NotPut::Failed(KeepError::InUse));
        }
        let stands = self.rt.look(claim.target.as_str())?;
        if stands.map(|found| found.seen) != self.stands {
            return Err(NotPut::Changed);
        }
        Ok(())
    }
}

impl<R: Files + Looks + AllocGlobal, T: Tell> Names for OnDisk<'_, R, T>
where
    R::File: Hold,
{
    ghost seen = { λ _. unknown };

    ghost may_leave = { λ _ _. ⊥ };

    ghost moment = { λ _. 0 };

    ghost left_since = { λ _ _ _. ⊥ };

    ghost only_now = { λ _ _ left. left };

    fn keep_beside(&mut self) -> Result<(), NotPut> {
        let target = self.claim.target.as_path();
        let base = previous_name(self.rt.alloc(), target)?;
        self.beside = Some(named_too(self.rt, target, base.as_str())?);
        Ok(())
    }

    fn place(&mut self) -> Result<(), NotPut> {
        if let Some(name) = &self.beside {
            self.tell.tell(Notice::Previous(name.as_str()));
        }
        self.look_again()?;
        fs::rename(
            self.rt,
            self.claim.new.as_path(),
            self.claim.target.as_path(),
        )?;
        self.is_placed = true;
        Ok(())
    }

    fn place_too(&mut self) -> Result<(), NotPut> {
        self.look_again()?;
        match fs::hard_link(
            self.rt,
            self.claim.new.as_path(),
            self.claim.target.as_path(),
        ) {
            Ok(()) => {
                self.is_placed = true;
                Ok(())
            }
            Err(e) if e.kind() == ErrorKind::AlreadyExists => Err(NotPut::Changed),
            Err(e) => Err(NotPut::from(e)),
        }
    }

    fn keep_unsaved(&mut self) -> Result<(), NotPut> {
        let base = unsaved_name(self.rt.alloc(), self.claim.target.as_path())?;
        let name = named_too(self.rt, self.claim.new.as_path(), base.as_str())?;
        self.unsaved = Some(name);
        Ok(())
    }

    fn sync(&mut self) -> Result<(), NotPut> {
        Ok(self.claim.folder.sync_all()?)
    }
}

/// Whose new file it is that doesn't get its place.
#[derive(Clone, Copy, Debug, PartialEq, Eq)]
pub enum Whose {
    /// This program's.
    Ours,
    /// An earlier one's.
    Earlier,
}

impl Whose {
    /// What is told of it.
    fn notice(self, name: &str) -> Notice<'_> {
        match self {
            Whose::Ours => Notice::Unsaved(name),
            Whose::Earlier => Notice::Earlier(name),
        }
    }
}

/// Gives a whole new file a name by which it stays, and tells it. Where no other name can be had, it is renamed, or stays as it is.
///
/// # Errors
///
/// If it stays as it is, or the disk doesn't confirm its name.
pub fn set_aside<R: Files + Looks + AllocGlobal, T: Tell>(
    names: &mut OnDisk<'_, R, T>,
    whose: Whose,
) -> Result<(), KeepError>
where
    R::File: Hold,
{
    let put = put_aside(names);
    let Some(name) = &names.unsaved else {
        return renamed_aside(names, whose);
    };
    names.tell(whose.notice(name.as_str()));
    if let Err(e) = put {
        names.tell(Notice::Unconfirmed(number_of(e.reason())));
        // The next program finds an earlier one's again.
        if whose == Whose::Earlier {
            return Err(e.reason());
        }
    }
    Ok(fs::remove_file(names.rt, names.claim.new.as_path())?)
}

/// Gives a new file that can't have a second name another one, which is told before. Where it can't have that either, its own name
/// is told.
fn renamed_aside<R: Files + Looks + AllocGlobal, T: Tell>(
    names: &OnDisk<'_, R, T>,
    whose: Whose,
) -> Result<(), KeepError>
where
    R::File: Hold,
{
    let renamed = renamed_once(names, whose);
    let new = names.claim.new.as_path();
    if renamed.is_err() && leads_to(names.rt, new, names.file)? {
        names.tell(whose.notice(new.as_str()));
    }
    renamed
}

/// Gives a new file the first name that nothing has, which is told before.
fn renamed_once<R: Files + Looks + AllocGlobal, T: Tell>(
    names: &OnDisk<'_, R, T>,
    whose: Whose,
) -> Result<(), KeepError> {
    let (rt, claim) = (names.rt, names.claim);
    let base = unsaved_name(rt.alloc(), claim.target.as_path())?;
    for number in 0..MOST_NAMES {
        let name = numbered(rt.alloc(), base.as_str(), number)?;
        if let None = rt.look(name.as_str())? {
            names.tell(whose.notice(name.as_str()));
            fs::rename(rt, claim.new.as_path(), name.as_str())?;
            return Ok(claim.folder.sync_all()?);
        }
    }
    Err(KeepError::Write(Some(EXISTS)))
}

/// The system's number of what is told.
pub fn number_of(error: KeepError) -> Option<i32> {
    match error {
        KeepError::Write(number) | KeepError::NoLock(number) => number,
        _ => None,
    }
}
