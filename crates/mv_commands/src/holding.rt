// What a disk shows of its files, and whether this program alone holds one.
ghost use Rattle.std.specs.Prelude.{◌≡◌, ◌↔◌, IfOk, IsTrue, Some, ⊤};

use std::alloc::Allocator;
use std::fs::{self, File, Metadata, TryLockError};
use std::io::{self, ErrorKind};
use std::os::unix::fs::{MetadataExt, fchown};

/// Where a file lies: the number of its disk, and its own number there.
#[derive(Clone, Copy, Debug, PartialEq, Eq)]
pub struct Place {
    pub device: u64,
    pub number: u64,
}

/// Whether the other place is known, and is the same one.
pub fn is_one(place: Place, other: Option<Place>) -> bool
    ensures { IsTrue result ↔ (other ≡ Some place) }
{
    other == Some(place)
}

/// Which file it is, how long it is, and when it was last written to.
#[derive(Clone, Copy, Debug, PartialEq, Eq)]
pub struct Seen {
    pub place: Place,
    pub length: u64,
    pub seconds: i64,
    pub nanoseconds: i64,
}

/// Whether what stands there is what was loaded, and as it was then.
pub fn is_as_loaded(found: Seen, loaded: Option<Seen>) -> bool
    ensures { IsTrue result ↔ (loaded ≡ Some found) }
{
    loaded == Some(found)
}

/// What a name leads to.
#[derive(Clone, Copy, Debug, PartialEq, Eq)]
pub enum Sort {
    /// A regular file.
    File,
    /// A folder.
    Folder,
    /// A link, a device, a pipe or a socket.
    Other,
}

/// What is found under a name, or of an open file.
#[derive(Clone, Copy, Debug, PartialEq, Eq)]
pub struct Found {
    pub sort: Sort,
    pub seen: Seen,
    /// Who may do what with it.
    pub mode: u32,
    pub owner: u32,
    pub group: u32,
}

impl Found {
    /// What this metadata shows.
    pub fn of(found: &Metadata) -> Self {
        let sort = if found.is_file() {
            Sort::File
        } else if found.is_dir() {
            Sort::Folder
        } else {
            Sort::Other
        };
        Found {
            sort,
            seen: Seen {
                place: Place {
                    device: found.dev(),
                    number: found.ino(),
                },
                length: found.len(),
                seconds: found.mtime(),
                nanoseconds: found.mtime_nsec(),
            },
            mode: found.mode(),
            owner: found.uid(),
            group: found.gid(),
        }
    }
}

/// A disk whose names can be looked at.
pub trait Looks {
    /// What stands under a name, if anything does. A link isn't followed.
    fn look(&self, path: &str) -> io::Result<Option<Found>>;

    /// What a name leads to by its links, if it leads to anything.
    fn look_through(&self, path: &str) -> io::Result<Option<Found>>;
}

impl Looks for HostRuntime {
    fn look(&self, path: &str) -> io::Result<Option<Found>> {
        found_in(fs::symlink_metadata(self, path))
    }

    fn look_through(&self, path: &str) -> io::Result<Option<Found>> {
        found_in(fs::metadata(self, path))
    }
}

impl<R: Looks, A: Allocator> Looks for (R, A) {
    fn look(&self, path: &str) -> io::Result<Option<Found>> {
        self.0.look(path)
    }

    fn look_through(&self, path: &str) -> io::Result<Option<Found>> {
        self.0.look_through(path)
    }
}

/// What metadata shows; None where there is no file.
fn found_in(metadata: io::Result<Metadata>) -> io::Result<Option<Found>> {
    match metadata {
        Ok(metadata) => Ok(Some(Found::of(&metadata))),
        Err(e) if e.kind() == ErrorKind::NotFound => Ok(None),
        Err(e) => Err(e),
    }
}

/// An open file that one program at a time may hold.
pub trait Hold {
    /// This program holds it.
    ghost is_held: { Self → Type 0 };

    /// Tries to hold the file until its last handle is closed, and returns whether it does: false if another program holds it. It
    /// never waits.
    ///
    /// # Errors
    ///
    /// If the file can't be locked for another reason, as on a file system without locks.
    fn try_hold(&self) -> io::Result<bool>
        ensures { IfOk result (λ held. IsTrue held → is_held self.now) };

    /// What is found of it.
    fn found(&self) -> io::Result<Found>;

    /// Gives it this group, and this owner if one is named. It goes by the open file: a name could lead to another one by now.
    ///
    /// # Errors
    ///
    /// If this program may not.
    fn give_to(&self, owner: Option<u32>, group: u32) -> io::Result<()>;
}

impl Hold for File {
    // What the system says of its locks no proof sees.
    ghost is_held = { λ _. ⊤ };

    fn try_hold(&self) -> io::Result<bool> {
        match self.try_lock() {
            Ok(()) => Ok(true),
            Err(TryLockError::WouldBlock) => Ok(false),
            Err(TryLockError::Error(e)) => Err(e),
        }
    }

    fn found(&self) -> io::Result<Found> {
        Ok(Found::of(&self.metadata()?))
    }

    fn give_to(&self, owner: Option<u32>, group: u32) -> io::Result<()> {
        fchown(self, owner, Some(group))
    }
}

/// A lock that this program holds.
#[derive(Drop)]
pub struct Lock<F> {
    pub file: F,
    /// Whether this program made its file.
    pub is_made: bool,
}

/// Holds a lock that was opened; none where another program holds it.
///
/// # Errors
///
/// If it can't be held for another reason.
pub fn held<F: Hold + Drop>(file: F, is_made: bool) -> io::Result<Option<Lock<F>>>
    ensures held { IfOk result (λ found. (lock : _) → found ≡ Some lock → F.is_held lock.file) }
{
    if file.try_hold()? {
        return Ok(Some(Lock { file, is_made }));
    }
    Ok(None)
}
