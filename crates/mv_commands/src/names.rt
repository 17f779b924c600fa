// The last steps of a save: which names lead where, at any moment and after a crash at any moment.
ghost use Rattle.std.specs.Prelude.{◌≡◌, ℕ, true, false, OnOk, OnErr};
ghost use Rattle.mv_commands.specs.Names.{Elapses, IsElsewhere, IsKept, LeavesOnly, May, Only, Stands, kept_beside, kept_unsaved, placed, placed_too};

use crate::error::KeepError;
use std::alloc::AllocError;
use std::io;

/// Why the names aren't as they were to be.
#[derive(Clone, Copy, Debug, PartialEq, Eq)]
pub enum NotPut {
    /// What stands in the place isn't what was looked at.
    Changed,
    /// It failed for this reason.
    Failed(KeepError),
}

impl NotPut {
    /// Why the file isn't kept.
    pub fn reason(self) -> KeepError {
        match self {
            NotPut::Changed => KeepError::InUse,
            NotPut::Failed(e) => e,
        }
    }
}

impl From<KeepError> for NotPut {
    fn from(e: KeepError) -> Self {
        NotPut::Failed(e)
    }
}

impl From<io::Error> for NotPut {
    fn from(e: io::Error) -> Self {
        NotPut::Failed(KeepError::from(e))
    }
}

impl From<AllocError> for NotPut {
    fn from(e: AllocError) -> Self {
        NotPut::Failed(KeepError::from(e))
    }
}

/// The names of a folder that a save changes.
pub trait Names {
    /// What they lead to.
    ghost seen: { Self → Stands };

    /// What a crash at this moment may leave.
    ghost may_leave: { Self → Stands → Type 0 };

    /// The moment, as a number that doesn't fall.
    ghost moment: { Self → ℕ };

    /// What a crash at some moment from that one on might have left.
    ghost left_since: { Self → ℕ → Stands → Type 0 };

    /// What stands in the place gets one more name, which nothing had.
    fn keep_beside(&mut self) -> Result<(), NotPut>
        ensures done { OnOk result (seen self.new ≡ kept_beside (seen self.old) (seen self.old)) }
        ensures not_done { OnErr result (seen self.new ≡ seen self.old) }
        ensures crash { May (kept_beside (seen self.old)) (may_leave self.old) (may_leave self.new) }
        ensures time { Elapses (moment self.old) (moment self.new) (left_since self.old) (left_since self.new) (may_leave self.new) };

    /// The new file gets the name of the ledger, and has no other then.
    fn place(&mut self) -> Result<(), NotPut>
        ensures done { OnOk result (seen self.new ≡ placed (seen self.old) (seen self.old)) }
        ensures not_done { OnErr result (seen self.new ≡ seen self.old) }
        ensures crash { May (placed (seen self.old)) (may_leave self.old) (may_leave self.new) }
        ensures time { Elapses (moment self.old) (moment self.new) (left_since self.old) (left_since self.new) (may_leave self.new) };

    /// The new file gets the name of the ledger, which nothing had, beside its own.
    fn place_too(&mut self) -> Result<(), NotPut>
        ensures done { OnOk result (seen self.new ≡ placed_too (seen self.old) (seen self.old)) }
        ensures not_done { OnErr result (seen self.new ≡ seen self.old) }
        ensures crash { May (placed_too (seen self.old)) (may_leave self.old) (may_leave self.new) }
        ensures time { Elapses (moment self.old) (moment self.new) (left_since self.old) (left_since self.new) (may_leave self.new) };

    /// The new file gets one more name, which nothing had.
    fn keep_unsaved(&mut self) -> Result<(), NotPut>
        ensures done { OnOk result (seen self.new ≡ kept_unsaved (seen self.old) (seen self.old)) }
        ensures not_done { OnErr result (seen self.new ≡ seen self.old) }
        ensures crash { May (kept_unsaved (seen self.old)) (may_leave self.old) (may_leave self.new) }
        ensures time { Elapses (moment self.old) (moment self.new) (left_since self.old) (left_since self.new) (may_leave self.new) };

    /// After it, a crash leaves what is seen.
    fn sync(&mut self) -> Result<(), NotPut>
        ensures durable { OnOk result (Only (seen self.old) (may_leave self.new)) }
        ensures seen { seen self.new ≡ seen self.old }
        ensures crash { (c : Stands) → may_leave self.new c → may_leave self.old c }
        ensures time { Elapses (moment self.old) (moment self.new) (left_since self.old) (left_since self.new) (may_leave self.new) };

    /// Since this moment there is no other.
    ghost only_now: { (names : Self) (c : Stands) → left_since names (moment names) c → may_leave names c };
}

/// Gives the new file its place, beside what stood there if that has to stay.
pub fn put<N: Names>(names: &mut N, stays: bool) -> Result<(), NotPut>
    requires { (c : Stands) → N.may_leave names.old c → c.place ≡ (N.seen names.old).place }
    // A crash at any moment leaves the old ledger under the name, or the new one and what had to stay.
    ensures any_moment { LeavesOnly N.moment N.left_since names.old names.new (IsKept stays (N.seen names.old)) }
    ensures placed { OnOk result ((c : Stands) → N.may_leave names.new c → c.place ≡ (N.seen names.old).fresh) }
    ensures beside { OnOk result (stays ≡ true → (c : Stands) → N.may_leave names.new c → c.beside ≡ (N.seen names.old).place) }
{
    if stays {
        names.keep_beside()?;
    }
    names.sync()?;
    names.place()?;
    names.sync()
}

/// Gives the new file its place, where nothing stands.
pub fn put_first<N: Names>(names: &mut N) -> Result<(), NotPut>
    requires { (c : Stands) → N.may_leave names.old c → c.place ≡ (N.seen names.old).place }
    // A crash at any moment leaves what stood under the name, or the new ledger.
    ensures any_moment { LeavesOnly N.moment N.left_since names.old names.new (IsKept false (N.seen names.old)) }
    ensures placed { OnOk result ((c : Stands) → N.may_leave names.new c → c.place ≡ (N.seen names.old).fresh) }
{
    names.place_too()?;
    names.sync()
}

/// Gives a new file that can't have its place a name of its own.
pub fn put_aside<N: Names>(names: &mut N) -> Result<(), NotPut>
    // A crash at any moment leaves the two others as it would have left them.
    ensures any_moment { LeavesOnly N.moment N.left_since names.old names.new (IsElsewhere (N.may_leave names.old)) }
    ensures aside { OnOk result ((c : Stands) → N.may_leave names.new c → c.unsaved ≡ (N.seen names.old).fresh) }
{
    names.keep_unsaved()?;
    names.sync()
}
