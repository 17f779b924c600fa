// A new file is filled so that it begins with a ledger's mark only once it is whole.
ghost use Rattle.std.specs.Prelude.{◌≡◌, ◌++◌, ℕ, ◌∷◌, List, OnOk, drop};
ghost use Rattle.std.specs.Io.KnownBytes.{Appends};
ghost use Rattle.mv_commands.specs.Fresh.{Bare, Fronts, IsWholeIfMarked};
ghost use Rattle.mv_commands.specs.FreshMoments.{Elapses, LeavesOnly};

use std::fs::{OpenFile, Permissions};
use std::io::{self, Seek, SeekFrom, Write};
use std::os::unix::fs::PermissionsExt;

/// A new file, of which nobody but this program has a handle.
pub trait Fresh {
    /// It has these bytes, where that is known.
    ghost seen: { Self → List ℕ → Type 0 };

    /// What a crash at this moment may leave of it.
    ghost may_leave: { Self → List ℕ → Type 0 };

    ghost moment: { Self → ℕ };

    ghost left_since: { Self → ℕ → List ℕ → Type 0 };

    /// Writes a body behind four zeros. A part of that doesn't begin with a mark.
    fn write_body(&mut self, mark: &[u8], body: &[u8]) -> io::Result<()>
        requires { Bare mark.now (may_leave self.old) }
        ensures done { OnOk result ((s : List ℕ) → seen self.new s → s ≡ 0 ∷ 0 ∷ 0 ∷ 0 ∷ body.now) }
        ensures crash { Bare mark.now (may_leave self.new) }
        ensures time { Elapses (moment self.old) (moment self.new) (left_since self.old) (left_since self.new) (may_leave self.new) };

    /// Writes the mark over the four zeros.
    fn write_mark(&mut self, mark: &[u8]) -> io::Result<()>
        ensures done { OnOk result ((s : List ℕ) → seen self.new s → (d : List ℕ) × seen self.old d × (s ≡ mark.now ++ drop 4 d)) }
        ensures crash { Fronts mark.now (may_leave self.old) (may_leave self.new) }
        ensures time { Elapses (moment self.old) (moment self.new) (left_since self.old) (left_since self.new) (may_leave self.new) };

    /// After it, a crash leaves what is seen.
    fn sync(&mut self) -> io::Result<()>
        ensures durable { OnOk result ((c : List ℕ) → may_leave self.new c → seen self.old c) }
        ensures seen { (s : List ℕ) → seen self.new s → seen self.old s }
        ensures crash { (c : List ℕ) → may_leave self.new c → may_leave self.old c }
        ensures time { Elapses (moment self.old) (moment self.new) (left_since self.old) (left_since self.new) (may_leave self.new) };

    /// Since this moment there is no other.
    ghost only_now: { (file : Self) (c : List ℕ) → left_since file (moment file) c → may_leave file c };
}

/// Fills a new file with a mark and a body.
pub fn fill<F: Fresh>(file: &mut F, mark: &[u8], body: &[u8]) -> io::Result<()>
    requires bare { Bare mark.now (F.may_leave file.old) }
    ensures any_moment { LeavesOnly F.moment F.left_since file.old file.new (IsWholeIfMarked mark.now (mark.now ++ body.now)) }
    ensures whole { OnOk result ((c : List ℕ) → F.may_leave file.new c → c ≡ mark.now ++ body.now) }
{
    file.write_body(mark, body)?;
    file.sync()?;
    file.write_mark(mark)?;
    file.sync()
}

/// A new file of the system, and the permissions that it gets before it is synced. What a crash leaves of it the proof can't see: of
/// it nothing is claimed.
#[derive(Drop)]
pub struct NewFile<F> {
    pub file: F,
    pub permissions: Option<Permissions>,
}

/// Writes a body behind four zeros.
fn body_written<F: Write>(file: &mut F, body: &[u8]) -> io::Result<()>
    ensures { OnOk result (Appends (F.contents file.old) (F.contents file.new) (0 ∷ 0 ∷ 0 ∷ 0 ∷ body.now)) }
{
    file.write_all(&[0, 0, 0, 0])?;
    file.write_all(body)
}

impl<F: Write + Seek + OpenFile> Fresh for NewFile<F> {
    ghost seen = { λ _ _. ⊥ };

    ghost may_leave = { λ _ _. ⊥ };

    ghost moment = { λ _. 0 };

    ghost left_since = { λ _ _ _. ⊥ };

    ghost only_now = { λ _ _ left. left };

    fn write_body(&mut self, _mark: &[u8], body: &[u8]) -> io::Result<()> {
        body_written(&mut self.file, body)?;
        match &self.permissions {
            Some(permissions) => self
                .file
                .set_permissions(Permissions::from_mode(permissions.mode())),
            None => Ok(()),
        }
    }

    fn write_mark(&mut self, mark: &[u8]) -> io::Result<()> {
        self.file.seek(SeekFrom::Start(0))?;
        self.file.write_all(mark)
    }

    fn sync(&mut self) -> io::Result<()> {
        self.file.sync_all()
    }
}
