// The place that a ledger is saved to, from before the first record to the end.
use crate::told::{Reason, Teller, Told};
use moveledger::{
    End, KeepError, Ledger, Looks, Place, Seen, Stand, claim_place, end_of_keeping, end_of_text,
    is_one, keep, release, text_to_keep,
};
use std::cell::Cell;
use std::fs::File;

/// Where a ledger is to be saved, and what came of the claim to that place. If it failed for another reason than that the ledger
/// which is loaded from there can't be had alone, that is said before the first record is answered, and is the last fault that
/// counts: the records are answered, and nothing is saved.
#[derive(Drop)]
pub struct Saving<'a> {
    rt: &'a HostRuntime,
    path: &'a str,
    claimed: Result<Stand<File>, KeepError>,
}

impl<'a> Saving<'a> {
    /// Claims the place. `load` is the file that the ledger is begun with, `output` what standard output is.
    pub fn begin(
        rt: &'a HostRuntime,
        path: &'a str,
        output: Option<Place>,
        load: Option<&str>,
    ) -> Self {
        let claimed = claim_place(rt, path, output, load, &Teller { rt, path });
        Saving { rt, path, claimed }
    }

    /// Gives the place up.
    pub fn end(self) {
        let Saving { rt, claimed, .. } = self;
        if let Ok(stand) = claimed {
            release(rt, stand);
        }
    }

    /// Whether this is the file that is replaced.
    pub fn is_replaced(&self, path: &str, place: Place) -> bool {
        path == self.path
            || matches!(self.rt.look_through(self.path), Ok(Some(found)) if is_one(place, Some(found.seen.place)))
    }

    /// Why the ledger that stands there can't be loaded to be replaced: another program saves there, or nobody can know.
    pub fn not_alone(&self) -> Option<Reason<'a>> {
        match &self.claimed {
            Err(KeepError::InUse | KeepError::NoLock(_)) => self.reason(),
            _ => None,
        }
    }

    /// Why nothing can be saved there, if that shows by now.
    fn reason(&self) -> Option<Reason<'a>> {
        match &self.claimed {
            Ok(_) => None,
            Err(error) => Some(Reason {
                path: self.path,
                error: *error,
            }),
        }
    }

    /// Says before the first record is answered that nothing can be saved there, if that shows by now.
    pub fn warn(&self) {
        if let Some(reason) = self.reason() {
            let name = if self.path.is_empty() {
                "\"\""
            } else {
                self.path
            };
            let said = format!(in self.rt.alloc();
                "moveledger: {name}: {reason}: the ledger won't be saved\n"
            );
            if let Ok(said) = said {
                let _ = self.rt.eprint(said.as_str());
            }
        }
    }

    /// Saves a ledger there, if its records ended well. `loaded` is what was loaded from there.
    pub fn save(&self, loaded: Option<Seen>, end: End, ledger: &Ledger) -> Told {
        match &self.claimed {
            Err(error) if end == End::Done => Told::plainly(end_of_keeping(Err(*error))),
            _ => self.save_text(loaded, text_to_keep(end, ledger)),
        }
    }

    /// Saves a text there, if there is one.
    pub fn save_text(&self, loaded: Option<Seen>, text: Result<Vec<u8>, End>) -> Told {
        let failed = Cell::new(None);
        let teller = Teller {
            rt: self.rt,
            path: self.path,
        };
        let end = match &self.claimed {
            Err(error) => end_of_text(text, |_| Err(*error)),
            Ok(stand) => end_of_text(text, |text| {
                let kept = keep(self.rt, self.path, stand, loaded, text, &teller);
                failed.set(kept.err());
                kept
            }),
        };
        match (end, failed.get()) {
            (End::Write, Some(error)) => {
                let path = self.path;
                Told::of_file(self.rt.alloc(), end, path, Reason { path, error })
            }
            _ => Told::plainly(end),
        }
    }
}
