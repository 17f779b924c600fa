//! The ledger: it publishes bundles, executes runs, and keeps what they store.
//!
//! ```
//! use mv_ledger::{Ledger, Reply};
//! use std::alloc::{AllocError, Global};
//!
//! /// Publishes what a payload offers, and keeps the ledger as text where that was done.
//! fn example(alloc: Global, payload: &[u8]) -> Result<Option<Vec<u8>>, AllocError> {
//!     let mut ledger = Ledger::new(alloc);
//!     match ledger.publish(payload) {
//!         Reply::Published(_) => Ok(Some(ledger.save()?)),
//!         _ => Ok(None),
//!     }
//! }
//! ```
#![tactic(auto)]

mod blocks;
mod changed;
mod executing;
mod format;
mod laws;
mod loading;
mod modules;
mod questions;
mod saving;
mod scratch;

ghost use Rattle.std.specs.Prelude.{◌≡◌, is_some, IfOk};
ghost use Rattle.mv_ledger_state.specs.View.{empty_view, state_of};
ghost use Rattle.mv_ledger.specs.Answering.{told, told_lines, Replies, RepliesText};
ghost use Rattle.mv_ledger_state.specs.RecordText.{format_text};
ghost use Rattle.mv_ledger_state.specs.Accepted.SoundLedger.{IsSoundLedger};
ghost use Rattle.mv_saved_text.specs.SavedLaws.{IsSavable};
ghost use Rattle.mv_saved_text.specs.SavedText.{IsSavedText, Second};

pub use changed::ChangedModules;
use executing::{Barred, admitted};
pub use format::Format;
use format::read_format;
pub use laws::{
    each_ledger_has_one_text, each_load_is_one, each_load_is_saved, each_load_is_sound,
    each_record_is_well, each_save_flows, each_save_is_loaded, each_second_form_comes_back,
    each_tally_is_scarce, each_text_has_one_ledger, every_count_is_tallied, every_run_conserves,
    every_run_is_own_work, no_load_fails, no_save_is_refused, no_text_is_escaped,
};
pub use loading::migrate;
pub use modules::Modules;
pub use mv_interface::StructName;
use mv_ledger_state::{Published, read_run};
pub use mv_lines::{Lines, Piece, Side};
pub use mv_machine::Tally;
use mv_machine::{Arg, Outcome};
use mv_move_types::Refusal;
use mv_saved_text::text_of;
pub use mv_saved_text::{LoadError, Saving};
use mv_storage::Storage;
pub use mv_storage::{Changes, Entries, Page};
pub use scratch::Scratch;
use std::alloc::{AllocError, Global};
use std::marker::Model;
use std::mem::replace;

/// What the ledger answers to a record.
#[derive(Clone, Copy)]
pub enum Reply {
    /// This many modules were published.
    Published(u64),
    /// The bundle fails this phase, and nothing changed.
    Refused(u8),
    /// The run was not begun, for this reason, and nothing changed.
    Rejected(u8),
    /// The run was executed, with this outcome.
    Ran(Outcome),
    /// An allocation failed, and nothing changed.
    Memory,
}

impl Reply {
    /// Whether it says something of the record; want of memory doesn't.
    fn is_told(&self) -> bool
        ensures { result ≡ is_some (told self.now) }
    {
        !matches!(self, Reply::Memory)
    }
}

/// The published modules, the stored values, the tallies of the structs with neither copy nor drop, and the number of runs so
/// far. Its model is what it holds, with values as their words. `state_of` gives the machine's ledger that it stands for, which
/// is sound.
#[derive(Drop)]
pub struct Ledger {
    alloc: Global,
    published: Published,
    storage: Storage,
    runs: u64,
    // How many runs there were where each open block was begun, the oldest first.
    run_marks: Vec<u64>,
    scratch: Scratch,
    // Memory for the arguments of the next run. What it holds means nothing.
    arguments: Vec<Arg>,
}

impl Model for Ledger {
    ghost use Rattle.mv_ledger_state.specs.View.{LedgerView, view_of, IsLedger};
    ghost use Rattle.mv_ledger.specs.Marks.{AreLedgers, held_marks, marked};
    ghost use Rattle.mv_machine.specs.Tallies.{all_of};

    ghost Value = { LedgerView };

    ghost view = { λ l. marked (view_of l.published.modules l.storage.committed (all_of l.published.tallies) l.runs)
        (held_marks l.published.marks l.storage.marks l.run_marks.items) };

    ghost invariant = { λ l. IsLedger l.published.modules l.storage.committed (all_of l.published.tallies) l.runs
        × AreLedgers l.published.marks l.storage.marks l.run_marks.items };
}

impl Ledger {
    /// A ledger with nothing published.
    pub fn new(alloc: Global) -> Self
        ensures { result ≡ empty_view }
    {
        Ledger {
            alloc,
            published: Published::new(alloc),
            storage: Storage::new(alloc),
            runs: 0,
            run_marks: Vec::new(alloc),
            scratch: Scratch::new(alloc),
            arguments: Vec::new(alloc),
        }
    }

    /// The allocator that it takes memory from.
    pub fn allocator(&self) -> Global {
        self.alloc
    }

    /// For the prover: the machine's ledger that it stands for is sound.
    pub fn is_sound(&self)
        ensures { IsSoundLedger (state_of self.now) }
    {
        let _runs = self.runs;
    }

    /// For the prover: the machine's ledger that it stands for is within the limits of a saved one.
    pub fn is_savable(&self)
        ensures { IsSavable (state_of self.now) }
    {
        // For the prover: the modules are no more than a ledger has, fewer than 2^63 values are stored, and what is read from a text
        // it spells.
        self.published.is_tallied();
        let _entries = self.storage.iter();
        mv_binary_format::modules_are_read_by_text();
    }

    /// Answers a publish record with this payload.
    pub fn publish(&mut self, payload: &[u8]) -> Reply
        ensures { Replies 1 payload.now (told result) self.old self.new }
    {
        match self.published.publish(self.alloc, payload) {
            Ok(count) => Reply::Published(count),
            Err(Refusal::Phase(phase)) => Reply::Refused(phase),
            Err(Refusal::Memory) => Reply::Memory,
        }
    }

    /// Answers a run record with this payload.
    pub fn execute(&mut self, payload: &[u8]) -> Reply
        ensures { Replies 2 payload.now (told result) self.old self.new }
    {
        let list = replace(&mut self.arguments, Vec::new(self.alloc));
        let asked = match read_run(list, payload) {
            Ok(asked) => asked,
            Err(Refusal::Phase(_)) => return Reply::Rejected(1),
            Err(Refusal::Memory) => return Reply::Memory,
        };
        let published = &mut self.published;
        match admitted(&published.store, self.runs, asked) {
            Ok(call) => {
                let reply = executing::execute(published, &mut self.storage, &call);
                self.arguments = call.arguments;
                if reply.is_told() {
                    self.runs += 1;
                }
                reply
            }
            Err(Barred::Rejected(reason)) => Reply::Rejected(reason),
            Err(Barred::Memory) => Reply::Memory,
        }
    }

    /// Answers a show record with this payload: all that is stored, by ascending key. The text has a line for each value and a last
    /// line with their number, or one line of JSON. Each line has its line end, and none has the record's number.
    ///
    /// # Errors
    ///
    /// `Phase(1)` if the payload names no format; `Memory` if an allocation failed.
    pub fn show(&self, payload: &[u8]) -> Result<String, Refusal>
        ensures { RepliesText 3 payload.now result self.now }
    {
        let lines = self.show_lines(payload)?;
        Ok(lines.into_text()?)
    }

    /// Answers an audit record with this payload: the counts of each struct with neither copy nor drop, in a text as that of
    /// `show`.
    ///
    /// # Errors
    /// As with `show`.
    pub fn audit(&self, payload: &[u8]) -> Result<String, Refusal>
        ensures { RepliesText 4 payload.now result self.now }
    {
        let lines = self.audit_lines(payload)?;
        Ok(lines.into_text()?)
    }

    /// As `show`, but piece by piece: each is made when it is asked for.
    ///
    /// # Errors
    ///
    /// `Phase(1)` if the payload names no format.
    pub fn show_lines(&self, payload: &[u8]) -> Result<Lines<'_>, Refusal>
        ensures replies { Replies 3 payload.now (told_lines result) self.now self.now }
        // They are told in the format that the payload asks for.
        ensures format { IfOk result (λ lines. payload.now ≡ format_text lines.format) }
    {
        let alloc = self.alloc;
        let published = &self.published;
        let Some(format) = read_format(payload) else {
            return Err(Refusal::Phase(1));
        };
        match format {
            Format::Text => Ok(Lines::of_storage(alloc, &published.store, &self.storage)),
            Format::Json => Ok(Lines::json_of_storage(alloc, &published.store, &self.storage)),
        }
    }

    /// As `audit`, but piece by piece: each is made when it is asked for. How many values of a struct are stored is computed from
    /// its tally, without a walk over the storage.
    ///
    /// # Errors
    ///
    /// `Phase(1)` if the payload names no format.
    pub fn audit_lines(&self, payload: &[u8]) -> Result<Lines<'_>, Refusal>
        ensures replies { Replies 4 payload.now (told_lines result) self.now self.now }
        // They are told in the format that the payload asks for.
        ensures format { IfOk result (λ lines. payload.now ≡ format_text lines.format) }
    {
        let alloc = self.alloc;
        let published = &self.published;
        let tallies = published.tallies.lists();
        let Some(format) = read_format(payload) else {
            return Err(Refusal::Phase(1));
        };
        match format {
            Format::Text => Ok(Lines::of_tallies(alloc, &published.store, tallies)),
            Format::Json => Ok(Lines::json_of_tallies(alloc, &published.store, tallies)),
        }
    }

    /// The ledger's text, in the second form.
    ///
    /// # Errors
    /// If an allocation failed.
    pub fn save(&self) -> Result<Vec<u8>, AllocError>
        ensures { IfOk result (λ v. IsSavedText Second v.items (state_of self.now)) }
    {
        // For the prover: what it stands for is sound, and within the limits of a saved ledger.
        self.is_sound();
        self.is_savable();
        let published = &self.published;
        text_of(
            self.alloc,
            &published.store,
            &self.storage,
            &published.tallies,
            self.runs,
        )
    }
}
