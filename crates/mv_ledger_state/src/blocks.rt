// Open blocks: what their marks go back to.
ghost use Rattle.std.specs.Prelude.{◌≡◌, ◌+◌, ◌<◌, ◌≤◌, [], List, unwrap_or, OnOk};
ghost use Rattle.std.specs.Vec.{vec_len, vec_capacity};
ghost use Rattle.mv_machine.specs.declared.Tally.{Tally as Counts};
ghost use Rattle.mv_move_types.specs.Published.{PublishedModule};
ghost use Rattle.mv_ledger_state.specs.Blocks.{counts_at, held_in, is_open, tally_back, CanNote, Ascend};

use mv_linker::Store;
use mv_machine::Tally;
use std::alloc::{AllocError, Global};

// For so many changes room is kept from one block to the next.
const MOST_KEPT: usize = 4_096;

/// What the tallies were before a change of them.
#[derive(Drop)]
pub enum TallyBefore {
    /// Those of one module fewer.
    Added,
    /// The module at a place had these, before it was upgraded.
    Replaced(usize, Vec<Tally>),
    /// The one at an index among those of the module at a place was this, before a run.
    Counted(usize, usize, Tally),
}

/// What an open block goes back to.
#[derive(Drop)]
pub struct Mark {
    /// How many changes of tallies were noted when it was begun.
    pub noted: usize,
    /// The modules then; none, if they are still those of the next newer block, or of now.
    pub store: Option<Store>,
}

/// The open blocks, the oldest first, and the changes of tallies since the first of them was begun, each with what takes it back.
#[derive(Drop)]
pub struct Blocks {
    pub noted: Vec<TallyBefore>,
    pub marks: Vec<Mark>,
    /// For so many changes there is room.
    pub room: usize,
}

/// What a mark without modules of its own has, once these may change; and whether they could be copied.
fn with_copy(had: Option<Store>, store: &Store) -> (Option<Store>, Result<(), AllocError>)
    ensures ok { OnOk result.1 ((modules : List PublishedModule) → unwrap_or result.0 modules ≡ unwrap_or had store.now) }
    ensures same { unwrap_or result.0 store.now ≡ unwrap_or had store.now }
{
    match had {
        Some(older) => (Some(older), Ok(())),
        None => match store.copied() {
            Ok(copy) => (Some(copy), Ok(())),
            Err(error) => (None, Err(error)),
        },
    }
}

/// Gives back the memory for what is noted, if it is much and nothing is noted.
pub fn give_back(noted: &mut Vec<TallyBefore>)
    ensures { noted.new.items ≡ noted.old.items }
{
    if noted.is_empty() && noted.capacity() > MOST_KEPT {
        let alloc = *noted.allocator();
        *noted = Vec::new(alloc);
    }
}

impl Blocks {
    /// No open block.
    pub fn new(alloc: Global) -> Self
        ensures marks { result.marks.items ≡ [] }
        ensures noted { result.noted.items ≡ [] }
        ensures room { result.room ≡ 0 }
    {
        Blocks {
            noted: Vec::new(alloc),
            marks: Vec::new(alloc),
            room: 0,
        }
    }

    /// Keeps these modules for the newest block, if it is open and has none yet: they may change from now on.
    ///
    /// # Errors
    ///
    /// If an allocation failed. Nothing changes then.
    fn note_store(&mut self, store: &Store) -> Result<(), AllocError>
        ensures held { OnOk result ((modules : List PublishedModule) (tallies : List (List Counts)) → held_in self.new modules tallies ≡ held_in self.old store.now tallies) }
        ensures same { (tallies : List (List Counts)) → held_in self.new store.now tallies ≡ held_in self.old store.now tallies }
        ensures counts { counts_at self.new.marks.items ≡ counts_at self.old.marks.items }
        ensures open { is_open self.new.marks.items ≡ is_open self.old.marks.items }
        ensures noted { self.new.noted ≡ self.old.noted }
        ensures room { self.new.room ≡ self.old.room }
    {
        match self.marks.pop() {
            Some(mark) => {
                let (copy, done) = with_copy(mark.store, store);
                self.marks.push_reserved(Mark {
                    noted: mark.noted,
                    store: copy,
                });
                done
            }
            None => Ok(()),
        }
    }

    /// Notes what takes a change back, if a block is open.
    pub fn note(&mut self, before: TallyBefore)
        requires { CanNote 1 self.old }
        ensures held { Ascend self.old → (modules : List PublishedModule) (old new : List (List Counts)) → tally_back before new ≡ old
            → held_in self.new modules new ≡ held_in self.old modules old }
        ensures ascend { Ascend self.old → Ascend self.new }
        ensures len { vec_len self.new.noted ≤ vec_len self.old.noted + 1 }
        ensures capacity { vec_capacity self.new.noted ≡ vec_capacity self.old.noted }
        ensures marks { self.new.marks ≡ self.old.marks }
    {
        if !self.marks.is_empty() {
            self.noted.push_reserved(before);
        }
    }

    /// Takes room for so many changes, if a block is open.
    ///
    /// # Errors
    ///
    /// If an allocation failed. Nothing changes then.
    fn reserve(&mut self, count: usize) -> Result<(), AllocError>
        ensures can { OnOk result (CanNote count self.new) }
        ensures noted { self.new.noted.items ≡ self.old.noted.items }
        ensures len { vec_len self.new.noted ≡ vec_len self.old.noted }
        ensures capacity { vec_capacity self.old.noted ≤ vec_capacity self.new.noted }
        ensures marks { self.new.marks ≡ self.old.marks }
        ensures room { self.new.room ≡ self.old.room }
    {
        if self.marks.is_empty() {
            return Ok(());
        }
        self.noted.reserve(count)
    }

    /// Takes room for noting so many changes of tallies, and keeps these modules for the newest block, if a block is open: they may
    /// change from now on.
    ///
    /// # Errors
    ///
    /// If an allocation failed. Nothing changes then.
    pub fn prepare(&mut self, count: usize, store: &Store) -> Result<(), AllocError>
        ensures can { OnOk result (CanNote count self.new) }
        ensures held { OnOk result ((modules : List PublishedModule) (tallies : List (List Counts)) → held_in self.new modules tallies ≡ held_in self.old store.now tallies) }
        ensures same { (tallies : List (List Counts)) → held_in self.new store.now tallies ≡ held_in self.old store.now tallies }
        ensures ascend { Ascend self.old → Ascend self.new }
        ensures len { vec_len self.new.noted ≡ vec_len self.old.noted }
        ensures capacity { vec_capacity self.old.noted ≤ vec_capacity self.new.noted }
        ensures room { self.new.room ≡ self.old.room }
    {
        self.reserve(count)?;
        self.note_store(store)
    }

    /// Hands the modules of a block that is closed to the next older one, if that has none; without an older one nothing has to be
    /// noted any more.
    pub fn hand(&mut self, store: Option<Store>)
        requires { vec_len self.old.marks < vec_capacity self.old.marks }
        ensures ascend { Ascend self.old → Ascend self.new }
        ensures held { (modules : List PublishedModule) (tallies : List (List Counts)) → held_in self.new modules tallies ≡ held_in self.old (unwrap_or store modules) tallies }
        ensures room { self.new.room ≡ 0 }
    {
        self.room = 0;
        match self.marks.pop() {
            Some(mark) => self.marks.push_reserved(Mark {
                noted: mark.noted,
                store: mark.store.or(store),
            }),
            None => {
                self.noted.clear();
                give_back(&mut self.noted);
            }
        }
    }
}
