// The published modules of a ledger with their tallies, and how modules join them.
ghost use Rattle.std.specs.Prelude.{◌≡◌, ◌+◌, ◌-◌, ◌^◌, ◌<◌, ◌≤◌, nat_lt, nat_le, count_by, option_and_then, All, length, map, IfOk, IfErr, OnOk, OnErr};
ghost use Rattle.mv_move_types.specs.Limits.{most_modules};
ghost use Rattle.mv_move_types.specs.Module.{own_name};
ghost use Rattle.mv_move_types.specs.Named.{module_place};
ghost use Rattle.mv_move_types.specs.Published.{with_modules};
ghost use Rattle.mv_link_rules.specs.Link.{tables_in};
ghost use Rattle.mv_linker.specs.News.{AreTexts, published_of};
ghost use Rattle.mv_frames.specs.Counters.{AtMost};
ghost use Rattle.mv_ledger_state.specs.declared.tallies.Placed.{Placed as PlacedRecord};
ghost use Rattle.mv_ledger_state.specs.Judging.{IsKeptOut, MayFollow};
ghost use Rattle.mv_ledger_state.specs.Tallying.{tally_after, AddsTallies, ArePlacedFor, HasRoomLeft};
ghost use Rattle.mv_ledger_state.specs.View.{none_published, ArePlaced, CanCount, IsTalliedStore};
ghost use Rattle.mv_machine.specs.Tallies.{all_of};

use crate::blocks::Blocks;
use crate::tallies::{Placed, Tallies, put_all, scarce_structs};
use mv_binary_format::Module;
use mv_frames::StructTally;
use mv_linker::{New, Store, add, link, name_of};
use mv_move_types::Refusal;
use mv_move_types::limits::MOST_MODULES;
use std::alloc::{AllocError, Global};
use std::marker::Model;

/// Where each of these modules is to stand, with its tallies: in the place of the published one of its name, whose tallies it
/// keeps, or in the next place.
fn placed(
    alloc: Global,
    store: &Store,
    tallies: &Tallies,
    news: &[New<'_>],
) -> Result<Vec<Placed>, AllocError>
    requires few { length store.now + length news.now < 65536 }
    requires all { length tallies.now ≡ length store.now }
    ensures placed { IfOk result (λ v. ArePlacedFor (tables_in store.now) tallies.now (length store.now) (tables_in (published_of news.now)) v.items) }
    ensures theirs { ArePlaced 0 tallies.now }
{
    let mut next = tallies.len();
    let mut all = Vec::with_capacity(alloc, news.len())?;
    'each: for new in news {
        let module = new.module.module();
        let found = place_of(store, module);
        let place = found.unwrap_or(next);
        let structs = scarce_structs(alloc, module)?;
        all.push(Placed {
            place,
            tallies: tallies.extended(alloc, place, &structs)?,
        })?;
        if found.is_none() {
            next += 1;
        }
    }
    Ok(all)
}

/// The place of the published module that has a module's name.
fn place_of(store: &Store, m: &Module<'_>) -> Option<usize>
    ensures { result ≡ option_and_then (module_place (tables_in store.now)) (own_name m.now) }
{
    let (address, name) = name_of(m)?;
    store.find(address, name)
}

/// How many of these modules are to stand behind so many that are there.
fn count_behind(placed: &[Placed], count: usize) -> usize
    ensures count { result ≡ count_by (λ (p : PlacedRecord). nat_le count p.place) placed.now }
    ensures few { result ≤ length placed.now }
{
    placed.iter().filter(|p| p.place >= count).count()
}

/// Whether a bundle makes more modules than a ledger may have of so many that are there.
fn is_too_much(placed: &[Placed], count: usize) -> bool
    requires { count + length placed.now < 2 ^ 63 }
    ensures { result ≡ nat_lt most_modules (count + count_by (λ (p : PlacedRecord). nat_le count p.place) placed.now) }
{
    count + count_behind(placed, count) > MOST_MODULES
}

/// The published modules, and the tallies of each one's structs with neither copy nor drop; and what takes back what was published
/// and tallied since the first open block was begun.
#[derive(Drop)]
pub struct Published {
    pub store: Store,
    pub tallies: Tallies,
    pub(crate) blocks: Blocks,
}

impl Model for Published {
    ghost use Rattle.mv_ledger_state.specs.Blocks.{held_in, AreHeld};
    ghost use Rattle.mv_ledger_state.specs.View.{PublishedView, IsTalliedStore};

    ghost Value = { PublishedView };

    ghost view = { λ p. record { modules = p.store; tallies = p.tallies; marks = held_in p.blocks p.store p.tallies; room = p.blocks.room } };

    ghost invariant = { λ p. IsTalliedStore p.store p.tallies × AreHeld p.blocks p.store p.tallies };
}

impl Published {
    /// No modules.
    pub fn new(alloc: Global) -> Self
        ensures { result ≡ none_published }
    {
        Published {
            store: Store::new(alloc),
            tallies: Tallies::new(alloc),
            blocks: Blocks::new(alloc),
        }
    }

    /// For the prover: the modules are a store, and their tallies are theirs.
    pub fn is_tallied(&self)
        ensures { IsTalliedStore self.now.modules self.now.tallies }
    {
        let _store = &self.store;
    }

    /// Publishes modules that passed their phases. Each takes the place of the one of its name, whose tallies it keeps, or the next
    /// place.
    ///
    /// # Errors
    ///
    /// `Phase(13)`, where all of them together may not join those that are there; `Phase(14)`, where there would be too many;
    /// `Memory`, where a growth was refused. Nothing changes then.
    pub fn join(
        &mut self,
        alloc: Global,
        sender: Option<u128>,
        news: Vec<New<'_>>,
    ) -> Result<(), Refusal>
        requires texts { AreTexts news.items }
        requires few { length news.items ≤ most_modules }
        ensures joins { OnOk result (MayFollow sender self.old.modules (published_of news.entry.items)) }
        ensures modules { OnOk result (self.new.modules ≡ with_modules self.old.modules (published_of news.entry.items)) }
        ensures tallied { OnOk result (AddsTallies self.old.modules self.new.modules (all_of self.old.tallies) (all_of self.new.tallies)) }
        ensures held { OnOk result (IsTalliedStore self.new.modules self.new.tallies) }
        ensures marks { self.new.marks ≡ self.old.marks }
        ensures kept { OnErr result (self.new ≡ self.old) }
        ensures refused { IfErr result (IsKeptOut sender self.old.modules (published_of news.entry.items)) }
    {
        let placed = placed(alloc, &self.store, &self.tallies, &news)?;
        let linked = link(&self.store, sender, news)?;
        if is_too_much(&placed, self.store.len()) {
            return Err(Refusal::Phase(14));
        }
        let tallies = &mut self.tallies;
        let blocks = &mut self.blocks;
        tallies.modules.reserve(placed.len())?;
        blocks.prepare(placed.len(), &self.store)?;
        add(&mut self.store, linked)?;
        put_all(&mut tallies.modules, blocks, placed);
        blocks.room = 0;
        Ok(())
    }

    /// Adds what a run did to each tally. While a block is open there has to be room for it, which `make_room` takes.
    pub fn add_run(&mut self, run: &[StructTally])
        requires room { All HasRoomLeft (all_of self.old.tallies) }
        requires few { AtMost (2 ^ 64 - 1) run.now }
        requires notes { CanCount (length run.now) self.old }
        ensures modules { self.new.modules ≡ self.old.modules }
        ensures tallies { self.new.tallies ≡ map (map (tally_after run.now)) self.old.tallies }
        ensures marks { self.new.marks ≡ self.old.marks }
    {
        self.tallies.add_run(run, &mut self.blocks);
        self.blocks.room = 0;
    }
}
