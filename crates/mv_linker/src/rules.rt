// The rules of phase 13: a and b are here, h is in upgrades.rt, and c to g, over the whole store, are in store_rules.rt.
ghost use Rattle.std.specs.Prelude.{◌≡◌, ◌↔◌, ◌+◌, ◌≤◌, All, length, IsTrue, IfOk, IfErr, OnOk};
ghost use Rattle.std.specs.List.{list_all};
ghost use Rattle.mv_move_types.specs.Published.{with_modules};
ghost use Rattle.mv_move_types.specs.Refusals.{IsRefusedIn};
ghost use Rattle.mv_bound_rules.specs.Definitions.{all_differ};
ghost use Rattle.mv_link_rules.specs.Link.{MayJoin, AreSentBy, IsPublishable, tables_in, have_one_name, is_sent_by};
ghost use Rattle.mv_linker.specs.Kept.{Kept, published_in};
ghost use Rattle.mv_linker.specs.News.{published_of};
ghost use Rattle.mv_linker.specs.Stored.{AreLowered};

mod acyclic;
mod named_functions;
pub mod named_modules;
mod named_structs;
mod pushed;
pub mod scope;
mod searching;
pub mod sizes;
mod small_structs;
pub mod store_rules;
mod upgrades;

use crate::lowering::to_link::Lowered;
use crate::rules::scope::Scope;
use crate::store::entry::Entry;
use crate::store::indexed::put_name;
use crate::{New, Store};
use indexmap::IndexMap;
use mv_move_types::{Address, Refusal};
use std::alloc::{AllocError, Global};

/// Tries all the rules for a bundle, and links it.
pub fn may_join(
    alloc: Global,
    s: &Store,
    sender: Option<Address>,
    added: &[Entry],
    new: &[New<'_>],
) -> Result<Vec<Lowered>, Refusal>
    requires same { published_in added.now ≡ published_of new.now }
    requires few { length s.now + length new.now ≤ 65536 }
    requires passed { All IsPublishable (published_of new.now) }
    ensures ok { OnOk result (MayJoin sender (tables_in s.now) (tables_in (published_of new.now)) (tables_in (with_modules s.now (published_of new.now)))) }
    ensures lowered { IfOk result (λ v. AreLowered (tables_in s.now) (tables_in (published_of new.now)) (tables_in (with_modules s.now (published_of new.now))) v.items) }
    ensures refused { IfErr result (IsRefusedIn 13 (MayJoin sender (tables_in s.now) (tables_in (published_of new.now)) (tables_in (with_modules s.now (published_of new.now))))) }
{
    if !are_sent_by(sender, added) {
        return Err(Refusal::Phase(13));
    }
    let differ = names_differ(alloc, added)?;
    if !differ {
        return Err(Refusal::Phase(13));
    }
    let scope = Scope::of(alloc, s, new)?;
    scope.joins(alloc)
}

/// Whether the modules are the sender's, where one is given.
fn are_sent_by(sender: Option<Address>, added: &[Entry]) -> bool
    ensures { IsTrue result ↔ AreSentBy sender (tables_in (published_in added.now)) }
{
    match sender {
        None => true,
        Some(address) => all_sent(address, added),
    }
}

/// Whether all the modules are the sender's.
fn all_sent(sender: Address, added: &[Entry]) -> bool
    ensures { result ≡ list_all (λ (k : Kept). is_sent_by sender k.published.tables) added.now }
{
    added.iter().all(|e| is_sent(sender, e))
}

/// Whether no two modules have one name.
fn names_differ(alloc: Global, added: &[Entry]) -> Result<bool, AllocError>
    ensures { IfOk result (λ b. b ≡ all_differ have_one_name (tables_in (published_in added.now))) }
{
    match added {
        [_] => Ok(true),
        _ => are_distinct(alloc, added),
    }
}

/// Whether a module's address is the sender's.
fn is_sent(sender: Address, e: &Entry) -> bool
    ensures { result ≡ is_sent_by sender e.now.published.tables }
{
    // For the prover: the module has a name.
    let _name = e.name();
    e.address() == sender
}

/// Whether no two modules have one name.
fn are_distinct(alloc: Global, added: &[Entry]) -> Result<bool, AllocError>
    ensures { IfOk result (λ b. b ≡ all_differ (λ (j k : Kept). have_one_name j.published.tables k.published.tables) added.now) }
{
    let mut names = IndexMap::new(alloc);
    let mut differ = true;
    for i in 0..added.len() {
        let is_new = put_name(&mut names, added[i].key())?;
        differ = differ && is_new;
    }
    Ok(differ)
}
