// The module store. Its readers are in stored.rt.
ghost use Rattle.std.specs.Prelude.{◌≡◌, ◌≤◌, [], length, IfOk};
ghost use Rattle.mv_move_types.specs.Named.{module_place};
ghost use Rattle.mv_link_rules.specs.Link.{IsStore, tables_in};

pub mod adding;
pub mod code;
pub mod dependencies;
pub mod entry;
mod exports;
pub mod indexed;
mod questions;
mod stored;

use adding::put_modules;
use code::{Code, codes_copied};
use entry::{Name, Texts, asked_for, entries_copied};
use indexmap::IndexMap;
use mv_move_types::Address;
use std::alloc::{AllocError, Global};
use std::marker::Model;

/// The published modules by their names, in order of publication, with their linked code. Its model is their list, with their texts.
#[derive(Drop)]
pub struct Store {
    pub(crate) modules: IndexMap<Name<'static>, Texts>,
    pub(crate) codes: Vec<Code>,
}

impl Model for Store {
    ghost use Rattle.std.specs.Prelude.{◌≤◌, List, length};
    ghost use Rattle.mv_move_types.specs.Published.{PublishedModule};
    ghost use Rattle.mv_linker.specs.Kept.{AreKeyed, published_under};
    ghost use Rattle.mv_link_rules.specs.Link.{IsStore, tables_in};
    ghost use Rattle.mv_linker.specs.Stored.{AreCodesOf};

    ghost Value = { List PublishedModule };

    ghost view = { λ s. published_under s.modules.entries };

    ghost invariant = { λ s. IsStore (published_under s.modules.entries) × AreKeyed s.modules.entries
        × AreCodesOf (tables_in (published_under s.modules.entries)) s.codes.items
        × length (published_under s.modules.entries) ≤ 65536 };
}

impl Store {
    /// A store without modules.
    pub fn new(alloc: Global) -> Self
        ensures { result ≡ [] }
    {
        Store {
            modules: IndexMap::new(alloc),
            codes: Vec::new(alloc),
        }
    }

    /// How many modules it has: at most 65,536, since code names a module by a place of 16 bits.
    pub fn len(&self) -> usize
        ensures count { result ≡ length self.now }
        ensures few { length self.now ≤ 65536 }
        ensures store { IsStore self.now }
    {
        self.modules.len()
    }

    /// The place of the module with this address and name in the order of publication.
    pub fn find(&self, address: Address, name: &[u8]) -> Option<usize>
        ensures { result ≡ module_place (tables_in self.now) (record { address = address; name = name.now }) }
    {
        self.modules.get_index_of(&asked_for(address, name))
    }

    /// The same store in memory of its own. What that takes is the whole store's size.
    ///
    /// # Errors
    ///
    /// If an allocation failed.
    pub fn copied(&self) -> Result<Store, AllocError>
        ensures { IfOk result (λ s. s ≡ self.now) }
    {
        let alloc = self.allocator();
        let entries = entries_copied(alloc, &self.modules)?;
        let codes = codes_copied(alloc, &self.codes)?;
        let mut modules: IndexMap<Name<'static>, Texts> = IndexMap::with_capacity(
            alloc,
            entries.len(),
        )?;
        put_modules(&mut modules, entries);
        Ok(Store { modules, codes })
    }

    // What it allocates with.
    pub(crate) fn allocator(&self) -> Global
        ensures { IsStore self.now }
    {
        *self.modules.allocator()
    }
}
