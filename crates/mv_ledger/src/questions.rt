// What a ledger is asked by names and addresses. Each answer takes a search or two and what it tells; no question takes memory, and
// none changes the ledger.
ghost use Rattle.std.specs.Prelude.{◌≡◌, ◌==◌, ◌<◌, ◌^◌, ◌∷◌, [], find, length, option_copied, option_map};
ghost use Rattle.mv_linker.specs.Questions.{texts_of};
ghost use Rattle.mv_link_rules.specs.Link.{tables_in};
ghost use Rattle.mv_ledger_state.specs.Tallying.{AreInOrder};
ghost use Rattle.mv_machine.specs.Tallies.{tallied};
ghost use Rattle.mv_ledger.specs.Formats.{format_of};
ghost use Rattle.mv_ledger.specs.Questions.{entry_of, shows, stored_at, tally_named, words_of, IsPageOf, IsShownPage};

use crate::format::Format;
use crate::{Ledger, Lines, Modules};
use mv_interface::StructName;
use mv_machine::Tally;
use mv_move_types::{Address, Definition, Key};
use mv_storage::{Entries, Page};

// At how many keys a page that is shown looks at most.
const MOST_KEYS: usize = 1 << 62;

/// The key of a struct's value at an address.
fn key_in(address: Address, d: Definition) -> Key
    ensures { result ≡ record { address = address; place = d.place; index = d.index } }
{
    Key {
        address,
        place: d.place,
        index: d.index,
    }
}

/// The tally with an index among those of a module.
fn tally_at(tallies: &[Tally], index: u16) -> Option<Tally>
    requires { AreInOrder tallies.now }
    ensures { result ≡ find (λ t. t.index == index) tallies.now }
{
    match tallies.binary_search_by_key(&index, |tally| tally.index) {
        Ok(found) => Some(tallies[found]),
        Err(_) => None,
    }
}

impl Ledger {
    /// How many runs it had.
    pub fn runs(&self) -> u64
        ensures { result ≡ self.now.runs }
    {
        self.runs
    }

    /// The leaves in order, each as its number, of the value of a struct that is stored at an address; None where there is none.
    pub fn get(&self, address: Address, name: &StructName<'_>) -> Option<&[u128]>
        ensures { option_copied result ≡ words_of self.now address name.now }
    {
        let published = &self.published;
        match published.store.definition(name) {
            Some(d) => self.storage.get(&key_in(address, d)),
            None => None,
        }
    }

    /// The values that are stored at an address, by ascending key, each as its leaves.
    pub fn values_at(&self, address: Address) -> Entries<'_>
        ensures { result ≡ stored_at address self.entry.now.stored }
    {
        self.storage.values_at(address)
    }

    /// What a show would tell, if nothing were stored at other addresses. It comes piece by piece, and each piece is made when it is
    /// asked for.
    pub fn show_at(&self, address: Address, format: Format) -> Lines<'_>
        ensures { result ≡ shows self.entry.now (stored_at address self.entry.now.stored) (format_of format) }
    {
        self.lines_of(self.storage.values_at(address), format)
    }

    /// What a show would tell, if nothing were stored but the value of a struct at an address; None where there is no such value.
    pub fn show_value(
        &self,
        address: Address,
        name: &StructName<'_>,
        format: Format,
    ) -> Option<Lines<'_>>
        ensures { result ≡ option_map (λ e. shows self.entry.now (e ∷ []) (format_of format)) (entry_of self.entry.now address name.now) }
    {
        let published = &self.published;
        let key = key_in(address, published.store.definition(name)?);
        // Where nothing is stored, there are no lines.
        let _words = self.storage.get(&key)?;
        Some(self.lines_of(self.storage.value_at(key), format))
    }

    /// The values of a struct, by ascending address from one on; None where no such struct is published. At most so many keys are looked
    /// at, of whichever structs they are, and `Page::next_address` tells where the next page goes on. The first page is that from
    /// address 0.
    pub fn values_of(&self, name: &StructName<'_>, from: Address, most: usize) -> Option<Page<'_>>
        ensures { IsPageOf self.entry.now name.now from most result }
    {
        let published = &self.published;
        let d = published.store.definition(name)?;
        Some(self.storage.page(d, from, most))
    }

    /// What a show would tell of such a page, if nothing else were stored, and the address from which the next page goes on.
    pub fn show_page(
        &self,
        name: &StructName<'_>,
        from: Address,
        most: usize,
        format: Format,
    ) -> Option<(Lines<'_>, Option<Address>)>
        ensures { IsShownPage self.entry.now name.now from most (format_of format) result }
    {
        let page = self.values_of(name, from, most.min(MOST_KEYS))?;
        let next = page.next_address();
        Some((self.lines_of_page(page, format), next))
    }

    /// The names of the published modules in order of publication.
    pub fn modules(&self) -> Modules<'_>
        ensures { result ≡ self.entry.now.published }
    {
        let published = &self.published;
        Modules {
            store: &published.store,
            place: 0,
        }
    }

    /// The bytes of the module with this address and name, and those of the certificate that it was checked with; None where there
    /// is no such module.
    pub fn module(&self, address: Address, name: &[u8]) -> Option<(&[u8], &[u8])>
        ensures { option_map (λ p. (p.0.now, p.1.now)) result ≡ texts_of self.now.published (record { address = address; name = name.now }) }
    {
        let published = &self.published;
        published.store.module_texts(address, name)
    }

    /// How often values of a struct were made, and taken apart, in the runs that returned; None where no such struct is published,
    /// or where it has copy or drop.
    pub fn tally(&self, name: &StructName<'_>) -> Option<Tally>
        ensures { option_map (tallied (tables_in self.now.published)) result ≡ tally_named self.now.tallies name.now }
    {
        let published = &self.published;
        let d = published.store.definition(name)?;
        let tallies = published.tallies.lists().get(d.place as usize)?;
        tally_at(tallies, d.index)
    }

    /// What a show would tell of the values of a page alone.
    fn lines_of_page<'a>(&'a self, page: Page<'a>, format: Format) -> Lines<'a>
        requires { length page.values < 2 ^ 63 }
        ensures { result ≡ shows self.entry.now page.entry.values (format_of format) }
    {
        let published = &self.published;
        match format {
            Format::Text => Lines::of_page(self.alloc, &published.store, page),
            Format::Json => Lines::json_of_page(self.alloc, &published.store, page),
        }
    }

    /// What a show would tell of these values alone.
    fn lines_of<'a>(&'a self, entries: Entries<'a>, format: Format) -> Lines<'a>
        requires { length entries < 2 ^ 63 }
        ensures { result ≡ shows self.entry.now entries.entry (format_of format) }
    {
        let published = &self.published;
        match format {
            Format::Text => Lines::of_entries(self.alloc, &published.store, entries),
            Format::Json => Lines::json_of_entries(self.alloc, &published.store, entries),
        }
    }
}
