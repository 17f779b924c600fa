// The steps of a save: each makes the next bytes of a ledger's text.
ghost use Rattle.std.specs.Prelude.{◌≡◌, ◌+◌, ◌<◌, ◌≤◌, ◌++◌, [], false, true, map, All, length, IfOk, IfSome};
ghost use Rattle.std.specs.Option.{option_map_or};
ghost use Rattle.mv_machine.specs.Flat.{storage_of};
ghost use Rattle.mv_machine.specs.Ledger.{LedgerState, modules_of};
ghost use Rattle.mv_machine.specs.Tallies.{all_of, tallied};
ghost use Rattle.mv_link_rules.specs.Link.{tables_in};
ghost use Rattle.mv_storage.specs.Pages.{is_own, values_from};
ghost use Rattle.mv_saved_text.specs.Flowing.{values_text};
ghost use Rattle.mv_saved_text.specs.Layouts.{AreLeaves};
ghost use Rattle.mv_saved_text.specs.SavedText.{keyed_from};
ghost use Rattle.mv_ledger_state.specs.View.{state_of, view_of, IsFineWords};
ghost use Rattle.mv_saved_text.specs.Parts.CountRows.{AreStored};
ghost use Rattle.mv_saved_text.specs.Parts.Saving.{IsWritable};
ghost use Rattle.mv_saved_text.specs.Parts.Steps.{is_end, values_coded, Comes, IsStored};
ghost use Rattle.mv_saved_text.specs.declared.position.Position.TheVariants.{Head, Modules, Counts, Sections, Values};

use crate::counts::{Counts as StoredCounts, stored_counts};
use crate::layouts::Layouts;
use crate::position::Position;
use crate::saving::{
    COUNT_BYTES, MARK, put_address, put_leaves, put_sized, put_tallies, structs_text, value_size,
};
use mv_ledger_state::Tallies;
use mv_linker::Store;
use mv_move_types::{Address, Definition, LeafKind};
use mv_storage::{Page, Storage};
use std::alloc::{AllocError, Global};

// So many bytes of values are made at once, unless one value has more: of one struct, or of several.
const PAGE_BYTES: usize = 65_536;

/// The next bytes of a save, and from where on the others are to be written.
#[derive(Drop)]
pub struct Step {
    pub text: Vec<u8>,
    pub next: Position,
}

/// The text of a page of a struct's values, and the address from which the next page goes on, if there may be more.
#[derive(Drop)]
struct PageText {
    text: Vec<u8>,
    next: Option<Address>,
}

/// How a saved ledger begins: its form, the runs had and the number of modules.
fn head(alloc: Global, store: &Store, runs: u64) -> Result<Step, AllocError>
    ensures { IfOk result (λ step. (s : LedgerState) → s.published ≡ store.now → s.runs ≡ runs → Comes s Head step.text.items step.next) }
{
    let mut text = Vec::new(alloc);
    text.extend_from_slice(MARK)?;
    mv_uleb::write(runs, &mut text)?;
    mv_uleb::write(store.len() as u64, &mut text)?;
    Ok(Step {
        text,
        next: Position::Modules(0),
    })
}

/// The module at a place, with its certificate.
fn module_text(alloc: Global, store: &Store, place: usize) -> Result<Vec<u8>, AllocError>
    requires { place < length store.now }
    ensures { IfOk result (λ text. (s : LedgerState) → s.published ≡ store.now → Comes s (Modules place) text.items (Modules (place + 1))) }
{
    let (module, certificate) = store.texts(place);
    let mut text = Vec::new(alloc);
    put_sized(&mut text, module)?;
    put_sized(&mut text, certificate)?;
    Ok(text)
}

/// The module at a place, if there is one.
fn module(alloc: Global, store: &Store, place: usize) -> Result<Step, AllocError>
    ensures { IfOk result (λ step. (s : LedgerState) → s.published ≡ store.now → Comes s (Modules place) step.text.items step.next) }
{
    if place >= store.len() {
        return Ok(Step {
            text: Vec::new(alloc),
            next: Position::Counts,
        });
    }
    let text = module_text(alloc, store, place)?;
    Ok(Step {
        text,
        next: Position::Modules(place + 1),
    })
}

/// The tallies.
fn tallies_of(alloc: Global, tallies: &Tallies) -> Result<Step, AllocError>
    requires { All IsWritable (all_of tallies.now) }
    ensures { IfOk result (λ step. (s : LedgerState) → s.tallies ≡ map (tallied (modules_of s)) (all_of tallies.now) → Comes s Counts step.text.items step.next) }
{
    let mut text = Vec::new(alloc);
    put_tallies(&mut text, tallies)?;
    Ok(Step {
        text,
        next: Position::Sections(0),
    })
}

/// How many values are stored of each struct with key from one on, up to the first one that has values.
fn counts_from(
    alloc: Global,
    layouts: &Layouts<'_>,
    counts: &StoredCounts,
    storage: &Storage,
    i: usize,
) -> Result<Step, AllocError>
    requires { AreStored layouts.now storage.now.committed counts.now }
    ensures { IfOk result (λ step. (s : LedgerState) → IsStored layouts.now storage.now.committed s → Comes s (Sections i) step.text.items step.next) }
{
    // For the prover: the modules are a store's, and fewer than 2^63 values are stored.
    let _modules = layouts.len();
    let _entries = storage.iter();
    let keyed = layouts.keyed();
    let mut text = Vec::new(alloc);
    'each: for at in i..keyed.len() {
        let count = counts.at(keyed[at]) as u64;
        mv_uleb::write(count, &mut text)?;
        if count > 0 {
            return Ok(Step {
                text,
                next: Position::Values(at, 0),
            });
        }
    }
    Ok(Step {
        text,
        next: Position::End,
    })
}

/// How many bytes the text of a struct has at most, of which so many values are stored.
fn text_size(
    alloc: Global,
    layouts: &Layouts<'_>,
    d: Definition,
    count: u128,
) -> Result<usize, AllocError> {
    if count == 0 {
        return Ok(1);
    }
    let Some(kinds) = layouts.kinds(alloc, d)? else {
        return Ok(COUNT_BYTES);
    };
    let values = count.saturating_mul(value_size(&kinds) as u128);
    let values = usize::try_from(values).unwrap_or(usize::MAX);
    Ok(values.saturating_add(COUNT_BYTES))
}

/// Up to which struct with key, from one on, the texts of all together fit into a page. It looks at none after the first that
/// doesn't.
fn batch_end(
    alloc: Global,
    layouts: &Layouts<'_>,
    counts: &StoredCounts,
    i: usize,
) -> Result<usize, AllocError>
    ensures { IfOk result (λ end. end ≤ length (keyed_from 0 layouts.now)) }
{
    let keyed = layouts.keyed();
    let mut room = PAGE_BYTES;
    'fits: for at in i..keyed.len() {
        let size = text_size(alloc, layouts, keyed[at], counts.at(keyed[at]))?;
        if size > room {
            return Ok(at);
        }
        room -= size;
    }
    Ok(keyed.len())
}

/// The values of the structs with key from one on, up to another: of each their number, and then the values.
fn batch(
    alloc: Global,
    layouts: &Layouts<'_>,
    storage: &Storage,
    counts: &StoredCounts,
    i: usize,
    end: usize,
) -> Result<Step, AllocError>
    requires fine { All (IsFineWords layouts.now) storage.now.committed }
    requires some { i < end }
    requires within { end ≤ length (keyed_from 0 layouts.now) }
    ensures { IfOk result (λ step. (s : LedgerState) → IsStored layouts.now storage.now.committed s → Comes s (Sections i) step.text.items step.next) }
{
    let text = structs_text(alloc, layouts, storage, counts, i, end)?;
    if end >= layouts.keyed().len() {
        return Ok(Step {
            text,
            next: Position::End,
        });
    }
    Ok(Step {
        text,
        next: Position::Sections(end),
    })
}

/// The values of the structs with key from one on that fit into a page together; or, where those of the first don't, how many they
/// are.
fn sections(
    alloc: Global,
    layouts: &Layouts<'_>,
    storage: &Storage,
    i: usize,
) -> Result<Step, AllocError>
    requires { All (IsFineWords layouts.now) storage.now.committed }
    ensures { IfOk result (λ step. (s : LedgerState) → IsStored layouts.now storage.now.committed s → Comes s (Sections i) step.text.items step.next) }
{
    let counts = stored_counts(alloc, layouts, storage)?;
    let end = batch_end(alloc, layouts, &counts, i)?;
    if i < end {
        return batch(alloc, layouts, storage, &counts, i, end);
    }
    let step = counts_from(alloc, layouts, &counts, storage, i)?;
    Ok(step)
}

/// The values of a page, with leaves of these kinds, each after its address.
fn page_text(alloc: Global, kinds: &[LeafKind], mut page: Page<'_>) -> Result<Vec<u8>, AllocError>
    requires { All (λ e. AreLeaves kinds.now e.words) page.values }
    ensures { IfOk result (λ text. text.items ≡ values_coded kinds.now page.entry.values) }
{
    let mut text = Vec::new(alloc);
    'each: while let Some((key, words)) = page.next() {
        put_address(&mut text, key.address)?;
        put_leaves(&mut text, kinds, words)?;
    }
    Ok(text)
}

/// A page of the values of a struct at addresses from one on, if they have leaves of these kinds.
fn page_with(
    alloc: Global,
    kinds: &[LeafKind],
    storage: &Storage,
    d: Definition,
    from: Address,
) -> Result<PageText, AllocError>
    requires { All (λ e. is_own d e.key ≡ true → AreLeaves kinds.now e.words) storage.now.committed }
    ensures text { IfOk result (λ page. page.text.items ++ option_map_or (λ next. values_coded kinds.now (values_from storage.now.committed d next)) page.next []
        ≡ values_coded kinds.now (values_from storage.now.committed d from)) }
    ensures next { IfOk result (λ page. IfSome page.next (λ next. from < next)) }
{
    let most = (PAGE_BYTES / value_size(kinds).max(1)).max(1);
    let page = storage.page(d, from, most);
    let next = page.next_address();
    let text = page_text(alloc, kinds, page)?;
    Ok(PageText { text, next })
}

/// A page of the values of a struct at addresses from one on.
fn page(
    alloc: Global,
    layouts: &Layouts<'_>,
    storage: &Storage,
    d: Definition,
    from: Address,
) -> Result<PageText, AllocError>
    requires { All (IsFineWords layouts.now) storage.now.committed }
    ensures text { IfOk result (λ page. values_text (storage_of layouts.now storage.now.committed) d from
        ≡ page.text.items ++ option_map_or (values_text (storage_of layouts.now storage.now.committed) d) page.next []) }
    ensures next { IfOk result (λ page. IfSome page.next (λ next. from < next)) }
{
    // For the prover: the modules are a store's, so each stored value has the leaves that its struct says.
    let _modules = layouts.len();
    let Some(kinds) = layouts.kinds(alloc, d)? else {
        return Ok(PageText {
            text: Vec::new(alloc),
            next: None,
        });
    };
    page_with(alloc, &kinds, storage, d, from)
}

/// The values of a struct with key at addresses from one on, so many as a page has.
fn values(
    alloc: Global,
    layouts: &Layouts<'_>,
    storage: &Storage,
    i: usize,
    from: Address,
) -> Result<Step, AllocError>
    requires { All (IsFineWords layouts.now) storage.now.committed }
    ensures { IfOk result (λ step. (s : LedgerState) → IsStored layouts.now storage.now.committed s → Comes s (Values i from) step.text.items step.next) }
{
    let keyed = layouts.keyed();
    if i >= keyed.len() {
        return Ok(Step {
            text: Vec::new(alloc),
            next: Position::End,
        });
    }
    let PageText { text, next } = page(alloc, layouts, storage, keyed[i], from)?;
    match next {
        Some(next) => Ok(Step {
            text,
            next: Position::Values(i, next),
        }),
        None => Ok(Step {
            text,
            next: Position::Sections(i + 1),
        }),
    }
}

/// As `sections`, of a store's structs.
fn sections_of(
    alloc: Global,
    store: &Store,
    storage: &Storage,
    i: usize,
) -> Result<Step, AllocError>
    requires few { length store.now ≤ 65536 }
    requires fine { All (IsFineWords (tables_in store.now)) storage.now.committed }
    ensures { IfOk result (λ step. (s : LedgerState) → IsStored (tables_in store.now) storage.now.committed s → Comes s (Sections i) step.text.items step.next) }
{
    let layouts = Layouts::new(alloc, store)?;
    let step = sections(alloc, &layouts, storage, i)?;
    Ok(step)
}

/// As `values`, of a store's structs.
fn values_of(
    alloc: Global,
    store: &Store,
    storage: &Storage,
    i: usize,
    from: Address,
) -> Result<Step, AllocError>
    requires few { length store.now ≤ 65536 }
    requires fine { All (IsFineWords (tables_in store.now)) storage.now.committed }
    ensures { IfOk result (λ step. (s : LedgerState) → IsStored (tables_in store.now) storage.now.committed s → Comes s (Values i from) step.text.items step.next) }
{
    let layouts = Layouts::new(alloc, store)?;
    let step = values(alloc, &layouts, storage, i, from)?;
    Ok(step)
}

/// The next bytes of the text of a ledger with these parts, from a position on. It takes memory for a few times those; for the structs of
/// the modules, at most some 110 bytes for each; and for one value.
///
/// # Errors
///
/// If an allocation failed.
pub fn step_at(
    alloc: Global,
    position: Position,
    store: &Store,
    storage: &Storage,
    tallies: &Tallies,
    runs: u64,
) -> Result<Step, AllocError>
    requires few { length store.now ≤ 65536 }
    requires fine { All (IsFineWords (tables_in store.now)) storage.now.committed }
    requires writable { All IsWritable (all_of tallies.now) }
    requires on { is_end position ≡ false }
    ensures { IfOk result (λ step. Comes (state_of (view_of store.now storage.now.committed (all_of tallies.now) runs)) position step.text.items step.next) }
{
    match position {
        Position::Head => head(alloc, store, runs),
        Position::Modules(place) => module(alloc, store, place),
        Position::Counts => tallies_of(alloc, tallies),
        Position::Sections(i) => sections_of(alloc, store, storage, i),
        Position::Values(i, from) => values_of(alloc, store, storage, i, from),
        Position::End => unreachable!(),
    }
}
