// A ledger as bytes: the runs had, the modules, the tallies, and what is stored, struct by struct.
ghost use Rattle.std.specs.Prelude.{◌≡◌, ◌+◌, ◌*◌, ◌^◌, ◌<◌, ◌≤◌, [], ◌++◌, All, IsTrue, IsSome, List, length, map, option_copied, slice_range, IfOk, IfSome, OnOk};
ghost use Rattle.std.specs.List.{flat_map};
ghost use Rattle.mv_uleb.specs.Uleb.{uleb};
ghost use Rattle.mv_move_types.specs.Module.{Module as Tables};
ghost use Rattle.mv_move_types.specs.Tokens.{width_bits};
ghost use Rattle.mv_module_text.specs.Entries.{address_text, counted, number_text};
ghost use Rattle.mv_machine.specs.Flat.{FlatEntry, storage_of};
ghost use Rattle.mv_machine.specs.Typed.{leaf_fits};
ghost use Rattle.mv_link_rules.specs.Link.{tables_in};
ghost use Rattle.mv_ledger_state.specs.View.{IsFineWords};
ghost use Rattle.mv_saved_text.specs.Layouts.{coded, is_keyed, kinds_under, AreLeaves};
ghost use Rattle.mv_interface.specs.Shapes.{structs_in};
ghost use Rattle.mv_ledger_state.specs.Publishing.{offered};
ghost use Rattle.mv_ledger_state.specs.RecordText.{leaf_bytes, offer_text, sized};
ghost use Rattle.mv_saved_text.specs.SavedText.{head_text, keyed_from, struct_text, Second};
ghost use Rattle.mv_saved_text.specs.Parts.Saving.{counts_text, is_between, is_by, leaf_length, section_at, sections_of, stored_between, struct_under, AddsValue, AreSections, HaveSections, IsEmpty, IsWritable, KnowsKinds, written};
ghost use Rattle.mv_machine.specs.Tallies.{all_of};

use crate::counts::{Counts, stored_counts};
use crate::layouts::Layouts;
use byteorder::{ByteOrder, LittleEndian};
use mv_ledger_state::Tallies;
use mv_linker::Store;
use mv_machine::Tally;
use mv_move_types::{Definition, Key, LeafKind, Width};
use mv_storage::Storage;
use std::alloc::{AllocError, Global};

// How a saved ledger begins: its name, and the digit of its form.
pub const MARK: &[u8] = b"MVL2";

// The bytes of an address.
const ADDRESS_BYTES: usize = 16;

// The most bytes of a count, a number of runs or a length.
pub const COUNT_BYTES: usize = 10;

/// The values that are stored of one struct: how many are expected, how many are there, the kinds of the leaves of each, which
/// are found with the first one, and the text of each after the other.
#[derive(Drop)]
struct Section {
    expected: u128,
    count: u64,
    kinds: Vec<LeafKind>,
    text: Vec<u8>,
}

/// Appends a number of a width.
fn put_number(text: &mut Vec<u8>, width: Width, n: u128) -> Result<(), AllocError>
    requires { n < 2 ^ width_bits width }
    ensures { OnOk result (text.new.items ≡ text.old.items ++ number_text width n) }
{
    match width {
        Width::U8 => {
            text.push(n as u8)?;
            Ok(())
        }
        Width::U16 => {
            let mut bytes = [0; 2];
            LittleEndian::write_u16(&mut bytes, n as u16);
            text.extend_from_slice(&bytes)
        }
        Width::U32 => {
            let mut bytes = [0; 4];
            LittleEndian::write_u32(&mut bytes, n as u32);
            text.extend_from_slice(&bytes)
        }
        Width::U64 => {
            let mut bytes = [0; 8];
            LittleEndian::write_u64(&mut bytes, n as u64);
            text.extend_from_slice(&bytes)
        }
        Width::U128 => {
            let mut bytes = [0; 16];
            LittleEndian::write_u128(&mut bytes, n);
            text.extend_from_slice(&bytes)
        }
    }
}

/// Appends bytes. It isn't inlined: where it is, the bytes of an address are moved one by one.
#[inline(never)]
fn put_bytes(text: &mut Vec<u8>, bytes: &[u8]) -> Result<(), AllocError>
    ensures { OnOk result (text.new.items ≡ text.old.items ++ bytes.now) }
{
    text.extend_from_slice(bytes)
}

/// Appends an address.
pub fn put_address(text: &mut Vec<u8>, address: u128) -> Result<(), AllocError>
    ensures { OnOk result (text.new.items ≡ text.old.items ++ address_text address) }
{
    put_bytes(text, &address.to_be_bytes())
}

/// Appends a leaf of a kind.
fn put_leaf(text: &mut Vec<u8>, kind: LeafKind, n: u128) -> Result<(), AllocError>
    requires { IsTrue (leaf_fits kind n) }
    ensures { OnOk result (text.new.items ≡ text.old.items ++ leaf_bytes kind n) }
{
    match kind {
        LeafKind::Boolean => {
            text.push(n as u8)?;
            Ok(())
        }
        LeafKind::Number(width) => put_number(text, width, n),
        LeafKind::Address => put_address(text, n),
        LeafKind::Signer => Ok(()),
    }
}

/// Appends the leaves of a value, which are of these kinds.
pub fn put_leaves(text: &mut Vec<u8>, kinds: &[LeafKind], words: &[u128]) -> Result<(), AllocError>
    requires { AreLeaves kinds.now words.now }
    ensures { OnOk result (text.new.items ≡ text.old.items ++ coded kinds.now words.now) }
{
    'each: for i in 0..kinds.len() {
        put_leaf(text, kinds[i], words[i])?;
    }
    Ok(())
}

/// How many bytes a leaf of a kind has.
fn leaf_size(kind: LeafKind) -> usize
    ensures { result ≡ leaf_length kind }
{
    match kind {
        LeafKind::Boolean | LeafKind::Number(Width::U8) => 1,
        LeafKind::Number(Width::U16) => 2,
        LeafKind::Number(Width::U32) => 4,
        LeafKind::Number(Width::U64) => 8,
        LeafKind::Number(Width::U128) | LeafKind::Address => 16,
        LeafKind::Signer => 0,
    }
}

/// How many bytes a value with leaves of these kinds has, and its address.
pub fn value_size(kinds: &[LeafKind]) -> usize {
    let mut size = ADDRESS_BYTES;
    for kind in kinds {
        size = size.saturating_add(leaf_size(*kind));
    }
    size
}

/// The kinds of the leaves of the values of a struct that has key.
fn kinds_at(
    alloc: Global,
    layouts: &Layouts<'_>,
    d: Definition,
) -> Result<Vec<LeafKind>, AllocError>
    requires { IsTrue (is_keyed layouts.now d) }
    ensures { IfOk result (λ v. kinds_under layouts.now d ≡ Some v.items) }
{
    match layouts.kinds(alloc, d)? {
        Some(kinds) => Ok(kinds),
        None => unreachable!(),
    }
}

/// Makes the section of a struct ready for a value: before the first one, the kinds of their leaves are found, and room is made
/// for all that are expected.
fn prepare(
    alloc: Global,
    layouts: &Layouts<'_>,
    d: Definition,
    section: &mut Section,
) -> Result<(), AllocError>
    requires keyed { IsTrue (is_keyed layouts.now d) }
    requires known { KnowsKinds layouts.now d section.old }
    ensures kinds { OnOk result (kinds_under layouts.now d ≡ Some section.new.kinds.items) }
    ensures count { section.new.count ≡ section.old.count }
    ensures text { section.new.text.items ≡ section.old.text.items }
{
    if section.count > 0 {
        return Ok(());
    }
    section.kinds = kinds_at(alloc, layouts, d)?;
    let room = section
        .expected
        .saturating_mul(value_size(&section.kinds) as u128);
    section
        .text
        .reserve_exact(usize::try_from(room).unwrap_or(usize::MAX))
}

/// Adds a value to a section that is ready for it.
fn add(section: &mut Section, address: u128, words: &[u128]) -> Result<(), AllocError>
    requires few { section.old.count < 2 ^ 63 }
    requires leaves { AreLeaves section.old.kinds.items words.now }
    ensures count { OnOk result (section.new.count ≡ section.old.count + 1) }
    ensures kinds { OnOk result (section.new.kinds.items ≡ section.old.kinds.items) }
    ensures text { OnOk result (section.new.text.items ≡ section.old.text.items ++ (address_text address ++ coded section.old.kinds.items words.now)) }
{
    section.count += 1;
    put_address(&mut section.text, address)?;
    put_leaves(&mut section.text, &section.kinds, words)
}

/// Adds a value to the section of its struct, which has key.
fn add_to(
    alloc: Global,
    layouts: &Layouts<'_>,
    rows: &mut Vec<Vec<Section>>,
    key: Key,
    words: &[u128],
) -> Result<(), AllocError>
    requires keyed { IsTrue (is_keyed layouts.now (struct_under key)) }
    requires there { IsSome (section_at (sections_of rows.old.items) (struct_under key)) }
    requires known { IfSome (section_at (sections_of rows.old.items) (struct_under key)) (KnowsKinds layouts.now (struct_under key)) }
    requires few { IfSome (section_at (sections_of rows.old.items) (struct_under key)) (λ s. s.count < 2 ^ 63) }
    requires leaves { IfSome (kinds_under layouts.now (struct_under key)) (λ kinds. AreLeaves kinds words.now) }
    ensures { OnOk result (AddsValue layouts.now (sections_of rows.old.items) key words.now (sections_of rows.new.items)) }
{
    let d = Definition {
        place: key.place,
        index: key.index,
    };
    let row = &mut rows[usize::from(d.place)];
    let section = &mut row[usize::from(d.index)];
    prepare(alloc, layouts, d, section)?;
    add(section, key.address, words)
}

/// Empty sections for the structs of the module at a place.
fn empty_row(
    alloc: Global,
    layouts: &Layouts<'_>,
    place: usize,
    counts: &[u128],
) -> Result<Vec<Section>, AllocError>
    ensures structs { IfOk result (λ v. length v.items ≡ structs_in layouts.now place) }
    ensures empty { IfOk result (λ v. All IsEmpty v.items) }
{
    let structs = layouts.structs(place);
    let mut row = Vec::with_capacity(alloc, structs)?;
    'each: for index in 0..structs {
        row.push(Section {
            expected: counts.get(index).copied().unwrap_or(0),
            count: 0,
            kinds: Vec::new(alloc),
            text: Vec::new(alloc),
        })?;
    }
    Ok(row)
}

/// Empty sections for the structs of each module, of which so many values are stored.
fn empty_rows(
    alloc: Global,
    layouts: &Layouts<'_>,
    counts: &Counts,
) -> Result<Vec<Vec<Section>>, AllocError>
    ensures { IfOk result (λ v. AreSections layouts.now [] (sections_of v.items)) }
{
    let mut rows = Vec::with_capacity(alloc, layouts.len())?;
    'each: for place in 0..layouts.len() {
        rows.push(empty_row(alloc, layouts, place, counts.of_module(place))?)?;
    }
    Ok(rows)
}

/// A struct as a number: by the place of its module, then by its index.
fn number_of(d: Definition) -> u32
    ensures { result ≡ d.place * 65536 + d.index }
{
    u32::from(d.place) * 65_536 + u32::from(d.index)
}

/// Whether a struct stands where another does or before it, by the place of its module and its index.
fn is_by(d: Definition, e: Definition) -> bool
    ensures { result ≡ is_by d e }
{
    number_of(d) <= number_of(e)
}

/// Whether a struct stands between two others, or where one of them does.
fn is_between(first: Definition, last: Definition, d: Definition) -> bool
    ensures { result ≡ is_between first last d }
{
    is_by(first, d) && is_by(d, last)
}

/// What is stored of the structs from one to another, struct by struct.
fn sections_between(
    alloc: Global,
    layouts: &Layouts<'_>,
    storage: &Storage,
    counts: &Counts,
    first: Definition,
    last: Definition,
) -> Result<Vec<Vec<Section>>, AllocError>
    requires { All (IsFineWords layouts.now) storage.now.committed }
    ensures { IfOk result (λ v. AreSections layouts.now (stored_between first last storage.now.committed) (sections_of v.items)) }
{
    // For the prover: the modules are a store's, so each stored value has the leaves that its struct says.
    let _modules = layouts.len();
    let mut rows = empty_rows(alloc, layouts, counts)?;
    let mut entries = storage.iter();
    'each: while let Some((key, words)) = entries.next() {
        let d = Definition {
            place: key.place,
            index: key.index,
        };
        if !is_between(first, last, d) {
            continue;
        }
        add_to(alloc, layouts, &mut rows, key, words)?;
    }
    Ok(rows)
}

/// What is stored of the structs with key from one on, up to another, struct by struct.
fn sections_in(
    alloc: Global,
    layouts: &Layouts<'_>,
    storage: &Storage,
    counts: &Counts,
    i: usize,
    j: usize,
) -> Result<Vec<Vec<Section>>, AllocError>
    requires fine { All (IsFineWords layouts.now) storage.now.committed }
    requires within { j ≤ length (keyed_from 0 layouts.now) }
    ensures { IfOk result (λ v. HaveSections layouts.now storage.now.committed (sections_of v.items) (slice_range (keyed_from 0 layouts.now) i j)) }
{
    if i >= j {
        return Ok(Vec::new(alloc));
    }
    let keyed = layouts.keyed();
    sections_between(alloc, layouts, storage, counts, keyed[i], keyed[j - 1])
}

/// The section of a struct.
fn section_of(rows: &[Vec<Section>], d: Definition) -> Option<&Section>
    ensures { option_copied result ≡ section_at (sections_of rows.now) d }
{
    let row = rows.get(usize::from(d.place))?;
    row.get(usize::from(d.index))
}

/// Appends a section: how many values there are, and their text.
fn put_section(text: &mut Vec<u8>, section: &Section) -> Result<(), AllocError>
    ensures { OnOk result (text.new.items ≡ text.old.items ++ (uleb section.now.count ++ section.now.text.items)) }
{
    mv_uleb::write(section.count, text)?;
    text.extend_from_slice(&section.text)
}

/// Appends the sections of structs.
fn put_sections(
    text: &mut Vec<u8>,
    structs: &[Definition],
    rows: &[Vec<Section>],
) -> Result<(), AllocError>
    ensures { OnOk result ((modules : List Tables) (entries : List FlatEntry) → HaveSections modules entries (sections_of rows.now) structs.now
        → text.new.items ≡ text.old.items ++ flat_map (struct_text (storage_of modules entries)) structs.now) }
{
    'each: for d in structs {
        if let Some(section) = section_of(rows, *d) {
            put_section(text, section)?;
        }
    }
    Ok(())
}

/// The values of the structs with key from one on, up to another: of each their number, and then the values. It goes over all that is
/// stored once, and needs memory for what it gives twice, and for a section of each struct of the modules.
///
/// # Errors
///
/// If an allocation failed.
pub fn structs_text(
    alloc: Global,
    layouts: &Layouts<'_>,
    storage: &Storage,
    counts: &Counts,
    i: usize,
    j: usize,
) -> Result<Vec<u8>, AllocError>
    requires fine { All (IsFineWords layouts.now) storage.now.committed }
    requires order { i ≤ j }
    requires within { j ≤ length (keyed_from 0 layouts.now) }
    ensures { IfOk result (λ text. text.items ≡ flat_map (struct_text (storage_of layouts.now storage.now.committed)) (slice_range (keyed_from 0 layouts.now) i j)) }
{
    let rows = sections_in(alloc, layouts, storage, counts, i, j)?;
    let mut text = Vec::new(alloc);
    put_sections(&mut text, &layouts.keyed()[i..j], &rows)?;
    Ok(text)
}

/// Appends bytes after their number.
pub fn put_sized(text: &mut Vec<u8>, bytes: &[u8]) -> Result<(), AllocError>
    ensures { OnOk result (text.new.items ≡ text.old.items ++ sized bytes.now) }
{
    mv_uleb::write(bytes.len() as u64, text)?;
    text.extend_from_slice(bytes)
}

/// Appends the modules with their certificates, after their number.
fn put_modules(text: &mut Vec<u8>, store: &Store) -> Result<(), AllocError>
    ensures { OnOk result (text.new.items ≡ text.old.items ++ counted offer_text (map offered store.now)) }
{
    mv_uleb::write(store.len() as u64, text)?;
    'each: for place in 0..store.len() {
        let (module, certificate) = store.texts(place);
        put_sized(text, module)?;
        put_sized(text, certificate)?;
    }
    Ok(())
}

/// Appends how a saved ledger begins: its form, the runs had and the modules.
fn put_head(text: &mut Vec<u8>, runs: u64, store: &Store) -> Result<(), AllocError>
    ensures { OnOk result (text.new.items ≡ text.old.items ++ head_text Second runs (map offered store.now)) }
{
    text.extend_from_slice(MARK)?;
    mv_uleb::write(runs, text)?;
    put_modules(text, store)
}

/// Appends what was made and what was taken apart of a struct.
fn put_tally(text: &mut Vec<u8>, tally: &Tally) -> Result<(), AllocError>
    requires packs { tally.now.packs < 2 ^ 64 }
    requires unpacks { tally.now.unpacks < 2 ^ 64 }
    ensures { OnOk result (text.new.items ≡ text.old.items ++ (uleb tally.now.packs ++ uleb tally.now.unpacks)) }
{
    mv_uleb::write(tally.packs as u64, text)?;
    mv_uleb::write(tally.unpacks as u64, text)
}

/// Appends those of a module's structs.
fn put_tallies_of(text: &mut Vec<u8>, tallies: &[Tally]) -> Result<(), AllocError>
    requires { All IsWritable tallies.now }
    ensures { OnOk result (text.new.items ≡ text.old.items ++ counts_text tallies.now) }
{
    'each: for tally in tallies {
        put_tally(text, tally)?;
    }
    Ok(())
}

/// Appends those of all structs, module by module.
pub fn put_tallies(text: &mut Vec<u8>, tallies: &Tallies) -> Result<(), AllocError>
    requires { All IsWritable (all_of tallies.now) }
    ensures { OnOk result (text.new.items ≡ text.old.items ++ counts_text (all_of tallies.now)) }
{
    'each: for place in 0..tallies.len() {
        put_tallies_of(text, tallies.at(place))?;
    }
    Ok(())
}

/// How many bytes a saved ledger has at most.
fn room_for(store: &Store, tallies: &Tallies, rows: &[Vec<Section>]) -> usize {
    let mut room = MARK.len() + 2 * COUNT_BYTES;
    for place in 0..store.len() {
        let (module, certificate) = store.texts(place);
        let counts = tallies.at(place).len().saturating_mul(2 * COUNT_BYTES);
        room = room
            .saturating_add(2 * COUNT_BYTES)
            .saturating_add(module.len())
            .saturating_add(certificate.len())
            .saturating_add(counts);
    }
    for row in rows {
        for section in row {
            room = room
                .saturating_add(COUNT_BYTES)
                .saturating_add(section.text.len());
        }
    }
    room
}

/// The text of a ledger with these parts, in the second form.
///
/// # Errors
///
/// If an allocation failed.
pub fn text_of(
    alloc: Global,
    store: &Store,
    storage: &Storage,
    tallies: &Tallies,
    runs: u64,
) -> Result<Vec<u8>, AllocError>
    requires few { length store.now ≤ 65536 }
    requires fine { All (IsFineWords (tables_in store.now)) storage.now.committed }
    requires writable { All IsWritable (all_of tallies.now) }
    ensures { IfOk result (λ v. v.items ≡ written runs store.now storage.now.committed (all_of tallies.now)) }
{
    let layouts = Layouts::new(alloc, store)?;
    let counts = stored_counts(alloc, &layouts, storage)?;
    let keyed = layouts.keyed();
    let rows = sections_in(alloc, &layouts, storage, &counts, 0, keyed.len())?;
    let mut text = Vec::with_capacity(alloc, room_for(store, tallies, &rows))?;
    put_head(&mut text, runs, store)?;
    put_tallies(&mut text, tallies)?;
    put_sections(&mut text, keyed, &rows)?;
    Ok(text)
}
