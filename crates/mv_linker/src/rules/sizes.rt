// The sizes of structs: how many leaf values each has, and how deep it nests.
ghost use Rattle.std.specs.Prelude.{◌≡◌, ◌≤◌, ◌==◌, List, [], length, map, is_some, false, IfOk, IfErr, MatchOption};
ghost use Rattle.std.specs.List.{list_all};
ghost use Rattle.mv_move_types.specs.Module.{Module as Tables};
ghost use Rattle.mv_move_types.specs.Refusals.{IsRefusedIn};
ghost use Rattle.mv_linker.specs.Scope.{offered};
ghost use Rattle.mv_linker.specs.Sizes.{AreDefined, AreSizes, AreSmall, greater, size_at, size_of_token, size_of_struct, row_of, next_rows, AreFinalRows};

use crate::New;
use mv_binary_format::Module;
use mv_move_types::limits::{MOST_LEAVES, MOST_NESTING};
use mv_move_types::{Field, Refusal, Token, ValueType};
use std::alloc::{AllocError, Global};

/// A struct's size.
#[derive(Clone, Copy)]
pub struct Size {
    /// The leaf values of its fields, those of the structs in them included.
    pub leaves: u16,
    /// 1 for a struct with no struct field, else one more than the deepest of its fields.
    pub nesting: u8,
}

/// Where the struct that a handle names is defined.
#[derive(Clone, Copy)]
pub enum Defined {
    /// In a published module; its size is known.
    Published(Size),
    /// In a module of the bundle: its place there, and the definition's index.
    Bundled(usize, usize),
}

/// What the rows say of a struct.
fn size_at(rows: &[Vec<Option<Size>>], defined: Defined) -> Option<Size>
    ensures { result ≡ size_at (map (λ r. r.items) rows.now) defined }
{
    match defined {
        Defined::Published(size) => Some(size),
        Defined::Bundled(place, index) => {
            let row = rows.get(place)?;
            row.get(index).copied().unwrap_or(None)
        }
    }
}

/// The size of a field's type.
fn size_of_token(rows: &[Vec<Option<Size>>], defined: &[Defined], token: Token) -> Option<Size>
    ensures { result ≡ size_of_token (map (λ r. r.items) rows.now) defined.now token }
{
    match token {
        Token::Plain(ValueType::OfLeaf(_)) => Some(Size {
            leaves: 1,
            nesting: 0,
        }),
        Token::Plain(ValueType::OfStruct(handle)) => {
            let at = defined.get(usize::from(handle))?;
            size_at(rows, *at)
        }
        _ => None,
    }
}

/// The greater number.
fn greater(a: u8, b: u8) -> u8
    ensures { result ≡ greater a b }
{
    if a <= b { b } else { a }
}

/// The size of a struct with these fields, if those of the fields are known and it is small.
fn size_of_struct(rows: &[Vec<Option<Size>>], defined: &[Defined], fields: &[Field]) -> Option<Size>
    ensures { result ≡ size_of_struct (map (λ r. r.items) rows.now) defined.now fields.now }
{
    let mut leaves: u32 = 0;
    let mut deepest: u8 = 0;
    for f in fields {
        let size = size_of_token(rows, defined, f.token)?;
        leaves += u32::from(size.leaves);
        if leaves > MOST_LEAVES {
            return None;
        }
        deepest = greater(deepest, size.nesting);
    }
    if deepest < MOST_NESTING {
        Some(Size {
            leaves: leaves as u16,
            nesting: deepest + 1,
        })
    } else {
        None
    }
}

/// The sizes of a module's structs.
fn row_of(
    alloc: Global,
    rows: &[Vec<Option<Size>>],
    m: &Module<'_>,
    defined: &[Defined],
) -> Result<Vec<Option<Size>>, AllocError>
    ensures { IfOk result (λ v. v.items ≡ row_of (map (λ r. r.items) rows.now) m.now defined.now) }
{
    let mut row = Vec::new(alloc);
    for d in m.structs() {
        row.push(size_of_struct(rows, defined, d.fields()))?;
    }
    Ok(row)
}

/// The sizes of the bundle's structs, by those that were known before.
fn next_rows(
    alloc: Global,
    rows: &[Vec<Option<Size>>],
    bundle: &[New<'_>],
    defined: &[Vec<Defined>],
) -> Result<Vec<Vec<Option<Size>>>, AllocError>
    requires { length bundle.now ≤ length defined.now }
    ensures { IfOk result (λ v. map (λ r. r.items) v.items ≡ next_rows (map (λ r. r.items) rows.now) (offered bundle.now) (map (λ d. d.items) defined.now)) }
{
    let mut next = Vec::with_capacity(alloc, bundle.len())?;
    for i in 0..bundle.len() {
        let m = bundle[i].module.module();
        next.push(row_of(alloc, rows, m, &defined[i])?)?;
    }
    Ok(next)
}

/// Whether no module of a bundle defines a struct.
pub fn have_no_structs(bundle: &[New<'_>]) -> bool
    ensures { result ≡ list_all (λ n. length n.module.structs == 0) bundle.now }
{
    bundle
        .iter()
        .all(|n| n.module.module().structs().is_empty())
}

/// The sizes of the structs of a bundle whose modules define none.
pub fn no_sizes(alloc: Global, bundle: &[New<'_>]) -> Result<Vec<Vec<Size>>, AllocError>
    ensures { IfOk result (λ v. map (λ r. r.items) v.items ≡ map (λ n. []) bundle.now) }
{
    let mut sizes = Vec::with_capacity(alloc, bundle.len())?;
    for _module in bundle {
        sizes.push(Vec::new(alloc))?;
    }
    Ok(sizes)
}

/// Whether each size of a row is known.
fn is_row_known(row: &[Option<Size>]) -> bool
    ensures { result ≡ list_all is_some row.now }
{
    row.iter().all(|size| size.is_some())
}

/// Whether the size of each struct is known.
fn are_known(rows: &[Vec<Option<Size>>]) -> bool
    ensures { result ≡ list_all (λ r. list_all is_some r.items) rows.now }
{
    rows.iter().all(|row| is_row_known(row))
}

/// What is known of the bundle's structs after 8 rounds, or after the first that leaves none unknown: the sizes of all that
/// are small.
fn rows_of(
    alloc: Global,
    bundle: &[New<'_>],
    defined: &[Vec<Defined>],
) -> Result<Vec<Vec<Option<Size>>>, AllocError>
    requires { length bundle.now ≤ length defined.now }
    ensures { IfOk result (λ v. AreFinalRows (offered bundle.now) (map (λ d. d.items) defined.now) (map (λ r. r.items) v.items)) }
{
    let mut rows = next_rows(alloc, &[], bundle, defined)?;
    for _round in 1..MOST_NESTING {
        if are_known(&rows) {
            return Ok(rows);
        }
        rows = next_rows(alloc, &rows, bundle, defined)?;
    }
    Ok(rows)
}

/// A row without its options, if each size is known.
fn known_row(alloc: Global, row: &[Option<Size>]) -> Result<Option<Vec<Size>>, AllocError>
    ensures { IfOk result (λ o. MatchOption o (list_all is_some row.now ≡ false) (λ v. row.now ≡ map (λ s. Some s) v.items)) }
{
    let mut known = Vec::new(alloc);
    for size in row {
        match size {
            Some(size) => known.push(*size)?,
            None => return Ok(None),
        }
    }
    Ok(Some(known))
}

/// Rows without their options, if each size is known.
fn known_rows(
    alloc: Global,
    rows: &[Vec<Option<Size>>],
) -> Result<Option<Vec<Vec<Size>>>, AllocError>
    ensures { IfOk result (λ o. MatchOption o (list_all (list_all is_some) (map (λ r. r.items) rows.now) ≡ false)
        (λ v. map (λ r. r.items) rows.now ≡ map (λ r. map (λ s. Some s) r.items) v.items)) }
{
    let mut known = Vec::with_capacity(alloc, rows.len())?;
    for row in rows {
        match known_row(alloc, row)? {
            Some(sizes) => known.push(sizes)?,
            None => return Ok(None),
        }
    }
    Ok(Some(known))
}

/// The sizes of the structs of a bundle, where `defined` has for each module where its struct handles are defined.
///
/// # Errors
///
/// `Phase(13)`, where a struct has more than 256 leaf values or nests deeper than 8; `Memory`, where an allocation failed.
pub fn sizes_of(
    alloc: Global,
    bundle: &[New<'_>],
    defined: &[Vec<Defined>],
) -> Result<Vec<Vec<Size>>, Refusal>
    requires { length bundle.now ≤ length defined.now }
    ensures ok { IfOk result (λ v. (modules : List Tables) → AreDefined modules (offered bundle.now) (map (λ d. d.items) defined.now)
        → AreSizes modules (offered bundle.now) (map (λ r. r.items) v.items) × AreSmall modules (offered bundle.now)) }
    ensures refused { IfErr result (λ e. (modules : List Tables) → AreDefined modules (offered bundle.now) (map (λ d. d.items) defined.now)
        → IsRefusedIn 13 (AreSmall modules (offered bundle.now)) e) }
{
    let rows = rows_of(alloc, bundle, defined)?;
    match known_rows(alloc, &rows)? {
        Some(sizes) => Ok(sizes),
        None => Err(Refusal::Phase(13)),
    }
}
