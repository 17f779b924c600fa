// The calls that show what is stored under an address, or of a struct. None changes the ledger.
ghost use Rattle.std.specs.Prelude.{◌≡◌, ◌⊎◌, ◌∷◌, [], None, Some, IfOk, MatchOption, option_map};
ghost use Rattle.mv_move_types.specs.Numbers.{big_endian};
ghost use Rattle.mv_lines.specs.LinesView.{ended};
ghost use Rattle.mv_ledger.specs.Formats.{format_of as format_that};
ghost use Rattle.mv_ledger.specs.Questions.{entry_of, stored_at};
ghost use Rattle.moveledger_c.specs.Questions.{format_in, shown_text, struct_in, GoesOnAt, IsNoPage, IsPageIn, IsTold, IsToldIn};
ghost use Rattle.moveledger_c.specs.Statuses.{done, memory};

use crate::bytes::Bytes;
use crate::holder::Holder;
use crate::ledgers::{JSON, TEXT};
use crate::status::{ABSENT, ARGUMENTS, DONE};
use crate::texts::give;
use mv_ledger::{Format, Lines, StructName};
use mv_move_types::Address;
use std::alloc::{AllocError, Global};

/// The format of a form.
fn format_of(form: u32) -> Option<Format>
    ensures { MatchOption result (format_in form ≡ None) (λ f. format_in form ≡ Some (format_that f)) }
{
    if form == TEXT {
        return Some(Format::Text);
    }
    if form == JSON {
        return Some(Format::Json);
    }
    None
}

/// The bytes of lines, each with its line end.
pub(crate) fn bytes_of(alloc: Global, mut lines: Lines<'_>) -> Result<Vec<u8>, AllocError>
    ensures { IfOk result (λ text. text.items ≡ ended lines.entry.left) }
{
    let mut text = Vec::new(alloc);
    'each: while let Some(piece) = lines.next_piece()? {
        piece.put(&mut text)?;
    }
    Ok(text)
}

/// Gives the bytes of lines, if there are any.
fn give_lines(alloc: Global, out: &mut Bytes, lines: Option<Lines<'_>>) -> i32
    ensures { IsTold (option_map (λ l. ended l.left) lines.entry) result out.new.items }
{
    match lines {
        Some(lines) => give(alloc, out, bytes_of(alloc, lines)),
        None => {
            *out = Bytes::none();
            ABSENT
        }
    }
}

/// What is stored at an address: the lines of a show of these values alone.
#[unsafe(no_mangle)]
pub extern "C" fn moveledger_show_at(
    alloc: Global,
    ledger: &mut Holder,
    address: &[u8; 16],
    form: u32,
    lines: &mut Bytes,
) -> i32
    ensures given { IsToldIn (λ format l. Some (shown_text l (stored_at (big_endian address.now) l.stored) format)) (format_in form)
        ledger.old.held result lines.new.items }
    ensures kept { ledger.new.held ≡ ledger.old.held }
{
    *lines = Bytes::none();
    let Some(format) = format_of(form) else {
        return ARGUMENTS;
    };
    let Some(held) = ledger.take(alloc) else {
        return ARGUMENTS;
    };
    let address = u128::from_be_bytes(*address);
    let status = give_lines(alloc, lines, Some(held.show_at(address, format)));
    *ledger = Holder::of(held);
    status
}

/// The value of a struct that is stored at an address: the lines of a show of it alone.
#[unsafe(no_mangle)]
pub extern "C" fn moveledger_show_value(
    alloc: Global,
    ledger: &mut Holder,
    address: &[u8; 16],
    home: &[u8; 16],
    module: &[u8],
    name: &[u8],
    form: u32,
    lines: &mut Bytes,
) -> i32
    ensures given { IsToldIn (λ format l. option_map (λ e. shown_text l (e ∷ []) format) (entry_of l (big_endian address.now) (struct_in home.now «module».now name.now)))
        (format_in form) ledger.old.held result lines.new.items }
    ensures kept { ledger.new.held ≡ ledger.old.held }
{
    *lines = Bytes::none();
    let Some(format) = format_of(form) else {
        return ARGUMENTS;
    };
    let Some(held) = ledger.take(alloc) else {
        return ARGUMENTS;
    };
    let name = StructName::new(u128::from_be_bytes(*home), module, name);
    let address = u128::from_be_bytes(*address);
    let status = give_lines(alloc, lines, held.show_value(address, &name, format));
    *ledger = Holder::of(held);
    status
}

/// Says where the next page goes on, if there is one.
fn go_on(next: Option<Address>, from: &mut [u8; 16], is_more: &mut u8)
    requires { is_more.old ≡ 0 }
    ensures { GoesOnAt next (big_endian from.old) (big_endian from.new) is_more.new }
{
    if let Some(next) = next {
        *from = next.to_be_bytes();
        *is_more = 1;
    }
}

/// Gives the lines of a page, and says where the next one goes on.
fn give_page(
    alloc: Global,
    out: &mut Bytes,
    lines: Lines<'_>,
    next: Option<Address>,
    from: &mut [u8; 16],
    is_more: &mut u8,
) -> i32
    requires { is_more.old ≡ 0 }
    ensures { ((result ≡ done) × GoesOnAt next (big_endian from.old) (big_endian from.new) is_more.new × (out.new.items ≡ ended lines.entry.left))
        ⊎ ((result ≡ memory) × IsNoPage (big_endian from.old) (big_endian from.new) is_more.new out.new.items) }
{
    let status = give(alloc, out, bytes_of(alloc, lines));
    if status == DONE {
        go_on(next, from, is_more);
    }
    status
}

/// A page of the values of a struct, by ascending address from `*from` on: the lines of a show of these values alone. At most so many
/// keys are looked at. Where there may be more, the next page goes on at `*from`.
#[unsafe(no_mangle)]
pub extern "C" fn moveledger_show_page(
    alloc: Global,
    ledger: &mut Holder,
    home: &[u8; 16],
    module: &[u8],
    name: &[u8],
    from: &mut [u8; 16],
    most: usize,
    form: u32,
    lines: &mut Bytes,
    is_more: &mut u8,
) -> i32
    ensures given { IsPageIn (format_in form) (struct_in home.now «module».now name.now) (big_endian from.old) most
        ledger.old.held result (big_endian from.new) is_more.new lines.new.items }
    ensures kept { ledger.new.held ≡ ledger.old.held }
{
    *lines = Bytes::none();
    *is_more = 0;
    let Some(format) = format_of(form) else {
        return ARGUMENTS;
    };
    let Some(held) = ledger.take(alloc) else {
        return ARGUMENTS;
    };
    let name = StructName::new(u128::from_be_bytes(*home), module, name);
    let begin = u128::from_be_bytes(*from);
    let status = match held.show_page(&name, begin, most, format) {
        Some((shown, next)) => give_page(alloc, lines, shown, next, from, is_more),
        None => ABSENT,
    };
    *ledger = Holder::of(held);
    status
}
