// The walk over what a report tells: how a line of JSON begins, each entry, and the end. No other entry's text stands in memory then.
ghost use Rattle.std.specs.Prelude.{◌≡◌, ◌++◌, ◌+◌, ◌-◌, ◌<◌, ◌^◌, [], codes, cond, false, length, take, IfOk};
ghost use Rattle.mv_link_rules.specs.Link.{tables_in};
ghost use Rattle.mv_machine.specs.Flat.{value_under};
ghost use Rattle.mv_machine.specs.Lines.{end_line, entry_line};
ghost use Rattle.mv_lines.specs.Sources.{item_of, line_of, object_of};

use crate::ahead::Ahead;
use crate::audit::{count_of, count_text};
use crate::json_counts::counts_in_json;
use crate::json_entries::entry_json;
use crate::pieces::Piece;
use crate::source::Entry;
use crate::texts::{definition_of, put_address, put_key, put_labelled, struct_at};
use crate::values::put_value;
use mv_linker::Store;
use mv_move_types::Key;
use std::alloc::{AllocError, Global};

/// How a show begins as JSON.
pub const SHOW: &[u8] = b"json {\"show\":[";

/// How an audit begins as JSON.
pub const AUDIT: &[u8] = b"json {\"audit\":[";

// How both end.
const END: &[u8] = b"]}";

// The bytes for which a line of a show begins with room: those of two addresses, two names and a few leaves.
const LINE_ROOM: usize = 160;

/// The line of a stored value: its address, its struct and the value.
fn entry_text(alloc: Global, store: &Store, key: Key, words: &[u128]) -> Result<Vec<u8>, AllocError>
    ensures { IfOk result (λ text. text.items ≡ entry_line (tables_in store.now) (record { key = key; value = value_under (tables_in store.now) key words.now })) }
{
    let name = struct_at(store, key);
    let mut text = Vec::with_capacity(alloc, LINE_ROOM)?;
    text.extend_from_slice(b"at ")?;
    put_address(&mut text, key.address)?;
    text.push(b' ')?;
    put_key(&mut text, name.as_ref())?;
    text.push(b' ')?;
    put_value(&mut text, store, definition_of(key), words)?;
    Ok(text)
}

/// An object with a comma behind it.
fn with_comma(mut object: Vec<u8>) -> Result<Vec<u8>, AllocError>
    ensures { IfOk result (λ text. text.items ≡ object.items ++ codes ",") }
{
    object.push(b',')?;
    Ok(object)
}

/// An object with its comma, or without it where it is the last one.
fn between(mut object: Vec<u8>, is_last: bool) -> Vec<u8>
    ensures { result.items ≡ cond is_last (take (length object.items - 1) object.items) object.items }
{
    if is_last {
        object.pop();
    }
    object
}

/// The text of an entry: its line, or its object with a comma behind it, whose texts are made in this room.
fn text_of(
    alloc: Global,
    room: &mut Vec<u8>,
    store: &Store,
    is_json: bool,
    entry: Entry<'_>,
) -> Result<Vec<u8>, AllocError>
    ensures { IfOk result (λ text. text.items ≡ cond is_json (object_of (tables_in store.now) (item_of entry.entry)
        ++ codes ",") (line_of (tables_in store.now) (item_of entry.entry))) }
{
    match entry {
        Entry::Value(key, words) => {
            if is_json {
                with_comma(entry_json(alloc, room, store, key, words)?)
            } else {
                entry_text(alloc, store, key, words)
            }
        }
        Entry::Count(tally) => {
            let counted = count_of(store, tally);
            if is_json {
                with_comma(counts_in_json(alloc, &counted)?)
            } else {
                count_text(alloc, &counted)
            }
        }
    }
}

/// The end of a report: that of a line of JSON, or the last line of text, with the number of lines before it.
fn end_text(alloc: Global, is_json: bool, told: u64) -> Result<Vec<u8>, AllocError>
    ensures { IfOk result (λ text. text.items ≡ cond is_json (codes "]}") (end_line told)) }
{
    if is_json {
        return Vec::from_slice(alloc, END);
    }
    let mut text = Vec::new(alloc);
    put_labelled(&mut text, b"end ", u128::from(told))?;
    Ok(text)
}

/// What is left of a report. As text each entry is a line, as JSON an object.
#[derive(Drop)]
pub struct Walk<'a> {
    pub store: &'a Store,
    pub entries: Ahead<'a>,
    pub is_json: bool,
    /// What is left of how a line of JSON begins.
    pub opening: &'static [u8],
    /// How many lines of text were told.
    pub told: u64,
    /// Whether the end was told.
    pub is_ended: bool,
    /// Room for the texts of an object.
    pub room: Vec<u8>,
    ghost few: { is_json ≡ false → told + length entries < 2 ^ 63 },
    ghost no_opening: { is_json ≡ false → opening.now ≡ [] },
}

impl<'a> Walk<'a> {
    ghost use Rattle.std.specs.Prelude.{IfSome, OnErr, true};
    ghost use Rattle.mv_machine.specs.Ledger.{AsText};
    ghost use Rattle.mv_lines.specs.Left.{lines_left};
    ghost use Rattle.mv_lines.specs.Pieces.{TakesNext};

    /// The next piece, if there is one. Where an allocation failed, the same is left as before.
    pub fn next(&mut self, alloc: Global) -> Result<Option<Piece>, AllocError>
        ensures piece { IfOk result (λ piece. TakesNext piece (lines_left self.old).left (lines_left self.new).left) }
        ensures whole { (lines_left self.old).format ≡ AsText → IfOk result (λ piece. IfSome piece (λ p. p.is_last ≡ true)) }
        ensures format { (lines_left self.new).format ≡ (lines_left self.old).format }
        ensures kept { OnErr result ((lines_left self.new).left ≡ (lines_left self.old).left) }
    {
        if self.is_ended {
            return Ok(None);
        }
        if !self.opening.is_empty() {
            let text = Vec::from_slice(alloc, self.opening)?;
            self.opening = &[];
            return Ok(Some(Piece {
                text,
                is_last: false,
            }));
        }
        let Some(entry) = self.entries.first() else {
            let text = end_text(alloc, self.is_json, self.told)?;
            self.is_ended = true;
            return Ok(Some(Piece {
                text,
                is_last: true,
            }));
        };
        let text = text_of(alloc, &mut self.room, self.store, self.is_json, entry)?;
        self.entries.skip();
        if self.is_json {
            let text = between(text, self.entries.is_empty());
            return Ok(Some(Piece {
                text,
                is_last: false,
            }));
        }
        self.told += 1;
        Ok(Some(Piece {
            text,
            is_last: true,
        }))
    }
}
