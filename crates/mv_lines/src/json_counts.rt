// A struct's counts as an object of JSON, as serde_json is sent them. No text of them has a byte that JSON would escape.
ghost use Rattle.std.specs.Prelude.{◌≡◌, decimal, IfOk, OnOk};
ghost use Rattle.serde_json.specs.Data.{string};
ghost use Rattle.serde_json.specs.Events.{SendsValue};
ghost use Rattle.mv_machine.specs.Lines.{count_object, struct_text};
ghost use Rattle.mv_lines.specs.Auditing.{counted_in, stored_of};
ghost use Rattle.mv_lines.specs.Plain.{IsPlain};
ghost use Rattle.mv_lines.specs.Sending.{count_data};

use crate::audit::Counted;
use crate::json_entries::as_str;
use crate::texts::{put_name, put_number};
use mv_linker::StructName;
use serde::{Described, Serialize, Serializer};
use std::alloc::{AllocError, Global};

// What is said where an allocation for a text failed.
const NO_MEMORY: &str = "out of memory";

// The bytes for which the text of a name begins with room: those of an address and two names.
const NAME_ROOM: usize = 128;

/// Sends a number, in decimal.
fn send_number<S: Serializer>(room: &mut Vec<u8>, n: u128, out: &mut S) -> Result<(), S::Error>
    ensures { OnOk result (SendsValue (string (decimal n)) (S.written out.old) (S.written out.new)) }
{
    room.clear();
    match put_number(room, n) {
        Ok(()) => out.str(as_str(room)),
        Err(_) => Err(out.custom(NO_MEMORY)),
    }
}

/// Sends the name of a struct.
fn send_name<S: Serializer>(
    room: &mut Vec<u8>,
    name: &StructName<'_>,
    out: &mut S,
) -> Result<(), S::Error>
    requires { IsPlain (struct_text name.now) }
    ensures { OnOk result (SendsValue (string (struct_text name.now)) (S.written out.old) (S.written out.new)) }
{
    room.clear();
    match put_name(room, name) {
        Ok(()) => out.str(as_str(room)),
        Err(_) => Err(out.custom(NO_MEMORY)),
    }
}

/// Sends a struct's counts.
fn send_counts<S: Serializer>(
    room: &mut Vec<u8>,
    counted: &Counted<'_>,
    out: &mut S,
) -> Result<(), S::Error>
    requires { IsPlain (struct_text counted.now.name) }
    ensures { OnOk result (SendsValue (count_data (counted_in counted.now)) (S.written out.old) (S.written out.new)) }
{
    let stored = counted.packs.saturating_sub(counted.unpacks);
    out.begin_map(Some(4))?;
    out.key("packed")?;
    send_number(room, counted.packs, out)?;
    out.key("stored")?;
    send_number(room, stored, out)?;
    out.key("struct")?;
    send_name(room, &counted.name, out)?;
    out.key("unpacked")?;
    send_number(room, counted.unpacks, out)?;
    out.end_map()
}

/// A struct's counts, which are sent as an object.
#[derive(Clone, Copy)]
struct CountAudit<'a> {
    alloc: Global,
    counted: &'a Counted<'a>,
    ghost plain: { IsPlain (struct_text counted.now.name) },
}

impl<'a> Described for CountAudit<'a> {
    ghost use Rattle.serde_json.specs.Events.{SendsValue};
    ghost use Rattle.mv_lines.specs.Auditing.{counted_in};
    ghost use Rattle.mv_lines.specs.Sending.{count_data};

    ghost writes = { λ c. SendsValue (count_data (counted_in c.counted.now)) };
}

impl<'a> Serialize for CountAudit<'a> {
    fn serialize<S: Serializer>(&self, out: &mut S) -> Result<(), S::Error> {
        match Vec::with_capacity(self.alloc, NAME_ROOM) {
            Ok(mut room) => send_counts(&mut room, self.counted, out),
            Err(_) => Err(out.custom(NO_MEMORY)),
        }
    }
}

/// A struct's counts as JSON.
pub fn counts_in_json(alloc: Global, counted: &Counted<'_>) -> Result<Vec<u8>, AllocError>
    requires { IsPlain (struct_text counted.now.name) }
    ensures { IfOk result (λ text. text.items ≡ count_object (stored_of (counted_in counted.now)) (counted_in counted.now)) }
{
    let count = CountAudit { alloc, counted };
    match serde_json::to_vec(alloc, &count) {
        Ok(json) => Ok(json),
        Err(_) => Err(AllocError),
    }
}
