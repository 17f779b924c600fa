// A module in which any one byte is another.

use super::rows::Row;
use super::{alone, room, whole};
use std::alloc::Global;
use std::ops::Range;
use std::process::Abort;
use std::test::Fail;

// The bytes of a record before its module: kind, length, sender, the number of modules, and the module's length.
const BEFORE: usize = 21;

// The number that stands at a place among the words of a line.
fn number_at(line: &str, place: usize) -> Option<u64> {
    line.split(' ').nth(place)?.parse::<u64>().ok()
}

// Whether a line says that a module is published, or refused in a phase from 2 to 13.
fn is_published_or_refused(line: &str) -> bool {
    match line.split(' ').nth(1) {
        Some("published") => true,
        Some("refused") => matches!(number_at(line, 2), Some(2..=13)),
        _ => false,
    }
}

// Whether a line has no count, or one by which all values that were made are stored or taken apart.
fn is_conserved(line: &str) -> bool {
    if line.split(' ').nth(1) != Some("count") {
        return true;
    }
    match (number_at(line, 4), number_at(line, 6), number_at(line, 8)) {
        (Some(stored), Some(packed), Some(unpacked)) => {
            u128::from(stored) + u128::from(unpacked) == u128::from(packed)
        }
        _ => false,
    }
}

// Whether lines tell that a module is refused, or its values are conserved, and go on to the end of the fourth record, an audit.
fn is_told_well(written: &[u8]) -> bool {
    let Ok(text) = std::str::from_utf8(written) else {
        return false;
    };
    let Some(first) = text.lines().next() else {
        return false;
    };
    let is_whole = text.contains("\n4 end ");
    is_whole && is_published_or_refused(first) && text.lines().all(is_conserved)
}

// Whether an altered module is refused, or its values are conserved.
fn is_well(alloc: Global, bytes: &[u8]) -> bool {
    let mut writer = room(alloc);
    let answer = alone(alloc, &mut whole(bytes), &mut writer);
    answer.is_ok() && is_told_well(writer.taken.as_slice())
}

// Puts each other byte at a place.
fn alter(rt: &impl Abort, alloc: Global, bytes: &mut [u8], place: usize) {
    for turned in 1..=255 {
        turn(bytes, place, turned);
        assert!(rt; is_well(alloc, bytes), "{turned} at {place}");
        turn(bytes, place, turned);
    }
}

// Puts each other byte at each of these places of the module.
fn altered(rt: &impl Abort, alloc: Global, places: Range<usize>) -> Result<(), Fail> {
    let row = Row::that_shows("a coin is minted and burnt, and counted")?;
    let mut bytes = row.input(alloc)?;
    for place in places {
        alter(rt, alloc, &mut bytes, BEFORE.saturating_add(place));
    }
    Ok(())
}

// Turns bits of the byte at a place.
fn turn(bytes: &mut [u8], place: usize, turned: u8) {
    if let Some(byte) = bytes.get_mut(place) {
        *byte ^= turned;
    }
}

#[test]
fn altered_headers_are_refused(rt: HostRuntime) -> Result<(), Fail> {
    altered(&rt, rt.alloc(), 0..33)
}

#[test]
fn altered_handles_and_names_are_refused_or_conserve_values(rt: HostRuntime) -> Result<(), Fail> {
    altered(&rt, rt.alloc(), 33..90)
}

#[test]
fn altered_definitions_are_refused_or_conserve_values(rt: HostRuntime) -> Result<(), Fail> {
    altered(&rt, rt.alloc(), 90..126)
}
