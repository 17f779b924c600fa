// How much of the types is kept for linking. What is proved says only that the two topmost are.

use mv_type_rules::Tops;
use std::alloc::{AllocError, Global};
use std::test::Fail;

// The headers of a module, but for how many bytes its function has, and its tables up to how many instructions there are.
const HEADERS: [u8; 26] = [
    0xA1, 0x1C, 0xEB, 0x0B, 0x05, 0x00, 0x00, 0x00, 0x06, 0x01, 0x00, 0x02, 0x03, 0x02, 0x05, 0x05,
    0x07, 0x01, 0x07, 0x08, 0x04, 0x08, 0x0C, 0x10, 0x0C, 0x1C,
];

const TABLES: [u8; 33] = [
    0x00, 0x00, 0x00, 0x01, 0x00, 0x00, 0x00, 0x00, 0x01, 0x4D, 0x01, 0x66, 0x00, 0x00, 0x00, 0x00,
    0x00, 0x00, 0x00, 0x00, 0x00, 0x00, 0x00, 0x00, 0x00, 0x00, 0x00, 0x01, 0x00, 0x00, 0x00, 0x00,
    0x00,
];

// The text of a module whose function puts a bool so many times on its stack, and takes each off again.
fn text_of(alloc: Global, height: usize, bytes: u8, count: u8) -> Result<Vec<u8>, AllocError> {
    let mut text = Vec::from_slice(alloc, &HEADERS)?;
    text.push(bytes)?;
    text.extend_from_slice(&TABLES)?;
    text.push(count)?;
    text.extend_from_slice(&vec![in alloc; 0x08; height]?)?;
    text.extend_from_slice(&vec![in alloc; 0x01; height]?)?;
    text.extend_from_slice(&[0x02, 0x00])?;
    Ok(text)
}

// How many types are kept before an instruction of the first function.
fn kept(tops: &Tops<'_>, at: usize) -> Option<usize> {
    if tops.module().functions().is_empty() {
        return None;
    }
    let types = tops.top_types(0);
    if at >= types.len() {
        return None;
    }
    Some(types.before(at).len())
}

#[test]
fn high_stacks_are_trimmed_and_low_ones_stay_whole(rt: HostRuntime) -> Result<(), Fail> {
    let alloc = rt.alloc();
    for (height, bytes, count, wanted) in [(5, 17, 11, 5), (20, 47, 41, 2)] {
        let text = text_of(alloc, height, bytes, count)?;
        let bounded = mv_bounds::check(alloc, mv_binary_format::decode(alloc, &text)?)?;
        let tops = mv_type_states::check(alloc, bounded)?.into_tops(alloc)?;
        assert_eq!(rt; kept(&tops, height), Some(wanted));
    }
    Ok(())
}
