// ULEB128 numbers: DWARF's example, and what is none.

use mv_uleb::{UlebError, read, write};
use std::test::Fail;

// Bytes, the largest number that is wanted, and what is read of them.
static ROWS: [(&[u8], u64, Result<(u64, usize), UlebError>); 4] = [
    (&[0xE5, 0x8E, 0x26, 0xFF], u64::MAX, Ok((624485, 3))),
    (&[0x80, 0x00], u64::MAX, Err(UlebError::Long)),
    (&[0x80], u64::MAX, Err(UlebError::Ends)),
    (&[0xE5, 0x8E, 0x26], 624484, Err(UlebError::Range)),
];

#[test]
fn numbers_are_read_in_their_shortest_form(rt: HostRuntime) {
    for (bytes, max, wanted) in &ROWS {
        assert!(rt; read(bytes, *max) == *wanted, "{bytes:?}");
    }
}

#[test]
fn numbers_are_written(rt: HostRuntime) -> Result<(), Fail> {
    let mut out = Vec::new(rt.alloc());
    write(624485, &mut out)?;
    assert!(rt; out.as_slice() == [0xE5, 0x8E, 0x26].as_slice());
    Ok(())
}
