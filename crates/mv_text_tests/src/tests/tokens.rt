// Each token, and a reference to each sort of type.

use mv_module_text::{Reader, write_token};
use mv_move_types::LeafKind::{Address, Boolean, Number, Signer};
use mv_move_types::Token::{MutableReference, Plain, Reference};
use mv_move_types::ValueType::{OfLeaf, OfStruct};
use mv_move_types::Width::{U8, U16, U32, U64, U128};
use mv_move_types::{Refusal, Token, Version};
use std::alloc::{AllocError, Global};
use std::test::Fail;

// The bytes of a type, whether version 6 alone has it, and the type.
static ROWS: [(&[u8], bool, Token); 12] = [
    (&[0x01], false, Plain(OfLeaf(Boolean))),
    (&[0x02], false, Plain(OfLeaf(Number(U8)))),
    (&[0x03], false, Plain(OfLeaf(Number(U64)))),
    (&[0x04], false, Plain(OfLeaf(Number(U128)))),
    (&[0x05], false, Plain(OfLeaf(Address))),
    (&[0x06, 0x05], false, Reference(OfLeaf(Address))),
    (&[0x07, 0x08, 0x07], false, MutableReference(OfStruct(7))),
    (&[0x08, 0x80, 0x01], false, Plain(OfStruct(128))),
    (&[0x0C], false, Plain(OfLeaf(Signer))),
    (&[0x0D], true, Plain(OfLeaf(Number(U16)))),
    (&[0x0E], true, Plain(OfLeaf(Number(U32)))),
    (&[0x06, 0x0D], true, Reference(OfLeaf(Number(U16)))),
];

// No type in any version: cut, a vector, a type parameter, an instance of a struct, a reference to a reference, and codes
// that no version has.
static NO_TYPES: [&[u8]; 17] = [
    &[],
    &[0x00],
    &[0x06],
    &[0x07],
    &[0x08],
    &[0x08, 0x80, 0x00],
    &[0x09, 0x00],
    &[0x0A, 0x02],
    &[0x0B, 0x00],
    &[0x0F],
    &[0x10],
    &[0xFF],
    &[0x06, 0x06, 0x03],
    &[0x06, 0x07, 0x03],
    &[0x07, 0x06, 0x03],
    &[0x07, 0x07, 0x03],
    &[0x06, 0x0F],
];

const REFUSED: Result<Token, Refusal> = Err(Refusal::Phase(2));

// Whether a version reads this of the front of the bytes.
fn is_front(version: Version, bytes: &[u8], wanted: Result<Token, Refusal>) -> bool {
    Reader::new(bytes).token(version) == wanted
}

// Whether the bytes are a token in each version that has it.
fn is_read(bytes: &[u8], is_late: bool, token: Token) -> bool {
    let mut six = Reader::new(bytes);
    let wanted = if is_late { REFUSED } else { Ok(token) };
    six.token(Version::Six) == Ok(token) && six.is_empty() && is_front(Version::Five, bytes, wanted)
}

// Whether a token is written as these bytes.
fn is_written(alloc: Global, bytes: &[u8], token: Token) -> Result<bool, AllocError> {
    let mut out = Vec::new(alloc);
    write_token(token, &mut out)?;
    Ok(out.as_slice() == bytes)
}

#[test]
fn tokens_are_read_and_written(rt: HostRuntime) -> Result<(), Fail> {
    for (bytes, is_late, token) in &ROWS {
        assert!(rt; is_read(bytes, *is_late, *token), "{bytes:?}");
        assert!(rt; is_written(rt.alloc(), bytes, *token)?, "{bytes:?}");
    }
    Ok(())
}

#[test]
fn what_is_no_type_is_refused(rt: HostRuntime) {
    for bytes in &NO_TYPES {
        assert!(rt; is_front(Version::Five, bytes, REFUSED), "{bytes:?}");
        assert!(rt; is_front(Version::Six, bytes, REFUSED), "{bytes:?}");
    }
}
