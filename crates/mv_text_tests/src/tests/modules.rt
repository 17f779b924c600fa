// Modules as bytes, which stand in hexadecimal.

use hex::FromHexError;
use mv_binary_format::{Cursor, Module, code, decode, encode};
use mv_move_types::{Instruction, Refusal, Version};
use std::alloc::{AllocError, Global};
use std::test::Fail;

// A module with a name alone, at the address 1.
const EMPTY: &str =
    "a11ceb0b05000000030100020702020804100000014d0000000000000000000000000000000100";

// A module with a struct Coin and a function mint.
const COIN: &str = "\
    a11ceb0b0500000008010002020204030605050b04070f0e081d100a2d050c320f000000010c00000301000000020c03\
    014d04436f696e0176046d696e740000000000000000000000000000000100020102030001040000050e000b0112002d\
    000200";

// The same with a function burn.
const COIN_WITH_BURN: &str = "\
    a11ceb0b050000000801000202020403060a0510060716130829100a39050c3e1e000000010c00000301000000040200\
    0000020c030105014d04436f696e0176046d696e74046275726e00000000000000000000000000000001000201020300\
    01040000050e000b0112002d0002010104010000050b002c001300010200";

// The bytes of a text in hexadecimal.
fn bytes_of(alloc: Global, text: &str) -> Result<Vec<u8>, FromHexError> {
    hex::decode(alloc, text)
}

// The bytes with others at some places.
fn altered(alloc: Global, bytes: &[u8], changes: &[(usize, u8)]) -> Result<Vec<u8>, AllocError> {
    let mut text = Vec::from_slice(alloc, bytes)?;
    for (place, byte) in changes {
        if let Some(old) = text.get_mut(*place) {
            *old = *byte;
        }
    }
    Ok(text)
}

// Whether the bytes are no module's.
fn is_refused(alloc: Global, bytes: &[u8]) -> bool {
    matches!(decode(alloc, bytes), Err(Refusal::Phase(2)))
}

// Whether the module that the bytes are the text of is written as these bytes.
fn is_read_back(alloc: Global, bytes: &[u8]) -> Result<bool, Refusal> {
    let m = decode(alloc, bytes)?;
    Ok(encode(alloc, &m)?.as_slice() == bytes)
}

// The text of a module of version 5 whose headers and contents are a front and so many copies of a part, and whose own handle
// is 0.
fn text_of(
    alloc: Global,
    front: &str,
    part: &[u8],
    copies: usize,
) -> Result<Vec<u8>, FromHexError> {
    let mut text = Vec::from_slice(alloc, b"\xA1\x1C\xEB\x0B\x05\0\0\0")?;
    text.extend_from_slice(&bytes_of(alloc, front)?)?;
    for _ in 0..copies {
        text.extend_from_slice(part)?;
    }
    text.extend_from_slice(&[0x00])?;
    Ok(text)
}

// How many handles of modules and of structs a module has, signatures, names, addresses, structs and functions.
fn counts(m: &Module<'_>) -> [usize; 7] {
    [
        m.module_handles().len(),
        m.struct_handles().len(),
        m.signature_count(),
        m.identifier_count(),
        m.addresses().len(),
        m.structs().len(),
        m.functions().len(),
    ]
}

// Whether a module has so many of each, and its own handle is 0.
fn has(alloc: Global, bytes: &[u8], wanted: &[usize]) -> Result<bool, Refusal> {
    let m = decode(alloc, bytes)?;
    Ok(counts(&m).as_slice() == wanted && m.own() == 0)
}

#[test]
fn modules_have_what_their_bytes_say(rt: HostRuntime) -> Result<(), Fail> {
    let empty = bytes_of(rt.alloc(), EMPTY)?;
    assert!(rt; has(rt.alloc(), &empty, &[1, 0, 0, 1, 1, 0, 0])?);
    let coin = bytes_of(rt.alloc(), COIN)?;
    assert!(rt; has(rt.alloc(), &coin, &[1, 1, 2, 4, 1, 1, 1])?);
    Ok(())
}

// The instructions of the first function. They outlive the module by which they were found.
fn first_code<'a>(alloc: Global, bytes: &'a [u8]) -> Result<Option<Cursor<'a>>, Refusal> {
    let m = decode(alloc, bytes)?;
    if m.functions().is_empty() {
        return Ok(None);
    }
    Ok(Some(code(&m, 0)))
}

// Whether a cursor gives these instructions, one after the other, and no more.
fn gives(mut cursor: Cursor<'_>, wanted: &[Instruction]) -> bool {
    for instruction in wanted {
        if cursor.next() != Some(*instruction) {
            return false;
        }
    }
    cursor.next().is_none()
}

// Whether the first function has these instructions, as a list and one after the other.
fn has_code(alloc: Global, bytes: &[u8], wanted: &[Instruction]) -> Result<bool, Refusal> {
    match (first_code(alloc, bytes)?, first_code(alloc, bytes)?) {
        (Some(list), Some(cursor)) => {
            Ok(list.to_vec(alloc)?.as_slice() == wanted && gives(cursor, wanted))
        }
        _ => Ok(false),
    }
}

// Whether the code that the first function of a module lends is that which outlives the module.
fn lends_code(alloc: Global, bytes: &[u8], wanted: &[Instruction]) -> Result<bool, Refusal> {
    let m = decode(alloc, bytes)?;
    match m.functions().first() {
        Some(function) => Ok(function.code().to_vec(alloc)?.as_slice() == wanted),
        None => Ok(false),
    }
}

// The function of COIN.
static MINT: [Instruction; 5] = [
    Instruction::ImmBorrowLoc(0),
    Instruction::MoveLoc(1),
    Instruction::Pack(0),
    Instruction::MoveTo(0),
    Instruction::Ret,
];

#[test]
fn functions_have_what_their_bytes_say(rt: HostRuntime) -> Result<(), Fail> {
    let coin = bytes_of(rt.alloc(), COIN)?;
    assert!(rt; lends_code(rt.alloc(), &coin, &MINT)? && has_code(rt.alloc(), &coin, &MINT)?);
    Ok(())
}

// The front of a module of one function, whose instructions have immediates of each kind: numbers of 8, 64, 16, 32 and 128 bits,
// an index of one byte and of three, and none.
const KINDS_OF_IMMEDIATES: &str = "\
    010c003300000000000931050601020304050607084801024901020304320102030405060708090a0b0c0d0e0f100a05\
    0affff03070202";

// Its function.
static IMMEDIATES: [Instruction; 9] = [
    Instruction::LdU8(5),
    Instruction::LdU64(0x0807060504030201),
    Instruction::LdU16(0x0201),
    Instruction::LdU32(0x04030201),
    Instruction::LdU128(0x100f0e0d0c0b0a090807060504030201),
    Instruction::CopyLoc(5),
    Instruction::CopyLoc(65535),
    Instruction::LdConst(2),
    Instruction::Ret,
];

#[test]
fn code_is_read_from_the_bytes(rt: HostRuntime) -> Result<(), Fail> {
    let five = text_of(rt.alloc(), KINDS_OF_IMMEDIATES, &[], 0)?;
    let six = altered(rt.alloc(), &five, &[(4, 6)])?;
    assert!(rt; has_code(rt.alloc(), &six, &IMMEDIATES)?);
    Ok(())
}

// Whether a module of version 5 has one constant, of this byte, and one field handle, of this struct and position.
fn has_one_each(
    alloc: Global,
    bytes: &[u8],
    byte: u8,
    (definition, position): (u16, u16),
) -> Result<bool, Refusal> {
    let m = decode(alloc, bytes)?;
    match (m.constants(), m.field_handles()) {
        ([constant], [field]) => Ok(
            m.version() == Version::Five
                && constant.bytes() == [byte].as_slice()
                && field.definition == definition
                && field.position == position,
        ),
        _ => Ok(false),
    }
}

#[test]
fn constants_and_field_handles_are_read(rt: HostRuntime) -> Result<(), Fail> {
    // A constant of type u8 with the byte 7, and the field 2 of the struct 1.
    let text = text_of(rt.alloc(), "020600030d0302020107", &[1, 2], 1)?;
    assert!(rt; is_read_back(rt.alloc(), &text)?);
    assert!(rt; has_one_each(rt.alloc(), &text, 7, (1, 2))?);
    Ok(())
}

// A byte of EMPTY that is another: in the version, which has four bytes, an empty table, a kind twice, and tables that overlap.
static WRONG: [(usize, u8); 6] = [(5, 1), (6, 1), (7, 1), (11, 0), (12, 1), (13, 1)];

// Bytes that are no module's: those of EMPTY with a count of tables that isn't the shortest, with a byte more and with one
// less, and those of COIN with one less.
static REFUSED: [&str; 4] = [
    "a11ceb0b0500000083000100020702020804100000014d0000000000000000000000000000000100",
    "a11ceb0b05000000030100020702020804100000014d000000000000000000000000000000010000",
    "a11ceb0b05000000030100020702020804100000014d00000000000000000000000000000001",
    "a11ceb0b0500000008010002020204030605050b04070f0e081d100a2d050c320f000000010c00000301000000020c03\
    014d04436f696e0176046d696e740000000000000000000000000000000100020102030001040000050e000b0112002d\
    0002",
];

// Tables of other kinds.
static KINDS: [&str; 7] = [
    "0100000100",
    "0104000100",
    "0109000100",
    "010b000100",
    "010e000100",
    "010f000100",
    "0110000100",
];

// Whether the module of a text in hexadecimal is none once these bytes are others.
fn is_refused_with(
    alloc: Global,
    text: &str,
    changes: &[(usize, u8)],
) -> Result<bool, FromHexError> {
    let bytes = altered(alloc, &bytes_of(alloc, text)?, changes)?;
    Ok(is_refused(alloc, &bytes))
}

#[test]
fn what_is_no_module_is_refused(rt: HostRuntime) -> Result<(), Fail> {
    for change in &WRONG {
        assert!(rt;
            is_refused_with(rt.alloc(), EMPTY, &[*change])?,
            "{change:?}"
        );
    }
    for text in &REFUSED {
        assert!(rt; is_refused_with(rt.alloc(), text, &[])?, "{text}");
    }
    for front in &KINDS {
        assert!(rt;
            is_refused(rt.alloc(), &text_of(rt.alloc(), front, &[], 0)?),
            "{front}"
        );
    }
    Ok(())
}

// EMPTY with its headers in another order.
static TURNED: [(usize, u8); 6] = [(9, 8), (10, 4), (11, 16), (15, 1), (16, 0), (17, 2)];

#[test]
fn headers_stand_in_any_order(rt: HostRuntime) -> Result<(), Fail> {
    let turned = altered(rt.alloc(), &bytes_of(rt.alloc(), EMPTY)?, &TURNED)?;
    assert!(rt; has(rt.alloc(), &turned, &[1, 0, 0, 1, 1, 0, 0])?);
    Ok(())
}

static MODULES: [&str; 3] = [EMPTY, COIN, COIN_WITH_BURN];

// The versions of modules, and others.
static VERSIONS: [(u8, bool); 5] = [(0, false), (4, false), (5, true), (6, true), (7, false)];

// Whether a module of this version is written as it was read, or is none.
fn is_in_version(
    alloc: Global,
    bytes: &[u8],
    version: u8,
    is_module: bool,
) -> Result<bool, Refusal> {
    let text = altered(alloc, bytes, &[(4, version)])?;
    if !is_module {
        return Ok(is_refused(alloc, &text));
    }
    let number = decode(alloc, &text)?.version().number();
    Ok(number == version && is_read_back(alloc, &text)?)
}

#[test]
fn modules_are_written_as_they_were_read(rt: HostRuntime) -> Result<(), Fail> {
    for text in &MODULES {
        let bytes = bytes_of(rt.alloc(), text)?;
        for (version, is_module) in &VERSIONS {
            let is_right = is_in_version(rt.alloc(), &bytes, *version, *is_module)?;
            assert!(rt; is_right, "version {version} of {text}");
        }
    }
    Ok(())
}

// The front of a module that has the most of something, that of one that has one more, a part, and how often the first has it.
static LIMITS: [(&str, &str, &[u8], usize); 9] = [
    // Signatures of no types, a byte each: contents of 65,536 bytes. The same after a module handle of two bytes.
    ("010500808004", "010500818004", &[0], 65536),
    ("020100020502feff03", "020100020502ffff03", &[0], 65536),
    // 256 functions without instructions, and a function of 4,096 times `Ret`.
    ("010c00800c", "010c00860c", &[0; 6], 256),
    (
        "010c00872000000000008020",
        "010c00882000000000008120",
        &[0x02],
        4096,
    ),
    // A name of 128 bytes, a struct of 32 fields, and a signature of 64 types.
    ("01070082018001", "01070083018101", b"a", 128),
    ("010a0043000220", "010a0045000221", &[0, 0x03], 32),
    ("0105004140", "0105004241", &[0x03], 64),
    // The name of a module handle, an index, and the abilities of a struct handle.
    ("0101000400ffff03", "0101000400808004", &[], 0),
    ("0102000400000f00", "0102000400001000", &[], 0),
];

#[test]
fn tables_have_their_limits(rt: HostRuntime) -> Result<(), Fail> {
    for (most, more, part, copies) in &LIMITS {
        let text = text_of(rt.alloc(), most, part, *copies)?;
        assert!(rt; is_read_back(rt.alloc(), &text)?, "{most}");
        let text = text_of(rt.alloc(), more, part, copies.saturating_add(1))?;
        assert!(rt; is_refused(rt.alloc(), &text), "{more}");
    }
    Ok(())
}

// Numbers of 16 and of 32 bits: in signatures, as the type of a constant and of a field, and in functions of one instruction,
// which are LdU16 and LdU32 with their numbers, CastU16 and CastU32.
static LATE: [&str; 8] = [
    "01050002010d",
    "01050002010e",
    "010600040d020100",
    "010a0005000201000d",
    "010c0009000000000001480101",
    "010c000b0000000000014901010101",
    "010c00070000000000014b",
    "010c00070000000000014c",
];

// Whether version 6 alone has a module of this front.
fn is_late(alloc: Global, front: &str) -> Result<bool, Fail> {
    let five = text_of(alloc, front, &[], 0)?;
    let six = altered(alloc, &five, &[(4, 6)])?;
    Ok(is_refused(alloc, &five) && is_read_back(alloc, &six)?)
}

#[test]
fn version_6_alone_has_numbers_of_16_and_32_bits(rt: HostRuntime) -> Result<(), Fail> {
    for front in &LATE {
        assert!(rt; is_late(rt.alloc(), front)?, "{front}");
    }
    Ok(())
}
