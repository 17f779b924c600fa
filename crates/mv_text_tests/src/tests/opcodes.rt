// Each opcode, with an immediate where it has one.

use mv_module_text::{Reader, write_instruction};
use mv_move_types::Instruction::*;
use mv_move_types::{Immediate, Instruction, Refusal, Version};
use std::alloc::{AllocError, Global};
use std::test::Fail;

// The bytes of an instruction, whether version 6 alone has it, and the instruction.
static ROWS: [(&[u8], bool, Instruction); 57] = [
    (&[0x01], false, Pop),
    (&[0x02], false, Ret),
    (&[0x03, 0x80, 0x01], false, BrTrue(128)),
    (&[0x04, 0x80, 0x01], false, BrFalse(128)),
    (&[0x05, 0x80, 0x01], false, Branch(128)),
    (
        &[0x06, 8, 7, 6, 5, 4, 3, 2, 1],
        false,
        LdU64(0x0102030405060708),
    ),
    (&[0x07, 0x80, 0x01], false, LdConst(128)),
    (&[0x08], false, LdTrue),
    (&[0x09], false, LdFalse),
    (&[0x0A, 0x80, 0x01], false, CopyLoc(128)),
    (&[0x0B, 0x80, 0x01], false, MoveLoc(128)),
    (&[0x0C, 0x80, 0x01], false, StLoc(128)),
    (&[0x0D, 0x80, 0x01], false, MutBorrowLoc(128)),
    (&[0x0E, 0x80, 0x01], false, ImmBorrowLoc(128)),
    (&[0x0F, 0x80, 0x01], false, MutBorrowField(128)),
    (&[0x10, 0x80, 0x01], false, ImmBorrowField(128)),
    (&[0x11, 0x80, 0x01], false, Call(128)),
    (&[0x12, 0x80, 0x01], false, Pack(128)),
    (&[0x13, 0x80, 0x01], false, Unpack(128)),
    (&[0x14], false, ReadRef),
    (&[0x15], false, WriteRef),
    (&[0x16], false, Add),
    (&[0x17], false, Sub),
    (&[0x18], false, Mul),
    (&[0x19], false, Mod),
    (&[0x1A], false, Div),
    (&[0x1B], false, BitOr),
    (&[0x1C], false, BitAnd),
    (&[0x1D], false, Xor),
    (&[0x1E], false, Or),
    (&[0x1F], false, And),
    (&[0x20], false, Not),
    (&[0x21], false, Eq),
    (&[0x22], false, Neq),
    (&[0x23], false, Lt),
    (&[0x24], false, Gt),
    (&[0x25], false, Le),
    (&[0x26], false, Ge),
    (&[0x27], false, Abort),
    (&[0x28], false, Nop),
    (&[0x29, 0x80, 0x01], false, Exists(128)),
    (&[0x2A, 0x80, 0x01], false, MutBorrowGlobal(128)),
    (&[0x2B, 0x80, 0x01], false, ImmBorrowGlobal(128)),
    (&[0x2C, 0x80, 0x01], false, MoveFrom(128)),
    (&[0x2D, 0x80, 0x01], false, MoveTo(128)),
    (&[0x2E], false, FreezeRef),
    (&[0x2F], false, Shl),
    (&[0x30], false, Shr),
    (&[0x31, 0xFE], false, LdU8(0xFE)),
    (
        &[0x32, 16, 15, 14, 13, 12, 11, 10, 9, 8, 7, 6, 5, 4, 3, 2, 1],
        false,
        LdU128(0x0102030405060708090A0B0C0D0E0F10),
    ),
    (&[0x33], false, CastU8),
    (&[0x34], false, CastU64),
    (&[0x35], false, CastU128),
    (&[0x48, 0x02, 0x01], true, LdU16(0x0102)),
    (&[0x49, 0x04, 0x03, 0x02, 0x01], true, LdU32(0x01020304)),
    (&[0x4B], true, CastU16),
    (&[0x4C], true, CastU32),
];

const REFUSED: Result<Instruction, Refusal> = Err(Refusal::Phase(2));

// Whether a version reads this of the front of the bytes.
fn is_front(version: Version, bytes: &[u8], wanted: Result<Instruction, Refusal>) -> bool {
    Reader::new(bytes).instruction(version) == wanted
}

// Whether the bytes are an instruction in each version that has it.
fn is_read(bytes: &[u8], is_late: bool, instruction: Instruction) -> bool {
    let mut six = Reader::new(bytes);
    let wanted = if is_late { REFUSED } else { Ok(instruction) };
    six.instruction(Version::Six) == Ok(instruction)
        && six.is_empty()
        && is_front(Version::Five, bytes, wanted)
}

// Whether an instruction is written as these bytes.
fn is_written(alloc: Global, bytes: &[u8], instruction: Instruction) -> Result<bool, AllocError> {
    let mut out = Vec::new(alloc);
    write_instruction(instruction, &mut out)?;
    Ok(out.as_slice() == bytes)
}

#[test]
fn instructions_are_read_and_written(rt: HostRuntime) -> Result<(), Fail> {
    for (bytes, is_late, instruction) in &ROWS {
        assert!(rt; is_read(bytes, *is_late, *instruction), "{bytes:?}");
        assert!(rt; is_written(rt.alloc(), bytes, *instruction)?, "{bytes:?}");
    }
    Ok(())
}

// Whether no version reads an instruction at the front of the bytes.
fn is_refused(bytes: &[u8]) -> bool {
    is_front(Version::Five, bytes, REFUSED) && is_front(Version::Six, bytes, REFUSED)
}

// Whether no version reads an instruction of fewer of the bytes.
fn are_cuts_refused(bytes: &[u8]) -> bool {
    for count in 0..bytes.len() {
        if !is_refused(&bytes[..count]) {
            return false;
        }
    }
    true
}

// Whether an index behind the opcode is refused in spellings that are longer than they need be.
fn are_longer_refused(opcode: u8) -> bool {
    is_refused(&[opcode, 0x80, 0x00]) && is_refused(&[opcode, 0x80, 0x80, 0x00])
}

// Whether an instruction has an index.
fn has_index(instruction: Instruction) -> bool {
    !matches!(
        instruction.immediate(),
        Immediate::Nothing | Immediate::Literal(_, _)
    )
}

#[test]
fn cut_and_longer_spellings_are_refused(rt: HostRuntime) {
    for (bytes, _, instruction) in &ROWS {
        assert!(rt; are_cuts_refused(bytes), "{bytes:?}");
        if has_index(*instruction) {
            assert!(rt; are_longer_refused(instruction.opcode()), "{bytes:?}");
        }
    }
}

// Whether an instruction has this opcode.
fn is_opcode(code: u8) -> bool {
    for (bytes, _, _) in &ROWS {
        if bytes.first() == Some(&code) {
            return true;
        }
    }
    false
}

#[test]
fn other_opcodes_are_refused(rt: HostRuntime) {
    for code in 0..=u8::MAX {
        if !is_opcode(code) {
            assert!(rt;
                is_refused(&[code, 0, 0, 0, 0, 0, 0, 0, 0, 0, 0, 0, 0, 0, 0, 0, 0]),
                "{code}"
            );
        }
    }
}
