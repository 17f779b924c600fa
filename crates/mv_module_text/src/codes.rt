// What opcodes stand for.

ghost use Rattle.std.specs.Prelude.{◌≡◌, ℕ, option_and_then};
ghost use Rattle.mv_move_types.specs.Versions.{version_number};
ghost use Rattle.mv_module_text.specs.Parsing.{form_of, bare_of, indexed_of};

use mv_move_types::{Instruction, Version};

// The instruction with this opcode, if the version has one that holds nothing.
#[inline(always)]
pub fn bare(version: Version, code: u8) -> Option<Instruction>
    ensures { result ≡ option_and_then bare_of (form_of (version_number version) code) }
{
    match code {
        0x01 => Some(Instruction::Pop),
        0x02 => Some(Instruction::Ret),
        0x08 => Some(Instruction::LdTrue),
        0x09 => Some(Instruction::LdFalse),
        0x14 => Some(Instruction::ReadRef),
        0x15 => Some(Instruction::WriteRef),
        0x16 => Some(Instruction::Add),
        0x17 => Some(Instruction::Sub),
        0x18 => Some(Instruction::Mul),
        0x19 => Some(Instruction::Mod),
        0x1A => Some(Instruction::Div),
        0x1B => Some(Instruction::BitOr),
        0x1C => Some(Instruction::BitAnd),
        0x1D => Some(Instruction::Xor),
        0x1E => Some(Instruction::Or),
        0x1F => Some(Instruction::And),
        0x20 => Some(Instruction::Not),
        0x21 => Some(Instruction::Eq),
        0x22 => Some(Instruction::Neq),
        0x23 => Some(Instruction::Lt),
        0x24 => Some(Instruction::Gt),
        0x25 => Some(Instruction::Le),
        0x26 => Some(Instruction::Ge),
        0x27 => Some(Instruction::Abort),
        0x28 => Some(Instruction::Nop),
        0x2E => Some(Instruction::FreezeRef),
        0x2F => Some(Instruction::Shl),
        0x30 => Some(Instruction::Shr),
        0x33 => Some(Instruction::CastU8),
        0x34 => Some(Instruction::CastU64),
        0x35 => Some(Instruction::CastU128),
        0x4B if version == Version::Six => Some(Instruction::CastU16),
        0x4C if version == Version::Six => Some(Instruction::CastU32),
        _ => None,
    }
}

// The instruction with this opcode and this index, if there is one that holds an index. All versions have the same.
#[inline(always)]
pub fn indexed(code: u8, index: u16) -> Option<Instruction>
    ensures { (version : ℕ) → result ≡ option_and_then (indexed_of index) (form_of version code) }
{
    match code {
        0x03 => Some(Instruction::BrTrue(index)),
        0x04 => Some(Instruction::BrFalse(index)),
        0x05 => Some(Instruction::Branch(index)),
        0x07 => Some(Instruction::LdConst(index)),
        0x0A => Some(Instruction::CopyLoc(index)),
        0x0B => Some(Instruction::MoveLoc(index)),
        0x0C => Some(Instruction::StLoc(index)),
        0x0D => Some(Instruction::MutBorrowLoc(index)),
        0x0E => Some(Instruction::ImmBorrowLoc(index)),
        0x0F => Some(Instruction::MutBorrowField(index)),
        0x10 => Some(Instruction::ImmBorrowField(index)),
        0x11 => Some(Instruction::Call(index)),
        0x12 => Some(Instruction::Pack(index)),
        0x13 => Some(Instruction::Unpack(index)),
        0x29 => Some(Instruction::Exists(index)),
        0x2A => Some(Instruction::MutBorrowGlobal(index)),
        0x2B => Some(Instruction::ImmBorrowGlobal(index)),
        0x2C => Some(Instruction::MoveFrom(index)),
        0x2D => Some(Instruction::MoveTo(index)),
        _ => None,
    }
}
