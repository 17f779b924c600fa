// The instructions, in the order of their opcodes.
ghost use Rattle.std.specs.Prelude.{◌≡◌};
ghost use Rattle.mv_move_types.specs.Instructions.{immediate_of, exit_of, code_of};

use crate::Width;

/// One instruction of a function's code. A number is an index into a table, a local, the place of an instruction, or the
/// value itself.
#[derive(Clone, Copy, PartialEq, Eq, Debug)]
pub enum Instruction {
    /// Takes the topmost operand away.
    Pop,
    /// Returns to the caller with the results.
    Ret,
    /// Goes on at an instruction where the topmost operand is true.
    BrTrue(u16),
    /// Goes on at an instruction where the topmost operand is false.
    BrFalse(u16),
    /// Goes on at an instruction.
    Branch(u16),
    /// Puts a number of 64 bits on top.
    LdU64(u64),
    /// Puts a constant on top.
    LdConst(u16),
    /// Puts true on top.
    LdTrue,
    /// Puts false on top.
    LdFalse,
    /// Puts a copy of a local's value on top.
    CopyLoc(u16),
    /// Takes the value out of a local.
    MoveLoc(u16),
    /// Puts the topmost operand into a local.
    StLoc(u16),
    /// Makes a mutable reference to a local.
    MutBorrowLoc(u16),
    /// Makes an immutable reference to a local.
    ImmBorrowLoc(u16),
    /// Makes a mutable reference to a field of a mutable reference, by a field handle.
    MutBorrowField(u16),
    /// Makes an immutable reference to a field of a reference, by a field handle.
    ImmBorrowField(u16),
    /// Calls a function, by its handle.
    Call(u16),
    /// Makes a struct value of its fields, by a struct definition.
    Pack(u16),
    /// Takes a struct value apart into its fields, by a struct definition.
    Unpack(u16),
    /// Puts a copy of what a reference leads to in its place.
    ReadRef,
    /// Writes through the topmost operand, a mutable reference.
    WriteRef,
    /// Adds.
    Add,
    /// Subtracts.
    Sub,
    /// Multiplies.
    Mul,
    /// The remainder of a division.
    Mod,
    /// Divides.
    Div,
    /// The bits that either has.
    BitOr,
    /// The bits that both have.
    BitAnd,
    /// The bits that exactly one of them has.
    Xor,
    /// Whether either is true.
    Or,
    /// Whether both are true.
    And,
    /// Whether it is false.
    Not,
    /// Whether two values are equal.
    Eq,
    /// Whether two values differ.
    Neq,
    /// Whether the lower operand is less.
    Lt,
    /// Whether the lower operand is greater.
    Gt,
    /// Whether the lower operand is not greater.
    Le,
    /// Whether the lower operand is not less.
    Ge,
    /// Aborts the run with the topmost operand as its code.
    Abort,
    /// Does nothing.
    Nop,
    /// Whether a struct definition's value is stored at an address.
    Exists(u16),
    /// Makes a mutable reference to a stored value, by a struct definition.
    MutBorrowGlobal(u16),
    /// Makes an immutable reference to a stored value, by a struct definition.
    ImmBorrowGlobal(u16),
    /// Takes a stored value out of the storage, by a struct definition.
    MoveFrom(u16),
    /// Stores a struct value at a signer's address, by a struct definition.
    MoveTo(u16),
    /// Makes a mutable reference an immutable one.
    FreezeRef,
    /// Shifts to the left.
    Shl,
    /// Shifts to the right.
    Shr,
    /// Puts a number of 8 bits on top.
    LdU8(u8),
    /// Puts a number of 128 bits on top.
    LdU128(u128),
    /// The same number in 8 bits.
    CastU8,
    /// The same number in 64 bits.
    CastU64,
    /// The same number in 128 bits.
    CastU128,
    /// Puts a number of 16 bits on top; from version 6 on.
    LdU16(u16),
    /// Puts a number of 32 bits on top; from version 6 on.
    LdU32(u32),
    /// The same number in 16 bits; from version 6 on.
    CastU16,
    /// The same number in 32 bits; from version 6 on.
    CastU32,
}

/// What an instruction names or holds, and what stands after its opcode.
#[derive(Clone, Copy, PartialEq, Eq, Debug)]
pub enum Immediate {
    /// Nothing.
    Nothing,
    /// One of the function's locals, parameters first.
    Local(u16),
    /// A struct definition.
    Struct(u16),
    /// A field handle.
    Field(u16),
    /// A function handle.
    Function(u16),
    /// A constant.
    Constant(u16),
    /// The place of an instruction in the code.
    Target(u16),
    /// A number of this width.
    Literal(Width, u128),
}

/// How control leaves an instruction, unless the run ends there.
#[derive(Clone, Copy, PartialEq, Eq, Debug)]
pub enum Exit {
    /// To the next instruction.
    Next,
    /// To a target or to the next instruction.
    Fork(u16),
    /// To a target.
    Jump(u16),
    /// Out of the function.
    Leave,
}

impl Instruction {
    /// What the instruction names or holds.
    pub fn immediate(self) -> Immediate
        ensures { result ≡ immediate_of self }
    {
        match self {
            Instruction::BrTrue(target)
            | Instruction::BrFalse(target)
            | Instruction::Branch(target) => Immediate::Target(target),
            Instruction::LdConst(constant) => Immediate::Constant(constant),
            Instruction::CopyLoc(local)
            | Instruction::MoveLoc(local)
            | Instruction::StLoc(local)
            | Instruction::MutBorrowLoc(local)
            | Instruction::ImmBorrowLoc(local) => Immediate::Local(local),
            Instruction::MutBorrowField(field) | Instruction::ImmBorrowField(field) =>
                Immediate::Field(field),
            Instruction::Call(function) => Immediate::Function(function),
            Instruction::Pack(definition)
            | Instruction::Unpack(definition)
            | Instruction::Exists(definition)
            | Instruction::MutBorrowGlobal(definition)
            | Instruction::ImmBorrowGlobal(definition)
            | Instruction::MoveFrom(definition)
            | Instruction::MoveTo(definition) => Immediate::Struct(definition),
            Instruction::LdU8(number) => Immediate::Literal(Width::U8, u128::from(number)),
            Instruction::LdU16(number) => Immediate::Literal(Width::U16, u128::from(number)),
            Instruction::LdU32(number) => Immediate::Literal(Width::U32, u128::from(number)),
            Instruction::LdU64(number) => Immediate::Literal(Width::U64, u128::from(number)),
            Instruction::LdU128(number) => Immediate::Literal(Width::U128, number),
            _ => Immediate::Nothing,
        }
    }

    /// How control leaves the instruction.
    #[inline(always)]
    pub fn exit(self) -> Exit
        ensures { result ≡ exit_of self }
    {
        match self {
            Instruction::BrTrue(target) | Instruction::BrFalse(target) => Exit::Fork(target),
            Instruction::Branch(target) => Exit::Jump(target),
            Instruction::Ret | Instruction::Abort => Exit::Leave,
            _ => Exit::Next,
        }
    }

    /// The instruction's opcode.
    pub fn opcode(self) -> u8
        ensures { result ≡ code_of self }
    {
        match self {
            Instruction::Pop => 0x01,
            Instruction::Ret => 0x02,
            Instruction::BrTrue(_) => 0x03,
            Instruction::BrFalse(_) => 0x04,
            Instruction::Branch(_) => 0x05,
            Instruction::LdU64(_) => 0x06,
            Instruction::LdConst(_) => 0x07,
            Instruction::LdTrue => 0x08,
            Instruction::LdFalse => 0x09,
            Instruction::CopyLoc(_) => 0x0A,
            Instruction::MoveLoc(_) => 0x0B,
            Instruction::StLoc(_) => 0x0C,
            Instruction::MutBorrowLoc(_) => 0x0D,
            Instruction::ImmBorrowLoc(_) => 0x0E,
            Instruction::MutBorrowField(_) => 0x0F,
            Instruction::ImmBorrowField(_) => 0x10,
            Instruction::Call(_) => 0x11,
            Instruction::Pack(_) => 0x12,
            Instruction::Unpack(_) => 0x13,
            Instruction::ReadRef => 0x14,
            Instruction::WriteRef => 0x15,
            Instruction::Add => 0x16,
            Instruction::Sub => 0x17,
            Instruction::Mul => 0x18,
            Instruction::Mod => 0x19,
            Instruction::Div => 0x1A,
            Instruction::BitOr => 0x1B,
            Instruction::BitAnd => 0x1C,
            Instruction::Xor => 0x1D,
            Instruction::Or => 0x1E,
            Instruction::And => 0x1F,
            Instruction::Not => 0x20,
            Instruction::Eq => 0x21,
            Instruction::Neq => 0x22,
            Instruction::Lt => 0x23,
            Instruction::Gt => 0x24,
            Instruction::Le => 0x25,
            Instruction::Ge => 0x26,
            Instruction::Abort => 0x27,
            Instruction::Nop => 0x28,
            Instruction::Exists(_) => 0x29,
            Instruction::MutBorrowGlobal(_) => 0x2A,
            Instruction::ImmBorrowGlobal(_) => 0x2B,
            Instruction::MoveFrom(_) => 0x2C,
            Instruction::MoveTo(_) => 0x2D,
            Instruction::FreezeRef => 0x2E,
            Instruction::Shl => 0x2F,
            Instruction::Shr => 0x30,
            Instruction::LdU8(_) => 0x31,
            Instruction::LdU128(_) => 0x32,
            Instruction::CastU8 => 0x33,
            Instruction::CastU64 => 0x34,
            Instruction::CastU128 => 0x35,
            Instruction::LdU16(_) => 0x48,
            Instruction::LdU32(_) => 0x49,
            Instruction::CastU16 => 0x4B,
            Instruction::CastU32 => 0x4C,
        }
    }
}
