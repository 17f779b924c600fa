// The instructions of a function, read one by one from the module's bytes.
ghost use Rattle.std.specs.Prelude.{◌<◌, ◌≡◌, length, slice_get, IfOk, IfSome};
ghost use Rattle.std.specs.Iterator.{YieldsFirst, item_count};
ghost use Rattle.mv_move_types.specs.Limits.{most_instructions};
ghost use Rattle.mv_move_types.specs.Versions.{version_number};
ghost use Rattle.mv_module_text.specs.Parsing.{counted_from, instruction_from};
ghost use Rattle.mv_module_text.specs.Reads.{Reads};

use super::Module;
use mv_module_text::Reader;
use mv_move_types::limits::MOST_INSTRUCTIONS;
use mv_move_types::{Instruction, Refusal, Version};
use std::alloc::{AllocError, Global};
use std::marker::Model;

/// The instructions of a function that are still to come, in order. Each is read from the module's bytes as it comes. Its model
/// is their list.
#[derive(Drop)]
pub struct Cursor<'a> {
    reader: Reader<'a>,
    version: Version,
    left: usize,
}

impl<'a> Model for Cursor<'a> {
    ghost use Rattle.std.specs.Prelude.{List, IsTrue};
    ghost use Rattle.mv_move_types.specs.Versions.{version_number};
    ghost use Rattle.mv_move_types.specs.declared.instruction.Instruction.{Instruction as Operation};
    ghost use Rattle.mv_binary_format.specs.Code.{instructions_in, instructions_stand};

    ghost Value = { List Operation };

    ghost view = { λ c. instructions_in (version_number c.version) c.left c.reader };

    ghost invariant = { λ c. IsTrue (instructions_stand (version_number c.version) c.left c.reader) };
}

impl<'a> Cursor<'a> {
    // Reads the code of a function: its instructions, as the version has them, after their number. None of them is kept.
    pub(crate) fn read(version: Version, reader: &mut Reader<'a>) -> Result<Self, Refusal>
        ensures { Reads (counted_from most_instructions (instruction_from (version_number version))) reader.old result reader.new }
    {
        let count = reader.number(MOST_INSTRUCTIONS)?;
        let first = reader.copied();
        'reading: for _ in 0..count {
            reader.instruction(version)?;
        }
        Ok(Cursor {
            reader: first,
            version,
            left: count as usize,
        })
    }

    // Another cursor over the same instructions.
    pub(crate) fn another(&self) -> Cursor<'a>
        ensures { result ≡ self.now }
    {
        Cursor {
            reader: self.reader.copied(),
            version: self.version,
            left: self.left,
        }
    }

    /// The instructions that are still to come, as a list.
    ///
    /// # Errors
    /// If an allocation failed.
    pub fn to_vec(self, alloc: Global) -> Result<Vec<Instruction>, AllocError>
        ensures { IfOk result (λ v. v.items ≡ self.entry) }
    {
        let mut instructions = Vec::with_capacity(alloc, self.left)?;
        for instruction in self {
            instructions.push_reserved(instruction);
        }
        Ok(instructions)
    }
}

impl<'a> Iterator for Cursor<'a> {
    type Item = Instruction;

    ghost next_gives = { YieldsFirst (λ left. left) };

    ghost remaining = { item_count (λ left. left) };

    #[inline]
    fn next(&mut self) -> Option<Instruction> {
        if self.left == 0 {
            return None;
        }
        self.left -= 1;
        match self.reader.instruction(self.version) {
            Ok(instruction) => Some(instruction),
            Err(_) => unreachable!(),
        }
    }
}

/// The instructions of the function that is defined at index `f`, in order.
pub fn code<'a>(m: &Module<'a>, f: usize) -> Cursor<'a>
    requires { f < length m.now.functions }
    ensures { IfSome (slice_get m.now.functions f) (λ d. result ≡ d.code) }
{
    m.functions()[f].code()
}
