// The types on the stack before each instruction of a function.
ghost use Rattle.std.specs.Prelude.{◌≡◌, ◌<◌, ◌++◌, ◌∷◌, [], Some, length, reverse, slice_get, take, IfOk, OnOk, OnErr};
ghost use Rattle.mv_type_rules.specs.Tops.{tops_of};

use mv_move_types::Token;
use std::alloc::{AllocError, Global};
use std::marker::Model;

/// A part of a list: from one place up to another.
#[derive(Clone, Copy)]
struct Part {
    start: usize,
    end: usize,
}

/// The types of the whole stack before each instruction of a function: its model is a list for each, the topmost type first.
#[derive(Drop)]
pub struct StackTypes {
    tokens: Vec<Token>,
    parts: Vec<Part>,
}

impl Model for StackTypes {
    ghost use Rattle.std.specs.Prelude.{List, length, All};
    ghost use Rattle.mv_type_rules.specs.TypeRules.{Types};
    ghost use Rattle.mv_type_rules.specs.Stacks.{types_of_each, IsWithin};

    ghost Value = { List Types };

    ghost view = { λ s. types_of_each s.tokens.items s.parts.items };

    ghost invariant = { λ s. All (IsWithin (length s.tokens.items)) s.parts.items };
}

impl StackTypes {
    /// No stack yet, with room for those of so many instructions, and for two types in each.
    pub fn with_room(alloc: Global, instructions: usize) -> Result<Self, AllocError>
        ensures { IfOk result (λ s. s ≡ []) }
    {
        Ok(StackTypes {
            tokens: Vec::with_capacity(alloc, instructions.saturating_mul(2))?,
            parts: Vec::with_capacity(alloc, instructions)?,
        })
    }

    /// Adds a stack, whose last type is the topmost.
    #[inline(always)]
    pub fn add(&mut self, stack: &[Token]) -> Result<(), AllocError>
        ensures { OnOk result (self.new ≡ self.old ++ reverse stack.now ∷ []) }
    {
        let start = self.tokens.len();
        append(&mut self.tokens, stack)?;
        let end = self.tokens.len();
        self.parts.push(Part { start, end })?;
        Ok(())
    }

    /// Whether two types a stack are much less than all: there are more than four a stack.
    fn is_high(&self) -> bool {
        self.tokens.len() / 4 > self.parts.len()
    }

    /// The two topmost types of each stack.
    fn tops(&self, alloc: Global) -> Result<Self, AllocError>
        ensures { IfOk result (λ t. t ≡ tops_of self.now) }
    {
        let mut tops = StackTypes::with_room(alloc, self.len())?;
        for at in 0..self.len() {
            let stack = self.before(at);
            tops.add(topmost(stack))?;
        }
        Ok(tops)
    }

    /// The two topmost types of each stack where they are much less, and all types elsewhere, since a copy has its cost.
    pub(crate) fn into_tops(self, alloc: Global) -> Result<Self, AllocError>
        ensures { IfOk result (λ t. tops_of t ≡ tops_of self) }
    {
        if self.is_high() {
            self.tops(alloc)
        } else {
            Ok(self)
        }
    }

    /// How many stacks there are, one for each instruction.
    pub fn len(&self) -> usize
        ensures { result ≡ length self.now }
    {
        self.parts.len()
    }

    /// The types before the instruction at a place, the last of them topmost.
    pub fn before(&self, at: usize) -> &[Token]
        requires { at < length self.now }
        ensures { slice_get self.now at ≡ Some (reverse result.now) }
    {
        let part = self.parts[at];
        &self.tokens[part.start..part.end]
    }
}

/// Appends a stack to a list of types, which stays as it was where an allocation failed. Most stacks have one type at most, and no
/// call is made for them.
#[inline(always)]
fn append(tokens: &mut Vec<Token>, stack: &[Token]) -> Result<(), AllocError>
    ensures ok { OnOk result (tokens.new.items ≡ tokens.old.items ++ stack.now) }
    ensures failed { OnErr result (tokens.new.items ≡ tokens.old.items) }
{
    match stack {
        [] => Ok(()),
        [only] => Ok(tokens.push(*only)?),
        _ => append_many(tokens, stack),
    }
}

/// The same for a stack of any size.
#[inline(never)]
fn append_many(tokens: &mut Vec<Token>, stack: &[Token]) -> Result<(), AllocError>
    ensures ok { OnOk result (tokens.new.items ≡ tokens.old.items ++ stack.now) }
    ensures failed { OnErr result (tokens.new.items ≡ tokens.old.items) }
{
    tokens.extend_from_slice(stack)
}

/// The two topmost types of a stack, or as many as it has.
fn topmost(stack: &[Token]) -> &[Token]
    ensures { reverse result.now ≡ take 2 (reverse stack.now) }
{
    &stack[stack.len().saturating_sub(2)..]
}
