// Sets of struct definitions and of function handles.
ghost use Rattle.std.specs.Prelude.{◌≡◌, ℕ, ◌==◌, ◌||◌, OnOk, IfOk};
ghost use Rattle.std.specs.Bool.{Decides};
ghost use Rattle.mv_bit_sets.specs.BitSets.{has, IsWithin};
ghost use Rattle.mv_acquires.specs.Acquires.{has_member};

use mv_bit_sets::BitSet;
use std::alloc::{AllocError, Global};

/// Marks a number.
#[tactic(auto, using(crate::proofs::Marking::marked))]
pub fn mark(marks: &mut BitSet, number: u16) -> Result<(), AllocError>
    ensures { OnOk result ((y : ℕ) → has marks.new y ≡ (has marks.old y || number == y)) }
{
    marks.insert(usize::from(number))
}

/// Marks each of these numbers.
pub fn mark_all(marks: &mut BitSet, numbers: &[u16]) -> Result<(), AllocError>
    ensures { OnOk result ((y : ℕ) → has marks.new y ≡ (has marks.old y || has_member numbers.now y)) }
{
    for number in numbers {
        mark(marks, *number)?;
    }
    Ok(())
}

/// Marks of exactly these numbers.
pub fn marks_of(alloc: Global, numbers: &[u16]) -> Result<BitSet, AllocError>
    ensures { IfOk result (λ v. (y : ℕ) → has v y ≡ has_member numbers.now y) }
{
    let mut marks = BitSet::new(alloc);
    mark_all(&mut marks, numbers)?;
    Ok(marks)
}

/// Whether the number is marked.
pub fn is_member(marks: &BitSet, number: u16) -> bool
    ensures { result ≡ has marks.now number }
{
    marks.contains(usize::from(number))
}

/// Whether the same numbers are marked in both.
pub fn are_same(marks: &BitSet, others: &BitSet) -> bool
    ensures { Decides result (IsWithin 0 marks.now others.now × IsWithin 0 others.now marks.now) }
{
    marks.is_within(others) && others.is_within(marks)
}
