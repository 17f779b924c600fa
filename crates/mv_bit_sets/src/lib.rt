//! Sets of numbers below 65,536, as bits: a word has 64 of them.
//!
//! ```
//! use mv_bit_sets::BitSet;
//! use std::alloc::{AllocError, Global};
//!
//! /// Whether 7 is in a set that it was put into: it is.
//! fn example(alloc: Global) -> Result<bool, AllocError> {
//!     let mut set = BitSet::new(alloc);
//!     set.insert(7)?;
//!     Ok(set.contains(7))
//! }
//! ```
#![tactic(auto)]

ghost use Rattle.std.specs.Prelude.{◌≡◌, ◌↔◌, ◌+◌, ◌/◌, ◌<◌, ◌≤◌, ◌==◌, ◌||◌, max, ℕ, true, [], length, slice_index, All, Contains, IfOk, OnOk, MatchOption};
ghost use Rattle.std.specs.Bool.{Decides};
ghost use Rattle.std.specs.Int.{bit_at};
ghost use Rattle.mv_bit_sets.specs.BitSets.{has, AreBitsWithin, IsBitFrom, IsBitOutside, IsOutside, IsWithin};

use std::alloc::{AllocError, Global};
use std::marker::Model;

/// A set of numbers: 512 bytes at most for numbers below 4,096. Its model is its words.
#[derive(Drop)]
pub struct BitSet {
    words: Vec<u64>,
}

impl Model for BitSet {
    ghost use Rattle.std.specs.Prelude.{ℕ, List, ◌≤◌, length};

    ghost Value = { List ℕ };

    ghost view = { λ p. p.words.items };

    ghost invariant = { λ p. length p.words.items ≤ 1024 };
}

/// A bit of a word.
fn has_bit(word: u64, bit: usize) -> bool
    requires { bit < 64 }
    ensures { result ≡ (bit_at word bit == 1) }
{
    (word >> bit) & 1 == 1
}

impl BitSet {
    /// The empty set.
    pub fn new(alloc: Global) -> Self
        ensures { result ≡ [] }
    {
        BitSet {
            words: Vec::new(alloc),
        }
    }

    /// Whether a number is in the set.
    pub fn contains(&self, number: usize) -> bool
        ensures { result ≡ has self.now number }
    {
        match self.words.get(number / 64) {
            Some(word) => has_bit(*word, number % 64),
            None => false,
        }
    }

    /// The same set in so many words at least.
    fn grow(&mut self, words: usize) -> Result<(), AllocError>
        requires { words ≤ 1024 }
        ensures same { (p : ℕ) → has self.new p ≡ has self.old p }
        ensures long { OnOk result (words ≤ length self.new) }
        ensures short { length self.new ≤ max (length self.old) words }
    {
        while self.words.len() < words {
            self.words.push(0)?;
        }
        Ok(())
    }

    /// The set of these numbers, no longer than the greatest of them needs.
    ///
    /// # Errors
    ///
    /// If an allocation failed.
    pub fn of(alloc: Global, numbers: &[usize]) -> Result<Self, AllocError>
        requires { All (λ p. p < 65536) numbers.now }
        ensures members { IfOk result (λ s. (p : ℕ) → (has s p ≡ true) ↔ Contains numbers.now p) }
        ensures short { IfOk result (λ s. (words : ℕ) → All (λ p. p / 64 < words) numbers.now → length s ≤ words) }
    {
        let words = match numbers.iter().max() {
            Some(last) => *last / 64 + 1,
            None => 0,
        };
        let mut set = BitSet {
            words: Vec::with_capacity(alloc, words)?,
        };
        for number in numbers {
            set.insert(*number)?;
        }
        Ok(set)
    }

    /// Adds a number.
    ///
    /// # Errors
    ///
    /// If an allocation failed.
    pub fn insert(&mut self, number: usize) -> Result<(), AllocError>
        requires { number < 65536 }
        ensures members { OnOk result ((p : ℕ) → has self.new p ≡ (p == number || has self.old p)) }
        ensures short { OnOk result (length self.new ≤ max (length self.old) (number / 64 + 1)) }
    {
        self.grow(number / 64 + 1)?;
        self.words[number / 64] = self.words[number / 64] | (1 << (number % 64));
        Ok(())
    }

    /// A word, of which there may be fewer.
    fn word(&self, i: usize) -> u64
        ensures { result ≡ slice_index self.now i }
    {
        match self.words.get(i) {
            Some(word) => *word,
            None => 0,
        }
    }

    /// The part of a word that stands for the numbers from one on.
    fn word_from(&self, i: usize, from: usize) -> u64
        requires { from / 64 ≤ i }
        ensures { (bit : ℕ) → bit < 64 → (bit_at result bit ≡ 1) ↔ IsBitFrom self.now i from bit }
    {
        let word = self.word(i);
        if i == from / 64 {
            word & !((1 << (from % 64)) - 1)
        } else {
            word
        }
    }

    /// A number from `from` on that is in this set and not in the other.
    pub fn outside(&self, from: usize, other: &BitSet) -> Option<usize>
        ensures { MatchOption result (IsWithin from self.now other.now) (IsOutside from self.now other.now) }
    {
        for i in from / 64..self.words.len() {
            if let Some(bit) = first_left(self.word_from(i, from), other.word(i)) {
                return Some(64 * i + bit);
            }
        }
        None
    }

    /// Whether each number of this set is in the other.
    pub fn is_within(&self, other: &BitSet) -> bool
        ensures { Decides result (IsWithin 0 self.now other.now) }
    {
        self.outside(0, other).is_none()
    }

    /// The same set in memory of its own.
    ///
    /// # Errors
    ///
    /// If an allocation failed.
    pub fn copied(&self, alloc: Global) -> Result<Self, AllocError>
        ensures { IfOk result (λ p. p ≡ self.now) }
    {
        let words = Vec::from_slice(alloc, &self.words)?;
        Ok(BitSet { words })
    }
}

/// A bit of a word that another one hasn't.
fn first_left(word: u64, others: u64) -> Option<usize>
    ensures { MatchOption result (AreBitsWithin word others) (IsBitOutside word others) }
{
    let left = word & !others;
    if left == 0 {
        return None;
    }
    Some(left.trailing_zeros() as usize)
}
