// The marks of open blocks.
ghost use Rattle.std.specs.Prelude.{◌≡◌, ◌++◌, ◌∷◌, [], ℕ, List, MatchOption, OnOk, OnErr, true};

use std::alloc::{AllocError, Global};
use std::marker::Model;

/// For each open block how many changes were noted when it was begun, the oldest block first. Its model is the list of them.
#[derive(Drop)]
pub struct Marks {
    counts: Vec<usize>,
}

impl Model for Marks {
    ghost use Rattle.std.specs.Prelude.{List, ℕ};

    ghost Value = { List ℕ };

    ghost view = { λ m. m.counts.items };
}

impl Marks {
    /// No open block.
    pub fn new(alloc: Global) -> Self
        ensures { result ≡ [] }
    {
        Marks {
            counts: Vec::new(alloc),
        }
    }

    /// Whether no block is open.
    #[inline]
    pub fn is_empty(&self) -> bool
        ensures empty { result ≡ true → self.now ≡ [] }
        ensures open { self.now ≡ [] → result ≡ true }
    {
        self.counts.is_empty()
    }

    /// Opens a block, before which so many changes were noted.
    ///
    /// # Errors
    ///
    /// If an allocation failed. Nothing has changed then.
    pub fn begin(&mut self, count: usize) -> Result<(), AllocError>
        ensures ok { OnOk result (self.new ≡ self.old ++ count ∷ []) }
        ensures err { OnErr result (self.new ≡ self.old) }
    {
        self.counts.push(count)?;
        Ok(())
    }

    /// Closes the newest block, if one is open, and tells its mark.
    pub fn end(&mut self) -> Option<usize>
        ensures { MatchOption result ((self.old ≡ []) × (self.new ≡ [])) (λ count. self.old ≡ self.new ++ count ∷ []) }
    {
        self.counts.pop()
    }

    /// The mark of the newest block, if one is open.
    pub fn newest(&self) -> Option<usize>
        ensures { MatchOption result (self.now ≡ []) (λ count. (older : List ℕ) × (self.now ≡ older ++ count ∷ [])) }
    {
        match self.counts.last() {
            Some(count) => Some(*count),
            None => None,
        }
    }
}
