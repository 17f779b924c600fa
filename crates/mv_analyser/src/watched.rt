// The steps of searches, which are counted and may be refused.
ghost use Rattle.std.specs.Prelude.{IsSome, IsTrue};
ghost use Rattle.mv_analyser.specs.Principal.{IsTold};

use crate::{LimitError, ProveError};
use mv_lattice::{Domain, StepError};
use std::alloc::{AllocError, Global};
use std::cell::Cell;
use std::marker::Model;

/// The steps of searches: whether their number is limited, how many may still be taken then, and whether one was refused.
#[derive(Drop)]
pub struct Steps {
    is_limited: bool,
    left: Cell<u64>,
    is_refused: Cell<bool>,
}

impl Model for Steps {
    ghost use Rattle.std.specs.Prelude.{Bool};

    ghost Value = { Bool };

    ghost view = { λ s. s.is_limited };
}

impl Steps {
    /// At most so many steps, or any number of them.
    pub fn new(limit: Option<u64>) -> Self
        ensures { IsTrue result → IsSome limit }
    {
        Steps {
            is_limited: limit.is_some(),
            left: Cell::new(limit.unwrap_or(0)),
            is_refused: Cell::new(false),
        }
    }

    /// Takes a step, and says whether there was one.
    fn take(&self) -> bool {
        if !self.is_limited {
            return true;
        }
        match self.left.get().checked_sub(1) {
            Some(left) => {
                self.left.set(left);
                true
            }
            None => {
                self.is_refused.set(true);
                false
            }
        }
    }

    /// What is said of a search's error: a search that was refused a step says that memory ran out.
    pub fn told(&self, why: ProveError) -> LimitError
        ensures { IsTold self.now why result }
    {
        match why {
            ProveError::Memory if self.is_limited && self.is_refused.get() => LimitError::TooLong,
            _ => LimitError::Unproved(why),
        }
    }
}

/// A domain whose steps are counted. Where none may be taken, it says that memory ran out.
#[derive(Drop)]
pub struct Watched<'d, D> {
    pub inner: &'d D,
    pub steps: &'d Steps,
}

impl<'d, D: Domain> Domain for Watched<'d, D> {
    type State = D::State;

    ghost order = { λ w. D.order w.inner.now };

    ghost laws = { λ w. D.laws w.inner.now };

    fn copy(&self, alloc: Global, s: &D::State) -> Result<D::State, AllocError> {
        self.inner.copy(alloc, s)
    }

    fn leq(&self, a: &D::State, b: &D::State) -> bool {
        self.inner.leq(a, b)
    }

    fn join(&self, alloc: Global, a: &D::State, b: &D::State) -> Result<D::State, AllocError> {
        self.inner.join(alloc, a, b)
    }

    /// The step of the domain, if one may be taken.
    #[inline(always)]
    fn step(&self, alloc: Global, s: D::State, at: usize) -> Result<D::State, StepError> {
        if !self.steps.take() {
            return Err(StepError::Memory);
        }
        self.inner.step(alloc, s, at)
    }

    fn fits(&self, s: &D::State) -> bool {
        self.inner.fits(s)
    }
}
