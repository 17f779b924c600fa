// What a report has yet to tell.
ghost use Rattle.std.specs.Prelude.{◌≡◌, ◌==◌, ◌∷◌, [], drop, length, MatchOption};

use crate::source::{Entry, Told};
use std::marker::Model;

/// The entries that are not told yet, of which the next one is at hand. Its model is the list of them.
#[derive(Drop)]
pub struct Ahead<'a> {
    first: Option<Entry<'a>>,
    rest: Told<'a>,
}

impl<'a> Model for Ahead<'a> {
    ghost use Rattle.std.specs.Prelude.{◌≡◌, List, [], None};
    ghost use Rattle.mv_lines.specs.Sources.{Item, items_in, with_first};

    ghost Value = { List Item };

    ghost view = { λ a. with_first a.first (items_in a.rest) };

    ghost invariant = { λ a. a.first ≡ None → items_in a.rest ≡ [] };
}

impl<'a> Ahead<'a> {
    ghost use Rattle.mv_lines.specs.Sources.{item_of, items_in};

    /// All of these.
    pub fn new(mut told: Told<'a>) -> Self
        ensures { result ≡ items_in told.entry }
    {
        let first = told.next();
        Ahead { first, rest: told }
    }

    /// The next one, which stays.
    pub fn first(&self) -> Option<Entry<'a>>
        ensures { MatchOption result (self.now ≡ []) (λ e. self.now ≡ item_of e ∷ drop 1 self.now) }
    {
        self.first
    }

    /// Leaves the next one out.
    pub fn skip(&mut self)
        ensures { self.new ≡ drop 1 self.old }
    {
        self.first = self.rest.next();
    }

    /// Whether there is none.
    pub fn is_empty(&self) -> bool
        ensures { result ≡ (length self.now == 0) }
    {
        self.first.is_none()
    }
}
