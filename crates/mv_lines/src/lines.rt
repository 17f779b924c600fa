// The lines of a show and of an audit, whole or in pieces.
ghost use Rattle.std.specs.Prelude.{◌≡◌, ◌∷◌, [], ◌<◌, ◌^◌, cond, false, true, length, map, IfOk, IfSome, IsUtf8, OnErr, MatchOption, string_bytes};
ghost use Rattle.mv_link_rules.specs.Link.{tables_in};
ghost use Rattle.mv_machine.specs.Flat.{storage_of};
ghost use Rattle.mv_machine.specs.Ledger.{AsJson, AsText};
ghost use Rattle.mv_machine.specs.Lines.{show_json, show_lines};
ghost use Rattle.mv_lines.specs.Auditing.{audit_from, counts_json};
ghost use Rattle.mv_lines.specs.LinesView.{ended};
ghost use Rattle.mv_lines.specs.Pieces.{TakesPiece};
ghost use Rattle.mv_machine.specs.Tallies.{all_of, lists_of, tallied};

use crate::ahead::Ahead;
use crate::audit::Tallies;
use crate::changed::Side;
use crate::pieces::Piece;
use crate::source::{Source, Told};
use crate::walk::{AUDIT, SHOW, Walk};
use mv_linker::Store;
use mv_machine::Tally;
use mv_storage::{Changes, Entries, Page, Storage};
use std::alloc::{AllocError, Global};
use std::marker::Model;

/// The lines that a show or an audit has yet to give, without their number and line end. They come piece by piece, and each
/// piece is made when it is asked for: a line of text is one piece, and a line of JSON is its opening, one piece for each entry,
/// and its end. Some pieces of the first line may have been given already. The model has the format, and what is left.
#[derive(Drop)]
pub struct Lines<'a> {
    alloc: Global,
    left: Walk<'a>,
}

impl<'a> Model for Lines<'a> {
    ghost use Rattle.mv_lines.specs.LinesView.{LinesView};
    ghost use Rattle.mv_lines.specs.Left.{lines_left};

    ghost Value = { LinesView };

    ghost view = { λ l. lines_left l.left };
}

impl<'a> Lines<'a> {
    ghost use Rattle.mv_lines.specs.Changed.{values_of};
    ghost use Rattle.mv_lines.specs.Left.{lines_from};
    ghost use Rattle.mv_lines.specs.Sources.{items_in, values_in};

    /// The lines of a show of all that is stored.
    pub fn of_storage(alloc: Global, store: &'a Store, storage: &'a Storage) -> Self
        ensures { result ≡ record { format = AsText; left = show_lines (tables_in store.entry.now) (storage_of (tables_in store.entry.now) storage.entry.now.committed) } }
    {
        Lines::of_entries(alloc, store, storage.iter())
    }

    /// The lines of a show, if these values were all that is stored.
    pub fn of_entries(alloc: Global, store: &'a Store, entries: Entries<'a>) -> Self
        requires { length entries < 2 ^ 63 }
        ensures { result ≡ record { format = AsText; left = show_lines (tables_in store.entry.now) (storage_of (tables_in store.entry.now) entries.entry) } }
    {
        Lines::of_source(alloc, store, Source::Range(entries))
    }

    /// The same of the values of a page.
    pub fn of_page(alloc: Global, store: &'a Store, page: Page<'a>) -> Self
        requires { length page.values < 2 ^ 63 }
        ensures { result ≡ record { format = AsText; left = show_lines (tables_in store.entry.now) (storage_of (tables_in store.entry.now) page.entry.values) } }
    {
        Lines::of_source(alloc, store, Source::Page(page))
    }

    /// The lines of an audit by these tallies, which stand module by module as the store's modules do.
    #[tactic(auto, using(crate::proofs::Shows::Pieces::counted))]
    pub fn of_tallies(alloc: Global, store: &'a Store, tallies: &'a [Vec<Tally>]) -> Self
        requires aligned { length tallies.now ≡ length store.now }
        requires few { length (all_of (lists_of tallies.now)) < 2 ^ 63 }
        ensures { result ≡ record { format = AsText; left = audit_from (map (tallied (tables_in store.entry.now)) (all_of (lists_of tallies.entry.now))) 0 } }
    {
        let told = Told::Counts(Tallies::new(tallies));
        Lines::of_told(alloc, store, told, false, &[])
    }

    /// The line of a show of all that is stored, as JSON.
    pub fn json_of_storage(alloc: Global, store: &'a Store, storage: &'a Storage) -> Self
        ensures { result ≡ record { format = AsJson; left = show_json (tables_in store.entry.now) (storage_of (tables_in store.entry.now) storage.entry.now.committed) ∷ [] } }
    {
        Lines::json_of_entries(alloc, store, storage.iter())
    }

    /// The line of a show, if these values were all that is stored, as JSON.
    pub fn json_of_entries(alloc: Global, store: &'a Store, entries: Entries<'a>) -> Self
        ensures { result ≡ record { format = AsJson; left = show_json (tables_in store.entry.now) (storage_of (tables_in store.entry.now) entries.entry) ∷ [] } }
    {
        Lines::json_of_source(alloc, store, Source::Range(entries))
    }

    /// The same of the values of a page, as JSON.
    pub fn json_of_page(alloc: Global, store: &'a Store, page: Page<'a>) -> Self
        ensures { result ≡ record { format = AsJson; left = show_json (tables_in store.entry.now) (storage_of (tables_in store.entry.now) page.entry.values) ∷ [] } }
    {
        Lines::json_of_source(alloc, store, Source::Page(page))
    }

    /// The line of a show, as JSON, if these values were all that is stored: those that changed keys had before, or those that they
    /// have now.
    pub fn json_of_changes(
        alloc: Global,
        store: &'a Store,
        changes: Changes<'a>,
        side: Side,
    ) -> Self
        ensures { result ≡ record { format = AsJson; left = show_json (tables_in store.entry.now) (storage_of (tables_in store.entry.now) (values_of side changes.entry)) ∷ [] } }
    {
        Lines::json_of_source(alloc, store, Source::of_changes(changes, side))
    }

    /// The line of an audit by these tallies, which stand module by module as the store's modules do, as JSON.
    #[tactic(auto, using(crate::proofs::Shows::Pieces::counted_json))]
    pub fn json_of_tallies(alloc: Global, store: &'a Store, tallies: &'a [Vec<Tally>]) -> Self
        requires { length tallies.now ≡ length store.now }
        ensures { result ≡ record { format = AsJson; left = counts_json (map (tallied (tables_in store.entry.now)) (all_of (lists_of tallies.entry.now))) ∷ [] } }
    {
        let told = Told::Counts(Tallies::new(tallies));
        Lines::of_told(alloc, store, told, true, AUDIT)
    }

    // The lines of a show of these values.
    #[tactic(auto, using(crate::proofs::Shows::Pieces::shown))]
    fn of_source(alloc: Global, store: &'a Store, source: Source<'a>) -> Self
        requires { length (values_in source) < 2 ^ 63 }
        ensures { result ≡ record { format = AsText; left = show_lines (tables_in store.entry.now) (storage_of (tables_in store.entry.now) (values_in source.entry)) } }
    {
        Lines::of_told(alloc, store, Told::Values(source), false, &[])
    }

    // The line of a show of these values, as JSON.
    #[tactic(auto, using(crate::proofs::Shows::Pieces::shown_json))]
    fn json_of_source(alloc: Global, store: &'a Store, source: Source<'a>) -> Self
        ensures { result ≡ record { format = AsJson; left = show_json (tables_in store.entry.now) (storage_of (tables_in store.entry.now) (values_in source.entry)) ∷ [] } }
    {
        Lines::of_told(alloc, store, Told::Values(source), true, SHOW)
    }

    // The lines of a report of these, or its line of JSON, which begins so.
    fn of_told(
        alloc: Global,
        store: &'a Store,
        told: Told<'a>,
        is_json: bool,
        opening: &'static [u8],
    ) -> Self
        requires few { is_json ≡ false → length (items_in told) < 2 ^ 63 }
        requires no_opening { is_json ≡ false → opening.now ≡ [] }
        ensures { result ≡ record { format = cond is_json AsJson AsText; left = lines_from is_json (tables_in store.entry.now) opening.now 0 (items_in told.entry) } }
    {
        Lines {
            alloc,
            left: Walk {
                store,
                entries: Ahead::new(told),
                is_json,
                opening,
                told: 0,
                is_ended: false,
                room: Vec::new(alloc),
            },
        }
    }

    /// The next piece of the first line; None once all lines have been given.
    ///
    /// # Errors
    ///
    /// If an allocation failed. The same lines are left then.
    pub fn next_piece(&mut self) -> Result<Option<Piece>, AllocError>
        ensures piece { IfOk result (λ piece. MatchOption piece ((self.old.left ≡ []) × (self.new.left ≡ []))
            (λ p. TakesPiece p.is_last p.text.items self.old.left self.new.left)) }
        // A line of text is one piece.
        ensures whole { self.old.format ≡ AsText → IfOk result (λ piece. IfSome piece (λ p. p.is_last ≡ true)) }
        ensures format { self.new.format ≡ self.old.format }
        ensures kept { OnErr result (self.new ≡ self.old) }
    {
        self.left.next(self.alloc)
    }

    /// All lines as one text, each with its line end.
    ///
    /// # Errors
    ///
    /// If an allocation failed.
    pub fn into_text(mut self) -> Result<String, AllocError>
        requires { IsUtf8 (ended self.left) }
        ensures { IfOk result (λ text. string_bytes text ≡ ended self.entry.left) }
    {
        let mut text = Vec::new(self.alloc);
        'each: while let Some(piece) = self.next_piece()? {
            piece.put(&mut text)?;
        }
        match String::from_utf8(text) {
            Ok(text) => Ok(text),
            Err(_) => unreachable!(),
        }
    }
}
