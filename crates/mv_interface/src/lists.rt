// Lists that are kept as one.
ghost use Rattle.std.specs.Prelude.{◌≡◌, ◌∷◌, ◌+◌, ◌++◌, ◌<◌, ◌≤◌, [], length, option_map, slice_get, vec_len, IfOk, OnOk};
ghost use Rattle.std.specs.Vec.{vec_capacity};

use std::alloc::{AllocError, Global};
use std::marker::Model;

/// Where a list stands among the elements of all: its first element, and the one after its last.
#[derive(Clone, Copy)]
pub struct Span {
    first: u32,
    last: u32,
}

/// Lists whose elements stand in one list, one after the other, so that they take two blocks of memory however many they are. The
/// model is the list of them.
#[derive(Drop)]
pub struct Lists<T> {
    all: Vec<T>,
    spans: Vec<Span>,
}

impl<T> Model for Lists<T> {
    ghost use Rattle.std.specs.Prelude.{◌≤◌, ◌*◌, List, map, length, IsTrue};
    ghost use Rattle.std.specs.List.{list_all};
    ghost use Rattle.mv_interface.specs.Spans.{is_span_in, spanned};

    ghost Value = { List (List T) };

    ghost view = { λ l. map (spanned l.all.items) l.spans.items };

    ghost invariant = { λ l. IsTrue (list_all (is_span_in l.all.items) l.spans.items) × length l.all.items ≤ 128 * length l.spans.items };
}

/// Puts elements at the end; there is room for them.
fn put_all<T: Copy>(all: &mut Vec<T>, more: &[T])
    requires { vec_len all.old + length more.now ≤ vec_capacity all.old }
    ensures items { all.new.items ≡ all.old.items ++ more.now }
    ensures len { vec_len all.new ≡ vec_len all.old + length more.now }
{
    for x in more {
        all.push_reserved(*x);
    }
}

impl<T: Copy> Lists<T> {
    /// No lists.
    pub fn new(alloc: Global) -> Self
        ensures { result ≡ [] }
    {
        Lists {
            all: Vec::new(alloc),
            spans: Vec::new(alloc),
        }
    }

    /// No lists, with room for `lists` lists of `elements` elements in all.
    ///
    /// # Errors
    ///
    /// If an allocation failed.
    pub fn with_capacity(alloc: Global, lists: usize, elements: usize) -> Result<Self, AllocError>
        ensures { IfOk result (λ l. l ≡ []) }
    {
        Ok(Lists {
            all: Vec::with_capacity(alloc, elements)?,
            spans: Vec::with_capacity(alloc, lists)?,
        })
    }

    /// How many there are.
    pub fn len(&self) -> usize
        ensures { result ≡ length self.now }
    {
        self.spans.len()
    }

    /// The list at an index, if it is there.
    pub fn get(&self, index: usize) -> Option<&[T]>
        ensures { option_map (λ l. l.now) result ≡ slice_get self.now index }
    {
        let span = self.spans.get(index)?;
        Some(&self.all[span.first as usize..span.last as usize])
    }

    /// Appends a list of at most 128 elements.
    ///
    /// # Errors
    ///
    /// If an allocation failed. Nothing is appended then.
    pub fn push(&mut self, one: &[T]) -> Result<(), AllocError>
        requires few { length self.old < 65536 }
        requires short { length one.now ≤ 128 }
        ensures { OnOk result (self.new ≡ self.old ++ one.now ∷ []) }
    {
        self.all.reserve(one.len())?;
        self.spans.reserve(1)?;
        let first = self.all.len() as u32;
        put_all(&mut self.all, one);
        let last = self.all.len() as u32;
        self.spans.push_reserved(Span { first, last });
        Ok(())
    }

    /// The same lists in memory of their own.
    ///
    /// # Errors
    ///
    /// If an allocation failed.
    pub fn copied(&self, alloc: Global) -> Result<Self, AllocError>
        ensures { IfOk result (λ l. l ≡ self.now) }
    {
        let all = Vec::from_slice(alloc, &self.all)?;
        let spans = Vec::from_slice(alloc, &self.spans)?;
        Ok(Lists { all, spans })
    }
}
