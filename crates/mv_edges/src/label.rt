// Where one place lies below another: labels and their order.
ghost use Rattle.std.specs.Prelude.{◌≡◌, ◌≤◌, ◌&&◌, length, IsOk, IfOk};
ghost use Rattle.mv_edges.specs.Edges.{here, extended, opened, changed, agrees, label_leq};
ghost use Rattle.mv_edges.specs.Edges.{agrees_if, composed, is_here};

use super::path::Path;
use std::alloc::{AllocError, Global};
use std::marker::Model;

/// A list of field positions: exactly these or, if the label is open, these followed by any others.
///
/// A position fits a byte, since a struct has at most 32 fields (this project's own rule). Up to 8 positions lie in the label itself,
/// so that such a label is made, copied and changed with no allocation.
#[derive(Drop, Debug)]
pub struct Label {
    path: Path,
    is_open: bool,
}

impl Model for Label {
    ghost use Rattle.mv_edges.specs.Edges.{Label as LabelRecord};

    ghost Value = { LabelRecord };

    ghost view = { λ l. record { path = l.path; is_open = l.is_open } };
}

impl Label {
    /// The label of these positions.
    pub fn new(path: Vec<u8>, is_open: bool) -> Self
        ensures { result ≡ record { path = path.items; is_open = is_open } }
    {
        let path = Path::from_vec(path);
        Label { path, is_open }
    }

    /// The label of these positions, which are copied.
    pub fn from_slice(alloc: Global, path: &[u8], is_open: bool) -> Result<Self, AllocError>
        ensures value { IfOk result (λ l. l ≡ record { path = path.now; is_open = is_open }) }
        ensures succeeds { length path.now ≤ 8 → IsOk result }
    {
        let path = Path::from_slice(alloc, path)?;
        Ok(Label { path, is_open })
    }

    /// The label of the place itself: no position, exact.
    pub fn here(_alloc: Global) -> Self
        ensures { result ≡ here }
    {
        Label::itself()
    }

    /// The same, with no allocator.
    pub fn itself() -> Self
        ensures { result ≡ here }
    {
        let path = Path::new();
        let is_open = false;
        Label { path, is_open }
    }

    /// The label of the place itself and of anything below it.
    pub fn anything() -> Self
        ensures { result ≡ opened here }
    {
        let path = Path::new();
        let is_open = true;
        Label { path, is_open }
    }

    /// The positions.
    pub fn path(&self) -> &[u8]
        ensures { result.now ≡ self.now.path }
    {
        self.path.as_slice()
    }

    /// Whether any more positions may follow.
    pub fn is_open(&self) -> bool
        ensures { result ≡ self.now.is_open }
    {
        self.is_open
    }

    /// An equal label.
    pub fn copy(&self, alloc: Global) -> Result<Self, AllocError>
        ensures { IfOk result (λ l. l ≡ self.now) }
    {
        let path = self.path.copy(alloc)?;
        let is_open = self.is_open;
        Ok(Label { path, is_open })
    }

    /// Whether the labels are equal, or the other is open and its positions are a prefix of this one's.
    #[tactic(auto, using(crate::proofs::Comparisons::starts_with_begins))]
    pub fn is_below(&self, other: &Label) -> bool
        ensures { result ≡ label_leq self.now other.now }
    {
        self == other || other.is_open && self.path().starts_with(other.path())
    }

    /// Whether the list is empty or begins with the position.
    #[tactic(auto, using(crate::proofs::Comparisons::agrees_first))]
    pub fn agrees(&self, position: u8) -> bool
        ensures { result ≡ agrees position self.now }
    {
        match self.path().first() {
            Some(first) => *first == position,
            None => true,
        }
    }

    /// Whether the label is that of the place itself.
    pub fn is_here(&self) -> bool
        ensures { result ≡ is_here self.now }
    {
        !self.is_open && self.path().is_empty()
    }

    /// Whether the label agrees with a position, if one is asked for.
    pub fn agrees_if(&self, position: Option<u8>) -> bool
        ensures { result ≡ agrees_if position self.now }
    {
        match position {
            Some(position) => self.agrees(position),
            None => true,
        }
    }

    /// The label one position longer, if it is exact; what is open stays as it is.
    pub fn extended(&self, alloc: Global, position: u8) -> Result<Self, AllocError>
        ensures { IfOk result (λ l. l ≡ extended position self.now) }
    {
        let path = self.path.copy(alloc)?;
        if self.is_open {
            return Ok(Label {
                path,
                is_open: true,
            });
        }
        let path = path.pushed(alloc, position)?;
        Ok(Label {
            path,
            is_open: false,
        })
    }

    /// The label of two edges, one after the other; if the first label is open, it stays as it is.
    pub fn followed_by(&self, alloc: Global, next: &Label) -> Result<Self, AllocError>
        ensures { IfOk result (λ l. l ≡ composed self.now next.now) }
    {
        if self.is_open {
            return self.copy(alloc);
        }
        let path = self.path.extended(alloc, next.path())?;
        let is_open = next.is_open;
        Ok(Label { path, is_open })
    }

    /// The label that allows anything below, too.
    pub fn opened(&self, alloc: Global) -> Result<Self, AllocError>
        ensures { IfOk result (λ l. l ≡ opened self.now) }
    {
        let mut label = self.copy(alloc)?;
        label.is_open = true;
        Ok(label)
    }

    /// The label with a change made to it.
    pub fn changed(&self, alloc: Global, change: Change) -> Result<Self, AllocError>
        ensures { IfOk result (λ l. l ≡ changed change self.now) }
    {
        match change {
            Change::Kept => self.copy(alloc),
            Change::Extended(position) => self.extended(alloc, position),
            Change::Opened => self.opened(alloc),
        }
    }
}

impl PartialEq for Label {
    ghost use Rattle.mv_edges.specs.Edges.{same_label};
    ghost use Rattle.mv_edges.specs.Equality.{same_label_equiv};
    ghost use Rattle.std.specs.Cmp.{partial_equiv_from_equiv};

    ghost eq = { same_label };

    ghost laws = { partial_equiv_from_equiv same_label_equiv };

    fn eq(&self, other: &Self) -> bool {
        self.path() == other.path() && self.is_open == other.is_open
    }
}

impl Eq for Label {
    ghost use Rattle.mv_edges.specs.Equality.{same_label_equiv};

    ghost laws = { same_label_equiv };
}

/// What becomes of a label where another reference takes over an edge.
#[derive(Clone, Copy, PartialEq, Eq, Debug)]
pub enum Change {
    /// It stays.
    Kept,
    /// One position follows, if the label is exact.
    Extended(u8),
    /// Any positions may follow.
    Opened,
}
