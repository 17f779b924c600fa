// Where a label's positions stand.
ghost use Rattle.std.specs.Prelude.{◌≡◌, ◌<◌, ◌≤◌, ◌++◌, ◌∷◌, [], length, IsOk, IfOk};

use std::alloc::{AllocError, Global};
use std::marker::Model;

/// How many positions lie in a label itself.
const FEW: usize = 8;

/// At most 8 positions, which lie in the value itself.
#[derive(Drop, Debug)]
pub(crate) struct Few {
    positions: [u8; 8],
    count: usize,
}

impl Model for Few {
    ghost use Rattle.std.specs.Prelude.{◌≡◌, ◌≤◌, ℕ, List, length, take};

    ghost Value = { List ℕ };

    ghost view = { λ v. take v.count v.positions };

    ghost invariant = { λ v. (v.count ≤ 8) × (length v.positions ≡ 8) };
}

impl Few {
    /// No position.
    fn new() -> Self
        ensures { result ≡ [] }
    {
        Few {
            positions: [0; 8],
            count: 0,
        }
    }

    /// How many positions there are.
    fn len(&self) -> usize
        ensures value { result ≡ length self.now }
        ensures few { result ≤ 8 }
    {
        self.count
    }

    /// The positions.
    fn as_slice(&self) -> &[u8]
        ensures { result.now ≡ self.now }
    {
        &self.positions[..self.count]
    }

    /// The same positions, all of them copied at once.
    fn copy(&self) -> Self
        ensures { result ≡ self.now }
    {
        Few {
            positions: self.positions,
            count: self.count,
        }
    }

    /// The positions with one more behind them.
    fn pushed(self, position: u8) -> Self
        requires { length self < 8 }
        ensures { result ≡ self ++ position ∷ [] }
    {
        let Few {
            mut positions,
            count,
        } = self;
        positions[count] = position;
        Few {
            positions,
            count: count + 1,
        }
    }

    /// These positions.
    fn of_slice(path: &[u8]) -> Self
        requires { length path.now ≤ 8 }
        ensures { result ≡ path.now }
    {
        let mut few = Few::new();
        for position in path {
            few = few.pushed(*position);
        }
        few
    }
}

/// Where positions stand.
#[derive(Drop, Debug)]
enum Places {
    Inside(Few),
    Outside(Vec<u8>),
}

/// A label's positions: up to 8 of them lie in the label itself, and more in an allocation.
#[derive(Drop, Debug)]
pub(crate) struct Path {
    places: Places,
}

impl Model for Path {
    ghost use Rattle.std.specs.Prelude.{ℕ, List};
    ghost use Rattle.mv_edges.specs.Positions.{positions_at};

    ghost Value = { List ℕ };

    ghost view = { λ p. positions_at p.places };
}

impl Path {
    /// Positions in the label itself.
    fn inside(few: Few) -> Self
        ensures { result ≡ few }
    {
        Path {
            places: Places::Inside(few),
        }
    }

    /// Positions in an allocation.
    fn outside(many: Vec<u8>) -> Self
        ensures { result ≡ many.items }
    {
        Path {
            places: Places::Outside(many),
        }
    }

    /// No position.
    pub(crate) fn new() -> Self
        ensures { result ≡ [] }
    {
        Path::inside(Few::new())
    }

    /// The positions of a vector.
    pub(crate) fn from_vec(mut path: Vec<u8>) -> Self
        ensures { result ≡ path.items }
    {
        if path.len() <= FEW {
            return Path::inside(Few::of_slice(&path));
        }
        path.shrink_to_fit();
        Path::outside(path)
    }

    /// These positions, which are copied.
    pub(crate) fn from_slice(alloc: Global, path: &[u8]) -> Result<Self, AllocError>
        ensures value { IfOk result (λ p. p ≡ path.now) }
        ensures succeeds { length path.now ≤ 8 → IsOk result }
    {
        if path.len() <= FEW {
            return Ok(Path::inside(Few::of_slice(path)));
        }
        Ok(Path::outside(Vec::from_slice(alloc, path)?))
    }

    /// The positions.
    pub(crate) fn as_slice(&self) -> &[u8]
        ensures { result.now ≡ self.now }
    {
        match &self.places {
            Places::Inside(few) => few.as_slice(),
            Places::Outside(many) => many.as_slice(),
        }
    }

    /// The same positions.
    pub(crate) fn copy(&self, alloc: Global) -> Result<Self, AllocError>
        ensures { IfOk result (λ p. p ≡ self.now) }
    {
        match &self.places {
            Places::Inside(few) => Ok(Path::inside(few.copy())),
            Places::Outside(many) => Ok(Path::outside(Vec::from_slice(alloc, many.as_slice())?)),
        }
    }

    /// The same positions with more behind them.
    pub(crate) fn extended(&self, alloc: Global, more: &[u8]) -> Result<Self, AllocError>
        ensures { IfOk result (λ p. p ≡ self.now ++ more.now) }
    {
        let mut path = self.copy(alloc)?;
        for position in more {
            path = path.pushed(alloc, *position)?;
        }
        Ok(path)
    }

    /// The positions with one more behind them.
    pub(crate) fn pushed(self, alloc: Global, position: u8) -> Result<Self, AllocError>
        ensures { IfOk result (λ p. p ≡ self ++ position ∷ []) }
    {
        match self.places {
            Places::Inside(few) => pushed_to_few(alloc, few, position),
            Places::Outside(mut many) => {
                many.push(position)?;
                Ok(Path::outside(many))
            }
        }
    }
}

/// The positions with one more behind them, which go into an allocation where they are too many to lie in the label.
fn pushed_to_few(alloc: Global, few: Few, position: u8) -> Result<Path, AllocError>
    ensures { IfOk result (λ p. p ≡ few ++ position ∷ []) }
{
    if few.len() < FEW {
        return Ok(Path::inside(few.pushed(position)));
    }
    let mut many = Vec::from_slice(alloc, few.as_slice())?;
    many.push(position)?;
    Ok(Path::outside(many))
}
