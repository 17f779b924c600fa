// The availabilities of a function's locals.
ghost use Rattle.std.specs.Prelude.{◌≡◌, ◌<◌, ◌++◌, ◌∷◌, [], length, replicate, slice_get, slice_set, zip, false, IfOk, OnOk};
ghost use Rattle.mv_move_types.specs.declared.borrow.Availability.TheVariants.{Available};
ghost use Rattle.std.specs.List.{list_all};
ghost use Rattle.std.specs.Option.{option_map_or};
ghost use Rattle.mv_certificate_rules.specs.LocalsRules.{availability_leq, locals_leq, is_available, needs_available};
ghost use Rattle.mv_locals_safety.specs.Domain.{least_above, joined, moved_out, Follows};

use crate::few::{FEW, Few};
use mv_lattice::StepError;
use mv_move_types::Availability;
use std::alloc::{AllocError, Global};
use std::marker::Model;

/// Whether the first says as much as the second, or more.
fn is_below(a: Availability, b: Availability) -> bool
    ensures { result ≡ availability_leq a b }
{
    match (a, b) {
        (_, Availability::Maybe) => true,
        (Availability::Unavailable, Availability::Unavailable) => true,
        (Availability::Available, Availability::Available) => true,
        (_, _) => false,
    }
}

/// What both say.
fn common(a: Availability, b: Availability) -> Availability
    ensures { result ≡ least_above a b }
{
    match (a, b) {
        (Availability::Unavailable, Availability::Unavailable) => Availability::Unavailable,
        (Availability::Available, Availability::Available) => Availability::Available,
        (_, _) => Availability::Maybe,
    }
}

/// Whether each says as much as the one at its place, or more.
fn are_below(a: &[Availability], b: &[Availability]) -> bool
    ensures { result ≡ list_all (λ p. availability_leq p.0 p.1) (zip a.now b.now) }
{
    a.iter().zip(b).all(|(x, y)| is_below(*x, *y))
}

/// What each says with the one at its place.
fn all_common(
    alloc: Global,
    a: &[Availability],
    b: &[Availability],
) -> Result<Vec<Availability>, AllocError>
    ensures { IfOk result (λ v. v.items ≡ joined a.now b.now) }
{
    a.iter().zip(b).map(|(x, y)| common(*x, *y)).collect(alloc)
}

/// Where the availabilities of a state stand.
#[derive(Drop, Debug)]
pub(crate) enum Places {
    Inside(Few),
    Outside(Vec<Availability>),
}

/// What is known of each local of a function, parameters first: up to 16 availabilities lie in the value itself, and more in an
/// allocation.
#[derive(Drop, Debug)]
pub struct Availabilities {
    places: Places,
}

impl Model for Availabilities {
    ghost use Rattle.std.specs.Prelude.{List};
    ghost use Rattle.mv_move_types.specs.declared.borrow.Availability.{Availability};
    ghost use Rattle.mv_locals_safety.specs.Places.{availabilities_at};

    ghost Value = { List Availability };

    ghost view = { λ s. availabilities_at s.places };
}

impl PartialEq for Availabilities {
    ghost use Rattle.std.specs.Cmp.Lexicographic.{pointwise, lists_per};
    ghost use Rattle.std.specs.Cmp.Rules.{comparing};
    ghost use Rattle.std.proofs.Common.{rules};

    ghost eq = { pointwise ⟦<Availability as PartialEq>⟧.eq };

    ghost laws = { lists_per (Prim.search (comparing, rules)) };

    fn eq(&self, other: &Self) -> bool {
        self.as_slice() == other.as_slice()
    }
}

impl Availabilities {
    /// Availabilities in the value itself.
    fn inside(few: Few) -> Self
        ensures { result ≡ few }
    {
        Availabilities {
            places: Places::Inside(few),
        }
    }

    /// Availabilities in an allocation.
    fn outside(many: Vec<Availability>) -> Self
        ensures { result ≡ many.items }
    {
        Availabilities {
            places: Places::Outside(many),
        }
    }

    /// The state of no local.
    pub fn none() -> Self
        ensures { result ≡ [] }
    {
        Availabilities::inside(Few::new())
    }

    /// The state of these availabilities.
    pub fn new(all: Vec<Availability>) -> Self
        ensures { result ≡ all.items }
    {
        if all.len() <= FEW {
            return Availabilities::inside(Few::of_slice(&all));
        }
        Availabilities::outside(all)
    }

    /// The availabilities, parameters first.
    pub fn as_slice(&self) -> &[Availability]
        ensures { result.now ≡ self.now }
    {
        match &self.places {
            Places::Inside(few) => few.as_slice(),
            Places::Outside(many) => many.as_slice(),
        }
    }

    /// Equal availabilities.
    pub fn copy(&self, alloc: Global) -> Result<Self, AllocError>
        ensures { IfOk result (λ s. s ≡ self.now) }
    {
        match &self.places {
            Places::Inside(few) => Ok(Availabilities::inside(few.copy())),
            Places::Outside(many) => Ok(Availabilities::outside(Vec::from_slice(
                alloc,
                many.as_slice(),
            )?)),
        }
    }

    /// Adds the availability of one more local.
    #[inline]
    pub fn push(&mut self, alloc: Global, a: Availability) -> Result<(), AllocError>
        ensures { OnOk result (self.new ≡ self.old ++ a ∷ []) }
    {
        match &mut self.places {
            Places::Inside(few) => {
                if few.len() < FEW {
                    few.push(a);
                    return Ok(());
                }
                let mut many = Vec::from_slice(alloc, few.as_slice())?;
                many.push(a)?;
                self.places = Places::Outside(many);
            }
            Places::Outside(many) => many.push(a)?,
        }
        Ok(())
    }

    /// Adds the same availability of so many locals more.
    pub(crate) fn push_times(
        &mut self,
        alloc: Global,
        a: Availability,
        times: usize,
    ) -> Result<(), AllocError>
        ensures { OnOk result (self.new ≡ self.old ++ replicate times a) }
    {
        'more: for _ in 0..times {
            self.push(alloc, a)?;
        }
        Ok(())
    }

    /// Puts an availability in place of a local's.
    fn set(&mut self, local: u16, a: Availability)
        requires { local < length self.old }
        ensures { self.new ≡ slice_set self.old local a }
    {
        match &mut self.places {
            Places::Inside(few) => few.set(usize::from(local), a),
            Places::Outside(many) => many[usize::from(local)] = a,
        }
    }

    /// Whether a local surely holds a value.
    fn holds(&self, local: u16) -> bool
        ensures { result ≡ option_map_or is_available (slice_get self.now local) false }
    {
        match self.as_slice().get(usize::from(local)) {
            Some(Availability::Available) => true,
            _ => false,
        }
    }

    /// What is known of a local, if it is there.
    pub(crate) fn get(&self, local: u16) -> Option<Availability>
        ensures { result ≡ slice_get self.now local }
    {
        self.as_slice().get(usize::from(local)).copied()
    }

    /// Puts a value into a local.
    pub(crate) fn fill(&mut self, local: u16)
        requires { local < length self.old }
        ensures { self.new ≡ slice_set self.old local Available }
    {
        self.set(local, Availability::Available);
    }

    /// Borrows a local, which changes nothing; refused where it may hold no value.
    pub(crate) fn borrow(&self, local: u16) -> Result<(), StepError>
        ensures { Follows result self.now (needs_available local self.now) }
    {
        if self.holds(local) {
            Ok(())
        } else {
            Err(StepError::Need)
        }
    }

    /// Takes the value of a local; refused where it may hold none.
    pub(crate) fn take(&mut self, local: u16) -> Result<(), StepError>
        ensures { Follows result self.new (moved_out local self.old) }
    {
        if !self.holds(local) {
            return Err(StepError::Need);
        }
        self.set(local, Availability::Unavailable);
        Ok(())
    }

    /// Whether each local's availability says as much as the other's, or more.
    #[tactic(auto, using(crate::proofs::Order::leq_zipped))]
    pub fn is_below(&self, other: &Availabilities) -> bool
        requires { length self.now ≡ length other.now }
        ensures { result ≡ locals_leq self.now other.now }
    {
        are_below(self.as_slice(), other.as_slice())
    }

    /// What both say of each local.
    pub fn join(&self, alloc: Global, other: &Availabilities) -> Result<Self, AllocError>
        requires { length self.now ≡ length other.now }
        ensures { IfOk result (λ s. s ≡ joined self.now other.now) }
    {
        let all = all_common(alloc, self.as_slice(), other.as_slice())?;
        Ok(Availabilities::new(all))
    }
}
