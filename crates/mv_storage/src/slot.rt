// What stands under a key: a value that the run at work has left alone, one that it has put, or the committed one and what
// the run has made of it.
ghost use Rattle.std.specs.Prelude.{◌≡◌, None, Some, true, false, cond, not, is_some, option_copied, option_and_then, IfOk, OnOk, OnErr};
ghost use Rattle.std.specs.Prelude.{◌≤◌, ◌+◌, length, take, drop, option_map, slice_get, IfSome, MatchOption};
ghost use Rattle.std.specs.Borrow.{sem};
ghost use Rattle.mv_storage.specs.Slots.{version, of_layer, is_change, is_vacant, is_pinned, is_gone, is_empty, IsOwn};
ghost use Rattle.mv_storage.specs.Blocks.{value_before, is_absent};
ghost use Rattle.mv_storage.specs.Lending.{LendsVersion, LendsSlot};
ghost use Rattle.mv_storage.specs.WordLists.{piece};
ghost use Rattle.mv_storage.specs.declared.slot.Layer.{Layer};
ghost use Rattle.mv_storage.specs.declared.slot.Layer.TheVariants.{Committed, Current};

use crate::Value;
use crate::blocks::Before;
use crate::value::Words;
use std::alloc::{AllocError, Global};
use std::mem::{replace, size_of};
use std::slice;

// The value before a run's changes, or with them.
#[derive(Clone, Copy)]
pub(crate) enum Layer {
    Committed,
    Current,
}

// A value before a run's changes and with them, each if it is there.
#[derive(Drop)]
pub(crate) struct Versions {
    pub(crate) committed: Option<Value>,
    pub(crate) current: Option<Value>,
}

impl Versions {
    // Takes one version out.
    fn take(&mut self, layer: Layer) -> Option<Value>
        ensures value { result ≡ version layer self.old }
        ensures gone { version layer self.new ≡ None }
    {
        match layer {
            Layer::Committed => self.committed.take(),
            Layer::Current => self.current.take(),
        }
    }

    // So many of the words that the run sees, from a place on, one at least, lent.
    #[inline(always)]
    fn part(&mut self, from: usize, width: usize) -> &mut [u128]
        requires there { is_some self.old.current ≡ true }
        requires fits { IfSome self.old.current (λ words. from + width ≤ length words) }
        requires some { 1 ≤ width }
        ensures* loan { sem 𝓛 (LendsVersion self.entry from result) }
        ensures words { Some result.now ≡ option_map (λ words. take width (drop from words)) self.old.current }
    {
        let current = &mut self.current;
        match current {
            Some(value) => value.part(from, width),
            None => unreachable!(),
        }
    }
}

// What a place holds. `Vacant`: no key, and the next free place. `Gone`: a key whose value was taken out in a block that is still
// open, so that its place is kept. `Empty`: a key whose value the run has put and taken out again.
// `One`, `Many`: a committed value that the run has left alone. `AddedOne`, `AddedMany`: a value that the run has put where none
// was. `Changed`: both versions of a value that the run has changed. `One` and `AddedOne` have their single leaf in place.
#[derive(Drop)]
pub(crate) enum Slot {
    Vacant(usize),
    Gone,
    Empty,
    One(u128),
    Many(Vec<u128>),
    AddedOne(u128),
    AddedMany(Vec<u128>),
    Changed(Box<Versions>),
}

const _: () = prove!(size_of::<Slot>() == 32);

impl Slot {
    // A value that no run has changed.
    pub(crate) fn kept(value: Value) -> Self
        ensures value { (layer : Layer) → of_layer layer result ≡ Some value }
        ensures kept { is_change result ≡ false }
        ensures used { is_vacant result ≡ false }
        ensures pinned { is_pinned result ≡ true }
    {
        match value.into_words() {
            Words::One(word) => Slot::One(word),
            Words::Many(words) => Slot::Many(words),
        }
    }

    // A value that the run has put where nothing was.
    #[inline]
    pub(crate) fn added(value: Value) -> Self
        ensures current { of_layer Current result ≡ Some value }
        ensures committed { of_layer Committed result ≡ None }
        ensures change { is_change result ≡ true }
        ensures used { is_vacant result ≡ false }
    {
        match value.into_words() {
            Words::One(word) => Slot::AddedOne(word),
            Words::Many(words) => Slot::AddedMany(words),
        }
    }

    // Whether the run has left it alone.
    #[inline]
    pub(crate) fn is_kept(&self) -> bool
        ensures { result ≡ not (is_change self.now) }
    {
        matches!(
            self,
            Slot::Vacant(_) | Slot::Gone | Slot::One(_) | Slot::Many(_)
        )
    }

    // Whether it is no key's.
    #[inline]
    pub(crate) fn is_vacant(&self) -> bool
        ensures { result ≡ is_vacant self.now }
    {
        matches!(self, Slot::Vacant(_))
    }

    // Whether it is a key's whose value was taken out in an open block.
    #[inline(always)]
    pub(crate) fn is_gone(&self) -> bool
        ensures { result ≡ is_gone self.now }
    {
        matches!(self, Slot::Gone)
    }

    // Whether the run has put a value here where no key was, and taken it out again.
    #[inline]
    pub(crate) fn is_empty(&self) -> bool
        ensures { result ≡ is_empty self.now }
    {
        matches!(self, Slot::Empty)
    }

    // Whether the run sees a value here.
    #[inline(always)]
    pub(crate) fn is_seen(&self) -> bool
        ensures { result ≡ is_some (of_layer Current self.now) }
    {
        match self {
            Slot::Vacant(_) | Slot::Gone | Slot::Empty => false,
            Slot::One(_) | Slot::Many(_) | Slot::AddedOne(_) | Slot::AddedMany(_) => true,
            Slot::Changed(versions) => versions.current.is_some(),
        }
    }

    // The word at a place among those that the run sees, if there is one.
    #[inline(always)]
    pub(crate) fn word(&self, at: usize) -> Option<u128>
        ensures { result ≡ option_and_then (λ words. slice_get words at) (of_layer Current self.now) }
    {
        match self.current() {
            Some(words) => words.get(at).copied(),
            None => None,
        }
    }

    // The words that the run sees.
    #[inline(always)]
    pub(crate) fn current(&self) -> Option<&[u128]>
        ensures { option_copied result ≡ of_layer Current self.now }
    {
        match self {
            Slot::Vacant(_) | Slot::Gone | Slot::Empty => None,
            Slot::One(word) | Slot::AddedOne(word) => Some(slice::from_ref(word)),
            Slot::Many(words) | Slot::AddedMany(words) => Some(words.as_slice()),
            Slot::Changed(versions) => match &versions.current {
                Some(value) => Some(value.as_slice()),
                None => None,
            },
        }
    }

    // The words that are committed.
    #[inline]
    pub(crate) fn committed(&self) -> Option<&[u128]>
        ensures { option_copied result ≡ of_layer Committed self.now }
    {
        match self {
            Slot::Vacant(_) | Slot::Gone | Slot::Empty | Slot::AddedOne(_) | Slot::AddedMany(_) =>
                None,
            Slot::One(word) => Some(slice::from_ref(word)),
            Slot::Many(words) => Some(words.as_slice()),
            Slot::Changed(versions) => match &versions.committed {
                Some(value) => Some(value.as_slice()),
                None => None,
            },
        }
    }

    // Keeps a committed value that the run has left alone, and puts another for the run in its place. It fails only where memory
    // runs out, and nothing changes then.
    fn change(&mut self, current: Option<Value>, alloc: Global) -> Result<(), AllocError>
        requires { (is_change self.old ≡ false) × (is_vacant self.old ≡ false) }
        ensures current { OnOk result (of_layer Current self.new ≡ current) }
        ensures committed { of_layer Committed self.new ≡ of_layer Committed self.old }
        ensures change { OnOk result (is_change self.new ≡ true) }
        ensures used { is_vacant self.new ≡ false }
        ensures pinned { OnOk result (is_pinned self.new ≡ true) }
        ensures err { OnErr result (self.new ≡ self.old) }
    {
        let fresh = Box::new(
            alloc,
            Versions {
                committed: None,
                current,
            },
        )?;
        let committed = match replace(self, Slot::Changed(fresh)) {
            Slot::One(word) => Some(Value::leaf(word)),
            Slot::Many(words) => Some(Value::words(words)),
            _ => None,
        };
        if let Slot::Changed(versions) = self {
            versions.committed = committed;
        }
        Ok(())
    }

    // Puts a value where the run sees none. It fails only where memory runs out, and nothing changes then.
    pub(crate) fn put(&mut self, value: Value, alloc: Global) -> Result<(), AllocError>
        requires used { is_vacant self.old ≡ false }
        requires absent { of_layer Current self.old ≡ None }
        ensures current { OnOk result (of_layer Current self.new ≡ Some value) }
        ensures committed { of_layer Committed self.new ≡ of_layer Committed self.old }
        ensures change { is_change self.new ≡ true → is_change self.old ≡ false → is_gone self.old ≡ true }
        ensures used { is_vacant self.new ≡ false }
        ensures pinned { is_pinned self.old ≡ true → is_pinned self.new ≡ true }
        ensures err { OnErr result (self.new ≡ self.old) }
    {
        match self {
            Slot::Empty => {
                *self = Slot::added(value);
                Ok(())
            }
            Slot::Changed(versions) => {
                versions.current = Some(value);
                Ok(())
            }
            Slot::Gone => self.change(Some(value), alloc),
            _ => unreachable!(),
        }
    }

    // Takes out what the run sees. A committed value stays, so the run has a copy of it.
    pub(crate) fn take(&mut self, alloc: Global) -> Result<Option<Value>, AllocError>
        requires { is_vacant self.old ≡ false }
        ensures value { IfOk result (λ v. v ≡ of_layer Current self.old) }
        ensures committed { of_layer Committed self.new ≡ of_layer Committed self.old }
        ensures gone { OnOk result (of_layer Current self.new ≡ None) }
        ensures used { is_vacant self.new ≡ false }
        ensures pinned { is_pinned self.old ≡ true → is_pinned self.new ≡ true }
        ensures err { OnErr result (self.new ≡ self.old) }
    {
        let copy = match self {
            Slot::One(word) => Value::leaf(*word),
            Slot::Many(words) => Value::words(words.as_slice().to_vec(alloc)?),
            Slot::Changed(versions) => return Ok(versions.current.take()),
            Slot::Vacant(_) | Slot::Gone => return Ok(None),
            _ => return Ok(self.take_added()),
        };
        self.change(None, alloc)?;
        Ok(Some(copy))
    }

    // Takes out a value that the run has put.
    fn take_added(&mut self) -> Option<Value>
        requires { (of_layer Committed self.old ≡ None) × (is_vacant self.old ≡ false) }
        ensures value { result ≡ of_layer Current self.old }
        ensures committed { of_layer Committed self.new ≡ None }
        ensures gone { of_layer Current self.new ≡ None }
        ensures used { is_vacant self.new ≡ false }
    {
        match replace(self, Slot::Empty) {
            Slot::AddedOne(word) => Some(Value::leaf(word)),
            Slot::AddedMany(words) => Some(Value::words(words)),
            Slot::Changed(versions) => Box::into_inner(versions).current,
            _ => None,
        }
    }

    // Gives the run its own copy of a committed value. It fails only where memory runs out, and nothing changes then.
    fn own(&mut self, alloc: Global) -> Result<(), AllocError>
        requires { is_vacant self.old ≡ false }
        ensures layers { (layer : Layer) → of_layer layer self.new ≡ of_layer layer self.old }
        ensures changed { OnOk result (is_some (of_layer Current self.old) ≡ true → is_change self.new ≡ true) }
        ensures used { is_vacant self.new ≡ false }
        ensures pinned { is_pinned self.old ≡ true → is_pinned self.new ≡ true }
        ensures err { OnErr result (self.new ≡ self.old) }
    {
        let copy = match self {
            Slot::One(word) => Value::leaf(*word),
            Slot::Many(words) => Value::words(words.as_slice().to_vec(alloc)?),
            _ => return Ok(()),
        };
        self.change(Some(copy), alloc)
    }

    // Whether so many words are there from a place on, of those that the run sees.
    #[inline(always)]
    pub(crate) fn holds(&self, from: usize, width: usize) -> bool
        ensures { result ≡ is_some (option_and_then (piece from width) (of_layer Current self.now)) }
    {
        match self.current() {
            Some(words) => width <= words.len() && from <= words.len() - width,
            None => false,
        }
    }

    // Whether both versions of a value stand here, and so many words of the run's are there from a place on.
    #[inline(always)]
    pub(crate) fn is_ready(&self, from: usize, width: usize) -> bool
        ensures own { result ≡ true → IsOwn self.now }
        ensures there { result ≡ true → is_some (option_and_then (piece from width) (of_layer Current self.now)) ≡ true }
    {
        match self {
            Slot::Changed(_) => self.holds(from, width),
            _ => false,
        }
    }

    // Makes sure that the run has what it sees to itself, and gives its place, if so many words are there. It fails only where
    // memory runs out, and nothing changes then.
    pub(crate) fn own_place(
        &mut self,
        place: usize,
        from: usize,
        width: usize,
        alloc: Global,
    ) -> Result<Option<usize>, AllocError>
        requires { is_vacant self.old ≡ false }
        ensures layers { (layer : Layer) → of_layer layer self.new ≡ of_layer layer self.old }
        ensures place { IfOk result (λ found. found ≡ cond (is_some (option_and_then (piece from width) (of_layer Current self.old))) (Some place) None) }
        ensures own { IfOk result (λ found. is_some found ≡ true → IsOwn self.new) }
        ensures used { is_vacant self.new ≡ false }
        ensures pinned { is_pinned self.old ≡ true → is_pinned self.new ≡ true }
    {
        if !self.holds(from, width) {
            return Ok(None);
        }
        self.own(alloc)?;
        Ok(Some(place))
    }

    // So many of the words that the run has to itself, from a place on, one at least, lent.
    #[inline(always)]
    pub(crate) fn part(&mut self, from: usize, width: usize) -> &mut [u128]
        requires own { IsOwn self.old }
        requires fits { IfSome (of_layer Current self.old) (λ words. from + width ≤ length words) }
        requires some { 1 ≤ width }
        ensures* loan { sem 𝓛 (LendsSlot self.entry from result) }
        ensures words { Some result.now ≡ option_map (λ words. take width (drop from words)) (of_layer Current self.old) }
    {
        match self {
            Slot::AddedOne(word) => slice::from_mut(word),
            Slot::AddedMany(words) => words.slice_mut(from..from + width),
            Slot::Changed(versions) => versions.part(from, width),
            _ => unreachable!(),
        }
    }

    // Makes one layer of it the committed one, and says whether its key keeps its place: so it does where the layer has a value, and
    // where an open block has taken its value out.
    #[inline]
    pub(crate) fn resolve(&mut self, layer: Layer) -> bool
        requires { is_vacant self.old ≡ false }
        ensures there { result ≡ false → of_layer layer self.old ≡ None }
        ensures same { of_layer layer self.new ≡ of_layer layer self.old }
        ensures kept { result ≡ true → is_change self.new ≡ false }
        ensures used { is_vacant self.new ≡ false }
        ensures pinned { layer ≡ Committed → is_pinned self.old ≡ true → (result ≡ true) × (is_pinned self.new ≡ true) }
    {
        match self {
            Slot::Gone | Slot::One(_) | Slot::Many(_) => true,
            Slot::AddedOne(word) => match layer {
                Layer::Committed => false,
                Layer::Current => {
                    *self = Slot::One(*word);
                    true
                }
            },
            Slot::Changed(versions) => match versions.take(layer) {
                Some(value) => {
                    *self = Slot::kept(value);
                    true
                }
                None => self.leave(layer),
            },
            _ => self.resolve_added(layer),
        }
    }

    // Leaves a slot without a value where its key keeps its place, and says whether it does.
    fn leave(&mut self, layer: Layer) -> bool
        requires { (of_layer layer self.old ≡ None) × (is_vacant self.old ≡ false) }
        ensures same { of_layer layer self.new ≡ None }
        ensures kept { result ≡ true → is_change self.new ≡ false }
        ensures used { is_vacant self.new ≡ false }
        ensures pinned { layer ≡ Committed → (result ≡ true) × (is_pinned self.new ≡ true) }
    {
        match layer {
            Layer::Committed => {
                *self = Slot::Gone;
                true
            }
            Layer::Current => false,
        }
    }

    // The same for a value of many leaves that the run has put.
    fn resolve_added(&mut self, layer: Layer) -> bool
        requires { (of_layer Committed self.old ≡ None) × (is_vacant self.old ≡ false) }
        ensures there { result ≡ false → of_layer layer self.old ≡ None }
        ensures same { of_layer layer self.new ≡ of_layer layer self.old }
        ensures kept { result ≡ true → is_change self.new ≡ false }
        ensures used { is_vacant self.new ≡ false }
    {
        if let Layer::Committed = layer {
            return false;
        }
        match self.take_added() {
            Some(value) => {
                *self = Slot::kept(value);
                true
            }
            None => false,
        }
    }

    // Makes what the run sees the committed value of a key that keeps its place from then on, and tells what was committed before
    // if the run has changed it. What was committed is moved.
    pub(crate) fn note(&mut self) -> Option<Before>
        requires { (is_vacant self.old ≡ false) × (is_empty self.old ≡ false) }
        ensures same { of_layer Current self.new ≡ of_layer Current self.old }
        ensures kept { is_change self.new ≡ false }
        ensures used { is_vacant self.new ≡ false }
        ensures pinned { is_pinned self.new ≡ true }
        ensures before { MatchOption result (of_layer Current self.old ≡ of_layer Committed self.old) (λ b. value_before b ≡ of_layer Committed self.old) }
        ensures absent { IfSome result (λ b. is_absent b ≡ true → is_pinned self.old ≡ false) }
    {
        match replace(self, Slot::Gone) {
            Slot::AddedOne(word) => {
                *self = Slot::One(word);
                Some(Before::Absent)
            }
            Slot::AddedMany(words) => {
                *self = Slot::Many(words);
                Some(Before::Absent)
            }
            Slot::Changed(versions) => {
                let (slot, before) = Slot::parted(Box::into_inner(versions));
                *self = slot;
                before
            }
            slot => {
                *self = slot;
                None
            }
        }
    }

    // The same for both versions of a value, of which the current one stays.
    fn parted(versions: Versions) -> (Self, Option<Before>)
        ensures same { of_layer Current result.0 ≡ version Current versions }
        ensures kept { is_change result.0 ≡ false }
        ensures used { is_vacant result.0 ≡ false }
        ensures pinned { is_pinned result.0 ≡ true }
        ensures before { MatchOption result.1 (version Current versions ≡ version Committed versions) (λ b. value_before b ≡ version Committed versions) }
        ensures absent { IfSome result.1 (λ b. is_absent b ≡ false) }
    {
        let Versions { committed, current } = versions;
        match committed {
            Some(value) => (Slot::held(current), Some(Before::Held(value))),
            None => match current {
                Some(value) => (Slot::kept(value), Some(Before::Nothing)),
                None => (Slot::Gone, None),
            },
        }
    }

    // A value that no run has changed, or the place that it had.
    fn held(value: Option<Value>) -> Self
        ensures value { of_layer Current result ≡ value }
        ensures kept { is_change result ≡ false }
        ensures used { is_vacant result ≡ false }
        ensures pinned { is_pinned result ≡ true }
    {
        match value {
            Some(value) => Slot::kept(value),
            None => Slot::Gone,
        }
    }
}
