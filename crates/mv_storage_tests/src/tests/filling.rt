// Values that are stored all at once are stored as if each was put where none is.
use super::acts::put_claimed;
use super::steps::stored;
use mv_move_types::Key;
use mv_storage::{Filling, Overlay, Storage, Value};
use std::alloc::{AllocError, Global};
use std::test::Fail;

// How many values there are, of how many addresses in turn, and of how many structs of each.
#[derive(Clone, Copy)]
struct Shape {
    count: usize,
    addresses: usize,
    structs: usize,
}

// None, one, one group, three groups in order, and groups of which later ones have the keys of the first.
static SHAPES: [Shape; 6] = [
    Shape {
        count: 0,
        addresses: 1,
        structs: 1,
    },
    Shape {
        count: 1,
        addresses: 1,
        structs: 1,
    },
    Shape {
        count: 500,
        addresses: 500,
        structs: 1,
    },
    Shape {
        count: 600,
        addresses: 200,
        structs: 3,
    },
    Shape {
        count: 601,
        addresses: 100,
        structs: 3,
    },
    Shape {
        count: 5,
        addresses: 1,
        structs: 1,
    },
];

// The key of a value: ascending addresses, so many, struct after struct, of so many structs in turn.
fn key(number: usize, shape: &Shape) -> Key {
    let group = number.checked_div(shape.addresses).unwrap_or(0);
    let place = group.checked_rem(shape.structs).unwrap_or(0);
    Key {
        address: number.checked_rem(shape.addresses).unwrap_or(0) as u128,
        place: u16::try_from(place).unwrap_or(0),
        index: 3,
    }
}

// A value of one leaf or of three.
fn value(alloc: Global, number: usize) -> Result<Value, AllocError> {
    let leaf = number as u128;
    if number % 2 == 0 {
        return Ok(Value::leaf(leaf));
    }
    Ok(Value::words([leaf, 7, leaf].to_vec(alloc)?))
}

// Whether two storages hold the same values, so many at most.
fn are_same(one: &Storage, other: &Storage, most: usize) -> bool {
    let mut left = one.iter();
    let mut right = other.iter();
    for _ in 0..most {
        if left.next() != right.next() {
            return false;
        }
    }
    left.next().is_none() && right.next().is_none()
}

// The values, stored all at once.
fn filled(alloc: Global, shape: &Shape) -> Result<Storage, AllocError> {
    let mut filling = Filling::new(alloc);
    filling.reserve(shape.addresses)?;
    for number in 0..shape.count {
        filling.add(key(number, shape), value(alloc, number)?)?;
    }
    filling.into_storage()
}

// The same, each put where none is, and kept.
fn put(alloc: Global, overlay: &mut Overlay<'_>, shape: &Shape) -> Result<(), AllocError> {
    for number in 0..shape.count {
        put_claimed(overlay, key(number, shape), value(alloc, number)?)?;
    }
    overlay.commit()
}

// The key of the first value, and a new one.
const FIRST: Key = Key {
    address: 0,
    place: 0,
    index: 3,
};

const NEW: Key = Key {
    address: 0,
    place: 7,
    index: 3,
};

// Changes what is stored: a value is taken, one is put in its place, and one under a new key.
fn change(overlay: &mut Overlay<'_>) -> Result<(), AllocError> {
    overlay.take(&FIRST)?;
    put_claimed(overlay, FIRST, Value::leaf(99))?;
    put_claimed(overlay, NEW, Value::leaf(98))?;
    overlay.commit()
}

// Whether two storages are the same, and are still so once each was changed. The first has no block open.
fn stay_same(one: &mut Storage, other: &mut Storage, count: usize) -> Result<bool, AllocError> {
    if !are_same(one, other, count) || one.rollback() || one.keep() {
        return Ok(false);
    }
    change(&mut one.overlay())?;
    change(&mut other.overlay())?;
    Ok(stored(one, &NEW) == Some(98) && are_same(one, other, count.wrapping_add(2)))
}

// Whether the values that are stored all at once are those that are put.
fn is_as_if_put(alloc: Global, shape: &Shape) -> Result<bool, AllocError> {
    let mut other = Storage::new(alloc);
    put(alloc, &mut other.overlay(), shape)?;
    stay_same(&mut filled(alloc, shape)?, &mut other, shape.count)
}

#[test]
fn filled_storage_is_as_if_put(rt: HostRuntime) -> Result<(), Fail> {
    for shape in &SHAPES {
        assert!(rt; is_as_if_put(rt.alloc(), shape)?);
    }
    Ok(())
}

// Addresses and leaves of values, of which two have the same key.
static TWICE: [(u128, u128); 3] = [(5, 1), (4, 2), (5, 3)];

// The key of an address.
fn at(address: u128) -> Key {
    Key {
        address,
        place: 0,
        index: 3,
    }
}

// These values, stored all at once.
fn filled_twice(alloc: Global) -> Result<Storage, AllocError> {
    let mut filling = Filling::new(alloc);
    for (address, leaf) in &TWICE {
        filling.add(at(*address), Value::leaf(*leaf))?;
    }
    filling.into_storage()
}

// Of values under one key the first is stored.
#[test]
fn first_of_a_key_is_stored(rt: HostRuntime) -> Result<(), Fail> {
    let storage = filled_twice(rt.alloc())?;
    assert!(rt; stored(&storage, &at(5)) == Some(1));
    assert!(rt; stored(&storage, &at(4)) == Some(2) && stored(&storage, &at(3)).is_none());
    Ok(())
}
