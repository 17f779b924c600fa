// Blocks of storage that are taken back or kept.

use super::acts::{Act, perform};
use super::steps::{Step, done_anew, has_count, set, stored};
use mv_move_types::Key;
use mv_storage::Storage;
use std::alloc::{AllocError, Global};
use std::test::Fail;

const SIXTH: Key = Key {
    address: 6,
    place: 0,
    index: 0,
};

const SEVENTH: Key = Key {
    address: 7,
    place: 0,
    index: 0,
};

const EIGHTH: Key = Key {
    address: 8,
    place: 0,
    index: 0,
};

const NINTH: Key = Key {
    address: 9,
    place: 0,
    index: 0,
};

// What a run does that is given up.
static GIVEN_UP: [Act; 4] = [
    Act::Clears(SEVENTH),
    Act::PutsClaimed(SEVENTH, &[99], true),
    Act::Clears(SEVENTH),
    Act::PutsClaimed(EIGHTH, &[98], true),
];

// A block is begun in which a key is set, and a run is given up.
fn nest(alloc: Global, storage: &mut Storage, leaf: Option<u128>) -> Result<bool, AllocError> {
    storage.begin()?;
    set(storage, SEVENTH, leaf)?;
    perform(alloc, &mut storage.overlay(), &GIVEN_UP)
}

// A key is set in a storage, and then in three blocks, one in the other. Whether it has what the third put.
fn are_nested(
    alloc: Global,
    storage: &mut Storage,
    leaves: &[Option<u128>; 4],
) -> Result<bool, AllocError> {
    let [before, first, second, third] = leaves;
    set(storage, SEVENTH, *before)?;
    Ok(
        nest(alloc, storage, *first)?
            && nest(alloc, storage, *second)?
            && nest(alloc, storage, *third)?
            && stored(storage, &SEVENTH) == *third,
    )
}

// Closes the newest block. Whether one was open, and the key has this leaf then.
fn is_closed(storage: &mut Storage, keeps: bool, wanted: Option<u128>) -> bool {
    let was_open = if keeps {
        storage.keep()
    } else {
        storage.rollback()
    };
    was_open && stored(storage, &SEVENTH) == wanted
}

// What the key has once a block is closed, where it had something before it.
fn after(keeps: bool, before: Option<u128>, now: Option<u128>) -> Option<u128> {
    if keeps {
        return now;
    }
    before
}

// Whether three blocks are closed, each in its way, and no block is open then.
fn are_closed(storage: &mut Storage, leaves: &[Option<u128>; 4], keeps: &[bool; 3]) -> bool {
    let [before, first, second, third] = leaves;
    let [outer, middle, inner] = keeps;
    let third = after(*inner, *second, *third);
    let second = after(*middle, *first, third);
    let first = after(*outer, *before, second);
    is_closed(storage, *inner, third)
        && is_closed(storage, *middle, second)
        && is_closed(storage, *outer, first)
        && stored(storage, &EIGHTH).is_none()
        && !storage.rollback()
        && !storage.keep()
}

// A key is set in three blocks, one in the other, and each is closed in its way: whether all is then as it should be.
fn ends(alloc: Global, leaves: &[Option<u128>; 4], keeps: &[bool; 3]) -> Result<bool, AllocError> {
    let mut storage = Storage::new(alloc);
    Ok(are_nested(alloc, &mut storage, leaves)? && are_closed(&mut storage, leaves, keeps))
}

// What a key has before three blocks, and what each of them puts.
static LEAVES: [[Option<u128>; 4]; 8] = [
    [None, None, Some(2), None],
    [None, Some(3), None, Some(4)],
    [None, Some(5), Some(6), Some(6)],
    [None, None, None, Some(7)],
    [Some(1), None, Some(2), None],
    [Some(1), Some(3), None, Some(4)],
    [Some(1), Some(5), Some(6), Some(6)],
    [Some(1), None, None, Some(7)],
];

// Whether each of three blocks is kept, the outer one first.
static WAYS: [[bool; 3]; 8] = [
    [false, false, false],
    [false, false, true],
    [false, true, false],
    [false, true, true],
    [true, false, false],
    [true, false, true],
    [true, true, false],
    [true, true, true],
];

#[test]
fn nested_blocks_end_in_each_way(rt: HostRuntime) -> Result<(), Fail> {
    for leaves in &LEAVES {
        for keeps in &WAYS {
            assert!(rt; ends(rt.alloc(), leaves, keeps)?, "{leaves:?} {keeps:?}");
        }
    }
    Ok(())
}

// Opens a thousand blocks, one in the other, each of which sets a key.
fn open_thousand(storage: &mut Storage) -> Result<(), AllocError> {
    for depth in 0..1000_usize {
        storage.begin()?;
        set(storage, SEVENTH, Some(depth as u128))?;
    }
    Ok(())
}

// Whether a thousand blocks are taken back, the newest first, and no more.
fn are_taken_back(storage: &mut Storage) -> bool {
    for depth in 0..1000_usize {
        let newest = 999 - depth;
        if stored(storage, &SEVENTH) != Some(newest as u128) || !storage.rollback() {
            return false;
        }
    }
    stored(storage, &SEVENTH).is_none() && !storage.rollback()
}

#[test]
fn blocks_stand_a_thousand_deep(rt: HostRuntime) -> Result<(), Fail> {
    let mut storage = Storage::new(rt.alloc());
    open_thousand(&mut storage)?;
    assert!(rt; are_taken_back(&mut storage));
    Ok(())
}

// The key of an address.
fn key(address: usize) -> Key {
    Key {
        address: address as u128,
        place: 0,
        index: 0,
    }
}

// Puts a leaf under each of many addresses, and takes out what one of them has.
fn fill(storage: &mut Storage) -> Result<(), AllocError> {
    for address in 0..5000_usize {
        set(storage, key(address), Some(address as u128))?;
    }
    set(storage, key(600), None)
}

// Whether a block that fills the storage is taken back.
fn is_emptied(storage: &mut Storage) -> Result<bool, AllocError> {
    storage.begin()?;
    fill(storage)?;
    Ok(
        stored(storage, &key(500)) == Some(500)
            && storage.rollback()
            && stored(storage, &key(500)) == Some(1)
            && has_count(storage, 1),
    )
}

#[test]
fn blocks_of_many_keys_come_back(rt: HostRuntime) -> Result<(), Fail> {
    let mut storage = Storage::new(rt.alloc());
    set(&mut storage, key(500), Some(1))?;
    for _ in 0..3_usize {
        assert!(rt; is_emptied(&mut storage)?);
    }
    Ok(())
}

// What is done to a new storage.
static CASES: [(&str, &[Step]); 4] = [
    // A run that goes on after it was kept is given up.
    (
        "values of many leaves come back",
        &[
            Step::Runs(&[Act::PutsClaimed(SEVENTH, &[1, 2, 3], true), Act::Commits]),
            Step::Begins,
            Step::Runs(&[Act::Writes(SEVENTH, 1, &[8, 9], true), Act::Commits]),
            Step::Runs(&[
                Act::Writes(SEVENTH, 0, &[5], true),
                Act::Commits,
                Act::Writes(SEVENTH, 0, &[4], true),
            ]),
            Step::Stores(SEVENTH, Some(&[5, 8, 9])),
            Step::TakesBack(true),
            Step::Stores(SEVENTH, Some(&[1, 2, 3])),
        ],
    ),
    // One key has a value, one has none, and of one the block has taken the value.
    (
        "claims in a block are taken back",
        &[
            Step::Sets(SEVENTH, Some(1)),
            Step::Begins,
            Step::Runs(&[Act::Claims(SEVENTH, true), Act::Commits]),
            Step::Runs(&[Act::Claims(EIGHTH, false), Act::Commits]),
            Step::Sets(SEVENTH, None),
            Step::Runs(&[Act::Claims(SEVENTH, false), Act::Commits]),
            Step::Runs(&[Act::Claims(EIGHTH, false), Act::Commits]),
            Step::Sets(SEVENTH, Some(2)),
            Step::Sets(EIGHTH, Some(3)),
            Step::Runs(&[Act::Claims(SEVENTH, true), Act::Commits]),
            Step::Runs(&[Act::Claims(EIGHTH, true), Act::Commits]),
            Step::TakesBack(true),
            Step::Runs(&[Act::Claims(SEVENTH, true), Act::Commits]),
            Step::Runs(&[Act::Claims(EIGHTH, false), Act::Commits]),
            Step::Stores(SEVENTH, Some(&[1])),
            Step::Counts(1),
        ],
    ),
    (
        "nothing has changed where no block is open",
        &[Step::Tells(&[])],
    ),
    // Those of the newest block alone.
    (
        "changes are told by key",
        &[
            Step::Sets(SEVENTH, Some(1)),
            Step::Sets(EIGHTH, Some(2)),
            Step::Begins,
            Step::Sets(NINTH, Some(3)),
            Step::Sets(SEVENTH, None),
            Step::Sets(EIGHTH, Some(4)),
            Step::Sets(SIXTH, Some(5)),
            Step::Sets(NINTH, None),
            Step::Tells(&[
                (SIXTH, None, Some(5)),
                (SEVENTH, Some(1), None),
                (EIGHTH, Some(2), Some(4)),
            ]),
            Step::Begins,
            Step::Sets(EIGHTH, Some(6)),
            Step::Tells(&[(EIGHTH, Some(4), Some(6))]),
            Step::Keeps(true),
            Step::Tells(&[
                (SIXTH, None, Some(5)),
                (SEVENTH, Some(1), None),
                (EIGHTH, Some(2), Some(6)),
            ]),
        ],
    ),
];

#[test]
fn blocks_do_as_wanted(rt: HostRuntime) -> Result<(), Fail> {
    for (case, steps) in &CASES {
        let done = done_anew(rt.alloc(), steps)?;
        assert!(rt; done == steps.len(), "{case}: step {done}");
    }
    Ok(())
}
