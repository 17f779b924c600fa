// Values in the storage, and an overlay in which a run changes them.

use super::acts::{Act, word, write};
use super::steps::{Step, done_anew, set};
use mv_move_types::Key;
use mv_storage::{Overlay, Storage};
use std::alloc::{AllocError, Global};
use std::test::Fail;

// Keys that differ in the address, the place or the index alone.
const FIRST: Key = Key {
    address: 7,
    place: 0,
    index: 0,
};

const SECOND: Key = Key {
    address: 7,
    place: 0,
    index: 1,
};

const THIRD: Key = Key {
    address: 7,
    place: 1,
    index: 0,
};

const FOURTH: Key = Key {
    address: 8,
    place: 0,
    index: 0,
};

// What is done to a new storage.
static CASES: [(&str, &[Step]); 11] = [
    (
        "runs are kept and given up",
        &[
            Step::Puts(FIRST, &[5], true),
            Step::Puts(FIRST, &[6], false),
            Step::GivesUp(FIRST),
            Step::Runs(&[
                Act::Writes(FIRST, 0, &[8], true),
                Act::Takes(FIRST, Some(&[8])),
                Act::Has(FIRST, false),
                Act::Puts(FIRST, &[4], true),
            ]),
            Step::Stores(FIRST, Some(&[5])),
            Step::Stores(SECOND, None),
        ],
    ),
    (
        "what is given up is not stored",
        &[
            Step::Runs(&[
                Act::Puts(FIRST, &[5], true),
                Act::Puts(SECOND, &[1, 2], true),
            ]),
            Step::Stores(FIRST, None),
            Step::Stores(SECOND, None),
            Step::Counts(0),
        ],
    ),
    (
        "what is committed stays, whatever the overlay makes of it after",
        &[
            Step::Runs(&[
                Act::Puts(FIRST, &[5], true),
                Act::Commits,
                Act::Takes(FIRST, Some(&[5])),
                Act::Puts(SECOND, &[6], true),
            ]),
            Step::Stores(FIRST, Some(&[5])),
            Step::Stores(SECOND, None),
        ],
    ),
    (
        "values are edited in place",
        &[
            Step::Puts(FIRST, &[1, 2, 3], true),
            Step::Runs(&[
                Act::Writes(FIRST, 1, &[7, 8], true),
                Act::Writes(FIRST, 0, &[6], true),
                Act::Writes(FIRST, 2, &[0, 0], false),
                Act::Writes(FIRST, 3, &[0], false),
                Act::Writes(FIRST, 3, &[], true),
                Act::Writes(FIRST, 4, &[], false),
                Act::Writes(SECOND, 0, &[0], false),
                Act::Writes(SECOND, 0, &[], false),
                Act::Shows(FIRST, 0, 3, Some(&[6, 7, 8])),
                Act::Shows(FIRST, 2, 2, None),
                Act::Commits,
            ]),
            Step::Stores(FIRST, Some(&[6, 7, 8])),
        ],
    ),
    (
        "keys are those of stored values",
        &[
            Step::Puts(FIRST, &[5], true),
            Step::Runs(&[
                Act::HasKey(7, 0, 0, Some(FIRST)),
                Act::HasKey(7, 65536, 0, None),
            ]),
        ],
    ),
    (
        "values are put and taken again",
        &[
            Step::Runs(&[
                Act::Puts(FIRST, &[5], true),
                Act::Puts(SECOND, &[1, 2], true),
                Act::Puts(SECOND, &[0], false),
                Act::Writes(FIRST, 0, &[6], true),
                Act::Writes(SECOND, 1, &[9], true),
                Act::Takes(FIRST, Some(&[6])),
                Act::Takes(FIRST, None),
                Act::Puts(FIRST, &[7], true),
                Act::Takes(SECOND, Some(&[1, 9])),
                Act::Commits,
            ]),
            Step::Stores(FIRST, Some(&[7])),
            Step::Stores(SECOND, None),
        ],
    ),
    (
        "words that are lent are changed where they stand",
        &[
            Step::Puts(FIRST, &[1, 2, 3], true),
            Step::Runs(&[
                Act::Writes(FIRST, 0, &[9], true),
                Act::Writes(SECOND, 0, &[9], false),
                Act::Puts(SECOND, &[5], true),
                Act::Writes(SECOND, 0, &[8], true),
                Act::Shows(FIRST, 0, 3, Some(&[9, 2, 3])),
                Act::Commits,
            ]),
            Step::Stores(FIRST, Some(&[9, 2, 3])),
            Step::Stores(SECOND, Some(&[8])),
        ],
    ),
    // The second goes, and its place is given to another key.
    (
        "a key is read, edited, taken and put in turn, with another between",
        &[
            Step::Puts(FIRST, &[5], true),
            Step::Runs(&[
                Act::Reads(FIRST, Some(5)),
                Act::Writes(FIRST, 0, &[6], true),
                Act::Takes(FIRST, Some(&[6])),
                Act::Reads(FIRST, None),
                Act::Writes(FIRST, 0, &[7], false),
                Act::Has(FIRST, false),
                Act::Takes(FIRST, None),
                Act::Puts(FIRST, &[8], true),
                Act::Puts(FIRST, &[9], false),
                Act::Puts(SECOND, &[10], true),
                Act::Reads(FIRST, Some(8)),
                Act::Takes(SECOND, Some(&[10])),
                Act::Puts(FIRST, &[11], false),
                Act::Commits,
                Act::Has(SECOND, false),
                Act::PutsClaimed(THIRD, &[12], true),
                Act::PutsClaimed(THIRD, &[13], false),
                Act::Reads(SECOND, None),
                Act::Reads(FIRST, Some(8)),
                Act::Reads(THIRD, Some(12)),
            ]),
            Step::Stores(FIRST, Some(&[8])),
            Step::Stores(SECOND, None),
            Step::Stores(THIRD, None),
        ],
    ),
    (
        "a key that is claimed and gets no value leaves nothing, whether the run is kept or given up",
        &[
            Step::Runs(&[
                Act::Claims(FIRST, false),
                Act::Claims(FIRST, false),
                Act::Claims(SECOND, false),
                Act::Has(FIRST, false),
                Act::Reads(SECOND, None),
                Act::Takes(FIRST, None),
                Act::Writes(SECOND, 0, &[1], false),
            ]),
            Step::Stores(FIRST, None),
            Step::Counts(0),
            Step::Runs(&[
                Act::Claims(FIRST, false),
                Act::Claims(FIRST, false),
                Act::Claims(SECOND, false),
                Act::Has(FIRST, false),
                Act::Reads(SECOND, None),
                Act::Takes(FIRST, None),
                Act::Writes(SECOND, 0, &[1], false),
                Act::Commits,
                Act::Claims(FIRST, false),
                Act::Claims(FIRST, false),
                Act::Claims(SECOND, false),
                Act::Has(FIRST, false),
                Act::Reads(SECOND, None),
                Act::Takes(FIRST, None),
                Act::Writes(SECOND, 0, &[1], false),
            ]),
            Step::Counts(0),
        ],
    ),
    // What is put is seen by a claim, and a key that was taken is claimed again.
    (
        "a key is claimed twice and put",
        &[
            Step::Puts(FIRST, &[5], true),
            Step::Runs(&[
                Act::Claims(FIRST, true),
                Act::Claims(SECOND, false),
                Act::Claims(SECOND, false),
                Act::Puts(SECOND, &[6, 7], true),
                Act::Claims(SECOND, true),
                Act::Takes(FIRST, Some(&[5])),
                Act::Claims(FIRST, false),
                Act::PutsClaimed(FIRST, &[8], true),
                Act::PutsClaimed(FIRST, &[9], false),
                Act::Claims(THIRD, false),
                Act::Commits,
                Act::Claims(FIRST, true),
                Act::Claims(THIRD, false),
            ]),
            Step::Stores(FIRST, Some(&[8])),
            Step::Stores(SECOND, Some(&[6, 7])),
            Step::Stores(THIRD, None),
        ],
    ),
    (
        "a claim that gets no memory leaves all as it was, and so does the put after it",
        &[
            Step::Puts(FIRST, &[5], true),
            Step::Runs(&[Act::PutsOrRunsOut(SECOND, 6), Act::Has(FIRST, true)]),
            Step::Stores(SECOND, None),
            Step::Stores(FIRST, Some(&[5])),
        ],
    ),
];

#[test]
fn runs_change_the_storage_as_wanted(rt: HostRuntime) -> Result<(), Fail> {
    for (case, steps) in &CASES {
        let done = done_anew(rt.alloc(), steps)?;
        assert!(rt; done == steps.len(), "{case}: step {done}");
    }
    Ok(())
}

static VALUES: [(Key, u128); 4] = [(FIRST, 0), (SECOND, 1), (THIRD, 2), (FOURTH, 3)];

// Whether two keys in turn have their own values.
fn are_in_turn(
    overlay: &mut Overlay<'_>,
    one: &(Key, u128),
    other: &(Key, u128),
) -> Result<bool, AllocError> {
    let are_read = word(overlay, &one.0) == Some(one.1) && word(overlay, &other.0) == Some(other.1);
    let are_written = write(overlay, &other.0, 0, &[other.1])?
        && write(overlay, &one.0, 0, &[one.1])?;
    Ok(are_read && are_written && overlay.exists(&other.0))
}

// A storage with the values.
fn with_values(alloc: Global) -> Result<Storage, AllocError> {
    let mut storage = Storage::new(alloc);
    for (key, value) in &VALUES {
        set(&mut storage, *key, Some(*value))?;
    }
    Ok(storage)
}

// Each key has its own value, whichever was looked up before it.
#[test]
fn keys_follow_one_another(rt: HostRuntime) -> Result<(), Fail> {
    let mut storage = with_values(rt.alloc())?;
    for one in &VALUES {
        for other in &VALUES {
            assert!(rt;
                are_in_turn(&mut storage.overlay(), one, other)?,
                "{one:?} {other:?}"
            );
        }
    }
    Ok(())
}
