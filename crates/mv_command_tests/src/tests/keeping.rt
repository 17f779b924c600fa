// What stands in a ledger's place, and beside it, whatever happens at whichever call of the programs that save there.

use crate::tests::disk::{Disk, Event, LEDGER, LINK, Program, Text};
use mv_commands::{KeepError, Looks, Seen, Stand, claim_place, keep, release};
use std::alloc::Global;
use std::process::Abort;

/// The ledger that stands there, that of somebody else, and those that programs save.
const OLD: &[u8] = b"MVL2o";

const OTHER: &[u8] = b"MVL2x";

const FIRST: &[u8] = b"MVL2a";

const SECOND: &[u8] = b"MVL2b";

/// What stands in the place before, and what is loaded.
#[derive(Clone, Copy, Debug, PartialEq, Eq)]
struct Before {
    stands: Option<&'static [u8]>,
    is_loaded: bool,
}

const BEFORE: [Before; 4] = [
    Before {
        stands: None,
        is_loaded: false,
    },
    Before {
        stands: Some(b""),
        is_loaded: false,
    },
    Before {
        stands: Some(OLD),
        is_loaded: true,
    },
    Before {
        stands: Some(OLD),
        is_loaded: false,
    },
];

/// A program claims the place of this name, loads what stands there if it is to, and saves a text.
fn saves(
    disk: &Disk,
    alloc: Global,
    who: u8,
    path: &str,
    is_loaded: bool,
    text: &[u8],
) -> Result<(), KeepError> {
    let rt = (Program { disk, who }, alloc);
    let load = if is_loaded { Some(path) } else { None };
    let stand = claim_place(&rt, path, None, load, disk)?;
    let loaded = match (&stand, is_loaded) {
        (Stand::Place(_), true) => seen(&rt, path)?,
        _ => None,
    };
    disk.is_loaded();
    let kept = keep(&rt, path, &stand, loaded, text, disk);
    release(&rt, stand);
    kept
}

/// What is found under a name.
fn seen<R: Looks>(rt: &R, path: &str) -> Result<Option<Seen>, KeepError> {
    Ok(rt.look_through(path)?.map(|found| found.seen))
}

/// A disk on which this stands, and on which this happens at a call.
fn disk_with(before: Before, event: Event, at: u32) -> Disk {
    let disk = Disk::new(event, at);
    if let Some(text) = before.stands {
        disk.has(LEDGER, text);
    }
    disk.has("other", OTHER);
    disk
}

// What has to be true at any moment: the old ledger is there, or the one that the first program went on with from it; what was saved
// is there; a name that had a ledger has a whole one.
fn nothing_is_lost(
    rt: &impl Abort,
    disk: &Disk,
    before: Before,
    saved: &[(&'static [u8], bool)],
    shows: &str,
    at: u32,
) {
    if before.stands == Some(OLD) {
        let is_there = disk.keeps(OLD) || before.is_loaded && disk.keeps(FIRST);
        assert!(rt; is_there, "{shows} at call {at}: the old ledger");
        let text = disk.text(LEDGER);
        let wholes = [OLD, FIRST, SECOND];
        let is_whole = wholes.iter().any(|whole| text == Some(Text::of(whole)));
        assert!(rt;
            is_whole,
            "{shows} at call {at}: a whole ledger in the place"
        );
    }
    for (text, is_saved) in saved {
        let is_there = !*is_saved || disk.keeps(text);
        assert!(rt; is_there, "{shows} at call {at}: a ledger that was saved");
    }
}

// Each call fails, one after the other.
#[test]
fn files_stay_whole_whichever_call_fails(rt: HostRuntime) {
    for before in BEFORE {
        for path in [LEDGER, LINK] {
            for at in 1..=MOST_CALLS {
                let disk = disk_with(before, Event::Fails, at);
                let kept = saves(&disk, rt.alloc(), 1, path, before.is_loaded, FIRST);
                let is_saved = kept == Ok(());
                nothing_is_lost(&rt, &disk, before, &[(FIRST, is_saved)], "fails", at);
                assert!(rt;
                    !is_saved || disk.text(LEDGER) == Some(Text::of(FIRST)),
                    "saved at {at}"
                );
                assert!(rt;
                    is_saved
                        || matches!(
                            kept,
                            Err(KeepError::Write(Some(5)) | KeepError::NoLock(Some(5)))
                        ),
                    "reason at {at}"
                );
                assert!(rt; at <= disk.called() || is_saved, "no call {at}");
            }
        }
    }
}

/// More calls than a save has.
const MOST_CALLS: u32 = 80;

// A program is killed, or the machine stops, at each call. Then another one saves there, which has loaded what stands there or
// nothing. Nothing of what ended well is lost, and no lock is left that keeps the second one off.
#[test]
fn killed_at_each_call_and_another_follows(rt: HostRuntime) {
    for event in [Event::Killed, Event::Stops, Event::StopsWithNames] {
        for before in BEFORE {
            for at in 1..=MOST_CALLS {
                let disk = disk_with(before, event, at);
                let first = saves(&disk, rt.alloc(), 1, LEDGER, before.is_loaded, FIRST);
                let is_first = first == Ok(());
                nothing_is_lost(&rt, &disk, before, &[(FIRST, is_first)], "killed", at);
                let second = saves(&disk, rt.alloc(), 2, LEDGER, false, SECOND);
                assert_eq!(rt;
                    second,
                    Ok(()),
                    "the second one after {at} of {event:?}, {before:?}"
                );
                let saved = [(FIRST, is_first), (SECOND, true)];
                nothing_is_lost(&rt, &disk, before, &saved, "followed", at);
                assert!(rt; !disk.has_leftovers(), "leftovers after {at}");
            }
        }
    }
}

// Somebody moves a ledger into the place, at each call: it stays, except where that is after the last look at it. Then it is the
// next call that puts the new ledger there.
#[test]
fn what_is_moved_in_stays(rt: HostRuntime) {
    for before in BEFORE {
        let mut lost = 0u32;
        for at in 1..=MOST_CALLS {
            let disk = disk_with(before, Event::Moved, at);
            let kept = saves(&disk, rt.alloc(), 1, LEDGER, before.is_loaded, FIRST);
            assert!(rt;
                kept != Ok(()) || disk.keeps(FIRST),
                "saved with one moved in at {at}"
            );
            let is_seen = !before.is_loaded || at > disk.loaded();
            if is_seen
                && at <= disk.called()
                && disk.text("other").is_none()
                && !disk.keeps(OTHER)
            {
                lost = lost.saturating_add(1);
            }
        }
        let window = if before.stands.is_some() { 1 } else { 0 };
        assert!(rt; lost <= window, "{lost} lost");
    }
}

// Two programs: the second one is refused while the first has the place, and saves after it.
#[test]
fn two_programs_save_in_turn(rt: HostRuntime) {
    let disk = disk_with(
        Before {
            stands: Some(OLD),
            is_loaded: false,
        },
        Event::Nothing,
        0,
    );
    let first = (
        Program {
            disk: &disk,
            who: 1,
        },
        rt.alloc(),
    );
    let Ok(stand) = claim_place(&first, LEDGER, None, None, &disk) else {
        assert!(rt; false, "no claim");
        return;
    };
    let refused = saves(&disk, rt.alloc(), 2, LEDGER, false, SECOND);
    assert!(rt; refused == Err(KeepError::InUse));
    let refused = saves(&disk, rt.alloc(), 2, LINK, false, SECOND);
    assert!(rt; refused == Err(KeepError::InUse));
    assert!(rt; keep(&first, LEDGER, &stand, None, FIRST, &disk) == Ok(()));
    release(&first, stand);
    assert!(rt; saves(&disk, rt.alloc(), 2, LEDGER, false, SECOND) == Ok(()));
    for (name, text) in [
        (LEDGER, SECOND),
        ("ledger.previous", OLD),
        ("ledger.previous-1", FIRST),
    ] {
        assert!(rt; disk.text(name) == Some(Text::of(text)), "{name}");
    }
    assert!(rt; !disk.has_leftovers());
}

// What isn't a ledger stays; nor is one saved by the program's own names.
#[test]
fn refused_places_are_as_they_were(rt: HostRuntime) {
    let text = Before {
        stands: Some(b"text"),
        is_loaded: false,
    };
    let disk = disk_with(text, Event::Nothing, 0);
    assert!(rt; saves(&disk, rt.alloc(), 1, LEDGER, false, FIRST) == Err(KeepError::NoLedger));
    assert!(rt; disk.text(LEDGER) == Some(Text::of(b"text")) && !disk.has_leftovers());
    for (name, error) in [
        ("", KeepError::Name),
        (".moveledger-lock-ledger", KeepError::Name),
        ("ledger/.moveledger-0", KeepError::Name),
        ("ledger/", KeepError::Write(Some(21))),
        ("..", KeepError::Write(Some(21))),
    ] {
        assert!(rt;
            saves(&disk, rt.alloc(), 1, name, false, FIRST) == Err(error),
            "{name}"
        );
    }
    assert!(rt; !disk.has_leftovers());
}
