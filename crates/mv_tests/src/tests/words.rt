// The words of frames, and what runs count.
ghost use Rattle.std.specs.Prelude.{◌≡◌, ◌<◌, [], length};

use mv_frames::{Counters, Halt, StructTally, Words};
use mv_move_types::Definition;
use std::test::Fail;

#[test]
fn words_of_two_frames(rt: HostRuntime) -> Result<(), Fail> {
    let mut locals = Words::new(rt.alloc());
    let mut operands = Words::new(rt.alloc());
    assert!(rt; locals.extend([1, 2].as_slice()).is_ok());
    assert!(rt; locals.open(2).is_ok());
    assert_eq!(rt; locals.as_slice(), [1, 2, 0, 0].as_slice());
    assert!(rt; locals.splice_word(2, 7).is_ok());
    assert_eq!(rt; locals.as_slice(), [1, 2, 7, 0].as_slice());
    assert!(rt; operands.push(9).is_ok());
    assert!(rt; operands.copy(&locals, 0, 3).is_ok());
    assert!(rt; operands.copy(&locals, 1, 2).is_ok());
    assert!(rt; operands.copy_word(&locals, 2).is_ok());
    assert_eq!(rt; operands.as_slice(), [9, 1, 2, 7, 2, 7, 7].as_slice());
    assert!(rt; matches!(operands.top(4), Ok(3)));
    assert!(rt; locals.splice(2, [5, 6].as_slice()).is_ok());
    assert!(rt; locals.splice(0, [3].as_slice()).is_ok());
    assert!(rt; locals.splice(4, [].as_slice()).is_ok());
    assert_eq!(rt; locals.as_slice(), [3, 2, 5, 6].as_slice());
    assert!(rt; locals.splice(0, [8, 8, 8].as_slice()).is_ok());
    assert_eq!(rt; locals.as_slice(), [8, 8, 8, 6].as_slice());
    operands.cut(1);
    assert!(rt; matches!(operands.pop(), Ok(9)));
    assert!(rt; matches!(operands.pop(), Err(Halt::Stuck)));
    assert_eq!(rt; operands.len(), 0);
    Ok(())
}

#[test]
fn words_that_are_not_there(rt: HostRuntime) -> Result<(), Fail> {
    let mut locals = Words::new(rt.alloc());
    let mut operands = Words::new(rt.alloc());
    assert!(rt; locals.extend([1, 2].as_slice()).is_ok());
    assert!(rt; operands.extend([3, 4, 5].as_slice()).is_ok());
    assert!(rt; matches!(operands.copy(&locals, 1, 2), Err(Halt::Stuck)));
    assert!(rt; matches!(operands.copy_word(&locals, 2), Err(Halt::Stuck)));
    assert!(rt; matches!(operands.top(4), Err(Halt::Stuck)));
    assert_eq!(rt; operands.as_slice(), [3, 4, 5].as_slice());
    assert!(rt; matches!(locals.splice(1, [6, 7].as_slice()), Err(Halt::Stuck)));
    assert!(rt; matches!(locals.splice_word(2, 6), Err(Halt::Stuck)));
    assert_eq!(rt; locals.as_slice(), [1, 2].as_slice());
    Ok(())
}

#[test]
fn words_that_hold_what_they_held(rt: HostRuntime) -> Result<(), Fail> {
    let mut words = Words::new(rt.alloc());
    assert!(rt; words.extend([1, 2, 3].as_slice()).is_ok());
    words.cut(1);
    assert!(rt; words.open(0).is_ok());
    assert_eq!(rt; words.as_slice(), [1].as_slice());
    assert!(rt; words.open(2).is_ok());
    assert_eq!(rt; words.as_slice(), [1, 2, 3].as_slice());
    Ok(())
}

#[test]
fn words_past_their_first_room(rt: HostRuntime) -> Result<(), Fail> {
    let mut locals = Words::new(rt.alloc());
    let mut operands = Words::new(rt.alloc());
    assert!(rt; locals.open(31).is_ok());
    assert!(rt; locals.extend([1, 2].as_slice()).is_ok());
    assert!(rt; operands.push(7).is_ok());
    assert!(rt; operands.copy(&locals, 0, 33).is_ok());
    assert!(rt; operands.copy(&locals, 1, 32).is_ok());
    assert!(rt; locals.open(100).is_ok());
    assert_eq!(rt; locals.len(), 133);
    assert_eq!(rt; operands.len(), 66);
    assert!(rt; matches!(operands.pop(), Ok(2)));
    assert!(rt; matches!(operands.pop(), Ok(1)));
    assert!(rt; matches!(operands.pop(), Ok(0)));
    operands.cut(34);
    assert!(rt; matches!(operands.pop(), Ok(2)));
    operands.cut(1);
    assert!(rt; matches!(operands.pop(), Ok(7)));
    Ok(())
}

// The struct at an index of the module at a place.
fn of(place: u16, index: u16) -> Definition {
    Definition { place, index }
}

// A tally of it.
fn tally(place: u16, index: u16, packs: u64, unpacks: u64) -> StructTally {
    StructTally {
        place,
        index,
        packs,
        unpacks,
    }
}

// Counts values made and taken apart.
fn counted(counters: &mut Counters, values: &[(bool, Definition)]) -> Result<(), Halt>
    requires clear { counters.old ≡ [] }
    requires few { length values.now < 100 }
{
    for value in values {
        counters.count(value.0, value.1)?;
    }
    Ok(())
}

#[test]
fn counts_of_several_structs(rt: HostRuntime) -> Result<(), Fail> {
    let (made, apart) = (true, false);
    let values = [
        (made, of(2, 5)),
        (made, of(0, 0)),
        (apart, of(2, 5)),
        (made, of(2, 5)),
        (apart, of(2, 3)),
        (apart, of(0, 0)),
        (apart, of(0, 0)),
    ];
    let wanted = [tally(2, 5, 2, 1), tally(0, 0, 1, 2), tally(2, 3, 0, 1)];
    let mut counters = Counters::new(rt.alloc());
    assert!(rt; counted(&mut counters, values.as_slice()).is_ok());
    assert_eq!(rt; counters.into_tally().as_slice(), wanted.as_slice());
    Ok(())
}

#[test]
fn counts_of_many_structs(rt: HostRuntime) -> Result<(), Fail> {
    let values = [
        (true, of(1, 0)),
        (true, of(1, 9)),
        (true, of(1, 2)),
        (true, of(1, 7)),
        (true, of(1, 4)),
        (true, of(1, 5)),
        (true, of(1, 6)),
        (true, of(1, 3)),
        (true, of(1, 8)),
        (true, of(1, 1)),
        (true, of(0, 1)),
        (false, of(1, 1)),
        (true, of(0, 1)),
        (false, of(1, 8)),
        (true, of(1, 3)),
    ];
    let wanted = [
        tally(1, 0, 1, 0),
        tally(1, 9, 1, 0),
        tally(1, 2, 1, 0),
        tally(1, 7, 1, 0),
        tally(1, 4, 1, 0),
        tally(1, 5, 1, 0),
        tally(1, 6, 1, 0),
        tally(1, 3, 2, 0),
        tally(1, 8, 1, 1),
        tally(1, 1, 1, 1),
        tally(0, 1, 2, 0),
    ];
    let mut counters = Counters::new(rt.alloc());
    assert!(rt; counted(&mut counters, values.as_slice()).is_ok());
    assert_eq!(rt; counters.into_tally().as_slice(), wanted.as_slice());
    Ok(())
}
