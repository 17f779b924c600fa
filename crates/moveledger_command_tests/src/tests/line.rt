// The command line, and how the program ends. The words that are refused stand in tests/python/test_exits.py.

use moveledger::{
    End, EngineError, KeepError, LimitError, ProveError, Task, command, end_of, end_of_check,
    end_of_keeping, end_of_proof, fault_text, status,
};
use mv_move_types::Refusal;
use std::alloc::Global;
use std::process::Abort;
use std::test::Fail;

// The words of a command line ask for this.
fn asks(rt: &impl Abort, alloc: Global, words: &[&str], wanted: Task<'_>) -> Result<(), Fail> {
    let task = command(alloc, words)?;
    assert_eq!(rt; task, wanted);
    Ok(())
}

#[test]
fn files_are_applied(rt: HostRuntime) -> Result<(), Fail> {
    let (file, load, save) = ("first-coin.stream", None, None);
    let words = ["moveledger", "apply", "first-coin.stream"];
    asks(&rt, rt.alloc(), &words, Task::Apply { file, load, save })
}

#[test]
fn ledgers_are_loaded_and_saved(rt: HostRuntime) -> Result<(), Fail> {
    let (file, load, save) = ("-", Some("old.ledger"), Some("new.ledger"));
    let words = [
        "moveledger",
        "apply",
        "--load",
        "old.ledger",
        "--save=new.ledger",
        "-",
    ];
    asks(&rt, rt.alloc(), &words, Task::Apply { file, load, save })?;
    let words = [
        "moveledger",
        "apply",
        "-",
        "--save",
        "new.ledger",
        "--load=old.ledger",
    ];
    asks(&rt, rt.alloc(), &words, Task::Apply { file, load, save })?;
    let load = None;
    let words = ["moveledger", "apply", "--save", "new.ledger", "-"];
    asks(&rt, rt.alloc(), &words, Task::Apply { file, load, save })?;
    let words = ["moveledger", "migrate", "old.ledger", "new.ledger"];
    asks(
        &rt,
        rt.alloc(),
        &words,
        Task::Migrate("old.ledger", "new.ledger"),
    )
}

#[test]
fn modules_are_proved_and_checked(rt: HostRuntime) -> Result<(), Fail> {
    let words = ["moveledger", "prove", "coin.module"];
    let (module, steps) = ("coin.module", None);
    asks(&rt, rt.alloc(), &words, Task::Prove { module, steps })?;
    let words = ["moveledger", "check", "coin.module", "coin.certificate"];
    asks(
        &rt,
        rt.alloc(),
        &words,
        Task::Check("coin.module", "coin.certificate"),
    )
}

#[test]
fn steps_are_a_number(rt: HostRuntime) -> Result<(), Fail> {
    let words = ["moveledger", "prove", "--steps", "5000", "coin.module"];
    let (module, steps) = ("coin.module", Some(5000));
    asks(&rt, rt.alloc(), &words, Task::Prove { module, steps })?;
    for wrong in ["", "-1", "5k", "18446744073709551616"] {
        let words = ["moveledger", "prove", "--steps", wrong, "coin.module"];
        assert!(rt; command(rt.alloc(), &words).is_err(), "{wrong}");
    }
    Ok(())
}

#[test]
fn ends_have_their_line_and_status(rt: HostRuntime) {
    for (end, line, wanted) in [
        (End::Done, None, 0),
        (End::Read, Some("fault: read\n"), 1),
        (End::Write, Some("fault: write\n"), 1),
        (End::Memory, Some("fault: memory\n"), 1),
        (End::Words, None, 2),
        (End::Refused(10), None, 3),
        (End::LoadRefused(5), None, 3),
        (End::TooComplex, None, 3),
        (End::TooLong, None, 3),
    ] {
        assert_eq!(rt; (fault_text(&end), status(&end)), (line, wanted));
    }
}

#[test]
fn ends_follow_what_a_command_made(rt: HostRuntime) {
    for (checked, wanted) in [
        (Ok(()), End::Done),
        (Err(Refusal::Phase(9)), End::Refused(9)),
        (Err(Refusal::Memory), End::Memory),
    ] {
        assert_eq!(rt; end_of_check(checked), wanted);
    }
    for (error, wanted) in [
        (
            LimitError::Unproved(ProveError::Refused(10)),
            End::Refused(10),
        ),
        (
            LimitError::Unproved(ProveError::TooComplex),
            End::TooComplex,
        ),
        (LimitError::Unproved(ProveError::Memory), End::Memory),
        (LimitError::TooLong, End::TooLong),
    ] {
        assert_eq!(rt; end_of_proof(&Err(error)), wanted);
    }
    for (kept, wanted) in [
        (Ok(()), End::Done),
        (Err(KeepError::Write(Some(28))), End::Write),
        (Err(KeepError::NoLedger), End::Write),
        (Err(KeepError::InUse), End::Write),
        (Err(KeepError::NoLock(None)), End::Write),
        (Err(KeepError::Name), End::Write),
        (Err(KeepError::Memory), End::Memory),
    ] {
        assert_eq!(rt; end_of_keeping(kept), wanted);
    }
}

#[test]
fn lost_reports_are_failed_writes(rt: HostRuntime) {
    for (answered, wanted) in [
        (Ok(()), End::Done),
        (Err(EngineError::Read), End::Read),
        (Err(EngineError::Write), End::Write),
        (Err(EngineError::Memory), End::Memory),
    ] {
        let ends = (end_of(answered, true), end_of(answered, false));
        assert_eq!(rt; ends, (wanted, End::Write));
    }
}
