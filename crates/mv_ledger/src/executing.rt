// Runs: which are begun, and what they change.
ghost use Rattle.std.specs.Prelude.{◌≡◌, ◌<◌, ◌≤◌, ◌+◌, ℕ, All, IsTrue, length, map, IfOk, OnOk, OnErr};
ghost use Rattle.std.specs.List.{list_all};
ghost use Rattle.mv_move_types.specs.Limits.{most_runs, most_steps};
ghost use Rattle.mv_machine.specs.Ledger.{is_argument, are_arguments, with_signer as with_sender};
ghost use Rattle.mv_machine.specs.declared.Arg.{Arg as Argument};
ghost use Rattle.mv_frames.specs.Counters.{AtMost};
ghost use Rattle.mv_machine.specs.Arguments.{number_fits, arg_value};
ghost use Rattle.mv_interpreter.specs.Runs.{HasEnded};
ghost use Rattle.mv_ledger.specs.Changes.{RunsTo};
ghost use Rattle.mv_ledger.specs.Answering.{told};
ghost use Rattle.mv_ledger_state.specs.Asking.{request_of};
ghost use Rattle.mv_ledger.specs.ParameterTypes.{asked_type};
ghost use Rattle.mv_ledger.specs.Running.{AreFine, IsAdmitted, IsApplied, IsCallTo, IsRunOf};
ghost use Rattle.mv_ledger_state.specs.Tallying.{HasRoomLeft};
ghost use Rattle.mv_ledger_state.specs.View.{CanCount, IsSmall};
ghost use Rattle.mv_machine.specs.Tallies.{all_of};

use crate::Reply;
use mv_interface::{LinkedType, Part};
use mv_interpreter::{Arg, FuncId, RunError, Tally, run};
use mv_ledger_state::{Published, RunRecord, Store};
use mv_machine::{Ending, Outcome};
use mv_move_types::limits::{MOST_RUNS, MOST_STEPS};
use mv_move_types::{Definition, LeafKind};
use mv_storage::Storage;
use std::alloc::AllocError;

/// A call that may be run.
#[derive(Drop)]
pub struct Call {
    pub function: FuncId,
    pub arguments: Vec<Arg>,
    pub budget: u64,
}

/// Why a run is not begun.
#[derive(Clone, Copy)]
pub enum Barred {
    /// For this reason, from 2 to 7.
    Rejected(u8),
    /// A growth was refused.
    Memory,
}

impl From<AllocError> for Barred {
    ghost use Rattle.std.specs.Prelude.{◌≡◌};
    ghost use Rattle.mv_ledger.specs.declared.executing.Barred.TheVariants.{Memory};

    ghost from_gives = { λ _ e. e ≡ Memory };

    fn from(_: AllocError) -> Self {
        Barred::Memory
    }
}

/// The arguments with the sender in front, where the first parameter is a signer.
fn with_signer(
    sender: u128,
    types: &[LinkedType],
    mut arguments: Vec<Arg>,
) -> Result<Vec<Arg>, AllocError>
    requires { IsTrue (list_all (λ (a : Argument). number_fits a.kind a.number) arguments.items) }
    ensures range { IfOk result (λ v. IsTrue (list_all (λ (a : Argument). number_fits a.kind a.number) v.items)) }
    ensures value { IfOk result (λ v. map arg_value v.items ≡ with_sender sender (map asked_type types.now) (map arg_value arguments.items)) }
{
    if let Some(LinkedType::Plain(Part::Leaf(LeafKind::Signer))) = types.first() {
        let signer = Arg {
            kind: LeafKind::Signer,
            number: sender,
        };
        arguments.insert(0, signer)?;
    }
    Ok(arguments)
}

/// Whether an argument is of a parameter's type.
fn is_passed(of: LinkedType, argument: Arg) -> bool
    ensures { result ≡ is_argument (asked_type of) (arg_value argument) }
{
    match of {
        LinkedType::Plain(Part::Leaf(kind)) => kind == argument.kind,
        _ => false,
    }
}

/// Whether arguments are of parameters' types, one each.
fn are_passed(types: &[LinkedType], arguments: &[Arg]) -> bool
    ensures { result ≡ are_arguments (map asked_type types.now) (map arg_value arguments.now) }
{
    match types {
        [] => arguments.is_empty(),
        [first, types @ ..] => match arguments {
            [] => false,
            [argument, arguments @ ..] => {
                is_passed(*first, *argument) && are_passed(types, arguments)
            }
        },
    }
}

/// The call that a run record asks for.
///
/// # Errors
///
/// `Rejected` with the first reason against it: 2, a budget above 10,000,000; 3, no such module; 4, no such function in
/// it; 5, a function that is no entry; 6, arguments that are not of its parameters' types; 7, no further run may be had.
/// `Memory`, where a growth was refused.
pub fn admitted(store: &Store, runs: u64, asked: RunRecord<'_>) -> Result<Call, Barred>
    requires range { IsTrue (list_all (λ (a : Argument). number_fits a.kind a.number) asked.arguments.items) }
    ensures call { IfOk result (IsCallTo store.now) }
    ensures runs { OnOk result (runs < most_runs) }
    ensures budget { IfOk result (λ c. c.budget ≤ most_steps) }
    ensures admitted { IsAdmitted store.now runs (request_of asked.entry) result }
{
    // For the prover: at most 65,536 modules, so a place fits.
    let _modules = store.len();
    if asked.budget > MOST_STEPS {
        return Err(Barred::Rejected(2));
    }
    let place = store
        .find(asked.home, asked.module)
        .ok_or(Barred::Rejected(3))?;
    let (index, signature) = store
        .function(place, asked.function)
        .ok_or(Barred::Rejected(4))?;
    if !signature.is_entry {
        return Err(Barred::Rejected(5));
    }
    let types = signature.parameters;
    let arguments = with_signer(asked.sender, types, asked.arguments)?;
    if !are_passed(types, &arguments) {
        return Err(Barred::Rejected(6));
    }
    if runs >= MOST_RUNS {
        return Err(Barred::Rejected(7));
    }
    Ok(Call {
        function: Definition {
            place: place as u16,
            index: index as u16,
        },
        arguments,
        budget: asked.budget,
    })
}

/// Runs a call over the storage, which keeps what a run that returns has made of it; any other run is discarded, and so is one
/// that ends in an error. After a run that returns there is room for its tally.
fn run_over(
    published: &mut Published,
    storage: &mut Storage,
    call: &Call,
) -> Result<(Outcome, Tally), RunError>
    requires call { IsCallTo published.old.modules call.now }
    requires stored { AreFine published.old.modules storage.old.committed }
    ensures modules { published.new.modules ≡ published.old.modules }
    ensures tallies { published.new.tallies ≡ published.old.tallies }
    ensures published_marks { published.new.marks ≡ published.old.marks }
    ensures storage_marks { storage.new.marks ≡ storage.old.marks }
    ensures machine { IfOk result (λ r. IsRunOf published.old.modules storage.old call.now r.0 r.1.items storage.new.committed) }
    ensures fine { IfOk result (λ r. AreFine published.old.modules storage.new.committed) }
    ensures few { IfOk result (λ r. AtMost call.now.budget r.1.items) }
    ensures other { IfOk result (λ r. (HasEnded r.0 → ⊥) → storage.new.committed ≡ storage.old.committed) }
    ensures room { IfOk result (λ r. HasEnded r.0 → CanCount (length r.1.items) published.new) }
    ensures err { OnErr result (storage.new.committed ≡ storage.old.committed) }
{
    let mut overlay = storage.overlay();
    let ended = match run(
        &published.store,
        &mut overlay,
        call.function,
        &call.arguments,
        call.budget,
    ) {
        Ok(ended) => ended,
        Err(error) => {
            overlay.discard();
            return Err(error);
        }
    };
    if ended.0.ending != Ending::Returned {
        overlay.discard();
        return Ok(ended);
    }
    if published.make_room(&ended.1).is_err() {
        overlay.discard();
        return Err(RunError::Memory);
    }
    overlay.commit()?;
    Ok(ended)
}

/// Runs a call. A run that returns keeps what it made of the storage, and its tally is added; any other leaves both.
pub fn execute(published: &mut Published, storage: &mut Storage, call: &Call) -> Reply
    requires call { IsCallTo published.old.modules call.now }
    requires stored { AreFine published.old.modules storage.old.committed }
    requires room { All HasRoomLeft (all_of published.old.tallies) }
    requires budget { call.now.budget ≤ most_steps }
    ensures modules { published.new.modules ≡ published.old.modules }
    ensures published_marks { published.new.marks ≡ published.old.marks }
    ensures storage_marks { storage.new.marks ≡ storage.old.marks }
    ensures stored { AreFine published.old.modules storage.new.committed }
    ensures small { (runs : ℕ) → All (IsSmall runs) (all_of published.old.tallies) → All (IsSmall (runs + 1)) (all_of published.new.tallies) }
    ensures applied { IsApplied published.old.modules call.now (told result) storage.old.committed storage.new.committed
        (all_of published.old.tallies) (all_of published.new.tallies) }
    ensures kept { RunsTo (told result) storage.old.committed storage.new.committed
        (all_of published.old.tallies) (all_of published.new.tallies) }
{
    // For the prover: the tallies are those of the modules.
    published.is_tallied();
    match run_over(published, storage, call) {
        Ok((outcome, tally)) => {
            if outcome.ending == Ending::Returned {
                published.add_run(&tally);
            }
            storage.keep_tally(tally);
            Reply::Ran(outcome)
        }
        Err(RunError::Memory) => Reply::Memory,
    }
}
