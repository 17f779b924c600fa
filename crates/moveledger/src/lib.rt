//! The engine, the command line and the statuses of moveledger, and how a saved ledger takes its file's place: all of it but the
//! files that are read, which the program above this crate opens.
//!
//! ```
//! use moveledger::{EngineError, engine};
//! use mv_ledger::Ledger;
//! use std::alloc::Global;
//!
//! /// How many records these bytes are. A new ledger answers them, and the report is put behind what the writer has.
//! fn example(alloc: Global, mut records: &[u8], report: &mut Vec<u8>) -> Result<u64, EngineError> {
//!     engine(&mut records, report, &mut Ledger::new(alloc))
//! }
//! ```
#![tactic(auto)]

mod answering;
mod authoring;
mod blocks;
mod checking;
mod continuing;
mod ending;
mod inputs;
mod modules;
mod pacing;
mod printing;
mod proving;
mod reading;
mod records;
mod reporting;
mod saved;
mod streaming;

pub use authoring::{check_module, prove_module};
pub use blocks::{each_block_comes_back, each_report_keeps_marks, each_stop_keeps_marks};
pub use checking::check_text;
pub use continuing::answer_on;
pub use ending::{
    End, end_of, end_of_check, end_of_keeping, end_of_proof, end_of_words, ended, fault_text,
    status,
};
pub use mv_analyser::{LimitError, ProveError};
pub use mv_commands::{
    Found, Hold, KeepError, LineError, Looks, Notice, Place, Seen, Sort, Stand, Task, Tell,
    claim_place, command, is_one, keep, not_text, release,
};
pub use mv_ledger::{
    ChangedModules, Changes, Entries, Format, Ledger, Lines, LoadError, Modules, Page, Saving,
    Side, StructName, Tally,
};
pub use pacing::{AfterRecord, Gathering, MOST_LINE_BYTES, Prompt, Reserving};
pub use proving::{prove_text, prove_text_within};
pub use records::{Front, first_record};
pub use reporting::{report, report_file};
pub use saved::{end_of_text, loaded, migrated, text_to_keep};
pub use streaming::{EngineError, answer_from, engine, one_reading, one_report};
