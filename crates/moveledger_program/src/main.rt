//! moveledger: publishes Move modules, runs their entry functions, and reports what happened, record by record. It also makes
//! certificates for modules, and checks modules with them.
//!
//! ```text
//! moveledger apply [--load PATH] [--save PATH] FILE
//! moveledger migrate OLD NEW
//! moveledger prove [--steps N] MODULE
//! moveledger check MODULE CERT
//! ```
#![tactic(auto)]

mod buffered;
mod closed;
mod files;
mod following;
mod kinds;
mod meter;
mod program;
mod saving;
mod told;

use closed::Closed;
use std::process::ExitCode;

fn main(rt: HostRuntime) -> ExitCode {
    let closed = Closed::taken(&rt);
    let status = program::run(&rt);
    closed.end();
    ExitCode::from(status)
}
