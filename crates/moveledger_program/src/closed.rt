// Standard input, output and error where one of them is closed when the program begins.
use crate::files::{STANDARD_INPUT_FILE, STANDARD_OUTPUT_FILE};
use moveledger::Looks;
use std::fs::{File, OpenOptions};

/// Where standard error is found by a name, to see what it is.
const STANDARD_ERROR_FILE: &str = "/dev/stderr";

/// A file of which nothing is left that is written to it.
const NOTHING: &str = "/dev/null";

/// What stands in the place of those that are closed, to the program's end. Otherwise a file that is opened would get its number: the
/// report would go into it.
#[derive(Drop)]
pub struct Closed {
    input: Option<File>,
    output: Option<File>,
    error: Option<File>,
}

impl Closed {
    /// Takes the numbers of those that are closed, in their order. Nothing can be read from such an input, nor written to such an
    /// output: who tries meets a fault.
    pub fn taken(rt: &HostRuntime) -> Self {
        let mut writing = OpenOptions::new();
        writing.write(true);
        let mut reading = OpenOptions::new();
        reading.read(true);
        Closed {
            input: in_place_of(rt, STANDARD_INPUT_FILE, &writing),
            output: in_place_of(rt, STANDARD_OUTPUT_FILE, &reading),
            error: in_place_of(rt, STANDARD_ERROR_FILE, &reading),
        }
    }

    /// Gives them back.
    pub fn end(self) {}
}

/// A file in the place of what has this name, if that is closed.
fn in_place_of(rt: &HostRuntime, name: &str, how: &OpenOptions) -> Option<File> {
    match rt.look_through(name) {
        Ok(None) => how.open(rt, NOTHING).ok(),
        _ => None,
    }
}
