// The command line.
ghost use Rattle.std.specs.Prelude.{◌≡◌, [], ◌∷◌, IfOk, IfErr, IsTrue, OnOk, codes, false, map, option_and_then, option_map};
ghost use Rattle.clap.specs.Words.{app_of, fault_of, first_of, found_of, rows_of, rule_of, subcommand_of, subcommand_rows_of, takes};
ghost use Rattle.clap.specs.declared.builder.Command.TheViews.{out-Command};
ghost use Rattle.mv_commands.specs.Line.{apply, check, given_as, ledger_commands, migrate, moveledger, name_of, named_task, number_of, number_option, path_option, prove, task_in, seen, IsOfKind, IsWords};

use clap::error::ErrorKind;
use clap::{Arg, ArgMatches, Command, value_parser};
use std::alloc::{AllocError, Global};
use thiserror::Error;

/// What the program is asked to do.
#[derive(Clone, Copy, Debug, PartialEq, Eq)]
pub enum Task<'a> {
    /// Answer the records of a file.
    Apply {
        /// The file.
        file: &'a str,
        /// The file of the ledger to begin with; None for an empty ledger.
        load: Option<&'a str>,
        /// The file to keep the ledger in at the end.
        save: Option<&'a str>,
    },
    /// Print a certificate for the module of a file.
    Prove {
        /// The file.
        module: &'a str,
        /// The most steps that the search for it may take; None for any number of them.
        steps: Option<u64>,
    },
    /// Check the module of the first file with the text of a certificate in the second.
    Check(&'a str, &'a str),
    /// Convert the ledger of the first file to the current form, and write it to the second.
    Migrate(&'a str, &'a str),
}

/// Why there is no task.
#[derive(Debug, Drop, Error)]
pub enum LineError {
    /// The words aren't understood, or ask for help.
    #[error("{0}")]
    Words(clap::Error),
    /// An allocation failed.
    #[error("fault: memory")]
    Memory,
}

impl LineError {
    /// Whether the words ask for help, which this error has then.
    pub fn is_help(&self) -> bool
        ensures { IsTrue result → IsOfKind (ErrorKind.DisplayHelp ∷ ErrorKind.DisplayVersion ∷ []) self.now }
    {
        match self {
            LineError::Words(error) => !error.use_stderr(),
            LineError::Memory => false,
        }
    }
}

/// A name that has to be given, and what help says of it.
fn name_arg<'a>(alloc: Global, name: &'a str, help: &'a str) -> Arg<'a>
    ensures rule { rule_of result ≡ name_of name.entry.now }
    ensures local { result.global ≡ false }
{
    Arg::new(alloc, name).required(true).help(help)
}

/// An option that may be given, with the name of a file, and what help says of it.
fn path_option<'a>(alloc: Global, name: &'a str, help: &'a str) -> Arg<'a>
    ensures rule { rule_of result ≡ path_option name.entry.now }
    ensures local { result.global ≡ false }
{
    Arg::new(alloc, name)
        .long(name)
        .value_name("PATH")
        .help(help)
}

/// An option that may be given, with a number that 64 bits hold, and what help says of it.
fn number_option<'a>(alloc: Global, name: &'a str, help: &'a str) -> Arg<'a>
    ensures rule { rule_of result ≡ number_option name.entry.now }
    ensures local { result.global ≡ false }
{
    Arg::new(alloc, name)
        .long(name)
        .value_name("N")
        .value_parser(value_parser!(u64))
        .help(help)
}

/// `apply [--load PATH] [--save PATH] FILE`.
fn apply_command<'a>(alloc: Global) -> Result<Command<'a>, AllocError>
    ensures app { IfOk result (λ c. app_of c ≡ apply) }
    ensures local { IfOk result (λ c. (out-Command c).has_globals ≡ false) }
{
    Command::new(alloc, "apply")
        .about("Answer the records of a stream, and print the report")
        .after_help(
            "Example: moveledger apply --load coins.ledger --save coins.ledger today.stream",
        )
        .arg(path_option(
            alloc,
            "load",
            "Begin with the ledger that is saved in this file, and not with an empty one",
        ))?
        .arg(path_option(
            alloc,
            "save",
            "Save the ledger in this file once the input is answered to its end",
        ))?
        .arg(name_arg(alloc, "FILE", "The stream of records; - is standard input"))
}

/// `migrate OLD NEW`.
fn migrate_command<'a>(alloc: Global) -> Result<Command<'a>, AllocError>
    ensures app { IfOk result (λ c. app_of c ≡ migrate) }
    ensures local { IfOk result (λ c. (out-Command c).has_globals ≡ false) }
{
    Command::new(alloc, "migrate")
        .about("Convert a saved ledger to the current form")
        .after_help("Example: moveledger migrate old.ledger new.ledger")
        .arg(name_arg(alloc, "OLD", "A saved ledger of either form"))?
        .arg(name_arg(
            alloc,
            "NEW",
            "The file that is replaced by it, or made; it may be OLD",
        ))
}

/// `prove [--steps N] MODULE`.
fn prove_command<'a>(alloc: Global) -> Result<Command<'a>, AllocError>
    ensures app { IfOk result (λ c. app_of c ≡ prove) }
    ensures local { IfOk result (λ c. (out-Command c).has_globals ≡ false) }
{
    Command::new(alloc, "prove")
        .about("Print a certificate for a module, in hexadecimal, or why there is none")
        .after_help("Example: moveledger prove coin.module > coin.certificate")
        .arg(number_option(
            alloc,
            "steps",
            "Print `too long` if the search takes more than so many steps: each instruction, each time it is visited",
        ))?
        .arg(name_arg(
            alloc,
            "MODULE",
            "The bytes of a module; - is standard input",
        ))
}

/// `check MODULE CERT`.
fn check_command<'a>(alloc: Global) -> Result<Command<'a>, AllocError>
    ensures app { IfOk result (λ c. app_of c ≡ check) }
    ensures local { IfOk result (λ c. (out-Command c).has_globals ≡ false) }
{
    Command::new(alloc, "check")
        .about("Print `accepted` if a module passes with a certificate, or why not")
        .after_help("Example: moveledger check coin.module coin.certificate")
        .arg(name_arg(
            alloc,
            "MODULE",
            "The bytes of a module; - is standard input",
        ))?
        .arg(name_arg(
            alloc,
            "CERT",
            "The file with the text of its certificate, as prove prints it",
        ))
}

/// The program, with the commands over ledgers.
fn ledger_commands<'a>(alloc: Global) -> Result<Command<'a>, AllocError>
    ensures app { IfOk result (λ c. app_of c ≡ ledger_commands) }
    ensures local { IfOk result (λ c. (out-Command c).has_globals ≡ false) }
{
    Command::new(alloc, "moveledger")
        .about("A proved bytecode verifier for Move with a ledger of resources")
        .after_help(
            "Version: moveledger --version prints it\n\n\
             Exit status: 0 done; 1 a fault, which standard error names; 2 a mistake in the command line, or\n\
             help was asked for; 3 a module, a certificate or a saved ledger is refused, a module is too\n\
             complex, or a search too long.",
        )
        .subcommand_required(true)
        .subcommand(apply_command(alloc)?)?
        .subcommand(migrate_command(alloc)?)
}

/// The program's command line.
fn definition<'a>(alloc: Global) -> Result<Command<'a>, AllocError>
    ensures { IfOk result (λ c. app_of c ≡ moveledger) }
{
    ledger_commands(alloc)?
        .subcommand(prove_command(alloc)?)?
        .subcommand(check_command(alloc)?)
}

/// What was given under a name.
fn given<'a>(matches: &ArgMatches<'a>, id: &str) -> &'a str
    ensures { result.now ≡ given_as id.now (rows_of (found_of matches.now)) }
{
    matches.get_str(id).unwrap_or("")
}

/// What was given under the name of an option, if it was.
fn asked<'a>(matches: &ArgMatches<'a>, id: &str) -> Option<&'a str>
    ensures { option_map (λ s. s.now) result ≡ first_of id.now (rows_of (found_of matches.now)) }
{
    matches.get_str(id)
}

/// The number that a text writes, if 64 bits hold it.
fn number_of(text: &str) -> Option<u64>
    ensures { result ≡ number_of text.now }
{
    match text.parse::<u64>() {
        Ok(number) => Some(number),
        Err(_) => None,
    }
}

/// How many steps were given. What is given is a number: `definition` takes no other.
fn asked_steps(matches: &ArgMatches<'_>) -> Option<u64>
    ensures { result ≡ option_and_then number_of (first_of (codes "steps") (rows_of (found_of matches.now))) }
{
    number_of(asked(matches, "steps")?)
}

/// The task of a command by its name, with what was given to it.
fn named_task<'a>(name: &str, found: &ArgMatches<'a>) -> Task<'a>
    ensures { seen result ≡ named_task name.now (rows_of (found_of found.now)) }
{
    if name == "prove" {
        return Task::Prove {
            module: given(found, "MODULE"),
            steps: asked_steps(found),
        };
    }
    if name == "check" {
        return Task::Check(given(found, "MODULE"), given(found, "CERT"));
    }
    if name == "migrate" {
        return Task::Migrate(given(found, "OLD"), given(found, "NEW"));
    }
    Task::Apply {
        file: given(found, "FILE"),
        load: asked(found, "load"),
        save: asked(found, "save"),
    }
}

/// The task that matches have.
fn task_of<'a>(matches: &ArgMatches<'a>) -> Task<'a>
    ensures { seen result ≡ task_in (subcommand_rows_of matches.now) }
{
    match matches.subcommand() {
        None => Task::Apply {
            file: "",
            load: None,
            save: None,
        },
        Some((name, found)) => named_task(name, found),
    }
}

/// What is said of words that aren't UTF-8.
pub fn not_text(alloc: Global) -> LineError
    ensures { IsOfKind (ErrorKind.InvalidValue ∷ []) result }
{
    let Ok(mut command) = definition(alloc) else {
        return LineError::Memory;
    };
    match command.error(
        ErrorKind::InvalidValue,
        "invalid UTF-8 was detected in one or more arguments",
    ) {
        Ok(e) => LineError::Words(e),
        Err(_) => LineError::Memory,
    }
}

/// The task that a command line asks for.
///
/// # Errors
///
/// `Words` if the words aren't understood, or ask for help; `Memory` if an allocation failed.
pub fn command<'a>(alloc: Global, words: &'a [&'a str]) -> Result<Task<'a>, LineError>
    ensures task { IfOk result (λ task. seen task ≡ task_in (subcommand_of moveledger (map (λ w. w.now) words.entry.now))) }
    // There is one only where the definition finds no fault in the words.
    ensures taken { OnOk result (fault_of moveledger (map (λ w. w.now) words.entry.now) ≡ []) }
    // An error of words has a kind of the first fault in them.
    ensures kinds { IfErr result (IsOfKind (fault_of moveledger (map (λ w. w.now) words.entry.now))) }
    ensures words { IfErr result (λ e. IsWords e → takes moveledger (map (λ w. w.now) words.entry.now) ≡ false) }
{
    let Ok(command) = definition(alloc) else {
        return Err(LineError::Memory);
    };
    match command.try_get_matches_from(words) {
        Ok(matches) => Ok(task_of(&matches)),
        Err(e) if e.kind() == ErrorKind::OutOfMemory => Err(LineError::Memory),
        Err(e) => Err(LineError::Words(e)),
    }
}
