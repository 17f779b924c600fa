// What the program's words ask for, what it prints of modules, what it says where it ends, how it loads a ledger, and what saved ledgers answer. Tests of the
// engine, and of how a ledger is kept, are crates of their own.

mod authoring;
mod line;
mod loading;
mod rows;
mod saved;
