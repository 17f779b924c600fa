// What stands in a file's place where a ledger is kept there.

mod disk;
mod keeping;
