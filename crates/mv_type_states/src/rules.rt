// What each instruction does to the types on the stack, by families.

pub mod control;
pub mod globals;
pub mod locals;
pub mod numbers;
pub mod references;
pub mod structs;
