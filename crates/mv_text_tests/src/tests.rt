// Texts of numbers, of entries and of modules, with ample memory.

mod entries;
mod modules;
mod numbers;
mod opcodes;
mod tokens;
