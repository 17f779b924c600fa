// Functions of mv_storage with ample memory, and values from outside.

mod acts;
mod blocks;
mod filling;
mod steps;
mod storage;
