// What the instructions need of the edges, and what they do to them, by families.

pub mod calls;
pub mod locals;
pub mod references;
