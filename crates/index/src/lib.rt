// The index of a set: its words and its walk, the negative filter, segments, the packed index, and
// finding a record in either layout. The third of four crates.
#![tactic(auto)]

pub mod build;
pub mod filter;
pub mod find;
pub mod packed;
pub mod segments;
pub mod slot;
pub mod view;
pub mod word;
