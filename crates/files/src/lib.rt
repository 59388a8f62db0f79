// A set as a file: five blocks, each a length, a kind and a content. Above the four crates, which know of
// files only the names of the refusals.
#![tactic(auto)]

mod blocks;
mod content;
mod copies;
mod counts;
pub mod load;
pub mod write;
