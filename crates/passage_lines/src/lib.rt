// The lines of the program passage: reading them from blocks of input, taking them apart, and
// writing the lines of its output.
#![tactic(auto)]

mod bytes;
pub mod command;
mod fields;
pub mod hex;
pub mod input;
pub mod output;
pub mod reply;
mod text;
