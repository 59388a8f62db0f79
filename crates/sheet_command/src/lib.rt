// The chart room sheet of a set file, for the duty pilot: the file comes on standard input, the pages go to
// standard output.
#![tactic(auto)]

pub mod program;
mod sheet;
