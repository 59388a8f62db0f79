// The program passage: each line of its input is answered by a line of output, over areas of its own.
#![tactic(auto)]

mod answer;
mod areas;
mod output;
pub mod program;
mod source;
mod stage;
