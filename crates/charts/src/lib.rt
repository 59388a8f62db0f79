// What is told of a whole set: its chart room sheet.
#![tactic(auto)]

mod line;
pub mod sheet;
