// Numbers and bytes as text, for programs that print them and for sheets.
#![tactic(auto)]

pub mod output;
