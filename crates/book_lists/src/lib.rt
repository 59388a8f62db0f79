// Whole lists of calls as programs make them, out of the calls of crates/book: the contracts say that what
// a program is answered is what the world of the claim on lists answers.
#![tactic(auto)]

mod build_list;
mod rebuild_list;
