// The calls on sets as C functions on numbers and slices. A state is a number of lent words; the
// result is the refusal's number, 0 for accepted. What a call hands back goes to lent words, which
// a refusal leaves as they were. The calls that are made often stand in crates of their own
// (capi_get and so on), which use the words and answers here.
#![tactic(auto)]

pub mod answers;
pub mod build_calls;
pub mod load;
pub mod rebuild_calls;
pub mod record_calls;
pub mod stats_calls;
pub mod store;
pub mod words;
