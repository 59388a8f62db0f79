// What every other crate reads off a hash, and the setting of a set with its durations:
// the first of four crates, each of which sees only the contracts of those below.
#![tactic(auto)]

pub mod duration;
pub mod error;
pub mod hash;
pub mod setting;
pub mod zero_bytes;
