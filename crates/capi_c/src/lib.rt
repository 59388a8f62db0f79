// The calls of capi for C, as a static library: each export is one call of the function of its name, with the
// same arguments and clauses.
#![tactic(auto)]

mod build_calls;
mod rebuild_calls;
mod record_calls;
mod stats_calls;
