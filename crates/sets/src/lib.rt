// Sets of records: a builder that is opened, filled and finished, the finished set that answers, and
// its rebuild.
// The fourth of four crates.
#![tactic(auto)]

pub mod areas;
mod build_questions;
pub mod builder;
pub mod cache;
pub mod kept;
pub mod lookup;
mod marks;
mod questions;
pub mod rebuild;
mod rebuild_finish;
pub mod rebuild_questions;
pub mod stats;
