//! Trials of the crate `outputs`: each call beside the plainest form of its outputs.
#![tactic(auto)]

pub mod agreement;
pub mod tape;
pub mod twin;
