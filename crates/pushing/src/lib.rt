//! Pushing outputs along the open records, so that they share no more with a new output than they have to.
#![tactic(auto)]

pub mod along;
pub mod push;
pub mod reading;
