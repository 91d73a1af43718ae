//! The rules of adding and of loading read a second time: plainly, and apart from the crates that follow them.
#![tactic(auto)]

pub mod adding;
pub mod reading;
pub mod row;
pub mod stop;
