// Which closed state is equal to the newest open record.
#![tactic(auto)]

pub mod homes;
pub mod newest;
pub mod same;
