//! Reading calls on a loaded image: the output of a key, and its rank among the keys.
#![tactic(auto)]

mod finding;
mod joining;
mod ranking;
mod refusal;
mod seeking;
mod walking;

pub use finding::find;
pub use ranking::{rank, ranks_stand};
pub use refusal::ReadRefusal;
