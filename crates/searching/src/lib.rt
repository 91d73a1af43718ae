//! The key of an output, looked for in a loaded image.
#![tactic(auto)]

mod naming;
mod prefixes;
mod refusal;
mod seeking;

pub use naming::who;
pub use refusal::WhoRefusal;
