//! Taking a pair: whether its key is admitted, and what it adds to the open records.
#![tactic(auto)]

pub mod add;
pub mod admission;
pub mod extending;
pub mod refusal;
