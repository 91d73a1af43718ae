//! A builder of tag dictionaries in lent memory: pairs are added in ascending order, and sealed to the minimal transducer.
#![tactic(auto)]

pub mod builder;
pub mod lent;
pub mod refusal;

pub use builder::{Builder, Counts, Sealed};
pub use refusal::{MemoryRefusal, SealRefusal};
