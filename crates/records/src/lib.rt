// The records of a builder: the arcs and states in its lent memory, and what they stand for.
#![tactic(auto)]

pub mod memory;
pub mod record;
