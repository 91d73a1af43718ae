// One lent slice for two lists that grow and shrink together.
#![tactic(auto)]

pub mod stack;
