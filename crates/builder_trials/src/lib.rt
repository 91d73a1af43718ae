//! Trials: a builder's answers and its sealed dictionary beside a brute-force compiler.
#![tactic(auto)]

pub mod agreeing;
pub mod building;
pub mod lists;
#[cfg(test)]
mod tests;
pub mod trial;
