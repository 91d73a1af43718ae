//! Examples of fields at the edges: outputs written onto stores and read back, and codes that a store's end cuts.
#![tactic(auto)]

#[cfg(test)]
mod tests;
