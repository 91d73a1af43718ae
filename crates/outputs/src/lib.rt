// Output kinds: what a key is given, and how an image holds it.
#![tactic(auto)]

pub mod bits;
pub mod number;
pub mod output;
pub mod refusal;
pub mod sink;
pub mod source;
#[cfg(test)]
mod tests;
pub mod text;
