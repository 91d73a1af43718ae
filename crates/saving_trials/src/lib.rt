//! Small dictionaries saved: their images byte by byte, and what is refused.
#![tactic(auto)]

#[cfg(test)]
mod tests;
