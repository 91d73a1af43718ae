//! Sheets: lines of a key, a TAB and an output.
#![tactic(auto)]

mod cutting;
mod decimals;
mod pair;

pub use cutting::{Line, cut, first};
pub use decimals::decimal;
pub use pair::Pair;
