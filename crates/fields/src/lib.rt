//! Bit fields, read from and written to any store.
#![tactic(auto)]

mod counting;
mod mark;
mod numbers;
mod packing;
mod reading;
mod source;

pub use counting::Counter;
pub use mark::{MARK, has_mark, write_mark};
pub use numbers::number_in;
pub use packing::Packer;
pub use reading::{Cut, field};
pub use source::StoreBits;
