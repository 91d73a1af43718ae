//! One state of a loaded image: its record, read through the index, part by part.
#![tactic(auto)]

mod outputs_at;
mod rows;
mod states;

pub use outputs_at::{behind_output, output_at};
pub use rows::{Arc, Arcs, Row, arc_output, byte_at, next_arc, pass_arc, target_at};
pub use states::{Opened, arcs_of, end_output, keys_from, open};
