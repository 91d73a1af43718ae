//! A sealed dictionary as it lies in memory.
ghost use Rattle.saving.specs.Shape.{Shaped, shaped_prop};

use records::record::{Arc, State};

pub mod closed;

/// The states of a sealed dictionary, with all that an image says of it.
#[derive(Drop)]
pub struct Rows<'b, O> {
    /// The states by number.
    pub states: &'b [State<O>],
    /// The arcs of all states.
    pub arcs: &'b [Arc<O>],
    /// What is put out before the first byte of every key.
    pub start: O,
    /// How many pairs it has.
    pub keys: u32,
    // The arcs of the states in turn are all arcs, as in the memory of a builder that is sealed.
    pub ghost shaped: { Shaped states.now arcs.now } by { shaped_prop states.now arcs.now },
}
