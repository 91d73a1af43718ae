// The memory of a builder.
ghost use Rattle.records.specs.Lying.{Sound, sound_prop};

use crate::record::{Arc, State};
use stacks::stack::Stacks;

pub mod fresh;

// All that a builder works on, and how records always lie in it. What it stands for is `held`.
#[derive(Drop)]
pub struct Core<'a, O> {
    // Closed states by number from the low end; open records at the high end, the newest first.
    pub states: Stacks<'a, State<O>>,
    // Arcs of open records from the low end, those of the newest last; arcs of closed states at the high end.
    pub arcs: Stacks<'a, Arc<O>>,
    // The register of the closed states.
    pub slots: &'a mut [u16],
    // How many pairs were taken.
    pub pairs: u32,
    // What is put out before the first byte of every key.
    pub start: O,
    pub ghost sound: { Sound states arcs slots.now pairs } by { sound_prop states arcs slots.now pairs },
}
