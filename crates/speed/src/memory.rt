//! The memory for a sheet: what is lent to a builder, to a store and to load.
use lending::Lent;
use outputs::output::Output;
use std::alloc::{AllocError, Global};

/// The most states and arcs of a dictionary.
const STATES: usize = 65_535;

const ARCS: usize = 131_071;

/// Twice as many slots as states, so that a search ends soon.
const SLOTS: usize = 131_072;

/// The most bytes of a store.
const BYTES: usize = 16_777_216;

/// Memory for the largest dictionary.
#[derive(Drop)]
pub struct Memory<O> {
    pub lent: Lent<O>,
    /// Room for an image.
    pub image: Vec<u8>,
    /// A working byte for each state that an image can have.
    pub working: Vec<u8>,
}

impl<O: Output> Memory<O> {
    pub fn new(heap: Global) -> Result<Memory<O>, AllocError> {
        Ok(Memory {
            lent: Lent::new(heap, STATES, ARCS, SLOTS)?,
            image: vec![in heap; 0u8; BYTES]?,
            working: working_room(heap)?,
        })
    }
}

/// A working byte for each state that an image can have.
pub fn working_room(heap: Global) -> Result<Vec<u8>, AllocError> {
    vec![in heap; 0u8; STATES]
}
