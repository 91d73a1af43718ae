//! What a line of a sheet says.

/// A key with its output.
#[derive(Clone, PartialEq, Drop)]
pub struct Pair<O> {
    pub key: Vec<u8>,
    pub output: O,
}
