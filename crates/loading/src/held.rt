//! A store that load has taken.
ghost use Rattle.std.specs.Prelude.{◌≡◌, ◌^◌, ◌<◌};

use outputs::output::Output;
use stores::Store;

mod taking;

pub use taking::load;

/// A store whose bytes begin with an image that load has tested. Only load makes one.
///
/// It holds its store by value; `S` may be a store, a lent one (`&mut S`) or a shared one (`&S`).
// Clauses speak of each machine that it `Holds`: the machine cannot be its model's value, whose type may not depend on the kind, nor stand in a ghost field, which holds a fact alone.
#[derive(Drop)]
pub struct Loaded<O, S> {
    store: S,
    /// The start state, which is the last.
    start: u16,
    /// Where the index begins.
    index: u32,
    start_output: O,
}

impl<O: Output, S: Store> Loaded<O, S> {
    pub fn store(&self) -> &S
        ensures { result.now ≡ self.now.store }
    {
        &self.store
    }

    /// The start state, which is the last.
    pub fn start(&self) -> usize
        ensures state { result ≡ self.now.start }
        ensures within { result < 2 ^ 16 }
    {
        usize::from(self.start)
    }

    /// The bit place of the index.
    pub fn index(&self) -> u32
        ensures { result ≡ self.now.index }
    {
        self.index
    }

    pub fn start_output(&self) -> O
        ensures { result ≡ self.now.start_output }
    {
        self.start_output
    }
}
