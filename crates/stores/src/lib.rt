//! Stores: lists of bytes with a capacity, over memory that someone else owns.
#![tactic(auto)]

mod cells;
mod lent;
mod memory;
mod runs;
mod tail;
#[cfg(test)]
mod tests;

ghost use Rattle.std.specs.Prelude.{◌≡◌, ℕ, ◌≤◌, List, length};
ghost use Rattle.stores.specs.Refusals.{number as numbered};
ghost use Rattle.stores.specs.Reads.{At};
ghost use Rattle.stores.specs.Appends.{Appended};
ghost use Rattle.stores.specs.Follows.{Chained};
ghost use Rattle.stores.specs.Sound.{Sound};

pub use cells::Cell;
pub use memory::{ByteStore, LentStore, WordStore};
pub use runs::{Answer, Call, Reply, ask, run, same_answers};
pub use tail::Tail;

/// Why a store did not do as it was asked.
#[derive(Clone, Copy, PartialEq, Eq, Debug)]
pub enum Refusal {
    /// No byte has this index.
    Missing(usize),
    /// The capacity is used up.
    Full,
    /// The memory exceeds 16,777,216 bytes, or has fewer bytes than are said to be used.
    BadMemory,
    /// The place exceeds the count.
    BadPlace,
}

impl Refusal {
    /// The number by which the refusal is reported; the numbers are the format's, and this call is promised by its name.
    pub fn number(&self) -> u8
        ensures { result ≡ numbered self.now }
    {
        match self {
            Refusal::Missing(_) => 11,
            Refusal::Full => 12,
            Refusal::BadMemory => 13,
            Refusal::BadPlace => 14,
        }
    }
}

/// A list of bytes that grows at its end, up to a capacity.
///
/// Code that only reads needs `bytes`, `short`, `count` and `at`; the rest is for code that appends.
pub trait Store {
    /// What the store holds.
    ghost bytes: { Self → List ℕ };

    /// How many bytes it can hold.
    ghost room: { Self → ℕ };

    ghost short: { (s : Self) → length (bytes s) ≤ 16777216 };

    ghost sound: { (s : Self) → Sound (bytes s) (room s) };

    /// The second store is the first after some appends, over the same memory.
    /// That the room stays is a clause beside it, for those who rest on the room and not on the memory.
    ghost follows: { Self → Self → Type 0 };

    ghost chained: { Chained follows };

    fn count(&self) -> usize
        ensures { result ≡ length (bytes self.now) };

    /// The byte with this index, or `Missing` exactly if there is none.
    fn at(&self, i: usize) -> Result<u8, Refusal>
        ensures { At (bytes self.now) i result };

    fn capacity(&self) -> usize
        ensures { result ≡ room self.now };

    /// Adds a byte at the end, or refuses with `Full` exactly if the count is the capacity.
    fn append(&mut self, byte: u8) -> Result<(), Refusal>
        ensures appended { Appended (bytes self.old) (room self.old) byte (bytes self.new) (room self.new) result }
        ensures follows { follows self.old self.new };
}
