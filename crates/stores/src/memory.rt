//! A store over lent memory.
ghost use Rattle.std.specs.Prelude.{cond, ◌≡◌, ◌+◌, ◌/◌, ◌<◌, ◌≤◌, length, take, if◌then◌else◌, slice_index, slice_set, Ok, Err};
ghost use Rattle.stores.specs.Refusals.{Checked};
ghost use Rattle.stores.specs.Reads.{At};
ghost use Rattle.stores.specs.Appends.{Appended, Wrote};
ghost use Rattle.stores.specs.Memories.{fits, Room};
ghost use Rattle.stores.specs.Sound.{sound_taken, short_of};
ghost use Rattle.stores.specs.Follows.{Grown, grown_stay, grown_more};
ghost use Rattle.stores.specs.declared.Refusal.TheVariants.{BadMemory as Refused};

use crate::cells::Cell;
use crate::{Refusal, Store};

/// The most bytes of a store.
const LIMIT: usize = 16_777_216;

/// A store over lent cells: its bytes are those of the cells in turn.
///
/// A slice with two counts beside it, since the memory is its owner's: there is no heap for a `Vec`.
#[derive(Drop)]
pub struct LentStore<'a, C: Cell> {
    memory: &'a mut [C],
    /// How many bytes from the start of the memory are the store's.
    used: usize,
    /// All bytes of the memory, or 0 where it cannot be a store.
    capacity: usize,
    ghost ok: { (used ≤ capacity) × (capacity ≤ length (C.all memory.now)) × (capacity ≤ 16777216) },
}

/// A store over lent bytes: byte `i` of the store is byte `i` of the memory.
pub type ByteStore<'a> = LentStore<'a, u8>;

/// A store over lent words: its bytes are those of the words in turn, the most significant first.
pub type WordStore<'a> = LentStore<'a, u32>;

impl<'a, C: Cell> LentStore<'a, C> {
    /// Refuses memory that `new` would leave unused.
    pub fn check(memory: &[C], used: usize) -> Result<(), Refusal>
        ensures { Checked (fits (C.span (length memory.now)) used) Refused result }
    {
        room::<C>(memory.len(), used)?;
        Ok(())
    }

    /// The store of the first `used` bytes, with room for all of the memory.
    /// Of memory that `check` refuses it is empty, with no room.
    pub fn new(memory: &'a mut [C], used: usize) -> LentStore<'a, C>
        ensures memory { result.memory.now ≡ memory.old }
        ensures used { result.used ≡ cond (fits (C.span (length memory.old)) used) used 0 }
        ensures capacity { result.capacity ≡ (if fits (C.span (length memory.old)) used then C.span (length memory.old) else 0) }
        ensures same { result.memory.ghost_name ≡ memory.entry.ghost_name }
    {
        let (used, capacity) = match room::<C>(memory.len(), used) {
            Ok(capacity) => (used, capacity),
            Err(_) => (0, 0),
        };
        LentStore {
            memory,
            used,
            capacity,
        }
    }

    /// The number of the cell that holds a byte.
    fn cell(&self, i: usize) -> usize
        requires { i < length (C.all self.now.memory.now) }
        ensures place { result ≡ i / C.SIZE }
        ensures there { result < length self.now.memory.now }
    {
        i / C::SIZE
    }

    fn byte(&self, i: usize) -> u8
        requires { i < self.now.used }
        ensures { result ≡ slice_index (C.all self.now.memory.now) i }
    {
        self.memory[self.cell(i)].byte(i % C::SIZE)
    }

    /// Puts a byte behind the last one.
    fn put(&mut self, byte: u8)
        requires { self.old.used < self.old.capacity }
        ensures memory { C.all self.new.memory.now ≡ slice_set (C.all self.old.memory.now) self.old.used byte }
        ensures used { self.new.used ≡ self.old.used + 1 }
        ensures capacity { self.new.capacity ≡ self.old.capacity }
        ensures same { self.new.memory.ghost_name ≡ self.old.memory.ghost_name }
    {
        let used = self.used;
        let place = self.cell(used);
        self.memory[place] = self.memory[place].with_byte(used % C::SIZE, byte);
        self.used += 1;
    }
}

/// All bytes of so many cells, or the refusal of memory that cannot be a store of which so many bytes are used.
fn room<C: Cell>(cells: usize, used: usize) -> Result<usize, Refusal>
    ensures { Room (fits (C.span cells) used) (C.span cells) Refused result }
{
    if cells > LIMIT / C::SIZE || used > C::SIZE * cells {
        return Err(Refusal::BadMemory);
    }
    Ok(C::SIZE * cells)
}

impl<C: Cell> Store for LentStore<'_, C> {
    ghost bytes = { λ s. take s.used (C.all s.memory.now) };

    ghost room = { λ s. s.capacity };

    ghost short = { λ s. short_of (take s.used (C.all s.memory.now)) s.capacity (sound_taken s.used s.capacity (C.all s.memory.now) s.ok) };

    ghost sound = { λ s. sound_taken s.used s.capacity (C.all s.memory.now) s.ok };

    ghost follows = { λ s t. Grown s.memory.ghost_name s.used (C.all s.memory.now) t.memory.ghost_name t.used (C.all t.memory.now) };

    ghost chained = { record { stay = λ s. grown_stay s.memory.ghost_name s.used (C.all s.memory.now); more = λ s t u. grown_more s.memory.ghost_name t.memory.ghost_name u.memory.ghost_name s.used t.used u.used (C.all s.memory.now) (C.all t.memory.now) (C.all u.memory.now) } };

    fn count(&self) -> usize {
        self.used
    }

    fn at(&self, i: usize) -> Result<u8, Refusal> {
        if i >= self.used {
            return Err(Refusal::Missing(i));
        }
        Ok(self.byte(i))
    }

    fn capacity(&self) -> usize {
        self.capacity
    }

    fn append(&mut self, byte: u8) -> Result<(), Refusal>
        ensures appended { Appended (take self.old.used (C.all self.old.memory.now)) self.old.capacity byte (take self.new.used (C.all self.new.memory.now)) self.new.capacity result }
        ensures follows { Grown self.old.memory.ghost_name self.old.used (C.all self.old.memory.now) self.new.memory.ghost_name self.new.used (C.all self.new.memory.now) }
        ensures wrote { Wrote (C.all self.old.memory.now) self.old.used byte (C.all self.new.memory.now) result }
        ensures same { self.new.memory.ghost_name ≡ self.old.memory.ghost_name }
    {
        if self.used == self.capacity {
            return Err(Refusal::Full);
        }
        self.put(byte);
        Ok(())
    }
}
