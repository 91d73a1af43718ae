//! Bits packed onto a store.
ghost use Rattle.std.specs.Prelude.{◌≡◌, ◌%◌, ◌≤◌, min, [], ◌∷◌, Ok};
ghost use Rattle.outputs.specs.Bits.{bits};
ghost use Rattle.fields.specs.Rows.{whole};
ghost use Rattle.fields.specs.Packs.{Gave, Packs, Finishes, pending};
ghost use Rattle.fields.specs.PackLaws.{packs_nothing, packs_more};

use outputs::sink::BitSink;
use stores::{Refusal, Store};

/// A sink that appends each byte to its store as soon as its bits are complete.
///
/// It keeps the first refusal of its store, and appends nothing more after that. `S` may be a store or a lent one (`&mut S`).
#[derive(Drop)]
pub struct Packer<S> {
    store: S,
    /// The bits that wait for the rest of their byte (fewer than eight, and no heap) are the lowest of this, `filled % 8` of them.
    partial: u8,
    filled: usize,
    /// The first refusal of the store, if there was one.
    outcome: Result<(), Refusal>,
}

impl<S: Store> Packer<S> {
    pub fn new(store: S) -> Packer<S>
        ensures store { result.store ≡ store }
        ensures waits { pending result.filled result.partial ≡ [] }
        ensures outcome { result.outcome ≡ Ok tt }
    {
        Packer {
            store,
            partial: 0,
            filled: 0,
            outcome: Ok(()),
        }
    }

    /// Appends a byte, unless the store refused one before.
    fn give(&mut self, byte: u8)
        ensures given { Gave (S.Store.room self.old.store) (S.Store.bytes self.old.store) self.old.outcome (byte ∷ []) (S.Store.bytes self.new.store) self.new.outcome }
        ensures room { S.Store.room self.new.store ≡ S.Store.room self.old.store }
        ensures follows { S.Store.follows self.old.store self.new.store }
    {
        if self.outcome.is_err() {
            return;
        }
        self.outcome = self.store.append(byte);
    }

    /// Appends the whole bytes of a row of bits, the lowest `count` of a number.
    fn give_whole(&mut self, row: u64, count: usize)
        requires { count ≤ 64 }
        ensures given { Gave (S.Store.room self.old.store) (S.Store.bytes self.old.store) self.old.outcome (whole (bits count row)) (S.Store.bytes self.new.store) self.new.outcome }
        ensures room { S.Store.room self.new.store ≡ S.Store.room self.old.store }
        ensures follows { S.Store.follows self.old.store self.new.store }
    {
        // Where a byte lies in the row follows from its number: a chain of iterators is no plainer.
        for i in 0..count / 8 {
            let behind = count - 8 * i - 8;
            self.give(((row >> behind) % 256) as u8);
        }
    }

    /// Takes the lowest `width` bits of a number; a width over 32 counts as 32.
    fn take_bits(&mut self, value: u32, width: usize)
        ensures { Packs (S.Store.room self.old.store) (S.Store.bytes self.old.store) self.old.outcome (pending self.old.filled self.old.partial) (bits (min width 32) value) (S.Store.room self.new.store) (S.Store.bytes self.new.store) self.new.outcome (pending self.new.filled self.new.partial) × S.Store.follows self.old.store self.new.store }
    {
        let (row, count) = self.give_behind(value, width);
        self.partial = (row % 256) as u8;
        self.filled = count % 8;
    }

    /// Puts the bits of a number behind those that wait, appends their whole bytes, and gives the row of them all, with its length.
    fn give_behind(&mut self, value: u32, width: usize) -> (u64, usize)
        ensures { Packs (S.Store.room self.old.store) (S.Store.bytes self.old.store) self.old.outcome (pending self.old.filled self.old.partial) (bits (min width 32) value) (S.Store.room self.new.store) (S.Store.bytes self.new.store) self.new.outcome (pending (result.1 % 8) (result.0 % 256)) × S.Store.follows self.old.store self.new.store }
    {
        let width = width.min(32);
        let row = (u64::from(self.partial) << width) + u64::from(value) % (1 << width);
        let count = self.filled % 8 + width;
        self.give_whole(row, count);
        (row, count)
    }

    /// Fills the last byte with the lowest bits of a number.
    fn fill(&mut self, with: u32)
        ensures given { with ≡ 0 → Finishes (S.Store.room self.old.store) (S.Store.bytes self.old.store) self.old.outcome (pending self.old.filled self.old.partial) (S.Store.bytes self.new.store) self.new.outcome }
        ensures room { S.Store.room self.new.store ≡ S.Store.room self.old.store }
        ensures follows { S.Store.follows self.old.store self.new.store }
        ensures waits { pending self.new.filled self.new.partial ≡ [] }
    {
        let spare = (8 - self.filled % 8) % 8;
        self.take_bits(with, spare);
    }

    /// Fills the last byte with zero bits, and tells the first refusal, if there was one.
    ///
    /// Of all bits that the packer took, exactly their bytes are then appended, or as many of them as there was room for.
    /// It stays with its store, so that who lent the store learns what it holds.
    pub fn finish(&mut self) -> Result<(), Refusal>
        ensures packed { Finishes (S.Store.room self.old.store) (S.Store.bytes self.old.store) self.old.outcome (pending self.old.filled self.old.partial) (S.Store.bytes self.new.store) result }
        ensures room { S.Store.room self.new.store ≡ S.Store.room self.old.store }
        ensures follows { S.Store.follows self.old.store self.new.store }
        ensures waits { pending self.new.filled self.new.partial ≡ [] }
        ensures outcome { self.new.outcome ≡ result }
    {
        self.fill(0);
        self.outcome
    }

    /// The store, without the bits that wait.
    pub fn into_store(self) -> S
        ensures { result ≡ self.store }
    {
        self.store
    }
}

impl<S: Store> BitSink for Packer<S> {
    ghost took = { λ s row t. Packs (S.Store.room s.store) (S.Store.bytes s.store) s.outcome (pending s.filled s.partial) row (S.Store.room t.store) (S.Store.bytes t.store) t.outcome (pending t.filled t.partial) × S.Store.follows s.store t.store };

    ghost taking = { record { nothing = λ s. (packs_nothing (S.Store.room s.store) (S.Store.bytes s.store) s.outcome s.filled s.partial (S.Store.sound s.store), S.Store.chained.stay s.store); in_turn = λ s t u row more a b. (packs_more (S.Store.room s.store) (S.Store.room t.store) (S.Store.room u.store) (S.Store.bytes s.store) (S.Store.bytes t.store) (S.Store.bytes u.store) s.outcome t.outcome u.outcome (pending s.filled s.partial) (pending t.filled t.partial) (pending u.filled u.partial) row more a.0 b.0, S.Store.chained.more s.store t.store u.store a.1 b.1) } };

    fn put(&mut self, value: u32, width: usize) {
        self.take_bits(value, width);
    }
}
