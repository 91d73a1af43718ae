//! A store from a place of another store on.
ghost use Rattle.std.specs.Prelude.{◌≡◌, ◌-◌, length, nat_le, refl};
ghost use Rattle.std.proofs.Common.{◌∙◌};
ghost use Rattle.stores.specs.Refusals.{Checked};
ghost use Rattle.stores.specs.Reads.{At};
ghost use Rattle.stores.specs.Appends.{Appended};
ghost use Rattle.stores.specs.Sound.{sound_dropped, short_of};
ghost use Rattle.stores.specs.Follows.{Joined, joined_stay, joined_more};
ghost use Rattle.stores.specs.Tails.{start as begin, tail as behind};
ghost use Rattle.stores.specs.declared.Refusal.TheVariants.{BadPlace as Refused};

use crate::{Refusal, Store};

/// The bytes of a store from a place on, as a store: byte 0 is the store's byte at the place.
///
/// It holds its store by value; `S` may be a store, a lent one (`&mut S`) or a shared one (`&S`).
/// A store over lent memory is itself lent or shared here: the checker does not follow a `ByteStore`
/// or a `WordStore` inside another struct by value.
#[derive(Drop)]
pub struct Tail<S> {
    store: S,
    /// Where it begins; past the count it means the count, until a byte is appended.
    place: usize,
}

impl<S: Store> Tail<S> {
    /// Refuses a place that `new` would move.
    pub fn check(store: &S, place: usize) -> Result<(), Refusal>
        ensures { Checked (nat_le place (length (S.Store.bytes store.now))) Refused result }
    {
        if place > store.count() {
            return Err(Refusal::BadPlace);
        }
        Ok(())
    }

    /// The store from the place on; from its end on where `check` refuses the place.
    pub fn new(store: S, place: usize) -> Tail<S>
        ensures store { result.store ≡ store }
        ensures place { result.place ≡ begin place (S.Store.bytes store) }
    {
        let place = place.min(store.count());
        Tail { store, place }
    }

    /// The store itself, with the bytes before the place and those that were appended.
    pub fn into_inner(self) -> S
        ensures { result ≡ self.store }
    {
        self.store
    }

    /// The place, or the count where that is less.
    fn start(&self) -> usize
        ensures { result ≡ begin self.now.place (S.Store.bytes self.now.store) }
    {
        self.place.min(self.store.count())
    }

    /// Fixes the place: one past the count would move as the store grows.
    fn settle(&mut self)
        ensures place { self.new.place ≡ begin self.old.place (S.Store.bytes self.old.store) }
        ensures store { self.new.store ≡ self.old.store }
    {
        self.place = self.start();
    }
}

impl<S: Store> Store for Tail<S> {
    ghost bytes = { λ s. behind s.place (S.Store.bytes s.store) };

    ghost room = { λ s. S.Store.room s.store - begin s.place (S.Store.bytes s.store) };

    ghost short = { λ s. short_of (behind s.place (S.Store.bytes s.store)) (S.Store.room s.store - begin s.place (S.Store.bytes s.store)) (sound_dropped (begin s.place (S.Store.bytes s.store)) (S.Store.room s.store) (S.Store.bytes s.store) (S.Store.sound s.store)) };

    ghost sound = { λ s. sound_dropped (begin s.place (S.Store.bytes s.store)) (S.Store.room s.store) (S.Store.bytes s.store) (S.Store.sound s.store) };

    ghost follows = { λ s t. Joined S.Store.follows (begin s.place (S.Store.bytes s.store)) s.store (begin t.place (S.Store.bytes t.store)) t.store };

    ghost chained = { record { stay = λ s. joined_stay S.Store.chained (begin s.place (S.Store.bytes s.store)) s.store; more = λ s t u. joined_more S.Store.chained (begin s.place (S.Store.bytes s.store)) (begin t.place (S.Store.bytes t.store)) (begin u.place (S.Store.bytes u.store)) s.store t.store u.store } };

    fn count(&self) -> usize {
        self.store.count() - self.start()
    }

    fn at(&self, i: usize) -> Result<u8, Refusal> {
        if i >= self.count() {
            return Err(Refusal::Missing(i));
        }
        self.store.at(self.start() + i)
    }

    fn capacity(&self) -> usize {
        self.store.capacity() - self.start()
    }

    fn append(&mut self, byte: u8) -> Result<(), Refusal> {
        self.settle();
        self.store.append(byte)
    }
}
