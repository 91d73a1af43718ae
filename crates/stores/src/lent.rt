//! A lent store is a store.
ghost use Rattle.std.specs.Prelude.{◌≡◌, length, refl};
ghost use Rattle.std.proofs.Common.{◌∙◌};
ghost use Rattle.stores.specs.Reads.{At};
ghost use Rattle.stores.specs.Appends.{Appended};
ghost use Rattle.stores.specs.Sound.{sound_full};
ghost use Rattle.stores.specs.Follows.{Joined, joined_stay, joined_more};

use crate::{Refusal, Store};

impl<S: Store> Store for &mut S {
    ghost bytes = { λ s. S.Store.bytes s.now };

    ghost room = { λ s. S.Store.room s.now };

    ghost short = { λ s. S.Store.short s.now };

    ghost sound = { λ s. S.Store.sound s.now };

    ghost follows = { λ s t. Joined S.Store.follows s.ghost_name s.now t.ghost_name t.now };

    ghost chained = { record { stay = λ s. joined_stay S.Store.chained s.ghost_name s.now; more = λ s t u. joined_more S.Store.chained s.ghost_name t.ghost_name u.ghost_name s.now t.now u.now } };

    fn count(&self) -> usize {
        S::count(*self)
    }

    fn at(&self, i: usize) -> Result<u8, Refusal> {
        S::at(*self, i)
    }

    fn capacity(&self) -> usize {
        S::capacity(*self)
    }

    fn append(&mut self, byte: u8) -> Result<(), Refusal> {
        S::append(*self, byte)
    }
}

/// A shared store can be read only: its capacity is its count, so it refuses every byte as full.
impl<S: Store> Store for &S {
    ghost bytes = { λ s. S.Store.bytes s.now };

    ghost room = { λ s. length (S.Store.bytes s.now) };

    ghost short = { λ s. S.Store.short s.now };

    ghost sound = { λ s. sound_full (S.Store.bytes s.now) (S.Store.short s.now) };

    ghost follows = { λ s t. t.now ≡ s.now };

    ghost chained = { record { stay = λ s. refl; more = λ s t u a b. b ∙ a } };

    fn count(&self) -> usize {
        S::count(*self)
    }

    fn at(&self, i: usize) -> Result<u8, Refusal> {
        S::at(*self, i)
    }

    fn capacity(&self) -> usize {
        S::count(*self)
    }

    fn append(&mut self, _byte: u8) -> Result<(), Refusal> {
        Err(Refusal::Full)
    }
}
