//! A store as a source of bits, for outputs to read themselves from.
ghost use Rattle.std.specs.Prelude.{◌≡◌};
ghost use Rattle.outputs.specs.Bits.{spread};
ghost use Rattle.outputs.specs.Fields.{Field, field_width};
ghost use Rattle.fields.specs.Reads.{missing};
ghost use Rattle.fields.specs.Sources.{missing_steady};

use crate::reading::number_at;
use outputs::source::BitSource;
use stores::{Refusal, Store};

/// The bits of a store, the first at place 0.
///
/// A field that runs past the end is answered with the store's own refusal; the place of a whole code is its reader's to add.
#[derive(Drop)]
pub struct StoreBits<'a, S: Store> {
    store: &'a S,
}

impl<'a, S: Store> StoreBits<'a, S> {
    pub fn new(store: &'a S) -> StoreBits<'a, S>
        ensures { result.store.now ≡ store.now }
    {
        StoreBits { store }
    }
}

impl<S: Store> BitSource for StoreBits<'_, S> {
    type Short = Refusal;

    ghost all = { λ s. spread (S.Store.bytes s.store.now) };

    ghost lacks = { λ s place. missing place (S.Store.bytes s.store.now) };

    ghost steady = { λ s p q. missing_steady (S.Store.bytes s.store.now) p q };

    fn field(&self, place: usize, width: usize) -> Result<u32, Refusal> {
        number_at(self.store, place, width)
    }
}
