//! Bits counted.
ghost use Rattle.std.specs.Prelude.{◌≡◌, ℕ, ◌^◌, ◌<◌, min};
ghost use Rattle.outputs.specs.Bits.{bits as row_of};
ghost use Rattle.fields.specs.Counts.{Counted, counted_nothing, counted_more};

use outputs::sink::BitSink;

/// A sink that only counts, so that what is written can be measured first by the same walk.
#[derive(Clone, Copy, PartialEq, Eq, Debug)]
pub struct Counter {
    /// How many bits it took; past the greatest number, that number.
    pub bits: usize,
    ghost fits: { bits < 2 ^ 64 },
}

impl Counter {
    pub fn new() -> Counter
        ensures { result.bits ≡ 0 }
    {
        Counter { bits: 0 }
    }

    /// Counts a field of so many bits, at most 32, whatever number it holds.
    fn count(&mut self, width: usize)
        ensures { (n : ℕ) → Counted self.old.bits (row_of (min width 32) n) self.new.bits }
    {
        self.bits = self.bits.saturating_add(width.min(32));
    }
}

impl BitSink for Counter {
    ghost took = { λ s row t. Counted s.bits row t.bits };

    ghost taking = { record { nothing = λ s. counted_nothing s.bits s.fits; in_turn = λ s t u row more. counted_more s.bits t.bits u.bits row more } };

    fn put(&mut self, _value: u32, width: usize) {
        self.count(width);
    }
}
