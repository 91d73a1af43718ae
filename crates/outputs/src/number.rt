// Whole numbers, joined by addition.
ghost use Rattle.std.specs.Prelude.{◌^◌, ◌<◌, drop};
ghost use Rattle.outputs.specs.Joins.{Read};
ghost use Rattle.outputs.specs.Numbers.{numbers};
ghost use Rattle.outputs.specs.NumberLaws.{numbers_lawful};
ghost use Rattle.std.proofs.Common.{rules, arith};

use crate::output::Output;
use crate::sink::BitSink;
use crate::source::{BitSource, Unread};

#[derive(Clone, Copy, PartialEq, Eq, Debug)]
pub struct Number {
    pub value: u32,
    ghost fits: { value < 2 ^ 32 },
}

impl Output for Number {
    ghost kind = { numbers };

    ghost meaning = { λ n. n.value };

    ghost digested = { λ n. n };

    ghost lawful = { numbers_lawful };

    ghost stored = { first_of (Prim.search rules, Prim.grind (arith, Self.row.coded.inj)) };

    fn kind_number() -> u8 {
        1
    }

    fn empty() -> Number {
        Number { value: 0 }
    }

    fn same(&self, other: &Number) -> bool {
        self == other
    }

    fn digest(&self) -> u64 {
        u64::from(self.value)
    }

    fn joins(&self, other: &Number) -> bool {
        self.value.checked_add(other.value).is_some()
    }

    fn join(&self, other: &Number) -> Number {
        match self.value.checked_add(other.value) {
            Some(value) => Number { value },
            None => Number::empty(),
        }
    }

    fn common(&self, other: &Number) -> Number {
        Number {
            value: self.value.min(other.value),
        }
    }

    fn rest(&self, prefix: &Number) -> Number {
        Number {
            value: self.value.saturating_sub(prefix.value),
        }
    }

    fn write<K: BitSink>(&self, sink: &mut K) {
        sink.put(self.value, 32);
    }

    fn read<B: BitSource>(source: &B, place: usize) -> Result<(Number, usize), Unread<B::Short>> {
        let value = source.field(place, 32)?;
        Ok((Number { value }, place + 32))
    }
}
