// Texts as outputs, joined by concatenation.
ghost use Rattle.std.specs.Prelude.{length, take, nat_le};
ghost use Rattle.std.proofs.Common.{length-take, arith, le-leb};
ghost use Rattle.outputs.specs.Digests.{digest_from};
ghost use Rattle.outputs.specs.Texts.{texts, all_bytes};
ghost use Rattle.outputs.specs.TextLaws.{texts_lawful};
ghost use Rattle.std.proofs.lemmas.Bool.{and_from};
ghost use Rattle.outputs.specs.TextBytes.{all_bytes_take};

use super::reading::{read_length, read_octets};
use super::{LONGEST, Text, agreeing};
use crate::output::Output;
use crate::sink::BitSink;
use crate::source::{BitSource, Unread};

impl Output for Text {
    ghost kind = { texts };

    ghost meaning = { λ t. take t.len t.bytes };

    ghost digested = { digest_from 0 };

    ghost lawful = { texts_lawful };

    ghost stored = { λ x.
        and_from (nat_le (length (take x.len x.bytes)) 24) (all_bytes (take x.len x.bytes))
        (le-leb _ 24 (omega (arith, length-take x.len x.bytes, x.fits)))
        (all_bytes_take x.len x.bytes x.whole) };

    fn kind_number() -> u8 {
        2
    }

    fn empty() -> Text {
        Text::EMPTY
    }

    fn same(&self, other: &Text) -> bool {
        self.as_bytes() == other.as_bytes()
    }

    // A number gathered from the bytes.
    fn digest(&self) -> u64 {
        self.as_bytes().iter().fold(0, |gathered: u64, byte| {
            gathered.wrapping_mul(31).wrapping_add(u64::from(*byte))
        })
    }

    fn joins(&self, other: &Text) -> bool {
        self.len + other.len <= LONGEST
    }

    fn join(&self, other: &Text) -> Text {
        if self.joins(other) {
            self.followed_by(other.as_bytes())
        } else {
            Text::EMPTY
        }
    }

    fn common(&self, other: &Text) -> Text {
        let bytes = self.as_bytes();
        let alike = agreeing(bytes, other.as_bytes());
        // Most texts of a dictionary's arcs are empty: those are not laid out anew.
        if alike == self.len {
            return *self;
        }
        Text::EMPTY.followed_by(&bytes[..alike])
    }

    fn rest(&self, prefix: &Text) -> Text {
        // As most are.
        if prefix.len == 0 {
            return *self;
        }
        match self.as_bytes().strip_prefix(prefix.as_bytes()) {
            Some(behind) => Text::EMPTY.followed_by(behind),
            None => Text::EMPTY,
        }
    }

    // The length in five bits, then the bytes.
    fn write<K: BitSink>(&self, sink: &mut K) {
        sink.put(self.len as u32, 5);
        for byte in self.as_bytes() {
            sink.put(u32::from(*byte), 8);
        }
    }

    fn read<B: BitSource>(source: &B, place: usize) -> Result<(Text, usize), Unread<B::Short>> {
        let len = read_length(source, place)?;
        let bytes = read_octets(source, place + 5, len)?;
        Ok((Text { bytes, len }, place + 5 + 8 * len))
    }
}
