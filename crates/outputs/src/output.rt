// What every kind of outputs offers.
ghost use Rattle.std.specs.Prelude.{◌≡◌, ℕ, true, drop};
ghost use Rattle.outputs.specs.Kinds.{Kind, Laws};
ghost use Rattle.outputs.specs.Joins.{Tells, Read, join_or_empty};

use crate::sink::BitSink;
use crate::source::{BitSource, Unread};

// A storable output of some kind.
pub trait Output: Copy {
    // The kind: its ideal outputs, and what is asked of them.
    ghost kind: { Kind };

    // The ideal output that a value stands for.
    ghost meaning: { Self → kind.Ideal };

    // A number for each output, by which equal outputs are found quickly.
    ghost digested: { kind.Ideal → ℕ };

    // The number by which an image names the kind: it is the format's, so no enum of kinds stands here.
    fn kind_number() -> u8
        ensures { result ≡ kind.number };

    fn empty() -> Self
        ensures { meaning result ≡ kind.empty };

    // Equality of what values stand for, which need not be that of their fields.
    fn same(&self, other: &Self) -> bool
        ensures { Tells (meaning self.now) (meaning other.now) result };

    // The same number for equal outputs.
    fn digest(&self) -> u64
        ensures { result ≡ digested (meaning self.now) };

    // Whether the join is storable.
    fn joins(&self, other: &Self) -> bool
        ensures { result ≡ kind.storable (kind.join (meaning self.now) (meaning other.now)) };

    // The join, and the empty output where that is not storable.
    fn join(&self, other: &Self) -> Self
        ensures { meaning result ≡ join_or_empty kind (meaning self.now) (meaning other.now) };

    // The greatest common prefix.
    fn common(&self, other: &Self) -> Self
        ensures { meaning result ≡ kind.common (meaning self.now) (meaning other.now) };

    // What follows a prefix, and the empty output after what is none.
    fn rest(&self, prefix: &Self) -> Self
        ensures { meaning result ≡ kind.rest (meaning prefix.now) (meaning self.now) };

    // Writes the code.
    fn write<K: BitSink>(&self, sink: &mut K)
        ensures { K.BitSink.took sink.old (kind.code (meaning self.now)) sink.new };

    // Reads an output at a place, and gives it with the place behind its code. Nothing behind the code is fetched.
    fn read<B: BitSource>(source: &B, place: usize) -> Result<(Self, usize), Unread<B::Short>>
        ensures { Read kind meaning (kind.read (drop place (B.BitSource.all source.now))) place (B.BitSource.lacks source.now place) result };

    ghost lawful: { Laws kind };

    ghost stored: { (x : Self) → kind.storable (meaning x) ≡ true };
}
