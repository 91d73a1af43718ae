//! The mark at the start of an image.
ghost use Rattle.outputs.specs.Bits.{bits, spread};
ghost use Rattle.fields.specs.Reads.{cut_at};
ghost use Rattle.fields.specs.Marks.{mark as TD, pair_number, Holds};

use crate::reading::{Cut, field};
use outputs::sink::BitSink;
use stores::Store;

/// The letters TD, which save writes and load looks for.
pub const MARK: [u8; 2] = [b'T', b'D'];

/// Puts the mark.
pub fn write_mark<K: BitSink>(sink: &mut K)
    ensures { K.BitSink.took sink.old (bits 16 TD) sink.new }
{
    write_pair(sink, MARK);
}

/// Whether the mark stands at a bit place; a store that ends there is told as any cut field is.
pub fn has_mark<S: Store>(store: &S, place: usize) -> Result<bool, Cut>
    ensures { Holds TD (spread (S.Store.bytes store.now)) place (cut_at place (S.Store.bytes store.now)) result }
{
    holds_pair(store, place, MARK)
}

fn write_pair<K: BitSink>(sink: &mut K, pair: [u8; 2])
    ensures { K.BitSink.took sink.old (bits 16 (pair_number pair)) sink.new }
{
    sink.put(u32::from(u16::from_be_bytes(pair)), 16);
}

fn holds_pair<S: Store>(store: &S, place: usize, pair: [u8; 2]) -> Result<bool, Cut>
    ensures { Holds (pair_number pair) (spread (S.Store.bytes store.now)) place (cut_at place (S.Store.bytes store.now)) result }
{
    let number = field(store, place, 16)?;
    Ok(number == u32::from(u16::from_be_bytes(pair)))
}
