//! Numbers in fields.
ghost use Rattle.std.specs.Prelude.{◌≡◌, ◌+◌, ◌^◌, ◌<◌, ◌≤◌, length, take, drop};
ghost use Rattle.outputs.specs.Bits.{spread, value};
ghost use Rattle.outputs.specs.Fields.{field_width};

use crate::reading::field;
use stores::Store;

/// The number in a field, and 0 if it runs past the end of its store: what reads an image that load took knows that the field is there. A width of 0 counts as 1, and one over 32 as 32.
pub fn number_in<S: Store>(store: &S, place: usize, width: usize) -> u32
    ensures value { place + field_width width ≤ length (spread (S.Store.bytes store.now)) → result ≡ value (take (field_width width) (drop place (spread (S.Store.bytes store.now)))) }
    ensures fits { result < 2 ^ field_width width }
{
    field(store, place, width).unwrap_or(0)
}
