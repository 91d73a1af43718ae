//! Fields of bits, read from a store.
ghost use Rattle.std.specs.Prelude.{◌≡◌, ◌+◌, ◌^◌, ◌<◌, ◌≤◌};
ghost use Rattle.outputs.specs.Bits.{spread};
ghost use Rattle.outputs.specs.Fields.{Field, field_width};
ghost use Rattle.fields.specs.Reads.{Gathered, Windowed, missing, cut_at};

use stores::{Refusal, Store};

/// A field that runs past the end of its store.
#[derive(Clone, Copy, PartialEq, Eq, Debug)]
pub struct Cut {
    /// The field's first bit.
    pub place: usize,
    /// What the store said of the first byte that is missing.
    pub refusal: Refusal,
}

/// The number in `width` bits at a bit place; a width of 0 counts as 1, and one over 32 as 32.
///
/// It asks the store once for each byte that holds a bit of the field, in their order, up to the first that is missing.
pub fn field<S: Store>(store: &S, place: usize, width: usize) -> Result<u32, Cut>
    ensures { Field (spread (S.Store.bytes store.now)) place (field_width width) (cut_at place (S.Store.bytes store.now)) result }
{
    number_at(store, place, width).map_err(|refusal| Cut { place, refusal })
}

/// The same, with the store's refusal alone.
pub(crate) fn number_at<S: Store>(store: &S, place: usize, width: usize) -> Result<u32, Refusal>
    ensures { Field (spread (S.Store.bytes store.now)) place (field_width width) (missing place (S.Store.bytes store.now)) result }
{
    let window = window_at(store, place, width)?;
    Ok(((window.row >> window.spare) % window.size) as u32)
}

/// The bytes that hold a field, as one number: the field is what stands above the lowest `spare` bits, modulo `size`.
#[derive(Clone, Copy)]
struct Window {
    row: u64,
    spare: usize,
    size: u64,
}

fn window_at<S: Store>(store: &S, place: usize, width: usize) -> Result<Window, Refusal>
    ensures { Windowed (spread (S.Store.bytes store.now)) place (field_width width) (missing place (S.Store.bytes store.now)) result }
{
    let width = width.clamp(1, 32);
    let end = place % 8 + width;
    let count = end.div_ceil(8);
    let row = gather(store, place / 8, count)?;
    Ok(Window {
        row,
        spare: count * 8 - end,
        size: 1 << width,
    })
}

/// So many bytes from a first one on, as one number, the first byte the most significant.
fn gather<S: Store>(store: &S, first: usize, count: usize) -> Result<u64, Refusal>
    requires { (first < 2 ^ 61) × (count ≤ 5) }
    ensures { Gathered (S.Store.bytes store.now) first count result }
{
    let mut row = 0u64;
    // A `for`, since `?` ends it at the first byte that is missing.
    for i in 0..count {
        row = row * 256 + u64::from(store.at(first + i)?);
    }
    Ok(row)
}
