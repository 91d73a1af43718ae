//! How many bits a part of an image comes to.
ghost use Rattle.std.specs.Prelude.{◌≡◌, ◌+◌, ◌/◌, ◌^◌, ◌<◌, ◌≤◌, length};
ghost use Rattle.images.specs.Images.{head_bits};
ghost use Rattle.saving.specs.Standing.{record_of, machine_of, bits_of};

use crate::rows::Rows;
use crate::writing::{write_head, write_image, write_record};
use fields::Counter;
use outputs::output::Output;
use records::record::{Arc, State};

/// The place behind a state's record that begins at a place.
pub fn place_behind<O: Output>(state: &State<O>, arcs: &[Arc<O>], place: usize) -> usize
    requires first { state.now.first ≤ length arcs.now }
    requires count { state.now.count ≤ state.now.first }
    requires small { place + length (record_of O.Output.kind O.Output.meaning arcs.now state.now) < 2 ^ 32 }
    ensures { result ≡ place + length (record_of O.Output.kind O.Output.meaning arcs.now state.now) }
{
    let mut counter = Counter { bits: place };
    write_record(state, arcs, &mut counter);
    counter.bits
}

/// The length of the head.
pub fn head_length<'b, O: Output>(rows: &Rows<'b, O>) -> usize
    ensures { result ≡ length (head_bits O.Output.kind (machine_of O.Output.kind O.Output.meaning rows.now) rows.now.keys) }
{
    let mut counter = Counter::new();
    write_head(rows, &mut counter);
    counter.bits
}

/// How many bits the image has.
pub fn image_length<'b, O: Output>(rows: &Rows<'b, O>) -> usize
    ensures is { result ≡ length (bits_of O.Output.kind O.Output.meaning rows.now) }
    ensures small { result < 2 ^ 26 }
{
    let mut counter = Counter::new();
    write_image(rows, &mut counter);
    counter.bits
}

/// How many bytes the image has.
pub fn image_bytes<'b, O: Output>(rows: &Rows<'b, O>) -> usize
    ensures { result ≡ (length (bits_of O.Output.kind O.Output.meaning rows.now) + 7) / 8 }
{
    (image_length(rows) + 7) / 8
}
