//! The format of an image, written once for every sink.
ghost use Rattle.std.specs.Prelude.{◌≡◌, ◌+◌, ◌^◌, ◌<◌, ◌≤◌, length};
ghost use Rattle.outputs.specs.Bits.{bits};
ghost use Rattle.images.specs.Images.{end_code, arc_bits, arcs_bits, record_bits, head_bits, places, index_bits, in_turn};
ghost use Rattle.records.specs.Holding.{arc_of, arcs_of, end_of};
ghost use Rattle.saving.specs.Standing.{record_of, records_of, machine_of, bits_of};

use crate::counting::{head_length, place_behind};
use crate::rows::Rows;
use fields::write_mark;
use outputs::output::Output;
use outputs::sink::BitSink;
use records::record::{Arc, State};

/// The code of the end output, if there is one.
fn write_end<O: Output, K: BitSink>(state: &State<O>, sink: &mut K)
    ensures { K.BitSink.took sink.old (end_code O.Output.kind (end_of O.Output.meaning state.now)) sink.new }
{
    if let Some(end) = &state.end {
        end.write(sink);
    }
}

/// The byte of an arc.
fn write_byte<O: Output, K: BitSink>(arc: &Arc<O>, sink: &mut K)
    ensures { K.BitSink.took sink.old (bits 8 arc.now.byte) sink.new }
{
    sink.put(u32::from(arc.byte), 8);
}

/// The number of the state that an arc leads to.
fn write_target<O: Output, K: BitSink>(arc: &Arc<O>, sink: &mut K)
    ensures { K.BitSink.took sink.old (bits 16 arc.now.target) sink.new }
{
    sink.put(u32::from(arc.target), 16);
}

/// An arc: its byte, its target and the code of its output.
fn write_arc<O: Output, K: BitSink>(arc: &Arc<O>, sink: &mut K)
    ensures { K.BitSink.took sink.old (arc_bits O.Output.kind (arc_of O.Output.meaning arc.now)) sink.new }
{
    write_byte(arc, sink);
    write_target(arc, sink);
    arc.output.write(sink);
}

/// Arcs one behind another.
fn write_arcs<O: Output, K: BitSink>(arcs: &[Arc<O>], sink: &mut K)
    ensures { K.BitSink.took sink.old (arcs_bits O.Output.kind (arcs_of O.Output.meaning arcs.now)) sink.new }
{
    for arc in arcs {
        write_arc(arc, sink);
    }
}

/// A state's record, with the arcs that are its own.
fn write_own<O: Output, K: BitSink>(state: &State<O>, own: &[Arc<O>], sink: &mut K)
    requires own { length own.now ≡ state.now.count }
    ensures { K.BitSink.took sink.old (record_bits O.Output.kind (record { end = end_of O.Output.meaning state.now; arcs = arcs_of O.Output.meaning own.now }) state.now.keys) sink.new }
{
    sink.put(u32::from(state.end.is_some()), 1);
    sink.put(state.count, 9);
    sink.put(state.keys, 20);
    write_end(state, sink);
    write_arcs(own, sink);
}

/// A state's record: end flag, arc count, the number of keys accepted from it, the end output's code, the arcs.
pub fn write_record<O: Output, K: BitSink>(state: &State<O>, arcs: &[Arc<O>], sink: &mut K)
    requires first { state.now.first ≤ length arcs.now }
    requires count { state.now.count ≤ state.now.first }
    ensures { K.BitSink.took sink.old (record_of O.Output.kind O.Output.meaning arcs.now state.now) sink.new }
{
    write_own(state, state.closed_arcs(arcs), sink);
}

/// Mark, kind number, states, arcs, keys and the start output.
pub fn write_head<'b, O: Output, K: BitSink>(rows: &Rows<'b, O>, sink: &mut K)
    ensures { K.BitSink.took sink.old (head_bits O.Output.kind (machine_of O.Output.kind O.Output.meaning rows.now) rows.now.keys) sink.new }
{
    write_mark(sink);
    sink.put(u32::from(O::kind_number()), 8);
    sink.put(rows.states.len() as u32, 16);
    sink.put(rows.arcs.len() as u32, 17);
    sink.put(rows.keys, 20);
    rows.start.write(sink);
}

/// Each record's place in 32 bits, where the first record begins at `base`.
fn write_index<'b, O: Output, K: BitSink>(rows: &Rows<'b, O>, base: usize, sink: &mut K)
    requires { base + length (in_turn (records_of O.Output.kind O.Output.meaning rows.now.arcs.now rows.now.states.now)) < 2 ^ 32 }
    ensures { K.BitSink.took sink.old (index_bits (places base (records_of O.Output.kind O.Output.meaning rows.now.arcs.now rows.now.states.now))) sink.new }
{
    let mut place = base;
    for state in rows.states {
        sink.put(place as u32, 32);
        place = place_behind(state, rows.arcs, place);
    }
}

/// The records one behind another.
fn write_records<'b, O: Output, K: BitSink>(rows: &Rows<'b, O>, sink: &mut K)
    ensures { K.BitSink.took sink.old (in_turn (records_of O.Output.kind O.Output.meaning rows.now.arcs.now rows.now.states.now)) sink.new }
{
    for state in rows.states {
        write_record(state, rows.arcs, sink);
    }
}

/// Head, index and records: all bits of the image.
pub fn write_image<'b, O: Output, K: BitSink>(rows: &Rows<'b, O>, sink: &mut K)
    ensures { K.BitSink.took sink.old (bits_of O.Output.kind O.Output.meaning rows.now) sink.new }
{
    let base = head_length(rows) + 32 * rows.states.len();
    write_head(rows, sink);
    write_index(rows, base, sink);
    write_records(rows, sink);
}
