//! States of a loaded image, through its index.
ghost use Rattle.std.specs.Prelude.{◌≡◌, ◌^◌, ◌<◌, slice_index};
ghost use Rattle.outputs.specs.Meanings.{meant};
ghost use Rattle.machines.specs.Lists.{at};
ghost use Rattle.machines.specs.Machines.{State, Machine};
ghost use Rattle.machines.specs.Counts.{counts_of};
ghost use Rattle.loading.specs.Loading.{Holds};
ghost use Rattle.lookups.specs.Lookups.{bits_of, Opens, OpenedAs, RowOf};

use crate::outputs_at::{behind_output, output_at};
use crate::rows::Row;
use fields::number_in;
use loading::{Loaded, keys_at, record_place};
use outputs::output::Output;
use stores::Store;

/// A state whose record was opened.
#[derive(Clone, Copy)]
pub struct Opened {
    /// Whether it has an end output.
    pub ends: bool,
    /// How many arcs it has.
    pub arcs: u32,
    /// Where its end output begins, and without one its first arc: what is behind an end output is looked for once it is asked for.
    pub place: usize,
}

/// Opens a state, if it is there. Its key count is passed over.
pub fn open<O: Output, S: Store>(loaded: &Loaded<O, S>, state: usize) -> Option<Opened>
    ensures { (m : Machine O.Output.kind.Ideal) → Holds O.Output.kind O.Output.meaning S.Store.bytes loaded.now m → Opens O.Output.kind (bits_of S.Store.bytes loaded.now) (at m.states state) result }
{
    if state > loaded.start() {
        return None;
    }
    let place = record_place::<O, S>(loaded.store(), loaded.index(), state as u16);
    let opening = number_in(loaded.store(), place, 10);
    Some(Opened {
        ends: opening >= 512,
        arcs: opening % 512,
        place: place + 30,
    })
}

/// The end output of an opened state, if it has one.
pub fn end_output<O: Output, S: Store>(loaded: &Loaded<O, S>, opened: Opened) -> Option<O>
    ensures { (s : State O.Output.kind.Ideal) → OpenedAs O.Output.kind (bits_of S.Store.bytes loaded.now) opened s → meant O.Output.meaning result ≡ s.end }
{
    if !opened.ends {
        return None;
    }
    let (output, _behind) = output_at(loaded, opened.place)?;
    Some(output)
}

/// The arcs of an opened state.
pub fn arcs_of<O: Output, S: Store>(loaded: &Loaded<O, S>, opened: Opened) -> Row
    ensures { (s : State O.Output.kind.Ideal) → OpenedAs O.Output.kind (bits_of S.Store.bytes loaded.now) opened s → RowOf O.Output.kind (bits_of S.Store.bytes loaded.now) result s.arcs }
{
    let place = if opened.ends {
        behind_output(loaded, opened.place)
    } else {
        opened.place
    };
    Row {
        left: opened.arcs,
        place,
    }
}

/// How many keys are accepted from a state, and 0 if it is not there.
pub fn keys_from<O: Output, S: Store>(loaded: &Loaded<O, S>, state: usize) -> u32
    ensures keys { (m : Machine O.Output.kind.Ideal) → Holds O.Output.kind O.Output.meaning S.Store.bytes loaded.now m → result ≡ slice_index (counts_of m.states) state }
    ensures fits { result < 2 ^ 20 }
{
    if state > loaded.start() {
        return 0;
    }
    keys_at::<O, S>(loaded.store(), loaded.index(), state as u16)
}
