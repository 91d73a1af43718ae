//! The arc of a state on a byte.
ghost use Rattle.std.specs.Prelude.{List};
ghost use Rattle.machines.specs.Lists.{at};
ghost use Rattle.machines.specs.Machines.{Arc as Edge, Machine, arc_on, arc_at};
ghost use Rattle.machines.specs.Numbering.{Rising};
ghost use Rattle.loading.specs.Loading.{Holds};
ghost use Rattle.lookups.specs.Lookups.{bits_of, RowOf};
ghost use Rattle.reading.specs.Told.{Sought};

use loading::Loaded;
use lookups::{Row, arcs_of, byte_at, open, pass_arc};
use outputs::output::Output;
use stores::Store;

/// The place of the arc on a byte, among arcs whose bytes rise.
fn seek<O: Output, S: Store>(loaded: &Loaded<O, S>, row: Row, byte: u8) -> Option<usize>
    ensures { (arcs : List (Edge O.Output.kind.Ideal)) → Rising arcs → RowOf O.Output.kind (bits_of S.Store.bytes loaded.now) row arcs → Sought O.Output.kind (bits_of S.Store.bytes loaded.now) (arc_on byte arcs) result }
{
    // By places and not by `Arcs`: of an arc that is passed over no target is read, and nothing is read behind the last one.
    let mut place = row.place;
    for _ in 0..row.left {
        let here = byte_at(loaded, place);
        if here == byte {
            return Some(place);
        }
        if here > byte {
            return None;
        }
        place = pass_arc(loaded, place);
    }
    None
}

/// The place of the arc of a state on a byte.
pub(crate) fn arc_place<O: Output, S: Store>(
    loaded: &Loaded<O, S>,
    state: usize,
    byte: u8,
) -> Option<usize>
    ensures { (m : Machine O.Output.kind.Ideal) → Holds O.Output.kind O.Output.meaning S.Store.bytes loaded.now m → Sought O.Output.kind (bits_of S.Store.bytes loaded.now) (arc_at (at m.states state) byte) result }
{
    let opened = open(loaded, state)?;
    seek(loaded, arcs_of(loaded, opened), byte)
}
