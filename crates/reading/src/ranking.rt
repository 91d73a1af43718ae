//! How many keys are lower than a key.
ghost use Rattle.std.specs.Prelude.{◌≡◌, ◌+◌, ◌^◌, ◌<◌, List};
ghost use Rattle.machines.specs.Lists.{at};
ghost use Rattle.machines.specs.Keys.{Key, is_some};
ghost use Rattle.machines.specs.Machines.{Arc as Edge, Machine, arc_on, arc_at, end_at, end_flag, sum_at};
ghost use Rattle.machines.specs.Counts.{counts_of};
ghost use Rattle.machines.specs.Numbering.{Rising};
ghost use Rattle.machines.specs.Pairs.{Pairs, Proper};
ghost use Rattle.machines.specs.Minimal.{minimal};
ghost use Rattle.machines.specs.Asked.{keys_below, arcs_at, rank as rank_in, rank_of};
ghost use Rattle.loading.specs.Loading.{Holds};
ghost use Rattle.lookups.specs.Lookups.{bits_of, RowOf};
ghost use Rattle.reading.specs.Told.{told_rank, Lowered};

use loading::Loaded;
use lookups::{Row, arcs_of, byte_at, keys_from, open, pass_arc, target_at};
use outputs::output::Output;
use stores::Store;

/// Where bytes lead to, and how many keys are lower.
#[derive(Clone, Copy)]
pub struct Lower {
    pub target: usize,
    pub keys: u32,
}

/// The arc on a byte, among arcs whose bytes rise, with the keys behind those in front of it added up.
fn sum_lower<O: Output, S: Store>(
    loaded: &Loaded<O, S>,
    row: Row,
    byte: u8,
    before: u32,
) -> Option<Lower>
    ensures { (m : Machine O.Output.kind.Ideal) → Holds O.Output.kind O.Output.meaning S.Store.bytes loaded.now m → (arcs : List (Edge O.Output.kind.Ideal)) → Rising arcs → RowOf O.Output.kind (bits_of S.Store.bytes loaded.now) row arcs → before + sum_at (counts_of m.states) arcs < 2 ^ 20 → Lowered (arc_on byte arcs) (before + keys_below (counts_of m.states) byte arcs) result }
{
    // By places and not by `Arcs`: of the arc that is found no output is read. Not one loop with `seek`: it stops by other tests, and gathers keys.
    let mut place = row.place;
    let mut keys = before;
    for _ in 0..row.left {
        let here = byte_at(loaded, place);
        if here > byte {
            return None;
        }
        let target = target_at(loaded, place);
        if here == byte {
            return Some(Lower { target, keys });
        }
        keys = keys.saturating_add(keys_from(loaded, target));
        place = pass_arc(loaded, place);
    }
    None
}

/// The arc of a state on a byte, with the state's own end and the keys behind lower arcs counted.
fn count_lower<O: Output, S: Store>(loaded: &Loaded<O, S>, state: usize, byte: u8) -> Option<Lower>
    ensures { (m : Machine O.Output.kind.Ideal) → Holds O.Output.kind O.Output.meaning S.Store.bytes loaded.now m → Lowered (arc_at (at m.states state) byte) (end_flag (end_at (at m.states state)) + keys_below (counts_of m.states) byte (arcs_at (at m.states state))) result }
{
    let opened = open(loaded, state)?;
    let row = arcs_of(loaded, opened);
    sum_lower(loaded, row, byte, u32::from(opened.ends))
}

/// Whether a state has an end output.
fn ends<O: Output, S: Store>(loaded: &Loaded<O, S>, state: usize) -> bool
    ensures { (m : Machine O.Output.kind.Ideal) → Holds O.Output.kind O.Output.meaning S.Store.bytes loaded.now m → result ≡ is_some (end_at (at m.states state)) }
{
    open(loaded, state).is_some_and(|opened| opened.ends)
}

/// How many keys are lower than a key, and `None` for a string that is no key.
pub fn rank<O: Output, S: Store>(loaded: &Loaded<O, S>, key: &[u8]) -> Option<u32>
    ensures { (m : Machine O.Output.kind.Ideal) → Holds O.Output.kind O.Output.meaning S.Store.bytes loaded.now m → told_rank result ≡ rank_in m (counts_of m.states) key.now }
{
    let mut lower = Lower {
        target: loaded.start(),
        keys: 0,
    };
    for byte in key {
        let next = count_lower(loaded, lower.target, *byte)?;
        lower = Lower {
            target: next.target,
            keys: lower.keys.saturating_add(next.keys),
        };
    }
    ends(loaded, lower.target).then_some(lower.keys)
}

/// Of the minimal machine of some pairs, rank is the number of pairs with a lower key.
pub fn ranks_stand<O: Output>()
    ensures { (P : Pairs O.Output.kind.Ideal) → Proper O.Output.kind P → (w : Key) → rank_in (minimal O.Output.kind P) (counts_of (minimal O.Output.kind P).states) w ≡ rank_of P w }
{}
