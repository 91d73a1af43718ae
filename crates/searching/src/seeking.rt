//! The search for a string with an output, state by state.
ghost use Rattle.std.specs.Prelude.{◌≤◌, length};
ghost use Rattle.std.proofs.Math.Option.{some as one};
ghost use Rattle.outputs.specs.Joins.{Tells};
ghost use Rattle.machines.specs.Machines.{State};
ghost use Rattle.loading.specs.Loading.{Holds};
ghost use Rattle.lookups.specs.Lookups.{bits_of, OpenedAs};
ghost use Rattle.searching.specs.Searches.{Sought};

use crate::prefixes::left;
use loading::Loaded;
use lookups::{Arcs, Opened, arcs_of, end_output, open};
use outputs::output::Output;
use stores::Store;

/// Whether an opened state has an end output that is the one given.
fn ends_with<O: Output, S: Store>(loaded: &Loaded<O, S>, opened: Opened, output: &O) -> bool
    ensures { (s : State O.Output.kind.Ideal) → OpenedAs O.Output.kind (bits_of S.Store.bytes loaded.now) opened s → Tells s.end (one (O.Output.meaning output.now)) result }
{
    end_output(loaded, opened).is_some_and(|end| end.same(output))
}

/// Looks for a string that puts out an output from a state on, which `depth` bytes lead to.
///
/// It goes along arcs in their order, with what is left of the output behind each, and no deeper than 64 bytes. The string is written from its end on, once it is found.
pub fn seek<O: Output, S: Store>(
    loaded: &Loaded<O, S>,
    state: usize,
    output: &O,
    depth: usize,
    buffer: &mut [u8],
) -> Option<usize>
    requires depth { depth ≤ 64 }
    requires room { 64 ≤ length buffer.old }
    ensures { Sought O.Output.kind (Holds O.Output.kind O.Output.meaning S.Store.bytes loaded.now) state (O.Output.meaning output.now) depth buffer.old buffer.new result }
{
    let opened = open(loaded, state)?;
    if ends_with(loaded, opened, output) {
        return Some(depth);
    }
    if depth == 64 {
        return None;
    }
    for arc in Arcs::new(loaded, arcs_of(loaded, opened)) {
        if let Some(rest) = left(output, &arc.output) {
            if let Some(end) = seek(loaded, arc.target, &rest, depth + 1, buffer) {
                buffer[depth] = arc.byte;
                return Some(end);
            }
        }
    }
    None
}
