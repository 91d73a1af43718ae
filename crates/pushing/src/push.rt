//! Outputs of an open record.
ghost use Rattle.std.specs.Prelude.{◌+◌, ◌<◌, ◌≤◌, length};
ghost use Rattle.stacks.specs.Stacks.{lows};
ghost use Rattle.outputs.specs.Joins.{join_or_empty};
ghost use Rattle.records.specs.Shape.{openings};
ghost use Rattle.construction.specs.Steps.{lead as leading};
ghost use Rattle.pushing.specs.Changes.{ArcsUnder, EndUnder, Altered};
ghost use Rattle.pushing.specs.Pushing.{Pushed};

use crate::reading::{last_place, record};
use outputs::output::Output;
use records::memory::Core;
use records::record::{Arc, State};

/// Joins `front` in front of the outputs of the arcs from one place up to another.
fn push_arcs<'a, O: Output>(core: &mut Core<'a, O>, from: usize, to: usize, front: O)
    requires fits { to ≤ length (lows core.old.arcs) }
    requires order { from ≤ to }
    ensures { ArcsUnder O.Output.meaning (join_or_empty O.Output.kind (O.Output.meaning front)) from to core.old core.new }
{
    let joined = |arc: Arc<O>| Arc {
        output: front.join(&arc.output),
        ..arc
    };
    core.arcs.change_low(from, to, joined);
}

/// A record with `front` joined in front of its end output, if it has one.
fn with_end<O: Output>(state: State<O>, front: O) -> State<O>
    ensures { EndUnder O.Output.meaning (join_or_empty O.Output.kind (O.Output.meaning front)) state result }
{
    let end = state.end.map(|end| front.join(&end));
    State { end, ..state }
}

/// Joins `front` in front of all that follows the open record at a depth: its end output and the outputs of its arcs.
pub fn push_record<'a, O: Output>(core: &mut Core<'a, O>, depth: usize, front: O)
    requires { depth < openings core.old }
    ensures { Pushed O.Output.kind O.Output.meaning depth (O.Output.meaning front) core.old core.new }
{
    // The empty output changes nothing, and is the most common one.
    if front.same(&O::empty()) {
        return;
    }
    let state = record(core, depth);
    push_arcs(
        core,
        state.first as usize,
        (state.first + state.count) as usize,
        front,
    );
    let place = core.states.highs() - 1 - depth;
    core.states.set_high(place, with_end(state, front));
}

/// Sets the output of the arc that leads on from the open record at a depth.
pub fn lead<'a, O: Output>(core: &mut Core<'a, O>, depth: usize, output: O)
    requires { depth + 1 < openings core.old }
    ensures { Altered O.Output.meaning depth (leading O.Output.kind (O.Output.meaning output)) core.old core.new }
{
    let last = last_place(core, depth);
    let arc = core.arcs.at_low(last);
    core.arcs.set_low(last, Arc { output, ..arc });
}
