//! The open records by their depth: that of the empty prefix has depth 0.
ghost use Rattle.std.specs.Prelude.{◌+◌, ◌<◌};
ghost use Rattle.records.specs.Shape.{openings};
ghost use Rattle.records.specs.Holding.{held};
ghost use Rattle.pushing.specs.Changes.{RecordAt, LastPlace, arcs_at};
ghost use Rattle.pushing.specs.Pushing.{LastOf};

use outputs::output::Output;
use records::memory::Core;
use records::record::{Arc, State};

// That a depth is one of an open record is asked of each call. A type that kept it would hold the memory too, and be made anew for each depth: no plainer.

/// The open record at a depth.
pub fn record<'a, O: Output>(core: &Core<'a, O>, depth: usize) -> State<O>
    requires { depth < openings core.now }
    ensures { RecordAt core.now depth result }
{
    core.states.at_high(core.states.highs() - 1 - depth)
}

/// Where the arc lies that leads on from the open record at a depth: its last.
pub(crate) fn last_place<'a, O: Output>(core: &Core<'a, O>, depth: usize) -> usize
    requires { depth + 1 < openings core.now }
    ensures { LastPlace core.now depth result }
{
    let state = record(core, depth);
    (state.first + state.count) as usize - 1
}

/// The arc that leads on from the open record at a depth.
pub fn last_arc<'a, O: Output>(core: &Core<'a, O>, depth: usize) -> Arc<O>
    requires { depth + 1 < openings core.now }
    ensures { LastOf O.Output.kind O.Output.meaning (arcs_at depth (held O.Output.meaning core.now).open') result }
{
    core.arcs.at_low(last_place(core, depth))
}
