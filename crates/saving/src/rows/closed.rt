//! The rows of a builder's memory.
ghost use Rattle.std.specs.Prelude.{◌≡◌};
ghost use Rattle.records.specs.Holding.{closed};
ghost use Rattle.saving.specs.Standing.{states_of, counts_of};

use super::Rows;
use outputs::output::Output;
use records::memory::Core;

/// The closed states of a builder's memory.
pub fn closed_rows<'a, 'b, O: Output>(core: &'b Core<'a, O>) -> Rows<'b, O>
    ensures closed { closed O.Output.meaning core.now ≡ record { states = states_of O.Output.kind O.Output.meaning result; counts = counts_of result } }
    ensures start { result.start ≡ core.now.start }
    ensures keys { result.keys ≡ core.now.pairs }
{
    Rows {
        states: core.states.below(),
        arcs: core.arcs.above(),
        start: core.start,
        keys: core.pairs,
    }
}
