// The newest open record, looked for in the register.
ghost use Rattle.std.specs.Prelude.{◌≡◌, ◌+◌, ◌-◌, ◌<◌, ◌≤◌, length, take, drop, slice_index_or};
ghost use Rattle.records.specs.Lying.{Placed};
ghost use Rattle.records.specs.Shape.{openings};
ghost use Rattle.records.specs.Holding.{arcs_of, end_of, closed_state};
ghost use Rattle.comparing.specs.Newest.{LookedUp};

use crate::homes::first_slot;
use crate::same::{same_arcs, same_end};
use outputs::output::Output;
use records::memory::Core;
use records::record::{Arc, State};
use register::{Wanted, look_up};

// An open record, and the closed states that it is compared with.
#[derive(Drop)]
pub struct Newest<'b, O: Output> {
    // The record.
    state: State<O>,
    // Its arcs.
    arcs: &'b [Arc<O>],
    // The closed states by number.
    states: &'b [State<O>],
    // The arcs of all closed states.
    closed: &'b [Arc<O>],
}

impl<'b, O: Output> Wanted for Newest<'b, O> {
    ghost count = { λ s. length s.states.now };

    ghost sound = { λ s. Placed (length s.closed.now) s.states.now };

    ghost equals = { λ s q. record { end = end_of O.Output.meaning s.state; arcs = arcs_of O.Output.meaning s.arcs.now } ≡ closed_state O.Output.meaning (arcs_of O.Output.meaning s.closed.now) (slice_index_or s.states.now q s.state) };

    fn same(&self, q: u16) -> bool {
        let state = state_at(self.states, q as usize);
        same_end(&self.state, &state) && same_arcs(self.arcs, state.closed_arcs(self.closed))
    }
}

fn state_at<O: Output>(states: &[State<O>], q: usize) -> State<O>
    requires { q < length states.now }
    ensures { (e : _) → result ≡ slice_index_or states.now q e }
{
    states[q]
}

// The closed state that is equal to the newest open record, or, as the error, the free slot for it.
pub fn equal_state<'a, O: Output>(core: &Core<'a, O>) -> Result<u16, usize>
    requires { 0 < openings core.now }
    ensures { LookedUp O.Output.digested O.Output.meaning core.now result }
{
    let top = core.states.at_high(0);
    let open = core.arcs.below();
    let arcs = &open[top.first as usize..];
    let home = first_slot(&top, arcs, core.slots.len());
    let newest = Newest {
        state: top,
        arcs,
        states: core.states.below(),
        closed: core.arcs.above(),
    };
    look_up(&newest, core.slots, home)
}
