// A memory that holds nothing.
ghost use Rattle.std.specs.Prelude.{◌≡◌, ℕ, ◌<◌, ◌≤◌, length, slice_index};
ghost use Rattle.stacks.specs.Stacks.{capacity};
ghost use Rattle.construction.specs.Building.{nothing_held};
ghost use Rattle.records.specs.Holding.{held};
ghost use Rattle.records.specs.Registering.{Registered};

use super::Core;
use crate::record::{Arc, State};
use outputs::output::Output;
use stacks::stack::Stacks;

impl<'a, O: Output> Core<'a, O> {
    // Nothing is held in cleared slots.
    pub fn new(
        states: &'a mut [State<O>],
        arcs: &'a mut [Arc<O>],
        slots: &'a mut [u16],
    ) -> Core<'a, O>
        requires few { length states.old < 65536 }
        requires arcfew { length arcs.old < 131072 }
        requires slotroom { length states.old ≤ length slots.old }
        requires clear { (i : ℕ) → slice_index slots.old i ≡ 0 }
        ensures stateroom { capacity result.states ≡ length states.old }
        ensures arcroom { capacity result.arcs ≡ length arcs.old }
        ensures registered { Registered O.Output.digested O.Output.meaning result }
        ensures holds { held O.Output.meaning result ≡ nothing_held O.Output.kind }
    {
        Core {
            states: Stacks::new(states),
            arcs: Stacks::new(arcs),
            slots,
            pairs: 0,
            start: O::empty(),
        }
    }
}
