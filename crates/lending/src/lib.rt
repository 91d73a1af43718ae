//! Memory that is lent to a builder.
#![tactic(auto)]

ghost use Rattle.std.specs.Prelude.{◌≡◌, [], IfOk, vec_len};
ghost use Rattle.machines.specs.Memory.{usable};
ghost use Rattle.builder.specs.Standing.{Stands};

use builder::Builder;
use outputs::output::Output;
use records::record::{Arc, State};
use std::alloc::{AllocError, Global};

/// States, arcs and slots for a builder.
#[derive(Drop)]
pub struct Lent<O> {
    states: Vec<State<O>>,
    arcs: Vec<Arc<O>>,
    slots: Vec<u16>,
}

/// What a slot holds before a builder clears it.
const UNCLEARED: u16 = 7;

impl<O: Output> Lent<O> {
    /// Room for so many states and arcs, with so many slots.
    pub fn new(
        heap: Global,
        states: usize,
        arcs: usize,
        slots: usize,
    ) -> Result<Lent<O>, AllocError>
        ensures states { IfOk result (λ lent. vec_len lent.states ≡ states) }
        ensures arcs { IfOk result (λ lent. vec_len lent.arcs ≡ arcs) }
        ensures slots { IfOk result (λ lent. vec_len lent.slots ≡ slots) }
    {
        let state = State {
            end: None,
            count: 0,
            first: 0,
            keys: 0,
        };
        let arc = Arc {
            byte: 0,
            target: 0,
            output: O::empty(),
        };
        Ok(Lent {
            states: vec![in heap; state; states]?,
            arcs: vec![in heap; arc; arcs]?,
            slots: vec![in heap; UNCLEARED; slots]?,
        })
    }

    /// A builder in this memory, which has taken no pair.
    pub fn builder(&mut self) -> Builder<'_, O>
        ensures { Stands O.Output.kind O.Output.meaning O.Output.digested result.core (usable (vec_len self.old.states) (vec_len self.old.arcs) (vec_len self.old.slots)) (vec_len self.old.arcs) [] }
    {
        Builder::new(
            self.states.as_mut_slice(),
            self.arcs.as_mut_slice(),
            self.slots.as_mut_slice(),
        )
    }
}

#[cfg(test)]
mod tests;
