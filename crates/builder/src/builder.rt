//! The builder and what it is sealed to.
ghost use Rattle.std.specs.Prelude.{◌≡◌, length};
ghost use Rattle.stacks.specs.Stacks.{highs};

use records::memory::Core;

pub mod asked;
pub mod calls;

/// A builder: nothing is open only before the first pair.
#[derive(Drop)]
pub struct Builder<'a, O> {
    /// All that it works on.
    core: Core<'a, O>,
    ghost first: { length (highs core.states) ≡ 0 → core.pairs ≡ 0 },
}

/// A sealed dictionary: the minimal transducer, in the memory that was lent to the builder.
#[derive(Drop)]
pub struct Sealed<'a, O> {
    /// Its states and arcs are the closed ones.
    core: Core<'a, O>,
}

/// How many states and arcs a sealed dictionary has.
#[derive(Clone, Copy, PartialEq, Eq, Debug)]
pub struct Counts {
    /// The number of states.
    pub states: usize,
    /// The number of arcs.
    pub arcs: usize,
}
