//! What is asked of a sealed dictionary.
ghost use Rattle.std.specs.Prelude.{◌≡◌};
ghost use Rattle.machines.specs.Pairs.{Pairs};
ghost use Rattle.records.specs.Holding.{held};
ghost use Rattle.builder.specs.Building.{Counted};
ghost use Rattle.builder.specs.Standing.{SealedOf, CountsOf};

use super::{Counts, Sealed};
use outputs::output::Output;
use records::memory::Core;

impl<'a, O: Output> Sealed<'a, O> {
    /// How many states and arcs it has.
    pub fn counts(&self) -> Counts
        ensures held { Counted (held O.Output.meaning self.now.core) result }
        ensures counts { (P : Pairs O.Output.kind.Ideal) → SealedOf O.Output.kind O.Output.meaning self.now.core P → CountsOf O.Output.kind P result }
    {
        Counts {
            states: self.core.states.lows(),
            arcs: self.core.arcs.highs(),
        }
    }

    /// The memory, for those who read it.
    pub fn memory(&self) -> &Core<'a, O>
        ensures { result.now ≡ self.now.core }
    {
        &self.core
    }
}
