//! The calls on a builder: none asks anything of its caller.
ghost use Rattle.std.specs.Prelude.{◌≡◌, ℕ, min, true, [], length};
ghost use Rattle.stacks.specs.Stacks.{capacity};
ghost use Rattle.outputs.specs.Texts.{all_bytes};
ghost use Rattle.machines.specs.Pairs.{Pairs};
ghost use Rattle.machines.specs.Memory.{usable as allowed, refusal};
ghost use Rattle.machines.specs.Runs.{put_unless};
ghost use Rattle.construction.specs.Building.{nothing_held};
ghost use Rattle.closing.specs.Closing.{all_closed};
ghost use Rattle.records.specs.Holding.{held};
ghost use Rattle.records.specs.Registering.{Registered};
ghost use Rattle.adding.specs.Adding.{SameRooms, Adds};
ghost use Rattle.adding.specs.Refusals.{told};
ghost use Rattle.builder.specs.Refusals.{Seals, UnlessTaken};
ghost use Rattle.builder.specs.Standing.{Stands, SealedOf};

use super::{Builder, Sealed};
use crate::lent::{clear, usable};
use crate::refusal::SealRefusal;
use adding::refusal::AddRefusal;
use closing::close_all;
use outputs::output::Output;
use records::memory::Core;
use records::record::{Arc, State};

impl<'a, O: Output> Builder<'a, O> {
    /// A builder in lent memory, which holds nothing and has taken no pair. In a memory that `check` refuses it has no room for a state.
    pub fn new(
        states: &'a mut [State<O>],
        arcs: &'a mut [Arc<O>],
        slots: &'a mut [u16],
    ) -> Builder<'a, O>
        ensures stateroom { capacity result.core.states ≡ allowed (length states.old) (length arcs.old) (length slots.old) }
        ensures arcroom { capacity result.core.arcs ≡ min (length arcs.old) 131071 }
        ensures registered { Registered O.Output.digested O.Output.meaning result.core }
        ensures holds { held O.Output.meaning result.core ≡ nothing_held O.Output.kind }
        ensures stands { Stands O.Output.kind O.Output.meaning O.Output.digested result.core (allowed (length states.old) (length arcs.old) (length slots.old)) (length arcs.old) [] }
    {
        let n = usable(states.len(), arcs.len(), slots.len());
        let m = arcs.len().min(131071);
        clear(slots);
        let core = Core::new(&mut states[..n], &mut arcs[..m], slots);
        Builder { core }
    }

    /// Takes a pair, or refuses it with the first reason that applies after the pairs taken, and leaves all as it was.
    pub fn add(&mut self, key: &[u8], output: O) -> Result<(), AddRefusal>
        ensures rooms { SameRooms self.old.core self.new.core }
        ensures adds { Adds O.Output.kind O.Output.digested O.Output.meaning key.now (O.Output.meaning output) self.old.core self.new.core result }
        ensures told { (states arcs : ℕ) (P : Pairs O.Output.kind.Ideal) → Stands O.Output.kind O.Output.meaning O.Output.digested self.old.core states arcs P → told result ≡ refusal O.Output.kind states arcs P key.now }
        ensures stands { (states arcs : ℕ) (P : Pairs O.Output.kind.Ideal) → Stands O.Output.kind O.Output.meaning O.Output.digested self.old.core states arcs P → Stands O.Output.kind O.Output.meaning O.Output.digested self.new.core states arcs (put_unless (told result) P (key.now, O.Output.meaning output)) }
        ensures unchanged { UnlessTaken result (self.new.core ≡ self.old.core) }
        ensures octets { all_bytes key.now ≡ true }
    {
        adding::add::add(&mut self.core, key, output)
    }

    /// Whether there is a pair to seal.
    pub fn check_seal(&self) -> Result<(), SealRefusal>
        ensures seals { Seals self.now.core.pairs result }
        ensures pairs { (states arcs : ℕ) (P : Pairs O.Output.kind.Ideal) → Stands O.Output.kind O.Output.meaning O.Output.digested self.now.core states arcs P → Seals (length P) result }
    {
        if self.core.pairs == 0 {
            return Err(SealRefusal::NoPair);
        }
        Ok(())
    }

    /// Closes all that is open, and gives the sealed dictionary: the minimal machine of the pairs taken. Its `counts` are the numbers of states and arcs.
    pub fn seal(self) -> Sealed<'a, O>
        ensures closed { Registered O.Output.digested O.Output.meaning self.entry.core → held O.Output.meaning result.core ≡ all_closed O.Output.kind (held O.Output.meaning self.entry.core) }
        ensures sealed { (states arcs : ℕ) (P : Pairs O.Output.kind.Ideal) → Stands O.Output.kind O.Output.meaning O.Output.digested self.entry.core states arcs P → SealedOf O.Output.kind O.Output.meaning result.core P }
    {
        let Builder { core } = self;
        let mut core = core;
        close_all(&mut core);
        Sealed { core }
    }
}
