// The incremental construction of the minimal transducer, as functions on lists: the definitions and the theorems that the builder cites.
#![tactic(auto)]

ghost use Rattle.std.specs.Prelude.{◌≡◌, true, false};
ghost use Rattle.machines.specs.Keys.{Key};
ghost use Rattle.machines.specs.Pairs.{Pairs, Ascending, ByteKeys, AllStorable, Proper};
ghost use Rattle.machines.specs.Memory.{not_above};
ghost use Rattle.construction.specs.Building.{held_after};
ghost use Rattle.construction.specs.Theorems.{ComparingRight, ClosingSound, AddStorable, HeldSound, HeldExact, SealedMinimal};

use outputs::output::Output;

// The machine sealed after some pairs is the minimal one, with the keys accepted from each state.
pub fn construction_is_minimal<O: Output>()
    ensures { (P : Pairs O.Output.kind.Ideal) → Proper O.Output.kind P → SealedMinimal O.Output.kind P }
{}

// What is held after some pairs is as many states and arcs as they need.
pub fn construction_is_exact<O: Output>()
    ensures { (P : Pairs O.Output.kind.Ideal) → Ascending P → AllStorable O.Output.kind P → HeldExact O.Output.kind P }
{}

// What is held after some pairs is sound: storable outputs, different closed states, arcs by rising bytes to closed states.
pub fn construction_is_sound<O: Output>()
    ensures { (P : Pairs O.Output.kind.Ideal) → Ascending P → ByteKeys P → AllStorable O.Output.kind P → HeldSound O.Output.kind (held_after O.Output.kind P) }
{}

// Every join that is made where a key above the newest comes with a storable output is storable.
pub fn adding_is_storable<O: Output>()
    ensures { (P : Pairs O.Output.kind.Ideal) → Ascending P → AllStorable O.Output.kind P → (key : Key) (output : O.Output.kind.Ideal) → not_above P key ≡ false → O.Output.kind.storable output ≡ true → AddStorable O.Output.kind (held_after O.Output.kind P) key output }
{}

// Storable outputs and states compare as equal exactly if they are.
pub fn comparing_is_right<O: Output>()
    ensures { ComparingRight O.Output.kind }
{}

// Closing storable records keeps the closed states different and storable.
pub fn closing_is_sound<O: Output>()
    ensures { ClosingSound O.Output.kind }
{}
