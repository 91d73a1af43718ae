// Minimal subsequential transducers: the definitions and the theorems that the layers above cite.
#![tactic(auto)]

ghost use Rattle.std.specs.Prelude.{ℕ};
ghost use Rattle.machines.specs.Pairs.{Pairs, Proper};
ghost use Rattle.machines.specs.Realizing.{RightAnswers, Minimality};
ghost use Rattle.machines.specs.Numbering.{Numbering};
ghost use Rattle.machines.specs.Storing.{Storing};
ghost use Rattle.machines.specs.Asked.{RightReadings};
ghost use Rattle.machines.specs.Runs.{RunFacts};

use outputs::output::Output;

// The minimal machine answers each key with its output and absent for every other string, and has put out all that it can by then.
pub fn answers_stand<O: Output>()
    ensures { (P : Pairs O.Output.kind.Ideal) → Proper O.Output.kind P → RightAnswers O.Output.kind P }
{}

// No transducer that realizes the same pairs has fewer states or fewer arcs, or puts out earlier.
pub fn minimality_stands<O: Output>()
    ensures { (P : Pairs O.Output.kind.Ideal) → Proper O.Output.kind P → Minimality O.Output.kind P }
{}

// The states of the minimal machine are numbered in postorder, and what an image says of them is so.
pub fn numbering_stands<O: Output>()
    ensures { (P : Pairs O.Output.kind.Ideal) → Proper O.Output.kind P → Numbering O.Output.kind P }
{}

// The minimal machine can be stored: its outputs are storable, and its numbers fit the fields of an image.
pub fn storing_stands<O: Output>()
    ensures { (P : Pairs O.Output.kind.Ideal) → Proper O.Output.kind P → Storing O.Output.kind P }
{}

// What find, so far, rank and who answer of the minimal machine.
pub fn readings_stand<O: Output>()
    ensures { (P : Pairs O.Output.kind.Ideal) → Proper O.Output.kind P → RightReadings O.Output.kind P }
{}

// What a run of adds takes and what each is told.
pub fn runs_stand<O: Output>()
    ensures { (states arcs : ℕ) (pairs : Pairs O.Output.kind.Ideal) → RunFacts O.Output.kind states arcs pairs }
{}
