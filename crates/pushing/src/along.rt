//! Outputs move on along the open records that a new key shares.
ghost use Rattle.std.specs.Prelude.{◌≡◌, ◌+◌, ◌<◌};
ghost use Rattle.records.specs.Shape.{openings};
ghost use Rattle.pushing.specs.Pushing.{Parts, PushedStep, PushedAlong};

use crate::push::{lead, push_record};
use crate::reading::last_arc;
use outputs::output::Output;
use records::memory::Core;

/// An output of the memory and a new one, parted behind what they share.
#[derive(Clone, Copy)]
struct Parted<O> {
    /// What both begin with.
    shared: O,
    /// The rest of the first, which goes in front of all that follows.
    carry: O,
    /// What is left of the new one.
    left: O,
}

/// Parts an output of the memory and a new one.
fn part<O: Output>(whole: O, new: O) -> Parted<O>
    ensures { Parts O.Output.kind O.Output.meaning (O.Output.meaning whole) (O.Output.meaning new) result }
{
    let shared = whole.common(&new);
    Parted {
        shared,
        carry: whole.rest(&shared),
        left: new.rest(&shared),
    }
}

/// One record on, with the rests that the record before passes on: the arc that leads on keeps what it shares with the new output.
fn push_step<'a, O: Output>(core: &mut Core<'a, O>, depth: usize, before: Parted<O>) -> Parted<O>
    requires { depth + 1 < openings core.old }
    ensures { PushedStep O.Output.kind O.Output.meaning depth (O.Output.meaning before.carry) (O.Output.meaning before.left) core.old core.new result }
{
    push_record(core, depth, before.carry);
    let parted = part(last_arc(core, depth).output, before.left);
    lead(core, depth, parted.shared);
    parted
}

/// The start output and the open records keep what they share with a new output, and pass the rest on. Gives what is left of the new one at the last record.
pub fn push_along<'a, O: Output>(core: &mut Core<'a, O>, depth: usize, output: O) -> O
    requires { openings core.old ≡ depth + 1 }
    ensures { PushedAlong O.Output.kind O.Output.meaning (O.Output.meaning output) core.old core.new result }
{
    let mut parted = part(core.start, output);
    core.start = parted.shared;
    for d in 0..depth {
        parted = push_step(core, d, parted);
    }
    push_record(core, depth, parted.carry);
    parted.left
}
