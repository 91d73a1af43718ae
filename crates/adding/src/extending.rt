//! What is new of a key is added to the open records.
ghost use Rattle.std.specs.Prelude.{◌≡◌, ◌+◌, ◌-◌, ◌<◌, ◌≤◌, length};
ghost use Rattle.stacks.specs.Stacks.{lows, highs, capacity};
ghost use Rattle.records.specs.Lying.{Led};
ghost use Rattle.records.specs.Shape.{openings, closings, edgings};
ghost use Rattle.adding.specs.Extending.{Opened, ArcAdded, Accepted, Rooted, Extended};

use outputs::output::Output;
use records::memory::Core;
use records::record::{Arc, State};

// That a record is open is asked of each call. It ends when records are closed, so a type that kept it would hold the memory, and each contract would say which one: no plainer.

/// A new open record, without arcs.
fn open_record<'a, O: Output>(core: &mut Core<'a, O>)
    requires led { Led (length (lows core.old.arcs)) (highs core.old.states) }
    requires room { closings core.old + openings core.old < capacity core.old.states }
    ensures { Opened O.Output.meaning core.old core.new }
{
    let first = core.arcs.lows() as u32;
    core.states.push_high(State {
        end: None,
        count: 0,
        first,
        keys: core.pairs,
    });
}

/// Before the first pair nothing is open: the record of the empty prefix is opened, and all that the first key puts out is put out at the start.
pub fn open_root<'a, O: Output>(core: &mut Core<'a, O>, output: O)
    requires { openings core.old ≡ 0 → closings core.old < capacity core.old.states }
    ensures { Rooted O.Output.meaning (O.Output.meaning output) core.old core.new }
{
    if core.states.highs() == 0 {
        core.start = output;
        open_record(core);
    }
}

/// A new arc of the newest open record, to a record that is opened next.
fn add_arc<'a, O: Output>(core: &mut Core<'a, O>, byte: u8, output: O)
    requires opened { 0 < openings core.old }
    requires room { edgings core.old < capacity core.old.arcs }
    ensures { ArcAdded O.Output.kind O.Output.meaning byte (O.Output.meaning output) core.old core.new }
{
    core.arcs.push_low(Arc {
        byte,
        target: 0,
        output,
    });
    let top = core.states.at_high(0);
    core.states.set_high(
        0,
        State {
            count: top.count + 1,
            ..top
        },
    );
}

/// A key ends at the newest open record: the pair is taken.
fn accept<'a, O: Output>(core: &mut Core<'a, O>, output: O)
    requires opened { 0 < openings core.old }
    requires pairs { core.old.pairs < 1048575 }
    ensures { Accepted O.Output.meaning (O.Output.meaning output) core.old core.new }
{
    let top = core.states.at_high(0);
    core.states.set_high(
        0,
        State {
            end: Some(output),
            ..top
        },
    );
    core.pairs += 1;
}

/// Adds the rest of a key behind the newest open record, with what is left of its output on the first new arc, or as an end output where nothing is new.
pub fn extend<'a, O: Output>(core: &mut Core<'a, O>, key: &[u8], depth: usize, left: O)
    requires opened { 0 < openings core.old }
    requires within { depth ≤ length key.now }
    requires states { closings core.old + openings core.old + (length key.now - depth) ≤ capacity core.old.states }
    requires arcs { edgings core.old + (length key.now - depth) ≤ capacity core.old.arcs }
    requires pairs { core.old.pairs < 1048575 }
    ensures { Extended O.Output.kind O.Output.meaning key.now depth (O.Output.meaning left) core.old core.new }
{
    let mut output = left;
    for &byte in &key[depth..] {
        add_arc(core, byte, output);
        open_record(core);
        output = O::empty();
    }
    accept(core, output);
}
