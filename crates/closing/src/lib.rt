// Closing open records: an equal closed state takes the place of a record, or the record becomes the next state.
#![tactic(auto)]

ghost use Rattle.std.specs.Prelude.{◌≡◌, ◌+◌, ◌<◌, length};
ghost use Rattle.stacks.specs.Stacks.{lows, highs};
ghost use Rattle.records.specs.Lying.{Led};
ghost use Rattle.records.specs.Shape.{Within, openings};
ghost use Rattle.records.specs.Holding.{held};
ghost use Rattle.records.specs.Registering.{Registered};
ghost use Rattle.closing.specs.Closing.{Popped, Dropped, Settled, NoEqual, Closes, Aimed, closed_beyond, all_closed};

use comparing::newest::equal_state;
use outputs::output::Output;
use records::memory::Core;
use records::record::{Arc, State};
use register::enter;

// The newest open record is let go with its arcs: a closed state is equal to it.
// That a record is open is asked where it is: a type that kept it would have to be made anew after each call.
pub fn drop_top<'a, O: Output>(core: &mut Core<'a, O>)
    requires { 0 < openings core.old }
    ensures popped { Popped core.old core.new }
    ensures dropped { Dropped O.Output.meaning core.old core.new }
{
    let top = core.states.pop_high();
    core.arcs.forget_low(top.count as usize);
}

// The newest open record becomes the next state, whose number is given.
pub fn settle_top<'a, O: Output>(core: &mut Core<'a, O>) -> u16
    requires { 0 < openings core.old }
    ensures popped { Popped core.old core.new }
    ensures settled { Settled O.Output.meaning core.old core.new result }
{
    let number = core.states.lows() as u16;
    let top = core.states.pop_high();
    core.arcs.settle_all(top.count as usize);
    let first = core.arcs.highs() as u32;
    let keys = core.pairs - top.keys;
    core.states.push_low(State { first, keys, ..top });
    number
}

// The newest open record becomes the next state, which is entered in the register.
// That the slots are the register of the closed states stands in clauses: it says where each state is entered, and a type keeps only facts without such data.
pub fn keep_top<'a, O: Output>(core: &mut Core<'a, O>, slot: usize) -> u16
    requires top { 0 < openings core.old }
    requires missing { NoEqual O.Output.digested O.Output.meaning core.old slot }
    ensures popped { Popped core.old core.new }
    ensures closes { Registered O.Output.digested O.Output.meaning core.old → Closes O.Output.kind O.Output.meaning core.old core.new result }
    ensures registered { Registered O.Output.digested O.Output.meaning core.old → Registered O.Output.digested O.Output.meaning core.new }
{
    let number = settle_top(core);
    enter(core.slots, slot, number);
    number
}

// Closes the newest open record, and gives the number of its state.
pub fn close_top<'a, O: Output>(core: &mut Core<'a, O>) -> u16
    requires { 0 < openings core.old }
    ensures popped { Popped core.old core.new }
    ensures closes { Registered O.Output.digested O.Output.meaning core.old → Closes O.Output.kind O.Output.meaning core.old core.new result }
    ensures registered { Registered O.Output.digested O.Output.meaning core.old → Registered O.Output.digested O.Output.meaning core.new }
{
    match equal_state(core) {
        Ok(number) => {
            drop_top(core);
            number
        }
        Err(slot) => keep_top(core, slot),
    }
}

// The newest arc leads to a closed state.
pub fn lead_to<'a, O: Output>(core: &mut Core<'a, O>, number: u16)
    requires top { 0 < openings core.old }
    requires led { Led (length (lows core.old.arcs)) (highs core.old.states) }
    ensures { Aimed O.Output.meaning core.old core.new number }
{
    let last = core.arcs.lows() - 1;
    let arc = core.arcs.at_low(last);
    core.arcs.set_low(
        last,
        Arc {
            target: number,
            ..arc
        },
    );
}

// Closes the open records beyond a depth, the deepest first.
pub fn close_beyond<'a, O: Output>(core: &mut Core<'a, O>, depth: usize)
    requires { depth < openings core.old }
    ensures registered { Registered O.Output.digested O.Output.meaning core.old → Registered O.Output.digested O.Output.meaning core.new }
    ensures within { Within core.old core.new }
    ensures opens { openings core.new ≡ depth + 1 }
    ensures pairs { core.new.pairs ≡ core.old.pairs }
    ensures holds { Registered O.Output.digested O.Output.meaning core.old → held O.Output.meaning core.new ≡ closed_beyond O.Output.kind depth (held O.Output.meaning core.old) }
{
    let kept = depth + 1;
    for _ in kept..core.states.highs() {
        let number = close_top(core);
        lead_to(core, number);
    }
}

// Closes all open records. That of the empty prefix is last, and no equal state is looked for: none has keys as long.
pub fn close_all<'a, O: Output>(core: &mut Core<'a, O>)
    ensures opens { openings core.new ≡ 0 }
    ensures holds { Registered O.Output.digested O.Output.meaning core.old → held O.Output.meaning core.new ≡ all_closed O.Output.kind (held O.Output.meaning core.old) }
{
    if core.states.highs() > 0 {
        close_beyond(core, 0);
        settle_top(core);
    }
}
