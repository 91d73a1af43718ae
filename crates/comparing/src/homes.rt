// Where a record is first looked for among the slots of the register.
ghost use Rattle.std.specs.Prelude.{◌≡◌, ◌+◌, ◌*◌, ◌<◌};
ghost use Rattle.records.specs.Holding.{arcs_of, end_of};
ghost use Rattle.records.specs.Registering.{stirred, stirred_end, home};

use outputs::output::Output;
use records::record::{Arc, State};

// One more number is stirred in, and spread over the high bits.
pub fn stir(h: u64, x: u64) -> u64
    ensures { result ≡ stirred h x }
{
    h.wrapping_add(x).wrapping_mul(0x9e3779b97f4a7c15)
}

// The end output alone.
fn stir_end<O: Output>(state: &State<O>) -> u64
    ensures { result ≡ stirred_end O.Output.digested (end_of O.Output.meaning state.now) }
{
    match &state.end {
        Some(end) => stir(1, end.digest()),
        None => 0,
    }
}

// The byte and the target of an arc as one number.
fn step(byte: u8, target: u16) -> u64
    ensures { result ≡ byte * 65536 + target }
{
    u64::from(byte) * 65536 + u64::from(target)
}

// The slot from which a record with these arcs is looked for.
pub fn first_slot<O: Output>(state: &State<O>, arcs: &[Arc<O>], slots: usize) -> usize
    requires { 0 < slots }
    ensures slot { result ≡ home O.Output.digested slots (record { end = end_of O.Output.meaning state.now; arcs = arcs_of O.Output.meaning arcs.now }) }
    ensures within { result < slots }
{
    let mut h = stir_end(state);
    for arc in arcs {
        h = stir(stir(h, step(arc.byte, arc.target)), arc.output.digest());
    }
    ((h >> 32) % slots as u64) as usize
}
