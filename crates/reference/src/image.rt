// The image of a transducer: its fields bit by bit, and the bytes that hold them.
ghost use Rattle.std.specs.Prelude.{◌≡◌, ◌+◌, ◌*◌, IfOk};

use crate::bits::Bits;
use crate::fault::Fault;
use crate::machine::{Machine, State};
use crate::values::Value;
use std::alloc::{AllocError, Global};

// The first two bytes, the letters TD.
const MARK: usize = 0x5444;
// The bits of an entry of the index.
const ENTRY: usize = 32;

pub fn image<V: Value>(heap: Global, machine: &Machine<V>) -> Result<Vec<u8>, Fault> {
    let mut records = Bits::new(heap);
    let mut places = Vec::new(heap);
    for state in machine.states.iter() {
        places.push(records.count())?;
        put_record(&mut records, state)?;
    }
    let mut bits = Bits::new(heap);
    put_head(&mut bits, machine)?;
    let first = first_record(bits.count(), machine.states.len())?;
    for place in places.iter() {
        bits.put(first.checked_add(*place).ok_or(Fault::Wide)?, ENTRY)?;
    }
    bits.append(&records)?;
    bits.bytes(heap)
}

// Where the first record begins, behind the head and the index.
fn first_record(head: usize, states: usize) -> Result<usize, Fault>
    ensures { IfOk result (λ place. place ≡ head + states * 32) }
{
    let index = states.checked_mul(ENTRY).ok_or(Fault::Wide)?;
    head.checked_add(index).ok_or(Fault::Wide)
}

fn put_head<V: Value>(bits: &mut Bits, machine: &Machine<V>) -> Result<(), Fault> {
    bits.put(MARK, 16)?;
    bits.put(V::KIND as usize, 8)?;
    bits.put(machine.states.len(), 16)?;
    bits.put(machine.arc_count(), 17)?;
    bits.put(machine.keys, 20)?;
    machine.start.write(bits)
}

fn put_record<V: Value>(bits: &mut Bits, state: &State<V>) -> Result<(), Fault> {
    bits.put(usize::from(state.end.is_some()), 1)?;
    bits.put(state.arcs.len(), 9)?;
    bits.put(state.keys, 20)?;
    if let Some(output) = &state.end {
        output.write(bits)?;
    }
    for arc in state.arcs.iter() {
        bits.put(usize::from(arc.byte), 8)?;
        bits.put(arc.target, 16)?;
        arc.output.write(bits)?;
    }
    Ok(())
}

// Two digits for each byte.
pub fn hexadecimal(heap: Global, bytes: &[u8]) -> Result<String, AllocError> {
    let digits: Vec<String> = bytes
        .iter()
        .map(|byte| format!(in heap; "{byte:02X}"))
        .try_collect(heap)?;
    digits.join(heap, " ")
}
