//! Machines made up for load: some are not minimal, and most hold what no builder makes.
use naive::stop::Reason;
use output_trials::twin::Twin;
use reference::fault::Fault;
use reference::machine::{Arc, Machine, State};
use reference::values::Value;
use std::alloc::Global;

/// A machine of numbers, with the answer that load is to give.
#[derive(Clone, Copy)]
pub struct MadeUp {
    /// How many keys it claims.
    pub keys: usize,
    /// The states by number with a bar between them: the keys that it claims, `=` and the end output if there is one, and each arc as `byte>target/output`.
    pub states: &'static str,
    pub answer: Result<(), Reason>,
}

pub static MADE_UP: [MadeUp; 11] = [
    // Two states alike: not minimal, and taken.
    MadeUp {
        keys: 2,
        states: "1 =0 | 1 =0 | 2 a>0/1 b>1/2",
        answer: Ok(()),
    },
    // Outputs that are not moved forward.
    MadeUp {
        keys: 1,
        states: "1 =7 | 1 a>0/0",
        answer: Ok(()),
    },
    // A join that is no storable number.
    MadeUp {
        keys: 1,
        states: "1 =4294967295 | 1 a>0/4294967295",
        answer: Ok(()),
    },
    // Neither an end nor an arc.
    MadeUp {
        keys: 1,
        states: "1",
        answer: Err(Reason::Record),
    },
    // Arcs that do not ascend, and two arcs on one byte.
    MadeUp {
        keys: 2,
        states: "1 =0 | 2 b>0/0 a>0/0",
        answer: Err(Reason::Record),
    },
    MadeUp {
        keys: 2,
        states: "1 =0 | 2 a>0/0 a>0/0",
        answer: Err(Reason::Record),
    },
    // A circle, and a target that is not there.
    MadeUp {
        keys: 1,
        states: "1 =0 | 1 a>1/0",
        answer: Err(Reason::Record),
    },
    MadeUp {
        keys: 1,
        states: "1 =0 | 1 a>9/0",
        answer: Err(Reason::Record),
    },
    // Key counts that are not the sum: of a state, and of the image.
    MadeUp {
        keys: 2,
        states: "1 =0 | 2 a>0/0",
        answer: Err(Reason::Sum),
    },
    MadeUp {
        keys: 2,
        states: "1 =0 | 1 a>0/0",
        answer: Err(Reason::Sum),
    },
    // A state that no arc leads to.
    MadeUp {
        keys: 1,
        states: "1 =0 | 1 b>0/0 | 1 a>0/0",
        answer: Err(Reason::Unreached),
    },
];

/// The machine that a text spells.
pub fn read_machine<V: Twin>(heap: Global, keys: usize, text: &str) -> Result<Machine<V>, Fault> {
    Ok(Machine {
        keys,
        start: V::read(heap, "0")?,
        states: text
            .split('|')
            .map(|part| read_state(heap, part))
            .try_collect(heap)?,
    })
}

fn read_state<V: Value>(heap: Global, text: &str) -> Result<State<V>, Fault> {
    let mut keys = 0;
    let mut end = None;
    let mut arcs = Vec::new(heap);
    for word in text.split_whitespace() {
        if let Some((_, output)) = word.split_once('=') {
            end = Some(V::read(heap, output)?);
        } else if let Some((byte, target)) = word.split_once('>') {
            arcs.push(read_arc(heap, byte, target)?)?;
        } else {
            keys = word.parse()?;
        }
    }
    Ok(State { keys, end, arcs })
}

fn read_arc<V: Value>(heap: Global, byte: &str, text: &str) -> Result<Arc<V>, Fault> {
    let (target, output) = text.split_once('/').ok_or(Fault::Unreadable)?;
    Ok(Arc {
        byte: *byte.as_bytes().first().ok_or(Fault::Unreadable)?,
        target: target.parse()?,
        output: V::read(heap, output)?,
    })
}

/// The machine of one key of so many bytes.
pub fn chain<V: Twin>(heap: Global, length: usize) -> Result<Machine<V>, Fault> {
    let nothing: V = V::read(heap, "0")?;
    let mut states = Vec::new(heap);
    states.push(State {
        keys: 1,
        end: Some(nothing.clone()?),
        arcs: Vec::new(heap),
    })?;
    for target in 0..length {
        let mut arcs = Vec::new(heap);
        arcs.push(Arc {
            byte: b'a',
            target,
            output: nothing.clone()?,
        })?;
        states.push(State {
            keys: 1,
            end: None,
            arcs,
        })?;
    }
    Ok(Machine {
        keys: 1,
        start: nothing,
        states,
    })
}
