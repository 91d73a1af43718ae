//! A sealed dictionary, record by record, beside a plain machine; and its answers, by walking its records.
use builder::Sealed;
use output_trials::twin::Twin;
use outputs::output::Output;
use records::record::{Arc, State};
use reference::machine::{Arc as PlainArc, Machine, State as PlainState};
use saving::{Rows, closed_rows};

/// Records in any order and shape: a trial takes nothing of them on trust.
#[derive(Clone, Copy)]
pub struct Records<'b, O> {
    /// The states by number.
    pub states: &'b [State<O>],
    /// The arcs of all states.
    pub arcs: &'b [Arc<O>],
    /// What is put out before the first byte.
    pub start: O,
    /// How many pairs there are.
    pub keys: u32,
}

/// The records of a sealed dictionary.
pub fn rows_of<'a, 'b, O: Output>(sealed: &'b Sealed<'a, O>) -> Rows<'b, O> {
    closed_rows(sealed.memory())
}

/// The same, with no claim of how they lie.
pub fn records_of<'a, 'b, O: Output>(sealed: &'b Sealed<'a, O>) -> Records<'b, O> {
    let rows = rows_of(sealed);
    Records {
        states: rows.states,
        arcs: rows.arcs,
        start: rows.start,
        keys: rows.keys,
    }
}

/// Whether states, arcs, keys, outputs and counts are those of a plain machine.
pub fn agrees<'b, V: Twin>(machine: &Machine<V>, rows: &Records<'b, V::Proved>) -> bool {
    rows.states.len() == machine.states.len()
        && rows.arcs.len() == machine.arc_count()
        && rows.keys as usize == machine.keys
        && machine.start.means(&rows.start)
        && machine
            .states
            .iter()
            .zip(rows.states)
            .all(|(plain, state)| same_state(plain, state, rows.arcs))
}

fn same_state<V: Twin>(
    plain: &PlainState<V>,
    state: &State<V::Proved>,
    arcs: &[Arc<V::Proved>],
) -> bool {
    let own = arcs_of(state, arcs);
    plain.keys == state.keys as usize
        && plain.arcs.len() == own.len()
        && same_end(plain, state)
        && plain
            .arcs
            .iter()
            .zip(own)
            .all(|(plain, arc)| same_arc(plain, arc))
}

fn same_end<V: Twin>(plain: &PlainState<V>, state: &State<V::Proved>) -> bool {
    match (&plain.end, &state.end) {
        (Some(output), Some(end)) => output.means(end),
        (None, None) => true,
        _ => false,
    }
}

fn same_arc<V: Twin>(plain: &PlainArc<V>, arc: &Arc<V::Proved>) -> bool {
    plain.byte == arc.byte
        && plain.target == usize::from(arc.target)
        && plain.output.means(&arc.output)
}

/// The arcs of a closed state, whose place is counted from the end of the arc list; none where the list has not so many.
fn arcs_of<'b, O: Output>(state: &State<O>, arcs: &'b [Arc<O>]) -> &'b [Arc<O>] {
    let first = arcs.len().saturating_sub(state.first as usize);
    let end = first.saturating_add(state.count as usize);
    arcs.get(first..end).unwrap_or(&[])
}

/// The state that a byte string leads to, and what is put out on the way.
pub fn walk<'b, O: Output>(rows: &Records<'b, O>, string: &[u8]) -> Option<(State<O>, O)> {
    let mut state = *rows.states.last()?;
    let mut output = rows.start;
    for byte in string {
        let arc = arc_on(arcs_of(&state, rows.arcs), *byte)?;
        output = output.join(&arc.output);
        state = *rows.states.get(usize::from(arc.target))?;
    }
    Some((state, output))
}

fn arc_on<O: Output>(arcs: &[Arc<O>], byte: u8) -> Option<&Arc<O>> {
    arcs.iter().find(|arc| arc.byte == byte)
}

/// What is put out where a byte string ends.
pub fn end_after<'b, O: Output>(rows: &Records<'b, O>, string: &[u8]) -> Option<O> {
    let (state, _) = walk(rows, string)?;
    state.end
}

/// The output of a key.
pub fn answer<'b, O: Output>(rows: &Records<'b, O>, key: &[u8]) -> Option<O> {
    let (state, output) = walk(rows, key)?;
    Some(output.join(&state.end?))
}
