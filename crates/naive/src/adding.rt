//! What a builder holds after some pairs, and what it has to answer to a pair, straight from the definitions.
use reference::compiling::compile;
use reference::fault::Fault;
use reference::machine::{Machine, State};
use reference::values::Value;
use sheets::Pair;
use std::alloc::Global;
use std::collections::BTreeSet;

/// Why a pair is not taken. The reasons are told apart anew: those of the builder are what this crate judges.
#[derive(Clone, Copy, PartialEq, Eq, Debug)]
pub enum Reason {
    LongKey,
    OutOfOrder,
    FewStates,
    FewArcs,
}

impl Reason {
    /// The number by which the refusal is reported.
    pub fn number(&self) -> u8 {
        match self {
            Reason::LongKey => 5,
            Reason::OutOfOrder => 6,
            Reason::FewStates => 8,
            Reason::FewArcs => 9,
        }
    }
}

/// How many states and arcs: of a memory, or held in one.
#[derive(Clone, Copy)]
pub struct Room {
    pub states: usize,
    pub arcs: usize,
}

impl Room {
    /// Room that suffices for both.
    fn or(self, other: Room) -> Room {
        Room {
            states: self.states.max(other.states),
            arcs: self.arcs.max(other.arcs),
        }
    }

    /// Room for one state more, with its arcs.
    fn with<V>(self, state: &State<V>) -> Room {
        Room {
            states: self.states.saturating_add(1),
            arcs: self.arcs.saturating_add(state.arcs.len()),
        }
    }

    /// Whether a memory has as much as is asked.
    fn suffices(self, asked: Room) -> Result<(), Reason> {
        let usable = self.states > 0 && self.arcs > 0;
        if !usable || asked.states > self.states {
            return Err(Reason::FewStates);
        }
        if asked.arcs > self.arcs {
            return Err(Reason::FewArcs);
        }
        Ok(())
    }
}

/// The answers to pairs in turn, and the pairs that are taken.
#[derive(Drop)]
pub struct Expected<V> {
    pub answers: Vec<Result<(), Reason>>,
    pub taken: Vec<Pair<V>>,
}

/// What a builder with some room has to answer to pairs in turn.
pub fn answers_to<V: Value>(
    heap: Global,
    pairs: &[Pair<V>],
    room: Room,
) -> Result<Expected<V>, Fault> {
    let mut answers = Vec::new(heap);
    let mut taken: Vec<Pair<V>> = Vec::new(heap);
    for pair in pairs {
        let answer = answer_after(heap, taken.as_slice(), pair.key.as_slice(), room)?;
        if answer.is_ok() {
            taken.push(pair.clone()?)?;
        }
        answers.push(answer)?;
    }
    Ok(Expected { answers, taken })
}

/// The least memory in which a builder takes all pairs.
pub fn least_room<V: Value>(heap: Global, pairs: &[Pair<V>]) -> Result<Room, Fault> {
    let mut room = Room { states: 1, arcs: 1 };
    let mut taken: Vec<Pair<V>> = Vec::new(heap);
    for pair in pairs {
        room = room.or(asked_by(heap, taken.as_slice(), pair.key.as_slice())?);
        taken.push(pair.clone()?)?;
    }
    Ok(room)
}

/// The answer to a key after the pairs that were taken. No list is long enough for refusal 7.
fn answer_after<V: Value>(
    heap: Global,
    taken: &[Pair<V>],
    key: &[u8],
    room: Room,
) -> Result<Result<(), Reason>, Fault> {
    if let Err(reason) = test_key(taken, key) {
        return Ok(Err(reason));
    }
    Ok(room.suffices(asked_by(heap, taken, key)?))
}

/// Whether a key may follow the pairs that were taken.
fn test_key<V>(taken: &[Pair<V>], key: &[u8]) -> Result<(), Reason> {
    if key.len() > 64 {
        return Err(Reason::LongKey);
    }
    if taken
        .last()
        .is_some_and(|newest| key <= newest.key.as_slice())
    {
        return Err(Reason::OutOfOrder);
    }
    Ok(())
}

/// What is held after some pairs, and the growth of a key besides.
fn asked_by<V: Value>(heap: Global, taken: &[Pair<V>], key: &[u8]) -> Result<Room, Fault> {
    let Some(newest) = taken.last() else {
        return Ok(Room {
            states: key.len().saturating_add(1),
            arcs: key.len(),
        });
    };
    let newest = newest.key.as_slice();
    let machine = compile(heap, taken)?;
    let held = held_in(heap, &machine, taken, newest)?;
    let growth = growth_of(key, newest);
    Ok(Room {
        states: held.states.saturating_add(growth),
        arcs: held.arcs.saturating_add(growth),
    })
}

/// The length of a key less that of its common prefix with the newest.
fn growth_of(key: &[u8], newest: &[u8]) -> usize {
    let shared = key
        .iter()
        .zip(newest)
        .take_while(|(byte, other)| byte == other);
    key.len().saturating_sub(shared.count())
}

/// The classes of the closed prefixes and one for each open prefix, with the arcs of all of them.
fn held_in<V: Value>(
    heap: Global,
    machine: &Machine<V>,
    taken: &[Pair<V>],
    newest: &[u8],
) -> Result<Room, Fault> {
    let closed = closed_classes(heap, machine, taken, newest)?;
    let mut room = Room { states: 0, arcs: 0 };
    for state in closed.iter().filter_map(|class| machine.states.get(*class)) {
        room = room.with(state);
    }
    for length in 0..=newest.len() {
        if let Some(state) = machine.state_after(&newest[..length]) {
            room = room.with(state);
        }
    }
    Ok(room)
}

/// The states that the prefixes of keys lead to which are no prefixes of the newest key.
fn closed_classes<V: Value>(
    heap: Global,
    machine: &Machine<V>,
    taken: &[Pair<V>],
    newest: &[u8],
) -> Result<BTreeSet<usize>, Fault> {
    let mut classes = BTreeSet::new(heap);
    for pair in taken {
        let key = pair.key.as_slice();
        for length in 0..=key.len() {
            let prefix = &key[..length];
            if !newest.starts_with(prefix) {
                let class = machine.number_after(prefix).ok_or(Fault::Unreadable)?;
                let _ = classes.insert(class)?;
            }
        }
    }
    Ok(classes)
}
