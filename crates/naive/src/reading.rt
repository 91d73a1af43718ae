//! An image read field by field, with every test in its turn.
use crate::row::Row;
use crate::stop::{Reason, Stop};
use reference::values::Kind;
use std::alloc::Global;
use std::collections::BTreeSet;

/// What the head says, and where.
#[derive(Clone, Copy)]
struct Head {
    states: usize,
    arcs: usize,
    keys: usize,
    /// The place of the index.
    index: usize,
}

/// The place of the number of states.
const STATES_PLACE: usize = 24;
/// The place of the number of arcs.
const ARCS_PLACE: usize = 40;
/// The place of the number of keys.
const KEYS_PLACE: usize = 57;

/// The strings that are accepted from a state: how many, and how long the longest is.
#[derive(Clone, Copy)]
struct Strings {
    keys: usize,
    longest: usize,
}

/// What is known of a state whose record is read.
#[derive(Clone, Copy)]
struct Known {
    /// Where its record begins.
    place: usize,
    accepted: Strings,
}

/// What is known of an image whose records are being read.
#[derive(Drop)]
struct Found {
    states: Vec<Known>,
    /// How many arcs were read.
    arcs: usize,
    /// The states that they lead to.
    targets: BTreeSet<usize>,
}

/// Takes an image of a kind, for so many working bytes, or says why not.
pub fn take(heap: Global, kind: u8, bytes: &[u8], working: usize) -> Result<(), Stop> {
    let mut row = Row::new(heap, codes_of(kind), bytes)?;
    let head = take_head(&mut row, kind, working)?;
    for _ in 0..head.states {
        let _ = row.field(32)?;
    }
    let mut found = Found {
        states: Vec::new(heap),
        arcs: 0,
        targets: BTreeSet::new(heap),
    };
    for state in 0..head.states {
        take_record(&mut row, head.index, state, &mut found)?;
    }
    test_ending(&mut row, head, &found)
}

/// How the outputs of a kind are coded: as numbers, or, of every other kind, as texts.
fn codes_of(kind: u8) -> Kind {
    if kind == Kind::Numbers as u8 {
        Kind::Numbers
    } else {
        Kind::Texts
    }
}

fn take_head(row: &mut Row, kind: u8, working: usize) -> Result<Head, Stop> {
    if row.field(16)? != 0x5444 {
        return Err(Reason::Mark.at(0));
    }
    if row.field(8)? != usize::from(kind) {
        return Err(Reason::OtherKind.at(16));
    }
    let states = row.field(16)?;
    let arcs = row.field(17)?;
    let keys = row.field(20)?;
    if states == 0 {
        return Err(Reason::Nothing.at(STATES_PLACE));
    }
    if keys == 0 {
        return Err(Reason::Nothing.at(KEYS_PLACE));
    }
    if working < states {
        return Err(Reason::Working.at(STATES_PLACE));
    }
    row.pass_code()?;
    Ok(Head {
        states,
        arcs,
        keys,
        index: row.place,
    })
}

fn take_record(row: &mut Row, index: usize, state: usize, found: &mut Found) -> Result<(), Stop> {
    let entry = index.saturating_add(state.saturating_mul(32));
    let place = row.place;
    if row.number_at(entry, 32) != place {
        return Err(Reason::Index.at(entry));
    }
    let ends = row.field(1)? == 1;
    let count_place = row.place;
    let arcs = row.field(9)?;
    if arcs > 256 || (arcs == 0 && !ends) {
        return Err(Reason::Record.at(count_place));
    }
    let keys_place = row.place;
    let keys = row.field(20)?;
    if ends {
        row.pass_code()?;
    }
    let Strings { keys: sum, longest } = take_arcs(row, state, arcs, found)?;
    if keys != sum.saturating_add(usize::from(ends)) {
        return Err(Reason::Sum.at(keys_place));
    }
    let accepted = Strings { keys, longest };
    found.states.push(Known { place, accepted })?;
    Ok(())
}

/// Reads the arcs of a state, notes their targets, and gives the strings over them.
fn take_arcs(
    row: &mut Row,
    state: usize,
    count: usize,
    found: &mut Found,
) -> Result<Strings, Stop> {
    let mut over = Strings {
        keys: 0,
        longest: 0,
    };
    let mut least = 0;
    for _ in 0..count {
        let byte_place = row.place;
        let byte = row.field(8)?;
        if byte < least {
            return Err(Reason::Record.at(byte_place));
        }
        least = byte.saturating_add(1);
        let target_place = row.place;
        let target = row.field(16)?;
        if target >= state {
            return Err(Reason::Record.at(target_place));
        }
        row.pass_code()?;
        over = with_arc(over, found.states.get(target));
        found.arcs = found.arcs.saturating_add(1);
        let _ = found.targets.insert(target)?;
    }
    Ok(over)
}

/// The strings over some arcs, and over one more besides.
fn with_arc(over: Strings, target: Option<&Known>) -> Strings {
    match target {
        None => over,
        Some(Known { accepted, .. }) => Strings {
            keys: over.keys.saturating_add(accepted.keys),
            longest: over.longest.max(accepted.longest.saturating_add(1)),
        },
    }
}

/// The tests behind the last record.
fn test_ending(row: &mut Row, head: Head, found: &Found) -> Result<(), Stop> {
    let Some((last, others)) = found.states.split_last() else {
        return Err(Reason::Nothing.at(STATES_PLACE));
    };
    if head.keys != last.accepted.keys {
        return Err(Reason::Sum.at(KEYS_PLACE));
    }
    if head.arcs != found.arcs {
        return Err(Reason::Sum.at(ARCS_PLACE));
    }
    for (number, state) in others.iter().enumerate() {
        if !found.targets.contains(&number) {
            return Err(Reason::Unreached.at(state.place));
        }
    }
    if last.accepted.longest > 64 {
        return Err(Reason::Unreached.at(last.place));
    }
    let filling = row.place;
    if row.field((8 - filling % 8) % 8)? != 0 {
        return Err(Reason::Filling.at(filling));
    }
    Ok(())
}
