//! Lists of pairs that look thrown: few letters and short keys, so that prefixes and endings meet.
use dice::Dice;
use naive::adding::Room;
use output_trials::twin::Twin;
use reference::fault::Fault;
use reference::values::{PlainNumber, PlainText};
use sheets::Pair;
use std::alloc::Global;

/// Dice for lists.
pub type ListDice = Dice<16>;

/// Plain outputs for lists.
pub trait Thrown: Twin {
    /// Some, spelled as in a sheet: many share a prefix.
    fn spellings() -> &'static [&'static str];
}

impl Thrown for PlainNumber {
    fn spellings() -> &'static [&'static str] {
        &["0", "1", "1", "2", "3", "5", "7", "4294967295"]
    }
}

impl Thrown for PlainText {
    fn spellings() -> &'static [&'static str] {
        &[
            "",
            "m",
            "mm",
            "mm",
            "m/s",
            "m/h",
            "bar",
            "millibar-of-pressure-abs",
        ]
    }
}

/// A list of up to ten pairs. Its keys mostly ascend, some come twice, and now and then one is too long.
pub fn thrown_list<V: Thrown>(heap: Global, dice: &mut ListDice) -> Result<Vec<Pair<V>>, Fault> {
    let letters = 1usize.saturating_add(dice.below(3));
    let mut keys = Vec::new(heap);
    for _ in 0..1usize.saturating_add(dice.below(10)) {
        keys.push(thrown_key(heap, dice, letters)?)?;
    }
    if dice.below(8) > 0 {
        keys.sort()?;
    }
    let mut pairs = Vec::new(heap);
    for key in keys {
        pairs.push(Pair {
            key,
            output: thrown_output(heap, dice)?,
        })?;
    }
    Ok(pairs)
}

fn thrown_key(heap: Global, dice: &mut ListDice, letters: usize) -> Result<Vec<u8>, Fault> {
    let mut key = Vec::new(heap);
    let length = if dice.below(60) == 0 {
        62usize.saturating_add(dice.below(5))
    } else {
        dice.below(5)
    };
    for _ in 0..length {
        key.push(letter(dice.below(letters)))?;
    }
    Ok(key)
}

fn letter(number: usize) -> u8 {
    match number {
        0 => b'a',
        1 => b'b',
        _ => b'c',
    }
}

fn thrown_output<V: Thrown>(heap: Global, dice: &mut ListDice) -> Result<V, Fault> {
    let spellings = V::spellings();
    let spelling = spellings
        .get(dice.below(spellings.len()))
        .ok_or(Fault::Unreadable)?;
    V::read(heap, *spelling)
}

/// Room for every list, or now and then for few states or arcs.
pub fn thrown_room(dice: &mut ListDice) -> Room {
    Room {
        states: thrown_count(dice),
        arcs: thrown_count(dice),
    }
}

fn thrown_count(dice: &mut ListDice) -> usize {
    if dice.below(3) == 0 {
        dice.below(12)
    } else {
        400
    }
}
