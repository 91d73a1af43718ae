//! What an image is asked: the keys in another order, and strings that are nearly keys.
ghost use Rattle.std.specs.Prelude.{length};
ghost use Rattle.std.specs.Iterator.{at_most};

use crate::fault::Fault;
use crate::pairs::holds;
use dice::Dice;
use sheets::Pair;
use std::alloc::{AllocError, Global};

/// How often another byte is tried, where a changed key is a key too.
const TRIES: usize = 64;

/// Dice for questions.
pub type QuestionDice = Dice<0>;

/// Strings, one behind another, and where each ends: a `Vec` for each would take more memory than the strings.
#[derive(Drop)]
pub struct Questions {
    bytes: Vec<u8>,
    ends: Vec<usize>,
}

impl Questions {
    fn new(heap: Global) -> Questions {
        Questions {
            bytes: Vec::new(heap),
            ends: Vec::new(heap),
        }
    }

    fn push(&mut self, string: &[u8]) -> Result<(), AllocError> {
        self.bytes.extend_from_slice(string)?;
        self.ends.push(self.bytes.len())?;
        Ok(())
    }

    /// How many there are.
    pub fn count(&self) -> usize {
        self.ends.len()
    }

    /// The strings in turn.
    pub fn iter(&self) -> Strings<'_> {
        Strings {
            bytes: self.bytes.as_slice(),
            start: 0,
            ends: self.ends.as_slice(),
        }
    }
}

/// The strings that are left.
#[derive(Drop)]
pub struct Strings<'a> {
    bytes: &'a [u8],
    start: usize,
    ends: &'a [usize],
}

impl<'a> Iterator for Strings<'a> {
    type Item = &'a [u8];

    ghost remaining = { λ s. at_most (length s.ends.now) };

    fn next(&mut self) -> Option<&'a [u8]> {
        let (end, others) = self.ends.split_first()?;
        let string = self.bytes.get(self.start..*end).unwrap_or(&[]);
        self.start = *end;
        self.ends = others;
        Some(string)
    }
}

/// The pairs in another order.
fn shuffled<'a, O>(
    heap: Global,
    pairs: &'a [Pair<O>],
    dice: &mut QuestionDice,
) -> Result<Vec<&'a Pair<O>>, AllocError> {
    let mut order: Vec<&Pair<O>> = pairs.iter().collect(heap)?;
    // By places, since two of them are swapped.
    for i in 0..order.len() {
        let j = dice.below(i + 1);
        order.swap(i, j);
    }
    Ok(order)
}

/// The keys in another order.
pub fn keys_shuffled<O>(
    heap: Global,
    pairs: &[Pair<O>],
    dice: &mut QuestionDice,
) -> Result<Questions, Fault> {
    let mut keys = Questions::new(heap);
    for pair in shuffled(heap, pairs, dice)? {
        keys.push(pair.key.as_slice())?;
    }
    Ok(keys)
}

/// For each key a string with one other byte that is no key, where some tries find one.
pub fn near_misses<O>(
    heap: Global,
    pairs: &[Pair<O>],
    dice: &mut QuestionDice,
) -> Result<Questions, Fault> {
    let mut misses = Questions::new(heap);
    for pair in shuffled(heap, pairs, dice)? {
        let mut string = pair.key.clone()?;
        if spoil(string.as_mut_slice(), pairs, dice) {
            misses.push(string.as_slice())?;
        }
    }
    Ok(misses)
}

/// Changes one byte, such that the string is no key, and tells whether it did.
fn spoil<O>(string: &mut [u8], pairs: &[Pair<O>], dice: &mut QuestionDice) -> bool {
    if string.is_empty() {
        return false;
    }
    for _ in 0..TRIES {
        let place = dice.below(string.len());
        let before = string[place];
        string[place] = other_byte(dice);
        if !holds(pairs, string) {
            return true;
        }
        string[place] = before;
    }
    false
}

/// Some printable byte.
fn other_byte(dice: &mut QuestionDice) -> u8 {
    33 + dice.below(94) as u8
}
