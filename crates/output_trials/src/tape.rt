// Bits in memory: what codes are written to, and what they are read from.
ghost use Rattle.std.specs.Prelude.{◌≡◌, ◌^◌, ◌<◌, ◌≤◌, length, take, refl};
ghost use Rattle.outputs.specs.Bits.{value};

use outputs::sink::BitSink;
use outputs::source::BitSource;

// The most bits of a code.
const MOST: usize = 256;

// Takes bits. Nothing is claimed of what it holds: a trial compares that, bit by bit, when it runs.
#[derive(Drop)]
pub struct Collected {
    pub bits: Vec<bool>,
}

impl BitSink for Collected {
    ghost took = { λ _ _ _. Unit {0} };

    ghost taking = { record { nothing = λ s. tt; in_turn = λ s t u xs ys h k. tt } };

    fn put(&mut self, value: u32, width: usize) {
        for place in (0..width.min(32)).rev() {
            let _ = self.bits.push((value >> place) & 1 == 1);
        }
    }
}

// A code, or a prefix of one.
#[derive(Clone, Copy)]
pub struct Tape<'a> {
    bits: &'a [bool],
    ghost few: { length bits.now ≤ 256 },
}

impl<'a> Tape<'a> {
    // The first 256 bits of a row.
    pub fn new(row: &'a [bool]) -> Tape<'a>
        ensures { result.bits.now ≡ take 256 row.now }
    {
        Tape {
            bits: &row[..MOST.min(row.len())],
        }
    }
}

impl BitSource for Tape<'_> {
    type Short = usize;

    ghost all = { λ s. s.bits.now };

    ghost lacks = { λ s p. length s.bits.now };

    ghost steady = { λ s p q h k. refl };

    fn field(&self, place: usize, width: usize) -> Result<u32, usize> {
        let width = 1usize.max(width.min(32));
        if place > self.bits.len() || width > self.bits.len() - place {
            return Err(self.bits.len());
        }
        Ok(number_of(&self.bits[place..place + width]))
    }
}

// The number that a row of bits writes.
fn number_of(row: &[bool]) -> u32
    requires { length row.now ≤ 32 }
    ensures is { result ≡ value row.now }
    ensures below { result < 2 ^ length row.now }
{
    let mut number: u32 = 0;
    for bit in row {
        number = 2 * number + u32::from(*bit);
    }
    number
}
