// A row of bits, and the bytes that hold it.
ghost use Rattle.std.specs.Prelude.{◌≡◌, vec_len};

use crate::fault::Fault;
use std::alloc::Global;

#[derive(Drop)]
pub struct Bits {
    row: Vec<bool>,
}

impl Bits {
    pub fn new(heap: Global) -> Bits
        ensures { vec_len result.row ≡ 0 }
    {
        Bits {
            row: Vec::new(heap),
        }
    }

    pub fn count(&self) -> usize
        ensures { result ≡ vec_len self.now.row }
    {
        self.row.len()
    }

    pub fn row(&self) -> &[bool]
        ensures { result.now ≡ self.now.row.items }
    {
        self.row.as_slice()
    }

    // Appends a number in `width` bits, the most significant first.
    pub fn put(&mut self, value: usize, width: usize) -> Result<(), Fault> {
        if width < 64 && value >> width != 0 {
            return Err(Fault::Wide);
        }
        for place in (0..width).rev() {
            self.row.push(bit_at(value, place))?;
        }
        Ok(())
    }

    pub fn append(&mut self, other: &Bits) -> Result<(), Fault> {
        Ok(self.row.extend_from_slice(other.row())?)
    }

    // The bytes, with zero bits filling the last.
    pub fn bytes(&self, heap: Global) -> Result<Vec<u8>, Fault> {
        Ok(self.row.chunks(8).map(packed).collect(heap)?)
    }
}

// The bit of a number that stands for 2 to the power `place`.
fn bit_at(value: usize, place: usize) -> bool {
    place < 64 && (value >> place) & 1 == 1
}

// The byte of up to eight bits, the most significant first.
fn packed(group: &[bool]) -> u8 {
    group
        .iter()
        .rev()
        .fold(0, |byte, bit| byte / 2 | if *bit { 128 } else { 0 })
}
