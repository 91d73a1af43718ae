// Outputs in the plainest form, apart from the crate `outputs`: a number is a `u32`, a text is a vector of bytes.
ghost use Rattle.std.specs.Prelude.{◌≤◌, length};

use crate::bits::Bits;
use crate::fault::Fault;
use std::alloc::Global;
use std::fmt;

// The most bytes of a text.
const LONGEST_TEXT: usize = 24;

// A kind of outputs, with the number by which an image names it.
#[derive(Clone, Copy, PartialEq, Eq, Debug)]
pub enum Kind {
    Numbers = 1,
    Texts = 2,
}

// What the reference asks of an output.
pub trait Value: Sized + Clone + PartialEq + fmt::Display + Drop {
    const KIND: Kind;

    // The output that a word of a sheet spells.
    fn read(heap: Global, shown: &str) -> Result<Self, Fault>;

    // The greatest common prefix.
    fn common(&self, heap: Global, other: &Self) -> Result<Self, Fault>;

    // What follows a prefix.
    fn rest(&self, heap: Global, prefix: &Self) -> Result<Self, Fault>;

    // Writes the code.
    fn write(&self, bits: &mut Bits) -> Result<(), Fault>;
}

#[derive(Clone, Copy, PartialEq)]
pub struct PlainNumber(pub u32);

impl fmt::Display for PlainNumber {
    fn fmt<W: fmt::Write>(&self, f: &mut fmt::Formatter<W>) -> fmt::Result {
        let value = self.0;
        write!(f, "{value}")
    }
}

impl Value for PlainNumber {
    const KIND: Kind = Kind::Numbers;

    fn read(_heap: Global, shown: &str) -> Result<PlainNumber, Fault> {
        Ok(PlainNumber(shown.parse()?))
    }

    fn common(&self, _heap: Global, other: &PlainNumber) -> Result<PlainNumber, Fault> {
        Ok(PlainNumber(self.0.min(other.0)))
    }

    fn rest(&self, _heap: Global, prefix: &PlainNumber) -> Result<PlainNumber, Fault> {
        Ok(PlainNumber(self.0.saturating_sub(prefix.0)))
    }

    fn write(&self, bits: &mut Bits) -> Result<(), Fault> {
        bits.put(self.0 as usize, 32)
    }
}

#[derive(Clone, PartialEq, Drop)]
pub struct PlainText {
    pub bytes: Vec<u8>,
}

impl PlainText {
    fn new(heap: Global, bytes: &[u8]) -> Result<PlainText, Fault> {
        Ok(PlainText {
            bytes: bytes.to_vec(heap)?,
        })
    }
}

impl fmt::Display for PlainText {
    fn fmt<W: fmt::Write>(&self, f: &mut fmt::Formatter<W>) -> fmt::Result {
        write!(f, "'")?;
        for byte in self.bytes.iter() {
            let letter = char::from(*byte);
            write!(f, "{letter}")?;
        }
        write!(f, "'")
    }
}

impl Value for PlainText {
    const KIND: Kind = Kind::Texts;

    fn read(heap: Global, shown: &str) -> Result<PlainText, Fault> {
        if shown.len() > LONGEST_TEXT {
            return Err(Fault::Unreadable);
        }
        PlainText::new(heap, shown.as_bytes())
    }

    fn common(&self, heap: Global, other: &PlainText) -> Result<PlainText, Fault> {
        let shared = shared_length(self.bytes.as_slice(), other.bytes.as_slice());
        PlainText::new(heap, &self.bytes[..shared])
    }

    fn rest(&self, heap: Global, prefix: &PlainText) -> Result<PlainText, Fault> {
        let start = prefix.bytes.len().min(self.bytes.len());
        PlainText::new(heap, &self.bytes[start..])
    }

    fn write(&self, bits: &mut Bits) -> Result<(), Fault> {
        bits.put(self.bytes.len(), 5)?;
        for byte in self.bytes.iter() {
            bits.put(usize::from(*byte), 8)?;
        }
        Ok(())
    }
}

// How many bytes two strings begin with alike.
fn shared_length(a: &[u8], b: &[u8]) -> usize
    ensures within { result ≤ length a.now }
{
    a.iter().zip(b).take_while(|(x, y)| x == y).count()
}
