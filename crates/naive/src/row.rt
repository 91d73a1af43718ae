//! The bits of an image, and how far they are read.
use crate::stop::{Reason, Stop};
use reference::values::Kind;
use std::alloc::Global;

/// The bits of an image of a kind, with a place in them.
#[derive(Drop)]
pub struct Row {
    pub kind: Kind,
    bits: Vec<bool>,
    pub place: usize,
}

impl Row {
    /// The bits of bytes, the most significant of each first.
    pub fn new(heap: Global, kind: Kind, bytes: &[u8]) -> Result<Row, Stop> {
        let mut bits = Vec::new(heap);
        for byte in bytes {
            for weight in [128u8, 64, 32, 16, 8, 4, 2, 1] {
                bits.push(*byte & weight != 0)?;
            }
        }
        Ok(Row {
            kind,
            bits,
            place: 0,
        })
    }

    /// How many bits are left.
    fn left(&self) -> usize {
        self.bits.len().saturating_sub(self.place)
    }

    /// The number in `width` bits at a place, as far as there are bits.
    pub fn number_at(&self, place: usize, width: usize) -> usize {
        let bits = self.bits.iter().skip(place).take(width);
        bits.fold(0usize, |number, bit| {
            number.saturating_mul(2).saturating_add(usize::from(*bit))
        })
    }

    /// Passes so many bits, and gives the place where they begin.
    fn pass(&mut self, width: usize) -> Result<usize, Stop> {
        let place = self.place;
        if self.left() < width {
            return Err(Reason::Cut(self.bits.len() / 8).at(place));
        }
        self.place = place.saturating_add(width);
        Ok(place)
    }

    /// The number in the next field.
    pub fn field(&mut self, width: usize) -> Result<usize, Stop> {
        let place = self.pass(width)?;
        Ok(self.number_at(place, width))
    }

    /// Passes the code of an output.
    pub fn pass_code(&mut self) -> Result<(), Stop> {
        let width = match self.kind {
            Kind::Numbers => 32,
            Kind::Texts => self.text_width()?,
        };
        self.pass(width)?;
        Ok(())
    }

    /// The bits of the text's code that begins here. A length that is cut is the least that it can still become.
    fn text_width(&self) -> Result<usize, Stop> {
        let cut = self.number_at(self.place, 5);
        let length = (self.left()..5).fold(cut, |length, _| length.saturating_mul(2));
        if length > 24 {
            return Err(Reason::LongText.at(self.place));
        }
        Ok(length.saturating_mul(8).saturating_add(5))
    }
}
