//! Damaged images: `load` beside the plain reading.
use crate::report::{agree, answer_on, is_clear};
use loading::LoadRefusal;
use naive::reading::take;
use naive::stop::{Report, Stop};
use output_trials::twin::Twin;
use reference::fault::Fault;
use reference::numbers::Numbers;
use std::alloc::Global;
use stores::ByteStore;

/// How many working bytes are given to load.
const WORKING: usize = 80;

/// What came of reading images.
#[derive(Clone, Copy)]
pub struct Readings {
    /// How many were read.
    pub images: usize,
    /// How often an image was taken, or refused with each number.
    pub numbers: Numbers,
    /// How many answers of load are other than the plain reading's.
    pub differ: usize,
}

impl Readings {
    pub fn new() -> Readings {
        Readings {
            images: 0,
            numbers: Numbers::new(),
            differ: 0,
        }
    }

    fn note(&mut self, answer: Result<(), LoadRefusal>, agrees: bool) {
        self.images = self.images.saturating_add(1);
        if !agrees {
            self.differ = self.differ.saturating_add(1);
        }
        self.numbers.note(number_of(answer));
    }
}

/// The number of a refusal, if an answer is one.
pub fn number_of(answer: Result<(), LoadRefusal>) -> Option<u8> {
    answer.err().map(|refusal| refusal.number())
}

/// Reads the first bytes of an image, as many as `used` says, by load and plainly, and gives what load answers. A store takes its memory and how much of it is used, so both come here.
pub fn read_both<V: Twin>(
    heap: Global,
    bytes: &mut [u8],
    used: usize,
    readings: &mut Readings,
) -> Result<Result<(), LoadRefusal>, Fault> {
    let used = used.min(bytes.len());
    let plain = read_plainly::<V>(heap, &bytes[..used])?;
    let mut working = [0xEEu8; WORKING];
    let store = ByteStore::new(bytes, used);
    let answer = answer_on::<V::Proved, ByteStore>(&store, &mut working);
    readings.note(answer, agree(answer, plain) && is_clear(&working));
    Ok(answer)
}

/// What the plain reading answers on an image.
fn read_plainly<V: Twin>(heap: Global, bytes: &[u8]) -> Result<Result<(), Report>, Fault> {
    match take(heap, V::KIND as u8, bytes, WORKING) {
        Ok(()) => Ok(Ok(())),
        Err(Stop::Refused(report)) => Ok(Err(report)),
        Err(Stop::Memory(error)) => Err(Fault::Memory(error)),
    }
}

/// Reads an image with each of its bits turned, and cut at each of its bytes.
pub fn read_damaged<V: Twin>(
    heap: Global,
    bytes: &mut [u8],
    readings: &mut Readings,
) -> Result<(), Fault> {
    let length = bytes.len();
    for place in 0..length.saturating_mul(8) {
        turn_bit(bytes, place);
        let _ = read_both::<V>(heap, bytes, length, readings)?;
        turn_bit(bytes, place);
    }
    for used in 0..length {
        let _ = read_both::<V>(heap, bytes, used, readings)?;
    }
    Ok(())
}

/// Turns the bit at a place.
pub fn turn_bit(bytes: &mut [u8], place: usize) {
    if let Some(byte) = bytes.get_mut(place / 8) {
        *byte ^= 128 >> (place % 8);
    }
}
