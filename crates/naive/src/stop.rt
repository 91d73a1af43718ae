//! What stops a reading. The reasons are told apart anew: those of the crates are what this one judges.
use std::alloc::{AllocError, AllocFailed};

/// Why an image is not taken.
#[derive(Clone, Copy, PartialEq, Eq, Debug)]
pub enum Reason {
    /// A field is cut by the end; this byte is the first that is missing.
    Cut(usize),
    /// The image does not begin with the mark.
    Mark,
    /// It has another kind of outputs.
    OtherKind,
    /// It has no state, or no key.
    Nothing,
    /// There are fewer working bytes than states.
    Working,
    /// A text is too long.
    LongText,
    /// A record does not begin where the index says.
    Index,
    /// A record has no such count, byte or target.
    Record,
    /// Keys or arcs do not add up.
    Sum,
    /// No arc leads to a state, or a key is too long.
    Unreached,
    /// A bit behind the last record is one.
    Filling,
}

impl Reason {
    /// The number by which the refusal is reported.
    pub fn number(&self) -> u8 {
        match self {
            Reason::Cut(_) => 16,
            Reason::Mark => 17,
            Reason::OtherKind => 18,
            Reason::Nothing => 19,
            Reason::Working => 20,
            Reason::LongText => 21,
            Reason::Index => 22,
            Reason::Record => 23,
            Reason::Sum => 24,
            Reason::Unreached => 25,
            Reason::Filling => 26,
        }
    }

    /// A refusal of the field at a bit place.
    pub fn at(self, place: usize) -> Stop {
        Stop::Refused(Report {
            reason: self,
            place,
        })
    }
}

/// A refusal of an image.
#[derive(Clone, Copy, PartialEq, Eq, Debug)]
pub struct Report {
    pub reason: Reason,
    /// The bit place of the field at fault.
    pub place: usize,
}

/// An image that is not taken, or no memory for the reading.
#[derive(Clone, Copy)]
pub enum Stop {
    Refused(Report),
    Memory(AllocError),
}

impl From<AllocError> for Stop {
    fn from(error: AllocError) -> Stop {
        Stop::Memory(error)
    }
}

impl<T: Drop> From<AllocFailed<T>> for Stop {
    fn from(error: AllocFailed<T>) -> Stop {
        Stop::Memory(AllocError::from(error))
    }
}
