// What stops the bench.
use std::alloc::AllocError;
use std::num::ParseIntError;
use thiserror::Error;

#[derive(Clone, Copy, PartialEq, Eq, Debug, Error)]
pub enum Fault {
    #[error("there is no memory left")]
    Memory(#[from(alloc)] AllocError),
    #[error("a word of the sheet is no key with an output")]
    Unreadable,
    #[error("the sheet has no pair")]
    Empty,
    #[error("a key has more than 64 bytes")]
    LongKey,
    #[error("a key is not above the one before it")]
    OutOfOrder,
    #[error("a number does not fit its field of the image")]
    Wide,
}

// A word that should be a number.
impl From<ParseIntError> for Fault {
    fn from(_error: ParseIntError) -> Fault {
        Fault::Unreadable
    }
}
