//! What is wrong with a sheet or an image, in plain words.
use adding::refusal::AddRefusal;
use builder::SealRefusal;
use loading::LoadRefusal;
use outputs::refusal::TextRefusal;
use reading::ReadRefusal;
use saving::SaveRefusal;
use std::alloc::AllocError;
use stores::Refusal;
use thiserror::Error;

/// Why the program stops.
#[derive(Clone, Copy, PartialEq, Eq, Debug, Error)]
pub enum Fault {
    #[error("there is no memory left")]
    Memory(#[from(alloc)] AllocError),
    /// A line of the sheet is at fault.
    #[error("line {0}: {1}")]
    Line(usize, Trouble),
    #[error("refusal {number}, {why}", number = .0.number(), why = seal_words(*.0))]
    Seal(#[from] SealRefusal),
    #[error("refusal {number}, {why}", number = .0.number(), why = save_words(*.0))]
    Save(#[from] SaveRefusal),
    #[error("refusal {number}, {why}", number = .0.number(), why = store_words(*.0))]
    Store(#[from] Refusal),
    #[error("refusal {number} at bit {place}, {why}", number = .0.number(), place = .0.place(), why = load_words(*.0))]
    Load(#[from] LoadRefusal),
    #[error("refusal {number}, {why}", number = .0.number(), why = read_words(*.0))]
    Read(#[from] ReadRefusal),
    /// The key on a line is not answered with its output.
    #[error("line {0}: the key has another answer")]
    Answer(usize),
    /// A string that is no key is answered.
    #[error("a string that is no key is answered")]
    Miss,
}

/// What is wrong with a line.
#[derive(Clone, Copy, PartialEq, Eq, Debug, Error)]
pub enum Trouble {
    #[error("there is no TAB")]
    NoTab,
    /// What follows the TAB is no number of 32 bits, written with digits.
    #[error("what follows the TAB is no number from 0 to 4294967295")]
    NoNumber,
    #[error("refusal {number}, {why}", number = .0.number(), why = text_words(*.0))]
    Text(#[from] TextRefusal),
    #[error("refusal {number}, {why}", number = .0.number(), why = add_words(*.0))]
    Pair(#[from] AddRefusal),
}

// The words are this program's, so they stand here: a Display could only stand in the crates of the refusals.
fn text_words(refusal: TextRefusal) -> &'static str {
    match refusal {
        TextRefusal::TooLong => "the text has more than 24 bytes",
    }
}

fn add_words(refusal: AddRefusal) -> &'static str {
    match refusal {
        AddRefusal::LongKey => "the key has more than 64 bytes",
        AddRefusal::OutOfOrder => "the key is not above the one before it",
        AddRefusal::TooManyPairs => "a dictionary has at most 1048575 keys",
        AddRefusal::NoStateRoom => "the dictionary would have more than 65535 states",
        AddRefusal::NoArcRoom => "the dictionary would have more than 131071 arcs",
    }
}

fn seal_words(refusal: SealRefusal) -> &'static str {
    match refusal {
        SealRefusal::NoPair => "there is no pair",
    }
}

fn save_words(refusal: SaveRefusal) -> &'static str {
    match refusal {
        SaveRefusal::NoPairs => "there is no pair",
        SaveRefusal::NoRoom => "the image has no room",
    }
}

fn store_words(refusal: Refusal) -> &'static str {
    match refusal {
        Refusal::BadMemory => "an image has at most 16777216 bytes",
        _ => "the image is damaged",
    }
}

fn load_words(refusal: LoadRefusal) -> &'static str {
    match refusal {
        LoadRefusal::Cut(_) => "the image is cut short",
        LoadRefusal::Mark(_) => "this is no image",
        LoadRefusal::Kind(_) => "the image has another kind of outputs",
        _ => "the image is damaged",
    }
}

fn read_words(refusal: ReadRefusal) -> &'static str {
    match refusal {
        ReadRefusal::Unstorable => "an output on the way is too large",
    }
}
