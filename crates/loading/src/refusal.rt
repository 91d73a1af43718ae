//! Why an image is not taken.
ghost use Rattle.std.specs.Prelude.{◌≡◌};
ghost use Rattle.loading.specs.Refusals.{reported};
ghost use Rattle.loading.specs.declared.refusal.LoadRefusal.TheVariants.{Cut as cut_by};

use fields::Cut;

/// Why load refuses, with the bit place of the field at fault.
#[derive(Clone, Copy, PartialEq, Eq, Debug)]
pub enum LoadRefusal {
    /// A field runs past the store's end; the store's own refusal goes along.
    Cut(Cut),
    /// Another mark.
    Mark(usize),
    /// Another kind's number.
    Kind(usize),
    /// No states, or no keys.
    Empty(usize),
    /// Fewer working bytes than states.
    Working(usize),
    /// Bits that hold no code of an output and begin none.
    NoCode(usize),
    /// An index entry that is not its record's place.
    Index(usize),
    /// An arc count, an arc's byte or an arc's target that no record has.
    Shape(usize),
    /// A count of keys or arcs that is not what the records sum up to.
    Count(usize),
    /// A state that no arc leads to, or a last state that accepts a string over 64 bytes.
    Target(usize),
    /// A filling bit that is one.
    Filling(usize),
}

impl LoadRefusal {
    /// The number by which the refusal is reported; the numbers are the format's, and this call is promised by its name.
    pub fn number(&self) -> u8
        ensures { result ≡ (reported self.now).number }
    {
        match self {
            LoadRefusal::Cut(_) => 16,
            LoadRefusal::Mark(_) => 17,
            LoadRefusal::Kind(_) => 18,
            LoadRefusal::Empty(_) => 19,
            LoadRefusal::Working(_) => 20,
            LoadRefusal::NoCode(_) => 21,
            LoadRefusal::Index(_) => 22,
            LoadRefusal::Shape(_) => 23,
            LoadRefusal::Count(_) => 24,
            LoadRefusal::Target(_) => 25,
            LoadRefusal::Filling(_) => 26,
        }
    }

    /// The bit place of the field at fault.
    pub fn place(&self) -> usize
        ensures { result ≡ (reported self.now).place }
    {
        match self {
            LoadRefusal::Cut(cut) => cut.place,
            LoadRefusal::Mark(at)
            | LoadRefusal::Kind(at)
            | LoadRefusal::Empty(at)
            | LoadRefusal::Working(at)
            | LoadRefusal::NoCode(at)
            | LoadRefusal::Index(at)
            | LoadRefusal::Shape(at)
            | LoadRefusal::Count(at)
            | LoadRefusal::Target(at)
            | LoadRefusal::Filling(at) => *at,
        }
    }
}

impl From<Cut> for LoadRefusal {
    ghost from_gives = { λ x y. y ≡ cut_by x };

    fn from(value: Cut) -> LoadRefusal {
        LoadRefusal::Cut(value)
    }
}
