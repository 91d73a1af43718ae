//! Why a dictionary is not saved.
ghost use Rattle.std.specs.Prelude.{◌≡◌};
ghost use Rattle.saving.specs.Refusals.{number as numbered};

#[derive(Clone, Copy, PartialEq, Eq, Debug)]
pub enum SaveRefusal {
    /// The dictionary has no pair.
    NoPairs,
    /// The store has less room than the image needs.
    NoRoom,
}

impl SaveRefusal {
    /// The number by which the refusal is reported; the numbers are the format's, and this call is promised by its name.
    pub fn number(&self) -> u8
        ensures { result ≡ numbered self.now }
    {
        match self {
            SaveRefusal::NoPairs => 10,
            SaveRefusal::NoRoom => 15,
        }
    }
}
