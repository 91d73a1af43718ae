//! Why a reading call gives no answer.
ghost use Rattle.std.specs.Prelude.{◌≡◌};
ghost use Rattle.reading.specs.Refusals.{number as numbered};

/// Why a reading call gives no answer.
#[derive(Clone, Copy, PartialEq, Eq, Debug)]
pub enum ReadRefusal {
    /// A join on the way is not storable.
    Unstorable,
}

impl ReadRefusal {
    /// The number by which the refusal is reported; the numbers are the format's, and this call is promised by its name.
    pub fn number(&self) -> u8
        ensures { result ≡ numbered self.now }
    {
        match self {
            ReadRefusal::Unstorable => 27,
        }
    }
}
