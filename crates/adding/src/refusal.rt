//! Why a key is refused.
ghost use Rattle.std.specs.Prelude.{◌≡◌};
ghost use Rattle.adding.specs.Refusals.{refusal_number};

/// The first reason that applies, in this order.
#[derive(Clone, Copy, PartialEq, Eq, Debug)]
pub enum AddRefusal {
    /// The key has more than 64 bytes.
    LongKey,
    /// The key is not above the newest one.
    OutOfOrder,
    /// As many pairs were taken as a dictionary may have.
    TooManyPairs,
    /// The state memory is too small.
    NoStateRoom,
    /// The arc memory is too small.
    NoArcRoom,
}

impl AddRefusal {
    /// The number by which a caller knows it; the numbers are the format's, and this call is promised by its name.
    pub fn number(self) -> u8
        ensures { result ≡ refusal_number self }
    {
        match self {
            AddRefusal::LongKey => 5,
            AddRefusal::OutOfOrder => 6,
            AddRefusal::TooManyPairs => 7,
            AddRefusal::NoStateRoom => 8,
            AddRefusal::NoArcRoom => 9,
        }
    }
}
