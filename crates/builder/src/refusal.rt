//! Why a memory is refused, and why a builder is not sealed.
ghost use Rattle.std.specs.Prelude.{◌≡◌};
ghost use Rattle.builder.specs.Refusals.{memory_number, seal_number};

/// The first reason that applies, in this order.
#[derive(Clone, Copy, PartialEq, Eq, Debug)]
pub enum MemoryRefusal {
    /// There is no room for a state, or for more than 65535.
    StateMemory,
    /// There is no room for an arc, or for more than 131071.
    ArcMemory,
    /// There are fewer slots than states.
    SlotMemory,
}

impl MemoryRefusal {
    /// The number by which a caller knows it; the numbers are the format's, and this call is promised by its name.
    pub fn number(self) -> u8
        ensures { result ≡ memory_number self }
    {
        match self {
            MemoryRefusal::StateMemory => 2,
            MemoryRefusal::ArcMemory => 3,
            MemoryRefusal::SlotMemory => 4,
        }
    }
}

/// Why a builder is not sealed.
#[derive(Clone, Copy, PartialEq, Eq, Debug)]
pub enum SealRefusal {
    /// No pair was taken.
    NoPair,
}

impl SealRefusal {
    /// The number by which a caller knows it; the numbers are the format's, and this call is promised by its name.
    pub fn number(self) -> u8
        ensures { result ≡ seal_number self }
    {
        match self {
            SealRefusal::NoPair => 10,
        }
    }
}
