//! Why no key is looked for.
ghost use Rattle.std.specs.Prelude.{◌≡◌};
ghost use Rattle.searching.specs.Refusals.{number as numbered};

/// Why who refuses.
#[derive(Clone, Copy, PartialEq, Eq, Debug)]
pub enum WhoRefusal {
    /// A buffer that cannot hold every key: it has under 64 bytes.
    ShortBuffer,
}

impl WhoRefusal {
    /// The number by which the refusal is reported; the numbers are the format's, and this call is promised by its name.
    pub fn number(&self) -> u8
        ensures { result ≡ numbered self.now }
    {
        match self {
            WhoRefusal::ShortBuffer => 28,
        }
    }
}
