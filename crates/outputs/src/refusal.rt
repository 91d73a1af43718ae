// Why bytes make no text.
ghost use Rattle.std.specs.Prelude.{◌≡◌};
ghost use Rattle.outputs.specs.Refusals.{number as refusal_number};

#[derive(Clone, Copy, PartialEq, Eq, Debug)]
pub enum TextRefusal {
    // More than 24 bytes.
    TooLong,
}

impl TextRefusal {
    // The number by which the refusal is reported; a method by this name is promised.
    pub fn number(&self) -> u8
        ensures { result ≡ refusal_number self.now }
    {
        match self {
            TextRefusal::TooLong => 1,
        }
    }
}
