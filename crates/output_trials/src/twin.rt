//! Plain outputs with their counterparts in the crate `outputs`.
ghost use Rattle.std.specs.Prelude.{◌≡◌};

use outputs::number::Number;
use outputs::output::Output;
use outputs::text::Text;
use reference::fault::Fault;
use reference::values::{PlainNumber, PlainText, Value};

/// A plain output with its counterpart in the crate `outputs`. Neither type is of this crate, so it is no conversion of std's.
pub trait Twin: Value {
    type Proved: Output;

    /// The counterpart, unless there is none.
    fn proved(&self) -> Result<Self::Proved, Fault>;

    /// Whether both stand for one output.
    fn means(&self, proved: &Self::Proved) -> bool;
}

impl Twin for PlainNumber {
    type Proved = Number;

    fn proved(&self) -> Result<Number, Fault> {
        Ok(number(self.0))
    }

    fn means(&self, proved: &Number) -> bool {
        self.0 == proved.value
    }
}

impl Twin for PlainText {
    type Proved = Text;

    fn proved(&self) -> Result<Text, Fault> {
        Text::new(self.bytes.as_slice()).map_err(|_| Fault::Unreadable)
    }

    fn means(&self, proved: &Text) -> bool {
        self.bytes.as_slice() == proved.as_bytes()
    }
}

// A parameter of its own, since only so a proof knows that the value has 32 bits.
fn number(value: u32) -> Number
    ensures { result.value ≡ value }
{
    Number { value }
}
