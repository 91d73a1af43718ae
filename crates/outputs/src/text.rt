// Byte strings of up to 24 bytes.
ghost use Rattle.std.specs.Prelude.{◌≡◌, ◌+◌, ◌-◌, ◌≤◌, true, ◌++◌, length, take, drop, replicate};
ghost use Rattle.outputs.specs.Texts.{all_bytes, shared};
ghost use Rattle.outputs.specs.Refusals.{Made};

use crate::refusal::TextRefusal;

mod calls;
mod reading;

// The most bytes of a text.
const LONGEST: usize = 24;

// A text: the first `len` of its bytes. Those behind them are zero, so that equal texts are equal fields.
// An array with a length, since outputs lie in fixed memory: there is no heap for a `Vec`.
#[derive(Clone, Copy, PartialEq, Eq, Debug)]
pub struct Text {
    bytes: [u8; 24],
    len: usize,
    ghost fits: { len ≤ 24 },
    ghost whole: { all_bytes bytes ≡ true },
    ghost row: { length bytes ≡ 24 },
    ghost spare: { drop len bytes ≡ replicate (24 - len) 0 },
}

impl Text {
    // The text of no bytes.
    const EMPTY: Text = Text {
        bytes: [0; 24],
        len: 0,
    };

    pub fn new(bytes: &[u8]) -> Result<Text, TextRefusal>
        ensures { Made (λ t. take t.len t.bytes) bytes.now result }
    {
        if bytes.len() > LONGEST {
            return Err(TextRefusal::TooLong);
        }
        Ok(Text::EMPTY.followed_by(bytes))
    }

    pub fn as_bytes(&self) -> &[u8]
        ensures { result.now ≡ take self.now.len self.now.bytes }
    {
        &self.bytes[0..self.len]
    }

    // The text with more bytes behind its own.
    fn followed_by(&self, more: &[u8]) -> Text
        requires { self.now.len + length more.now ≤ 24 }
        ensures { take result.len result.bytes ≡ take self.now.len self.now.bytes ++ more.now }
    {
        let len = self.len + more.len();
        let mut bytes = self.bytes;
        bytes[self.len..len].copy_from_slice(more);
        Text { bytes, len }
    }
}

// How many bytes two strings begin with alike.
fn agreeing(a: &[u8], b: &[u8]) -> usize
    ensures shared { take result a.now ≡ shared a.now b.now }
    ensures within_a { result ≤ length a.now }
    ensures within_b { result ≤ length b.now }
{
    a.iter().zip(b).take_while(|(x, y)| x == y).count()
}
