// How many figures agree with what is expected.
ghost use Rattle.std.specs.Prelude.{◌≡◌, true, false};

use std::alloc::{AllocError, Global};
use std::fmt::Display;

#[derive(Clone, Copy)]
pub struct Tally {
    pub agree: usize,
    pub differ: usize,
}

// How a comparison came out.
pub fn verdict(agrees: bool) -> &'static str {
    if agrees { "agrees" } else { "DIFFERS" }
}

impl Tally {
    pub fn new() -> Tally
        ensures { (result.agree ≡ 0) × (result.differ ≡ 0) }
    {
        Tally {
            agree: 0,
            differ: 0,
        }
    }

    // Counts a comparison, and names how it came out.
    pub fn judge(&mut self, agrees: bool) -> &'static str
        ensures agreed { agrees ≡ true → self.new.differ ≡ self.old.differ }
        ensures differed { agrees ≡ false → self.new.agree ≡ self.old.agree }
    {
        if agrees {
            self.agree = self.agree.saturating_add(1);
        } else {
            self.differ = self.differ.saturating_add(1);
        }
        verdict(agrees)
    }

    // A figure with what is expected, and whether they agree.
    pub fn figure<T: Display + PartialEq + Drop>(
        &mut self,
        heap: Global,
        found: T,
        expected: T,
    ) -> Result<String, AllocError> {
        let verdict = self.judge(found == expected);
        format!(in heap; "{found} ({expected} expected, {verdict})")
    }
}
