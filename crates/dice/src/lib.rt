//! Numbers that look thrown, the same at every run.
#![tactic(auto)]

ghost use Rattle.std.specs.Prelude.{◌≡◌, ◌/◌, ◌%◌, ◌^◌, ◌<◌};
ghost use Rattle.dice.specs.Throws.{next};

/// A shift register of 64 bits. Its throws leave out the lowest bits, so many as `SKIPPED` says.
#[derive(Clone, Copy)]
pub struct Dice<const SKIPPED: u32> {
    state: u64,
}

impl<const SKIPPED: u32> Dice<SKIPPED> {
    /// Of the seed 0 every throw is 0.
    pub fn new(seed: u64) -> Dice<SKIPPED>
        ensures { result.state ≡ seed }
    {
        Dice { state: seed }
    }

    fn step(&mut self) -> u64
        ensures thrown { result ≡ next self.old.state }
        ensures after { self.new.state ≡ result }
    {
        let mut state = self.state;
        state ^= state << 13;
        state ^= state >> 7;
        state ^= state << 17;
        self.state = state;
        state
    }

    /// Throws a number below `sides`, or 0 where there is none.
    pub fn below(&mut self, sides: usize) -> usize
        ensures below { 0 < sides → result < sides }
        ensures thrown { 0 < sides → result ≡ next self.old.state / 2 ^ (SKIPPED % 64) % sides }
        ensures none { sides ≡ 0 → result ≡ 0 }
        ensures after { self.new.state ≡ next self.old.state }
    {
        let thrown = self.step().wrapping_shr(SKIPPED) as usize;
        if sides == 0 {
            return 0;
        }
        thrown % sides
    }
}
