// A number and its bits at a width, there and back.
ghost use Rattle.std.specs.Prelude.{◌≡◌, ℕ, ◌^◌, ◌<◌, Bool, List, length};
ghost use Rattle.outputs.specs.Bits.{bits, value};

// Both round trips between numbers and rows of bits.
pub fn bits_go_there_and_back()
    ensures there { (width n : ℕ) → n < 2 ^ width → value (bits width n) ≡ n }
    ensures back { (row : List Bool) → bits (length row) (value row) ≡ row }
    ensures long { (width n : ℕ) → length (bits width n) ≡ width }
{}
