// Where outputs are read from: bits at places.
ghost use Rattle.std.specs.Prelude.{◌≡◌, ℕ, ◌≤◌, Bool, List, length};
ghost use Rattle.outputs.specs.Fields.{Field, field_width};
ghost use Rattle.outputs.specs.declared.source.Unread.TheVariants.{Cut as cut_by};

// Bits that can be read at any place: a field of up to 32 bits, or what the source says of one that runs past its end.
pub trait BitSource {
    type Short: Copy;

    // Every bit, the first at place 0.
    ghost all: { Self → List Bool };

    // What is said of a field at a place that runs past the end.
    ghost lacks: { Self → ℕ → Self.Short };

    // It is the same for every field that begins within the bits.
    ghost steady: { (s : Self) (p q : ℕ) → p ≤ length (all s) → q ≤ length (all s) → lacks s p ≡ lacks s q };

    // The number in `width` bits at a place; a width of 0 counts as 1, and one over 32 as 32.
    fn field(&self, place: usize, width: usize) -> Result<u32, Self::Short>
        ensures { Field (all self.now) place (field_width width) (lacks self.now place) result };
}

// Why bits give no output: a code that the source's end cuts, or no code.
#[derive(Clone, Copy, PartialEq, Eq, Debug)]
pub enum Unread<E> {
    Cut(E),
    NoCode,
}

impl<E> From<E> for Unread<E> {
    ghost from_gives = { λ x y. y ≡ cut_by x };

    fn from(value: E) -> Unread<E> {
        Unread::Cut(value)
    }
}
