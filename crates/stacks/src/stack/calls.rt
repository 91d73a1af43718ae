// The calls on facing stacks: each says what both stacks hold afterwards.
ghost use Rattle.std.specs.Prelude.{◌≡◌, ◌+◌, ◌-◌, ◌<◌, ◌≤◌, [], ◌∷◌, ◌++◌, length, take, drop, slice_index_or, slice_set};
ghost use Rattle.stacks.specs.Stacks.{lows, highs, capacity, Changed};

use super::Stacks;

// Each end has calls of its own, since it counts from its own side: an end as a parameter would leave two bodies behind each name.
impl<'a, T: Copy> Stacks<'a, T> {
    // Both stacks are empty, whatever the cells hold.
    pub fn new(cells: &'a mut [T]) -> Stacks<'a, T>
        ensures lows { lows result ≡ [] }
        ensures highs { highs result ≡ [] }
        ensures capacity { capacity result ≡ length cells.old }
    {
        Stacks {
            cells,
            low: 0,
            high: 0,
        }
    }

    // How many cells neither stack has.
    pub fn free(&self) -> usize
        ensures { result + (length (lows self.now) + length (highs self.now)) ≡ capacity self.now }
    {
        self.cells.len() - self.low - self.high
    }

    // The height of the low stack.
    pub fn lows(&self) -> usize
        ensures { result ≡ length (lows self.now) }
    {
        self.below().len()
    }

    // The height of the high stack.
    pub fn highs(&self) -> usize
        ensures { result ≡ length (highs self.now) }
    {
        self.above().len()
    }

    // The low stack, the oldest first.
    pub fn below(&self) -> &[T]
        ensures { result.now ≡ lows self.now }
    {
        &self.cells[0..self.low]
    }

    // The high stack, the newest first.
    pub fn above(&self) -> &[T]
        ensures { result.now ≡ highs self.now }
    {
        &self.cells[self.cells.len() - self.high..self.cells.len()]
    }

    // The i-th of the low stack, counted from the oldest.
    pub fn at_low(&self, i: usize) -> T
        requires { i < length (lows self.now) }
        ensures { (d : _) → result ≡ slice_index_or (lows self.now) i d }
    {
        self.below()[i]
    }

    // The i-th of the high stack, counted from the newest.
    pub fn at_high(&self, i: usize) -> T
        requires { i < length (highs self.now) }
        ensures { (d : _) → result ≡ slice_index_or (highs self.now) i d }
    {
        self.above()[i]
    }

    // Writes the i-th of the low stack, counted from the oldest.
    pub fn set_low(&mut self, i: usize, x: T)
        requires { i < length (lows self.old) }
        ensures lows { lows self.new ≡ slice_set (lows self.old) i x }
        ensures highs { highs self.new ≡ highs self.old }
        ensures capacity { capacity self.new ≡ capacity self.old }
    {
        self.cells[i] = x;
    }

    // Changes those of the low stack from one place up to another, each by itself.
    pub fn change_low<F: Fn(T) -> T>(&mut self, from: usize, to: usize, change: F)
        requires order { from ≤ to }
        requires fits { to ≤ length (lows self.old) }
        requires callable { F.IsAlwaysCallable change }
        ensures lows { Changed (λ x y. F.post change x y) from to (lows self.old) (lows self.new) }
        ensures highs { highs self.new ≡ highs self.old }
        ensures capacity { capacity self.new ≡ capacity self.old }
    {
        for x in self.cells[from..to].iter_mut() {
            *x = change(*x);
        }
    }

    // Puts a value on the low stack, into a free cell.
    pub fn push_low(&mut self, x: T)
        requires { length (lows self.old) + length (highs self.old) < capacity self.old }
        ensures lows { lows self.new ≡ lows self.old ++ (x ∷ []) }
        ensures highs { highs self.new ≡ highs self.old }
        ensures capacity { capacity self.new ≡ capacity self.old }
    {
        self.cells[self.low] = x;
        self.low += 1;
    }

    // Puts a value on the high stack, into a free cell.
    pub fn push_high(&mut self, x: T)
        requires { length (lows self.old) + length (highs self.old) < capacity self.old }
        ensures lows { lows self.new ≡ lows self.old }
        ensures highs { highs self.new ≡ x ∷ highs self.old }
        ensures capacity { capacity self.new ≡ capacity self.old }
    {
        let n = self.cells.len();
        self.cells[n - self.high - 1] = x;
        self.high += 1;
    }

    // The newest of the low stack, which is let go.
    pub fn pop_low(&mut self) -> T
        requires { 0 < length (lows self.old) }
        ensures lows { lows self.old ≡ lows self.new ++ (result ∷ []) }
        ensures highs { highs self.new ≡ highs self.old }
        ensures capacity { capacity self.new ≡ capacity self.old }
    {
        self.low -= 1;
        self.cells[self.low]
    }

    // Moves the newest of the low stack onto the high stack.
    pub fn settle(&mut self)
        requires { 0 < length (lows self.old) }
        ensures kept { lows self.new ++ highs self.new ≡ lows self.old ++ highs self.old }
        ensures count { length (lows self.new) + 1 ≡ length (lows self.old) }
        ensures capacity { capacity self.new ≡ capacity self.old }
    {
        let x = self.pop_low();
        self.push_high(x);
    }

    // Moves the k newest of the low stack onto the high stack, in their order.
    pub fn settle_all(&mut self, k: usize)
        requires { k ≤ length (lows self.old) }
        ensures lows { lows self.new ≡ take (length (lows self.old) - k) (lows self.old) }
        ensures highs { highs self.new ≡ drop (length (lows self.old) - k) (lows self.old) ++ highs self.old }
        ensures capacity { capacity self.new ≡ capacity self.old }
    {
        for _ in 0..k {
            self.settle();
        }
    }

    // Lets the k newest of the low stack go.
    pub fn forget_low(&mut self, k: usize)
        requires { k ≤ length (lows self.old) }
        ensures lows { lows self.new ≡ take (length (lows self.old) - k) (lows self.old) }
        ensures highs { highs self.new ≡ highs self.old }
        ensures capacity { capacity self.new ≡ capacity self.old }
    {
        self.low -= k;
    }

    // The newest of the high stack, which is let go.
    pub fn pop_high(&mut self) -> T
        requires { 0 < length (highs self.old) }
        ensures lows { lows self.new ≡ lows self.old }
        ensures highs { highs self.old ≡ result ∷ highs self.new }
        ensures capacity { capacity self.new ≡ capacity self.old }
    {
        let n = self.cells.len();
        let x = self.cells[n - self.high];
        self.high -= 1;
        x
    }

    // How many cells were lent.
    pub fn capacity(&self) -> usize
        ensures { result ≡ capacity self.now }
    {
        self.cells.len()
    }

    // Writes the i-th of the high stack, counted from the newest.
    pub fn set_high(&mut self, i: usize, x: T)
        requires { i < length (highs self.old) }
        ensures lows { lows self.new ≡ lows self.old }
        ensures highs { highs self.new ≡ slice_set (highs self.old) i x }
        ensures capacity { capacity self.new ≡ capacity self.old }
    {
        let n = self.cells.len();
        self.cells[n - self.high + i] = x;
    }
}
