// Two stacks that face each other in one lent slice.
ghost use Rattle.std.specs.Prelude.{◌+◌, ◌≤◌, length};

pub mod calls;

// They lie in lent memory, so the slice and two heights are all there is: no heap. The low stack grows from the first cell up, the high stack from the last cell down. The cells between them are free.
#[derive(Drop)]
pub struct Stacks<'a, T> {
    // The lent memory of both stacks.
    cells: &'a mut [T],
    // How many cells the low stack has.
    low: usize,
    // How many cells the high stack has.
    high: usize,
    // The two stacks do not overlap.
    pub ghost room: { low + high ≤ length cells.now },
}
