// An arc and a state as they lie in memory.
ghost use Rattle.std.specs.Prelude.{◌≡◌, ◌-◌, ◌≤◌, length, take, drop};

// An arc of a closed or an open state.
#[derive(Clone, Copy)]
pub struct Arc<O> {
    // The byte that the arc is on.
    pub byte: u8,
    // The number of the state that it leads to; 0 as long as that one is open.
    pub target: u16,
    // What is put out along it.
    pub output: O,
}

// A closed state or an open record.
#[derive(Clone, Copy)]
pub struct State<O> {
    // What is put out where a key ends here, if one does.
    pub end: Option<O>,
    // How many arcs it has.
    pub count: u32,
    // Of an open record the place of its first arc; of a closed state that place counted from the end of the arc list.
    pub first: u32,
    // Of an open record the number of pairs taken before it was opened; of a closed state the number of keys accepted from it.
    pub keys: u32,
}

impl<O> State<O> {
    // The arcs of a closed state, among those of all.
    pub fn closed_arcs<'b>(&self, arcs: &'b [Arc<O>]) -> &'b [Arc<O>]
        requires first { self.now.first ≤ length arcs.now }
        requires count { self.now.count ≤ self.now.first }
        ensures { result.now ≡ take self.now.count (drop (length arcs.now - self.now.first) arcs.now) }
    {
        let from = arcs.len() - self.first as usize;
        &arcs[from..from + self.count as usize]
    }
}
