// The register of closed states: which one is equal to a given record, if any is. It is a table with open addressing over
// lent slots: a slot holds the number of a state plus one, and 0 where it is free (16 bits are lent for each, and an Option
// would take 32). A state is looked for from the slot that its record leads to, its home, up to the end and on from slot 0.
#![tactic(auto)]

ghost use Rattle.std.specs.Prelude.{◌≡◌, ℕ, ◌+◌, ◌<◌, ◌≤◌, true, false, length, slice_index, slice_set};
ghost use Rattle.register.specs.Slots.{Entered, Hole, used};
ghost use Rattle.register.specs.Answers.{Among, Scanned, Told};

// What is looked for, and the states that it is compared with.
// A trait and no closure: `count`, `sound` and `equals` are what the register's clauses speak of, and a closure has no such members.
pub trait Wanted {
    // How many states there are.
    ghost count: { Self → ℕ };

    // When comparing is safe.
    ghost sound: { Self → Type 0 };

    // When state q is equal to what is looked for.
    ghost equals: { Self → ℕ → Type 0 };

    fn same(&self, q: u16) -> bool
        requires sound { sound self.now }
        requires below { q < count self.now }
        ensures equal { result ≡ true → equals self.now q }
        ensures different { result ≡ false → equals self.now q → ⊥ };
}

// Probes the slots from one place up to another: an equal state, or else the first free slot before which none is equal;
// nothing where no state is equal and no slot is free.
pub fn scan<C: Wanted>(
    want: &C,
    slots: &[u16],
    from: usize,
    to: usize,
) -> Option<Result<u16, usize>>
    requires sound { C.Wanted.sound want.now }
    requires known { (i : ℕ) → slice_index slots.now i ≤ C.Wanted.count want.now }
    requires fits { to ≤ length slots.now }
    ensures { Scanned (Among (C.Wanted.count want.now) (C.Wanted.equals want.now)) slots.now from to result }
{
    // By number, which is the answer: `slots.iter().enumerate().take(to).skip(from)` says no more.
    for i in from..to {
        let entry = slots[i];
        if entry == 0 {
            return Some(Err(i));
        }
        if want.same(entry - 1) {
            return Some(Ok(entry - 1));
        }
    }
    None
}

// An equal state; or, as the error, the free slot for one where none that is entered from this home is equal. One slot at least is free.
pub fn look_up<C: Wanted>(want: &C, slots: &[u16], home: usize) -> Result<u16, usize>
    requires sound { C.Wanted.sound want.now }
    requires known { (i : ℕ) → slice_index slots.now i ≤ C.Wanted.count want.now }
    requires fits { home < length slots.now }
    requires few { used slots.now < length slots.now }
    ensures { Told (C.Wanted.count want.now) (C.Wanted.equals want.now) slots.now home result }
{
    if let Some(probed) = scan(want, slots, home, slots.len()) {
        return probed;
    }
    match scan(want, slots, 0, home) {
        Some(probed) => probed,
        None => unreachable!(),
    }
}

// Enters state q in a free slot.
pub fn enter(slots: &mut [u16], slot: usize, q: u16)
    requires within { slot < length slots.old }
    requires free { slice_index slots.old slot ≡ 0 }
    requires fits { q < 65535 }
    ensures written { slots.new ≡ slice_set slots.old slot (q + 1) }
    ensures entered { (home : ℕ) → Hole slots.old home slot → Entered home slots.new q }
    ensures kept { (home p : ℕ) → Entered home slots.old p → Entered home slots.new p }
{
    slots[slot] = q + 1;
}
