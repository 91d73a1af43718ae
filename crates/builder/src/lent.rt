//! The memory that is lent to a builder.
ghost use Rattle.std.specs.Prelude.{◌≡◌, ℕ, slice_index};
ghost use Rattle.machines.specs.Memory.{usable as allowed};
ghost use Rattle.builder.specs.Refusals.{Checks};

use crate::refusal::MemoryRefusal;

/// Why a memory of so many states, arcs and slots is refused.
pub fn check(states: usize, arcs: usize, slots: usize) -> Result<(), MemoryRefusal>
    ensures { Checks states arcs slots result }
{
    if states == 0 || states > 65535 {
        return Err(MemoryRefusal::StateMemory);
    }
    if arcs == 0 || arcs > 131071 {
        return Err(MemoryRefusal::ArcMemory);
    }
    if slots < states {
        return Err(MemoryRefusal::SlotMemory);
    }
    Ok(())
}

/// How many of the states lent are used: all, or none where the memory is refused.
pub fn usable(states: usize, arcs: usize, slots: usize) -> usize
    ensures { result ≡ allowed states arcs slots }
{
    // A match: with `map_or` the goal stayed open.
    match check(states, arcs, slots) {
        Ok(()) => states,
        Err(_) => 0,
    }
}

/// Frees all slots.
pub fn clear(slots: &mut [u16])
    ensures { (i : ℕ) → slice_index slots.new i ≡ 0 }
{
    slots.fill(0);
}
