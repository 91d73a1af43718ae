//! Whether a key can be added: nothing is touched.
ghost use Rattle.std.specs.Prelude.{◌≡◌, ◌+◌, ◌-◌, ◌<◌, length as count, slice_index};
ghost use Rattle.stacks.specs.Stacks.{capacity};
ghost use Rattle.machines.specs.Keys.{common_length};
ghost use Rattle.construction.specs.Records.{newest_key};
ghost use Rattle.records.specs.Holding.{held};
ghost use Rattle.adding.specs.Admission.{above, Admits};

use crate::refusal::AddRefusal;
use outputs::output::Output;
use pushing::reading::last_arc;
use records::memory::Core;

/// The length of the newest key.
fn length<'a, O: Output>(core: &Core<'a, O>) -> usize
    ensures { result ≡ count (newest_key (held O.Output.meaning core.now).open') }
{
    core.states.highs().saturating_sub(1)
}

/// The byte of the newest key at a place.
fn byte<'a, O: Output>(core: &Core<'a, O>, place: usize) -> u8
    requires { place < count (newest_key (held O.Output.meaning core.now).open') }
    ensures { result ≡ slice_index (newest_key (held O.Output.meaning core.now).open') place }
{
    last_arc(core, place).byte
}

/// The length of the longest common prefix of a key and the newest key.
pub fn common_prefix<'a, O: Output>(core: &Core<'a, O>, key: &[u8]) -> usize
    ensures { result ≡ common_length key.now (newest_key (held O.Output.meaning core.now).open') }
{
    let most = key.len().min(length(core));
    (0..most)
        .find(|&place| key[place] != byte(core, place))
        .unwrap_or(most)
}

/// Whether a key that leaves the newest key at a depth is above it; every key is above none.
pub fn is_above<'a, O: Output>(core: &Core<'a, O>, key: &[u8], depth: usize) -> bool
    requires { depth ≡ common_length key.now (newest_key (held O.Output.meaning core.now).open') }
    ensures { result ≡ above (held O.Output.meaning core.now).open' key.now }
{
    if core.states.highs() == 0 {
        return true;
    }
    if depth == key.len() {
        return false;
    }
    if depth == length(core) {
        return true;
    }
    byte(core, depth) < key[depth]
}

/// The length of the common prefix of a key that is to be added and the newest key, or why it is refused.
pub fn admit<'a, O: Output>(core: &Core<'a, O>, key: &[u8]) -> Result<usize, AddRefusal>
    ensures { Admits (capacity core.now.states) (capacity core.now.arcs) (held O.Output.meaning core.now) key.now result }
{
    if key.len() > 64 {
        return Err(AddRefusal::LongKey);
    }
    let depth = common_prefix(core, key);
    if !is_above(core, key, depth) {
        return Err(AddRefusal::OutOfOrder);
    }
    if core.pairs >= 1048575 {
        return Err(AddRefusal::TooManyPairs);
    }
    let growth = key.len() - depth;
    let states = core.states.lows() + core.states.highs().max(1);
    if states + growth > core.states.capacity() {
        return Err(AddRefusal::NoStateRoom);
    }
    let arcs = core.arcs.lows() + core.arcs.highs();
    if arcs + growth > core.arcs.capacity() {
        return Err(AddRefusal::NoArcRoom);
    }
    Ok(depth)
}
