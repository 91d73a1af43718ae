//! What is tested behind the last record.
ghost use Rattle.std.specs.Prelude.{◌≡◌, ℕ, ◌+◌, ◌<◌, ◌≤◌, length, slice_index, IfOk, MatchOption};
ghost use Rattle.outputs.specs.Bits.{spread};
ghost use Rattle.loading.specs.Answers.{Passes};
ghost use Rattle.loading.specs.Ends.{all_marked, filled, ending as ending_step};
ghost use Rattle.loading.specs.Heads.{head_of};
ghost use Rattle.loading.specs.Index.{AllThere};

use crate::head::Head;
use crate::refusal::LoadRefusal;
use crate::steps::{keys_at, read_field, record_place};
use outputs::output::Output;
use stores::Store;

/// The first working byte that is not marked.
fn first_unmarked(working: &[u8]) -> Option<usize>
    ensures { MatchOption result ((q : ℕ) → q < length working.now → 128 ≤ slice_index working.now q) (λ i. (i < length working.now) × (slice_index working.now i < 128) × ((q : ℕ) → q < i → 128 ≤ slice_index working.now q)) }
{
    working.iter().position(|byte| *byte < 128)
}

/// Passes on if each of so many states is marked as some arc's target.
fn pass_targets<O: Output, S: Store>(
    store: &S,
    place: usize,
    index: u32,
    states: u16,
    working: &[u8],
) -> Result<usize, LoadRefusal>
    requires within { states ≤ length working.now }
    requires there { AllThere O.Output.kind (spread (S.Store.bytes store.now)) index states }
    ensures passes { Passes (all_marked O.Output.kind (spread (S.Store.bytes store.now)) index working.now 0 states place) result }
    ensures same { IfOk result (λ p. p ≡ place) }
{
    match first_unmarked(&working[..usize::from(states)]) {
        Some(state) => Err(LoadRefusal::Target(record_place::<O, S>(store, index, state as u16))),
        None => Ok(place),
    }
}

/// Passes the zero bits that fill the last byte.
#[tactic(auto, using(crate::proofs::MarkPass::filled_none))]
fn pass_filling<S: Store>(store: &S, used: usize) -> Result<usize, LoadRefusal>
    requires { used ≤ length (spread (S.Store.bytes store.now)) }
    ensures { Passes (filled (spread (S.Store.bytes store.now)) used) result }
{
    let spare = (8 - used % 8) % 8;
    if spare == 0 {
        return Ok(used);
    }
    let (rest, behind) = read_field(store, used, spare)?;
    if rest != 0 {
        return Err(LoadRefusal::Filling(used));
    }
    Ok(behind)
}

/// Passes what is behind the last record of so many arcs, and gives the place behind the image.
pub fn pass_ending<O: Output, S: Store>(
    store: &S,
    place: usize,
    head: &Head<O>,
    arcs: u32,
    working: &[u8],
) -> Result<usize, LoadRefusal>
    requires inside { place ≤ length (spread (S.Store.bytes store.now)) }
    requires within { (0 < head.now.states) × (head.now.states ≤ length working.now) }
    requires there { AllThere O.Output.kind (spread (S.Store.bytes store.now)) head.now.index head.now.states }
    ensures { Passes (ending_step O.Output.kind (spread (S.Store.bytes store.now)) (head_of O.Output.meaning head.now) arcs working.now place) result }
{
    let last = head.states - 1;
    if head.keys != keys_at::<O, S>(store, head.index, last) {
        return Err(LoadRefusal::Count(head.keys_place));
    }
    if head.arcs != arcs {
        return Err(LoadRefusal::Count(head.arcs_place));
    }
    let used = pass_targets::<O, S>(store, place, head.index, last, working)?;
    if working[usize::from(last)] % 128 > 64 {
        return Err(LoadRefusal::Target(record_place::<O, S>(store, head.index, last)));
    }
    pass_filling(store, used)
}
