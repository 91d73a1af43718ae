//! The head of an image, and its index passed.
ghost use Rattle.std.specs.Prelude.{◌≡◌, ◌+◌, ◌*◌, ◌^◌, ◌<◌, ◌≤◌, length, IfOk};
ghost use Rattle.outputs.specs.Bits.{spread};
ghost use Rattle.images.specs.Loads.{head as head_step, entries};
ghost use Rattle.loading.specs.Answers.{Answers, Passes};
ghost use Rattle.loading.specs.Heads.{head_of};

use crate::refusal::LoadRefusal;
use crate::steps::{read_field, read_output};
use fields::MARK;
use outputs::output::Output;
use stores::Store;

/// What the head of an image says, and where: field for field as its definition has it.
#[derive(Clone, Copy)]
pub struct Head<O: Copy> {
    pub states: u16,
    pub arcs_place: usize,
    pub arcs: u32,
    pub keys_place: usize,
    pub keys: u32,
    pub start_output: O,
    /// Where the index begins.
    pub index: u32,
}

/// The head at a place, for so many working bytes, and the place behind it.
pub fn read_head<O: Output, S: Store>(
    store: &S,
    place: usize,
    working: usize,
) -> Result<(Head<O>, usize), LoadRefusal>
    ensures answers { Answers (λ h x. head_of O.Output.meaning h ≡ x) (head_step O.Output.kind (spread (S.Store.bytes store.now)) working place) result }
    ensures within { IfOk result (λ v. (0 < v.0.states) × (v.0.states ≤ working) × (v.0.index ≡ v.1) × (v.1 ≤ length (spread (S.Store.bytes store.now))) × (v.1 < 2 ^ 32)) }
{
    let (mark, kind_place) = read_field(store, place, 16)?;
    if mark != u32::from(u16::from_be_bytes(MARK)) {
        return Err(LoadRefusal::Mark(place));
    }
    let (kind, states_place) = read_field(store, kind_place, 8)?;
    if kind != u32::from(O::kind_number()) {
        return Err(LoadRefusal::Kind(kind_place));
    }
    let (states, arcs_place) = read_field(store, states_place, 16)?;
    let (arcs, keys_place) = read_field(store, arcs_place, 17)?;
    let (keys, output_place) = read_field(store, keys_place, 20)?;
    if states == 0 {
        return Err(LoadRefusal::Empty(states_place));
    }
    if keys == 0 {
        return Err(LoadRefusal::Empty(keys_place));
    }
    let states = states as u16;
    if working < usize::from(states) {
        return Err(LoadRefusal::Working(states_place));
    }
    let (start_output, index) = read_output::<O, S>(store, output_place)?;
    let head = Head {
        states,
        arcs_place,
        arcs,
        keys_place,
        keys,
        start_output,
        index: index as u32,
    };
    Ok((head, index))
}

/// Passes the index of so many states, entry by entry, and gives the place behind it.
pub fn pass_entries<O: Output, S: Store>(
    store: &S,
    index: usize,
    states: u16,
) -> Result<usize, LoadRefusal>
    requires { index ≤ length (spread (S.Store.bytes store.now)) }
    ensures passes { Passes (entries O.Output.kind (spread (S.Store.bytes store.now)) states index) result }
    ensures within { IfOk result (λ p. (p ≡ index + 32 * states) × (p ≤ length (spread (S.Store.bytes store.now)))) }
{
    // Each entry is a field of its own, of which the first that is cut is told.
    let mut place = index;
    for _ in 0..states {
        let (_, behind) = read_field(store, place, 32)?;
        place = behind;
    }
    Ok(place)
}
