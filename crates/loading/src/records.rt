//! The records of an image, one for each state.
ghost use Rattle.std.specs.Prelude.{◌≡◌, ◌+◌, ◌<◌, ◌≤◌, [], length, IfOk};
ghost use Rattle.std.specs.Int.{from_bool};
ghost use Rattle.outputs.specs.Bits.{spread};
ghost use Rattle.images.specs.Loads.{entry_place, misshapen, end_output as end_step, record_at, records as records_step};
ghost use Rattle.loading.specs.Answers.{Answers, Passes};
ghost use Rattle.loading.specs.Index.{There, AllThere};
ghost use Rattle.loading.specs.Working.{RecordRead, RecordsRead};

use crate::arcs::read_arcs;
use crate::refusal::LoadRefusal;
use crate::steps::{entry_place, read_field, read_output, record_place};
use outputs::output::Output;
use stores::Store;

/// Passes the end output at a place, if the state has one, and gives the place behind it.
#[tactic(auto, unfolding(images::specs::Loads::end_output))]
fn pass_end<O: Output, S: Store>(store: &S, place: usize, ends: bool) -> Result<usize, LoadRefusal>
    requires { place ≤ length (spread (S.Store.bytes store.now)) }
    ensures passes { Passes (end_step O.Output.kind (spread (S.Store.bytes store.now)) (from_bool ends) place) result }
    ensures within { IfOk result (λ p. p ≤ length (spread (S.Store.bytes store.now))) }
{
    if !ends {
        return Ok(place);
    }
    let (_output, behind) = read_output::<O, S>(store, place)?;
    Ok(behind)
}

/// Whether no record has such an arc count.
fn is_misshapen(count: u32, ends: bool) -> bool
    ensures { result ≡ misshapen count (from_bool ends) }
{
    count > 256 || (count == 0 && !ends)
}

/// The record of a state at a place: how many arcs it has, and the place behind it.
fn read_record<O: Output, S: Store>(
    store: &S,
    place: usize,
    index: u32,
    state: u16,
    working: &mut [u8],
) -> Result<(u32, usize), LoadRefusal>
    requires within { (state < length working.old) × (entry_place O.Output.kind (spread (S.Store.bytes store.now)) index state + 32 ≤ length (spread (S.Store.bytes store.now))) }
    requires there { AllThere O.Output.kind (spread (S.Store.bytes store.now)) index state }
    ensures answers { Answers (RecordRead state working.old working.new) (record_at O.Output.kind (spread (S.Store.bytes store.now)) index state place) result }
    ensures within { IfOk result (λ v. (v.0 ≤ 256) × (v.1 ≤ length (spread (S.Store.bytes store.now))) × There O.Output.kind (spread (S.Store.bytes store.now)) index state) }
{
    if record_place::<O, S>(store, index, state) != place {
        return Err(LoadRefusal::Index(entry_place(index, state)));
    }
    let (flag, count_place) = read_field(store, place, 1)?;
    let ends = flag == 1;
    let (count, keys_place) = read_field(store, count_place, 9)?;
    if is_misshapen(count, ends) {
        return Err(LoadRefusal::Shape(count_place));
    }
    let (keys, end_place) = read_field(store, keys_place, 20)?;
    let arcs_place = pass_end::<O, S>(store, end_place, ends)?;
    let (sum, behind) = read_arcs::<O, S>(store, arcs_place, index, state, count, working)?;
    if keys != u32::from(ends) + sum {
        return Err(LoadRefusal::Count(keys_place));
    }
    Ok((count, behind))
}

/// The records of so many states, from a place on: how many arcs they have, and the place behind them.
pub fn read_records<O: Output, S: Store>(
    store: &S,
    place: usize,
    index: u32,
    states: u16,
    working: &mut [u8],
) -> Result<(u32, usize), LoadRefusal>
    requires inside { place ≤ length (spread (S.Store.bytes store.now)) }
    requires within { (states ≤ length working.old) × (entry_place O.Output.kind (spread (S.Store.bytes store.now)) index states ≤ length (spread (S.Store.bytes store.now))) }
    ensures answers { Answers (RecordsRead states working.new) (records_step O.Output.kind (spread (S.Store.bytes store.now)) index 0 states [] place) result }
    ensures within { IfOk result (λ v. (v.1 ≤ length (spread (S.Store.bytes store.now))) × AllThere O.Output.kind (spread (S.Store.bytes store.now)) index states) }
{
    let mut here = place;
    let mut arcs = 0;
    for state in 0..states {
        let (count, behind) = read_record::<O, S>(store, here, index, state, working)?;
        arcs += count;
        here = behind;
    }
    Ok((arcs, here))
}
