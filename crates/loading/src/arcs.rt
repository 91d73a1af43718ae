//! The arcs of a record. A working byte holds the length of a state's longest string, 100 at most, and 128 more once an arc leads to it: one byte a state is all that load is lent.
ghost use Rattle.std.specs.Prelude.{◌≡◌, suc, ◌+◌, ◌*◌, ◌%◌, ◌<◌, ◌≤◌, min, [], length, IfOk, slice_index, slice_set};
ghost use Rattle.outputs.specs.Bits.{spread};
ghost use Rattle.images.specs.Loads.{arc as arc_step, arcs as arcs_step};
ghost use Rattle.loading.specs.Answers.{Answers};
ghost use Rattle.loading.specs.Index.{AllThere};
ghost use Rattle.loading.specs.Working.{RowRead};

use crate::refusal::LoadRefusal;
use crate::steps::{keys_at, read_field, read_output};
use outputs::output::Output;
use stores::Store;

/// An arc, without its output.
#[derive(Drop)]
pub struct Arc {
    pub byte: u8,
    pub target: u16,
}

/// The arc of a state at a place, its byte not below `least`, and the place behind it.
fn read_arc<O: Output, S: Store>(
    store: &S,
    place: usize,
    state: u16,
    least: u32,
) -> Result<(Arc, usize), LoadRefusal>
    ensures answers { Answers (λ a x. (a.byte ≡ x.byte) × (a.target ≡ x.target)) (arc_step O.Output.kind (spread (S.Store.bytes store.now)) state least place) result }
    ensures within { IfOk result (λ v. (v.0.target < state) × (v.1 ≤ length (spread (S.Store.bytes store.now)))) }
{
    let (byte, target_place) = read_field(store, place, 8)?;
    if byte < least {
        return Err(LoadRefusal::Shape(place));
    }
    let (target, output_place) = read_field(store, target_place, 16)?;
    let target = target as u16;
    if target >= state {
        return Err(LoadRefusal::Shape(target_place));
    }
    let (_output, behind) = read_output::<O, S>(store, output_place)?;
    let arc = Arc {
        byte: byte as u8,
        target,
    };
    Ok((arc, behind))
}

/// Marks the target of an arc, and gives one more than the length that its byte has, 100 at most.
fn aim(working: &mut [u8], target: u16) -> u8
    requires { target < length working.old }
    ensures longest { result ≡ min 100 (suc (slice_index working.old target % 128)) }
    ensures marked { working.new ≡ slice_set working.old target (slice_index working.old target % 128 + 128) }
{
    let target = usize::from(target);
    let longest = working[target] % 128;
    working[target] = longest + 128;
    (longest + 1).min(100)
}

/// So many arcs of a state, from a place on: the sum of their targets' keys, and the place behind them.
pub fn read_arcs<O: Output, S: Store>(
    store: &S,
    place: usize,
    index: u32,
    state: u16,
    count: u32,
    working: &mut [u8],
) -> Result<(u32, usize), LoadRefusal>
    requires within { (state < length working.old) × (count ≤ 256) }
    requires inside { place ≤ length (spread (S.Store.bytes store.now)) }
    requires there { AllThere O.Output.kind (spread (S.Store.bytes store.now)) index state }
    ensures answers { Answers (RowRead O.Output.kind (spread (S.Store.bytes store.now)) index state count working.old working.new) (arcs_step O.Output.kind (spread (S.Store.bytes store.now)) state count 0 [] place) result }
    ensures within { IfOk result (λ v. (v.0 ≤ 1048575 * count) × (v.1 ≤ length (spread (S.Store.bytes store.now)))) }
{
    // So many codes of unknown length: there is nothing to go over but their number.
    let mut here = place;
    let mut least = 0;
    let mut keys = 0;
    let mut longest = 0u8;
    for _ in 0..count {
        let (arc, behind) = read_arc::<O, S>(store, here, state, least)?;
        least = u32::from(arc.byte) + 1;
        keys += keys_at::<O, S>(store, index, arc.target);
        longest = longest.max(aim(working, arc.target));
        here = behind;
    }
    working[usize::from(state)] = longest;
    Ok((keys, here))
}
