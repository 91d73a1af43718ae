//! The smallest steps of load: a field, an output, and what stands where the index says.
//!
//! A store and the place of its index are passed side by side: each clause names both, and through a struct of them it would only be longer.
//! A place is passed and the one behind it given, so that a refusal leaves no state behind that a clause would have to tell.
ghost use Rattle.std.specs.Prelude.{◌≡◌, ◌+◌, ◌*◌, ◌^◌, ◌<◌, ◌≤◌, length, IfOk};
ghost use Rattle.outputs.specs.Bits.{spread};
ghost use Rattle.images.specs.Steps.{field as field_step, output as output_step};
ghost use Rattle.images.specs.Loads.{entry_place, record_place, keys_at};
ghost use Rattle.loading.specs.Index.{There};
ghost use Rattle.loading.specs.Refusals.{unread_at};
ghost use Rattle.loading.specs.Answers.{Answers};

use crate::refusal::LoadRefusal;
use fields::{Cut, StoreBits, field, number_in};
use outputs::output::Output;
use outputs::source::Unread;
use stores::{Refusal, Store};

/// The field of `width` bits at a place, and the place behind it.
pub fn read_field<S: Store>(
    store: &S,
    place: usize,
    width: usize,
) -> Result<(u32, usize), LoadRefusal>
    requires { (0 < width) × (width ≤ 32) }
    ensures answers { Answers (λ v x. v ≡ x) (field_step (spread (S.Store.bytes store.now)) width place) result }
    ensures within { IfOk result (λ v. (v.0 < 2 ^ width) × (v.1 ≡ place + width) × (place + width ≤ length (spread (S.Store.bytes store.now)))) }
{
    let value = field(store, place, width)?;
    Ok((value, place + width))
}

// No `From`: it needs the place, which the source of bits does not have.
fn unread(place: usize, unread: Unread<Refusal>) -> LoadRefusal
    ensures { result ≡ unread_at place unread }
{
    match unread {
        Unread::Cut(refusal) => LoadRefusal::Cut(Cut { place, refusal }),
        Unread::NoCode => LoadRefusal::NoCode(place),
    }
}

/// The output whose code stands at a place, and the place behind it.
pub fn read_output<O: Output, S: Store>(store: &S, place: usize) -> Result<(O, usize), LoadRefusal>
    requires { place ≤ length (spread (S.Store.bytes store.now)) }
    ensures answers { Answers (λ v x. O.Output.meaning v ≡ x) (output_step (spread (S.Store.bytes store.now)) O.Output.kind place) result }
    ensures within { IfOk result (λ v. (v.1 ≤ length (spread (S.Store.bytes store.now))) × (v.1 < 2 ^ 32)) }
{
    O::read(&StoreBits::new(store), place).map_err(|e| unread(place, e))
}

/// Where the index has the entry of a state.
pub fn entry_place(index: u32, state: u16) -> usize
    ensures { result ≡ index + 32 * state }
{
    index as usize + 32 * usize::from(state)
}

/// The place of a state's record, as the index has it, if its entry is there.
pub fn record_place<O: Output, S: Store>(store: &S, index: u32, state: u16) -> usize
    ensures place { entry_place O.Output.kind (spread (S.Store.bytes store.now)) index state + 32 ≤ length (spread (S.Store.bytes store.now)) → result ≡ record_place O.Output.kind (spread (S.Store.bytes store.now)) index state }
    ensures fits { result < 2 ^ 32 }
{
    number_in(store, entry_place(index, state), 32) as usize
}

/// How many keys are accepted from a state, as its record has it, if that is there.
pub fn keys_at<O: Output, S: Store>(store: &S, index: u32, state: u16) -> u32
    ensures keys { There O.Output.kind (spread (S.Store.bytes store.now)) index state → result ≡ keys_at O.Output.kind (spread (S.Store.bytes store.now)) index state }
    ensures fits { result < 2 ^ 20 }
{
    let place = record_place::<O, S>(store, index, state);
    number_in(store, place + 10, 20)
}
