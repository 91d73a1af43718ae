//! Loading an image from a store.
ghost use Rattle.std.specs.Prelude.{◌≡◌, length, replicate};
ghost use Rattle.loading.specs.Loading.{Loads};

use super::Loaded;
use crate::refusal::LoadRefusal;
use crate::whole::read_whole;
use outputs::output::Output;
use stores::Store;

/// Takes the image at the first byte of a store, or refuses it with the first test that it fails.
///
/// It wants a working byte for each state, whatever they hold; all that are given hold zeros afterwards.
pub fn load<O: Output, S: Store + Drop>(
    store: S,
    working: &mut [u8],
) -> Result<Loaded<O, S>, LoadRefusal>
    ensures loads { Loads O.Output.kind O.Output.meaning S.Store.bytes (length working.old) store result }
    ensures cleared { working.new ≡ replicate (length working.old) 0 }
{
    let answer = read_whole::<O, S>(&store, working);
    working.fill(0);
    let (head, _behind) = answer?;
    Ok(Loaded {
        store,
        start: head.states - 1,
        index: head.index,
        start_output: head.start_output,
    })
}
