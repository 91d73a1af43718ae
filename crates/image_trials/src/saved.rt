//! A sealed dictionary saved on a store, held to its image, and loaded back from there.
use crate::report::answers;
use builder::Sealed;
use loading::LoadRefusal;
use outputs::output::Output;
use reference::fault::Fault;
use saving::{SaveRefusal, Saved, save_sealed};
use std::alloc::Global;
use stores::{ByteStore, Store, Tail, WordStore};

/// What the memory holds before.
const OTHER: u8 = 0xA5;
/// The bytes of the memory of a store.
pub const MEMORY: usize = 16384;
/// The bit place of the number of states in an image.
const STATES_PLACE: usize = 24;

/// Whether an image is saved well behind so many bytes, on bytes and on words.
pub fn saves_behind<'a, O: Output>(
    heap: Global,
    sealed: &Sealed<'a, O>,
    image: &[u8],
    used: usize,
) -> Result<bool, Fault> {
    let mut bytes = [OTHER; MEMORY];
    let mut words = [u32::from_be_bytes([OTHER; 4]); MEMORY / 4];
    let on_bytes = saves_well(heap, sealed, image, &mut ByteStore::new(&mut bytes, used))?;
    let on_words = saves_well(heap, sealed, image, &mut WordStore::new(&mut words, used))?;
    Ok(on_bytes && on_words)
}

fn saves_well<'a, O: Output, S: Store>(
    heap: Global,
    sealed: &Sealed<'a, O>,
    image: &[u8],
    store: &mut S,
) -> Result<bool, Fault> {
    let used = store.count();
    let Ok(saved) = save_sealed(sealed, store) else {
        return Ok(false);
    };
    let at_end = Saved {
        place: used,
        length: image.len(),
    };
    let well = saved == at_end
        && store.count() == used.saturating_add(image.len())
        && is_other(store, used)
        && holds(store, used, image);
    let states = sealed.counts().states;
    Ok(well && loads_back::<O, S>(heap, &*store, saved.place, states)?)
}

/// Whether a store's first bytes are as they were.
fn is_other<S: Store>(store: &S, count: usize) -> bool {
    (0..count).all(|i| store.at(i) == Ok(OTHER))
}

/// Whether a store has these bytes at a place.
fn holds<S: Store>(store: &S, place: usize, bytes: &[u8]) -> bool {
    bytes
        .iter()
        .enumerate()
        .all(|(i, byte)| store.at(place.saturating_add(i)) == Ok(*byte))
}

/// Whether load takes the image at a place with a working byte for each state, and refuses it with one less.
fn loads_back<O: Output, S: Store>(
    heap: Global,
    store: &S,
    place: usize,
    states: usize,
) -> Result<bool, Fault> {
    let tail = Tail::new(store, place);
    let mut working = vec![in heap; 0xEEu8; states]?;
    let mut fewer = vec![in heap; 0xEEu8; states.saturating_sub(1)]?;
    let short = Err(LoadRefusal::Working(STATES_PLACE));
    let taken = answers::<O, Tail<&S>>(&tail, working.as_mut_slice(), Ok(()));
    let refused = answers::<O, Tail<&S>>(&tail, fewer.as_mut_slice(), short);
    Ok(taken && refused)
}

/// Whether save refuses bytes and words with one byte less room than an image needs, and changes nothing.
pub fn refuses_short<'a, O: Output>(sealed: &Sealed<'a, O>, length: usize) -> bool {
    let used = MEMORY.saturating_add(1).saturating_sub(length);
    let mut bytes = [OTHER; MEMORY];
    let mut words = [u32::from_be_bytes([OTHER; 4]); MEMORY / 4];
    let on_bytes = refuses(sealed, &mut ByteStore::new(&mut bytes, used));
    let on_words = refuses(sealed, &mut WordStore::new(&mut words, used));
    on_bytes
        && on_words
        && is_other(&ByteStore::new(&mut bytes, MEMORY), MEMORY)
        && is_other(&WordStore::new(&mut words, MEMORY), MEMORY)
}

/// Whether save refuses with 15, and leaves the count of the store.
fn refuses<'a, O: Output, S: Store>(sealed: &Sealed<'a, O>, store: &mut S) -> bool {
    let used = store.count();
    save_sealed(sealed, store).err() == Some(SaveRefusal::NoRoom) && store.count() == used
}
