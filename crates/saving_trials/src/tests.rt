//! Dictionaries of numbers, laid out by hand.
use outputs::number::Number;
use records::record::{Arc, State};
use saving::{Rows, SaveRefusal, Saved, save};
use std::process::Abort;
use std::test::Fail;
use stores::{ByteStore, Store, WordStore};

/// The image of the empty key with the output 7.
const SMALLEST: &[u8] =
    b"\x54\x44\x01\x00\x01\x00\x00\x00\x00\x08\x00\x00\x00\x38\x00\x00\x04\x6c\x00\x00\x00\x20\x00\x00\x00\x00";

/// The image of the key A with the output 5 and the key B with the output 7.
const TWO: &[u8] =
    b"\x54\x44\x01\x00\x02\x00\x01\x00\x00\x10\x00\x00\x00\x28\x00\x00\x05\x68\x00\x00\x07\x5c\x00\x00\x00\x20\x00\x00\x00\x00\x10\x00\x01\x20\x80\x00\x00\x00\x00\x00\x21\x00\x00\x00\x00\x00\x01\x00";

/// A state at which a key ends, without an arc.
const LAST: State<Number> = State {
    end: Some(Number { value: 0 }),
    count: 0,
    first: 0,
    keys: 1,
};

fn save_smallest<S: Store>(store: &mut S, keys: u32) -> Result<Saved, SaveRefusal> {
    let states = [LAST];
    let arcs: [Arc<Number>; 0] = [];
    save(
        &Rows {
            states: &states,
            arcs: &arcs,
            start: Number { value: 7 },
            keys,
        },
        store,
    )
}

fn save_two<S: Store>(store: &mut S) -> Result<Saved, SaveRefusal> {
    let states = [
        LAST,
        State {
            end: None,
            count: 2,
            first: 2,
            keys: 2,
        },
    ];
    let arcs = [
        Arc {
            byte: b'A',
            target: 0,
            output: Number { value: 0 },
        },
        Arc {
            byte: b'B',
            target: 0,
            output: Number { value: 2 },
        },
    ];
    save(
        &Rows {
            states: &states,
            arcs: &arcs,
            start: Number { value: 5 },
            keys: 2,
        },
        store,
    )
}

/// Whether an image was saved at the place, and ends the store.
fn is_saved<S: Store>(
    told: Result<Saved, SaveRefusal>,
    place: usize,
    image: &[u8],
    store: &S,
) -> bool {
    let length = image.len();
    let end = place.saturating_add(length);
    told == Ok(Saved { place, length })
        && store.count() == end
        && (place..end)
            .zip(image)
            .all(|(i, byte)| store.at(i) == Ok(*byte))
}

/// The number of the refusal, if there was one.
fn refusal_of(told: Result<Saved, SaveRefusal>) -> Option<u8> {
    told.err().map(|refusal| refusal.number())
}

#[test]
fn images_are_saved_one_behind_another(rt: HostRuntime) {
    let mut memory = [0xEE; 77];
    let mut store = ByteStore::new(&mut memory, 3);
    let told = save_smallest(&mut store, 1);
    assert!(rt; is_saved(told, 3, SMALLEST, &store));
    let told = save_two(&mut store);
    assert!(rt; is_saved(told, 29, TWO, &store));
}

#[test]
fn a_store_of_words_takes_the_same_bytes(rt: HostRuntime) {
    let mut memory: [u32; 12] = [0xEEEE_EEEE; 12];
    let mut store = WordStore::new(&mut memory, 0);
    let told = save_two(&mut store);
    assert!(rt; is_saved(told, 0, TWO, &store));
}

#[test]
fn a_byte_too_few_and_no_pair_are_refused(rt: HostRuntime) {
    let mut memory = [0xEE; 28];
    let mut store = ByteStore::new(&mut memory, 3);
    assert_eq!(rt; refusal_of(save_smallest(&mut store, 1)), Some(15));
    assert_eq!(rt; refusal_of(save_smallest(&mut store, 0)), Some(10));
    assert_eq!(rt; store.count(), 3);
}
