//! Examples over both memories.
ghost use Rattle.std.specs.Prelude.{◌≡◌, ◌<◌, ◌≤◌, length, slice_set};

use crate::{ByteStore, Call, Refusal, Store, Tail, WordStore, same_answers};

#[test]
fn bytes_and_words_answer_alike(rt: HostRuntime) {
    let mut bytes = [0xEE; 8];
    let mut words: [u32; 2] = [0xEEEE_EEEE; 2];
    let calls = [
        Call::Append(1),
        Call::Append(2),
        Call::Append(3),
        Call::Append(4),
        Call::Append(5),
        Call::At(4),
        Call::At(5),
        Call::Count,
        Call::Capacity,
    ];
    let mut one = ByteStore::new(&mut bytes, 0);
    let mut other = WordStore::new(&mut words, 0);
    assert!(rt; same_answers(&mut one, &mut other, &calls));
    assert_eq!(rt; bytes, [1, 2, 3, 4, 5, 0xEE, 0xEE, 0xEE]);
    assert_eq!(rt; words, [0x0102_0304, 0x05EE_EEEE]);
}

#[test]
fn refusals_have_their_numbers(rt: HostRuntime) {
    let mut memory = [7; 2];
    assert_eq!(rt; ByteStore::check(&memory, 3), Err(Refusal::BadMemory));
    assert_eq!(rt; WordStore::check(&[0], 4), Ok(()));
    assert_eq!(rt; WordStore::check(&[0], 5), Err(Refusal::BadMemory));
    let mut store = ByteStore::new(&mut memory, 1);
    assert_eq!(rt; Tail::check(&store, 2), Err(Refusal::BadPlace));
    assert_eq!(rt; store.at(1), Err(Refusal::Missing(1)));
    assert_eq!(rt; Tail::new(&store, 1).capacity(), 0);
    assert_eq!(rt; Tail::new(&mut store, 1).append(9), Ok(()));
    assert_eq!(rt; store.append(9), Err(Refusal::Full));
    assert_eq!(rt; Tail::new(&store, 1).at(0), Ok(9));
    assert_eq!(rt; memory, [7, 9]);
    assert_eq!(rt; Refusal::Missing(1).number(), 11);
    assert_eq!(rt; Refusal::Full.number(), 12);
    assert_eq!(rt; Refusal::BadMemory.number(), 13);
    assert_eq!(rt; Refusal::BadPlace.number(), 14);
}

/// The owner of lent memory knows what it holds after an append.
fn lend(memory: &mut [u8], byte: u8)
    requires { (0 < length memory.old) × (length memory.old ≤ 16777216) }
    ensures { memory.new ≡ slice_set memory.old 0 byte }
{
    let mut store = ByteStore::new(memory, 0);
    let _ = store.append(byte);
}

#[test]
fn the_owner_sees_the_byte(rt: HostRuntime) {
    let mut memory = [0; 2];
    lend(&mut memory, 5);
    assert_eq!(rt; memory, [5, 0]);
}
