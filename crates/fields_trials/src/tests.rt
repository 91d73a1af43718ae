//! Codes on both stores, whole and cut.
ghost use Rattle.std.specs.Prelude.{◌≡◌, Ok};
ghost use Rattle.outputs.specs.Bits.{packed};
ghost use Rattle.fields.specs.Packs.{Gave};

use fields::{Counter, Cut, Packer, StoreBits, field, has_mark, write_mark};
use outputs::number::Number;
use outputs::output::Output;
use outputs::sink::BitSink;
use outputs::source::Unread;
use outputs::text::Text;
use std::process::Abort;
use std::test::Fail;
use stores::{ByteStore, Refusal, Store, WordStore};

/// Appends the bytes of an output's code, as many as there is room for, and gives the first refusal.
fn append_code<S: Store, O: Output>(store: &mut S, output: &O) -> Result<(), Refusal>
    ensures given { Gave (S.Store.room store.old) (S.Store.bytes store.old) (Ok tt) (packed (O.Output.kind.code (O.Output.meaning output.now))) (S.Store.bytes store.new) result }
    ensures room { S.Store.room store.new ≡ S.Store.room store.old }
    ensures follows { S.Store.follows store.old store.new }
{
    let mut packer = Packer::new(store);
    output.write(&mut packer);
    packer.finish()
}

/// Whether the code of an output goes onto a store and is read back from there.
fn comes_back<S: Store, O: Output>(store: &mut S, output: &O) -> bool {
    let place = store.count().saturating_mul(8);
    if append_code(store, output).is_err() {
        return false;
    }
    match O::read(&StoreBits::new(&*store), place) {
        Ok((back, _)) => back.same(output),
        Err(_) => false,
    }
}

fn all_come_back<S: Store>(store: &mut S) -> Result<bool, Fail> {
    let Ok(none) = Text::new(b"") else {
        return Err(Fail::new("no bytes"))
    };
    let Ok(long) = Text::new(b"DAM-2 NORTH GALLERY P017") else {
        return Err(Fail::new("24 bytes"))
    };
    Ok(
        comes_back(store, &Number { value: 0 })
            && comes_back(
                store,
                &Number {
                    value: 4_294_967_295,
                },
            )
            && comes_back(store, &none)
            && comes_back(store, &long),
    )
}

#[test]
fn outputs_come_back_from_both_stores(rt: HostRuntime) -> Result<(), Fail> {
    let mut bytes = [0xEE; 40];
    let mut words: [u32; 10] = [0xEEEE_EEEE; 10];
    assert!(rt; all_come_back(&mut ByteStore::new(&mut bytes, 3))?);
    assert!(rt; all_come_back(&mut WordStore::new(&mut words, 5))?);
    Ok(())
}

/// Whether an output is read where a store ends with the first `count` bits of a row.
type Told = Result<(), Unread<Refusal>>;

/// Packs bits so that they end the last byte, and reads an output at their first.
fn read_cut<S: Store, O: Output>(store: &mut S, _kind: &O, row: u32, count: usize) -> Told {
    let spare = (8 - count % 8) % 8;
    let place = store.count().saturating_mul(8).saturating_add(spare);
    let mut packer = Packer::new(&mut *store);
    packer.put(0, spare);
    packer.put(row, count);
    let _ = packer.finish();
    O::read(&StoreBits::new(&*store), place)?;
    Ok(())
}

/// The same on both stores, behind two bytes; nothing where they differ.
fn answer<O: Output>(kind: &O, row: u32, count: usize) -> Option<Told> {
    let mut bytes = [0xEE; 8];
    let mut words: [u32; 2] = [0xEEEE_EEEE; 2];
    let one = read_cut(&mut ByteStore::new(&mut bytes, 2), kind, row, count);
    let other = read_cut(&mut WordStore::new(&mut words, 2), kind, row, count);
    if one == other { Some(one) } else { None }
}

#[test]
fn numbers_are_cut_at_each_bit(rt: HostRuntime) {
    let kind = Number { value: 0 };
    for count in 0..32 {
        assert_eq!(rt;
            answer(&kind, 0xDEAD_BEEF, count),
            Some(Err(Unread::Cut(Refusal::Missing(2 + (count + 7) / 8))))
        );
    }
    assert_eq!(rt; answer(&kind, 0xDEAD_BEEF, 32), Some(Ok(())));
}

#[test]
fn texts_are_cut_at_each_bit(rt: HostRuntime) {
    let kind = Text::empty();
    // The text "to" has the length 00010 and the bytes 01110100 01101111.
    let code: u32 = 0b00010_01110100_01101111;
    for count in 0..21 {
        assert_eq!(rt;
            answer(&kind, code >> (21 - count), count),
            Some(Err(Unread::Cut(Refusal::Missing(2 + (count + 7) / 8))))
        );
    }
    assert_eq!(rt; answer(&kind, code, 21), Some(Ok(())));
    assert_eq!(rt;
        answer(&kind, 0b110, 3),
        Some(Err(Unread::Cut(Refusal::Missing(3))))
    );
    assert_eq!(rt;
        answer(&kind, 0b1100, 4),
        Some(Err(Unread::Cut(Refusal::Missing(3))))
    );
    assert_eq!(rt; answer(&kind, 0b111, 3), Some(Err(Unread::NoCode)));
    assert_eq!(rt; answer(&kind, 0b1101, 4), Some(Err(Unread::NoCode)));
    assert_eq!(rt; answer(&kind, 0b11001, 5), Some(Err(Unread::NoCode)));
}

#[test]
fn a_full_store_takes_what_there_is_room_for(rt: HostRuntime) {
    let mut bytes = [0; 3];
    let mut store = ByteStore::new(&mut bytes, 1);
    let code = Number { value: 0x0102_0304 };
    assert_eq!(rt; append_code(&mut store, &code), Err(Refusal::Full));
    assert_eq!(rt; bytes, [0, 1, 2]);
    let mut counter = Counter::new();
    code.write(&mut counter);
    assert_eq!(rt; counter.bits, 32);
}

#[test]
fn the_mark_is_found_where_it_stands(rt: HostRuntime) {
    let mut bytes = [0; 4];
    let mut store = ByteStore::new(&mut bytes, 0);
    let mut packer = Packer::new(&mut store);
    packer.put(0b101, 3);
    write_mark(&mut packer);
    assert_eq!(rt; packer.finish(), Ok(()));
    assert_eq!(rt; field(&store, 0, 3), Ok(0b101));
    assert_eq!(rt; has_mark(&store, 3), Ok(true));
    assert_eq!(rt; has_mark(&store, 4), Ok(false));
    assert_eq!(rt;
        has_mark(&store, 9),
        Err(Cut {
            place: 9,
            refusal: Refusal::Missing(3),
        })
    );
    assert_eq!(rt;
        has_mark(&store, 99),
        Err(Cut {
            place: 99,
            refusal: Refusal::Missing(12),
        })
    );
}
