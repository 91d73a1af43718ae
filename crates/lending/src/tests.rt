use crate::Lent;
use outputs::number::Number;
use std::test::Fail;

/// How many of two pairs a builder in lent memory takes.
fn taken(lent: &mut Lent<Number>) -> usize {
    let mut builder = lent.builder();
    let first = builder.add(b"a", Number { value: 1 }).is_ok();
    let second = builder.add(b"b", Number { value: 2 }).is_ok();
    usize::from(first).saturating_add(usize::from(second))
}

#[test]
fn memory_is_lent_again_and_again(rt: HostRuntime) -> Result<(), Fail> {
    let mut lent = Lent::<Number>::new(rt.alloc(), 3, 2, 3)?;
    assert_eq!(rt; taken(&mut lent), 2);
    assert_eq!(rt; taken(&mut lent), 2);
    Ok(())
}

#[test]
fn no_more_is_taken_than_there_is_room_for(rt: HostRuntime) -> Result<(), Fail> {
    let mut lent = Lent::<Number>::new(rt.alloc(), 3, 1, 3)?;
    assert_eq!(rt; taken(&mut lent), 1);
    Ok(())
}
