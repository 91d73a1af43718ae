//! A short list, answered in both ways.
use crate::agreeing::{answer, records_of};
use crate::building::{Built, build, build_list, lines_of, number_of};
use builder::Sealed;
use lending::Lent;
use outputs::number::Number;
use reference::samples::read_pairs;
use reference::values::PlainNumber;
use sheets::Pair;
use std::alloc::Global;
use std::test::Fail;

/// Three pairs, of which the second is out of order.
fn list(heap: Global) -> Result<Vec<Pair<PlainNumber>>, Fail> {
    read_pairs(heap, "b=7 a=5 c=9").map_err(|_| Fail::new("the list is not read"))
}

/// Whether the first and the third pair were taken.
fn has_taken<'a>(sealed: &Sealed<'a, Number>) -> bool {
    let records = records_of(sealed);
    let number = |key: &[u8]| answer(&records, key).map(|output| output.value);
    number(b"b") == Some(7) && number(b"a") == None && number(b"c") == Some(9)
}

#[test]
fn a_list_is_answered_pair_by_pair(rt: HostRuntime) -> Result<(), Fail> {
    let heap = rt.alloc();
    let pairs = list(heap)?;
    let mut lent = Lent::new(heap, 3, 3, 3)?;
    let Ok(Built { answers, sealed }) = build_list(heap, pairs.as_slice(), &mut lent) else {
        return Err(Fail::new("a pair has no output, or memory runs out"))
    };
    let numbers = answers.iter().map(number_of);
    assert!(rt; numbers.eq([None, Some(6), None]));
    assert!(rt; has_taken(&sealed));
    Ok(())
}

#[test]
fn lines_are_answered_as_a_list_is(rt: HostRuntime) -> Result<(), Fail> {
    let heap = rt.alloc();
    let pairs = list(heap)?;
    let Ok(mut lines) = lines_of(heap, pairs.as_slice()) else {
        return Err(Fail::new("a pair has no output, or memory runs out"))
    };
    let mut lent = Lent::new(heap, 3, 3, 3)?;
    let sealed = build(lines.as_mut_slice(), &mut lent);
    let numbers = lines.iter().map(|line| number_of(&line.answer));
    assert!(rt; numbers.eq([None, Some(6), None]));
    assert!(rt; has_taken(&sealed));
    Ok(())
}
