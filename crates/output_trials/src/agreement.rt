// The crate `outputs` beside the reference: for the outputs of a sheet, two by two, each call has to answer alike.
use crate::tape::{Collected, Tape};
use crate::twin::Twin;
use outputs::output::Output;
use outputs::source::Unread;
use reference::bits::Bits;
use reference::fault::Fault;
use reference::tally::Tally;
use sheets::Pair;
use std::alloc::Global;

pub fn compare<V: Twin>(heap: Global, pairs: &[Pair<V>], tally: &mut Tally) -> Result<(), Fault> {
    for pair in pairs {
        compare_code(heap, &pair.output, tally)?;
        for other in pairs {
            compare_parts(heap, &pair.output, &other.output, tally)?;
        }
    }
    Ok(())
}

// The greatest common prefix of two outputs, the rest of the first behind it, the join of these two parts, and whether the outputs are equal.
fn compare_parts<V: Twin>(heap: Global, x: &V, y: &V, tally: &mut Tally) -> Result<(), Fault> {
    let common = x.common(heap, y)?;
    let rest = x.rest(heap, &common)?;
    let proved = x.proved()?;
    let other = y.proved()?;
    let shared = proved.common(&other);
    let left = proved.rest(&shared);
    let _ = tally.judge(common.means(&shared));
    let _ = tally.judge(rest.means(&left));
    let _ = tally.judge(shared.joins(&left) && x.means(&shared.join(&left)));
    let _ = tally.judge(proved.same(&other) == (x == y));
    Ok(())
}

// The code of an output, and its reading at each length that it is cut to.
fn compare_code<V: Twin>(heap: Global, x: &V, tally: &mut Tally) -> Result<(), Fault> {
    let proved = x.proved()?;
    let mut bits = Bits::new(heap);
    x.write(&mut bits)?;
    let mut sink = Collected {
        bits: Vec::new(heap),
    };
    proved.write(&mut sink);
    let row = sink.bits.as_slice();
    let _ = tally.judge(bits.row() == row);
    for length in 0..=row.len() {
        let whole = length == row.len();
        let _ = tally.judge(reads_back(x, &row[..length], whole));
    }
    Ok(())
}

// Whether the first bits of a code are read as they should be: as the output where they are the whole code, else as a code that is cut.
fn reads_back<V: Twin>(x: &V, bits: &[bool], whole: bool) -> bool {
    match V::Proved::read(&Tape::new(bits), 0) {
        Ok((proved, place)) => whole && place == bits.len() && x.means(&proved),
        Err(Unread::Cut(_)) => !whole,
        Err(Unread::NoCode) => false,
    }
}
