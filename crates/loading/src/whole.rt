//! A whole image, step by step.
ghost use Rattle.std.specs.Prelude.{◌<◌, length, IfOk};
ghost use Rattle.outputs.specs.Bits.{spread};
ghost use Rattle.images.specs.Loads.{whole as whole_step};
ghost use Rattle.loading.specs.Answers.{Answers};
ghost use Rattle.loading.specs.Wholes.{WholeRead};

use crate::ending::pass_ending;
use crate::head::{Head, pass_entries, read_head};
use crate::records::read_records;
use crate::refusal::LoadRefusal;
use outputs::output::Output;
use stores::Store;

/// The image at a store's first byte: its head, and the place behind it. The working bytes are left as they come.
pub fn read_whole<O: Output, S: Store>(
    store: &S,
    working: &mut [u8],
) -> Result<(Head<O>, usize), LoadRefusal>
    ensures answers { Answers (WholeRead O.Output.kind O.Output.meaning (spread (S.Store.bytes store.now)) (length working.old)) (whole_step O.Output.kind (spread (S.Store.bytes store.now)) (length working.old) 0) result }
    ensures within { IfOk result (λ v. 0 < v.0.states) }
{
    let (head, index) = read_head::<O, S>(store, 0, working.len())?;
    let records = pass_entries::<O, S>(store, index, head.states)?;
    let (arcs, ending) = read_records::<O, S>(store, records, head.index, head.states, working)?;
    let behind = pass_ending::<O, S>(store, ending, &head, arcs, working)?;
    Ok((head, behind))
}
