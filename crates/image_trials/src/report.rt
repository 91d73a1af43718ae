//! What `load` answers, beside the plain reading.
use loading::{LoadRefusal, load};
use naive::stop::{Reason, Report};
use outputs::output::Output;
use stores::{Refusal, Store};

/// What `load` answers on the image at a store's first byte.
pub fn answer_on<O: Output, S: Store>(store: &S, working: &mut [u8]) -> Result<(), LoadRefusal> {
    let _loaded = load::<O, &S>(store, working)?;
    Ok(())
}

/// Whether load and the plain reading answer alike.
pub fn agree(answer: Result<(), LoadRefusal>, plain: Result<(), Report>) -> bool {
    match (answer, plain) {
        (Ok(()), Ok(())) => true,
        (Err(refusal), Err(report)) => {
            refusal.place() == report.place && same_reason(refusal, report.reason)
        }
        _ => false,
    }
}

/// Whether two refusals have one number, and name one missing byte.
fn same_reason(refusal: LoadRefusal, reason: Reason) -> bool {
    match (refusal, reason) {
        (LoadRefusal::Cut(cut), Reason::Cut(byte)) => cut.refusal == Refusal::Missing(byte),
        _ => refusal.number() == reason.number(),
    }
}

/// Whether load answers this, and leaves zeros in the working bytes.
pub fn answers<O: Output, S: Store>(
    store: &S,
    working: &mut [u8],
    expected: Result<(), LoadRefusal>,
) -> bool {
    answer_on::<O, S>(store, working) == expected && is_clear(working)
}

/// Whether all working bytes are zero.
pub fn is_clear(working: &[u8]) -> bool {
    working.iter().all(|byte| *byte == 0)
}
