//! From pairs to an image.
use crate::fault::{Fault, Trouble};
use crate::memory::Memory;
use builder::Sealed;
use lending::Lent;
use loading::{Loaded, load};
use outputs::output::Output;
use saving::save_sealed;
use sheets::Pair;
use stores::{ByteStore, Store};

/// How large a dictionary is.
#[derive(Clone, Copy)]
pub struct Figures {
    pub states: usize,
    pub arcs: usize,
    pub bytes: usize,
}

/// Seals the pairs. A pair that is refused is named by its line.
pub fn build<'a, O: Output>(
    lent: &'a mut Lent<O>,
    pairs: &[Pair<O>],
) -> Result<Sealed<'a, O>, Fault> {
    let mut builder = lent.builder();
    for (i, pair) in pairs.iter().enumerate() {
        builder.add(pair.key.as_slice(), pair.output).map_err(|refusal| Fault::Line(
            i.saturating_add(1),
            Trouble::Pair(refusal),
        ))?;
    }
    builder.check_seal()?;
    Ok(builder.seal())
}

/// Puts the image at the start of the memory, and gives its length.
pub fn store_image<O: Output>(sealed: &Sealed<'_, O>, image: &mut [u8]) -> Result<usize, Fault> {
    Ok(save_sealed(sealed, &mut ByteStore::new(image, 0))?.length)
}

/// Seals the pairs and puts their image at the start of its memory.
pub fn compile<O: Output>(memory: &mut Memory<O>, pairs: &[Pair<O>]) -> Result<Figures, Fault> {
    let sealed = build(&mut memory.lent, pairs)?;
    let counts = sealed.counts();
    Ok(Figures {
        states: counts.states,
        arcs: counts.arcs,
        bytes: store_image(&sealed, memory.image.as_mut_slice())?,
    })
}

/// Loads the image on a store.
pub fn open_image<'a, O: Output, S: Store>(
    store: &'a S,
    working: &mut [u8],
) -> Result<Loaded<O, &'a S>, Fault> {
    load::<O, &'a S>(store, working).map_err(Fault::Load)
}
