// The pairs of a sheet sealed and saved on stores of bytes and of words, and loaded back.
use builder_trials::building::{Built, build_list};
use image_trials::saved::{MEMORY, refuses_short, saves_behind};
use lending::Lent;
use output_trials::twin::Twin;
use reference::fault::Fault;
use reference::tally::Tally;
use sheets::Pair;
use std::alloc::Global;

// Enough states and arcs for every list of the bench.
const ROOM: usize = 1000;

// How saving came out.
#[derive(Clone, Copy)]
pub struct Saving {
    // The image came onto bytes and words at three places, and was loaded back from each.
    pub whole: bool,
    // One byte less room was refused, and nothing was changed.
    pub short: bool,
}

pub fn print_saved<V: Twin>(
    rt: &HostRuntime,
    pairs: &[Pair<V>],
    image: &[u8],
    tally: &mut Tally,
) -> anyhow::Result<()> {
    let saving = try_saving(rt.alloc(), pairs, image)?;
    let whole = tally.judge(saving.whole);
    let short = tally.judge(saving.short);
    println!(rt;
        "  saved on bytes and on words, at the start, behind 7 bytes and up to the end, and loaded back ({whole}); a byte less refused with 15 ({short})"
    )?;
    Ok(())
}

pub fn try_saving<V: Twin>(heap: Global, pairs: &[Pair<V>], image: &[u8]) -> Result<Saving, Fault> {
    let mut lent = Lent::new(heap, ROOM, ROOM, ROOM)?;
    let Built { sealed, .. } = build_list(heap, pairs, &mut lent)?;
    let last = MEMORY.saturating_sub(image.len());
    let whole = saves_behind(heap, &sealed, image, 0)?
        && saves_behind(heap, &sealed, image, 7)?
        && saves_behind(heap, &sealed, image, last)?;
    Ok(Saving {
        whole,
        short: refuses_short(&sealed, image.len()),
    })
}
