// An image on a store of bytes and on one of words, behind bytes that are used, and its head read back from there.
use anyhow::anyhow;
use fields::field;
use stores::{ByteStore, Store, Tail, WordStore};

// Bytes that are used before the image is put behind them.
const USED: usize = 7;

// The numbers in front of an image's start output.
pub struct Head {
    kind: u32,
    states: u32,
    arcs: u32,
    keys: u32,
}

pub fn print_stored(rt: &HostRuntime, image: &[u8]) -> anyhow::Result<()> {
    let mut bytes = [0u8; 1024];
    let mut words = [0u32; 256];
    let mut byte_store = ByteStore::new(&mut bytes, USED);
    let mut word_store = WordStore::new(&mut words, USED);
    print_head(rt, "bytes", stored_head(&mut byte_store, image)?)?;
    print_head(rt, "words", stored_head(&mut word_store, image)?)
}

fn print_head(rt: &HostRuntime, memory: &str, head: Head) -> anyhow::Result<()> {
    let Head {
        kind,
        states,
        arcs,
        keys,
    } = head;
    let used = USED;
    println!(rt;
        "  on {memory}, behind {used} bytes: kind {kind}, states {states}, arcs {arcs}, keys {keys}"
    )?;
    Ok(())
}

// Appends an image to a store, and reads its head from the place where it went.
fn stored_head<S: Store>(store: &mut S, image: &[u8]) -> anyhow::Result<Head> {
    let place = store.count();
    for byte in image {
        store
            .append(*byte)
            .map_err(|_| anyhow!("the store has no room for the image"))?;
    }
    head_at(&Tail::new(&*store, place))
}

fn head_at<S: Store>(store: &S) -> anyhow::Result<Head> {
    Ok(Head {
        kind: number(store, 16, 8)?,
        states: number(store, 24, 16)?,
        arcs: number(store, 40, 17)?,
        keys: number(store, 57, 20)?,
    })
}

fn number<S: Store>(store: &S, place: usize, width: usize) -> anyhow::Result<u32> {
    field(store, place, width).map_err(|_| anyhow!("the store ends inside the head"))
}
