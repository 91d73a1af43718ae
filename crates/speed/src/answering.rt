//! Answering keys from an image.
use crate::compiling::open_image;
use crate::fault::Fault;
use crate::memory::working_room;
use crate::values::Value;
use loading::Loaded;
use outputs::number::Number;
use outputs::output::Output;
use outputs::text::Text;
use reading::find;
use std::fs;
use std::io::{BufRead, BufReader, Write};
use stores::{ByteStore, Store};

/// The byte of an image that has its kind's number.
const KIND: usize = 2;

/// Answers each line of standard input from the image in a file. An image of another kind is refused by load.
pub fn answer(rt: &HostRuntime, path: &str) -> anyhow::Result<()> {
    let mut image = fs::read(rt, path)?;
    if image.get(KIND).copied() == Some(<Text as Output>::kind_number()) {
        answer_from::<Text>(rt, image.as_mut_slice())
    } else {
        answer_from::<Number>(rt, image.as_mut_slice())
    }
}

fn answer_from<O: Value>(rt: &HostRuntime, image: &mut [u8]) -> anyhow::Result<()> {
    let bytes = image.len();
    let mut working = working_room(rt.alloc())?;
    ByteStore::check(image, bytes).map_err(Fault::Store)?;
    let store = ByteStore::new(image, bytes);
    let loaded = open_image::<O, ByteStore>(&store, working.as_mut_slice())?;
    answer_lines(rt, &loaded)
}

/// Answers each line of standard input.
fn answer_lines<O: Value, S: Store>(rt: &HostRuntime, loaded: &Loaded<O, S>) -> anyhow::Result<()> {
    let heap = rt.alloc();
    for line in BufReader::new(heap, rt.stdin())?.split(heap, b'\n') {
        let key = line?;
        let words = reply(rt, loaded, key.as_slice())?;
        rt.stdout().write_all(words.as_slice())?;
    }
    Ok(())
}

/// The line that answers a key.
fn reply<O: Value, S: Store>(
    rt: &HostRuntime,
    loaded: &Loaded<O, S>,
    key: &[u8],
) -> Result<Vec<u8>, Fault> {
    let heap = rt.alloc();
    let mut words = match find(loaded, key)? {
        Some(output) => output.shown(heap)?,
        None => b"absent".to_vec(heap)?,
    };
    words.push(b'\n')?;
    Ok(words)
}
