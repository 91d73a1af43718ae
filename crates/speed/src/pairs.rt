//! The pairs of a sheet.
use crate::fault::{Fault, Trouble};
use crate::values::Value;
use sheets::{Pair, cut, decimal};
use std::alloc::Global;

/// What stands behind the keys of a sheet.
#[derive(Clone, Copy)]
pub enum Kind {
    Numbers,
    Texts,
}

/// The kind of a sheet, by its first line.
pub fn kind_of(text: &[u8]) -> Kind {
    let line = text.split(|byte| *byte == b'\n').next();
    match line.and_then(|line| decimal(cut(line)?.field)) {
        Some(_) => Kind::Numbers,
        None => Kind::Texts,
    }
}

/// The pairs of a sheet, line by line: pair `i` stands on line `i + 1`.
pub fn read_pairs<O: Value>(heap: Global, text: &[u8]) -> Result<Vec<Pair<O>>, Fault> {
    text.split_inclusive(|byte| *byte == b'\n')
        .enumerate()
        .map(|(i, line)| read_line(heap, line, i.saturating_add(1)))
        .try_collect(heap)
}

fn read_line<O: Value>(heap: Global, line: &[u8], number: usize) -> Result<Pair<O>, Fault> {
    let line = line.strip_suffix(b"\n").unwrap_or(line);
    let line = cut(line).ok_or(Fault::Line(number, Trouble::NoTab))?;
    Ok(Pair {
        key: line.key.to_vec(heap)?,
        output: O::parse(line.field).map_err(|trouble| Fault::Line(number, trouble))?,
    })
}

/// Whether a string is a key. The pairs ascend.
pub fn holds<O>(pairs: &[Pair<O>], key: &[u8]) -> bool {
    pairs
        .binary_search_by(|pair| pair.key.as_slice().cmp(&key))
        .is_ok()
}
