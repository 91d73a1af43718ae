//! Cutting a sheet into lines, and a line at its first TAB.
ghost use Rattle.std.specs.Prelude.{◌≡◌, ℕ, ◌<◌, ◌≤◌, ◌∷◌, ◌++◌, length, Some, None, ◌≢◌, slice_index};
ghost use Rattle.sheets.specs.Lines.{Lacks, Cuts};

/// What stands on one line of a sheet.
#[derive(Clone, Copy)]
pub struct Line<'a> {
    /// What stands before the first TAB.
    pub key: &'a [u8],
    /// What stands behind it.
    pub field: &'a [u8],
}

/// The index of the first byte that equals `byte`, or the length where there is none: what stands before it is wanted either way.
pub fn first(bytes: &[u8], byte: u8) -> usize
    ensures within { result ≤ length bytes.now }
    ensures before { (k : ℕ) → k < result → slice_index bytes.now k ≢ byte }
    ensures found { result < length bytes.now → slice_index bytes.now result ≡ byte }
{
    bytes
        .iter()
        .position(|other| *other == byte)
        .unwrap_or(bytes.len())
}

/// A line cut at the first byte that equals `byte`, if there is one.
fn cut_at(line: &[u8], byte: u8) -> Option<Line<'_>>
    ensures { elim result [ None ↦ Lacks byte line.now | Some l ↦ Cuts byte line.now l.key.now l.field.now ] }
{
    let place = first(line, byte);
    if place >= line.len() {
        return None;
    }
    Some(Line {
        key: &line[0..place],
        field: &line[place + 1..],
    })
}

/// A line cut at its first TAB, if it has one.
pub fn cut(line: &[u8]) -> Option<Line<'_>>
    ensures { elim result [ None ↦ Lacks 9 line.now | Some l ↦ Cuts 9 line.now l.key.now l.field.now ] }
{
    cut_at(line, b'\t')
}
