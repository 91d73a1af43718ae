//! The key of an output.
ghost use Rattle.std.specs.Prelude.{◌≤◌, length};
ghost use Rattle.machines.specs.Pairs.{Pairs, Proper};
ghost use Rattle.machines.specs.Minimal.{minimal};
ghost use Rattle.loading.specs.Loading.{Holds};
ghost use Rattle.searching.specs.Searches.{KeyWritten, KeyOf, Names, Named};

use crate::prefixes::left;
use crate::refusal::WhoRefusal;
use crate::seeking::seek;
use loading::Loaded;
use outputs::output::Output;
use stores::Store;

/// Writes a key whose output is the one given at the start of a buffer that can hold every key, and gives its length, if there is one.
fn write_key<O: Output, S: Store>(
    loaded: &Loaded<O, S>,
    output: &O,
    buffer: &mut [u8],
) -> Option<usize>
    requires { 64 ≤ length buffer.old }
    ensures written { KeyWritten O.Output.kind (Holds O.Output.kind O.Output.meaning S.Store.bytes loaded.now) (O.Output.meaning output.now) buffer.old buffer.new result }
    ensures pairs { (P : Pairs O.Output.kind.Ideal) → Proper O.Output.kind P → Holds O.Output.kind O.Output.meaning S.Store.bytes loaded.now (minimal O.Output.kind P) → KeyOf P (O.Output.meaning output.now) buffer.old buffer.new result }
{
    let first = loaded.start_output();
    let rest = left(output, &first)?;
    seek(loaded, loaded.start(), &rest, 0, buffer)
}

/// Writes a key whose output is the one given at the buffer's start, and gives its length, or absent if no key has that output.
///
/// It refuses a buffer under 64 bytes, and then writes nothing. Behind the key the buffer stays as it is, and without a key all of it.
pub fn who<O: Output, S: Store>(
    loaded: &Loaded<O, S>,
    output: &O,
    buffer: &mut [u8],
) -> Result<Option<usize>, WhoRefusal>
    ensures names { Names O.Output.kind (Holds O.Output.kind O.Output.meaning S.Store.bytes loaded.now) (O.Output.meaning output.now) buffer.old buffer.new result }
    ensures pairs { (P : Pairs O.Output.kind.Ideal) → Proper O.Output.kind P → Holds O.Output.kind O.Output.meaning S.Store.bytes loaded.now (minimal O.Output.kind P) → Named P (O.Output.meaning output.now) buffer.old buffer.new result }
{
    if buffer.len() < 64 {
        return Err(WhoRefusal::ShortBuffer);
    }
    Ok(write_key(loaded, output, buffer))
}
