//! The image appended to a store.
ghost use Rattle.std.specs.Prelude.{◌≡◌, ◌+◌, ◌-◌, ◌/◌, ◌≤◌, ◌++◌, length};
ghost use Rattle.outputs.specs.Bits.{packed};
ghost use Rattle.images.specs.Images.{image, image_of};
ghost use Rattle.saving.specs.Standing.{machine_of, counts_of, bits_of};
ghost use Rattle.saving.specs.Saves.{Saves, StandsFor};

use crate::counting::image_bytes;
use crate::refusal::SaveRefusal;
use crate::rows::Rows;
use crate::writing::write_image;
use fields::Packer;
use outputs::output::Output;
use stores::Store;

/// Where an image went.
#[derive(Clone, Copy, PartialEq, Eq, Debug)]
pub struct Saved {
    /// The store's byte at which it begins.
    pub place: usize,
    /// How many bytes it has.
    pub length: usize,
}

/// Appends the image to a store with room for it.
fn append_image<'b, O: Output, S: Store>(rows: &Rows<'b, O>, store: &mut S)
    requires { length (S.Store.bytes store.old) + length (packed (bits_of O.Output.kind O.Output.meaning rows.now)) ≤ S.Store.room store.old }
    ensures bytes { S.Store.bytes store.new ≡ S.Store.bytes store.old ++ packed (bits_of O.Output.kind O.Output.meaning rows.now) }
    ensures room { S.Store.room store.new ≡ S.Store.room store.old }
    ensures follows { S.Store.follows store.old store.new }
{
    let mut packer = Packer::new(store);
    write_image(rows, &mut packer);
    let _ = packer.finish();
}

/// Appends the image if there is a pair, and so much to spare.
fn append_checked<'b, O: Output, S: Store>(
    rows: &Rows<'b, O>,
    store: &mut S,
    to: Saved,
    spare: usize,
) -> Result<Saved, SaveRefusal>
    requires place { to.place ≡ length (S.Store.bytes store.old) }
    requires size { to.length ≡ (length (bits_of O.Output.kind O.Output.meaning rows.now) + 7) / 8 }
    requires spare { spare ≡ S.Store.room store.old - length (S.Store.bytes store.old) }
    ensures image { Saves S.Store.bytes S.Store.room (image_of O.Output.kind (machine_of O.Output.kind O.Output.meaning rows.now) (counts_of rows.now) rows.now.keys) rows.now.keys store.old store.new result }
    ensures pairs { (P : _) → StandsFor O.Output.kind O.Output.meaning P rows.now → Saves S.Store.bytes S.Store.room (image O.Output.kind P) (length P) store.old store.new result }
    ensures capacity { S.Store.room store.new ≡ S.Store.room store.old }
    ensures follows { S.Store.follows store.old store.new }
{
    if rows.keys == 0 {
        return Err(SaveRefusal::NoPairs);
    }
    if spare < to.length {
        return Err(SaveRefusal::NoRoom);
    }
    append_image(rows, store);
    Ok(to)
}

/// Appends the image to a store, and tells where it went.
///
/// It refuses a dictionary without a pair, and else a store with less room than the image needs. A refusal changes nothing.
pub fn save<'b, O: Output, S: Store>(
    rows: &Rows<'b, O>,
    store: &mut S,
) -> Result<Saved, SaveRefusal>
    ensures image { Saves S.Store.bytes S.Store.room (image_of O.Output.kind (machine_of O.Output.kind O.Output.meaning rows.now) (counts_of rows.now) rows.now.keys) rows.now.keys store.old store.new result }
    ensures pairs { (P : _) → StandsFor O.Output.kind O.Output.meaning P rows.now → Saves S.Store.bytes S.Store.room (image O.Output.kind P) (length P) store.old store.new result }
    ensures capacity { S.Store.room store.new ≡ S.Store.room store.old }
    ensures follows { S.Store.follows store.old store.new }
{
    let place = store.count();
    let length = image_bytes(rows);
    let spare = store.capacity() - place;
    append_checked(rows, store, Saved { place, length }, spare)
}
