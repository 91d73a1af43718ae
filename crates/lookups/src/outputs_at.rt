//! Outputs of a loaded image, by their places.
ghost use Rattle.std.specs.Prelude.{◌≡◌, ◌+◌, length};
ghost use Rattle.lookups.specs.Standing.{OutputStands};
ghost use Rattle.lookups.specs.Lookups.{bits_of, OutputRead};

use fields::StoreBits;
use loading::Loaded;
use outputs::output::Output;
use stores::Store;

/// The output at a place, and the place behind it.
pub fn output_at<O: Output, S: Store>(loaded: &Loaded<O, S>, place: usize) -> Option<(O, usize)>
    ensures { (x : O.Output.kind.Ideal) → OutputStands O.Output.kind (bits_of S.Store.bytes loaded.now) place x → OutputRead O.Output.kind O.Output.meaning place x result }
{
    O::read(&StoreBits::new(loaded.store()), place).ok()
}

/// The place behind the output at a place.
pub fn behind_output<O: Output, S: Store>(loaded: &Loaded<O, S>, place: usize) -> usize
    ensures { (x : O.Output.kind.Ideal) → OutputStands O.Output.kind (bits_of S.Store.bytes loaded.now) place x → result ≡ place + length (O.Output.kind.code x) }
{
    output_at(loaded, place).map_or(place, |(_output, behind)| behind)
}
