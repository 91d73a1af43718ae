//! The arcs of a state, by their places.
//!
//! Each clause speaks of whatever arc stands at the place: in a struct of an image and a place it would be the same.
ghost use Rattle.std.specs.Prelude.{◌≡◌, ◌+◌, ◌^◌, ◌<◌, ◌≤◌, List, length, IfSome};
ghost use Rattle.std.specs.Iterator.{at_most};
ghost use Rattle.machines.specs.Machines.{Arc as Edge};
ghost use Rattle.lookups.specs.Standing.{ArcStands};
ghost use Rattle.lookups.specs.Lookups.{bits_of, OutputRead, RowOf, Next, Gives};

use crate::outputs_at::{behind_output, output_at};
use fields::number_in;
use loading::Loaded;
use outputs::output::Output;
use stores::Store;

/// An arc.
#[derive(Clone, Copy)]
pub struct Arc<O: Copy> {
    pub byte: u8,
    pub target: usize,
    pub output: O,
}

/// Arcs that are still to be read: how many, and where the first begins.
#[derive(Clone, Copy)]
pub struct Row {
    pub left: u32,
    pub place: usize,
}

/// The place that lies so many bits behind a place.
fn further<O: Output, S: Store>(loaded: &Loaded<O, S>, place: usize, by: usize) -> usize
    ensures { place + by ≤ length (bits_of S.Store.bytes loaded.now) → result ≡ place + by }
{
    place.saturating_add(by)
}

/// The byte of the arc at a place.
pub fn byte_at<O: Output, S: Store>(loaded: &Loaded<O, S>, place: usize) -> u8
    ensures { (arc : Edge O.Output.kind.Ideal) → ArcStands O.Output.kind (bits_of S.Store.bytes loaded.now) place arc → result ≡ arc.byte }
{
    number_in(loaded.store(), place, 8) as u8
}

/// The target of the arc at a place.
pub fn target_at<O: Output, S: Store>(loaded: &Loaded<O, S>, place: usize) -> usize
    ensures target { (arc : Edge O.Output.kind.Ideal) → ArcStands O.Output.kind (bits_of S.Store.bytes loaded.now) place arc → result ≡ arc.target }
    ensures fits { result < 2 ^ 16 }
{
    let target_place = further(loaded, place, 8);
    number_in(loaded.store(), target_place, 16) as usize
}

/// The place behind the arc at a place.
pub fn pass_arc<O: Output, S: Store>(loaded: &Loaded<O, S>, place: usize) -> usize
    ensures { (arc : Edge O.Output.kind.Ideal) → ArcStands O.Output.kind (bits_of S.Store.bytes loaded.now) place arc → result ≡ place + 24 + length (O.Output.kind.code arc.output) }
{
    behind_output(loaded, further(loaded, place, 24))
}

/// The output of the arc at a place, and the place behind the arc.
pub fn arc_output<O: Output, S: Store>(loaded: &Loaded<O, S>, place: usize) -> Option<(O, usize)>
    ensures { (arc : Edge O.Output.kind.Ideal) → ArcStands O.Output.kind (bits_of S.Store.bytes loaded.now) place arc → OutputRead O.Output.kind O.Output.meaning (place + 24) arc.output result }
{
    output_at(loaded, further(loaded, place, 24))
}

/// The first arc of a row, and the row behind it.
pub fn next_arc<O: Output, S: Store>(loaded: &Loaded<O, S>, row: Row) -> Option<(Arc<O>, Row)>
    ensures first { (arcs : List (Edge O.Output.kind.Ideal)) → RowOf O.Output.kind (bits_of S.Store.bytes loaded.now) row arcs → Next O.Output.kind O.Output.meaning (bits_of S.Store.bytes loaded.now) arcs result }
    ensures fewer { IfSome result (λ r. r.1.left < row.left) }
{
    if row.left == 0 {
        return None;
    }
    let byte = byte_at(loaded, row.place);
    let target = target_at(loaded, row.place);
    let (output, place) = arc_output(loaded, row.place)?;
    let rest = Row {
        left: row.left - 1,
        place,
    };
    Some((
        Arc {
            byte,
            target,
            output,
        },
        rest,
    ))
}

/// The arcs of a row, one after another. It ends where the row does, and at an arc that cannot be read, which no image that load takes has.
#[derive(Drop)]
pub struct Arcs<'a, O, S> {
    loaded: &'a Loaded<O, S>,
    row: Row,
}

impl<'a, O: Output, S: Store> Arcs<'a, O, S> {
    pub fn new(loaded: &'a Loaded<O, S>, row: Row) -> Arcs<'a, O, S>
        ensures loaded { result.loaded.now ≡ loaded.now }
        ensures row { result.row ≡ row }
    {
        Arcs { loaded, row }
    }
}

impl<O: Output, S: Store> Iterator for Arcs<'_, O, S> {
    type Item = Arc<O>;

    ghost next_gives = { λ s read t. (t.loaded.now ≡ s.loaded.now) × ((arcs : List (Edge O.Output.kind.Ideal)) → RowOf O.Output.kind (bits_of S.Store.bytes s.loaded.now) s.row arcs → Gives O.Output.kind O.Output.meaning (bits_of S.Store.bytes s.loaded.now) arcs read t.row) };

    ghost remaining = { λ s. at_most s.row.left };

    fn next(&mut self) -> Option<Arc<O>> {
        let (arc, rest) = next_arc(self.loaded, self.row)?;
        self.row = rest;
        Some(arc)
    }
}
