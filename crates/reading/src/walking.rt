//! The way along a string: the state and the output so far.
ghost use Rattle.std.specs.Prelude.{◌≡◌, [], ◌∷◌};
ghost use Rattle.machines.specs.Machines.{Machine};
ghost use Rattle.machines.specs.Asked.{walk_from, walk as walk_of};
ghost use Rattle.loading.specs.Loading.{Holds};
ghost use Rattle.reading.specs.Told.{told_walk};

use crate::joining::join;
use crate::refusal::ReadRefusal;
use crate::seeking::arc_place;
use loading::Loaded;
use lookups::{arc_output, target_at};
use outputs::output::Output;
use stores::Store;

/// Where a string leads to.
#[derive(Clone, Copy)]
pub struct Reached<O: Copy> {
    pub state: usize,
    /// The start output joined to the outputs along the string.
    pub output: O,
}

/// One byte further from where a string leads to.
fn step<O: Output, S: Store>(
    loaded: &Loaded<O, S>,
    reached: Reached<O>,
    byte: u8,
) -> Result<Option<Reached<O>>, ReadRefusal>
    ensures { (m : Machine O.Output.kind.Ideal) → Holds O.Output.kind O.Output.meaning S.Store.bytes loaded.now m → told_walk O.Output.meaning result ≡ walk_from O.Output.kind m.states reached.state (O.Output.meaning reached.output) (byte ∷ []) }
{
    let Some(place) = arc_place(loaded, reached.state, byte) else {
        return Ok(None);
    };
    let Some((label, _behind)) = arc_output(loaded, place) else {
        return Ok(None);
    };
    let output = join(reached.output, label)?;
    let state = target_at(loaded, place);
    Ok(Some(Reached { state, output }))
}

/// The state and the output so far along a string, from the start.
pub(crate) fn walk<O: Output, S: Store>(
    loaded: &Loaded<O, S>,
    string: &[u8],
) -> Result<Option<Reached<O>>, ReadRefusal>
    ensures { (m : Machine O.Output.kind.Ideal) → Holds O.Output.kind O.Output.meaning S.Store.bytes loaded.now m → told_walk O.Output.meaning result ≡ walk_of O.Output.kind m string.now }
{
    let mut reached = Reached {
        state: loaded.start(),
        output: loaded.start_output(),
    };
    for byte in string {
        let Some(further) = step(loaded, reached, *byte)? else {
            return Ok(None);
        };
        reached = further;
    }
    Ok(Some(reached))
}
