//! The output of a key.
ghost use Rattle.std.specs.Prelude.{◌≡◌};
ghost use Rattle.machines.specs.Machines.{Machine};
ghost use Rattle.machines.specs.Asked.{end_tell, find as find_of};
ghost use Rattle.loading.specs.Loading.{Holds};
ghost use Rattle.reading.specs.Told.{told_of};

use crate::joining::join;
use crate::refusal::ReadRefusal;
use crate::walking::{Reached, walk};
use loading::Loaded;
use lookups::{end_output, open};
use outputs::output::Output;
use stores::Store;

/// The output so far joined to the end output of the state that was reached, if it has one.
fn finish<O: Output, S: Store>(
    loaded: &Loaded<O, S>,
    reached: Reached<O>,
) -> Result<Option<O>, ReadRefusal>
    ensures { (m : Machine O.Output.kind.Ideal) → Holds O.Output.kind O.Output.meaning S.Store.bytes loaded.now m → told_of O.Output.meaning result ≡ end_tell O.Output.kind m.states reached.state (O.Output.meaning reached.output) }
{
    let Some(opened) = open(loaded, reached.state) else {
        return Ok(None);
    };
    let Some(end) = end_output(loaded, opened) else {
        return Ok(None);
    };
    let output = join(reached.output, end)?;
    Ok(Some(output))
}

/// The output of a key, and `None` for a string that is no key.
///
/// It refuses exactly if a join on the way is not storable, which no image of a dictionary has.
pub fn find<O: Output, S: Store>(
    loaded: &Loaded<O, S>,
    key: &[u8],
) -> Result<Option<O>, ReadRefusal>
    ensures { (m : Machine O.Output.kind.Ideal) → Holds O.Output.kind O.Output.meaning S.Store.bytes loaded.now m → told_of O.Output.meaning result ≡ find_of O.Output.kind m key.now }
{
    let Some(reached) = walk(loaded, key)? else {
        return Ok(None);
    };
    finish(loaded, reached)
}
