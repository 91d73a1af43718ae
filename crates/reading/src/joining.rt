//! Joining outputs on the way.
ghost use Rattle.std.specs.Prelude.{◌≡◌};
ghost use Rattle.machines.specs.Asked.{joined};
ghost use Rattle.reading.specs.Told.{told_join};

use crate::refusal::ReadRefusal;
use outputs::output::Output;

/// The first output and then the second, if that is storable.
pub(crate) fn join<O: Output>(first: O, second: O) -> Result<O, ReadRefusal>
    ensures { told_join O.Output.meaning result ≡ joined O.Output.kind (O.Output.meaning first) (O.Output.meaning second) }
{
    if !first.joins(&second) {
        return Err(ReadRefusal::Unstorable);
    }
    Ok(first.join(&second))
}
