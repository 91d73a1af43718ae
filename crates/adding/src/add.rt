//! A pair is taken, in five steps.
ghost use Rattle.adding.specs.Adding.{Ready, SameRooms, Adds};

use crate::admission::admit;
use crate::extending::{extend, open_root};
use crate::refusal::AddRefusal;
use closing::close_beyond;
use outputs::output::Output;
use pushing::along::push_along;
use records::memory::Core;

/// Adds a pair, or refuses it and leaves all as it was.
pub fn add<'a, O: Output>(core: &mut Core<'a, O>, key: &[u8], output: O) -> Result<(), AddRefusal>
    requires { Ready core.old }
    ensures ready { Ready core.new }
    ensures rooms { SameRooms core.old core.new }
    ensures adds { Adds O.Output.kind O.Output.digested O.Output.meaning key.now (O.Output.meaning output) core.old core.new result }
{
    let depth = admit(core, key)?;
    open_root(core, output);
    close_beyond(core, depth);
    let left = push_along(core, depth, output);
    extend(core, key, depth, left);
    Ok(())
}
