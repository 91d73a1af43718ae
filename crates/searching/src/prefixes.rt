//! What is left of an output behind a prefix.
ghost use Rattle.outputs.specs.Joins.{Tells};
ghost use Rattle.searching.specs.Searches.{Left};

use outputs::output::Output;

/// Whether a part is all that it has in common with an output, and so a prefix of it.
fn is_prefix<O: Output>(part: &O, output: &O) -> bool
    ensures { Tells (O.Output.kind.common (O.Output.meaning part.now) (O.Output.meaning output.now)) (O.Output.meaning part.now) result }
{
    part.common(output).same(part)
}

/// What follows a part in an output, if the part is a prefix of it.
pub fn left<O: Output>(output: &O, part: &O) -> Option<O>
    ensures { Left O.Output.kind O.Output.meaning (O.Output.meaning part.now) (O.Output.meaning output.now) result }
{
    is_prefix(part, output).then(|| output.rest(part))
}
