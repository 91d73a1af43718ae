// Whether two records are equal by what their outputs mean.
ghost use Rattle.outputs.specs.Joins.{Tells};
ghost use Rattle.records.specs.Holding.{arc_of, arcs_of, end_of};

use outputs::output::Output;
use records::record::{Arc, State};

// Whether two records both have no end output, or equal ones.
pub fn same_end<O: Output>(a: &State<O>, b: &State<O>) -> bool
    ensures { Tells (end_of O.Output.meaning a.now) (end_of O.Output.meaning b.now) result }
{
    match (&a.end, &b.end) {
        (Some(end), Some(other)) => end.same(other),
        (None, None) => true,
        _ => false,
    }
}

pub fn same_arc<O: Output>(a: &Arc<O>, b: &Arc<O>) -> bool
    ensures { Tells (arc_of O.Output.meaning a.now) (arc_of O.Output.meaning b.now) result }
{
    a.byte == b.byte && a.target == b.target && a.output.same(&b.output)
}

pub fn same_arcs<O: Output>(a: &[Arc<O>], b: &[Arc<O>]) -> bool
    ensures { Tells (arcs_of O.Output.meaning a.now) (arcs_of O.Output.meaning b.now) result }
{
    a.len() == b.len() && a.iter().zip(b).all(|(arc, other)| same_arc(arc, other))
}
