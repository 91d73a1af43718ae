// Compiles small sheets by brute force, prints what comes out, and compares it with what is expected.
#![tactic(auto)]

mod stored;

use output_trials::agreement::compare;
use output_trials::twin::Twin;
use reference::samples::Sheet;
use reference::tally::Tally;
use stored::print_stored;
use tables::{AtKind, Compiled, at_each_sheet, print_calls, print_compiled, print_figures};

// What came of the sheets so far.
#[derive(Drop)]
struct Bench<'a> {
    rt: &'a HostRuntime,
    figures: Tally,
    calls: Tally,
}

impl AtKind for Bench<'_> {
    fn at<V: Twin>(&mut self, sheet: &Sheet) -> anyhow::Result<()> {
        let Compiled { pairs, image } = print_compiled::<V>(self.rt, sheet, &mut self.figures)?;
        print_stored(self.rt, image.as_slice())?;
        compare(self.rt.alloc(), pairs.as_slice(), &mut self.calls)?;
        Ok(())
    }
}

fn main(rt: HostRuntime) -> anyhow::Result<()> {
    run(&rt)
}

fn run(rt: &HostRuntime) -> anyhow::Result<()> {
    let mut bench = Bench {
        rt,
        figures: Tally::new(),
        calls: Tally::new(),
    };
    at_each_sheet(&mut bench)?;
    print_calls(rt, bench.calls)?;
    print_figures(rt, bench.figures)
}
