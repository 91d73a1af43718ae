// Runs the dictionary on small sheets and on thrown lists, prints what comes out, and compares it with brute force.
#![tactic(auto)]

mod built;
mod cases;
mod damaged;
mod letters;
mod saved;
mod thrown;

use builder_trials::trial::Score;
use built::print_built;
use cases::print_cases;
use damaged::print_damaged;
use letters::print_letters;
use output_trials::agreement::compare;
use output_trials::twin::Twin;
use reference::samples::Sheet;
use reference::tally::Tally;
use saved::print_saved;
use tables::{AtKind, Compiled, at_each_sheet, print_calls, print_compiled, print_figures};
use thrown::{print_score, print_thrown};

// What came of the trials so far.
#[derive(Drop)]
struct Trials<'a> {
    rt: &'a HostRuntime,
    figures: Tally,
    calls: Tally,
    score: Score,
}

impl AtKind for Trials<'_> {
    fn at<V: Twin>(&mut self, sheet: &Sheet) -> anyhow::Result<()> {
        let Compiled { pairs, image } = print_compiled::<V>(self.rt, sheet, &mut self.figures)?;
        let pairs = pairs.as_slice();
        print_built(self.rt, pairs, &mut self.score)?;
        print_saved(self.rt, pairs, image.as_slice(), &mut self.figures)?;
        compare(self.rt.alloc(), pairs, &mut self.calls)?;
        Ok(())
    }
}

fn main(rt: HostRuntime) -> anyhow::Result<()> {
    run(&rt)
}

fn run(rt: &HostRuntime) -> anyhow::Result<()> {
    let mut trials = Trials {
        rt,
        figures: Tally::new(),
        calls: Tally::new(),
        score: Score::new(),
    };
    at_each_sheet(&mut trials)?;
    let Trials {
        mut figures,
        calls,
        mut score,
        ..
    } = trials;
    print_cases(rt, &mut figures, &mut score)?;
    print_letters(rt, &mut figures)?;
    print_calls(rt, calls)?;
    print_score(rt, "lists of the sheets and cases", &score)?;
    print_thrown(rt)?;
    print_damaged(rt, &mut figures)?;
    print_figures(rt, figures)
}
