//! Asking an image.
use crate::fault::Fault;
use crate::questions::Questions;
use loading::Loaded;
use outputs::output::Output;
use reading::find;
use sheets::Pair;
use stores::Store;

/// How many strings are keys, and the last output that was found.
#[derive(Clone, Copy)]
pub struct Tally<O> {
    pub found: usize,
    pub last: O,
}

impl<O: Output> Tally<O> {
    /// Whether both came of the same answers, as far as a tally tells.
    pub fn same(&self, other: &Tally<O>) -> bool {
        self.found == other.found && self.last.same(&other.last)
    }
}

/// Looks all strings up.
pub fn ask_all<O: Output, S: Store>(loaded: &Loaded<O, S>, questions: &Questions) -> Tally<O> {
    let mut tally = Tally {
        found: 0,
        last: O::empty(),
    };
    for question in questions.iter() {
        if let Ok(Some(output)) = find(loaded, question) {
            tally.found = tally.found.saturating_add(1);
            tally.last = output;
        }
    }
    tally
}

/// Each key has its output.
pub fn check_keys<O: Output, S: Store>(
    loaded: &Loaded<O, S>,
    pairs: &[Pair<O>],
) -> Result<(), Fault> {
    for (i, pair) in pairs.iter().enumerate() {
        match find(loaded, pair.key.as_slice()) {
            Ok(Some(output)) if output.same(&pair.output) => {}
            _ => return Err(Fault::Answer(i.saturating_add(1))),
        }
    }
    Ok(())
}

/// No string is a key.
pub fn check_misses<O: Output, S: Store>(
    loaded: &Loaded<O, S>,
    misses: &Questions,
) -> Result<(), Fault> {
    if ask_all(loaded, misses).found > 0 {
        return Err(Fault::Miss);
    }
    Ok(())
}
