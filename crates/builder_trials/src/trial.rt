//! A trial: a list given to a builder in some memory, and held to what the definitions say.
use crate::agreeing::{agrees, records_of};
use crate::building::{Built, build_list, number_of};
use adding::refusal::AddRefusal;
use builder::Sealed;
use lending::Lent;
use naive::adding::{Reason, Room, answers_to};
use output_trials::twin::Twin;
use reference::compiling::compile;
use reference::fault::Fault;
use reference::numbers::Numbers;
use sheets::Pair;
use std::alloc::Global;

/// What came of trials.
#[derive(Clone, Copy)]
pub struct Score {
    /// How many lists were tried.
    pub lists: usize,
    /// How often an add took its pair, or refused it with each number.
    pub answers: Numbers,
    /// How many sealed dictionaries were compared.
    pub machines: usize,
    /// How many answers and dictionaries are other than expected.
    pub differ: usize,
}

impl Score {
    pub fn new() -> Score {
        Score {
            lists: 0,
            answers: Numbers::new(),
            machines: 0,
            differ: 0,
        }
    }

    fn judge(&mut self, agrees: bool) {
        if !agrees {
            self.differ = self.differ.saturating_add(1);
        }
    }
}

/// Gives a list to a builder in memory of its own, and holds each answer and the sealed dictionary to what is expected. It gives the builder's answers.
pub fn try_list<V: Twin>(
    heap: Global,
    pairs: &[Pair<V>],
    room: Room,
    score: &mut Score,
) -> Result<Vec<Result<(), AddRefusal>>, Fault> {
    let expected = answers_to(heap, pairs, room)?;
    let mut lent = Lent::new(heap, room.states, room.arcs, room.states)?;
    let Built { answers, sealed } = build_list(heap, pairs, &mut lent)?;
    score.lists = score.lists.saturating_add(1);
    if let Some(agrees) = is_expected(heap, expected.taken.as_slice(), &sealed)? {
        score.machines = score.machines.saturating_add(1);
        score.judge(agrees);
    }
    hold_answers(answers.as_slice(), expected.answers.as_slice(), score);
    Ok(answers)
}

/// Whether a sealed dictionary is the machine of the pairs taken; nothing where none was taken.
fn is_expected<'a, V: Twin>(
    heap: Global,
    taken: &[Pair<V>],
    sealed: &Sealed<'a, V::Proved>,
) -> Result<Option<bool>, Fault> {
    if taken.is_empty() {
        return Ok(None);
    }
    let machine = compile(heap, taken)?;
    let counts = sealed.counts();
    let counted = counts.states == machine.states.len() && counts.arcs == machine.arc_count();
    Ok(Some(counted && agrees(&machine, &records_of(sealed))))
}

/// Counts the answers and those that are other than expected.
fn hold_answers(
    answers: &[Result<(), AddRefusal>],
    expected: &[Result<(), Reason>],
    score: &mut Score,
) {
    for (answer, expected) in answers.iter().zip(expected) {
        let number = number_of(answer);
        score.answers.note(number);
        score.judge(number == expected.as_ref().err().map(|reason| reason.number()));
    }
}
