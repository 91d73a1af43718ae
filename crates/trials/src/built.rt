// The pairs of a sheet given to the builder: in the least memory that suffices, and one record short of it.
use adding::refusal::AddRefusal;
use builder_trials::building::number_of;
use builder_trials::trial::{Score, try_list};
use naive::adding::{Room, least_room};
use output_trials::twin::Twin;
use reference::tally::verdict;
use sheets::Pair;
use std::fmt;

// The answers to the pairs of a list, as far as the first refusal.
#[derive(Drop)]
struct Answers(Vec<Result<(), AddRefusal>>);

impl fmt::Display for Answers {
    fn fmt<W: fmt::Write>(&self, f: &mut fmt::Formatter<W>) -> fmt::Result {
        let mut numbers = self.0.iter().map(number_of).enumerate();
        match numbers.find_map(|(place, number)| Some((place, number?))) {
            Some((place, number)) => {
                let pair = place.saturating_add(1);
                write!(f, "pair {pair} refused with {number}")
            }
            None => write!(f, "all pairs taken"),
        }
    }
}

pub fn print_built<V: Twin>(
    rt: &HostRuntime,
    pairs: &[Pair<V>],
    score: &mut Score,
) -> anyhow::Result<()> {
    let heap = rt.alloc();
    let room = least_room(heap, pairs)?;
    let Room { states, arcs } = room;
    let differ = score.differ;
    let whole = Answers(try_list(heap, pairs, room, score)?);
    let fewer_states = Room {
        states: states.saturating_sub(1),
        arcs,
    };
    let fewer_arcs = Room {
        states,
        arcs: arcs.saturating_sub(1),
    };
    let without_state = Answers(try_list(heap, pairs, fewer_states, score)?);
    let without_arc = Answers(try_list(heap, pairs, fewer_arcs, score)?);
    let verdict = verdict(score.differ == differ);
    println!(rt;
        "  built in {states} states and {arcs} arcs: {whole}; a state less: {without_state}; an arc less: {without_arc} ({verdict})"
    )?;
    Ok(())
}
