// Some thousands of thrown lists given to the builder.
use builder_trials::lists::{ListDice, Thrown, thrown_list, thrown_room};
use builder_trials::trial::{Score, try_list};
use reference::fault::Fault;
use reference::values::{PlainNumber, PlainText};
use std::alloc::Global;

// How many lists of each kind.
const LISTS: usize = 2000;

pub fn print_thrown(rt: &HostRuntime) -> anyhow::Result<()> {
    let heap = rt.alloc();
    let mut numbers = Score::new();
    let mut texts = Score::new();
    let mut dice = ListDice::new(0x5A4B_4A4F_4C4D);
    try_lists::<PlainNumber>(heap, &mut dice, &mut numbers)?;
    try_lists::<PlainText>(heap, &mut dice, &mut texts)?;
    print_score(rt, "thrown lists of numbers", &numbers)?;
    print_score(rt, "thrown lists of texts", &texts)
}

fn try_lists<V: Thrown>(heap: Global, dice: &mut ListDice, score: &mut Score) -> Result<(), Fault> {
    for _ in 0..LISTS {
        let pairs = thrown_list::<V>(heap, dice)?;
        let room = thrown_room(dice);
        let _ = try_list(heap, pairs.as_slice(), room, score)?;
    }
    Ok(())
}

pub fn print_score(rt: &HostRuntime, name: &str, score: &Score) -> anyhow::Result<()> {
    let Score {
        lists,
        answers,
        machines,
        differ,
    } = *score;
    let taken = answers.taken;
    let long = answers.refused(5);
    let order = answers.refused(6);
    let states = answers.refused(8);
    let arcs = answers.refused(9);
    println!(rt;
        "{lists} {name}: {taken} pairs taken, refused with 5: {long}, with 6: {order}, with 8: {states}, with 9: {arcs}"
    )?;
    println!(rt;
        "  {machines} sealed dictionaries compared record by record, {differ} answers or records differ"
    )?;
    Ok(())
}
