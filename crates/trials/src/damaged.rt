// Images that are damaged or made up, given to load.
use image_trials::damage::{Readings, number_of, read_both, read_damaged};
use image_trials::made_up::{MADE_UP, MadeUp, chain, read_machine};
use loading::LoadRefusal;
use output_trials::twin::Twin;
use reference::compiling::compile;
use reference::fault::Fault;
use reference::image::image;
use reference::machine::Machine;
use reference::samples::{Sheet, read_pairs};
use reference::tally::Tally;
use reference::values::PlainNumber;
use std::alloc::Global;
use tables::{AtKind, at_each_sheet};

// The images of all sheets, given to load with each kind of damage.
#[derive(Drop)]
struct Damaging {
    heap: Global,
    readings: Readings,
}

impl AtKind for Damaging {
    fn at<V: Twin>(&mut self, sheet: &Sheet) -> anyhow::Result<()> {
        let pairs = read_pairs::<V>(self.heap, sheet.pairs)?;
        let machine = compile(self.heap, pairs.as_slice())?;
        let mut bytes = image(self.heap, &machine)?;
        read_damaged::<V>(self.heap, bytes.as_mut_slice(), &mut self.readings)?;
        Ok(())
    }
}

pub fn print_damaged(rt: &HostRuntime, tally: &mut Tally) -> anyhow::Result<()> {
    let heap = rt.alloc();
    let mut readings = Readings::new();
    print_made_up(rt, tally, &mut readings)?;
    let mut damaging = Damaging { heap, readings };
    at_each_sheet(&mut damaging)?;
    print_readings(rt, &damaging.readings)
}

fn print_made_up(
    rt: &HostRuntime,
    tally: &mut Tally,
    readings: &mut Readings,
) -> anyhow::Result<()> {
    let heap = rt.alloc();
    for made in MADE_UP.iter() {
        let MadeUp {
            keys,
            states,
            answer: known,
        } = *made;
        let machine = read_machine::<PlainNumber>(heap, keys, states)?;
        let answer = read_machine_image(heap, &machine, readings)?;
        let expected = known.err().map(|reason| reason.number());
        let verdict = tally.judge(number_of(answer) == expected);
        let found = printed(answer);
        println!(rt; "made up, {keys} keys, {states}: {found} ({verdict})")?;
    }
    let longest = read_machine_image(heap, &chain(heap, 64)?, readings)?;
    let longer = read_machine_image(heap, &chain(heap, 65)?, readings)?;
    let verdict = tally.judge(longest.is_ok() && matches!(longer, Err(LoadRefusal::Target(_))));
    let longest = printed(longest);
    let longer = printed(longer);
    println!(rt; "made up, a key of 64 bytes: {longest}, of 65 bytes: {longer} ({verdict})")?;
    Ok(())
}

// An answer as it is printed: the number of a refusal, or 0.
fn printed(answer: Result<(), LoadRefusal>) -> u8 {
    number_of(answer).unwrap_or(0)
}

// What load answers on the image of a machine.
fn read_machine_image(
    heap: Global,
    machine: &Machine<PlainNumber>,
    readings: &mut Readings,
) -> Result<Result<(), LoadRefusal>, Fault> {
    let mut bytes = image(heap, machine)?;
    let length = bytes.len();
    read_both::<PlainNumber>(heap, bytes.as_mut_slice(), length, readings)
}

fn print_readings(rt: &HostRuntime, readings: &Readings) -> anyhow::Result<()> {
    let Readings {
        images,
        numbers,
        differ,
    } = *readings;
    let taken = numbers.taken;
    println!(rt; "{images} made up and damaged images: {taken} taken")?;
    for number in 16u8..27 {
        let count = numbers.refused(number);
        println!(rt; "  refused with {number}: {count}")?;
    }
    println!(rt; "  {differ} answers differ from the plain reading")?;
    Ok(())
}
