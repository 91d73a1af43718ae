//! What programs print of the sheets: the figures of each beside those expected, and its states.
#![tactic(auto)]

use output_trials::twin::Twin;
use reference::compiling::compile;
use reference::image::{hexadecimal, image};
use reference::machine::Machine;
use reference::samples::{Detail, SHEETS, Sheet, read_pairs};
use reference::tally::Tally;
use reference::values::{Kind, PlainNumber, PlainText, Value};
use sheets::Pair;
use std::alloc::{AllocError, Global};

/// What is done with a sheet at the outputs of its kind.
pub trait AtKind {
    fn at<V: Twin>(&mut self, sheet: &Sheet) -> anyhow::Result<()>;
}

/// Goes over all sheets.
pub fn at_each_sheet<T: AtKind>(task: &mut T) -> anyhow::Result<()> {
    for sheet in SHEETS.iter() {
        match sheet.kind {
            Kind::Numbers => task.at::<PlainNumber>(sheet)?,
            Kind::Texts => task.at::<PlainText>(sheet)?,
        }
    }
    Ok(())
}

/// The pairs of a sheet, and the image of their machine.
#[derive(Drop)]
pub struct Compiled<V> {
    pub pairs: Vec<Pair<V>>,
    pub image: Vec<u8>,
}

/// Compiles a sheet by brute force, and prints what comes out.
pub fn print_compiled<V: Value>(
    rt: &HostRuntime,
    sheet: &Sheet,
    figures: &mut Tally,
) -> anyhow::Result<Compiled<V>> {
    let heap = rt.alloc();
    let pairs = read_pairs::<V>(heap, sheet.pairs)?;
    let machine = compile(heap, pairs.as_slice())?;
    let image = image(heap, &machine)?;
    let name = sheet.name;
    let text = sheet.pairs;
    println!(rt; "{name}: {text}")?;
    let keys = machine.keys;
    let states = figures.figure(heap, machine.states.len(), sheet.states)?;
    let arcs = figures.figure(heap, machine.arc_count(), sheet.arcs)?;
    let length = figures.figure(heap, image.len(), sheet.bytes)?;
    println!(rt; "  pairs {keys}, states {states}, arcs {arcs}, bytes {length}")?;
    print_machine(rt, &machine)?;
    if let Some(detail) = sheet.detail {
        print_detail(rt, detail, &machine, image.as_slice(), figures)?;
    }
    Ok(Compiled { pairs, image })
}

fn print_machine<V: Value>(rt: &HostRuntime, machine: &Machine<V>) -> anyhow::Result<()> {
    let start = &machine.start;
    println!(rt; "  start {start}")?;
    for (number, state) in machine.states.iter().enumerate() {
        println!(rt; "  {number}: {state}")?;
    }
    Ok(())
}

fn print_detail<V: Value>(
    rt: &HostRuntime,
    detail: Detail,
    machine: &Machine<V>,
    image: &[u8],
    figures: &mut Tally,
) -> anyhow::Result<()> {
    let heap = rt.alloc();
    match detail {
        Detail::Arc(along, expected) => {
            let found = shown(heap, machine.arc_output(along.as_bytes()))?;
            let figure = figures.figure(heap, found.as_str(), expected)?;
            println!(rt; "  the arc at the end of {along} puts out {figure}")?;
        }
        Detail::End(key, expected) => {
            let found = shown(heap, machine.end_output(key.as_bytes()))?;
            let figure = figures.figure(heap, found.as_str(), expected)?;
            println!(rt; "  the end of {key} puts out {figure}")?;
        }
        Detail::Image(expected) => {
            let found = hexadecimal(heap, image)?;
            let verdict = figures.judge(found.as_str() == expected);
            println!(rt; "  image {found}")?;
            println!(rt; "     is {expected} ({verdict})")?;
        }
    }
    Ok(())
}

fn shown<V: Value>(heap: Global, output: Option<&V>) -> Result<String, AllocError> {
    match output {
        Some(output) => output.to_string(heap),
        None => String::from_str(heap, "nothing"),
    }
}

/// How the calls of the crate `outputs` came out.
pub fn print_calls(rt: &HostRuntime, calls: Tally) -> anyhow::Result<()> {
    let Tally { agree, differ } = calls;
    println!(rt; "the calls of the crate outputs: {agree} answers agree, {differ} differ")?;
    Ok(())
}

/// How all figures came out.
pub fn print_figures(rt: &HostRuntime, figures: Tally) -> anyhow::Result<()> {
    let count = SHEETS.len();
    let Tally { agree, differ } = figures;
    println!(rt; "{count} sheets, {agree} figures agree, {differ} differ")?;
    Ok(())
}
