//! Times the dictionary on a sheet, writes images, and answers keys from them.
#![tactic(auto)]

mod answering;
mod asking;
mod commands;
mod compiling;
mod fault;
mod memory;
mod pairs;
mod questions;
mod report;
mod timing;
mod values;

use answering::answer;
use anyhow::anyhow;
use commands::{Task, do_task};
use std::env;

const USAGE: &str = "speed check SHEET        look every key up, and as many near misses
speed time SHEET         the same, and time build, save, load, find and miss
speed write SHEET IMAGE  write the image to a file
speed ask IMAGE          answer the keys on standard input, one a line

A sheet has a line for each key: the key, a TAB, its output; ascending by keys.
Its outputs are numbers if the first is one up to 4294967295, and else texts.";

fn main(rt: HostRuntime) -> anyhow::Result<()> {
    run(&rt)
}

fn run(rt: &HostRuntime) -> anyhow::Result<()> {
    let mut args = env::args(rt)?;
    let _ = args.next();
    let (Some(command), Some(path)) = (args.next(), args.next()) else {
        rt.println(USAGE)?;
        return Ok(());
    };
    let path = path.as_str();
    match (command.as_str(), args.next()) {
        ("check", None) => do_task(rt, path, &Task::Check),
        ("time", None) => do_task(rt, path, &Task::Time),
        ("ask", None) => answer(rt, path),
        ("write", Some(image)) => do_task(rt, path, &Task::Write(image)),
        _ => Err(anyhow!(
            "there is no such command; without words, the program says which there are"
        )),
    }
}
