//! What each command does.
use crate::asking::{ask_all, check_keys, check_misses};
use crate::compiling::{build, compile, open_image, store_image};
use crate::memory::Memory;
use crate::pairs::{Kind, kind_of, read_pairs};
use crate::questions::{QuestionDice, Questions, keys_shuffled, near_misses};
use crate::report::{print_figures, print_time};
use crate::timing::best_time;
use crate::values::Value;
use anyhow::ensure;
use loading::Loaded;
use outputs::number::Number;
use outputs::output::Output;
use outputs::text::Text;
use sheets::Pair;
use std::fs;
use stores::{ByteStore, Store};

/// Where the numbers that look random begin.
const SEED: u64 = 0x9E37_79B9_7F4A_7C15;

/// What is done with a sheet, as a command line asks for it.
#[derive(Drop)]
pub enum Task {
    /// Every key and every near miss is looked up.
    Check,
    /// The same, and each call is timed.
    Time,
    /// The image goes to a file.
    Write(String),
}

/// Does a task with a sheet of either kind. Only two calls are chosen here, so a trait with a generic method would be longer.
pub fn do_task(rt: &HostRuntime, path: &str, task: &Task) -> anyhow::Result<()> {
    let text = fs::read(rt, path)?;
    match kind_of(text.as_slice()) {
        Kind::Numbers => do_with::<Number>(rt, text.as_slice(), task),
        Kind::Texts => do_with::<Text>(rt, text.as_slice(), task),
    }
}

fn do_with<O: Value>(rt: &HostRuntime, text: &[u8], task: &Task) -> anyhow::Result<()> {
    let pairs = read_pairs::<O>(rt.alloc(), text)?;
    let pairs = pairs.as_slice();
    let mut memory = Memory::new(rt.alloc())?;
    match task {
        Task::Check => check_sheet(rt, pairs, &mut memory),
        Task::Time => {
            check_sheet(rt, pairs, &mut memory)?;
            time_sheet(rt, pairs, &mut memory)
        }
        Task::Write(path) => write_image(rt, pairs, &mut memory, path.as_str()),
    }
}

fn check_sheet<O: Value>(
    rt: &HostRuntime,
    pairs: &[Pair<O>],
    memory: &mut Memory<O>,
) -> anyhow::Result<()> {
    let figures = compile(memory, pairs)?;
    print_figures(rt, pairs.len(), figures)?;
    let store = ByteStore::new(memory.image.as_mut_slice(), figures.bytes);
    let loaded = open_image::<O, ByteStore>(&store, memory.working.as_mut_slice())?;
    let misses = near_misses(rt.alloc(), pairs, &mut QuestionDice::new(SEED))?;
    check_keys(&loaded, pairs)?;
    check_misses(&loaded, &misses)?;
    let count = misses.count();
    println!(rt; "every key has its output, and {count} near misses are absent")?;
    Ok(())
}

fn time_sheet<O: Value>(
    rt: &HostRuntime,
    pairs: &[Pair<O>],
    memory: &mut Memory<O>,
) -> anyhow::Result<()> {
    let Memory {
        lent,
        image,
        working,
    } = memory;
    let count = pairs.len();
    let time = best_time(rt, || {
        let _sealed = build(lent, pairs)?;
        Ok(())
    })?;
    print_time(rt, "build", time, count)?;
    let sealed = build(lent, pairs)?;
    let time = best_time(rt, || {
        let _length = store_image(&sealed, image.as_mut_slice())?;
        Ok(())
    })?;
    print_time(rt, "save", time, count)?;
    let bytes = store_image(&sealed, image.as_mut_slice())?;
    let store = ByteStore::new(image.as_mut_slice(), bytes);
    let time = best_time(rt, || {
        let _loaded = open_image::<O, ByteStore>(&store, working.as_mut_slice())?;
        Ok(())
    })?;
    print_time(rt, "load", time, count)?;
    let loaded = open_image::<O, ByteStore>(&store, working.as_mut_slice())?;
    time_finding(rt, pairs, &loaded)
}

fn time_finding<O: Value, S: Store>(
    rt: &HostRuntime,
    pairs: &[Pair<O>],
    loaded: &Loaded<O, S>,
) -> anyhow::Result<()> {
    let mut dice = QuestionDice::new(SEED);
    let keys = keys_shuffled(rt.alloc(), pairs, &mut dice)?;
    let misses = near_misses(rt.alloc(), pairs, &mut dice)?;
    time_find(rt, "find", loaded, &keys)?;
    time_find(rt, "miss", loaded, &misses)
}

/// Times the looking up of all strings, each round with the answers of the first.
fn time_find<O: Output, S: Store>(
    rt: &HostRuntime,
    call: &str,
    loaded: &Loaded<O, S>,
    questions: &Questions,
) -> anyhow::Result<()> {
    let expected = ask_all(loaded, questions);
    let time = best_time(rt, || {
        let tally = ask_all(loaded, questions);
        ensure!(tally.same(&expected), "two rounds have different answers");
        Ok(())
    })?;
    print_time(rt, call, time, questions.count())
}

fn write_image<O: Value>(
    rt: &HostRuntime,
    pairs: &[Pair<O>],
    memory: &mut Memory<O>,
    path: &str,
) -> anyhow::Result<()> {
    let figures = compile(memory, pairs)?;
    memory.image.truncate(figures.bytes);
    fs::write(rt, path, memory.image.as_slice())?;
    print_figures(rt, pairs.len(), figures)
}
