// All strings over a and b up to a length, in ascending order, each with the number of its b: many keys, and one state for each length.
use adding::refusal::AddRefusal;
use builder::{Builder, Sealed};
use builder_trials::agreeing::{answer, records_of};
use builder_trials::building::number_of;
use lending::Lent;
use outputs::number::Number;
use reference::fault::Fault;
use reference::tally::Tally;
use std::alloc::Global;

// The strings up to a length.
#[derive(Clone, Copy)]
struct Strings {
    longest: usize,
    // How many there are.
    count: usize,
    // How c is answered behind them.
    again: Result<(), AddRefusal>,
}

static STRINGS: [Strings; 2] = [
    Strings {
        longest: 12,
        count: 8191,
        again: Ok(()),
    },
    Strings {
        longest: 19,
        count: 1048575,
        again: Err(AddRefusal::TooManyPairs),
    },
];

// Enough states, arcs and slots for the builder.
const ROOM: usize = 100;

pub fn print_letters(rt: &HostRuntime, tally: &mut Tally) -> anyhow::Result<()> {
    for strings in STRINGS.iter() {
        print_strings(rt, strings, tally)?;
    }
    Ok(())
}

fn print_strings(rt: &HostRuntime, strings: &Strings, tally: &mut Tally) -> anyhow::Result<()> {
    let heap = rt.alloc();
    let mut lent = Lent::new(heap, ROOM, ROOM, ROOM)?;
    let mut builder = lent.builder();
    let added = add_strings(heap, strings, &mut builder)?;
    let again = builder.add(b"c", Number { value: 0 });
    let sealed = builder.seal();
    let answered = right_answers(heap, strings, &sealed)?;
    let longest = strings.longest;
    let taken = tally.figure(heap, added, strings.count)?;
    let right = tally.figure(heap, answered, strings.count)?;
    println!(rt;
        "all strings over a and b up to {longest} bytes: taken {taken}, answered rightly {right}"
    )?;
    print_counts(rt, strings, &sealed, again, tally)
}

// With c besides, the keys end in one state more than there are lengths only where c is taken.
fn print_counts<'a>(
    rt: &HostRuntime,
    strings: &Strings,
    sealed: &Sealed<'a, Number>,
    again: Result<(), AddRefusal>,
    tally: &mut Tally,
) -> anyhow::Result<()> {
    let heap = rt.alloc();
    let counts = sealed.counts();
    let expected_states = strings.longest.saturating_add(1);
    let expected_arcs = strings
        .longest
        .saturating_mul(2)
        .saturating_add(usize::from(again.is_ok()));
    let states = tally.figure(heap, counts.states, expected_states)?;
    let arcs = tally.figure(heap, counts.arcs, expected_arcs)?;
    let verdict = tally.judge(again == strings.again);
    let again = number_of(&again).unwrap_or(0);
    println!(rt; "  then c: {again} ({verdict}); states {states}, arcs {arcs}")?;
    Ok(())
}

// Adds the strings in turn, and counts those that are taken.
fn add_strings<'a>(
    heap: Global,
    strings: &Strings,
    builder: &mut Builder<'a, Number>,
) -> Result<usize, Fault> {
    strings.count_where(heap, |key, number| builder.add(key, number).is_ok())
}

// How many strings are answered with the number of their b.
fn right_answers<'a>(
    heap: Global,
    strings: &Strings,
    sealed: &Sealed<'a, Number>,
) -> Result<usize, Fault> {
    let rows = records_of(sealed);
    strings.count_where(heap, |key, number| answer(&rows, key) == Some(number))
}

impl Strings {
    // For how many strings a test holds, which is given each in turn with the number of its b.
    fn count_where<F: FnMut(&[u8], Number) -> bool>(
        &self,
        heap: Global,
        mut test: F,
    ) -> Result<usize, Fault>
        requires { F.IsAlwaysCallable test }
    {
        let mut count: usize = 0;
        let mut key: Vec<u8> = Vec::new(heap);
        for _ in 0..self.count {
            let value = count_b(key.as_slice());
            if test(key.as_slice(), Number { value }) {
                count = count.saturating_add(1);
            }
            advance(&mut key, self.longest)?;
        }
        Ok(count)
    }
}

fn count_b(key: &[u8]) -> u32 {
    key.iter().fold(0u32, |count, byte| {
        count.saturating_add(u32::from(*byte == b'b'))
    })
}

// The next string: one byte more, or the last a turned to b.
fn advance(key: &mut Vec<u8>, longest: usize) -> Result<(), Fault> {
    if key.len() < longest {
        key.push(b'a')?;
        return Ok(());
    }
    for _ in 0..longest {
        if key.pop() == Some(b'a') {
            break;
        }
    }
    key.push(b'b')?;
    Ok(())
}
