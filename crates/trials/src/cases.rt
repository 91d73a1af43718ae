// Single lists whose answers are known.
use adding::refusal::AddRefusal;
use builder_trials::building::number_of;
use builder_trials::trial::{Score, try_list};
use naive::adding::Room;
use reference::samples::read_pairs;
use reference::tally::Tally;
use reference::values::PlainNumber;
use std::alloc::{AllocError, Global};

// A list as in a sheet, in memory for so many states and arcs, with the answers that are known.
#[derive(Clone, Copy)]
struct Case {
    states: usize,
    arcs: usize,
    pairs: &'static str,
    answers: &'static [Result<(), AddRefusal>],
}

static CASES: [Case; 7] = [
    Case {
        states: 4,
        arcs: 9,
        pairs: "ab=1 bcd=2 ac=3",
        answers: &[Ok(()), Err(AddRefusal::NoStateRoom), Ok(())],
    },
    Case {
        states: 3,
        arcs: 9,
        pairs: "ab=1 b=2",
        answers: &[Ok(()), Err(AddRefusal::NoStateRoom)],
    },
    Case {
        states: 4,
        arcs: 9,
        pairs: "ab=1 b=2",
        answers: &[Ok(()), Ok(())],
    },
    Case {
        states: 9,
        arcs: 1,
        pairs: "a=1 ab=2 b=3",
        answers: &[
            Ok(()),
            Err(AddRefusal::NoArcRoom),
            Err(AddRefusal::NoArcRoom),
        ],
    },
    Case {
        states: 9,
        arcs: 9,
        pairs: "ab=1 ab=1 a=1 =1",
        answers: &[
            Ok(()),
            Err(AddRefusal::OutOfOrder),
            Err(AddRefusal::OutOfOrder),
            Err(AddRefusal::OutOfOrder),
        ],
    },
    Case {
        states: 80,
        arcs: 80,
        pairs: "64-bytes.+.........+.........+.........+.........+.........+....=1 65-bytes.+.........+.........+.........+.........+.........+.....=2",
        answers: &[Ok(()), Err(AddRefusal::LongKey)],
    },
    Case {
        states: 0,
        arcs: 9,
        pairs: "=1 ab=2",
        answers: &[Err(AddRefusal::NoStateRoom), Err(AddRefusal::NoStateRoom)],
    },
];

pub fn print_cases(rt: &HostRuntime, tally: &mut Tally, score: &mut Score) -> anyhow::Result<()> {
    let heap = rt.alloc();
    for case in CASES.iter() {
        let Case {
            states,
            arcs,
            pairs: text,
            answers: known,
        } = *case;
        let pairs = read_pairs::<PlainNumber>(heap, text)?;
        let answers = try_list(heap, pairs.as_slice(), Room { states, arcs }, score)?;
        let verdict = tally.judge(answers.as_slice() == known);
        let shown = shown_answers(heap, answers.as_slice())?;
        println!(rt; "{states} states and {arcs} arcs, {text}: {shown} ({verdict})")?;
    }
    Ok(())
}

fn shown_answers(heap: Global, answers: &[Result<(), AddRefusal>]) -> Result<String, AllocError> {
    let words: Vec<String> = answers
        .iter()
        .map(|answer| shown_answer(heap, answer))
        .try_collect(heap)?;
    words.join(heap, ", ")
}

fn shown_answer(heap: Global, answer: &Result<(), AddRefusal>) -> Result<String, AllocError> {
    match number_of(answer) {
        None => String::from_str(heap, "taken"),
        Some(number) => number.to_string(heap),
    }
}
