//! A list of pairs given to a builder: what each add answers, and what is sealed.
ghost use Rattle.std.specs.Prelude.{◌≡◌, All, IfNone, IfOk, IfSome, map};
ghost use Rattle.std.proofs.Math.Option.{none, some};
ghost use Rattle.adding.specs.Refusals.{told};
ghost use Rattle.builder_trials.specs.Lists.{keys_of, meant, Ran, RanKeys};

use adding::refusal::AddRefusal;
use builder::Sealed;
use lending::Lent;
use output_trials::twin::Twin;
use outputs::output::Output;
use reference::fault::Fault;
use sheets::Pair;
use std::alloc::Global;

/// The answers to the pairs of a list in turn, and what is sealed.
#[derive(Drop)]
pub struct Built<'a, O: Output> {
    pub answers: Vec<Result<(), AddRefusal>>,
    pub sealed: Sealed<'a, O>,
}

/// A pair for a builder, with its answer.
#[derive(Drop)]
pub struct Line<O> {
    pub pair: Pair<O>,
    pub answer: Result<(), AddRefusal>,
}

/// The pairs of a list, not yet answered.
pub fn lines_of<V: Twin>(heap: Global, pairs: &[Pair<V>]) -> Result<Vec<Line<V::Proved>>, Fault>
    ensures keys { IfOk result (λ lines. keys_of (map (λ line. line.pair) lines.items) ≡ keys_of pairs.now) }
    ensures unanswered { IfOk result (λ lines. All (λ line. told line.answer ≡ none) lines.items) }
{
    let mut lines = Vec::new(heap);
    for pair in pairs {
        lines.push(Line {
            pair: Pair {
                key: pair.key.clone()?,
                output: pair.output.proved()?,
            },
            answer: Ok(()),
        })?;
    }
    Ok(lines)
}

/// Adds the pairs in turn, notes the answers, and seals.
pub fn build<'a, O: Output>(lines: &mut [Line<O>], lent: &'a mut Lent<O>) -> Sealed<'a, O>
    ensures pairs { map (λ line. line.pair) lines.new ≡ map (λ line. line.pair) lines.old }
    ensures ran { Ran O.Output.kind O.Output.meaning lent.old (meant O.Output.kind O.Output.meaning (map (λ line. line.pair) lines.old)) (map (λ line. told line.answer) lines.new) result.core }
{
    let mut builder = lent.builder();
    for line in lines {
        line.answer = builder.add(line.pair.key.as_slice(), line.pair.output);
    }
    builder.seal()
}

/// The same of a list of plain pairs, with memory for the answers alone: lines would copy the keys.
pub fn build_list<'a, V: Twin>(
    heap: Global,
    pairs: &[Pair<V>],
    lent: &'a mut Lent<V::Proved>,
) -> Result<Built<'a, V::Proved>, Fault>
    ensures ran { IfOk result (λ built. RanKeys V.Proved.Output.kind V.Proved.Output.meaning lent.old (keys_of pairs.now) (map (λ answer. told answer) built.answers.items) built.sealed.core) }
{
    let mut builder = lent.builder();
    let mut answers = Vec::new(heap);
    for pair in pairs {
        let output = pair.output.proved()?;
        answers.push(builder.add(pair.key.as_slice(), output))?;
    }
    Ok(Built {
        answers,
        sealed: builder.seal(),
    })
}

/// The number of a refusal, if an answer is one.
pub fn number_of(answer: &Result<(), AddRefusal>) -> Option<u8>
    ensures refused { IfSome result (λ number. told answer.now ≡ some number) }
    ensures taken { IfNone result (told answer.now ≡ none) }
{
    answer.as_ref().err().map(|refusal| refusal.number())
}
