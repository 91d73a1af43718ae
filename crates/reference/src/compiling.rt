// The minimal transducer of a list of pairs, straight from its definition: every prefix of a key is compared with every class found so far.
use crate::fault::Fault;
use crate::machine::{Arc, Machine, State};
use crate::values::Value;
use sheets::Pair;
use std::alloc::Global;
use std::cmp::Ordering;

// The most bytes of a key.
const LONGEST_KEY: usize = 64;

// What is left behind a prefix.
#[derive(Drop)]
struct Residual<V> {
    // The greatest common output of the keys that begin with the prefix.
    common: V,
    // For each of these keys its rest behind the prefix, with the rest of its output behind `common`.
    rests: Vec<Pair<V>>,
}

// Prefixes whose residuals are equal.
#[derive(Drop)]
struct Class<'a, V> {
    // The first of them in postorder.
    prefix: &'a [u8],
    // That of `prefix`; the others have the same rests, but their greatest common outputs may differ.
    residual: Residual<V>,
}

// A prefix with its greatest common output and the number of its class.
#[derive(Drop)]
struct Member<'a, V> {
    prefix: &'a [u8],
    common: V,
    class: usize,
}

pub fn compile<V: Value>(heap: Global, pairs: &[Pair<V>]) -> Result<Machine<V>, Fault> {
    check_order(pairs)?;
    let prefixes = postorder(heap, pairs)?;
    let mut classes = Vec::new(heap);
    let mut members = Vec::new(heap);
    for prefix in prefixes {
        let member = classify(heap, pairs, prefix, &mut classes)?;
        members.push(member)?;
    }
    let mut states = Vec::new(heap);
    for class in classes.iter() {
        states.push(state_of(heap, &members, class)?)?;
    }
    let start = common_output(heap, pairs, b"")?;
    Ok(Machine {
        keys: pairs.len(),
        start,
        states,
    })
}

// Each key has at most 64 bytes and is above the one before it.
fn check_order<V>(pairs: &[Pair<V>]) -> Result<(), Fault> {
    if pairs.iter().any(|pair| pair.key.len() > LONGEST_KEY) {
        return Err(Fault::LongKey);
    }
    if !pairs.is_sorted_by(|lower, higher| lower.key < higher.key) {
        return Err(Fault::OutOfOrder);
    }
    Ok(())
}

// Every prefix of a key once, in postorder.
fn postorder<'a, V>(heap: Global, pairs: &'a [Pair<V>]) -> Result<Vec<&'a [u8]>, Fault> {
    let mut prefixes = Vec::new(heap);
    for pair in pairs {
        let key = pair.key.as_slice();
        for length in 0..=key.len() {
            prefixes.push(&key[..length])?;
        }
    }
    prefixes.sort_by(|one, other| in_postorder(*one, *other))?;
    prefixes.dedup();
    Ok(prefixes)
}

// A prefix comes behind the longer ones that begin with it, otherwise the lower comes first.
fn in_postorder(one: &[u8], other: &[u8]) -> Ordering {
    if one.starts_with(other) || other.starts_with(one) {
        other.len().cmp(&one.len())
    } else {
        one.cmp(&other)
    }
}

// The greatest common output of the keys that begin with a prefix.
fn common_output<V: Value>(heap: Global, pairs: &[Pair<V>], prefix: &[u8]) -> Result<V, Fault> {
    let mut outputs = pairs
        .iter()
        .filter(|pair| pair.key.starts_with(prefix))
        .map(|pair| &pair.output);
    let first = outputs.next().ok_or(Fault::Empty)?.clone()?;
    outputs.try_fold(first, |common, output| output.common(heap, &common))
}

fn residual_of<V: Value>(
    heap: Global,
    pairs: &[Pair<V>],
    prefix: &[u8],
) -> Result<Residual<V>, Fault> {
    let common = common_output(heap, pairs, prefix)?;
    let mut rests = Vec::new(heap);
    for pair in pairs {
        if let Some(rest) = pair.key.strip_prefix(prefix) {
            let key = rest.to_vec(heap)?;
            let output = pair.output.rest(heap, &common)?;
            rests.push(Pair { key, output })?;
        }
    }
    Ok(Residual { common, rests })
}

// Finds the class of a prefix, which is a new one where no earlier prefix has its rests.
fn classify<'a, V: Value>(
    heap: Global,
    pairs: &[Pair<V>],
    prefix: &'a [u8],
    classes: &mut Vec<Class<'a, V>>,
) -> Result<Member<'a, V>, Fault> {
    let residual = residual_of(heap, pairs, prefix)?;
    let common = residual.common.clone()?;
    let known = classes
        .iter()
        .position(|class| class.residual.rests == residual.rests);
    let class = known.unwrap_or(classes.len());
    if known.is_none() {
        classes.push(Class { prefix, residual })?;
    }
    Ok(Member {
        prefix,
        common,
        class,
    })
}

// The state of a class: an arc for each prefix that is one byte longer than the class's own.
fn state_of<V: Value>(
    heap: Global,
    members: &Vec<Member<'_, V>>,
    class: &Class<'_, V>,
) -> Result<State<V>, Fault> {
    let Residual { common, rests } = &class.residual;
    let mut arcs = Vec::new(heap);
    for member in members.iter() {
        if let Some([byte]) = member.prefix.strip_prefix(class.prefix) {
            let output = member.common.rest(heap, common)?;
            arcs.push(Arc {
                byte: *byte,
                target: member.class,
                output,
            })?;
        }
    }
    Ok(State {
        keys: rests.len(),
        end: end_of(rests.as_slice())?,
        arcs,
    })
}

// The output of the empty rest, if a key ends here.
fn end_of<V: Value>(rests: &[Pair<V>]) -> Result<Option<V>, Fault> {
    let end = rests.iter().find(|rest| rest.key.is_empty());
    Ok(end.map(|rest| rest.output.clone()).transpose()?)
}
