//! Runs of calls, the same for every store.
ghost use Rattle.std.specs.Prelude.{◌≡◌, min, true, length, take, drop, Decides};
ghost use Rattle.stores.specs.Runs.{answer, after, answers, after_all, Alike};

use crate::{Refusal, Store};

/// A call of a store, as data: the law over runs speaks of lists of calls.
#[derive(Clone, Copy, PartialEq, Eq, Debug)]
pub enum Call {
    Count,
    Capacity,
    At(usize),
    Append(u8),
}

/// What a store tells when it does as it is asked.
#[derive(Clone, Copy, PartialEq, Eq, Debug)]
pub enum Reply {
    /// The count or the capacity.
    Number(usize),
    /// The byte that was asked for.
    Byte(u8),
    /// The byte was appended.
    Done,
}

/// What a store answered.
pub type Answer = Result<Reply, Refusal>;

/// Makes one call.
pub fn ask<S: Store>(store: &mut S, call: Call) -> Answer
    ensures answer { result ≡ answer (S.Store.bytes store.old) (S.Store.room store.old) call }
    ensures bytes { S.Store.bytes store.new ≡ after (S.Store.bytes store.old) (S.Store.room store.old) call }
    ensures room { S.Store.room store.new ≡ S.Store.room store.old }
    ensures follows { S.Store.follows store.old store.new }
{
    match call {
        Call::Count => Ok(Reply::Number(store.count())),
        Call::Capacity => Ok(Reply::Number(store.capacity())),
        Call::At(i) => Ok(Reply::Byte(store.at(i)?)),
        Call::Append(byte) => {
            store.append(byte)?;
            Ok(Reply::Done)
        }
    }
}

/// Makes the calls in turn, as many as `notes` has room for, notes each answer, and says how many it made.
pub fn run<S: Store>(store: &mut S, calls: &[Call], notes: &mut [Answer]) -> usize
    ensures made { result ≡ min (length calls.now) (length notes.old) }
    ensures noted { take result notes.new ≡ answers (S.Store.bytes store.old) (S.Store.room store.old) (take result calls.now) }
    ensures rest { drop result notes.new ≡ drop result notes.old }
    ensures bytes { S.Store.bytes store.new ≡ after_all (S.Store.bytes store.old) (S.Store.room store.old) (take result calls.now) }
    ensures room { S.Store.room store.new ≡ S.Store.room store.old }
    ensures follows { S.Store.follows store.old store.new }
{
    let made = calls.len().min(notes.len());
    // By the index: behind a `zip` of `iter_mut` the proof does not see what the notes hold.
    for (i, note) in notes[..made].iter_mut().enumerate() {
        *note = ask(store, calls[i]);
    }
    made
}

/// Makes the same calls of two stores, and says whether each answer was the same.
///
/// Stores with the same bytes and the same capacity answer alike, refusals included, and are alike again afterwards.
pub fn same_answers<S: Store, T: Store>(one: &mut S, other: &mut T, calls: &[Call]) -> bool
    ensures law { Alike (S.Store.bytes one.old) (S.Store.room one.old) (T.Store.bytes other.old) (T.Store.room other.old) → (result ≡ true) × Alike (S.Store.bytes one.new) (S.Store.room one.new) (T.Store.bytes other.new) (T.Store.room other.new) }
    ensures told { result ≡ true → answers (S.Store.bytes one.old) (S.Store.room one.old) calls.now ≡ answers (T.Store.bytes other.old) (T.Store.room other.old) calls.now }
    ensures one { S.Store.bytes one.new ≡ after_all (S.Store.bytes one.old) (S.Store.room one.old) calls.now }
    ensures other { T.Store.bytes other.new ≡ after_all (T.Store.bytes other.old) (T.Store.room other.old) calls.now }
{
    let mut same = true;
    for call in calls {
        let given = ask(one, *call);
        let reply = ask(other, *call);
        same = still_same(same, given, reply);
    }
    same
}

/// Whether the answers were the same so far, and these two are.
fn still_same(same: bool, given: Answer, reply: Answer) -> bool
    ensures { Decides result ((same ≡ true) × (given ≡ reply)) }
{
    same && given == reply
}
