// A message committed: it is judged again, and the store changes only where a request was taken.
ghost use Rattle.std.specs.Prelude.{◌<◌, ◌≡◌, length, replicate};
ghost use Rattle.lists.specs.Ladder.{Answers};
ghost use Rattle.station.specs.Handling.{Keeps};
ghost use Rattle.station.specs.Taking.{leaves, taken};

use super::answers::{Answer, Refusal};
use super::judge::{Verdict, answer_of, judge_in};
use tables::limits::Limits;
use working::copies::save_copy;

// Saves what the working copy has where a request was taken.
fn keep(verdict: Verdict, store: &mut [u8], limits: Limits, work: &mut [u8])
    ensures { Keeps verdict limits work.old store.old store.new }
{
    if let Ok((_, Some(copy))) = verdict {
        save_copy(store, work, limits, copy);
    }
}

// A message to a set with these limits, which lends as many bytes to work in as a store has, all 0.
pub(crate) fn commit_in(
    m: &[u8],
    store: &mut [u8],
    reply: &mut [u8],
    limits: Limits,
    work: &mut [u8],
) -> Answer
    requires { (length work.old ≡ limits.size) × (work.old ≡ replicate limits.size 0) }
    ensures { Answers (taken limits m.now store.old reply.old) (leaves result store.new reply.new) }
{
    let verdict = judge_in(m, store, reply, limits, work);
    keep(verdict, store, limits, work);
    answer_of(verdict)
}

// The same for a set that owns the working copy.
pub(crate) fn commit_on<const SIZE: usize>(
    m: &[u8],
    store: &mut [u8],
    reply: &mut [u8],
    limits: Limits,
) -> Answer
    requires { (limits.size ≡ SIZE) × (SIZE < 65536) }
    ensures { Answers (taken limits m.now store.old reply.old) (leaves result store.new reply.new) }
{
    let mut work = [0u8; SIZE];
    commit_in(m, store, reply, limits, &mut work)
}

// The same for any other crate: nothing is done where what is lent to work in has another size than a store.
pub fn commit_for(
    m: &[u8],
    store: &mut [u8],
    reply: &mut [u8],
    limits: Limits,
    work: &mut [u8],
) -> Answer
    ensures { length work.old ≡ limits.size → Answers (taken limits m.now store.old reply.old) (leaves result store.new reply.new) }
{
    if work.len() != limits.size {
        return Answer::Untouched(Refusal::NotAStore);
    }
    work.fill(0);
    commit_in(m, store, reply, limits, work)
}
