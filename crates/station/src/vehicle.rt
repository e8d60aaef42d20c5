// The calls of the vehicle, which owns the working copy.
ghost use Rattle.lists.specs.Ladder.{Answers};
ghost use Rattle.tables.specs.Store.{starting, begins};
ghost use Rattle.tables.specs.Limits.{vehicle};
ghost use Rattle.station.specs.Answers.{said};
ghost use Rattle.station.specs.Judging.{Judges};
ghost use Rattle.station.specs.Taking.{leaves, taken};

use super::answers::Answer;
use super::commit::commit_on;
use super::judge::judge_for;
use tables::limits::{VEHICLE, VEHICLE_SIZE};
use tables::start::{Started, start as start_store};

// Makes any 49,152 bytes a fresh store.
pub fn start(store: &mut [u8]) -> Started
    ensures { Answers (starting vehicle store.old) (begins result store.new) }
{
    start_store(store, VEHICLE)
}

// Judges a message: answers as committing it to this store would, writes the reply that committing would write, and leaves the store as it is.
pub fn judge(message: &[u8], store: &[u8], reply: &mut [u8]) -> Answer
    ensures { Judges vehicle message.now store.now reply.old (said result) reply.new }
{
    judge_for::<VEHICLE_SIZE>(message, store, reply, VEHICLE)
}

// Commits a message, which it judges again: the reply is written for 0 to 5, and only a taken request changes the store.
pub fn commit(message: &[u8], store: &mut [u8], reply: &mut [u8]) -> Answer
    ensures { Answers (taken vehicle message.now store.old reply.old) (leaves result store.new reply.new) }
{
    commit_on::<VEHICLE_SIZE>(message, store, reply, VEHICLE)
}
