// Checks whether a proposed request makes one store's tables another's.
ghost use Rattle.std.specs.Prelude.{◌≡◌, true, ◌↔◌, length};
ghost use Rattle.lists.specs.Ladder.{Answers};
ghost use Rattle.updating.specs.Updating.{checking, RequestIn, Took, TailsSame};

use super::answers::Check;
use read_carrier::carrier::{Message, read_message};
use slots::bytes::{copy, same};
use station::answers::number;
use station::commit::commit_for;
use store_check::checks::is_store;
use tables::limits::Limits;
use tables::places::KEY;

// Whether a message is a request of at most so many bytes: a result query is none.
fn is_request(m: &[u8], most: usize) -> bool
    ensures { (result ≡ true) ↔ RequestIn most m.now }
{
    let message = read_message(m, most);
    match message {
        Message::Request(_, _, _) => true,
        _ => false,
    }
}

// Whether a message is answered 0; a request that is leaves the store with the tables after it.
fn takes(message: &[u8], store: &mut [u8], limits: Limits, work: &mut [u8]) -> bool
    ensures { length work.old ≡ limits.size → Took limits message.now store.old store.new result }
{
    let mut reply = [0u8; 20];
    let answer = commit_for(message, store, &mut reply, limits, work);
    number(answer) == 0
}

// Whether two stores have the same tables, the kept hash aside, which stands first.
fn same_tables(a: &[u8], b: &[u8]) -> bool
    ensures { TailsSame a.now b.now result }
{
    if a.len() < KEY {
        return false;
    }
    if b.len() < KEY {
        return false;
    }
    same(&a[KEY..], &b[KEY..])
}

// Whether the first store takes the message, a request, and then has the second's tables, for sets with these limits; as many bytes as a store has are lent twice, for a copy of the first and to work in.
pub fn check_in(
    first: &[u8],
    second: &[u8],
    message: &[u8],
    limits: Limits,
    after: &mut [u8],
    work: &mut [u8],
) -> Check
    ensures { length after.old ≡ limits.size → length work.old ≡ limits.size → Answers (checking limits first.now second.now message.now) result }
{
    if !is_store(first, limits) {
        return Check::FirstNotAStore;
    }
    if !is_store(second, limits) {
        return Check::SecondNotAStore;
    }
    if !is_request(message, limits.message) {
        return Check::No;
    }
    copy(after, first);
    if !takes(message, after, limits, work) {
        return Check::No;
    }
    if !same_tables(after, second) {
        return Check::No;
    }
    Check::Yes
}
