// Answers a query with one message of its report.
ghost use Rattle.std.specs.Prelude.{ℕ, ◌-◌, ◌≤◌, ◌≡◌, List, length};
ghost use Rattle.lists.specs.Ladder.{Answers};
ghost use Rattle.tables.specs.Forms.{Roomy};
ghost use Rattle.tables.specs.Store.{StoreOf};
ghost use Rattle.working.specs.Seen.{Lends, Seen};
ghost use Rattle.reports.specs.Reporting.{reporting, Reportable};
ghost use Rattle.reports.specs.Reports.{TypesOf};
ghost use Rattle.reporting.specs.Told.{told};
ghost use Rattle.reporting.specs.Written.{answering};

use super::answers::{NoReport, Written};
use super::asking::{TYPES, read_query};
use super::message::{FIRST, put_items, start_report};
use super::planning::plan_report;
use store_check::checks::is_store;
use tables::limits::Limits;
use working::seen::seen;

// The most messages of a report.
const MESSAGES: usize = 255;

// How many bytes of parameters a message has room for.
fn room_in(message: usize) -> usize
    ensures { result ≡ message - 10 }
{
    if message < FIRST { 0 } else { message - FIRST }
}

// How many messages stand before the one of this index.
fn messages_before(index: u32) -> usize
    ensures { result ≡ index - 1 }
{
    if index < 1 { 0 } else { (index - 1) as usize }
}

// The message of this index of the report that answers these types, from what is seen of a store.
fn report_types(
    types: &[u8],
    index: u32,
    work: &[u8],
    buffer: &mut [u8],
    limits: Limits,
) -> Result<Written, NoReport>
    requires { Roomy limits × (length work.now ≡ limits.size) × (length types.now ≤ 255) × (limits.message ≤ length buffer.old) }
    ensures { Reportable limits → (query store : List ℕ) → TypesOf types.now query → StoreOf limits store → Seen limits store work.now → Answers (answering limits query index store buffer.old) (record { answer = told result; buffer = buffer.new }) }
{
    let room = room_in(limits.message);
    let j = messages_before(index);
    let plan = plan_report(types, work, limits, room, j);
    let total = plan.closed + 1;
    if MESSAGES < total {
        return Err(NoReport::BadQuery);
    }
    if index < 1 {
        return Err(NoReport::NoMessage);
    }
    let wanted = index as usize;
    if total < wanted {
        return Err(NoReport::NoMessage);
    }
    let end = put_items(buffer, types, work, limits, plan);
    // At most 255, so that the remainder loses nothing.
    let count = (plan.own % 256) as u8;
    let length = start_report(buffer, total as u8, wanted as u8, count, end);
    Ok(Written {
        total: total as u8,
        length,
    })
}

// The message of this index of the report that answers a query to a set with these limits, which lends bytes to work in; or why there is none, and the buffer stays.
pub fn report_in(
    query: &[u8],
    index: u32,
    store: &[u8],
    buffer: &mut [u8],
    limits: Limits,
    work: &mut [u8],
) -> Result<Written, NoReport>
    ensures { Reportable limits → Lends limits work.old → Answers (reporting limits query.now index store.now buffer.old) (record { answer = told result; buffer = buffer.new }) }
{
    if buffer.len() < limits.message {
        return Err(NoReport::Buffer);
    }
    if !is_store(store, limits) {
        return Err(NoReport::NotAStore);
    }
    read_query(query, limits.message)?;
    let from = seen(store, work, limits);
    // What is lent to work in has another size.
    if from.len() != limits.size {
        return Err(NoReport::NotAStore);
    }
    report_types(&query[TYPES..], index, from, buffer, limits)
}
