// Exports a part of a store as a request.
ghost use Rattle.std.specs.Prelude.{◌≡◌, ◌+◌, ◌≤◌, ◌<◌, length};
ghost use Rattle.lists.specs.Ladder.{Answers};
ghost use Rattle.tables.specs.Forms.{Roomy};
ghost use Rattle.tables.specs.Layout.{count_size, channels_at};
ghost use Rattle.working.specs.Seen.{Lends};
ghost use Rattle.export.specs.Exportable.{Exportable};
ghost use Rattle.export.specs.Exporting.{exporting, told};
ghost use Rattle.export.specs.PartWriters.{part_from, part_to, WritesPart, PartWritten, Headed};

use super::parts::{NoExport, Part};
use export_write::channels::export_channels;
use export_write::contacts::export_contacts;
use export_write::fixed::export_fixed;
use export_write::line_slots::export_line_slots;
use export_write::lines::export_lines;
use export_write::members::export_members;
use export_write::text_lists::{export_quick, export_status};
use export_write::writers::{FIRST, Settings};
use read_carrier::carrier::{MFID, START, UNICODE16};
use slots::bytes::copy;
use store_check::checks::is_store;
use tables::limits::Limits;
use tables::members::Members;
use tables::places::{
    CHANNEL_SLOT, CHANNELS, COUNT, GROUP_CONTACTS, GROUPS, INDIVIDUAL_CONTACTS, INDIVIDUALS, KEY,
    LINE_SLOT, LINE_SLOTS, QUICK, STATUS,
};
use working::seen::seen;

// OTAPVer 1 and MsgType 0.
const REQUEST: u8 = 0b0000_1000;

// Where a part's slots stand in a working copy whose lines' region and whose order of the lines start here, behind a list's count: from this byte up to that one. docs/STORE.md.
#[derive(Clone, Copy)]
pub(crate) struct Span(usize, usize);

fn span_of(part: Part, lines: usize, order: usize) -> Span
    requires { (channels_at + count_size ≤ lines) × (lines + count_size ≤ order) }
    ensures { (result.0 ≡ part_from lines order part) × (result.1 ≡ part_to lines order part) × (result.0 ≤ result.1) × (result.1 ≤ order) }
{
    match part {
        Part::Lines => Span(lines + COUNT, order),
        Part::Fixed => Span(KEY, QUICK),
        Part::QuickTexts => Span(QUICK, STATUS),
        Part::Channels => Span(CHANNELS + COUNT, lines),
        Part::StatusTexts => Span(STATUS, GROUPS),
        Part::Groups => Span(GROUPS, INDIVIDUALS),
        Part::Individuals => Span(INDIVIDUALS, LINE_SLOTS),
        Part::GroupContacts => Span(GROUP_CONTACTS + COUNT, INDIVIDUAL_CONTACTS),
        Part::IndividualContacts => Span(INDIVIDUAL_CONTACTS + COUNT, CHANNELS),
        Part::LineSlots => Span(LINE_SLOTS, GROUP_CONTACTS),
    }
}

// The settings of what a part's bytes hold, behind a request's head.
fn write_held(buffer: &mut [u8], part: Part, held: &[u8]) -> Settings
    ensures { WritesPart part held.now buffer.old buffer.new result }
{
    match part {
        Part::Lines => export_lines(buffer, held),
        Part::Fixed => export_fixed(buffer, held),
        Part::QuickTexts => export_quick(buffer, held),
        Part::Channels => export_channels(buffer, held),
        Part::StatusTexts => export_status(buffer, held),
        Part::Groups => export_members(buffer, Members::OfGroups, held),
        Part::Individuals => export_members(buffer, Members::OfIndividuals, held),
        Part::GroupContacts => export_contacts(buffer, Members::OfGroups, held),
        Part::IndividualContacts => export_contacts(buffer, Members::OfIndividuals, held),
        Part::LineSlots => export_line_slots(buffer, held),
    }
}

// The settings of a part of a working copy.
fn write_part(buffer: &mut [u8], part: Part, work: &[u8], limits: Limits) -> Settings
    requires { Roomy limits × (length work.now ≡ limits.size) × (limits.message ≤ length buffer.old) }
    ensures { Exportable limits → PartWritten limits part work.now buffer.old buffer.new result }
{
    let lines = CHANNELS + (COUNT + limits.channels * CHANNEL_SLOT);
    let order = lines + (COUNT + limits.lines * LINE_SLOT);
    let span = span_of(part, lines, order);
    let start = span.0;
    let end = span.1;
    write_held(buffer, part, &work[start..end])
}

// The carrier and the first data bytes of a request whose settings were written up to end.
fn start_request(buffer: &mut [u8], count: u8, end: usize) -> usize
    ensures { (result ≤ length buffer.new) × ((8 ≤ end) × (end ≤ length buffer.old) × (end < 65540) → Headed count end buffer.old buffer.new result) }
{
    if end < FIRST {
        return 0;
    }
    if buffer.len() < end {
        return 0;
    }
    let length = end - 4;
    let start = [
        START[0],
        START[1],
        (length / 256 % 256) as u8,
        (length % 256) as u8,
        MFID,
        UNICODE16,
        REQUEST,
        count,
    ];
    copy(&mut buffer[0..FIRST], &start);
    end
}

// The request that exports a part of a store of a set with these limits, which lends bytes to work in: its length; or why there is none, and the buffer stays.
pub fn export_in(
    part: u32,
    store: &[u8],
    buffer: &mut [u8],
    limits: Limits,
    work: &mut [u8],
) -> Result<usize, NoExport>
    ensures { ((told result).request_length ≤ length buffer.new) × (Exportable limits → Lends limits work.old → Answers (exporting limits part store.now buffer.old) (record { answer = told result; buffer = buffer.new })) }
{
    if buffer.len() < limits.message {
        return Err(NoExport::Buffer);
    }
    if !is_store(store, limits) {
        return Err(NoExport::NotAStore);
    }
    let which = Part::try_from(part)?;
    let from = seen(store, work, limits);
    // What is lent to work in has another size.
    if from.len() != limits.size {
        return Err(NoExport::NotAStore);
    }
    let settings = write_part(buffer, which, from, limits);
    Ok(start_request(buffer, settings.count, settings.end))
}
