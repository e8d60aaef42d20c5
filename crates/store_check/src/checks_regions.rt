// Whether the regions of a store stand where they have to, in both forms: docs/STORE.md says where.
ghost use Rattle.std.specs.Prelude.{◌≡◌, true, ◌↔◌, ◌≤◌, ◌<◌, length};
ghost use Rattle.tables.specs.Layout.{quick_at};
ghost use Rattle.shared_texts.specs.Regions.{Stand};
ghost use Rattle.store_check.specs.Stores.{indexed_regions, contact_regions, regions_in, group_contacts_start, channels_start, regions_end};

use super::checks_fixed::fixed_ok;
use super::checks_lists::{channels_ok, contacts_ok, lines_ok};
use super::checks_tables::{Table, places_ok};
use super::forms::{Form, starts_of};
use tables::head_places::LINE_HEAD;
use tables::limits::Limits;
use tables::members::Members;
use tables::places::{CHANNEL_SLOT, COUNT, LINE_SLOT, QUICK};

// The five indexed tables.
fn indexed_ok(form: Form, store: &[u8]) -> bool
    requires { group_contacts_start form ≤ length store.now }
    ensures { (result ≡ true) ↔ Stand (indexed_regions form) quick_at store.now }
{
    let at = starts_of(form);
    let status = at.status;
    if !places_ok(form, Table::QuickTexts, &store[QUICK..status]) {
        return false;
    }
    let groups = at.groups;
    if !places_ok(form, Table::StatusTexts, &store[status..groups]) {
        return false;
    }
    let individuals = at.individuals;
    if !places_ok(
        form,
        Table::Members(Members::OfGroups),
        &store[groups..individuals],
    ) {
        return false;
    }
    let lines = at.line_slots;
    if !places_ok(
        form,
        Table::Members(Members::OfIndividuals),
        &store[individuals..lines],
    ) {
        return false;
    }
    let end = at.group_contacts;
    places_ok(form, Table::Lines, &store[lines..end])
}

// The two lists of contacts.
fn contact_lists_ok(form: Form, store: &[u8]) -> bool
    requires { channels_start form ≤ length store.now }
    ensures { (result ≡ true) ↔ Stand (contact_regions form) (group_contacts_start form) store.now }
{
    let at = starts_of(form);
    let groups = at.group_contacts;
    let individuals = at.individual_contacts;
    if !contacts_ok(form, Members::OfGroups, &store[groups..individuals]) {
        return false;
    }
    let end = at.channels;
    contacts_ok(form, Members::OfIndividuals, &store[individuals..end])
}

// Where the regions end.
pub(crate) fn regions_end(form: Form, limits: Limits) -> usize
    requires { (limits.channels < 65536) × (limits.lines ≤ 255) }
    ensures { result ≡ regions_end form limits }
{
    let at = starts_of(form);
    let lines = at.channels + (COUNT + limits.channels * CHANNEL_SLOT);
    match form {
        Form::Placed => lines + (COUNT + limits.lines * LINE_SLOT + limits.lines),
        Form::Shared => lines + (COUNT + limits.lines * LINE_HEAD + limits.lines),
    }
}

// All regions.
pub(crate) fn regions_ok(form: Form, store: &[u8], limits: Limits) -> bool
    requires { (limits.channels < 65536) × (limits.lines ≤ 255) × (regions_end form limits ≤ length store.now) }
    ensures { (result ≡ true) ↔ Stand (regions_in form limits) 0 store.now }
{
    if !fixed_ok(store) {
        return false;
    }
    if !indexed_ok(form, store) {
        return false;
    }
    if !contact_lists_ok(form, store) {
        return false;
    }
    let at = starts_of(form);
    let channels = at.channels;
    let lines = channels + (COUNT + limits.channels * CHANNEL_SLOT);
    if !channels_ok(&store[channels..lines]) {
        return false;
    }
    let end = regions_end(form, limits);
    lines_ok(form, &store[lines..end], limits.lines)
}
