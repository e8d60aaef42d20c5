// The whole store: a setting that was read is applied to its region.
ghost use Rattle.std.specs.Prelude.{◌≡◌, ◌≤◌, length};
ghost use Rattle.tables.specs.Forms.{Roomy};
ghost use Rattle.tables.specs.Layout.{channels_at};
ghost use Rattle.tables.specs.Store.{Applied};
ghost use Rattle.store_apply.specs.Places.{Unlisted, PlaceApplied};

use settings::settings::Setting;
use store_lists::channels::apply_channels;
use store_lists::contacts::apply_contacts;
use store_lists::lines::apply_lines;
use store_places::fixed::{put_hash, put_home, put_key, put_system};
use store_places::line_slots::apply_line_slot;
use store_places::members::{apply_group, apply_individual};
use store_places::texts::{TextTable, apply_texts};
use tables::heads::{group_flag_byte, individual_flag_byte};
use tables::limits::{Limits, roomy};
use tables::places::{
    CHANNEL_SLOT, CHANNELS, COUNT, GROUP_CONTACTS, GROUPS, HASH, HOME, INDIVIDUAL_CONTACTS,
    INDIVIDUALS, KEY, LINE_SLOT, LINE_SLOTS, QUICK, STATUS, SYSTEM,
};

// Changes the region of a setting that is for none of the lists, in bytes that have all regions up to these.
fn apply_place(store: &mut [u8], m: &[u8], setting: Setting)
    requires { (channels_at ≤ length store.old) × Unlisted setting }
    ensures { PlaceApplied m.now setting store.old store.new }
{
    match setting {
        Setting::Key(target, flags) => put_key(&mut store[KEY..HOME], target, flags),
        Setting::QuickTexts(op, list) => {
            apply_texts(&mut store[QUICK..STATUS], m, TextTable::Quick, op, list)
        }
        Setting::Home(numbers) => put_home(&mut store[HOME..SYSTEM], numbers),
        Setting::System(code) => put_system(&mut store[SYSTEM..QUICK], code),
        Setting::StatusTexts(op, list) => {
            apply_texts(&mut store[STATUS..GROUPS], m, TextTable::Status, op, list)
        }
        Setting::Group(op, flags, slot) => apply_group(
            &mut store[GROUPS..INDIVIDUALS],
            m,
            op,
            flags,
            slot,
        ),
        Setting::Individual(op, flags, slot) => {
            apply_individual(&mut store[INDIVIDUALS..LINE_SLOTS], m, op, flags, slot)
        }
        Setting::LineSlot(op, flags, slot) => {
            apply_line_slot(&mut store[LINE_SLOTS..GROUP_CONTACTS], m, op, flags, slot)
        }
        Setting::Last(_, hash) => put_hash(&mut store[HASH..KEY], m, hash),
        _ => {}
    }
}

// Changes the region of a setting, in bytes that have all regions; whether there was room.
fn apply_region(store: &mut [u8], limits: Limits, m: &[u8], setting: Setting) -> bool
    requires { Roomy limits × (length store.old ≡ limits.size) }
    ensures { Applied limits m.now setting store.old store.new result }
{
    let lines = CHANNELS + (COUNT + limits.channels * CHANNEL_SLOT);
    let end = lines + (COUNT + limits.lines * LINE_SLOT + limits.lines);
    match setting {
        Setting::GroupContacts(op, flags, list) => {
            let byte = group_flag_byte(flags);
            apply_contacts(
                &mut store[GROUP_CONTACTS..INDIVIDUAL_CONTACTS],
                m,
                op,
                byte,
                list,
            )
        }
        Setting::IndividualContacts(op, flags, list) => {
            let byte = individual_flag_byte(flags);
            apply_contacts(&mut store[INDIVIDUAL_CONTACTS..CHANNELS], m, op, byte, list)
        }
        Setting::Lines(op, flags, list) => {
            apply_lines(&mut store[lines..end], m, op, flags, list)
        }
        Setting::Channels(op, list) => apply_channels(&mut store[CHANNELS..lines], m, op, list),
        _ => {
            apply_place(store, m, setting);
            true
        }
    }
}

// Whether there was room. Bytes that are no store of these limits may be left as they were.
pub fn apply(store: &mut [u8], limits: Limits, m: &[u8], setting: Setting) -> bool
    ensures { Applied limits m.now setting store.old store.new result }
{
    if store.len() != limits.size {
        return false;
    }
    if !roomy(limits) {
        return false;
    }
    apply_region(store, limits, m, setting)
}
