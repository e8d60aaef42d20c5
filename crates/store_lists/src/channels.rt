// What a setting does to the table of channels, which is a region of a store.
ghost use Rattle.std.specs.Prelude.{◌≡◌, true};
ghost use Rattle.slots.specs.Slots.{u16};
ghost use Rattle.writing.specs.declared.Operation.TheVariants.{Add, Delete};
ghost use Rattle.store_lists.specs.Lists.{ChannelApplied, ChannelsApplied, MarkedDropped};

use super::marks::{MARKS, mark_channels};
use counted_lists::changes::{add_end, drop_keyed};
use read_fields::channels::channel_at;
use settings::settings::Entries;
use tables::places::CHANNEL_SLOT;
use tables::replacing::empty_to_replace;
use writing::Operation;

// The two bytes of a slot.
fn channel_slot(n: u16) -> [u8; CHANNEL_SLOT]
    ensures { result ≡ u16 n }
{
    n.to_be_bytes()
}

// Puts a channel at the end, where there is room.
fn add_channel(list: &mut [u8], n: u16) -> bool
    ensures { ChannelApplied Add n list.old list.new result }
{
    let slot = channel_slot(n);
    add_end(list, CHANNEL_SLOT, &slot)
}

// Takes a channel out wherever it stands.
fn delete_channel(list: &mut [u8], n: u16)
    ensures { ChannelApplied Delete n list.old list.new true }
{
    let key = channel_slot(n);
    drop_keyed(list, CHANNEL_SLOT, 0, &key);
}

// Adds the channels of a setting in order, until there is no room: was there?
fn add_channels(list: &mut [u8], m: &[u8], entries: Entries) -> bool
    ensures { ChannelsApplied Add m.now entries list.old list.new result }
{
    for i in 0..entries.count {
        if !add_channel(list, channel_at(m, entries.start, i)) {
            return false;
        }
    }
    true
}

// Takes a channel out if it is marked, and its mark away.
fn delete_marked(list: &mut [u8], marks: &mut [u8], n: u16)
    ensures { MarkedDropped n list.old marks.old list.new marks.new }
{
    let at = usize::from(n);
    if marks.len() <= at {
        return;
    }
    if marks[at] == 0 {
        return;
    }
    delete_channel(list, n);
    marks[at] = 0;
}

// Deletes the channels of a setting in order: each is looked for by its mark, so that one that is not there ends at once.
fn delete_channels(list: &mut [u8], m: &[u8], entries: Entries)
    ensures { ChannelsApplied Delete m.now entries list.old list.new true }
{
    let mut marks = [0u8; MARKS];
    mark_channels(list, &mut marks);
    for i in 0..entries.count {
        delete_marked(list, &mut marks, channel_at(m, entries.start, i));
    }
}

// Applies the channels of a setting in order, until there is no room: was there?
pub fn apply_channels(list: &mut [u8], m: &[u8], operation: Operation, entries: Entries) -> bool
    ensures { ChannelsApplied operation m.now entries list.old list.new result }
{
    empty_to_replace(list, operation);
    match operation {
        Operation::Add => add_channels(list, m, entries),
        Operation::Delete => {
            delete_channels(list, m, entries);
            true
        }
        Operation::Replace => add_channels(list, m, entries),
    }
}
