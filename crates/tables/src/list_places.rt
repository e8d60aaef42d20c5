// Where the channels and the lines stand, by how a store keeps texts.
ghost use Rattle.std.specs.Prelude.{◌≡◌, ◌+◌, ◌*◌, ◌≤◌, ◌<◌};
ghost use Rattle.writing.specs.Ranges.{text_limits};
ghost use Rattle.tables.specs.Forms.{region_start, slot_width};
ghost use Rattle.tables.specs.Heads.{line_own};
ghost use Rattle.tables.specs.Layout.{channels_at, count_size, channels_size, line_width, lines_at};

use super::forms::by_form;
use super::head_places::{LINE_HEAD, SHARED_CHANNELS};
use super::limits::Limits;
use super::places::{CHANNEL_SLOT, CHANNELS, COUNT, COUNTED, LINE_SLOT, ORDERED};

// Where the channels' region starts.
pub fn channels_at(limits: Limits) -> usize
    ensures { (result ≡ region_start limits 11) × (result ≤ channels_at) }
{
    let texts = limits.texts;
    by_form(texts, CHANNELS, SHARED_CHANNELS)
}

// Where the lines' region starts, behind the channels, of which a count has room for no more.
pub fn lines_at(limits: Limits) -> usize
    ensures { (result ≤ lines_at limits) × (region_start limits 11 + count_size ≤ result) × (limits.channels < 65536 → (result ≡ region_start limits 12) × (result ≡ region_start limits 11 + channels_size limits)) }
{
    let channels = limits.channels.min(COUNTED);
    channels_at(limits) + (COUNT + channels * CHANNEL_SLOT)
}

// How wide a line's slot is.
pub fn line_slot(limits: Limits) -> usize
    ensures { result ≡ slot_width limits.texts line_own text_limits.short }
{
    let texts = limits.texts;
    by_form(texts, LINE_SLOT, LINE_HEAD)
}

// How many bytes the lines' slots take, of which an order has room for no more.
pub fn line_slots(limits: Limits) -> usize
    ensures { (result ≤ limits.lines * line_width) × (limits.lines ≤ 255 → result ≡ limits.lines * slot_width limits.texts line_own text_limits.short) }
{
    let texts = limits.texts;
    let lines = limits.lines.min(ORDERED);
    by_form(texts, lines * LINE_SLOT, lines * LINE_HEAD)
}
