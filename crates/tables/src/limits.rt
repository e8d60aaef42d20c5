// What differs between sets: room for lines and channels, the largest message, the size of the store, and how it keeps texts.
ghost use Rattle.std.specs.Prelude.{◌≡◌, true, ◌↔◌, ◌≤◌, ◌<◌};
ghost use Rattle.tables.specs.Forms.{AreaFits, Roomy};
ghost use Rattle.tables.specs.Layout.{used_size};
ghost use Rattle.tables.specs.SharedLayout.{heads_size};

use super::head_places::{LINE_HEAD, SHARED_CHANNELS};
use super::places::{CHANNEL_SLOT, CHANNELS, COUNT, COUNTED, LINE_SLOT, ORDERED};

// How a store keeps texts: each in a place of its own, or all in one area of so many bytes.
#[derive(Clone, Copy)]
pub enum Texts {
    Placed,
    Shared(usize),
}

#[derive(Clone, Copy)]
pub struct Limits {
    pub lines: usize,
    pub channels: usize,
    pub message: usize,
    pub size: usize,
    pub texts: Texts,
}

// How many bytes the store of a hand-held has.
pub const HANDHELD_SIZE: usize = 24576;

// A hand-held: room for 32 lines and 64 channels, messages of up to 4,096 bytes, and as many bytes for all texts.
pub const HANDHELD: Limits = Limits {
    lines: 32,
    channels: 64,
    message: 4096,
    size: HANDHELD_SIZE,
    texts: Texts::Shared(4096),
};

// How many bytes the store of a vehicle set has.
pub const VEHICLE_SIZE: usize = 49152;

// A vehicle set: room for 128 lines and 256 channels, messages of up to 8,192 bytes.
pub const VEHICLE: Limits = Limits {
    lines: 128,
    channels: 256,
    message: 8192,
    size: VEHICLE_SIZE,
    texts: Texts::Placed,
};

// How many bytes the heads take, which is where an area that texts share starts.
fn heads_size(limits: Limits) -> usize
    requires { (limits.channels < 65536) × (limits.lines ≤ 255) }
    ensures { result ≡ heads_size limits }
{
    let channels = COUNT + limits.channels * CHANNEL_SLOT;
    let lines = COUNT + limits.lines * LINE_HEAD + limits.lines;
    SHARED_CHANNELS + (channels + lines)
}

// Whether an area that texts share has room in the store, behind the heads.
fn area_fits(limits: Limits) -> bool
    requires { (limits.channels < 65536) × (limits.lines ≤ 255) × (used_size limits ≤ limits.size) }
    ensures { (result ≡ true) ↔ AreaFits limits.texts limits }
{
    let texts = limits.texts;
    match texts {
        Texts::Placed => true,
        Texts::Shared(area) => area <= limits.size - heads_size(limits),
    }
}

// Whether the tables have room in a store of the limits' size, their counts in two bytes, and the lines' positions, plus one, in one.
pub fn roomy(limits: Limits) -> bool
    ensures { (result ≡ true) ↔ Roomy limits }
{
    if COUNTED < limits.channels {
        return false;
    }
    if ORDERED < limits.lines {
        return false;
    }
    let channels = COUNT + limits.channels * CHANNEL_SLOT;
    let lines = COUNT + limits.lines * LINE_SLOT + limits.lines;
    if limits.size < CHANNELS + (channels + lines) {
        return false;
    }
    area_fits(limits)
}
