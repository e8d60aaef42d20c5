// The tables that have texts, by number: where their slots stand in a store and in a working copy.
ghost use Rattle.std.specs.Prelude.{◌≡◌, ◌≤◌, ◌<◌};
ghost use Rattle.tables.specs.SharedLayout.{heads_size};
ghost use Rattle.working.specs.Runs.{run_of, NumberIs, slots_end, heads_end, Small, Inside};

use shared_texts::Run;
use tables::head_places::{
    GROUP_CONTACT_HEADS, GROUP_HEADS, INDIVIDUAL_CONTACT_HEADS, INDIVIDUAL_HEADS, LINE_HEAD,
    LINE_SLOT_HEADS, SHARED_CHANNELS, STATUS_HEADS,
};
use tables::limits::Limits;
use tables::places::{
    CHANNEL_SLOT, CHANNELS, CONTACT_PLACES, COUNT, GROUP_CONTACTS, GROUPS, INDIVIDUAL_CONTACTS,
    INDIVIDUALS, LINE_SLOTS, LINE_TEXT, MEMBER_TEXT, QUICK, QUICK_PLACES, QUICK_SLOT, SLOT_PLACES,
    STATUS, STATUS_PLACES, STATUS_TEXT,
};
use writing::Kind;

// How many tables have texts.
pub const TEXT_TABLES: usize = 8;

// The number of the lines, the last of them.
pub const LINES: usize = 7;

// The bytes of the longest text but a quick text's.
pub(crate) const SHORT: usize = 32;

// All but the lines, whose places go by the limits.
const RUNS: [Run; LINES] = [
    Run {
        start: QUICK,
        from: QUICK,
        own: 0,
        room: QUICK_SLOT,
        many: QUICK_PLACES,
    },
    Run {
        start: STATUS_HEADS,
        from: STATUS,
        own: STATUS_TEXT,
        room: SHORT,
        many: STATUS_PLACES,
    },
    Run {
        start: GROUP_HEADS,
        from: GROUPS,
        own: MEMBER_TEXT,
        room: SHORT,
        many: SLOT_PLACES,
    },
    Run {
        start: INDIVIDUAL_HEADS,
        from: INDIVIDUALS,
        own: MEMBER_TEXT,
        room: SHORT,
        many: SLOT_PLACES,
    },
    Run {
        start: LINE_SLOT_HEADS,
        from: LINE_SLOTS,
        own: LINE_TEXT,
        room: SHORT,
        many: SLOT_PLACES,
    },
    Run {
        start: GROUP_CONTACT_HEADS + COUNT,
        from: GROUP_CONTACTS + COUNT,
        own: MEMBER_TEXT,
        room: SHORT,
        many: CONTACT_PLACES,
    },
    Run {
        start: INDIVIDUAL_CONTACT_HEADS + COUNT,
        from: INDIVIDUAL_CONTACTS + COUNT,
        own: MEMBER_TEXT,
        room: SHORT,
        many: CONTACT_PLACES,
    },
];

// The number of a kind's table; none where it has no texts.
pub(crate) fn number_of(kind: Kind) -> Option<usize>
    ensures { NumberIs kind result }
{
    match kind {
        Kind::QuickTexts => Some(0),
        Kind::StatusTexts => Some(1),
        Kind::Group => Some(2),
        Kind::Individual => Some(3),
        Kind::LineSlot => Some(4),
        Kind::GroupContacts => Some(5),
        Kind::IndividualContacts => Some(6),
        Kind::Lines => Some(LINES),
        Kind::Key | Kind::Home | Kind::Channels | Kind::System | Kind::Last => None,
    }
}

// Table k.
pub(crate) fn run_of(limits: Limits, k: usize) -> Run
    requires { (k < 8) × (limits.channels < 65536) × (limits.lines ≤ 255) }
    ensures { (result ≡ run_of limits k) × Small result × Inside limits result }
{
    if k < LINES {
        return RUNS[k];
    }
    let channels = COUNT + limits.channels * CHANNEL_SLOT;
    let start = SHARED_CHANNELS + channels + COUNT;
    let from = CHANNELS + channels + COUNT;
    Run {
        start,
        from,
        own: LINE_TEXT,
        room: SHORT,
        many: limits.lines,
    }
}

// Where a table's slots end in a working copy.
pub(crate) fn slots_end(run: Run) -> usize
    requires { Small run }
    ensures { result ≡ slots_end run }
{
    run.from + run.many * (run.own + run.room)
}

// Where its heads end in a store.
pub(crate) fn heads_end(run: Run) -> usize
    requires { Small run }
    ensures { result ≡ heads_end run }
{
    run.start + run.many * (run.own + 1)
}

// How many bytes the heads take, which is where the area starts.
pub(crate) fn heads_size(limits: Limits) -> usize
    requires { (limits.channels < 65536) × (limits.lines ≤ 255) }
    ensures { result ≡ heads_size limits }
{
    let channels = COUNT + limits.channels * CHANNEL_SLOT;
    let lines = COUNT + limits.lines * LINE_HEAD + limits.lines;
    SHARED_CHANNELS + (channels + lines)
}
