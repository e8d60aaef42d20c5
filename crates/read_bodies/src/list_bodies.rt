// Settings that hold a list: line contacts, quick texts, scan channels and status texts.
ghost use Rattle.std.specs.Prelude.{◌≡◌, ℕ};
ghost use Rattle.settings.specs.Meant.{BodyAt};
ghost use Rattle.read_bodies.specs.Units.{LeastIs};
ghost use Rattle.writing.specs.declared.Kind.{Kind};

use super::flags::line_flags;
use super::heads::head;
use read_fields::channels::walk_channels;
use read_fields::entries::{Listed, walk_entries};
use settings::settings::{Entries, Setting};
use writing::{Coding, Operation};

pub fn read_lines(m: &[u8], p: usize, operations: u8, coding: Coding) -> Option<(Setting, usize)>
    ensures { operations ≡ 3 → (left : ℕ) → BodyAt coding Kind.Lines left m.now p result }
{
    let (n, operation) = head(m, p, 2, operations)?;
    let flags = line_flags(n);
    let start = p + 2;
    let count = (n % 256) as usize;
    let next = walk_entries(m, start, count, Listed::Contacts, coding)?;
    let entries = Entries {
        start,
        count,
        next,
        coding,
    };
    Some((Setting::Lines(operation, flags, entries), next))
}

pub fn read_quick_texts(
    m: &[u8],
    p: usize,
    operations: u8,
    coding: Coding,
) -> Option<(Setting, usize)>
    ensures { operations ≡ 3 → (left : ℕ) → BodyAt coding Kind.QuickTexts left m.now p result }
{
    let (n, operation) = head(m, p, 1, operations)?;
    let start = p + 1;
    let count = (n % 64) as usize;
    let list = Listed::QuickTexts(least_units(operation));
    let next = walk_entries(m, start, count, list, coding)?;
    let entries = Entries {
        start,
        count,
        next,
        coding,
    };
    Some((Setting::QuickTexts(operation, entries), next))
}

// How many units a quick text has at least: none in a delete, else one.
fn least_units(operation: Operation) -> usize
    ensures { LeastIs operation result }
{
    match operation {
        Operation::Delete => 0,
        Operation::Add | Operation::Replace => 1,
    }
}

pub fn read_channels(m: &[u8], p: usize, operations: u8, coding: Coding) -> Option<(Setting, usize)>
    ensures { operations ≡ 3 → (left : ℕ) → BodyAt coding Kind.Channels left m.now p result }
{
    let (n, operation) = head(m, p, 2, operations)?;
    let start = p + 2;
    let count = (n % 1024) as usize;
    let next = walk_channels(m, start, count)?;
    let entries = Entries {
        start,
        count,
        next,
        coding,
    };
    Some((Setting::Channels(operation, entries), next))
}

pub fn read_status_texts(
    m: &[u8],
    p: usize,
    operations: u8,
    coding: Coding,
) -> Option<(Setting, usize)>
    ensures { operations ≡ 3 → (left : ℕ) → BodyAt coding Kind.StatusTexts left m.now p result }
{
    let (n, operation) = head(m, p, 2, operations)?;
    let start = p + 2;
    let count = (n % 256) as usize;
    let next = walk_entries(m, start, count, Listed::StatusTexts, coding)?;
    let entries = Entries {
        start,
        count,
        next,
        coding,
    };
    Some((Setting::StatusTexts(operation, entries), next))
}
