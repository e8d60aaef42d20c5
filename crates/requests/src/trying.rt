// A setting tried on a working copy of the store. Where texts share an area, the bytes that they take are a number, which is judged and kept setting by setting.
ghost use Rattle.std.specs.Prelude.{◌≡◌, ◌+◌, ◌-◌};
ghost use Rattle.tables.specs.Store.{TableSum, WorkSum};
ghost use Rattle.tables.specs.Texts.{WhereShared};
ghost use Rattle.tables.specs.declared.limits.Texts.TheVariants.{Shared};
ghost use Rattle.requests.specs.Trying.{read_kind, HeldAfter, TryIs};

use settings::settings::Setting;
use store_apply::store::apply;
use tables::limits::{Limits, Texts};
use working::sums::{table_bytes, work_bytes};
use writing::Kind;

// The kind of a setting.
pub fn kind_of(setting: Setting) -> Kind
    ensures { result ≡ read_kind setting }
{
    match setting {
        Setting::GroupContacts(_, _, _) => Kind::GroupContacts,
        Setting::IndividualContacts(_, _, _) => Kind::IndividualContacts,
        Setting::Lines(_, _, _) => Kind::Lines,
        Setting::Key(_, _) => Kind::Key,
        Setting::QuickTexts(_, _) => Kind::QuickTexts,
        Setting::Home(_) => Kind::Home,
        Setting::Channels(_, _) => Kind::Channels,
        Setting::System(_) => Kind::System,
        Setting::StatusTexts(_, _) => Kind::StatusTexts,
        Setting::Group(_, _, _) => Kind::Group,
        Setting::Individual(_, _, _) => Kind::Individual,
        Setting::LineSlot(_, _, _) => Kind::LineSlot,
        Setting::Last(_, _) => Kind::Last,
    }
}

// The bytes that all texts take in a working copy, counted where they share an area.
pub(crate) fn all_bytes(work: &[u8], limits: Limits) -> usize
    ensures { WhereShared limits.texts (WorkSum limits work.now result) }
{
    match limits.texts {
        Texts::Placed => 0,
        Texts::Shared(_) => work_bytes(work, limits),
    }
}

// The same of the table of a kind.
fn own_bytes(work: &[u8], limits: Limits, kind: Kind) -> usize
    ensures { WhereShared limits.texts (TableSum limits kind work.now result) }
{
    match limits.texts {
        Texts::Placed => 0,
        Texts::Shared(_) => table_bytes(work, limits, kind),
    }
}

// The bytes of texts that share an area, where one table's took so many before and take so many after; none where they have no room.
fn sum_within(area: usize, sum: usize, before: usize, after: usize) -> Option<usize>
    ensures { HeldAfter (Shared area) (sum - before + after) result }
{
    let others = sum.saturating_sub(before);
    if area < others {
        return None;
    }
    let room = area - others;
    if room < after {
        return None;
    }
    Some(others + after)
}

// The same however texts are kept: where each has a place of its own, they are not counted and no sum binds them.
pub fn sum_after(texts: Texts, sum: usize, before: usize, after: usize) -> Option<usize>
    ensures { HeldAfter texts (sum - before + after) result }
{
    match texts {
        Texts::Placed => Some(0),
        Texts::Shared(area) => sum_within(area, sum, before, after),
    }
}

// Applies a setting to a working copy whose texts take so many bytes, and judges its room.
pub(crate) fn try_setting(
    work: &mut [u8],
    limits: Limits,
    m: &[u8],
    setting: Setting,
    sum: usize,
) -> Option<usize>
    ensures { TryIs limits m.now setting sum work.old work.new result }
{
    let kind = kind_of(setting);
    let before = own_bytes(work, limits, kind);
    if !apply(work, limits, m, setting) {
        return None;
    }
    let after = own_bytes(work, limits, kind);
    sum_after(limits.texts, sum, before, after)
}
